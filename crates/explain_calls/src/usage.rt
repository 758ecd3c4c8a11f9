// What is told of words that are not those of `explain`.
ghost use Rattle.std.specs.Prelude.{IfOk};
ghost use Rattle.explain_calls.specs.meaning.Fronts.{IsHint};

use gp_base::limits::{MOST_SUBTHREADS, MOST_TURNS, MOST_WORKERS};
use std::alloc::{AllocError, Global};
use text_pieces::Piece::{Number, Word};
use text_pieces::push_pieces;
use text_places::push_shown;

// What stands after an option: a name, a number up to this one, or a crew.
#[derive(Clone, Copy)]
enum Value {
    Name,
    Number(u64),
    Crew,
}

// An option with its two dashes.
#[derive(Clone, Copy)]
struct Known {
    name: &'static [u8],
    value: Value,
}

const OPTIONS: [Known; 5] = [
    Known {
        name: b"--faults",
        value: Value::Name,
    },
    Known {
        name: b"--turns",
        value: Value::Number(MOST_TURNS),
    },
    Known {
        name: b"--subthreads",
        value: Value::Number(MOST_SUBTHREADS as u64),
    },
    Known {
        name: b"--workers",
        value: Value::Number(MOST_WORKERS as u64),
    },
    Known {
        name: b"--crew",
        value: Value::Crew,
    },
];

const CREWS: [&[u8]; 5] = [b"one", b"wave", b"board", b"steal", b"pipe"];

// The commands of `gprs` and of `gprs_view`, of which `explain` takes none.
const COMMANDS: [&[u8]; 8] = [
    b"run", b"one", b"check", b"log", b"resume", b"ckpt", b"audit", b"soak",
];

const VIEW_COMMANDS: [&[u8]; 4] = [b"order", b"why", b"timeline", b"explain"];

// Why words are not taken: the first of them that is not, or what they lack.
#[derive(Clone, Copy)]
enum Untaken<'a> {
    NoOption {
        word: &'a [u8],
        near: Option<&'static [u8]>,
    },
    Trace,
    NoValue(&'a [u8]),
    Twice(&'a [u8]),
    NoNumber {
        option: &'a [u8],
        value: &'a [u8],
        most: u64,
    },
    NoCrew(&'a [u8]),
    Command {
        word: &'a [u8],
        of: &'static [u8],
    },
    SecondProgram(&'a [u8]),
    NoProgram,
}

// The option of this name.
fn option_named(name: &[u8]) -> Option<Known> {
    let options: [Known; 5] = OPTIONS;
    for option in &options {
        if option.name == name {
            return Some(*option);
        }
    }
    None
}

// How long a word has to be at least for an option to be told that is near to it.
const SHORTEST_NEAR: usize = 4;

// An option whose name begins with this one, or that begins this one.
fn option_near(name: &[u8]) -> Option<&'static [u8]> {
    if name.len() < SHORTEST_NEAR {
        return None;
    }
    let options: [Known; 5] = OPTIONS;
    for option in &options {
        if option.name.starts_with(name) || name.starts_with(option.name) {
            return Some(option.name);
        }
    }
    None
}

// Whether a text is a number from 1 to this one.
fn is_number(text: &[u8], most: u64) -> bool {
    let mut number: u64 = 0;
    for byte in text {
        if !byte.is_ascii_digit() {
            return false;
        }
        number = number
            .saturating_mul(10)
            .saturating_add(u64::from(byte.saturating_sub(b'0')));
    }
    1 <= number && number <= most
}

fn is_among(texts: &[&[u8]], text: &[u8]) -> bool {
    for other in texts {
        if *other == text {
            return true;
        }
    }
    false
}

fn is_crew(text: &[u8]) -> bool {
    let crews: [&[u8]; 5] = CREWS;
    is_among(&crews, text)
}

/// The program of which a word is a command.
pub fn program_of_command(word: &[u8]) -> Option<&'static [u8]> {
    let commands: [&[u8]; 8] = COMMANDS;
    let views: [&[u8]; 4] = VIEW_COMMANDS;
    if is_among(&commands, word) {
        Some(b"gprs")
    } else if is_among(&views, word) {
        Some(b"gprs_view")
    } else {
        None
    }
}

// The word that stands where the program's name is looked for, if it is a command.
fn first_command<'a>(words: &'a [String]) -> Option<Untaken<'a>> {
    let word = words.get(1)?.as_str().as_bytes();
    let of = program_of_command(word)?;
    Some(Untaken::Command { word, of })
}

// Why a value is not one of its option.
fn untaken_value<'a>(option: Known, value: &'a [u8]) -> Option<Untaken<'a>> {
    match option.value {
        Value::Name => None,
        Value::Number(most) => if is_number(value, most) {
            None
        } else {
            Some(Untaken::NoNumber {
                option: option.name,
                value,
                most,
            })
        },
        Value::Crew => if is_crew(value) {
            None
        } else {
            Some(Untaken::NoCrew(value))
        },
    }
}

// Why a word that begins with a dash is no value of an option: it is a number below 0, or another option.
fn untaken_dashed<'a>(option: Known, word: &'a [u8]) -> Untaken<'a> {
    let is_negative = matches!(word.get(1), Some(byte) if byte.is_ascii_digit());
    match option.value {
        Value::Number(most) if is_negative => Untaken::NoNumber {
            option: option.name,
            value: word,
            most,
        },
        _ => Untaken::NoValue(option.name),
    }
}

// The words so far: whether a program was named, which options were given, and that whose value comes next.
#[derive(Drop)]
struct Read {
    program: bool,
    given: Vec<&'static [u8]>,
    waiting: Option<Known>,
}

// A word that begins with a dash, as all options do; a lone dash is a name.
fn is_option(word: &[u8]) -> bool {
    word.len() > 1 && word[0] == b'-'
}

// How many bytes stand before the first `=`, or in all where there is none.
fn name_length(word: &[u8]) -> usize {
    let mut length: usize = 0;
    for byte in word {
        if *byte == b'=' {
            return length;
        }
        length = length.saturating_add(1);
    }
    length
}

// The name of an option, and the value that stands after it in one word.
fn split_value(word: &[u8]) -> (&[u8], Option<&[u8]>) {
    let length = name_length(word);
    match word.get(..length) {
        Some(name) => (name, word.get(length.saturating_add(1)..)),
        None => (word, None),
    }
}

impl Read {
    fn is_given(&self, name: &[u8]) -> bool {
        for other in self.given.as_slice() {
            if *other == name {
                return true;
            }
        }
        false
    }

    // One option more.
    fn option<'a>(&mut self, word: &'a [u8]) -> Result<Option<Untaken<'a>>, AllocError> {
        let (name, value) = split_value(word);
        if name == b"--trace".as_slice() {
            return Ok(Some(Untaken::Trace));
        }
        let Some(option) = option_named(name) else {
            return Ok(Some(Untaken::NoOption {
                word,
                near: option_near(name),
            }));
        };
        if self.is_given(name) {
            return Ok(Some(Untaken::Twice(name)));
        }
        self.given.push(option.name)?;
        match value {
            Some(value) => Ok(untaken_value(option, value)),
            None => {
                self.waiting = Some(option);
                Ok(None)
            }
        }
    }

    // One word more.
    fn word<'a>(&mut self, word: &'a [u8]) -> Result<Option<Untaken<'a>>, AllocError> {
        if let Some(option) = self.waiting {
            if is_option(word) {
                return Ok(Some(untaken_dashed(option, word)));
            }
            self.waiting = None;
            return Ok(untaken_value(option, word));
        }
        if is_option(word) {
            return self.option(word);
        }
        if self.program {
            return Ok(Some(Untaken::SecondProgram(word)));
        }
        self.program = true;
        Ok(None)
    }

    // What is missing after the last word.
    fn missing<'a>(&self) -> Option<Untaken<'a>> {
        match self.waiting {
            Some(option) => Some(Untaken::NoValue(option.name)),
            None => if self.program {
                None
            } else {
                Some(Untaken::NoProgram)
            },
        }
    }
}

// The words after the first.
fn words_after(words: &[String]) -> &[String] {
    match words.get(1..) {
        Some(after) => after,
        None => &[],
    }
}

// The first of the words after `explain` that is not taken, or what they lack. A command is told of before all others, since what follows it is read
// by its rules.
fn first_untaken<'a>(
    alloc: Global,
    words: &'a [String],
) -> Result<Option<Untaken<'a>>, AllocError> {
    let command = first_command(words);
    if command.is_some() {
        return Ok(command);
    }
    let mut read = Read {
        program: false,
        given: Vec::new(alloc),
        waiting: None,
    };
    for word in words_after(words) {
        let found = read.word(word.as_str().as_bytes())?;
        if found.is_some() {
            return Ok(found);
        }
    }
    Ok(read.missing())
}

// Appends a word of the call between two texts.
fn push_word(
    text: &mut Vec<u8>,
    before: &[u8],
    word: &[u8],
    after: &[u8],
) -> Result<(), AllocError> {
    text.extend_from_slice(before)?;
    push_shown(text, word)?;
    text.extend_from_slice(after)
}

// Appends that a word is no option, and the one that is near to it.
fn push_no_option(
    text: &mut Vec<u8>,
    word: &[u8],
    near: Option<&'static [u8]>,
) -> Result<(), AllocError> {
    push_word(text, b"`", word, b"` is no option of explain")?;
    match near {
        Some(near) => push_pieces(text, &[Word(b", but `"), Word(near), Word(b"` is")]),
        None => Ok(()),
    }
}

// Appends that an option takes a number up to this one, and not this value.
fn push_no_number(
    text: &mut Vec<u8>,
    option: &[u8],
    value: &[u8],
    most: u64,
) -> Result<(), AllocError> {
    push_pieces(
        text,
        &[
            Word(b"`"),
            Word(option),
            Word(b"` takes a whole number from 1 to "),
            Number(most),
            Word(b", and not "),
        ],
    )?;
    push_word(text, b"`", value, b"`")
}

// Appends that a word is a command of a program.
fn push_command(text: &mut Vec<u8>, word: &[u8], of: &'static [u8]) -> Result<(), AllocError> {
    push_word(text, b"`", word, b"` is a command of ")?;
    let rest = b": explain takes a program right away, and judges the words of `run` alone";
    push_pieces(text, &[Word(of), Word(rest)])
}

// What is told after a word that stands where no second program may.
fn second_program(word: &[u8]) -> &'static [u8] {
    if word.ends_with(b".csv") {
        b"` is one word too many: one program is explained, and a head of it names its files, after `from`"
    } else {
        b"` is one word too many: one program is explained"
    }
}

// Appends why words are not taken.
fn push_untaken(text: &mut Vec<u8>, untaken: &Option<Untaken<'_>>) -> Result<(), AllocError> {
    match untaken {
        None => text.extend_from_slice(b"these words are not taken"),
        Some(Untaken::NoOption { word, near }) => push_no_option(text, word, *near),
        Some(Untaken::Trace) => text.extend_from_slice(
            b"`--trace` is no option of explain, which writes no trace",
        ),
        Some(Untaken::NoValue(option)) => push_word(text, b"`", option, b"` has no value"),
        Some(Untaken::Twice(option)) => push_word(text, b"`", option, b"` stands twice"),
        Some(
            Untaken::NoNumber {
                option,
                value,
                most,
            },
        ) => push_no_number(text, option, value, *most),
        Some(Untaken::NoCrew(word)) => push_word(
            text,
            b"`--crew` takes one, wave, board, steal or pipe, and not `",
            word,
            b"`",
        ),
        Some(Untaken::Command { word, of }) => push_command(text, word, *of),
        Some(Untaken::SecondProgram(word)) => push_word(text, b"`", word, second_program(word)),
        Some(Untaken::NoProgram) => text.extend_from_slice(b"the name of a program is missing"),
    }
}

/// What is told of words that are not those of `explain`: the first that is not taken, and which words are. The error is
/// that memory is out.
pub fn usage_text(alloc: Global, words: &[String]) -> Result<Vec<u8>, AllocError>
    ensures { IfOk result (λ text. IsHint text.items) }
{
    let mut more = Vec::new(alloc);
    push_untaken(&mut more, &first_untaken(alloc, words)?)?;
    more.extend_from_slice(
        b"\nhint: gprs_view explain PROGRAM [--faults FILE] [--turns N] [--subthreads N] [--crew CREW] [--workers N]\n",
    )?;
    let mut text = Vec::new(alloc);
    text.extend_from_slice(b"hint: ")?;
    text.extend_from_slice(&more)?;
    Ok(text)
}
