// Characters that look like those of the language and are others, bytes that are no text in UTF-8, and files in UTF-16.

use crate::pieces::push_words;
use std::alloc::AllocError;
use text_pieces::Piece::Word;
use text_pieces::push_pieces;

// What the bytes at a place are.
#[derive(Clone, Copy)]
enum Odd {
    ByteOrderMark,
    NoBreakSpace,
    OtherSpace,
    Quote,
    Dash,
    // The full-width form of this character.
    Wide(u8),
    Hidden,
    // A sign, and what is written in its place.
    Sign(&'static [u8]),
    Foreign,
    NoText,
    Control,
}

/// Where odd bytes stand: in a program, or in a field of a file.
#[derive(Clone, Copy, PartialEq, Eq)]
pub enum Place {
    Program,
    Field,
}

/// What is told of a file in UTF-16.
pub const UTF_16: &[u8] =
    b"the file is in UTF-16, which some editors call Unicode: save it as UTF-8 without a byte-order mark";

/// Whether a file begins as one in UTF-16 does: with the bytes FF FE or FE FF, or with a 0 at every second byte.
pub fn is_utf_16(bytes: &[u8]) -> bool {
    if bytes.starts_with(b"\xff\xfe") || bytes.starts_with(b"\xfe\xff") {
        return true;
    }
    match bytes {
        [0, second, 0, fourth, ..] => *second != 0 && *fourth != 0,
        [first, 0, third, 0, ..] => *first != 0 && *third != 0,
        _ => false,
    }
}

// The plain form of a full-width character, by its last two bytes.
fn plain_form(second: u8, third: u8) -> Option<u8> {
    match (second, third) {
        (0xbc, 0x81..=0xbf) => Some(third.saturating_sub(0x60)),
        (0xbd, 0x80..=0x9e) => Some(third.saturating_sub(0x20)),
        _ => None,
    }
}

// A character of two bytes.
fn odd_of_two(first: u8, second: u8) -> Odd {
    match (first, second) {
        (0xc2, 0xa0) => Odd::NoBreakSpace,
        (0xc2, 0xad) => Odd::Hidden,
        (0xc2, 0xab | 0xbb | 0xb4) => Odd::Quote,
        (0xc3, 0x97) => Odd::Sign(b"*"),
        (0xc3, 0xb7) => Odd::Sign(b"/"),
        _ => Odd::Foreign,
    }
}

// A character of three bytes that begins with E2.
fn odd_of_marks(second: u8, third: u8) -> Odd {
    match (second, third) {
        (0x80, 0x80..=0x8a) | (0x81, 0x9f) => Odd::OtherSpace,
        (0x80, 0xaf) => Odd::NoBreakSpace,
        (0x80, 0x8b..=0x8f | 0xaa..=0xae) | (0x81, 0xa0) => Odd::Hidden,
        (0x80, 0x90..=0x95) | (0x88, 0x92) => Odd::Dash,
        (0x80, 0x98..=0x9f | 0xb9 | 0xba) => Odd::Quote,
        (0x89, 0xa0) => Odd::Sign(b"!="),
        (0x89, 0xa4) => Odd::Sign(b"<="),
        (0x89, 0xa5) => Odd::Sign(b">="),
        _ => Odd::Foreign,
    }
}

// A character of three bytes.
fn odd_of_three(first: u8, second: u8, third: u8) -> Odd {
    match (first, second, third) {
        (0xef, 0xbb, 0xbf) => Odd::ByteOrderMark,
        (0xe3, 0x80, 0x80) => Odd::OtherSpace,
        (0xe2, _, _) => odd_of_marks(second, third),
        (0xef, _, _) => match plain_form(second, third) {
            Some(plain) => Odd::Wide(plain),
            None => Odd::Foreign,
        },
        _ => Odd::Foreign,
    }
}

// A byte above 127 that begins no character: as editors on Windows write a no-break space, quotes and dashes without UTF-8.
fn odd_of_one(byte: u8) -> Odd {
    match byte {
        0xa0 => Odd::NoBreakSpace,
        0x91..=0x94 => Odd::Quote,
        0x96 | 0x97 => Odd::Dash,
        _ => Odd::NoText,
    }
}

fn goes_on(byte: u8) -> bool {
    matches!(byte, 0x80..=0xbf)
}

// The byte at a place, where it goes on with a character.
fn going_on(rest: &[u8], at: usize) -> Option<u8> {
    match rest.get(at) {
        Some(byte) if goes_on(*byte) => Some(*byte),
        _ => None,
    }
}

// What the bytes at the front are that begin with one above 127, and how many of them are one character.
fn odd_above(first: u8, rest: &[u8]) -> (Odd, usize) {
    let (second, third) = (going_on(rest, 1), going_on(rest, 2));
    match (first, second, third) {
        (0xc2..=0xdf, Some(second), _) => (odd_of_two(first, second), 2),
        (0xe0..=0xef, Some(second), Some(third)) => (odd_of_three(first, second, third), 3),
        (0xf0..=0xf4, Some(_), Some(_)) if going_on(rest, 3).is_some() => (Odd::Foreign, 4),
        _ => (odd_of_one(first), 1),
    }
}

// What the bytes at the front are, and how many of them are one character.
fn odd_at(rest: &[u8]) -> Option<(Odd, usize)> {
    let first = *rest.get(0)?;
    match first {
        0..=8 | 11 | 12 | 14..=31 | 127 => Some((Odd::Control, 1)),
        0..=127 => None,
        _ => Some(odd_above(first, rest)),
    }
}

// What they are called.
fn name_of(odd: Odd) -> &'static [u8] {
    match odd {
        Odd::ByteOrderMark => b"a byte-order mark",
        Odd::NoBreakSpace => b"a no-break space",
        Odd::OtherSpace => b"a space of another kind",
        Odd::Quote => b"a curly quote",
        Odd::Dash => b"a dash that is not `-`",
        Odd::Wide(_) => b"a full-width character",
        Odd::Hidden => b"an invisible character",
        Odd::Sign(_) => b"a sign",
        Odd::Foreign => b"a character outside of ASCII",
        Odd::NoText => b"no text in UTF-8",
        Odd::Control => b"a control character",
    }
}

// What to do about them in a program.
fn advice_in_program(odd: Odd) -> &'static [u8] {
    match odd {
        Odd::NoBreakSpace | Odd::OtherSpace => b"put a plain space",
        Odd::Quote => {
            b"the name of a file stands in plain double quotes, and there are no other quotes"
        }
        Odd::Dash => b"put a plain `-`",
        Odd::Foreign =>
            b"names have ASCII letters, digits and `_`; any text may stand in a comment",
        Odd::NoText => b"save the file as UTF-8",
        _ => b"take it out",
    }
}

// What to do about them in a field.
fn advice_in_field(odd: Odd) -> &'static [u8] {
    match odd {
        Odd::Dash => b"put a plain `-`",
        Odd::Foreign => b"a field is a whole number in ASCII",
        Odd::NoText => b"save the file as UTF-8",
        _ => b"take it out",
    }
}

// The digit of a number below 16.
fn hex_digit(number: u8) -> u8 {
    match number {
        0..=9 => b'0' + number,
        10..=15 => b'A' + (number - 10),
        _ => b'?',
    }
}

// Appends bytes in hexadecimal, with a space before each.
fn push_hex(text: &mut Vec<u8>, bytes: &[u8]) -> Result<(), AllocError> {
    for byte in bytes {
        text.extend_from_slice(&[b' ', hex_digit(*byte / 16), hex_digit(*byte % 16)])?;
    }
    Ok(())
}

// What to do about them.
fn advice(odd: Odd, place: Place) -> &'static [u8] {
    if place == Place::Program {
        advice_in_program(odd)
    } else {
        advice_in_field(odd)
    }
}

// Appends where they stand, and what to do about them.
fn push_advice(text: &mut Vec<u8>, odd: Odd, place: Place) -> Result<(), AllocError> {
    let stands: &[u8] = if place == Place::Program {
        b") stands here: "
    } else {
        b") stands in the field: "
    };
    match odd {
        Odd::Wide(plain) => push_pieces(
            text,
            &[
                Word(stands),
                Word(b"put a plain `"),
                Word(&[plain]),
                Word(b"`\n"),
            ],
        ),
        Odd::Sign(words) => push_pieces(
            text,
            &[Word(stands), Word(b"write `"), Word(words), Word(b"`\n")],
        ),
        _ => push_words(text, stands, advice(odd, place), b"\n"),
    }
}

// Appends a hint on bytes that are so.
fn push_hint(text: &mut Vec<u8>, bytes: &[u8], odd: Odd, place: Place) -> Result<(), AllocError> {
    if matches!(odd, Odd::ByteOrderMark) {
        return text.extend_from_slice(
            b"hint: the bytes EF BB BF are a byte-order mark, which editors on Windows put first: save the file as UTF-8 without it\n",
        );
    }
    let count: &[u8] = if bytes.len() > 1 {
        b" (bytes"
    } else {
        b" (byte"
    };
    push_words(text, b"hint: ", name_of(odd), count)?;
    push_hex(text, bytes)?;
    push_advice(text, odd, place)
}

/// Appends a hint on the bytes at the front, where they are a control character or no ASCII. The answer is whether they are.
pub fn push_odd(text: &mut Vec<u8>, rest: &[u8], place: Place) -> Result<bool, AllocError> {
    let Some((odd, length)) = odd_at(rest) else {
        return Ok(false);
    };
    let bytes = match rest.get(..length) {
        Some(bytes) => bytes,
        None => rest,
    };
    push_hint(text, bytes, odd, place)?;
    Ok(true)
}

/// Appends a hint on the first bytes of a field that are a control character or no ASCII, if there are such.
pub fn push_odd_in(text: &mut Vec<u8>, field: &[u8]) -> Result<bool, AllocError> {
    for at in 0..field.len() {
        if push_odd(text, &field[at..], Place::Field)? {
            return Ok(true);
        }
    }
    Ok(false)
}
