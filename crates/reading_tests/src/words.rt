// Words of commands, and words of no command.
use batch_fixtures::files::words_of;
use command_line::{
    Asked, Command, CrewKind, read_ckpt_words, read_waiting_words, read_words, wants_pipe,
};
use gp_base::limits::{DEFAULT_SUBTHREADS, DEFAULT_TURNS};
use std::alloc::{AllocError, Global};
use std::test::Fail;

// Words, and the command, the program, the turns and the subthreads that they ask for.
type Told = (&'static str, Command, &'static str, u64, u32);

const TURNS: u64 = DEFAULT_TURNS;

const SUBTHREADS: u32 = DEFAULT_SUBTHREADS;

const TOLD: [Told; 9] = [
    ("run p.gp", Command::Run, "p.gp", TURNS, SUBTHREADS),
    ("one p.gp", Command::One, "p.gp", TURNS, SUBTHREADS),
    ("check p.gp", Command::Check, "p.gp", TURNS, SUBTHREADS),
    ("run --turns 007 p.gp", Command::Run, "p.gp", 7, SUBTHREADS),
    (
        "one p.gp --subthreads=200000",
        Command::One,
        "p.gp",
        TURNS,
        200000,
    ),
    (
        "run --subthreads 1 p.gp --turns 10000000",
        Command::Run,
        "p.gp",
        10000000,
        1,
    ),
    ("run -- --turns", Command::Run, "--turns", TURNS, SUBTHREADS),
    ("run -", Command::Run, "-", TURNS, SUBTHREADS),
    ("run ", Command::Run, "", TURNS, SUBTHREADS),
];

// Whether this command is asked for on this program, under these limits.
fn asks(asked: Result<Option<Asked>, AllocError>, told: &Told) -> Result<bool, AllocError> {
    let (_, command, program, turns, subthreads) = told;
    match asked {
        Ok(Some(asked)) => {
            let is_told = asked.command == *command
                && asked.program.as_slice() == program.as_bytes()
                && asked.limits.turns == *turns
                && asked.limits.subthreads == *subthreads;
            drop(asked);
            Ok(is_told)
        }
        Ok(None) => Ok(false),
        Err(error) => Err(error),
    }
}

// Whether the words ask for the command that is told.
fn is_asked(alloc: Global, told: &Told) -> Result<bool, AllocError> {
    let words = words_of(alloc, told.0)?;
    asks(read_words(alloc, &words), told)
}

#[test]
fn words_of_a_command(rt: HostRuntime) -> Result<(), Fail> {
    for told in &TOLD {
        assert!(rt; is_asked(rt.alloc(), told)?);
    }
    Ok(())
}

const NO_COMMANDS: [&str; 32] = [
    "",
    " ",
    "run",
    "fly p.gp",
    "Run p.gp",
    "run p.gp q.gp",
    "run -p.gp",
    "run p.gp --turns",
    "run p.gp --turns 0",
    "run p.gp --turns 10000001",
    "run p.gp --turns +5",
    "run p.gp --turns -5",
    "run p.gp --turns=-5",
    "run p.gp --turns=",
    "run p.gp --turns 5 --turns 6",
    "run p.gp --turns 18446744073709551617",
    "one p.gp --subthreads 0",
    "one p.gp --subthreads 200001",
    "check p.gp --turns 5",
    "one p.gp --workers 2",
    "run p.gp --help",
    "run -h",
    "run p.gp --version",
    "run p.gp --crew",
    "run p.gp --crew fast",
    "run p.gp --crew Board",
    "run p.gp --crew pipe",
    "one p.gp --crew steal",
    "run p.gp --every 4",
    "ckpt p.gp",
    "check",
    "check p.gp q.gp",
];

// Whether nothing is asked for.
fn is_none(asked: Result<Option<Asked>, AllocError>) -> Result<bool, AllocError> {
    match asked {
        Ok(Some(asked)) => {
            drop(asked);
            Ok(false)
        }
        Ok(None) => Ok(true),
        Err(error) => Err(error),
    }
}

// Whether the words are those of no command.
fn is_no_command(alloc: Global, text: &str) -> Result<bool, AllocError> {
    let words = words_of(alloc, text)?;
    is_none(read_words(alloc, &words))
}

#[test]
fn words_of_no_command(rt: HostRuntime) -> Result<(), Fail> {
    for text in &NO_COMMANDS {
        assert!(rt; is_no_command(rt.alloc(), text)?);
    }
    assert!(rt; is_none(read_words(rt.alloc(), &Vec::new(rt.alloc())))?);
    Ok(())
}

// The crew that is asked for.
fn crew_of(asked: Result<Option<Asked>, AllocError>) -> Result<Option<CrewKind>, AllocError> {
    match asked {
        Ok(Some(asked)) => {
            let crew = asked.crew;
            drop(asked);
            Ok(Some(crew))
        }
        Ok(None) => Ok(None),
        Err(error) => Err(error),
    }
}

const CREWS: [(&str, Option<CrewKind>); 8] = [
    ("run p.gp", Some(CrewKind::Wave)),
    ("run p.gp --crew one", Some(CrewKind::One)),
    ("run p.gp --crew wave --workers 64", Some(CrewKind::Wave)),
    ("run p.gp --crew board --workers 1", Some(CrewKind::Board)),
    ("run --crew=steal p.gp", Some(CrewKind::Steal)),
    ("soak 4 0 --crew board", Some(CrewKind::Board)),
    ("soak 4 0 --crew steal", Some(CrewKind::Steal)),
    ("soak 4 0 --crew stealing", None),
];

// Whether the words ask for this crew, by both readers of words, and for none that waits.
fn has_crew(alloc: Global, text: &str, crew: Option<CrewKind>) -> Result<bool, AllocError> {
    let words = words_of(alloc, text)?;
    let asked = crew_of(read_words(alloc, &words));
    let waiting = crew_of(read_waiting_words(alloc, &words));
    let waits = wants_pipe(alloc, &words);
    drop(words);
    Ok(asked? == crew && waiting? == crew && !waits?)
}

#[test]
fn words_of_crews(rt: HostRuntime) -> Result<(), Fail> {
    for (text, crew) in &CREWS {
        assert!(rt; has_crew(rt.alloc(), text, *crew)?);
    }
    Ok(())
}

const LASTING: [(&str, bool); 7] = [
    ("run p.gp --crew pipe", true),
    ("soak 4 0 --workers 2 --crew pipe", true),
    ("run p.gp --crew pipes", false),
    ("run --crew pipe", false),
    ("one p.gp --crew pipe", false),
    ("check p.gp --crew pipe", false),
    ("soak 3 0 --crew pipe", false),
];

// Whether the words ask for lasting workers only where that is said, and then only of a call that may wait.
fn is_lasting(alloc: Global, text: &str, lasts: bool) -> Result<bool, AllocError> {
    let words = words_of(alloc, text)?;
    let waits = wants_pipe(alloc, &words);
    let is_none_waiting = is_none(read_waiting_words(alloc, &words));
    let is_none_else = is_none(read_words(alloc, &words));
    drop(words);
    Ok(waits? == lasts && is_none_waiting? != lasts && is_none_else?)
}

#[test]
fn words_of_lasting_workers(rt: HostRuntime) -> Result<(), Fail> {
    for (text, lasts) in &LASTING {
        assert!(rt; is_lasting(rt.alloc(), text, *lasts)?);
    }
    Ok(())
}

// After how many subthreads there is a checkpoint, by what is asked for.
fn every_of(asked: Result<Option<Asked>, AllocError>) -> Result<Option<u32>, AllocError> {
    match asked {
        Ok(Some(asked)) => {
            let every = match asked.command {
                Command::Ckpt(every) if !asked.trace => Some(every),
                _ => None,
            };
            drop(asked);
            Ok(every)
        }
        Ok(None) => Ok(None),
        Err(error) => Err(error),
    }
}

// Whether the words ask for a checkpoint after so many subthreads.
fn has_every(alloc: Global, text: &str, every: Option<u32>) -> Result<bool, AllocError> {
    let words = words_of(alloc, text)?;
    let asked = every_of(read_ckpt_words(alloc, &words));
    drop(words);
    Ok(asked? == every)
}

const CHECKPOINTS: [(&str, Option<u32>); 13] = [
    ("ckpt p.gp", Some(64)),
    ("ckpt p.gp --every 1", Some(1)),
    ("ckpt --every=100000 p.gp", Some(100000)),
    (
        "ckpt p.gp --crew steal --workers 2 --every 4 --faults f.csv",
        Some(4),
    ),
    ("ckpt p.gp --turns 5 --subthreads 6", Some(64)),
    ("ckpt p.gp --every 0", None),
    ("ckpt p.gp --every 100001", None),
    ("ckpt p.gp --every four", None),
    ("ckpt p.gp --trace", None),
    ("ckpt p.gp --crew pipe", None),
    ("ckpt", None),
    ("run p.gp", None),
    (" ", None),
];

#[test]
fn words_of_checkpoints(rt: HostRuntime) -> Result<(), Fail> {
    for (text, every) in &CHECKPOINTS {
        assert!(rt; has_every(rt.alloc(), text, *every)?);
    }
    assert!(rt; is_none(read_ckpt_words(rt.alloc(), &Vec::new(rt.alloc())))?);
    Ok(())
}
