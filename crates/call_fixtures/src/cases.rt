// What a call is handed, and what it is to answer.
ghost use Rattle.std.specs.Prelude.{IfOk};
ghost use Rattle.gp_base.specs.Files.{HasDistinctNames};

use batch_fixtures::files::put;
use gp_base::{Name, Seq, Text};
use std::alloc::{AllocError, Global};

/// One of the top calls.
#[derive(Clone, Copy)]
pub enum Call {
    Run,
    Ckpt,
    Log,
    Resume,
    Audit,
}

/// How many bytes the sinks take at once, and the calls that fail; at 0 none does.
#[derive(Clone, Copy)]
pub struct Devices {
    pub most: usize,
    pub read: u64,
    pub output: u64,
    pub error: u64,
}

pub const SOUND: Devices = Devices {
    most: 1000,
    read: 0,
    output: 0,
    error: 0,
};

/// A call by these words, over a shelf of five files, and its answer: the status, the output, and what the error
/// stream gets.
#[derive(Clone, Copy)]
pub struct Case<'a> {
    pub call: Call,
    pub words: &'a str,
    pub program: &'a str,
    pub acct: &'a str,
    pub moves: &'a str,
    pub faults: &'a str,
    pub trace: &'a str,
    pub devices: Devices,
    pub status: u8,
    pub output: &'a str,
    pub error: &'a str,
}

/// The run of an empty file, with empty files beside it, that writes nothing.
pub const RUN: Case<'static> = Case {
    call: Call::Run,
    words: "run p.gp",
    program: "",
    acct: "",
    moves: "",
    faults: "",
    trace: "",
    devices: SOUND,
    status: 0,
    output: "",
    error: "",
};

/// The same for a case that is made while a test runs.
pub static PLAIN: Case<'static> = RUN;

/// The files of the case, each by its name.
pub fn files_of(alloc: Global, case: &Case<'_>) -> Result<Seq<(Name, Text)>, AllocError>
    ensures { IfOk result HasDistinctNames }
{
    let mut files = Seq::new(alloc);
    put(alloc, &mut files, b"p.gp", case.program.as_bytes())?;
    put(alloc, &mut files, b"acct.csv", case.acct.as_bytes())?;
    put(alloc, &mut files, b"moves.csv", case.moves.as_bytes())?;
    put(alloc, &mut files, b"f.csv", case.faults.as_bytes())?;
    put(alloc, &mut files, b"t.txt", case.trace.as_bytes())?;
    Ok(files)
}
