// What runs write.
use crate::outcome::passes;
use crate::programs::{ADD, EMPTY, accepted};
use gp_base::{End, Event, Journal, Lines, Pos, Restart, Seq, Text, ThreadNo, Why};
use lock_checker::Checked;
use reorder_list::Report;
use restart_log::{plain_tail_text, printed, soak_text, tail_text, trace_text};
use std::alloc::{AllocError, Global};
use std::test::Fail;

// A restart at front 8.
fn restart(alloc: Global, struck: u32, attempt: u32, redo: &[Pos]) -> Result<Restart, AllocError> {
    let redo = Seq::from_slice(alloc, redo)?;
    Ok(Restart {
        front: Pos(8),
        struck: Pos(struck),
        attempt,
        redo,
    })
}

// A restart at front 8 that redoes positions 4, 6 and 7, the last of which is struck again at front 8.
fn restarts(alloc: Global) -> Result<Seq<Restart>, AllocError> {
    let mut restarts = Seq::new(alloc);
    restarts.push(restart(alloc, 4, 0, &[Pos(4), Pos(6), Pos(7)])?)?;
    restarts.push(restart(alloc, 7, 1, &[Pos(7)])?)?;
    Ok(restarts)
}

fn report(alloc: Global, records: &[i64]) -> Result<Report, AllocError> {
    let records = Seq::from_slice(alloc, records)?;
    let restarts = restarts(alloc)?;
    Ok(Report {
        end: End::Finished,
        records,
        subthreads: 11,
        unused: 1,
        journal: Journal {
            events: Seq::new(alloc),
            restarts,
        },
    })
}

// Whether a text is the one that is wanted.
fn is_text(text: Result<Text, AllocError>, want: &[u8]) -> Result<bool, AllocError> {
    Ok(text?.as_slice() == want)
}

// Whether this is the tail of the two threads that add.
fn is_tail_of_adders(alloc: Global, add: &Checked) -> Result<bool, AllocError> {
    let report = report(alloc, &[7])?;
    let want: &[u8] =
        b"records\ntotal: 7\nrestarts\n1: front 8 struck 4 try 0 redo 4 6 7\n2: front 8 struck 7 try 1 redo 7\ncounts\nsubthreads 11\nrestarts 2\nredone 4\nunused 1\n";
    let text = tail_text(alloc, add, &report);
    drop(report);
    is_text(text, want)
}

// Whether a plain run without records that ends so has this tail.
fn is_plain_tail(
    alloc: Global,
    empty: &Checked,
    end: End,
    subthreads: usize,
    want: &[u8],
) -> Result<bool, AllocError> {
    is_text(plain_tail_text(alloc, empty, end, &[], subthreads), want)
}

// Whether each of three ends has its tail.
fn are_plain_tails(alloc: Global, empty: &Checked) -> Result<bool, AllocError> {
    let deadlock = End::Stuck {
        why: Why::Deadlock,
        thread: ThreadNo(0),
        line: 23,
    };
    let finished: &[u8] =
        b"records\nrestarts\ncounts\nsubthreads 1\nrestarts 0\nredone 0\nunused 0\n";
    let stuck: &[u8] =
        b"stuck deadlock thread 0 line 23\nrestarts\ncounts\nsubthreads 8\nrestarts 0\nredone 0\nunused 0\n";
    let spent: &[u8] =
        b"spent 10\nrestarts\ncounts\nsubthreads 10\nrestarts 0\nredone 0\nunused 0\n";
    Ok(
        is_plain_tail(alloc, empty, End::Finished, 1, finished)?
            && is_plain_tail(alloc, empty, deadlock, 8, stuck)?
            && is_plain_tail(alloc, empty, End::Spent(Pos(10)), 10, spent)?,
    )
}

#[test]
fn tails_of_runs(rt: HostRuntime) -> Result<(), Fail> {
    let alloc = rt.alloc();
    let add = accepted(alloc, ADD)?;
    let is_tail = is_tail_of_adders(alloc, &add);
    drop(add);
    passes(is_tail)?;
    let empty = accepted(alloc, EMPTY)?;
    let are_tails = are_plain_tails(alloc, &empty);
    drop(empty);
    passes(are_tails)
}

// Whether this is the trace of these events and the two restarts.
fn is_traced(alloc: Global, events: &[Event], want: &[u8]) -> Result<bool, AllocError> {
    let events = Seq::from_slice(alloc, events)?;
    let restarts = restarts(alloc)?;
    let journal = Journal { events, restarts };
    let text = trace_text(alloc, &journal);
    drop(journal);
    is_text(text, want)
}

#[test]
fn traces_of_runs(rt: HostRuntime) -> Result<(), Fail> {
    let events = [
        Event::Issue(Pos(0)),
        Event::Post(Pos(0), 0),
        Event::Take(Pos(0), 0, true),
        Event::Take(Pos(4), 2, false),
        Event::Restart(0),
        Event::Retire(Pos(0)),
    ];
    let want: &[u8] =
        b"issue 0\npost 0 0\ntake 0 0 applied\ntake 4 2 stale\nrestart 8 4 0 redo 4 6 7\nretire 0\n";
    passes(is_traced(rt.alloc(), &events, want))
}

// Lines of these numbers.
fn lines(alloc: Global, numbers: &[&[i64]]) -> Result<Lines, AllocError> {
    let mut lines = Seq::new(alloc);
    for line in numbers {
        lines.push(Seq::from_slice(alloc, line)?)?;
    }
    Ok(lines)
}

// Whether these are the bytes of two lines.
fn are_lines(alloc: Global) -> Result<bool, AllocError> {
    let lines = lines(alloc, &[&[0, 0, -3, -1], &[-9223372036854775808]])?;
    let want: &[u8] = b"0 0 -3 -1\n-9223372036854775808\n";
    Ok(printed(alloc, &lines)?.as_slice() == want)
}

// Whether the summary has a sum that wraps.
fn is_summary(alloc: Global) -> Result<bool, AllocError> {
    let report = report(alloc, &[9223372036854775807, 1])?;
    let want: &[u8] =
        b"soak 4 18446744073709551615\nend finished\nsum -9223372036854775808\ncounts\nsubthreads 11\nrestarts 2\nredone 4\nunused 1\n";
    let text = soak_text(alloc, 4, 18446744073709551615, &report);
    drop(report);
    is_text(text, want)
}

#[test]
fn lines_and_sums(rt: HostRuntime) -> Result<(), Fail> {
    let alloc = rt.alloc();
    passes(are_lines(alloc))?;
    passes(is_summary(alloc))
}
