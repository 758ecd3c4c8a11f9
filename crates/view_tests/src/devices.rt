// What no clause says: that each way to end is taken with ample memory, and what is written where a device fails.
use batch_fixtures::files::{put, words_of};
use batch_fixtures::programs::EMPTY;
use explain_calls::explain_run;
use gp_base::{MemShelf, MemSink, Seq};
use std::alloc::{AllocError, Global};
use std::test::Fail;
use view_calls::view_run;

// The words of a call, its program, the file moves.csv beside it, and the numbers of the calls that fail: of the shelf, of the
// output, which takes 16 bytes a call, and of the error stream; at 0 none does. Then the status, the output and the line on
// the error stream.
type Row = (
    &'static str,
    &'static str,
    &'static str,
    [u64; 3],
    u8,
    &'static str,
    &'static str,
);

const FEED: &str = "feed moves[2] from \"moves.csv\";
task main() { print rows(moves); }
";

const ITSELF: &str = "task main() { join 0; }";

const STARTS: &str = "task t() { }\ntask main() { fork t(); }";

const BAD: &str = "task main() { i = ; }";

const TOLD: &str = "ok
1 subthread, 1 thread, 0 locks taken; at most 1 subthread side by side, as the order of turns allows
arithmetic: exact in every line that ran
";

const ITSELF_TOLD: &str = "stuck deadlock thread 0 line 1
thread 0 line 1 waits for thread 0 to end
hint: thread 0 joins itself: 0 is main, and the forks make threads 1, 2 and so on
1 subthread, 1 thread, 0 locks taken; at most 1 subthread side by side, as the order of turns allows
arithmetic: exact in every line that ran
";

const SPENT_TOLD: &str = "spent 1
1 subthread was begun; thread 0 line 2 would begin one more
hint: --subthreads allows up to 200000, for a batch that ends
1 subthread, 1 thread, 0 locks taken; at most 1 subthread side by side, as the order of turns allows
arithmetic: exact in every line that ran
";

const BAD_TOLD: &str = "p.gp:1:19: `;` cannot stand here; an expression was expected
task main() { i = ; }
                  ^
parse 1: the first token that no program goes on with (parse 1 at byte 18)
";

const HEADER_TOLD: &str = "moves.csv:1: field 1: \"a\" is no whole number (kind 2 row 1)
a,b
^
hint: a header has to go
";

const USAGE_TOLD: &str = "hint: the name of a program is missing
hint: gprs_view explain PROGRAM [--faults FILE] [--turns N] [--subthreads N] [--crew CREW] [--workers N]
";

const UNREAD_TOLD: &str =
    "hint: p.gp cannot be read: there is no such file, or it is a folder, or it may not be read
hint: it is the program of this call
hint: names are looked for from the folder in which the call is made
";

const UNREAD_ROWS: &str =
    "hint: moves.csv cannot be read: there is no such file, or it is a folder, or it may not be read
hint: line 1 of p.gp names it, for feed moves
hint: names are looked for from the folder in which the call is made
";

const ORDER: &str = "order
0 thread 0 line 0 start prints 0 holds
end finished
";

const WHY: &str = "0 thread 0 line 0 start prints 0 holds
redone 0
";

const BAD_LINE: &str = "gprs_view: parse 1 at byte 18\n";

const KIND_LINE: &str = "gprs_view: input moves.csv kind 2 row 1\n";

const TRACE_LINE: &str = "gprs_view: input moves.csv kind 1 row 1\n";

const USAGE_LINE: &str = "gprs_view: usage: order | why | timeline | explain\n";

const UNREAD_LINE: &str = "gprs_view: read fault p.gp\n";

const ROWS_LINE: &str = "gprs_view: read fault moves.csv\n";

const FAULT_LINE: &str = "gprs_view: write fault\n";

const SOUND: [u64; 3] = [0, 0, 0];

const EXPLAINED: [Row; 11] = [
    ("explain p.gp", FEED, "1,2\n", SOUND, 0, TOLD, ""),
    ("explain p.gp", ITSELF, "", SOUND, 5, ITSELF_TOLD, ""),
    (
        "explain p.gp --subthreads 1",
        STARTS,
        "",
        SOUND,
        6,
        SPENT_TOLD,
        "",
    ),
    ("explain", EMPTY, "", SOUND, 2, USAGE_TOLD, USAGE_LINE),
    ("explain p.gp", BAD, "", SOUND, 3, BAD_TOLD, BAD_LINE),
    (
        "explain p.gp",
        FEED,
        "a,b\n",
        SOUND,
        4,
        HEADER_TOLD,
        KIND_LINE,
    ),
    (
        "explain p.gp",
        EMPTY,
        "",
        [1, 0, 0],
        7,
        UNREAD_TOLD,
        UNREAD_LINE,
    ),
    (
        "explain p.gp",
        FEED,
        "",
        [2, 0, 0],
        7,
        UNREAD_ROWS,
        ROWS_LINE,
    ),
    (
        "explain p.gp",
        EMPTY,
        "",
        [0, 2, 0],
        8,
        "ok\n1 subthread, ",
        FAULT_LINE,
    ),
    ("explain p.gp", BAD, "", [0, 1, 0], 8, "", FAULT_LINE),
    ("explain p.gp", BAD, "", [0, 0, 1], 8, BAD_TOLD, ""),
];

const VIEWED: [Row; 9] = [
    ("order p.gp", EMPTY, "", SOUND, 0, ORDER, ""),
    ("why p.gp 0", EMPTY, "", SOUND, 0, WHY, ""),
    (
        "why p.gp 1",
        EMPTY,
        "",
        SOUND,
        5,
        "",
        "gprs_view: no position 1\n",
    ),
    ("view p.gp", EMPTY, "", SOUND, 2, "", USAGE_LINE),
    ("order p.gp", BAD, "", SOUND, 3, "", BAD_LINE),
    (
        "timeline p.gp --trace moves.csv",
        EMPTY,
        "x\n",
        SOUND,
        4,
        "",
        TRACE_LINE,
    ),
    ("order p.gp", EMPTY, "", [1, 0, 0], 7, "", UNREAD_LINE),
    (
        "order p.gp",
        EMPTY,
        "",
        [0, 2, 0],
        8,
        "order\n0 thread 0",
        FAULT_LINE,
    ),
    (
        "timeline p.gp",
        EMPTY,
        "",
        [0, 2, 0],
        8,
        "<svg xmlns='http",
        FAULT_LINE,
    ),
];

// Whether a call comes to what its row says.
fn is_told(alloc: Global, row: &Row) -> Result<bool, AllocError> {
    let (words, program, moves, failing, status, told, line) = row;
    let mut files = Seq::new(alloc);
    put(alloc, &mut files, b"p.gp", program.as_bytes())?;
    put(alloc, &mut files, b"moves.csv", moves.as_bytes())?;
    let mut shelf = MemShelf::new(alloc, files, Seq::from_slice(alloc, &[failing[0]])?);
    let mut output = MemSink::new(alloc, 16, Seq::from_slice(alloc, &[failing[1]])?);
    let mut error = MemSink::new(alloc, 1000, Seq::from_slice(alloc, &[failing[2]])?);
    let is_explained = words.starts_with("explain");
    let words = words_of(alloc, words)?;
    let ended = if is_explained {
        explain_run(alloc, &words, &mut shelf, &mut output, &mut error)
    } else {
        view_run(alloc, &words, &mut shelf, &mut output, &mut error)
    };
    Ok(
        ended == *status
            && output.written() == told.as_bytes()
            && error.written() == line.as_bytes(),
    )
}

// Whether each call comes to what its row says.
fn are_told(alloc: Global, rows: &[Row]) -> Result<bool, AllocError> {
    for row in rows {
        if !is_told(alloc, row)? {
            return Ok(false);
        }
    }
    Ok(true)
}

#[test]
fn calls_in_words_end_as_they_should(rt: HostRuntime) -> Result<(), Fail> {
    assert!(rt; are_told(rt.alloc(), &EXPLAINED)?);
    Ok(())
}

#[test]
fn views_end_as_they_should(rt: HostRuntime) -> Result<(), Fail> {
    assert!(rt; are_told(rt.alloc(), &VIEWED)?);
    Ok(())
}
