// What no clause says: calls that succeed, and devices that fail at each of their calls.

use batch_fixtures::programs::{ADD, EDGES, EMPTY, PRINTS, USAGE};
use call_fixtures::answers::{give, gives, status_with};
use call_fixtures::cases::{Case, Devices, PLAIN, RUN, SOUND, files_of};
use call_fixtures::runs::{ALONE, BARE, Run, come_to, comes_to};
use gp_base::{MemShelf, Name, Seq, Shelf};
use std::alloc::{AllocError, Global};
use std::test::Fail;
use std::thread::Threads;

const DEADLOCK: &str = "lock x[1];
lock y[1];
lock z[1];
task p() {
  print 1;
  lock x[0];
  lock z[0];
  lock y[0];
  unlock y[0];
  unlock z[0];
  unlock x[0];
}
task q() {
  print 2;
  lock y[0];
  lock x[0];
  unlock x[0];
  unlock y[0];
}
task main() {
  fork p();
  fork q();
  join 1;
}
";

const INDEX: &str = "lock bank[4];
record acct[4] by bank;
task main() {
  var i;
  i = 4;
  lock bank[i];
  write acct[i] = 1;
  unlock bank[i];
}
";

const INSIDE: &str = "lock bank[4];
record acct[4] by bank;
task main() {
  var i;
  i = 3;
  lock bank[i];
  write acct[i] = 1;
  unlock bank[i];
}
";

const BARRIER: &str = "barrier meet(2);
task t() { print 1; barrier meet; print 2; }
task main() { fork t(); print 3; barrier meet; print 4; }
";

const RETURN: &str = "task double($n) { $ret = $n + $n; }
task main() { var h, $r; fork double(21) into h; join h into $r; print $r; }
";

const LOOP: &str = "task main() { while 1 { } }";

const TEN_TURNS: &str = "task main() { var i; while i < 10 { i = i + 1; } }";

const FILES: &str = "lock bank[2];
record acct[2] by bank from \"acct.csv\";
feed moves[3] from \"moves.csv\";
task main() {
  var i, $x;
  i = moves[0, 1];
  lock bank[i];
  read acct[i] into $x;
  write acct[i] = $x + moves[0, 2];
  unlock bank[i];
}
";

// Programs that are checked, a line for each: the answer, and the program with a bar for each line end.
const CHECKS: &str =
    r#"check 9 at line 6: lock bank[2];|record acct[2] by bank;|task main() {|  var i;|  lock bank[i];|  i = 1;|  write acct[i] = 5;|  unlock bank[i];|}
check 5 at line 6: lock bank[2];|record acct[2] by bank;|task main() {|  var i;|  lock bank[i];|  write acct[0] = 5;|  unlock bank[i];|}
check 1 at line 1: task t() { }
check 2 at line 2: lock a[1];|lock a[1];|task main() { }
check 3 at line 1: lock a[0];|task main() { }
check 4 at line 3: task main() {|var x, $y;|x = $y;|}
check 5 at line 3: lock a[1];|task main() {|unlock a[0];|}
check 6 at line 4: lock a[1];|task main() {|lock a[0];|lock a[0];|unlock a[0];|}
check 7 at line 2: lock a[1];|task main() {|lock a[0];|}
check 8 at line 3: lock a[1];|task main() {|if 1 { lock a[0]; }|unlock a[0];|}
check 10 at line 2: lock a[2];|record r[3] by a;|task main() { }
check 11 at line 1: lock a[65537];|task main() { }
ok: lock a[65536];|task main() { }
check 1 at line 2: barrier a(1);|record r[1] by a;|task main() { }
ok: record r[1] by a;|lock a[1];|task main() { }
check 1 at line 2: task main() {|$x = 1;|}
ok: task main() {|$ret = 1;|}
check 1 at line 3: task main() {|var x;|x = $y;|}
check 1 at line 3: feed f[1] from "f.csv";|task main() {|print f[0, y];|}
check 1 at line 2: task main() {|print 1 + 2 * y;|}
check 1 at line 4: task t() { }|task main() {|var x;|fork t() into y;|}
check 1 at line 3: lock b[1];|task main() {|barrier b;|}
check 1 at line 4: task main() {|when 1 {|} else {|$x = 1;|}|}
check 1 at line 1: lock main[1];|task t() { }
check 2 at line 2: lock a[1];|task a() { }|task main() { }
check 2 at line 1: task t($ret) { }|task main() { }
ok: task t(x, $x) { }|task main() { }
check 2 at line 3: task main() {|var x;|var y, x;|}
check 3 at line 1: barrier b(0);|task main() { }
check 3 at line 1: task main(x) { }
check 3 at line 3: task t(x, $y) { }|task main() {|fork t(1);|}
ok: task t(x, $y) { }|task main() {|fork t(1, $ret);|}
check 4 at line 2: task main() {|while $ret { }|}
check 4 at line 3: task t(x, $y) { }|task main() {|fork t(1 + $ret, 2);|}
check 4 at line 3: feed f[1] from "f.csv";|task main() {|$ret = f[0, $ret];|}
ok: task main() {|when $ret { print $ret; } else { $ret = -$ret; }|}
check 5 at line 6: lock a[1];|lock b[1];|record r[1] by a;|task main() {|lock b[0];|write r[0] = 1;|unlock b[0];|}
check 5 at line 6: lock a[1];|record r[1] by a;|task main() {|lock a[0];|unlock a[0];|read r[0] into $ret;|}
check 5 at line 5: lock a[1];|task main() {|lock a[0];|unlock a[0];|unlock a[0];|}
ok: lock a[2];|record r[2] by a;|task main() {|lock a[0];|when $ret { write r[0] = 1; } else { read r[0] into $ret; }|unlock a[0];|}
check 6 at line 5: lock a[1];|task main() {|var i;|lock a[i];|lock a[i];|unlock a[i];|}
check 6 at line 4: lock a[1];|task main() {|lock a[0];|while 1 { lock a[0]; unlock a[0]; }|unlock a[0];|}
ok: lock a[1];|lock b[1];|task main() {|lock a[0];|lock b[0];|unlock a[0];|unlock b[0];|}
check 7 at line 3: lock a[2];|task t() { }|task main() {|lock a[0];|lock a[1];|unlock a[0];|}
check 8 at line 4: lock a[1];|task main() {|lock a[0];|while 1 {|unlock a[0];|}|unlock a[0];|}
check 8 at line 3: lock a[2];|task main() {|if 1 {|lock a[0];|} else {|lock a[1];|}|unlock a[0];|}
ok: lock a[2];|task main() {|if 1 { lock a[0]; lock a[1]; } else { lock a[1]; lock a[0]; }|unlock a[0];|unlock a[1];|}
check 9 at line 6: lock a[1];|task t() { }|task main() {|var i;|lock a[i];|fork t() into i;|unlock a[i];|}
ok: lock a[1];|task main() {|var i, j;|lock a[i];|j = 1;|unlock a[i];|i = 1;|}
check 10 at line 3: lock a[2];|lock b[3];|record r[3] by a;|task main() { }
check 11 at line 2: lock a[65535];|lock b[2];|task main() { }
check 2 at line 3: record r[2] by a;|lock a[2];|lock a[3];|task main() { }
check 11 at line 1: barrier b(4097);|task main() { }
ok: barrier b(4096);|task main() { }
check 1 at line 3: task main() {|var x;|x = y + $ret;|}
check 3 at line 2: lock a[1];|record r[0] by a;|task main() { }
check 10 at line 2: lock a[65535];|record r[65537] by a;|task main() { }
check 4 at line 6: lock a[1];|task main() {|var i;|lock a[i];||i = $ret;|unlock a[i];|}
check 7 at line 3: lock a[1];|task main() {|} task t() {|lock a[0];|}
check 2 at line 5: task main() {|x = 1;|}||task main() { }
check 8 at line 2: lock a[1];|task main() { while 1 {|lock a[0]; } x = 1; }
check 1 at line 3: lock a[1];|task main() { if 1 {|x = 1; lock a[0]; } }"#;

// Words of no command.
const NO_COMMAND: Case<'static> = Case {
    words: "",
    program: EMPTY,
    status: 2,
    error: USAGE,
    ..RUN
};

static NO_COMMANDS: [Case<'static>; 9] = [
    NO_COMMAND,
    Case {
        words: "run",
        ..NO_COMMAND
    },
    Case {
        words: "fly p.gp",
        ..NO_COMMAND
    },
    Case {
        words: "run p.gp --workers 65",
        ..NO_COMMAND
    },
    Case {
        words: "run p.gp --turns 0",
        ..NO_COMMAND
    },
    Case {
        words: "run p.gp --crew fast",
        ..NO_COMMAND
    },
    Case {
        words: "one p.gp --faults f.csv",
        ..NO_COMMAND
    },
    Case {
        words: "soak 3 1",
        ..NO_COMMAND
    },
    Case {
        words: "soak 2000",
        ..NO_COMMAND
    },
];

#[test]
fn words_of_no_command(rt: HostRuntime) -> Result<(), Fail> {
    assert!(rt; give(&rt, &NO_COMMANDS)?);
    Ok(())
}

// Whether words of no command leave the first read, which fails, to the next caller.
fn reads_nothing<R: Threads + Sync + AllocGlobal>(rt: &R) -> Result<bool, AllocError> {
    let alloc = rt.alloc();
    let case = Case {
        words: "fly p.gp",
        program: EMPTY,
        ..PLAIN
    };
    let name = Name::from_slice(alloc, b"p.gp")?;
    let files = files_of(alloc, &case)?;
    let first = Seq::from_slice(alloc, &[1])?;
    let mut shelf = MemShelf::new(alloc, files, first);
    let status = status_with(rt, &case, &mut shelf);
    let is_unread = shelf.read(&name, 15).is_err();
    drop(shelf);
    drop(name);
    Ok(status? == 2 && is_unread)
}

#[test]
fn words_of_no_command_read_nothing(rt: HostRuntime) -> Result<(), Fail> {
    assert!(rt; reads_nothing(&rt)?);
    Ok(())
}

// A program that is refused.
const REFUSED: Case<'static> = Case { status: 3, ..RUN };

static REFUSED_PROGRAMS: [Case<'static>; 7] = [
    Case {
        program: "",
        error: "gprs: parse 1 at byte 0\n",
        ..REFUSED
    },
    Case {
        program: "task main() {",
        error: "gprs: parse 1 at byte 13\n",
        ..REFUSED
    },
    Case {
        program: "task main() { print 9223372036854775808; }",
        error: "gprs: lex 2 at byte 20\n",
        ..REFUSED
    },
    Case {
        program: "task main() { print 1 ! 2; }",
        error: "gprs: lex 1 at byte 23\n",
        ..REFUSED
    },
    Case {
        program: "task main() { print 1 < 2 < 3; }",
        error: "gprs: parse 1 at byte 26\n",
        ..REFUSED
    },
    Case {
        program: "task t() { }",
        error: "gprs: check 1 at line 1\n",
        ..REFUSED
    },
    Case {
        words: "run q.gp",
        program: EMPTY,
        status: 7,
        error: "gprs: read fault q.gp\n",
        ..RUN
    },
];

static REFUSED_RUN: Case<'static> = REFUSED;

// Spaces that are one more than a program may have.
fn refuses_spaces<R: Threads + Sync + AllocGlobal>(rt: &R) -> Result<bool, AllocError> {
    let program = " ".repeat(rt.alloc(), 1048577)?;
    let is_refused = gives(
        rt,
        &Case {
            program: program.as_str(),
            error: "gprs: lex 3\n",
            ..REFUSED_RUN
        },
    );
    drop(program);
    is_refused
}

#[test]
fn programs_that_are_refused(rt: HostRuntime) -> Result<(), Fail> {
    assert!(rt; give(&rt, &REFUSED_PROGRAMS)? && refuses_spaces(&rt)?);
    Ok(())
}

// The check has this answer to the program, which has a bar for each line end.
fn checks<R: Threads + Sync + AllocGlobal>(
    rt: &R,
    answer: &str,
    barred: &str,
) -> Result<bool, AllocError> {
    let alloc = rt.alloc();
    let program = barred.replace(alloc, '|', "\n")?;
    let line = format!(in alloc; "gprs: {answer}\n")?;
    let (status, output, error) = if answer == "ok" {
        (0, "ok\n", "")
    } else {
        (3, "", line.as_str())
    };
    let is_told = gives(
        rt,
        &Case {
            words: "check p.gp",
            program: program.as_str(),
            status,
            output,
            error,
            ..PLAIN
        },
    );
    drop(line);
    drop(program);
    is_told
}

// Each program is checked as its line has it.
fn checks_all<R: Threads + Sync + AllocGlobal>(rt: &R) -> Result<bool, AllocError> {
    for row in CHECKS.lines() {
        let (answer, barred) = row.split_once(": ").unwrap_or((row, ""));
        if !checks(rt, answer, barred)? {
            return Ok(false);
        }
    }
    Ok(true)
}

#[test]
fn programs_that_are_checked(rt: HostRuntime) -> Result<(), Fail> {
    assert!(rt; checks_all(&rt)?);
    Ok(())
}

// A program that prints 1 after so many of these marks.
fn marked(alloc: Global, open: &str, close: &str, count: usize) -> Result<String, AllocError> {
    let mut text = String::from_str(alloc, "task main() { print ")?;
    for _ in 0..count {
        text.push_str(open)?;
    }
    text.push_str("1")?;
    for _ in 0..count {
        text.push_str(close)?;
    }
    text.push_str("; }")?;
    Ok(text)
}

// The program ends so by each of the commands that run it.
fn ends<R: Threads + Sync + AllocGlobal>(rt: &R, run: &Run<'_>) -> Result<bool, AllocError> {
    Ok(comes_to(rt, run, "run", "", &[""])? && comes_to(rt, run, "one", "", &[""])?)
}

// Each program ends so by each of the commands that run it.
fn end<R: Threads + Sync + AllocGlobal>(rt: &R, runs: &[Run<'_>]) -> Result<bool, AllocError> {
    Ok(come_to(rt, runs, "run", "", &[""])? && come_to(rt, runs, "one", "", &[""])?)
}

// The program with so many of these marks has this told of its run.
fn prints_marked<R: Threads + Sync + AllocGlobal>(
    rt: &R,
    open: &str,
    close: &str,
    count: usize,
    told: &str,
) -> Result<bool, AllocError> {
    let program = marked(rt.alloc(), open, close, count)?;
    let case = Case {
        program: program.as_str(),
        ..BARE
    };
    let run = Run {
        case,
        told,
        restarts: "",
        counts: [1, 0, 0, 0],
    };
    let is_told = ends(rt, &run);
    drop(program);
    is_told
}

// The program with 65 of these marks is nested too deep.
fn is_too_deep<R: Threads + Sync + AllocGlobal>(
    rt: &R,
    open: &str,
    close: &str,
) -> Result<bool, AllocError> {
    let program = marked(rt.alloc(), open, close, 65)?;
    let is_refused = gives(
        rt,
        &Case {
            program: program.as_str(),
            error: "gprs: parse 2 at byte 84\n",
            ..REFUSED_RUN
        },
    );
    drop(program);
    is_refused
}

// Up to 64 marks are read.
fn limits_nesting<R: Threads + Sync + AllocGlobal>(rt: &R) -> Result<bool, AllocError> {
    Ok(
        prints_marked(rt, "(", ")", 64, "1\nrecords\n")?
            && is_too_deep(rt, "(", ")")?
            && is_too_deep(rt, "-", "")?,
    )
}

#[test]
fn nesting_has_a_limit(rt: HostRuntime) -> Result<(), Fail> {
    assert!(rt; limits_nesting(&rt)?);
    Ok(())
}

// A run of one task.
const PRINTED: Run<'static> = Run {
    case: ALONE,
    told: "records\n",
    restarts: "",
    counts: [1, 0, 0, 0],
};

static OF_ONE_TASK: [Run<'static>; 3] = [
    Run {
        case: Case {
            program: EMPTY,
            ..ALONE
        },
        ..PRINTED
    },
    Run {
        case: Case {
            program: PRINTS,
            ..ALONE
        },
        told: "7\n42\nrecords\n",
        ..PRINTED
    },
    Run {
        case: Case {
            program: EDGES,
            ..ALONE
        },
        told: "-9223372036854775808\n-9223372036854775808\n0 0 -3 -1\nrecords\n",
        ..PRINTED
    },
];

#[test]
fn programs_of_one_task(rt: HostRuntime) -> Result<(), Fail> {
    assert!(rt;
        end(&rt, &OF_ONE_TASK)? && prints_marked(&rt, "", " + 1", 100000, "100001\nrecords\n")?
    );
    Ok(())
}

static OF_THREADS: [Run<'static>; 13] = [
    Run {
        case: Case {
            program: ADD,
            ..ALONE
        },
        told: "records\ntotal: 7\n",
        counts: [11, 0, 0, 0],
        ..PRINTED
    },
    Run {
        case: Case {
            words: "p.gp --subthreads 11",
            program: ADD,
            ..ALONE
        },
        told: "records\ntotal: 7\n",
        counts: [11, 0, 0, 0],
        ..PRINTED
    },
    Run {
        case: Case {
            words: "p.gp --subthreads 10",
            program: ADD,
            status: 6,
            ..ALONE
        },
        told: "spent 10\n",
        counts: [10, 0, 0, 0],
        ..PRINTED
    },
    Run {
        case: Case {
            program: DEADLOCK,
            status: 5,
            ..ALONE
        },
        told: "1\n2\nstuck deadlock thread 0 line 23\n",
        counts: [8, 0, 0, 0],
        ..PRINTED
    },
    Run {
        case: Case {
            program: INDEX,
            status: 5,
            ..ALONE
        },
        told: "stuck index thread 0 line 6\n",
        ..PRINTED
    },
    Run {
        case: Case {
            program: INSIDE,
            ..ALONE
        },
        told: "records\nacct: 0 0 0 1\n",
        counts: [3, 0, 0, 0],
        ..PRINTED
    },
    Run {
        case: Case {
            program: BARRIER,
            ..ALONE
        },
        told: "3\n1\n2\n4\nrecords\n",
        counts: [5, 0, 0, 0],
        ..PRINTED
    },
    Run {
        case: Case {
            program: RETURN,
            ..ALONE
        },
        told: "42\nrecords\n",
        counts: [4, 0, 0, 0],
        ..PRINTED
    },
    Run {
        case: Case {
            words: "p.gp --turns 10",
            program: LOOP,
            status: 6,
            ..ALONE
        },
        told: "spent 0\n",
        ..PRINTED
    },
    Run {
        case: Case {
            words: "p.gp --turns 10",
            program: TEN_TURNS,
            ..ALONE
        },
        ..PRINTED
    },
    Run {
        case: Case {
            program: "task main() { fork main(); }",
            status: 5,
            ..ALONE
        },
        told: "stuck threads thread 4095 line 1\n",
        counts: [8191, 0, 0, 0],
        ..PRINTED
    },
    Run {
        case: Case {
            program: "task main() { join 7; }",
            status: 5,
            ..ALONE
        },
        told: "stuck join thread 0 line 1\n",
        ..PRINTED
    },
    Run {
        case: Case {
            program: "task main() { join 0; }",
            status: 5,
            ..ALONE
        },
        told: "stuck deadlock thread 0 line 1\n",
        ..PRINTED
    },
];

#[test]
fn programs_of_threads(rt: HostRuntime) -> Result<(), Fail> {
    assert!(rt; end(&rt, &OF_THREADS)?);
    Ok(())
}

// A program with files beside it.
const FILED: Case<'static> = Case {
    program: FILES,
    acct: "0,5\n1,-7\n",
    moves: "0,1,3\n",
    ..ALONE
};

static READ: [Run<'static>; 2] = [
    Run {
        case: FILED,
        told: "records\nacct: 5 -4\n",
        counts: [3, 0, 0, 0],
        ..PRINTED
    },
    Run {
        case: Case { acct: "", ..FILED },
        told: "records\nacct: 0 3\n",
        counts: [3, 0, 0, 0],
        ..PRINTED
    },
];

// What a run refuses, the check accepts: it reads the program alone.
static UNREAD: [Case<'static>; 4] = [
    Case {
        words: "run p.gp",
        acct: "0,5\n0,6\n",
        status: 4,
        error: "gprs: input acct.csv kind 4 row 2\n",
        ..FILED
    },
    Case {
        words: "check p.gp",
        acct: "0,5\n0,6\n",
        output: "ok\n",
        ..FILED
    },
    Case {
        words: "run p.gp",
        acct: "2,5\n0,6\n",
        status: 4,
        error: "gprs: input acct.csv kind 3 row 1\n",
        ..FILED
    },
    Case {
        words: "check p.gp",
        acct: "2,5\n0,6\n",
        output: "ok\n",
        ..FILED
    },
];

#[test]
fn files_beside_the_program(rt: HostRuntime) -> Result<(), Fail> {
    assert!(rt; end(&rt, &READ)? && give(&rt, &UNREAD)?);
    Ok(())
}

// A file of one byte too many is not read.
fn refuses_long_file<R: Threads + Sync + AllocGlobal>(rt: &R) -> Result<bool, AllocError> {
    let moves = " ".repeat(rt.alloc(), 33554433)?;
    let is_refused = gives(
        rt,
        &Case {
            program: FILES,
            moves: moves.as_str(),
            status: 4,
            error: "gprs: input moves.csv kind 6 row 0\n",
            ..PLAIN
        },
    );
    drop(moves);
    is_refused
}

#[test]
fn a_file_that_is_too_long(rt: HostRuntime) -> Result<(), Fail> {
    assert!(rt; refuses_long_file(&rt)?);
    Ok(())
}

// The third read, which is that of the feed, fails; and a file that is not there.
static UNREADABLE: [Case<'static>; 2] = [
    Case {
        program: FILES,
        devices: Devices { read: 3, ..SOUND },
        status: 7,
        error: "gprs: read fault moves.csv\n",
        ..RUN
    },
    Case {
        words: "one p.gp",
        program: "lock a[1];\nrecord r[1] by a from \"gone.csv\";\ntask main() { }\n",
        status: 7,
        error: "gprs: read fault gone.csv\n",
        ..RUN
    },
];

#[test]
fn files_that_can_not_be_read(rt: HostRuntime) -> Result<(), Fail> {
    assert!(rt; give(&rt, &UNREADABLE)?);
    Ok(())
}

// The second call of the output fails.
const STOPPED: Case<'static> = Case {
    program: PRINTS,
    devices: Devices { output: 2, ..SOUND },
    status: 8,
    output: "output\n",
    error: "gprs: write fault\n",
    ..RUN
};

// It takes all that it is offered, or four bytes at a time: the first piece is one offer.
static PIECES: [Case<'static>; 4] = [
    Case {
        words: "check p.gp",
        status: 0,
        output: "ok\n",
        error: "",
        ..STOPPED
    },
    Case {
        words: "one p.gp",
        ..STOPPED
    },
    STOPPED,
    Case {
        devices: Devices {
            most: 4,
            output: 2,
            ..SOUND
        },
        output: "outp",
        ..STOPPED
    },
];

#[test]
fn a_first_piece_is_one_offer(rt: HostRuntime) -> Result<(), Fail> {
    assert!(rt; give(&rt, &PIECES)?);
    Ok(())
}
