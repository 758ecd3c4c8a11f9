// Accepted programs from their texts.
ghost use Rattle.std.specs.Prelude.{◌<◌, ◌^◌, length};

use lock_checker::{Checked, check};
use std::alloc::Global;
use std::test::Fail;
use task_code::{Code, lower};
use task_parser::{lex, parse};

/// Nothing to do.
pub const EMPTY: &[u8] = b"task main() { }";

/// Two threads add to one total, each under its lock.
pub const ADD: &[u8] = b"lock tally[1]; record total[1] by tally;
task add(n) { var $t; lock tally[0]; read total[0] into $t; write total[0] = $t + n; unlock tally[0]; }
task main() { fork add(3); fork add(4); join 1; join 2; }";

/// The program of a text.
pub fn accepted(alloc: Global, text: &[u8]) -> Result<Checked, Fail>
    requires { length text.now < 2 ^ 32 }
{
    let tokens = lex(alloc, text)?;
    let program = parse(alloc, text, &tokens)?;
    Ok(check(alloc, program)?)
}

/// The code of the program of a text.
pub fn code_of(alloc: Global, text: &[u8]) -> Result<Code, Fail>
    requires { length text.now < 2 ^ 32 }
{
    let checked = accepted(alloc, text)?;
    let code = lower(alloc, &checked);
    drop(checked);
    Ok(code?)
}
