// The code of a program with each kind of statement.
use crate::outcome::passes;
use crate::programs::code_of;
use gp_base::{LockNo, Seq};
use std::alloc::{AllocError, Global};
use std::test::Fail;
use task_code::Code;

// In text order: task 0 is one instruction. In task 1 an assignment is one, the loop three, the choice four, and each
// of the ten statements after them one.
const EACH: &[u8] =
    b"lock bank[2]; barrier gate(1); record acct[2] by bank; feed moves[2] from \"m\";
task pay(n, $v) { $ret = $v; }
task main() {
  var i, h; var $x;
  i = self + rows(moves) * 2;
  while i < moves[0, 1] { i = i + 1; }
  if not i { i = -1; } else { i = 0; }
  lock bank[0];
  read acct[0] into $x;
  write acct[0] = $x + 1;
  unlock bank[0];
  fork pay(1, $x) into h;
  join h into $x;
  barrier gate;
  when $x { print $x; } else { $x = 0; }
  $x = 3;
  print $x, i;
}";

// The code of each task: its number, how many instructions, control variables and registers it has, and with which
// values a thread starts that is given 7 and 9.
const TASKS: [(u32, usize, u32, u32, &[i64]); 2] = [(0, 1, 1, 2, &[7]), (1, 18, 2, 2, &[0, 0])];

// Whether a task begins at its first instruction, and has so many control variables and registers.
fn begins(code: &Code, task: u32, ctl: u32, regs: u32) -> bool {
    match (code.start(task), code.shape(task)) {
        (Some(at), Some(shape)) => {
            at.task == task && at.pc == 0 && shape.ctl == ctl && shape.regs == regs
        }
        _ => false,
    }
}

// Whether a thread of the task that is given 7 and 9 starts with these values.
fn starts_with(alloc: Global, code: &Code, task: u32, starts: &[i64]) -> Result<bool, AllocError> {
    let arguments = Seq::from_slice(alloc, &[7, 9])?;
    Ok(code.start_values(alloc, task, &arguments)?.as_slice() == starts)
}

// Whether the tasks are those of the table.
fn has_tasks(alloc: Global, code: &Code) -> Result<bool, AllocError> {
    for (task, instrs, ctl, regs, starts) in &TASKS {
        let is_told = code.instrs(*task).len() == *instrs && begins(code, *task, *ctl, *regs);
        if !is_told || !starts_with(alloc, code, *task, starts)? {
            return Ok(false);
        }
    }
    Ok(true)
}

// Whether the rest of the code is told.
fn is_told(code: &Code) -> bool {
    code.start(2).is_none()
        && code.shape(2).is_none()
        && code.main() == 1
        && code.barriers().as_slice() == [1u32].as_slice()
        && code.layout().under.len() == 2
        && code.over().as_slice() == [LockNo(0), LockNo(1)].as_slice()
}

#[test]
fn lowers_each_statement(rt: HostRuntime) -> Result<(), Fail> {
    let alloc = rt.alloc();
    let code = code_of(alloc, EACH)?;
    let has_tasks = has_tasks(alloc, &code);
    let is_told = is_told(&code);
    drop(code);
    passes(has_tasks)?;
    passes(Ok(is_told))
}
