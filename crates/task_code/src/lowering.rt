// From the tree to flat code.

ghost use Rattle.std.specs.Prelude.{◌≡◌, IfOk};
ghost use Rattle.lock_checker.specs.Accepted.{program_of};
ghost use Rattle.task_ast.specs.meaning.Names.{registers_of, natural};
ghost use Rattle.task_ast.specs.meaning.Plain.{main_number};
ghost use Rattle.task_ast.specs.meaning.Tree as plain;
ghost use Rattle.task_ast.specs.View.{plain_program, plain_task};
ghost use Rattle.task_code.specs.Existing.{shape_of};
ghost use Rattle.task_code.specs.Flat.{code_of};
ghost use Rattle.task_code.specs.Jumps.{IsShort};
ghost use Rattle.task_code.specs.Lowering.{task_code, lowered};
ghost use Rattle.task_code.specs.Parts.{stated_numbers};
ghost use Rattle.task_code.specs.Reading.{instrs_of};
ghost use Rattle.task_code.specs.View.{plain_instrs};
ghost use Rattle.task_code.specs.inner.Scopes.{IsIndexOf};
ghost use Rattle.task_code.specs.inner.Tasks.{AreTasksOf};

use crate::code::Code;
use crate::control::{lower_block, small};
use crate::instrs::{Instr, Shape};
use crate::parts::Parts;
use crate::scope::{CodeIndex, Scope, index_of};
use crate::variables::{all_params, control_names};
use gp_base::{Name, Seq};
use lock_checker::Checked;
use std::alloc::{AllocError, Global};
use std::snapshot::Snapshot;
use task_ast::{Head, Program, TaskText, natural};

// The instructions of a task whose registers have these names, and how many variables it has.
fn lower_task(
    alloc: Global,
    checked: &Checked,
    index: &CodeIndex,
    task: &TaskText,
    registers: &[Name],
) -> Result<(Seq<Instr>, Shape), AllocError>
    requires index { IsIndexOf index.now (plain_program (program_of checked.now)) }
    requires registers { registers.now ≡ registers_of (plain_task task.now) }
    ensures code { IfOk result (λ r. plain_instrs r.0 ≡ task_code (plain_program (program_of checked.now)) (plain_task task.now)) }
    ensures shape { IfOk result (λ r. r.1 ≡ shape_of (plain_task task.now)) }
    ensures short { IfOk result (λ r. IsShort (plain_instrs r.0)) }
{
    let controls = control_names(alloc, task)?;
    let scope = Scope {
        checked,
        index,
        controls: controls.as_slice(),
        registers,
    };
    let shape = Shape {
        ctl: small(controls.len())?,
        regs: small(registers.len())?,
    };
    let mut code = Seq::new(alloc);
    lower_block(alloc, &scope, &mut code, task.body.as_slice())?;
    small(code.len())?;
    Ok((code, shape))
}

// The instructions and the shapes of all tasks.
fn lower_tasks(
    alloc: Global,
    checked: &Checked,
    index: &CodeIndex,
) -> Result<(Seq<Seq<Instr>>, Seq<Shape>), AllocError>
    requires { IsIndexOf index.now (plain_program (program_of checked.now)) }
    ensures { IfOk result (λ r. AreTasksOf (plain_program (program_of checked.now)) (program_of checked.now).tasks r.0 r.1) }
{
    let mut tasks = Seq::new(alloc);
    let mut shapes = Seq::new(alloc);
    for (k, task) in checked.program().tasks.as_slice().iter().enumerate() {
        let registers = index.registers[k].as_slice();
        let (instrs, shape) = lower_task(alloc, checked, index, task, registers)?;
        tasks.push(instrs)?;
        shapes.push(shape)?;
    }
    Ok((tasks, shapes))
}

// The number of the task `main`, or 0 where there is none.
fn main_number(alloc: Global, index: &CodeIndex) -> Result<u32, AllocError>
    ensures { IfOk result (λ n. (program : plain.Program) → IsIndexOf index.now program → n ≡ main_number program) }
{
    let main = Name::from_slice(alloc, b"main")?;
    small(index.tasks.get(&main).unwrap_or(0))
}

// The stated numbers of the barriers, in declared order.
fn barrier_numbers(alloc: Global, program: &Program) -> Result<Seq<u32>, AllocError>
    ensures { IfOk result (λ numbers. numbers ≡ stated_numbers (plain_program program.now)) }
{
    let mut numbers = Seq::new(alloc);
    for head in program.heads.as_slice() {
        if let Head::BarrierHead { number, .. } = head {
            numbers.push(small(natural(*number) as usize)?)?;
        }
    }
    Ok(numbers)
}

/// The code of an accepted program. The only error is that memory is out.
pub fn lower(alloc: Global, c: &Checked) -> Result<Code, AllocError>
    ensures { IfOk result (λ code. code_of code ≡ lowered (plain_program (program_of c.now))) }
{
    let program = c.program();
    let index = index_of(alloc, program)?;
    let (tasks, shapes) = lower_tasks(alloc, c, &index)?;
    let params = all_params(alloc, program.tasks.as_slice())?;
    let main = main_number(alloc, &index)?;
    let barriers = barrier_numbers(alloc, program)?;
    let layout = c.layout(alloc)?;
    let over = c.over(alloc)?;
    Ok(Code::of(Parts {
        program: Snapshot::of(program),
        tasks,
        shapes,
        params,
        main,
        barriers,
        layout,
        over,
    }))
}
