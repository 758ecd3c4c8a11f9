// Instructions, and what they compute with.

use gp_base::Seq;
use lock_checker::CellRange;
use task_ast::Op;

/// The index of a lock cell or of a record cell: a number, or the number of a control variable.
#[derive(Clone, Copy)]
pub enum CellIndex {
    Number(i64),
    Variable(usize),
}

/// An expression over numbered variables and feeds. `NoValue` stands for what names nothing that exists, and has no
/// value.
#[derive(Drop)]
pub enum Calc {
    Const(i64),
    Ctl(usize),
    Reg(usize),
    Me,
    Rows(usize),
    Cell(usize, Box<Calc>, Box<Calc>),
    Neg(Box<Calc>),
    Not(Box<Calc>),
    Chain(Box<Calc>, Seq<(Op, Calc)>),
    NoValue,
}

/// What a data statement does to registers, record cells and printed lines. A `when` is one instruction: both arms are
/// looked up before data pick one.
#[derive(Drop)]
pub enum Deed {
    SetReg(usize, Calc),
    Read(CellRange, CellIndex, usize),
    Write(CellRange, CellIndex, Calc),
    Print(Seq<Calc>),
    When(Calc, Seq<Deed>, Seq<Deed>),
}

/// What a fork begins: the number of the task, how many registers it has, the values of its control parameters in
/// order, the values of its data parameters beside their registers, and the control variable that takes the child's
/// number.
#[derive(Drop)]
pub struct Forking {
    pub task: u32,
    pub registers: usize,
    pub controls: Seq<Calc>,
    pub gifts: Seq<(usize, Calc)>,
    pub into: Option<usize>,
}

/// What an instruction does. A jump says how many instructions it passes: forward, or back to the beginning of a loop's
/// body.
#[derive(Drop)]
pub enum Does {
    Assign(usize, Calc),
    GoOn(usize),
    Unless(Calc, usize),
    Again(Calc, usize),
    Lock(CellRange, CellIndex),
    Unlock(CellRange, CellIndex),
    Fork(Forking),
    Join(Calc, Option<usize>),
    Barrier(u32),
    Settle(u32, u32),
    Do(Deed),
}

/// An instruction, with the line of its statement.
pub struct Instr {
    pub does: Does,
    pub line: u32,
}

impl Drop for Instr {
    fn drop(self) {
        let Self { does: _, line: _ } = self;
    }
}

/// How many control variables and how many registers a task has.
#[derive(Clone, Copy)]
pub struct Shape {
    pub ctl: u32,
    pub regs: u32,
}
