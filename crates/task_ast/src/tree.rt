// The trees of the task language.

use gp_base::{Name, Seq};

/// A batch program: what it declares, then its tasks, both in text order.
pub struct Program {
    pub heads: Seq<Head>,
    pub tasks: Seq<TaskText>,
}

impl Drop for Program {
    fn drop(self) {
        let Self { heads: _, tasks: _ } = self;
    }
}

/// A declaration of a lock array, a barrier, a record or a feed. `from` is the name of a file.
#[derive(Drop)]
pub enum Head {
    LockHead {
        name: Name,
        size: i64,
        line: u32,
    },
    BarrierHead {
        name: Name,
        number: i64,
        line: u32,
    },
    RecHead {
        name: Name,
        size: i64,
        by: Name,
        from: Option<Name>,
        line: u32,
    },
    FeedHead {
        name: Name,
        fields: i64,
        from: Name,
        line: u32,
    },
}

/// The text of a task: its parameters, its var lines and its statements.
pub struct TaskText {
    pub name: Name,
    pub params: Seq<Param>,
    pub vars: Seq<VarLine>,
    pub body: Seq<Stmt>,
    pub line: u32,
}

impl Drop for TaskText {
    fn drop(self) {
        let Self {
            name: _,
            params: _,
            vars: _,
            body: _,
            line: _,
        } = self;
    }
}

/// A control variable, or a data variable by its name without the `$`.
#[derive(Drop)]
pub enum Param {
    Ctl(Name),
    Reg(Name),
}

/// One line of declared variables.
#[derive(Drop)]
pub struct VarLine {
    pub names: Seq<Param>,
    pub line: u32,
}

/// A statement, with the line of its first token.
#[cycle(stmt)]
#[derive(Drop)]
pub struct Stmt {
    pub what: What,
    pub line: u32,
}

/// What a statement does. The blocks of `When` hold data statements alone, and a missing `else` is an empty list.
#[cycle(stmt)]
#[derive(Drop)]
pub enum What {
    SetCtl(Name, Expr),
    While(Expr, Seq<Stmt>),
    If(Expr, Seq<Stmt>, Seq<Stmt>),
    Lock(Name, Atom),
    Unlock(Name, Atom),
    Fork(Name, Seq<Expr>, Option<Name>),
    Join(Expr, Option<Name>),
    Barrier(Name),
    Settle(Name, Name),
    SetReg(Name, Expr),
    Read(Name, Atom, Name),
    Write(Name, Atom, Expr),
    Print(Seq<Expr>),
    When(Expr, Seq<Stmt>, Seq<Stmt>),
}

/// The index of a lock or of a record cell: a number or a control variable.
#[derive(Drop)]
pub enum Atom {
    Num(i64),
    Var(Name),
}

/// An expression. A chain has at least one operator, and is read from left to right.
#[derive(Drop)]
pub enum Expr {
    Num(i64),
    Ctl(Name),
    Reg(Name),
    Me,
    Rows(Name),
    Cell(Name, Box<Expr>, Box<Expr>),
    Neg(Box<Expr>),
    Not(Box<Expr>),
    Chain(Box<Expr>, Seq<(Op, Expr)>),
}

/// The operators of chains.
#[derive(Clone, Copy, Debug, PartialEq, Eq)]
pub enum Op {
    Or,
    And,
    Eq,
    Ne,
    Lt,
    Le,
    Gt,
    Ge,
    Add,
    Sub,
    Mul,
    Div,
    Rem,
}
