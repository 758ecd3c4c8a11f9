// Laws of the definitions, each the contract of a function with an empty body.

ghost use Rattle.task_ast.specs.laws.Bodies.{ValueLaw, BodyLaw, TurnLaw, PrefixLaw, PositionLaw};
ghost use Rattle.task_ast.specs.Reached.{DeadlockLaw};
ghost use Rattle.task_ast.specs.laws.Ends.{EndLaw, CountLaw, TablesLaw, WholeLaw};
ghost use Rattle.task_ast.specs.laws.Folds.{WritesLaw, NoDamageLaw, FoldLaw};
ghost use Rattle.task_ast.specs.laws.Keeps.{ReadsLaw, WithinLaw};
ghost use Rattle.task_ast.specs.laws.Runs.{RunMoveLaw, RunInsideLaw, RunOrderLaw, RunBeforeLaw, RunEndLaw};
ghost use Rattle.task_ast.specs.Layout.{LayoutLaw, SizesLaw, OverLaw, BaseLaw};

/// The value of an expression is that of its function of the registers.
pub fn value_law()
    ensures { ValueLaw }
{}

/// A body is one step, and then the body from there.
pub fn body_law()
    ensures { BodyLaw }
{}

/// The next issue is one turn, and then the same again where the turn passes.
pub fn turn_law()
    ensures { TurnLaw }
{}

/// The token comes back to a thread that has passed exactly where every thread that has not ended has passed.
pub fn deadlock_law()
    ensures { DeadlockLaw }
{}

/// The first steps of an order are those of a shorter run, and the step at a position is the one that the state before
/// it makes.
pub fn order_laws()
    ensures prefix { PrefixLaw }
    ensures position { PositionLaw }
{}

/// The plain run ends by its rules, within its limit, and its tables are those that turns lead to, with all known.
pub fn plain_laws()
    ensures end { EndLaw }
    ensures count { CountLaw }
    ensures tables { TablesLaw }
    ensures whole { WholeLaw }
{}

/// An effect writes each cell once, and they rise; mask 0 damages nothing; the fold of all positions of a run, none of
/// them damaged, is the state of the plain run.
pub fn fold_laws()
    ensures writes { WritesLaw }
    ensures damage { NoDamageLaw }
    ensures whole { FoldLaw }
{}

/// An effect reads and writes only the cells that its actions name, and the registers of its thread, its child and the
/// thread that it joins.
pub fn keeping_laws()
    ensures reads { ReadsLaw }
    ensures within { WithinLaw }
{}

/// Each record cell of an accepted program stands under exactly one lock cell, which is that of the same index in its
/// record's lock array; the cells under one lock cell rise. An array's cells follow one another by their indices.
pub fn layout_laws()
    ensures layout { LayoutLaw }
    ensures sizes { SizesLaw }
    ensures over { OverLaw }
    ensures base { BaseLaw }
{}

/// The plain run is the run of the general turn over the points of the tree.
pub fn run_laws()
    ensures moves { RunMoveLaw }
    ensures inside { RunInsideLaw }
    ensures order { RunOrderLaw }
    ensures before { RunBeforeLaw }
    ensures end { RunEndLaw }
{}
