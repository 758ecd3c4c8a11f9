// The engine over its real parts.

use crate::BatchRun;
use crate::parts::{FaultsInOrder, Parts, Plan, begin};
use gp_base::Inputs;
use std::alloc::{AllocError, Global};
use std::marker::Model;
use std::snapshot::Snapshot;

/// A run while it goes on. Contracts see what it was begun with, its events and its end where that is known, and how
/// many events it has room for. All that stands between two calls stands in the type.
#[derive(Drop)]
pub struct Engine<'a> {
    pub(crate) alloc: Global,
    pub(crate) plan: Plan<'a>,
    pub(crate) parts: Parts,
}

impl<'a> Model for Engine<'a> {
    ghost use Rattle.std.specs.Coded.{codes};
    ghost use Rattle.task_ast.specs.contracts.tree.Program as program;
    ghost use Rattle.task_code.specs.contracts.instrs.Instr as instr;
    ghost use Rattle.whole_run.specs.Engaged.{Engaged};

    ghost Value = { Engaged };

    ghost coded = { Prim.hlevel (codes, program.the_row.coded, instr.the_row.coded) };

    ghost use Rattle.whole_run.specs.inner.Kept.{batch_in, view_of, Kept};

    ghost view = { λ e. record { view = view_of (batch_in e.plan) e.parts; room = e.parts.events.spare } };

    ghost use Rattle.std.specs.Prelude.{◌≡◌, false};

    ghost invariant = { λ e. Kept (batch_in e.plan) e.parts × (e.parts.ring.cleared ≡ false) };
}

impl<'a> Engine<'a> {
    ghost use Rattle.std.specs.Prelude.{◌≡◌, IfOk};
    ghost use Rattle.whole_run.specs.View.{begun};
    ghost use Rattle.whole_run.specs.Starting.{CanBegin, batch_asked};

    /// A run of this batch that begins. The error is that memory is out.
    pub fn new(alloc: Global, run: BatchRun<'a>) -> Result<Engine<'a>, AllocError>
        requires { CanBegin run }
        ensures { IfOk result (λ engine. engine.view ≡ begun (batch_asked run.entry)) }
    {
        let BatchRun {
            work,
            recovery,
            layout,
            inputs,
            faults,
            limits,
        } = run;
        let plan = Plan {
            work,
            recovery,
            inputs: Snapshot::of(&inputs),
            limits,
            faults: FaultsInOrder::new(faults),
        };
        let Inputs { records, feeds: _ } = inputs;
        let parts = begin(alloc, &plan, layout, records)?;
        Ok(Engine { alloc, plan, parts })
    }
}
