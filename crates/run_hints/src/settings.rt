// Which lines of loops set the control variables that the conditions name, and in which turn each was last come to.

use crate::statements::{put_controls, statements_in};
use crate::unset::control;
use gp_base::{Name, ThreadNo};
use one_thread::{Reckon, Step};
use run_counts::{Loop, Turned, Turns};
use std::alloc::{AllocError, Global};
use task_ast::{Env, Expr, Stmt};

/// A line of a loop, by the place of the loop among others, that sets a control variable of its condition; and the turn of the
/// loop in which the line was last come to, or 0.
#[derive(Clone, Copy)]
pub struct Setting<'a> {
    pub place: usize,
    pub name: &'a Name,
    pub line: u32,
    pub turn: u64,
}

/// The turns of loops of one thread, in a run of which this is the order of the subthreads, and the lines in them that set the
/// control variables of their conditions.
#[derive(Drop)]
pub struct LoopTurns<'a> {
    turns: Turns<'a>,
    settings: Vec<Setting<'a>>,
    thread: ThreadNo,
    order: &'a [Step],
    begun: usize,
    // Whether the subthread is one of the thread.
    own: bool,
}

// Puts the lines of these statements that set a control variable after others, each once.
fn put_lines<'a>(
    settings: &mut Vec<Setting<'a>>,
    place: usize,
    name: &'a Name,
    statements: &[&'a Stmt],
) -> Result<(), AllocError> {
    let mut last = 0;
    for stmt in statements {
        if stmt.line != last && control(name).is_set_by(&stmt.what) {
            last = stmt.line;
            settings.push(Setting {
                place,
                name,
                line: stmt.line,
                turn: 0,
            })?;
        }
    }
    Ok(())
}

// Puts the lines of a loop that set the control variables of its condition after others.
fn put_settings<'a>(
    alloc: Global,
    settings: &mut Vec<Setting<'a>>,
    place: usize,
    around: Loop<'a>,
) -> Result<(), AllocError> {
    let mut names = Vec::new(alloc);
    put_controls(&mut names, around.condition)?;
    let statements = statements_in(alloc, around.body)?;
    for name in &names {
        put_lines(settings, place, *name, &statements)?;
    }
    Ok(())
}

// The lines of these loops that set the control variables of their conditions.
fn all_settings<'a>(alloc: Global, loops: &[Loop<'a>]) -> Result<Vec<Setting<'a>>, AllocError> {
    let mut settings = Vec::new(alloc);
    let mut place: usize = 0;
    for around in loops {
        put_settings(alloc, &mut settings, place, *around)?;
        place = place.saturating_add(1);
    }
    Ok(settings)
}

impl<'a> LoopTurns<'a> {
    /// No subthread has begun yet. The error is that memory is out.
    pub fn new(
        alloc: Global,
        order: &'a [Step],
        thread: ThreadNo,
        loops: &[Loop<'a>],
    ) -> Result<LoopTurns<'a>, AllocError> {
        Ok(LoopTurns {
            turns: Turns::new(alloc, order, thread, loops)?,
            settings: all_settings(alloc, loops)?,
            thread,
            order,
            begun: 0,
            own: false,
        })
    }

    /// The loops with their turns.
    pub fn loops(&self) -> &[Turned<'a>] {
        self.turns.loops.as_slice()
    }

    /// The lines of the loop at a place that set the control variables of its condition, those of one variable together. The
    /// error is that memory is out.
    pub fn settings_of(&self, alloc: Global, place: usize) -> Result<Vec<Setting<'a>>, AllocError> {
        let mut own = Vec::new(alloc);
        for setting in self.settings.as_slice() {
            if setting.place == place {
                own.push(*setting)?;
            }
        }
        Ok(own)
    }

    /// The last turn of the innermost loop was one too many, and was not taken.
    pub fn drop_last_turn(&mut self) {
        let last = self.turns.loops.len().saturating_sub(1);
        if let Some(turned) = self.turns.loops.get_mut(last) {
            turned.turns = turned.turns.saturating_sub(1);
        }
    }

    // The thread comes to a line.
    fn come_to(&mut self, line: u32) {
        for setting in self.settings.iter_mut() {
            if setting.line == line {
                if let Some(turned) = self.turns.loops.get(setting.place) {
                    setting.turn = turned.turns;
                }
            }
        }
    }

    // Loops that are left have no turns.
    fn forget(&mut self) {
        for setting in self.settings.iter_mut() {
            if let Some(turned) = self.turns.loops.get(setting.place) {
                setting.turn = setting.turn.min(turned.turns);
            }
        }
    }
}

impl<'a> Reckon for LoopTurns<'a> {
    fn begin(&mut self) {
        self.turns.begin();
        self.own = match self.order.get(self.begun) {
            Some(step) => step.thread.0 == self.thread.0,
            None => false,
        };
        self.begun = self.begun.saturating_add(1);
    }

    fn at(&mut self, line: u32) {
        self.turns.at(line);
        if self.own {
            self.come_to(line);
        }
    }

    fn of_control(&mut self, e: &Expr, env: &Env) -> Option<i64> {
        let value = self.turns.of_control(e, env);
        if self.own && matches!(value, Some(0)) {
            self.forget();
        }
        value
    }

    fn of_data(&mut self, e: &Expr, names: &[Name], env: &Env, registers: &[i64]) -> Option<i64> {
        self.turns.of_data(e, names, env, registers)
    }
}
