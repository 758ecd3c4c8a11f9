// A run that has halted before its end, and the loops of its threads.

use call_cases::Request;
use gp_base::{Name, ThreadNo};
use one_thread::{Step, run_reckoned};
use run_counts::Loop;
use run_hints::{
    Branches, LoopTurns, Place, Tasks, is_given, loops_at, push_bound, push_conditions,
    push_forked, push_names, push_settled,
};
use run_standing::Standing;
use std::alloc::{AllocError, Global};
use task_ast::{Env, Program, TaskText};

/// A run that has halted before its end: its subthreads, the tasks of its threads, and where these stand.
#[derive(Clone, Copy)]
pub struct Halted<'a> {
    pub request: &'a Request,
    pub order: &'a [Step],
    pub tasks: &'a Tasks,
    pub standing: &'a Standing,
}

impl<'a> Halted<'a> {
    /// The program.
    pub fn program(&self) -> &'a Program {
        self.request.checked.program()
    }

    /// The loops around a place of a thread. The error is that memory is out.
    pub fn loops_of(
        &self,
        alloc: Global,
        thread: ThreadNo,
        place: Place,
    ) -> Result<Vec<Loop<'a>>, AllocError> {
        match self.tasks.task_of(self.program(), thread) {
            Some(task) => loops_at(alloc, task, place),
            None => Ok(Vec::new(alloc)),
        }
    }

    /// The turns of these loops of a thread since it entered each of them. The run is made once more for them. The error is
    /// that memory is out.
    pub fn turned(
        &self,
        alloc: Global,
        thread: ThreadNo,
        loops: &[Loop<'a>],
    ) -> Result<LoopTurns<'a>, AllocError> {
        let mut turns = LoopTurns::new(alloc, self.order, thread, loops)?;
        if !loops.is_empty() {
            let limits = self.request.asked.limits;
            let (checked, inputs) = (&self.request.checked, &self.request.inputs);
            run_reckoned(alloc, checked, inputs, limits, &mut turns)?;
        }
        Ok(turns)
    }

    /// Appends what `push_values_of` does for these loops, with the turns of a thread in them, and answers the same. The error
    /// is that memory is out.
    pub fn push_turned(
        &self,
        alloc: Global,
        text: &mut Vec<u8>,
        thread: ThreadNo,
        loops: &[Loop<'a>],
    ) -> Result<bool, AllocError> {
        let turned = self.turned(alloc, thread, loops)?;
        self.push_values_of(alloc, text, thread, &turned)
    }

    /// Appends the control variables of a thread. The error is that memory is out.
    pub fn push_names_of(&self, text: &mut Vec<u8>, thread: ThreadNo) -> Result<(), AllocError> {
        match self.standing.names.get(thread.0 as usize) {
            Some(names) => push_names(text, thread, names.as_slice()),
            None => Ok(()),
        }
    }

    /// Appends the control variables of a thread, which of them the conditions of these loops name, and what sets these; and
    /// answers whether that is what a record has. The error is that memory is out.
    pub fn push_values_of(
        &self,
        alloc: Global,
        text: &mut Vec<u8>,
        thread: ThreadNo,
        loops: &LoopTurns<'a>,
    ) -> Result<bool, AllocError> {
        let Some(names) = self.standing.names.get(thread.0 as usize) else {
            return Ok(false);
        };
        push_names(text, thread, names.as_slice())?;
        let settings = push_conditions(alloc, text, loops, names.as_slice())?;
        match self.tasks.task_of(self.program(), thread) {
            Some(task) => push_settled(alloc, text, self.program(), task, &settings),
            None => Ok(false),
        }
    }

    /// Appends how a thread was forked, and the thread that did so. The error is that memory is out.
    pub fn push_forked(
        &self,
        alloc: Global,
        text: &mut Vec<u8>,
        thread: ThreadNo,
    ) -> Result<(), AllocError> {
        push_forked(alloc, text, self.program(), self.order, self.tasks, thread)
    }

    /// Appends what bounds these control variables, which a thread's task names in a line, and how the thread was forked, if
    /// its arguments may be the cause. The error is that memory is out.
    pub fn push_given<'b>(
        &self,
        alloc: Global,
        text: &mut Vec<u8>,
        named: (&'b TaskText, ThreadNo, u32),
        names: &[&'b Name],
        env: &Env,
    ) -> Result<(), AllocError> {
        let (task, thread, line) = named;
        push_bound(alloc, text, task, line, names, env)?;
        if is_given(alloc, task, line, names)? {
            return self.push_forked(alloc, text, thread);
        }
        Ok(())
    }

    /// Appends which conditions left forks out, and how often. The run is made once more for them, where there are some. The
    /// error is that memory is out.
    pub fn push_left_out(&self, alloc: Global, text: &mut Vec<u8>) -> Result<(), AllocError> {
        let mut branches = Branches::new(alloc, self.program(), self.order, self.tasks)?;
        if branches.is_empty() {
            return Ok(());
        }
        let limits = self.request.asked.limits;
        let (checked, inputs) = (&self.request.checked, &self.request.inputs);
        run_reckoned(alloc, checked, inputs, limits, &mut branches)?;
        branches.push(text)
    }
}
