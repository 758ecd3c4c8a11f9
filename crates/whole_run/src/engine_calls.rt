// The calls of a run's loop over the engine's parts.

use crate::calls::{Calls, Issued};
use crate::engine::Engine;
use crate::parts::{
    accept, all_home, detect, due, finished, into_journal, into_report, issue, post, retire,
    runnable, scouted,
};
use crew::{Crew, Notes};
use gp_base::{End, Journal, Pos, Sink};
use reorder_list::{Report, StopWhy};
use std::alloc::AllocError;
use std::thread::Threads;
use subthread::Done;

impl<'a> Calls for Engine<'a> {
    ghost view = { λ e. e.view };

    ghost room = { λ e. e.room };

    fn issue(&mut self) -> Result<Issued, AllocError> {
        issue(self.alloc, &self.plan, &mut self.parts)
    }

    fn due(&self) -> bool {
        due(&self.plan, &self.parts)
    }

    fn all_home(&self) -> bool {
        all_home(&self.plan, &self.parts)
    }

    fn scouted(&self) -> bool {
        scouted(&self.plan, &self.parts)
    }

    fn detect(&mut self) -> Result<bool, AllocError> {
        detect(self.alloc, &self.plan, &mut self.parts)
    }

    fn retire<O: Sink>(&mut self, out: &mut O) -> Result<Option<Pos>, StopWhy> {
        retire(self.alloc, &self.plan, &mut self.parts, out)
    }

    fn finished(&self) -> Option<End> {
        finished(&self.plan, &self.parts)
    }

    fn runnable(&mut self, from: Pos) -> Option<Pos> {
        runnable(&self.plan, &mut self.parts, from)
    }

    fn post<R: Threads + Sync, C: Crew>(
        &mut self,
        rt: &R,
        crew: &mut C,
        position: Pos,
    ) -> Result<(), AllocError> {
        post(self.alloc, rt, &self.plan, &mut self.parts, crew, position)
    }

    fn reserve(&mut self) -> Result<(), AllocError> {
        self.parts.events.reserve(1)
    }

    fn accept<N: Notes>(&mut self, done: Done, notes: &mut N) -> Result<bool, AllocError> {
        accept(&self.plan, &mut self.parts, done, notes)
    }

    fn into_journal(self) -> Journal {
        let Engine { plan, parts, .. } = self;
        into_journal(&plan, parts)
    }

    fn into_report(self, end: End) -> Report {
        let Engine { plan, parts, .. } = self;
        into_report(&plan, parts, end)
    }
}
