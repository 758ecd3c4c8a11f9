// Sinks in memory.
ghost use Rattle.std.specs.Prelude.{◌≡◌, ◌<◌, ◌≤◌, ◌↔◌, ◌+◌, ◌-◌, ◌^◌, min, [], Some, None, Ok, Err, length, IfOk};
ghost use Rattle.std.specs.Io.KnownBytes.{WriteAppends};
ghost use Rattle.gp_base.specs.Calls.{IsNextListed};
ghost use Rattle.gp_base.specs.meaning.Sinks.{HasCause};

use crate::calls::Calls;
use crate::{Seq, Sink, SinkFault};
use std::alloc::Global;

/// Bytes in memory. It takes at most so many a call, and the calls whose numbers are listed fail.
#[derive(Drop)]
pub struct MemSink {
    written: Vec<u8>,
    most: usize,
    calls: Calls,
    faults: u64,
    ghost takes_some: { 1 ≤ most },
}

impl MemSink {
    /// An empty sink that takes at most `most` bytes a call, whose calls fail that have the listed numbers, counted
    /// from 1. A call after number 18446744073709551615 counts as not listed. Takes no memory.
    pub fn new(alloc: Global, most: usize, failing: Seq<u64>) -> Self
        requires { 1 ≤ most }
        ensures written { ⟦<MemSink as Sink>⟧.written result ≡ Some [] }
        ensures faults { ⟦<MemSink as Sink>⟧.faults result ≡ 0 }
        ensures listed { result.calls.failing ≡ failing }
        ensures made { result.calls.made ≡ 0 }
        ensures most { result.most ≡ most }
    {
        MemSink {
            written: Vec::new(alloc),
            most,
            calls: Calls { failing, made: 0 },
            faults: 0,
        }
    }

    /// The bytes taken so far.
    pub fn written(&self) -> &[u8]
        ensures { ⟦<MemSink as Sink>⟧.written self.now ≡ Some result.now }
    {
        &self.written
    }

    /// How many calls have failed.
    pub fn faults(&self) -> u64
        ensures { result ≡ ⟦<MemSink as Sink>⟧.faults self.now }
    {
        self.faults
    }
}

impl Sink for MemSink {
    ghost written = { λ s. Some s.written.items };

    ghost faults = { λ s. s.faults };

    fn write(&mut self, bytes: &[u8]) -> Result<usize, SinkFault>
        requires { 0 < length bytes.now }
        ensures count { IfOk result (λ count. (1 ≤ count) × (count ≤ length bytes.now)) }
        ensures bytes { WriteAppends (Some self.old.written.items) (Some self.new.written.items) result bytes.now }
        ensures cause { HasCause self.old.faults self.new.faults result }

        // The calls that are listed fail, and no others.
        ensures listed { (result ≡ Err SinkFault.Failed) ↔ IsNextListed self.old.calls.failing self.old.calls.made }
        ensures counted { self.new.calls.made ≡ min (self.old.calls.made + 1) (2 ^ 64 - 1) }
        ensures same { self.new.calls.failing ≡ self.old.calls.failing }
        ensures most { self.new.most ≡ self.old.most }
        ensures at_most { IfOk result (λ count. count ≤ self.old.most) }
    {
        if self.calls.fails_next() {
            self.faults = self.faults.saturating_add(1);
            return Err(SinkFault::Failed);
        }
        let count = self.most.min(bytes.len());
        self.written.extend_from_slice(&bytes[..count])?;
        Ok(count)
    }
}

/// Takes every byte and keeps none. It never fails, and does not tell what it took.
#[derive(Clone, Copy)]
pub struct NeverSink;

impl NeverSink {
    /// A sink that never fails.
    pub fn new() -> Self {
        NeverSink
    }
}

impl Sink for NeverSink {
    ghost written = { λ _. None };

    ghost faults = { λ _. 0 };

    fn write(&mut self, bytes: &[u8]) -> Result<usize, SinkFault>
        requires { 0 < length bytes.now }
        ensures count { IfOk result (λ count. (1 ≤ count) × (count ≤ length bytes.now)) }
        ensures bytes { WriteAppends None None result bytes.now }
        ensures cause { HasCause 0 0 result }

        // It takes every byte.
        ensures all { result ≡ Ok (length bytes.now) }
    {
        Ok(bytes.len())
    }
}
