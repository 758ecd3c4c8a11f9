// Where bytes are written.
ghost use Rattle.std.specs.Prelude.{◌≡◌, ◌<◌, ◌≤◌, ℕ, List, Option, length, IfOk, OnOk, OnErr};
ghost use Rattle.std.specs.Io.KnownBytes.{Appends, WriteAppends};
ghost use Rattle.gp_base.specs.declared.sink.SinkFault.TheVariants.{OutOfMemory};
ghost use Rattle.gp_base.specs.meaning.Sinks.{HasCause, AppendsPrefix};

use std::alloc::{AllocError, AllocFailed};

/// Why a sink took no bytes: the write failed, or there is no memory for it.
#[derive(Clone, Copy, Debug, PartialEq, Eq)]
pub enum SinkFault {
    Failed,
    OutOfMemory,
}

impl From<AllocError> for SinkFault {
    ghost from_gives = { λ _ e. e ≡ OutOfMemory };

    fn from(_: AllocError) -> Self {
        SinkFault::OutOfMemory
    }
}

impl<T: Drop> From<AllocFailed<T>> for SinkFault {
    ghost from_gives = { λ _ e. e ≡ OutOfMemory };

    fn from(_: AllocFailed<T>) -> Self {
        SinkFault::OutOfMemory
    }
}

/// What takes bytes, a piece at a time.
pub trait Sink {
    /// The bytes taken so far, where the sink tells them.
    ghost written: { Self → Option (List ℕ) };

    /// How often it has failed. It never falls.
    ghost faults: { Self → ℕ };

    /// Takes the first of these bytes, at least one, and answers how many. After a refusal none was taken. `Failed`
    /// comes only where the count of faults rose.
    fn write(&mut self, bytes: &[u8]) -> Result<usize, SinkFault>
        requires { 0 < length bytes.now }
        ensures count { IfOk result (λ count. (1 ≤ count) × (count ≤ length bytes.now)) }
        ensures bytes { WriteAppends (written self.old) (written self.new) result bytes.now }
        ensures cause { HasCause (faults self.old) (faults self.new) result };
}

/// Writes all the bytes. After a refusal a prefix of them was taken.
pub fn put_all<O: Sink>(to: &mut O, bytes: &[u8]) -> Result<(), SinkFault>
    ensures all { OnOk result (Appends (O.written to.old) (O.written to.new) bytes.now) }
    ensures prefix { OnErr result (AppendsPrefix (O.written to.old) (O.written to.new) bytes.now) }
    ensures cause { HasCause (O.faults to.old) (O.faults to.new) result }
{
    let mut rest = bytes;
    while !rest.is_empty() {
        let taken = to.write(rest)?;
        rest = &rest[taken..];
    }
    Ok(())
}
