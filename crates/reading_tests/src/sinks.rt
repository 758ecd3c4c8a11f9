// Sinks in memory, and writing to them.
use gp_base::{MemSink, NeverSink, Seq, SinkFault, put_all};
use std::alloc::{AllocError, Global};
use std::test::Fail;

// The calls that fail, the answer, what was taken of `output`, and the count of faults.
type Put = (&'static [u64], Result<(), SinkFault>, &'static str, u64);

const PUTS: [Put; 4] = [
    (&[], Ok(()), "output", 0),
    (&[1], Err(SinkFault::Failed), "", 1),
    (&[2], Err(SinkFault::Failed), "out", 1),
    (&[3, 18446744073709551615], Ok(()), "output", 0),
];

// Whether a sink of three bytes at once answers so to `output`, and what it has then taken and counted.
fn puts(alloc: Global, put: &Put) -> Result<bool, AllocError> {
    let (failing, answer, taken, faults) = put;
    let failing = Seq::from_slice(alloc, failing)?;
    let mut sink = MemSink::new(alloc, 3, failing);
    let is_answered = put_all(&mut sink, b"output") == *answer;
    let is_told = sink.written() == taken.as_bytes() && sink.faults() == *faults;
    drop(sink);
    Ok(is_answered && is_told)
}

#[test]
fn a_fault_leaves_a_prefix(rt: HostRuntime) -> Result<(), Fail> {
    for put in &PUTS {
        assert!(rt; puts(rt.alloc(), put)?);
    }
    Ok(())
}

#[test]
fn a_sink_that_keeps_nothing_takes_all(rt: HostRuntime) {
    assert!(rt; put_all(&mut NeverSink::new(), b"output").is_ok());
}
