// How a verdict is told.
ghost use Rattle.std.specs.Prelude.{◌≡◌, IfOk};
ghost use Rattle.gp_audit.specs.meaning.Answer.{verdict_text, verdict_status};

use crate::verdict::Verdict;
use gp_base::{Seq, Text};
use itoa::Buffer;
use std::alloc::{AllocError, Global};

/// The line that tells a verdict. The error is that memory is out.
pub fn verdict_text(alloc: Global, verdict: Verdict) -> Result<Text, AllocError>
    ensures { IfOk result (λ text. text ≡ verdict_text verdict) }
{
    let mut text = Vec::new(alloc);
    match verdict {
        Verdict::Lawful => text.extend_from_slice(b"lawful\n")?,
        Verdict::Unlawful(number) => {
            text.extend_from_slice(b"unlawful ")?;
            text.extend_from_slice(Buffer::new().format(number).as_bytes())?;
            text.extend_from_slice(b"\n")?;
        }
        Verdict::Incomplete => text.extend_from_slice(b"incomplete\n")?,
    }
    Ok(Seq::from_vec(text))
}

/// The status that tells a verdict: 0, 9 or 10.
pub fn verdict_status(verdict: Verdict) -> u8
    ensures { result ≡ verdict_status verdict }
{
    match verdict {
        Verdict::Lawful => 0,
        Verdict::Unlawful(_) => 9,
        Verdict::Incomplete => 10,
    }
}
