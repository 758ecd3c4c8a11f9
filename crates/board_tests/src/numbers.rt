// A number to square, the jobs of these tests.
ghost use Rattle.std.specs.Prelude.{◌≡◌, ◌*◌, ◌<◌, ◌≤◌, length, All, IfOk};

use gp_base::{Job, Seq};
use std::alloc::{AllocError, Global};

/// A number to square.
#[derive(Drop)]
pub struct Number {
    pub value: u64,
}

impl Job for Number {
    type With = ();

    type Run = u64;

    ghost fits = { λ _ job. job.value < 65536 };

    ghost is_run = { λ _ job run. run ≡ job.value * job.value };

    fn run(self, _with: &()) -> u64 {
        let Number { value } = self;
        value * value
    }
}

/// The numbers from 0 on, so many.
pub fn numbers(alloc: Global, count: u64) -> Result<Seq<Number>, AllocError>
    requires { count ≤ 1000 }
    ensures { IfOk result (λ jobs. (length jobs ≤ 65536) × All (λ job. job.value < 65536) jobs) }
{
    let jobs = (0..count).map(|value| Number { value }).collect(alloc)?;
    Ok(Seq::from_vec(jobs))
}
