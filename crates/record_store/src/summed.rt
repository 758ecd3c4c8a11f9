// Values with a sum over them.

ghost use Rattle.std.specs.Prelude.{◌≡◌, ◌<◌, length, slice_get, slice_set, IfOk};
ghost use Rattle.std.specs.Option.{option_copied};
ghost use Rattle.task_ast.specs.meaning.State.{number_at};

use gp_base::{Nums, Seq};
use std::alloc::{AllocError, Global};
use std::marker::Model;

// An odd number with its bits spread, by which values are mixed.
const SPREAD: i64 = 0x1E37_79B9_7F4A_7C15;

/// Values and, where one was made, a sum over them, which each write adjusts. Contracts see the values alone. The sum
/// tells of a value that changed by no write, as a fault of the machine changes it: a check of data at rest, as
/// M. Blum, W. Evans, P. Gemmell, S. Kannan and M. Naor, "Checking the correctness of memories", FOCS 1991, adjust one
/// at each write and ask it later.
#[derive(Drop)]
pub struct Summed {
    values: Nums,
    sum: Option<i64>,
}

impl Model for Summed {
    ghost use Rattle.std.specs.Prelude.{List, ℤ};

    ghost Value = { List ℤ };

    ghost view = { λ s. s.values };
}

/// The value at a place, or 0 past the end.
pub fn value_at(values: &[i64], at: usize) -> i64
    ensures { result ≡ number_at values.now at }
{
    match values.get(at) {
        Some(value) => *value,
        None => 0,
    }
}

/// What a value at a place adds to a sum.
pub fn mixed(place: usize, value: i64) -> i64 {
    let place = match u32::try_from(place) {
        Ok(place) => i64::from(place),
        Err(_) => 0,
    };
    (value ^ place.wrapping_mul(SPREAD)).wrapping_mul(SPREAD)
}

// The sum over these values.
fn sum_over(values: &[i64]) -> i64 {
    let mut sum = 0i64;
    for (place, value) in values.iter().enumerate() {
        sum = sum.wrapping_add(mixed(place, *value));
    }
    sum
}

impl Summed {
    /// These values, with no sum. Takes no memory.
    pub fn plain(values: Nums) -> Summed
        ensures { result ≡ values }
    {
        Summed { values, sum: None }
    }

    /// These values, with their sum where it is asked for. Takes no memory.
    pub fn made(values: Nums, is_summed: bool) -> Summed
        ensures { result ≡ values }
    {
        if is_summed {
            Summed::plain(values).summed()
        } else {
            Summed::plain(values)
        }
    }

    /// The same values with the sum over them as they now are. Takes no memory.
    pub fn summed(self) -> Summed
        ensures { result ≡ self }
    {
        let Summed { values, .. } = self;
        let sum = sum_over(values.as_slice());
        Summed {
            values,
            sum: Some(sum),
        }
    }

    /// The values, in order.
    pub fn as_slice(&self) -> &[i64]
        ensures { result.now ≡ self.now }
    {
        self.values.as_slice()
    }

    /// How many values there are.
    pub fn len(&self) -> usize
        ensures { result ≡ length self.now }
    {
        self.values.len()
    }

    /// The value at a place counted from 0, or `None` past the end.
    pub fn get(&self, at: usize) -> Option<&i64>
        ensures { option_copied result ≡ slice_get self.now at }
    {
        self.values.get(at)
    }

    /// Puts a value in the place of another, and adjusts the sum.
    pub fn set(&mut self, at: usize, value: i64)
        requires { at < length self.old }
        ensures { self.new ≡ slice_set self.old at value }
    {
        if let Some(sum) = self.sum {
            let old = mixed(at, value_at(self.values.as_slice(), at));
            self.sum = Some(sum.wrapping_sub(old).wrapping_add(mixed(at, value)));
        }
        self.values.set(at, value);
    }

    /// The same values with the same sum. The error is that memory is out.
    pub fn copied(&self, alloc: Global) -> Result<Summed, AllocError>
        ensures { IfOk result (λ copy. copy ≡ self.now) }
    {
        let values = self.values.copied(alloc)?;
        Ok(Summed {
            values,
            sum: self.sum,
        })
    }

    /// The sum over the values as they now are. Takes no memory.
    pub fn sum(&self) -> i64 {
        sum_over(self.values.as_slice())
    }

    /// Whether this is the sum that the values were left with, or they were left with none.
    pub fn expects(&self, sum: i64) -> bool {
        match self.sum {
            Some(left) => left == sum,
            None => true,
        }
    }

    /// Whether the values are those that writes left, as far as their sum tells; true where they have none.
    pub fn is_whole(&self) -> bool {
        match self.sum {
            Some(left) => left == self.sum(),
            None => true,
        }
    }

    /// Turns a bit of the sum, where there is one, as a fault of the machine would: for tests.
    pub fn disturb(&mut self)
        ensures { self.new ≡ self.old }
    {
        if let Some(sum) = self.sum {
            self.sum = Some(sum ^ 1);
        }
    }
}
