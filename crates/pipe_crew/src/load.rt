// How much work waits with a crew.

use crew::{MeanSteps, worth};
use subthread::Task;

/// How many steps the tasks that wait were reckoned to make together when they were posted, and the longest of them. No
/// clause rests on it: it says how many threads they are worth.
#[derive(Clone, Copy, Drop)]
pub struct Load {
    sum: u64,
    longest: u64,
}

impl Load {
    /// No task waits.
    pub fn none() -> Load {
        Load { sum: 0, longest: 0 }
    }

    /// One task more waits.
    pub fn add(&mut self, steps: u64) {
        self.sum = self.sum.saturating_add(steps);
        self.longest = self.longest.max(steps);
    }

    /// One task less waits.
    pub fn take(&mut self, steps: u64) {
        self.sum = self.sum.saturating_sub(steps);
        self.longest = self.longest.min(self.sum);
    }

    /// What is left where these tasks wait no longer, and so many still do.
    pub fn without(self, mean_steps: &MeanSteps, gone: &[Task], waiting: usize) -> Load {
        if waiting == 0 {
            return Load::none();
        }
        let mut left = self;
        for task in gone {
            left.take(mean_steps.reckoned(task));
        }
        left
    }

    /// How many threads the tasks are worth beside one that takes the longest.
    pub fn beside_one(&self) -> u64 {
        worth(self.sum, self.longest) - 1
    }

    /// How many threads they are worth where none is at hand yet.
    pub fn in_all(&self) -> u64 {
        worth(self.sum, 0) - 1
    }
}
