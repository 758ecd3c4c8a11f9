// What is done at a desk of a board of jobs.

/// A piece of work that any thread may do, once.
pub trait Job: Send + Drop {
    /// What all jobs of a board are run under.
    type With;

    /// What a run answers.
    type Run: Send + Drop;

    /// This job fits that shared value.
    ghost fits: { Self.With → Self → Type 0 };

    /// This is a run of that job under that shared value.
    ghost is_run: { Self.With → Self → Self.Run → Type 0 };

    /// Runs the job.
    fn run(self, with: &Self::With) -> Self::Run
        requires { fits with.now self }
        ensures { is_run with.now self result };
}
