// The crews that take a run, in the words that name them.

/// Each with one worker and with more.
pub static CREWS: [&str; 10] = [
    " --crew one",
    " --crew wave --workers 1",
    " --crew wave --workers 2",
    " --crew wave --workers 64",
    " --crew board --workers 1",
    " --crew board --workers 2",
    " --crew board --workers 64",
    " --crew steal --workers 1",
    " --crew steal --workers 2",
    " --crew steal --workers 64",
];

/// Each with one worker or two.
pub static PAIRS: [&str; 4] = [
    " --crew one",
    " --crew wave --workers 2",
    " --crew board --workers 2",
    " --crew steal --workers 2",
];
