// A run that was halted.

use call_cases::Request;
use gp_base::{Name, Text};

/// A run that was halted: what it was to do, and the text of its log, which the file of this name has.
#[derive(Drop)]
pub struct Halted {
    pub request: Request,
    pub log: Name,
    pub text: Text,
}
