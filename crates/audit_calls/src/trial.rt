// What is audited.

use call_cases::Request;
use gp_audit::TraceLine;
use gp_base::{Name, Seq};

/// What is audited: the run that is said to have been, and the lines of its trace, which the file of this name has.
#[derive(Drop)]
pub struct Trial {
    pub request: Request,
    pub trace: Name,
    pub lines: Seq<TraceLine>,
}
