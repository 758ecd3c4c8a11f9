// Which positions restarts redo.
ghost use Rattle.std.specs.Prelude.{◌≡◌, ◌≤◌, length};
ghost use Rattle.dependence.specs.meaning.Dependents.{is_member};
ghost use Rattle.dependence.specs.meaning.Restarts.{redoes, attempt_of};

use gp_base::{Pos, Restart};

// Whether the position is among these.
fn is_among(position: u64, positions: &[Pos]) -> bool
    ensures { result ≡ is_member position positions.now }
{
    for other in positions {
        if position == u64::from(other.0) {
            return true;
        }
    }
    false
}

/// Whether a restart redoes the position.
pub fn redoes(restart: &Restart, position: u64) -> bool
    ensures { result ≡ redoes position restart.now }
{
    is_among(position, restart.redo.as_slice())
}

/// The attempt of a position after these restarts.
pub fn attempt_of(restarts: &[Restart], position: u64) -> u64
    ensures attempt { result ≡ attempt_of restarts.now position }
    ensures few { result ≤ length restarts.now }
{
    let mut attempt = 0;
    for restart in restarts {
        if redoes(restart, position) {
            attempt += 1;
        }
    }
    attempt
}
