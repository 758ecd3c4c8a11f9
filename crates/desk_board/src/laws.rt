// What the rule of a board comes to, on a function with an empty body.
ghost use Rattle.desk_board.specs.Facts.{FactsLaw};

use gp_base::Job;

/// In every state that the rule of a board allows, its facts hold: each desk is drawn once, put back once and collected
/// once, and once the last pass is gathered every run is back. Every step of every call keeps the rule, so they hold
/// between any two steps, however the callers' steps are interleaved.
pub fn rule_law<J: Job>()
    ensures { FactsLaw J.fits J.is_run }
{}
