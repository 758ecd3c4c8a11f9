// The laws of the definitions, each on a function with an empty body.

ghost use Rattle.run_views.specs.Laws.{LinkLaw, ChainLaw};

/// Each position that is redone beside the one that was struck is linked to one below it that is redone too, and the
/// chain of links ends at the one that was struck.
pub fn link_laws()
    ensures link { LinkLaw }
    ensures chain { ChainLaw }
{}
