//! Gets by token, and what is counted of them.
ghost use Rattle.scr_laws.specs.Tokens.{AreCounted};
ghost use Rattle.scr_world.specs.Lists.{world_of};
ghost use Rattle.scr_world.specs.Steps.{History};

/// For contracts alone: of each bundle's gets of each service just those that stand by token are counted as held by
/// tokens, in the world of every history.
pub fn note_tokens()
    ensures { (past : History) → AreCounted (world_of past) }
{}
