//! Laws of scopes.

ghost use Rattle.link_spec.specs.ScopeLaws.{BodiesReadNoSlots, ConditionsFollowScopes, ScopeIsDecided, ScopeIsMet};

/// Where the ids of a scope have types, to type the scope finds nothing, and its typing is that of its names
/// alone.
pub fn scope_is_decided()
    ensures { ScopeIsDecided }
{}

/// It is False exactly where the environment does not meet the scope.
pub fn scope_is_met()
    ensures { ScopeIsMet }
{}

/// The check of a condition is made of the scope and of the walk of the body with nothing known.
pub fn conditions_follow_scopes()
    ensures { ConditionsFollowScopes }
{}

/// What stands for slots does not matter to the walk of a body without slots.
pub fn bodies_read_no_slots()
    ensures { BodiesReadNoSlots }
{}
