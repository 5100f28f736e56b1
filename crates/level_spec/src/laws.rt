//! Laws of levels.

ghost use Rattle.level_spec.specs.Sound.{LevelsAreSound};
ghost use Rattle.level_spec.specs.Findings.{LevelFaultsAreExact};
ghost use Rattle.level_spec.specs.Least.{LeastLevelIsLeast};
ghost use Rattle.level_spec.specs.Policies.{LinkLevelsAreSound, StaticLevelsAreSound};
ghost use Rattle.level_spec.specs.Hops.{HopsReach};

use link_spec::laws::{
    filled_keeps, links_are_written_out, links_follow_templates, links_have_keys_once,
};

/// Where a typed condition passes at a level, it has, on the store cut at that level, the outcome that it has
/// on the whole one.
pub fn levels_are_sound()
    ensures { LevelsAreSound }
{}

/// Where a template passes at a level, each of its links has, on the store cut at that level, the outcome
/// that it has on the whole one.
pub fn link_levels_are_sound()
    ensures { LinkLevelsAreSound }
{
    levels_are_sound();
    links_follow_templates();
    links_are_written_out();
    links_have_keys_once();
    filled_keeps();
}

/// So does a policy without slots.
pub fn static_levels_are_sound()
    ensures { StaticLevelsAreSound }
{
    levels_are_sound();
}

/// Nothing is found exactly where an expression passes at a level; each finding says of a dereference.
pub fn level_faults_are_exact()
    ensures { LevelFaultsAreExact }
{}

/// An expression passes at its least level, and at none below.
pub fn least_level_is_least()
    ensures { LeastLevelIsLeast }
{}

/// Hops that look up only what is fresh reach all that is to be reached.
pub fn hops_reach()
    ensures { HopsReach }
{}
