//! Levels: how far from the request an entity is whose data a policy reads.

ghost use Rattle.std.specs.Prelude.{◌≡◌, Some};
ghost use Rattle.std.specs.Fmt.{decimal};

use policy_expressions::Loc;
use policy_values::Text;
use std::fmt;

/// How many dereferences of entities lead from the request to an entity.
#[derive(Clone, Copy, Debug, Default, PartialEq, Eq, PartialOrd, Ord, Hash)]
pub struct EntityDerefLevel {
    /// Their number.
    pub level: u32,
}

impl From<u32> for EntityDerefLevel {
    ghost use Rattle.std.specs.Prelude.{◌≡◌};

    ghost from_gives = { λ level e. e.level ≡ level };

    fn from(level: u32) -> EntityDerefLevel {
        EntityDerefLevel { level }
    }
}

impl fmt::Display for EntityDerefLevel {
    ghost output = { λ e. Some (decimal e.level) };

    fn fmt<W: fmt::Write>(&self, f: &mut fmt::Formatter<W>) -> fmt::Result {
        self.level.fmt(f)
    }
}

/// A dereference is not allowed at the level that the policies are checked for.
#[derive(Debug, Drop, PartialEq, Eq, Hash)]
pub struct EntityDerefLevelViolation {
    /// Where the dereference stands.
    pub source_loc: Option<Loc>,
    /// The id of the policy.
    pub policy_id: Text,
    /// Why it is not allowed.
    pub violation_kind: EntityDerefViolationKind,
}

/// Why a dereference is not allowed.
#[derive(Clone, Copy, Debug, PartialEq, Eq, Hash)]
pub enum EntityDerefViolationKind {
    /// Its level is too high.
    MaximumLevelExceeded {
        /// The highest level that is allowed.
        allowed_level: EntityDerefLevel,
        /// The level that the policy needs.
        actual_level: EntityDerefLevel,
    },
    /// Its target is a literal, which no level reaches.
    LiteralDerefTarget,
}
