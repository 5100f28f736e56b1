//! Coverage of typed conditions, and of policies.

ghost use Rattle.std.specs.Prelude.{Option};
ghost use Rattle.schema_types.specs.Ty.{Ty};
ghost use Rattle.policy_expressions.specs.Tree.{Mark};
ghost use Rattle.reads_spec.specs.Conditions.{ConditionsAreCovered};
ghost use Rattle.reads_spec.specs.Policies.{PoliciesAreCovered};
ghost use Rattle.reads_spec.specs.Reached.{ReachedPartsConform, StoresConformWhereReached};
ghost use Rattle.reads_spec.specs.Writes.{OtherWritesAreUnread};

use typing_spec::laws::typing_is_sound;

/// Coverage: where the request conforms to a schema, and each entity that typed conditions reach, the store
/// restricted to what they read is enough. On it, and on each store between it and the whole one, every
/// condition has the outcome that it has on the whole one.
pub fn conditions_are_covered()
    ensures { ConditionsAreCovered }
{
    typing_is_sound();
}

/// The same of policies.
pub fn policies_are_covered()
    ensures { PoliciesAreCovered }
{
    typing_is_sound();
}

/// Where the entities that are reached conform, a store that conforms lies between what is read and the whole
/// store.
pub fn reached_parts_conform()
    ensures { ReachedPartsConform (Mark (Option Ty)) }
{}

/// In a store that conforms the entities that are reached conform.
pub fn stores_conform_where_reached()
    ensures { StoresConformWhereReached (Mark (Option Ty)) }
{}

/// A write to entities on which no path stands changes nothing of what is read.
pub fn other_writes_are_unread()
    ensures { OtherWritesAreUnread (Mark (Option Ty)) }
{}
