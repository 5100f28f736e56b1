//! What holds of slices.

ghost use Rattle.manifest_computation.specs.Enough.{EqualSlicesDecideAlike, OutcomesAreAllowed, SlicesAreEnough};
ghost use Rattle.manifest_computation.specs.Writes.{OtherWritesLeaveTheSlice};

use link_spec::laws::typed_everywhere;
use policy_validate::laws::{accepted_are_sound, accepted_are_typed};
use reads_spec::policies_are_covered;

/// Slicing is sound: where every rule holds, each policy has on the slice, and on each store between it and
/// the whole one, the outcome that it has on the whole one: a truth value, a missing entity or an overflow.
/// So the response is the same. The store has to conform only where the policies reach it.
pub fn slices_are_enough()
    ensures { SlicesAreEnough }
{
    policies_are_covered();
    typed_everywhere();
    accepted_are_typed();
    accepted_are_sound();
}

/// There the outcome of each policy on the store is a truth value, a missing entity or an overflow.
pub fn outcomes_are_allowed()
    ensures { OutcomesAreAllowed }
{
    policies_are_covered();
    typed_everywhere();
    accepted_are_typed();
    accepted_are_sound();
}

/// Stores that keep every rule and have one slice for a request decide it alike: so a decision may be kept
/// with its slice.
pub fn equal_slices_decide_alike()
    ensures { EqualSlicesDecideAlike }
{
    slices_are_enough();
}

/// A write to entities on which no path stands that the policies read on a request leaves its slice as it was.
pub fn other_writes_leave_the_slice()
    ensures { OtherWritesLeaveTheSlice }
{}
