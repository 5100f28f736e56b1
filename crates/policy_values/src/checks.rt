// What a hierarchy has to keep: the least key that breaks it, in the order of the keys.
ghost use Rattle.std.specs.Prelude.{◌≡◌, false, Contains, MatchBool, is_some};
ghost use Rattle.std.specs.Option.{option_copied};
ghost use Rattle.std.specs.BTreeMap.{get};
ghost use Rattle.policy_values.specs.Reaches.{Leads, IsUnlisted, IsOutside, IsNotClosed};
ghost use Rattle.policy_values.specs.Least.{IsLeastIfAny, lower_of};
ghost use Rattle.policy_values.specs.ClosureSteps.{IsClosedUnder, HasStepOut};

use crate::{Key, SharedSet, SharedSteps};
use std::collections::{BTreeMap, BTreeSet};

/// The least key that is led to and has no entry.
pub fn least_unlisted<K: Key>(steps: &SharedSteps<K>) -> Option<&K>
    ensures { IsLeastIfAny K.cmp (IsUnlisted K.cmp steps.now.entries) (option_copied result) }
{
    least_outside(steps, steps)
}

/// The least key that stands in a set of the map and has no entry in the steps.
pub fn least_outside<'a, A: Key, K: Key>(
    steps: &SharedSteps<K>,
    sets: &'a BTreeMap<A, SharedSet<K>>,
) -> Option<&'a K>
    ensures { IsLeastIfAny K.cmp (IsOutside A.cmp K.cmp steps.now.entries sets.now.entries)
        (option_copied result) }
{
    let mut least = None;
    for (_, set) in sets {
        least = lower(least, first_unlisted(steps, set.as_set()));
    }
    least
}

// The least key of the set that has no entry.
fn first_unlisted<'a, K: Key>(steps: &SharedSteps<K>, next: &'a BTreeSet<K>) -> Option<&'a K>
    ensures { IsLeastIfAny K.cmp (λ q. (is_some (get K.cmp steps.now q) ≡ false) × Contains next.now.keys q)
        (option_copied result) }
{
    for key in next {
        if !steps.contains_key(key) {
            return Some(key);
        }
    }
    None
}

/// The lower of the two that there are; of two that are equal, the first.
pub fn lower<'a, K: Key>(a: Option<&'a K>, b: Option<&'a K>) -> Option<&'a K>
    ensures { option_copied result ≡ lower_of K.cmp (option_copied a.entry) (option_copied b.entry) }
{
    match (a, b) {
        (Some(a), Some(b)) => Some(if b < a { b } else { a }),
        (None, b) => b,
        (a, None) => a,
    }
}

/// The least key that leads to itself.
pub fn first_own<K: Key>(steps: &SharedSteps<K>) -> Option<&K>
    ensures { IsLeastIfAny K.cmp (λ q. Leads K.cmp steps.now.entries q q) (option_copied result) }
{
    for (key, next) in steps {
        if next.as_set().contains(key) {
            return Some(key);
        }
    }
    None
}

/// The least key from which two steps lead where no step does.
pub fn first_not_closed<K: Key>(steps: &SharedSteps<K>) -> Option<&K>
    ensures { IsLeastIfAny K.cmp (IsNotClosed K.cmp steps.now.entries) (option_copied result) }
{
    for (key, next) in steps {
        if !is_closed(steps, next.as_set()) {
            return Some(key);
        }
    }
    None
}

// Whether the steps from keys of the set lead into it.
fn is_closed<K: Key>(steps: &SharedSteps<K>, next: &BTreeSet<K>) -> bool
    ensures { MatchBool result (IsClosedUnder K.cmp steps.now.entries next.now.keys)
        (HasStepOut K.cmp steps.now.entries next.now.keys) }
{
    for key in next {
        if let Some(far) = steps.get(key) {
            if !far.as_set().is_subset(next) {
                return false;
            }
        }
    }
    true
}
