// Steps the other way.
ghost use Rattle.std.specs.Prelude.{◌≡◌, ◌||◌, ◌&&◌, is_some, IfOk, OnOk, OnErr};
ghost use Rattle.std.specs.Ordering.{is_eq};
ghost use Rattle.std.specs.BTreeMap.{get};
ghost use Rattle.policy_values.specs.Reaches.{leads, IsReversed, AreDescendants};

use crate::{Key, SharedSteps, Steps, closure_of};
use std::alloc::{AllocError, Global};
use std::collections::{BTreeMap, BTreeSet};

// The steps the other way, with each key that the steps have.
fn reversed<K: Key>(alloc: Global, steps: &SharedSteps<K>) -> Result<Steps<K>, AllocError>
    ensures { IfOk result (λ back. IsReversed K.cmp steps.now.entries back.entries) }
{
    let mut back = BTreeMap::new(alloc);
    for (key, next) in steps {
        put(alloc, &mut back, key)?;
        for other in next.as_set() {
            add_step(alloc, &mut back, other, key)?;
        }
    }
    Ok(back)
}

/// With each key that the steps have, the keys from which it is reached.
pub fn descendants_of<K: Key>(
    alloc: Global,
    steps: &SharedSteps<K>,
) -> Result<SharedSteps<K>, AllocError>
    ensures { IfOk result (λ below. AreDescendants K.cmp steps.now.entries below.entries) }
{
    let back = reversed(alloc, steps)?;
    closure_of(alloc, &back)
}

// Sees that the steps have the key.
fn put<K: Key>(alloc: Global, steps: &mut Steps<K>, key: &K) -> Result<(), AllocError>
    ensures keys { OnOk result ((q : K) → is_some (get K.cmp steps.new q) ≡
        (is_eq (K.cmp key.now q) || is_some (get K.cmp steps.old q))) }
    ensures leads { OnOk result
        ((x y : K) → leads K.cmp steps.new.entries x y ≡ leads K.cmp steps.old.entries x y) }
{
    if !steps.contains_key(key) {
        steps.insert(key.clone()?, BTreeSet::new(alloc))?;
    }
    Ok(())
}

/// Adds one step. Where memory runs out, the steps stay.
pub fn add_step<K: Key>(
    alloc: Global,
    steps: &mut Steps<K>,
    from: &K,
    to: &K,
) -> Result<(), AllocError>
    ensures keys { OnOk result ((q : K) → is_some (get K.cmp steps.new q) ≡
        (is_eq (K.cmp from.now q) || is_some (get K.cmp steps.old q))) }
    ensures leads { OnOk result ((x y : K) → leads K.cmp steps.new.entries x y ≡
        (leads K.cmp steps.old.entries x y || (is_eq (K.cmp from.now x) && is_eq (K.cmp to.now y)))) }
    ensures refused { OnErr result ((q : K) → get K.cmp steps.new q ≡ get K.cmp steps.old q) }
{
    if let Some(next) = steps.get_mut(from) {
        next.insert(to.clone()?)?;
        return Ok(());
    }
    let mut next = BTreeSet::new(alloc);
    next.insert(to.clone()?)?;
    steps.insert(from.clone()?, next)?;
    Ok(())
}
