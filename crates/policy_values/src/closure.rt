// What is reached from each key, where keys with the same steps share one set.
ghost use Rattle.std.specs.Prelude.{◌≡◌, ◌↔◌, ◌⊎◌, List, [], Some, true, Contains, IfOk, IfSome, OnOk};
ghost use Rattle.std.specs.Option.{option_copied};
ghost use Rattle.std.specs.BTreeMap as tree;
ghost use Rattle.std.specs.BTreeSet.{IsOrdered};
ghost use Rattle.policy_values.specs.Reaches.{Reaches, Leads, IsClosure};
ghost use Rattle.policy_values.specs.ClosureSteps.{AreWhole, IsAdded, AreReached, IsAtOneOf, IsEmptyAt, IsPartlyClosed};

use crate::post_order::post_order;
use crate::reach::reached_from;
use crate::{Key, SharedSet};
use std::alloc::{AllocError, Global};
use std::collections::{BTreeMap, BTreeSet};

/// The keys to which one step leads, of each key that has such.
pub type Steps<K> = BTreeMap<K, BTreeSet<K>>;

/// The same, in sets that keys may share.
pub type SharedSteps<K> = BTreeMap<K, SharedSet<K>>;

/// The steps, with each key that is reached by one or more of them as one step. Keys with the same steps
/// share a set.
pub fn closure_of<K: Key>(alloc: Global, steps: &Steps<K>) -> Result<SharedSteps<K>, AllocError>
    ensures { IfOk result (λ closed. IsClosure K.cmp steps.now.entries closed.entries) }
{
    let mut closed = BTreeMap::new(alloc);
    let mut known = BTreeMap::new(alloc);
    for (key, next) in steps {
        if !closed.contains_key(key) {
            close_above(alloc, steps, &mut closed, &mut known, next)?;
            close(alloc, steps, &mut closed, &mut known, key, next)?;
        }
    }
    Ok(closed)
}

// Closes what the keys lead to and they themselves, so that a key that leads to them finds the most done.
fn close_above<K: Key>(
    alloc: Global,
    steps: &Steps<K>,
    closed: &mut SharedSteps<K>,
    known: &mut BTreeMap<BTreeSet<K>, SharedSet<K>>,
    keys: &BTreeSet<K>,
) -> Result<(), AllocError>
    requires closed { AreWhole K.cmp steps.now.entries closed.old.entries }
    requires known { AreReached K.cmp steps.now.entries known.old.entries }
    ensures closed { OnOk result ((left : List K) →
        IsPartlyClosed K.cmp steps.now.entries closed.old.entries left →
        IsPartlyClosed K.cmp steps.now.entries closed.new.entries left) }
    ensures whole { OnOk result (AreWhole K.cmp steps.now.entries closed.new.entries) }
    ensures known { OnOk result (AreReached K.cmp steps.now.entries known.new.entries) }
{
    for key in &post_order(alloc, steps, closed, keys)? {
        if let Some(next) = steps.get(key) {
            close(alloc, steps, closed, known, key, next)?;
        }
    }
    Ok(())
}

// Puts what is reached from the key at it.
fn close<K: Key>(
    alloc: Global,
    steps: &Steps<K>,
    closed: &mut SharedSteps<K>,
    known: &mut BTreeMap<BTreeSet<K>, SharedSet<K>>,
    key: &K,
    next: &BTreeSet<K>,
) -> Result<(), AllocError>
    requires closed { AreWhole K.cmp steps.now.entries closed.old.entries }
    requires known { AreReached K.cmp steps.now.entries known.old.entries }
    requires here { tree.get K.cmp steps.now key.now ≡ Some next.now }
    ensures closed { OnOk result (AreWhole K.cmp steps.now.entries closed.new.entries) }
    ensures added { OnOk result (IsAdded K.cmp key.now closed.old.entries closed.new.entries) }
    ensures known { OnOk result (AreReached K.cmp steps.now.entries known.new.entries) }
{
    let reached = reached_once(alloc, steps, closed, known, key, next)?;
    closed.insert(key.clone()?, reached)?;
    Ok(())
}

// What is reached from the key: it is known where a key with the same steps came before.
fn reached_once<K: Key>(
    alloc: Global,
    steps: &Steps<K>,
    closed: &SharedSteps<K>,
    known: &mut BTreeMap<BTreeSet<K>, SharedSet<K>>,
    key: &K,
    next: &BTreeSet<K>,
) -> Result<SharedSet<K>, AllocError>
    requires closed { AreWhole K.cmp steps.now.entries closed.now.entries }
    requires known { AreReached K.cmp steps.now.entries known.old.entries }
    requires here { tree.get K.cmp steps.now key.now ≡ Some next.now }
    ensures reached { IfOk result (λ reached. (y : K) →
        Contains reached.keys y ↔ Reaches (Leads K.cmp steps.now.entries) key.now y) }
    ensures ordered { IfOk result (IsOrdered K.cmp) }
    ensures known { OnOk result (AreReached K.cmp steps.now.entries known.new.entries) }
{
    if let Some(reached) = known.get(next) {
        return reached.try_clone();
    }
    let reached = SharedSet::new(alloc, reached_anew(alloc, steps, closed, key, next)?)?;
    known.insert(next.clone()?, reached.try_clone()?)?;
    Ok(reached)
}

// What is reached from the key: where those that it leads to lead no further, just these.
fn reached_anew<K: Key>(
    alloc: Global,
    steps: &Steps<K>,
    closed: &SharedSteps<K>,
    key: &K,
    next: &BTreeSet<K>,
) -> Result<BTreeSet<K>, AllocError>
    requires closed { AreWhole K.cmp steps.now.entries closed.now.entries }
    requires here { tree.get K.cmp steps.now key.now ≡ Some next.now }
    ensures reached { IfOk result (λ reached. (y : K) →
        Contains reached.keys y ↔ Reaches (Leads K.cmp steps.now.entries) key.now y) }
    ensures ordered { IfOk result (IsOrdered K.cmp) }
{
    if lead_nowhere(closed, next) {
        return Ok(next.clone()?);
    }
    let start = largest_copied(alloc, closed, next)?;
    reached_from(alloc, steps, key, start)
}

// Whether an empty set stands at each of the keys.
fn lead_nowhere<K: Key>(closed: &SharedSteps<K>, keys: &BTreeSet<K>) -> bool
    ensures empty { result ≡ true →
        (m : K) → Contains keys.now.keys m → IsEmptyAt K.cmp closed.now.entries m }
    ensures ordered { IsOrdered K.cmp keys.now }
{
    for key in keys {
        match closed.get(key) {
            Some(set) if set.as_set().is_empty() => {}
            _ => return false,
        }
    }
    true
}

// A copy of the largest set that stands at a key of the other; empty where none does.
fn largest_copied<K: Key>(
    alloc: Global,
    closed: &SharedSteps<K>,
    keys: &BTreeSet<K>,
) -> Result<BTreeSet<K>, AllocError>
    ensures { IfOk result (λ set. (set.keys ≡ []) ⊎ IsAtOneOf K.cmp closed.now.entries keys.now.keys set) }
{
    match largest_of(closed, keys) {
        Some(set) => packed(alloc, set.as_set()),
        None => Ok(BTreeSet::new(alloc)),
    }
}

// An equal set whose nodes are full: a copy would leave as much room in them as there is in those of the set.
fn packed<K: Key>(alloc: Global, set: &BTreeSet<K>) -> Result<BTreeSet<K>, AllocError>
    ensures { IfOk result (λ s. s.keys ≡ set.now.keys) }
{
    let keys = keys_of(alloc, set)?;
    keys.into_iter().collect(alloc)
}

fn keys_of<K: Key>(alloc: Global, set: &BTreeSet<K>) -> Result<Vec<K>, AllocError>
    ensures keys { IfOk result (λ v. v.items ≡ set.now.keys) }
    ensures ordered { IsOrdered K.cmp set.now }
{
    let mut keys = Vec::with_capacity(alloc, set.len())?;
    for key in set {
        keys.push(key.clone()?)?;
    }
    Ok(keys)
}

// The largest set that stands at a key of the other.
fn largest_of<'a, K: Key>(
    closed: &'a SharedSteps<K>,
    keys: &BTreeSet<K>,
) -> Option<&'a SharedSet<K>>
    ensures { IfSome (option_copied result) (IsAtOneOf K.cmp closed.now.entries keys.now.keys) }
{
    let mut largest = None;
    for key in keys {
        if let Some(set) = closed.get(key) {
            largest = larger(largest, set);
        }
    }
    largest
}

// The larger of two sets.
fn larger<'a, K: Key>(
    one: Option<&'a SharedSet<K>>,
    other: &'a SharedSet<K>,
) -> Option<&'a SharedSet<K>>
    ensures { (option_copied result ≡ option_copied one.entry) ⊎ (option_copied result ≡ Some other.now) }
{
    match one {
        Some(set) if other.as_set().len() < set.as_set().len() => one,
        _ => Some(other),
    }
}
