// The keys in depth-first post-order.
use crate::{Key, SharedSteps, Steps};
use std::alloc::{AllocError, Global};
use std::collections::BTreeSet;

// What is to be done with a key: those that it leads to come before it.
#[derive(Drop)]
enum Turn<'a, K> {
    Enter(&'a K),
    Leave(&'a K),
}

/// What the keys lead to and they themselves, but for what is closed, in depth-first post-order: each after
/// those that it leads to, unless steps go in a circle. Who closes them in this order finds the most done
/// already; what is found does not depend on it.
pub fn post_order<K: Key>(
    alloc: Global,
    steps: &Steps<K>,
    closed: &SharedSteps<K>,
    keys: &BTreeSet<K>,
) -> Result<Vec<K>, AllocError> {
    let mut order = Vec::new(alloc);
    let mut entered = BTreeSet::new(alloc);
    let mut turns = Vec::new(alloc);
    push_open(closed, keys, &mut turns)?;
    for _ in 0..u64::MAX {
        match turns.pop() {
            Some(Turn::Enter(key)) => enter(steps, closed, key, &mut entered, &mut turns)?,
            Some(Turn::Leave(key)) => order.push(key.clone()?)?,
            None => break,
        }
    }
    Ok(order)
}

// Enters a key that was not entered before: it is left after those that it leads to.
fn enter<'a, K: Key>(
    steps: &'a Steps<K>,
    closed: &SharedSteps<K>,
    key: &'a K,
    entered: &mut BTreeSet<&'a K>,
    turns: &mut Vec<Turn<'a, K>>,
) -> Result<(), AllocError> {
    let Some(next) = steps.get(key) else {
        return Ok(());
    };
    if entered.insert(key)? {
        turns.push(Turn::Leave(key))?;
        push_open(closed, next, turns)?;
    }
    Ok(())
}

// Those of the keys that are not closed are to be entered.
fn push_open<'a, K: Key>(
    closed: &SharedSteps<K>,
    keys: &'a BTreeSet<K>,
    turns: &mut Vec<Turn<'a, K>>,
) -> Result<(), AllocError> {
    for key in keys {
        if !closed.contains_key(key) {
            turns.push(Turn::Enter(key))?;
        }
    }
    Ok(())
}
