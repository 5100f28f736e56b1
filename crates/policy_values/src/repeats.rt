// Keys that stand twice in a list.
ghost use Rattle.std.specs.Prelude.{◌↔◌, IfOk, IsSome};
ghost use Rattle.std.specs.Ordering.{nat_cmp};
ghost use Rattle.policy_values.specs.Least.{IsLeastIfAny};
ghost use Rattle.policy_values.specs.Repeated.{IsRepeated, StandsEarlier};

use crate::Key;
use crate::checks::lower;
use std::alloc::{AllocError, Global};
use std::collections::BTreeSet;

/// The least key that stands at two places of the list; none exactly where all keys differ.
pub fn least_repeated<K: Key>(alloc: Global, keys: &[K]) -> Result<Option<K>, AllocError>
    ensures { IfOk result (IsLeastIfAny K.cmp (IsRepeated keys.now)) }
{
    let mut seen = BTreeSet::new(alloc);
    let mut least = None;
    for key in keys {
        if !seen.insert(key)? {
            least = lower(least, Some(key));
        }
    }
    match least {
        Some(key) => Ok(Some(key.clone()?)),
        None => Ok(None),
    }
}

/// The first place of the list whose key stands at an earlier place too; none exactly where all keys differ.
pub fn first_repeated<K: Key>(alloc: Global, keys: &[K]) -> Result<Option<usize>, AllocError>
    ensures place { IfOk result (IsLeastIfAny nat_cmp (StandsEarlier keys.now)) }
    ensures repeated { IfOk result (λ found. IsSome found ↔ ((k : K) × IsRepeated keys.now k)) }
{
    let mut seen = BTreeSet::new(alloc);
    for (i, key) in keys.iter().enumerate() {
        if !seen.insert(key)? {
            return Ok(Some(i));
        }
    }
    Ok(None)
}
