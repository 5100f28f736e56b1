// Sets of keys.
ghost use Rattle.std.specs.Prelude.{◌≡◌, ◌||◌, IfOk, OnOk};
ghost use Rattle.std.specs.BTreeSet.{IsOrdered};
ghost use Rattle.policy_values.specs.Reaches.{has};
ghost use Rattle.schema_core.specs.Kinds.{firsts};

use crate::ListedIds;
use policy_values::{Eid, Key};
use std::alloc::{AllocError, Global};
use std::collections::BTreeSet;

/// The keys of a list.
pub fn set_of<K: Key>(alloc: Global, keys: Vec<K>) -> Result<BTreeSet<K>, AllocError>
    ensures has { IfOk result (λ set. (q : K) → has K.cmp set.keys q ≡ has K.cmp keys.items q) }
    ensures ordered { IfOk result (IsOrdered K.cmp) }
{
    let mut set = BTreeSet::new(alloc);
    for key in keys {
        set.insert(key)?;
    }
    Ok(set)
}

/// Adds the keys of another set.
pub fn add_all<K: Key>(set: &mut BTreeSet<K>, keys: &BTreeSet<K>) -> Result<(), AllocError>
    requires { IsOrdered K.cmp set.old }
    ensures has { OnOk result ((q : K) →
        has K.cmp set.new.keys q ≡ (has K.cmp set.old.keys q || has K.cmp keys.now.keys q)) }
    ensures ordered { OnOk result (IsOrdered K.cmp set.new) }
{
    for key in keys {
        set.insert(key.clone()?)?;
    }
    Ok(())
}

/// The ids of a list, each at its first place alone.
pub fn firsts_of(alloc: Global, eids: Vec<Eid>) -> Result<ListedIds, AllocError>
    ensures { IfOk result (λ kept. kept ≡ firsts eids.items) }
{
    let mut seen = BTreeSet::new(alloc);
    let mut kept = Vec::new(alloc);
    for eid in eids {
        if seen.insert(eid.try_clone()?)? {
            kept.push(eid)?;
        }
    }
    Ok(ListedIds::new(kept, seen))
}
