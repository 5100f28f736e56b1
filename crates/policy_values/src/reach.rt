// The search for all that is reached from a key.
ghost use Rattle.std.specs.Prelude.{◌≡◌, ◌↔◌, ◌+◌, ◌||◌, ◌&&◌, not, length, Contains, IfOk, OnOk};
ghost use Rattle.std.specs.BTreeSet.{IsOrdered, btree_set_len};
ghost use Rattle.policy_values.specs.Reaches.{Reaches, Leads, has, leads};
ghost use Rattle.policy_values.specs.ClosureSteps.{IsStart};

use crate::{Key, Steps};
use std::alloc::{AllocError, Global};
use std::collections::BTreeSet;

/// The keys that are reached from one by one or more steps. Those of the start are known to be so, and none
/// of them leads out of it: only the rest is visited.
pub fn reached_from<K: Key>(
    alloc: Global,
    steps: &Steps<K>,
    from: &K,
    start: BTreeSet<K>,
) -> Result<BTreeSet<K>, AllocError>
    requires { IsStart K.cmp steps.now.entries from.now start.keys }
    ensures reached { IfOk result (λ reached. (y : K) →
        Contains reached.keys y ↔ Reaches (Leads K.cmp steps.now.entries) from.now y) }
    ensures ordered { IfOk result (IsOrdered K.cmp) }
{
    let mut reached = start;
    let mut waiting = Vec::new(alloc);
    visit(steps, from, &mut reached, &mut waiting)?;
    while let Some(key) = waiting.pop() {
        visit(steps, &key, &mut reached, &mut waiting)?;
    }
    Ok(reached)
}

// Adds the keys to which one step leads. Those that are new wait for their turn.
fn visit<K: Key>(
    steps: &Steps<K>,
    key: &K,
    reached: &mut BTreeSet<K>,
    waiting: &mut Vec<K>,
) -> Result<(), AllocError>
    requires { IsOrdered K.cmp reached.old }
    ensures ordered { OnOk result (IsOrdered K.cmp reached.new) }
    ensures added { OnOk result ((q : K) → has K.cmp reached.new.keys q ≡
        (has K.cmp reached.old.keys q || leads K.cmp steps.now.entries key.now q)) }
    ensures waits { OnOk result ((q : K) → has K.cmp waiting.new.items q ≡ (has K.cmp waiting.old.items q ||
        (has K.cmp reached.new.keys q && not (has K.cmp reached.old.keys q)))) }
    ensures count { OnOk result (length waiting.new.items + btree_set_len reached.old ≡
        length waiting.old.items + btree_set_len reached.new) }
{
    let Some(next) = steps.get(key) else {
        return Ok(());
    };
    for found in next {
        if reached.insert(found.clone()?)? {
            waiting.push(found.clone()?)?;
        }
    }
    Ok(())
}
