//! Edits of policies: what only one of two sets has.

ghost use Rattle.std.specs.Prelude.{◌≡◌, ◌↔◌, IfOk, IsTrue, map};
ghost use Rattle.std.specs.Map.Iter.{deref};
ghost use Rattle.policy_set.specs.Data.{PolicyData};
ghost use Rattle.policy_compare.specs.Conditions.{IsShared};
ghost use Rattle.policy_compare.specs.Edits.{AreOwn, IsEdit};

use policy_set::{Effect, Policy, PolicySet};
use std::alloc::{AllocError, Global};

/// Two sets of policies, and of each the policies that the other does not have: of which no policy of the
/// other has the id, the effect and a condition of the same shape.
#[derive(Drop)]
pub struct Edit<'a> {
    /// The policies before.
    pub before: &'a PolicySet,
    /// The policies after.
    pub after: &'a PolicySet,
    /// What only those before have, in the order of the ids.
    pub removed: Vec<&'a Policy>,
    /// What only those after have.
    pub added: Vec<&'a Policy>,
}

/// The edit that leaves the second set in place of the first.
pub fn edit_between<'a>(
    alloc: Global,
    before: &'a PolicySet,
    after: &'a PolicySet,
) -> Result<Edit<'a>, AllocError>
    ensures before { IfOk result (λ e. e.before.now ≡ before.now) }
    ensures after { IfOk result (λ e. e.after.now ≡ after.now) }
    ensures edit { IfOk result IsEdit }
{
    let removed = own_policies(alloc, before, after)?;
    let added = own_policies(alloc, after, before)?;
    Ok(Edit {
        before,
        after,
        removed,
        added,
    })
}

// The policies of a set that another does not have.
fn own_policies<'a>(
    alloc: Global,
    policies: &'a PolicySet,
    others: &PolicySet,
) -> Result<Vec<&'a Policy>, AllocError>
    ensures { IfOk result (λ ps. AreOwn others.now policies.now.policies
        (map (deref {X = PolicyData}) ps.items)) }
{
    let mut own = Vec::new(alloc);
    for policy in policies.policies() {
        if is_shared(others, policy) {
            continue;
        }
        own.push(policy)?;
    }
    Ok(own)
}

// Whether a set has the policy, too.
fn is_shared(others: &PolicySet, policy: &Policy) -> bool
    ensures { IsTrue result ↔ IsShared others.now policy.now }
{
    match others.policy(policy.id()) {
        Some(other) => {
            is_same_effect(other.effect(), policy.effect())
                && policy.condition().same_shape(other.condition())
        }
        None => false,
    }
}

fn is_same_effect(a: Effect, b: Effect) -> bool
    ensures { IsTrue result ↔ (a ≡ b) }
{
    a == b
}
