//! What many capabilities have in common with many others: these are looked up by their hash.

ghost use Rattle.std.specs.Prelude.{◌≡◌, ◌++◌, ◌||◌, IfOk};
ghost use Rattle.std.specs.List.{filter};
ghost use Rattle.typing_spec.specs.Capability.{Capability as Known, common, has_cap, together};
ghost use Rattle.typing_spec.specs.Recovered.{lends};

use crate::Capability;
use crate::part::Part;
use indexmap::IndexSet;
use std::alloc::{AllocError, Global};

// To look through so few capabilities costs no more than to hash them.
const FEW: usize = 16;

/// Whether the capabilities are so many that it pays to look them up by their hash.
pub(crate) fn are_many(parts: &Vec<Part<'_>>) -> bool {
    let mut left = FEW;
    for part in parts {
        let count = part.items().len();
        if count > left {
            return true;
        }
        left -= count;
    }
    false
}

/// The capabilities that are among the others too.
pub(crate) fn known_to_many<'b, 'a>(
    alloc: Global,
    parts: &'b Vec<Part<'a>>,
    others: &'b Vec<Part<'a>>,
) -> Result<Vec<Capability<'a>>, AllocError>
    ensures { IfOk result
        (λ v. v.items ≡ common (together parts.now.items) (together others.now.items)) }
{
    let held = held_of(alloc, others)?;
    let items = all_held(alloc, parts, &held)?;
    Ok(items)
}

fn held_of<'b, 'a>(
    alloc: Global,
    parts: &'b Vec<Part<'a>>,
) -> Result<IndexSet<&'b Capability<'a>>, AllocError>
    ensures { IfOk result
        (λ held. (k : Known) → lends held.keys k ≡ has_cap (together parts.now.items) k) }
{
    let mut held = IndexSet::new(alloc);
    for part in parts {
        hold_all(&mut held, part.items())?;
    }
    Ok(held)
}

fn hold_all<'b, 'a>(
    held: &mut IndexSet<&'b Capability<'a>>,
    items: &'b [Capability<'a>],
) -> Result<(), AllocError>
    ensures { IfOk result (λ _. (k : Known) →
        lends held.new.keys k ≡ (lends held.old.keys k || has_cap items.now k)) }
{
    for k in items {
        held.insert(k)?;
    }
    Ok(())
}

// The capabilities that are held.
#[tactic(auto, using(crate::proofs::GivenSteps::given_more))]
fn all_held<'b, 'a>(
    alloc: Global,
    parts: &'b Vec<Part<'a>>,
    held: &IndexSet<&'b Capability<'a>>,
) -> Result<Vec<Capability<'a>>, AllocError>
    ensures { IfOk result (λ v. v.items ≡ filter (lends held.now.keys) (together parts.now.items)) }
{
    let mut items = Vec::new(alloc);
    for part in parts {
        push_held(&mut items, part.items(), held)?;
    }
    Ok(items)
}

fn push_held<'b, 'a>(
    items: &mut Vec<Capability<'a>>,
    others: &'b Vec<Capability<'a>>,
    held: &IndexSet<&'b Capability<'a>>,
) -> Result<(), AllocError>
    ensures { IfOk result
        (λ _. items.new.items ≡ items.old.items ++ filter (lends held.now.keys) others.now.items) }
{
    for k in others {
        if is_held(held, k) {
            let k = k.try_clone(*items.allocator())?;
            items.push(k)?;
        }
    }
    Ok(())
}

fn is_held<'b, 'a>(held: &IndexSet<&'b Capability<'a>>, k: &'b Capability<'a>) -> bool
    ensures { result ≡ lends held.now.keys k.now }
{
    held.contains(&k)
}
