//! What is known of all expressions.

ghost use Rattle.std.specs.Prelude.{◌≡◌, ◌↔◌, ◌⊎◌, ◌++◌, ◌∷◌, [], IfOk, IsTrue};
ghost use Rattle.typing_spec.specs.Capability.{Capability as Known, IsKnown, has_cap, common, is_covered, is_nothing, same_known, together};

use crate::Capability;
use crate::known::{are_many, known_to_many};
use crate::part::{Part, SHORT};
use std::alloc::{AllocError, Global};
use std::marker::Model;

/// The capabilities that are known at a place of a condition. They are kept in parts that a union shares with
/// the sets that it was made of.
#[derive(Debug)]
pub struct CapabilitySet<'a> {
    parts: Vec<Part<'a>>,
}

impl Drop for CapabilitySet<'_> {
    fn drop(self) {
        let CapabilitySet { parts } = self;
        drop(parts);
    }
}

impl<'a> Model for CapabilitySet<'a> {
    ghost use Rattle.std.specs.Prelude.{List};
    ghost use Rattle.std.specs.Coded.{coded_list};
    ghost use Rattle.typing_spec.specs.Capability.{Capability, coded_capability, together};

    ghost Value = { List Capability };

    ghost coded = { coded_list coded_capability };

    ghost view = { λ a. together a.parts.items };
}

impl<'a> CapabilitySet<'a> {
    /// No capability.
    pub fn new(alloc: Global) -> CapabilitySet<'a>
        ensures { result ≡ [] }
    {
        CapabilitySet {
            parts: Vec::new(alloc),
        }
    }

    /// One capability alone.
    pub fn singleton(alloc: Global, e: Capability<'a>) -> Result<CapabilitySet<'a>, AllocError>
        ensures { IfOk result (λ s. s ≡ e.entry ∷ []) }
    {
        let mut items = Vec::new(alloc);
        items.push(e)?;
        let set = set_of(alloc, items)?;
        Ok(set)
    }

    /// Whether nothing is known.
    pub fn is_empty(&self) -> bool
        ensures { result ≡ is_nothing self.now }
    {
        hold_none(&self.parts)
    }

    /// Whether the capability is known, that is, whether an equal one is there.
    pub fn contains(&self, e: &Capability<'_>) -> bool
        ensures value { result ≡ has_cap self.now e.now }
        ensures known { IsTrue result ↔ IsKnown self.now e.now }
    {
        some_has(&self.parts, e)
    }

    /// The capabilities that either knows: these, and then the others.
    pub fn union(&self, other: &CapabilitySet<'a>) -> Result<CapabilitySet<'a>, AllocError>
        ensures list { IfOk result (λ s. s ≡ self.now ++ other.now) }
        ensures known { IfOk result
            (λ s. (k : Known) → IsKnown s k ↔ (IsKnown self.now k ⊎ IsKnown other.now k)) }
    {
        let mut parts = Vec::new(*self.parts.allocator());
        share_all(&mut parts, &self.parts)?;
        share_all(&mut parts, &other.parts)?;
        Ok(CapabilitySet { parts })
    }

    /// The capabilities that both know: those of these that the other knows too.
    pub fn intersect(&self, other: &CapabilitySet<'a>) -> Result<CapabilitySet<'a>, AllocError>
        ensures list { IfOk result (λ s. s ≡ common self.now other.now) }
        ensures known { IfOk result
            (λ s. (k : Known) → IsKnown s k ↔ (IsKnown self.now k × IsKnown other.now k)) }
    {
        let alloc = *self.parts.allocator();
        let items = known_to(alloc, &self.parts, other)?;
        let set = set_of(alloc, items)?;
        Ok(set)
    }

    /// An equal set, which shares the capabilities.
    pub fn try_clone(&self) -> Result<CapabilitySet<'a>, AllocError>
        ensures { IfOk result (λ s. s ≡ self.now) }
    {
        let mut parts = Vec::new(*self.parts.allocator());
        share_all(&mut parts, &self.parts)?;
        Ok(CapabilitySet { parts })
    }
}

impl<'a> PartialEq for CapabilitySet<'a> {
    ghost use Rattle.typing_spec.specs.Capability.{same_known};
    ghost use Rattle.typing_spec.specs.CapabilityLaws.{known_partial};

    ghost eq = { same_known };

    ghost laws = { known_partial };

    // Whether the two know the same.
    fn eq(&self, other: &CapabilitySet<'a>) -> bool {
        all_are_known(&self.parts, other) && all_are_known(&other.parts, self)
    }
}

impl<'a> Eq for CapabilitySet<'a> {
    ghost use Rattle.typing_spec.specs.CapabilityLaws.{known_equiv};

    ghost laws = { known_equiv };
}

#[tactic(auto, using(crate::proofs::PartSteps::together_push))]
fn set_of<'a>(alloc: Global, items: Vec<Capability<'a>>) -> Result<CapabilitySet<'a>, AllocError>
    ensures { IfOk result (λ s. s ≡ items.entry.items) }
{
    let part = Part::new(alloc, items)?;
    let mut parts = Vec::new(alloc);
    parts.push(part)?;
    Ok(CapabilitySet { parts })
}

#[tactic(auto, using(crate::proofs::PartSteps::none_more))]
fn hold_none(parts: &Vec<Part<'_>>) -> bool
    ensures { result ≡ is_nothing (together parts.now.items) }
{
    for part in parts {
        if !holds_none(part.items()) {
            return false;
        }
    }
    true
}

fn holds_none(items: &[Capability<'_>]) -> bool
    ensures { result ≡ is_nothing items.now }
{
    match items {
        [] => true,
        [_, ..] => false,
    }
}

#[tactic(auto, using(crate::proofs::PartSteps::has_more))]
fn some_has(parts: &Vec<Part<'_>>, e: &Capability<'_>) -> bool
    ensures { result ≡ has_cap (together parts.now.items) e.now }
{
    for part in parts {
        if part.contains(e) {
            return true;
        }
    }
    false
}

#[tactic(auto, using(crate::proofs::PartSteps::covered_more))]
fn all_are_known(parts: &Vec<Part<'_>>, other: &CapabilitySet<'_>) -> bool
    ensures { result ≡ is_covered (together parts.now.items) other.now }
{
    for part in parts {
        if !are_known(part.items(), other) {
            return false;
        }
    }
    true
}

fn are_known(items: &Vec<Capability<'_>>, other: &CapabilitySet<'_>) -> bool
    ensures { result ≡ is_covered items.now.items other.now }
{
    for k in items {
        if !other.contains(k) {
            return false;
        }
    }
    true
}

// The capabilities that the other set knows too.
fn known_to<'a>(
    alloc: Global,
    parts: &Vec<Part<'a>>,
    other: &CapabilitySet<'a>,
) -> Result<Vec<Capability<'a>>, AllocError>
    ensures { IfOk result (λ v. v.items ≡ common (together parts.now.items) other.now) }
{
    if are_many(parts) && are_many(&other.parts) {
        known_to_many(alloc, parts, &other.parts)
    } else {
        known_to_few(alloc, parts, other)
    }
}

#[tactic(auto, using(crate::proofs::PartSteps::common_more))]
fn known_to_few<'a>(
    alloc: Global,
    parts: &Vec<Part<'a>>,
    other: &CapabilitySet<'a>,
) -> Result<Vec<Capability<'a>>, AllocError>
    ensures { IfOk result (λ v. v.items ≡ common (together parts.now.items) other.now) }
{
    let mut items = Vec::new(alloc);
    for part in parts {
        push_known(&mut items, part.items(), other)?;
    }
    Ok(items)
}

fn push_known<'a>(
    items: &mut Vec<Capability<'a>>,
    others: &Vec<Capability<'a>>,
    known: &CapabilitySet<'a>,
) -> Result<(), AllocError>
    ensures { IfOk result (λ _. items.new.items ≡ items.old.items ++ common others.now.items known.now) }
{
    for k in others {
        if known.contains(k) {
            let k = k.try_clone(*items.allocator())?;
            items.push(k)?;
        }
    }
    Ok(())
}

#[tactic(auto, using(crate::proofs::PartSteps::together_more))]
fn share_all<'a>(parts: &mut Vec<Part<'a>>, others: &Vec<Part<'a>>) -> Result<(), AllocError>
    ensures { IfOk result
        (λ _. together parts.new.items ≡ together parts.old.items ++ together others.now.items) }
{
    for part in others {
        share(parts, part)?;
    }
    Ok(())
}

// Puts one more part behind the parts.
#[tactic(auto, using(crate::proofs::PartSteps::together_push))]
fn share<'a>(parts: &mut Vec<Part<'a>>, part: &Part<'a>) -> Result<(), AllocError>
    ensures { IfOk result (λ _. together parts.new.items ≡ together parts.old.items ++ part.now) }
{
    match parts.pop() {
        None => push_part(parts, part.try_clone()?),
        Some(last) => {
            if last.items().len() < SHORT && part.items().len() < SHORT {
                let both = joined(*parts.allocator(), &last, part)?;
                push_part(parts, both)
            } else {
                push_part(parts, last)?;
                push_part(parts, part.try_clone()?)
            }
        }
    }
}

#[tactic(auto, using(crate::proofs::PartSteps::together_push))]
fn push_part<'a>(parts: &mut Vec<Part<'a>>, part: Part<'a>) -> Result<(), AllocError>
    ensures { IfOk result (λ _. together parts.new.items ≡ together parts.old.items ++ part.entry) }
{
    parts.push(part)?;
    Ok(())
}

fn joined<'a>(alloc: Global, left: &Part<'a>, right: &Part<'a>) -> Result<Part<'a>, AllocError>
    ensures { IfOk result (λ p. p ≡ left.now ++ right.now) }
{
    let mut items = Vec::new(alloc);
    push_all(&mut items, left.items())?;
    push_all(&mut items, right.items())?;
    Part::new(alloc, items)
}

fn push_all<'a>(
    items: &mut Vec<Capability<'a>>,
    others: &Vec<Capability<'a>>,
) -> Result<(), AllocError>
    ensures { IfOk result (λ _. items.new.items ≡ items.old.items ++ others.now.items) }
{
    for k in others {
        let k = k.try_clone(*items.allocator())?;
        items.push(k)?;
    }
    Ok(())
}
