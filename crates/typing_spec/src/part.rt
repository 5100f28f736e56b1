//! Capabilities that several sets share.

ghost use Rattle.std.specs.Prelude.{◌≡◌, IfOk, IfSome, true};
ghost use Rattle.typing_spec.specs.Capability.{has_cap};
ghost use Rattle.typing_spec.specs.Places.{HasPrints};

use crate::Capability;
use crate::capability::are_alike;
use std::alloc::{AllocError, Global};
use std::collections::BTreeMap;
use std::marker::Model;
use std::rc::Rc;

/// Capabilities, one after another. A copy shares them.
#[derive(Debug, Drop)]
pub struct Part<'a> {
    items: Rc<Vec<Capability<'a>>>,
    // Where a capability with a print stands, of many capabilities.
    places: Option<Rc<BTreeMap<u64, usize>>>,
}

impl<'a> Model for Part<'a> {
    ghost use Rattle.std.specs.Prelude.{List, IfSome};
    ghost use Rattle.std.specs.Coded.{coded_list};
    ghost use Rattle.typing_spec.specs.Capability.{Capability, coded_capability};
    ghost use Rattle.typing_spec.specs.Places.{HasPrints};

    ghost Value = { List Capability };

    ghost coded = { coded_list coded_capability };

    ghost view = { λ p. p.items.value.items };

    ghost invariant = { λ p. IfSome p.places (λ m. HasPrints m.value p.items.value.items) };
}

/// Parts that are shorter are joined rather than shared, so that of many of them few longer ones are made; and
/// to look through one costs no more than to look up a print.
pub(crate) const SHORT: usize = 128;

impl<'a> Part<'a> {
    /// The capabilities, to be shared.
    pub fn new(alloc: Global, items: Vec<Capability<'a>>) -> Result<Part<'a>, AllocError>
        ensures { IfOk result (λ p. p ≡ items.entry.items) }
    {
        let places = shared_places(alloc, &items)?;
        let items = Rc::new(alloc, items)?;
        Ok(Part { items, places })
    }

    /// The capabilities, borrowed.
    pub fn items(&self) -> &Vec<Capability<'a>>
        ensures { result.now.items ≡ self.now }
    {
        self.items.as_ref()
    }

    /// Whether an equal capability is there.
    pub fn contains(&self, e: &Capability<'_>) -> bool
        ensures { result ≡ has_cap self.now e.now }
    {
        match &self.places {
            None => has_equal(self.items(), e),
            Some(places) => has_at_print(places.as_ref(), self.items(), e),
        }
    }

    /// An equal part, which shares the capabilities.
    pub fn try_clone(&self) -> Result<Part<'a>, AllocError>
        ensures { IfOk result (λ p. p ≡ self.now) }
    {
        let items = self.items.clone()?;
        let places = match &self.places {
            None => None,
            Some(places) => Some(places.clone()?),
        };
        Ok(Part { items, places })
    }
}

fn shared_places(
    alloc: Global,
    items: &Vec<Capability<'_>>,
) -> Result<Option<Rc<BTreeMap<u64, usize>>>, AllocError>
    ensures { IfOk result (λ o. IfSome o (λ m. HasPrints m.value items.now.items)) }
{
    if items.len() < SHORT {
        return Ok(None);
    }
    let places = places_of(alloc, items)?;
    Ok(Some(Rc::new(alloc, places)?))
}

// For each print where a capability with it stands.
fn places_of(alloc: Global, items: &Vec<Capability<'_>>) -> Result<BTreeMap<u64, usize>, AllocError>
    ensures { IfOk result (λ m. HasPrints m items.now.items) }
{
    let mut places = BTreeMap::new(alloc);
    for place in 0..items.len() {
        places.insert(items[place].print(), place)?;
    }
    Ok(places)
}

fn has_equal(items: &Vec<Capability<'_>>, e: &Capability<'_>) -> bool
    ensures { result ≡ has_cap items.now.items e.now }
{
    for k in items {
        if are_alike(e, k) {
            return true;
        }
    }
    false
}

// The same, where a capability is looked up by its print first.
#[tactic(auto, using(crate::proofs::PlaceSteps::not_there))]
fn has_at_print(
    places: &BTreeMap<u64, usize>,
    items: &Vec<Capability<'_>>,
    e: &Capability<'_>,
) -> bool
    requires { HasPrints places.now items.now.items }
    ensures { result ≡ has_cap items.now.items e.now }
{
    match places.get(&e.print()) {
        None => false,
        Some(place) => stands_at(items, *place, e) || has_equal(items, e),
    }
}

#[tactic(auto, using(crate::proofs::PlaceSteps::stands))]
fn stands_at(items: &Vec<Capability<'_>>, place: usize, e: &Capability<'_>) -> bool
    ensures { result ≡ true → has_cap items.now.items e.now ≡ true }
{
    match items.get(place) {
        Some(k) => are_alike(e, k),
        None => false,
    }
}
