//! Laws of tries in JSON.

ghost use Rattle.json_tries.specs.Laws.{PlacesLead};

/// The trie of the places of a tree leads where the tree does, and is marked where it is.
#[tactic(auto, using(crate::proofs::Leading::places_lead))]
pub fn places_lead()
    ensures { PlacesLead }
{}
