//! The ids of an enumerated type.

ghost use Rattle.std.specs.Prelude.{◌≡◌, List, ℕ};
ghost use Rattle.std.specs.BTreeSet.{IsOrdered};
ghost use Rattle.policy_values.specs.Reaches.{has};
ghost use Rattle.policy_values.specs.Uid.{text_cmp};

use policy_values::Eid;
use std::collections::BTreeSet;
use std::marker::Model;

/// Ids, each once, in the order in which they are declared.
#[derive(Debug, Drop)]
pub struct ListedIds {
    declared: Vec<Eid>,
    ascending: BTreeSet<Eid>,
}

impl Model for ListedIds {
    ghost use Rattle.std.specs.Prelude.{◌≡◌, List, ℕ};

    ghost Value = { List (List ℕ) };

    ghost view = { λ l. l.declared.items };

    ghost use Rattle.std.specs.BTreeSet.{IsOrdered};
    ghost use Rattle.policy_values.specs.Reaches.{has};
    ghost use Rattle.policy_values.specs.Uid.{text_cmp};

    ghost invariant = { λ l. IsOrdered text_cmp l.ascending ×
        ((q : List ℕ) → has text_cmp l.ascending.keys q ≡ has text_cmp l.declared.items q) };
}

impl ListedIds {
    // The ids of a list, with the set of them.
    pub(crate) fn new(declared: Vec<Eid>, ascending: BTreeSet<Eid>) -> ListedIds
        requires ordered { IsOrdered text_cmp ascending }
        requires same { (q : List ℕ) → has text_cmp ascending.keys q ≡ has text_cmp declared.items q }
        ensures { result ≡ declared.items }
    {
        ListedIds {
            declared,
            ascending,
        }
    }

    /// The ids in the order in which they are declared.
    pub fn as_slice(&self) -> &[Eid]
        ensures { result.now ≡ self.now }
    {
        self.declared.as_slice()
    }

    /// Whether the id is among them.
    pub fn contains(&self, eid: &Eid) -> bool
        ensures { result ≡ has text_cmp self.now eid.now }
    {
        self.ascending.contains(eid)
    }
}
