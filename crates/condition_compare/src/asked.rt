//! What the atoms of propositions ask.

ghost use Rattle.std.specs.Prelude.{◌≡◌, ℕ, Bool, [], IfOk, IfSome, OnOk};
ghost use Rattle.std.specs.Bool.{OnTrue};
ghost use Rattle.condition_compare.specs.Worlds.{World, answer_in, Matches, KeepsAsked};

use crate::hashes::shape_mixed;
use policy_core::laws::shape_decides;
use policy_expressions::Expr;
use schema_types::Type;
use std::alloc::{AllocError, Global};
use std::collections::BTreeMap;

/// What is asked.
#[derive(Clone, Copy)]
pub enum Asked<'a> {
    /// Whether some policy that two sets share permits.
    SharedPermit,
    /// Whether some policy that they share forbids.
    SharedForbid,
    /// Whether a part of a condition has a value.
    HasValue(&'a Expr<Option<Type>>),
    /// Whether it is true.
    Holds(&'a Expr<Option<Type>>),
}

impl<'a> Asked<'a> {
    fn hash(self) -> u64 {
        match self {
            Asked::SharedPermit => 0,
            Asked::SharedForbid => 1,
            Asked::HasValue(e) => shape_mixed(2, e),
            Asked::Holds(e) => shape_mixed(3, e),
        }
    }

    // Whether the two ask the same, of parts of one shape.
    fn is_same(self, other: Asked<'_>) -> bool
        ensures { OnTrue result ((w : World) → answer_in w self.entry ≡ answer_in w other.entry) }
    {
        shape_decides::<Option<Type>, Option<Type>>();
        match (self, other) {
            (Asked::SharedPermit, Asked::SharedPermit) => true,
            (Asked::SharedForbid, Asked::SharedForbid) => true,
            (Asked::HasValue(x), Asked::HasValue(y)) => x.same_shape(y),
            (Asked::Holds(x), Asked::Holds(y)) => x.same_shape(y),
            _ => false,
        }
    }
}

/// The atoms, each with what it asks. What is asked again has its number again.
#[derive(Drop)]
pub(crate) struct Atoms<'a> {
    pub(crate) asked: Vec<Asked<'a>>,
    // The last atom of each hash.
    numbers: BTreeMap<u64, usize>,
}

impl<'a> Atoms<'a> {
    pub(crate) fn new(alloc: Global) -> Atoms<'a>
        ensures { result.asked.items ≡ [] }
    {
        Atoms {
            asked: Vec::new(alloc),
            numbers: BTreeMap::new(alloc),
        }
    }

    /// The number of the atom that asks this.
    #[tactic(auto, using(crate::proofs::Answering::asks_more, crate::proofs::Answering::last_asked, crate::proofs::Growing::asks_same))]
    pub(crate) fn number_of(&mut self, asked: Asked<'a>) -> Result<usize, AllocError>
        ensures kept { OnOk result (KeepsAsked self.old.asked.items self.new.asked.items) }
        ensures asks { IfOk result (λ n. (w : World) (v : ℕ → Bool) → Matches w self.new.asked.items v → v n ≡ answer_in w asked.entry) }
    {
        let hash = asked.hash();
        if let Some(number) = self.found(hash, asked) {
            return Ok(number);
        }
        let number = self.asked.len();
        self.asked.push(asked)?;
        self.numbers.insert(hash, number)?;
        Ok(number)
    }

    fn found(&self, hash: u64, asked: Asked<'a>) -> Option<usize>
        ensures { IfSome result (λ n. (w : World) (v : ℕ → Bool) → Matches w self.now.asked.items v → v n ≡ answer_in w asked.entry) }
    {
        let number = *self.numbers.get(&hash)?;
        if number < self.asked.len() && self.asked[number].is_same(asked) {
            Some(number)
        } else {
            None
        }
    }
}
