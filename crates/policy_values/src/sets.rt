//! What is asked of sets.

ghost use Rattle.std.specs.Prelude.{◌≡◌};
ghost use Rattle.policy_values.specs.Value.{vals_of};
ghost use Rattle.policy_values.specs.Sets.{elements_of, is_empty, has_all, has_some};

use crate::{Value, ValueKind};

impl Value {
    /// Whether the value is a set that has each element of another. What is no set has no elements.
    pub fn has_all_of(&self, other: &Value) -> bool
        ensures { result ≡ has_all (elements_of self.now) (elements_of other.now) }
    {
        match other.kind() {
            ValueKind::Set(items) => has_all(self, items),
            _ => true,
        }
    }

    /// Whether the value is a set that has some element of another. What is no set has no elements.
    pub fn has_some_of(&self, other: &Value) -> bool
        ensures { result ≡ has_some (elements_of self.now) (elements_of other.now) }
    {
        match other.kind() {
            ValueKind::Set(items) => has_some(self, items),
            _ => false,
        }
    }

    /// Whether the value has no elements: the empty set, or what is no set.
    pub fn has_no_element(&self) -> bool
        ensures { result ≡ is_empty (elements_of self.now) }
    {
        match self.kind() {
            ValueKind::Set(items) => is_empty(items),
            _ => true,
        }
    }
}

fn has_all(set: &Value, items: &Vec<Value>) -> bool
    ensures { result ≡ has_all (elements_of set.now) (vals_of items.now.items) }
{
    for item in items {
        if !set.has_element(item) {
            return false;
        }
    }
    true
}

fn has_some(set: &Value, items: &Vec<Value>) -> bool
    ensures { result ≡ has_some (elements_of set.now) (vals_of items.now.items) }
{
    for item in items {
        if set.has_element(item) {
            return true;
        }
    }
    false
}

#[tactic(auto, using(crate::proofs::SetSteps::is_empty_by_length))]
fn is_empty(items: &Vec<Value>) -> bool
    ensures { result ≡ is_empty (vals_of items.now.items) }
{
    items.is_empty()
}
