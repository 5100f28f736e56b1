//! What is asked of rows.

ghost use Rattle.std.specs.Prelude.{◌≡◌, ◌↔◌, Some, IfOk, IsTrue};
ghost use Rattle.policy_values.specs.Value.{fields_of};
ghost use Rattle.table_loader.specs.Tables.{Tables};
ghost use Rattle.table_loader.specs.RowsState.{RowsState, RowsContinue, IsCounted, has_failed, has_entity, attribute_at, tags_at, TablesHaveAncestor};

use policy_values::{EntityUID, Text, Value};
use std::alloc::Global;

/// Why a row is not read.
#[derive(Clone, Copy, Debug, PartialEq, Eq)]
pub enum RowsError {
    /// The tables could not be read.
    Failed,
    /// There is no memory left.
    OutOfMemory,
}

/// Tables of entities: a row for each entity, for each of its attributes and tags, and for each of its
/// ancestors.
///
/// Where rows say their tables after a call, they known the same ones before it, and the answer is
/// what the store of these tables has. Steady rows say after a call what they known before it. A call
/// that fails is counted; of steady rows no other call is.
pub trait Rows {
    // The tables, where they are known, and a count of faults.
    ghost state: { Self → RowsState };

    /// Whether there is a row for the entity.
    fn entity(&mut self, uid: &EntityUID) -> Result<bool, RowsError>
        ensures goes_on { RowsContinue (state self.old) (state self.new) }
        ensures counted { IsCounted (has_failed result) (state self.old) (state self.new) }
        ensures answer { (t : Tables) → (state self.new).known ≡ Some t →
            IfOk result (λ b. b ≡ has_entity t uid.now) };

    /// The attribute of the entity under the key, where there is a row for it.
    fn attribute(
        &mut self,
        alloc: Global,
        uid: &EntityUID,
        key: &Text,
    ) -> Result<Option<Value>, RowsError>
        ensures goes_on { RowsContinue (state self.old) (state self.new) }
        ensures counted { IsCounted (has_failed result) (state self.old) (state self.new) }
        ensures answer { (t : Tables) → (state self.new).known ≡ Some t →
            IfOk result (λ o. o ≡ attribute_at t uid.now key.now) };

    /// All tags of the entity, ascending by key.
    fn tags(&mut self, alloc: Global, uid: &EntityUID) -> Result<Vec<(Text, Value)>, RowsError>
        ensures goes_on { RowsContinue (state self.old) (state self.new) }
        ensures counted { IsCounted (has_failed result) (state self.old) (state self.new) }
        ensures answer { (t : Tables) → (state self.new).known ≡ Some t →
            IfOk result (λ ts. fields_of ts.items ≡ tags_at t uid.now) };

    /// Whether there is a row for the ancestor of the entity.
    fn ancestor(&mut self, uid: &EntityUID, ancestor: &EntityUID) -> Result<bool, RowsError>
        ensures goes_on { RowsContinue (state self.old) (state self.new) }
        ensures counted { IsCounted (has_failed result) (state self.old) (state self.new) }
        ensures answer { (t : Tables) → (state self.new).known ≡ Some t →
            IfOk result (λ b. IsTrue b ↔ TablesHaveAncestor t uid.now ancestor.now) };
}
