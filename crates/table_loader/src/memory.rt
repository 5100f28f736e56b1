//! The rows of a store in memory, whose calls fail where a list says so.

ghost use Rattle.std.specs.Prelude.{◌≡◌, ◌↔◌, Some, IfOk, IsTrue};
ghost use Rattle.policy_values.specs.Value.{fields_of};
ghost use Rattle.table_loader.specs.Tables.{Tables};
ghost use Rattle.table_loader.specs.RowsState.{RowsContinue, IsCounted, has_failed, has_entity, attribute_at, tags_at, TablesHaveAncestor};
ghost use Rattle.table_loader.specs.Memory.{memory_state, IsCall};

use crate::lookups::{attribute_of, has_ancestor, has_entity, tags_of};
use crate::rows::{Rows, RowsError};
use entity_store::Entities;
use policy_values::{EntityUID, Text, Value};
use std::alloc::{AllocError, Global};

/// The rows of a store in memory, whose calls fail where a list says so.
#[derive(Drop)]
pub struct MemoryRows<'a> {
    /// The store.
    pub entities: &'a Entities,
    /// The numbers of the calls that are to fail, the first call being 0.
    pub failing: Vec<u64>,
    /// How many calls there were; at the last value of u64 it stays.
    pub calls: u64,
    /// How many calls have failed; at the last value of u64 it stays.
    pub faults: u64,
}

impl<'a> MemoryRows<'a> {
    /// The rows of the store. The calls with these numbers are to fail, the first call being 0.
    pub fn from_entities(
        alloc: Global,
        entities: &'a Entities,
        failing: &Vec<u64>,
    ) -> Result<MemoryRows<'a>, AllocError>
        ensures store { IfOk result (λ r. r.entities.now ≡ entities.now) }
        ensures failing { IfOk result (λ r. r.failing.items ≡ failing.now.items) }
        ensures counts { IfOk result (λ r. (r.calls ≡ 0) × (r.faults ≡ 0)) }
    {
        let failing = Vec::from_slice(alloc, failing.as_slice())?;
        Ok(MemoryRows {
            entities,
            failing,
            calls: 0,
            faults: 0,
        })
    }

    // Counts a call, and returns whether it is to fail.
    fn count_call(&mut self) -> bool
        ensures call { IsCall self.old self.new result }
        ensures goes_on { RowsContinue (memory_state self.old) (memory_state self.new) }
        ensures counted { IsCounted result (memory_state self.old) (memory_state self.new) }
    {
        let call = self.calls;
        self.calls = call.saturating_add(1);
        if self.failing.contains(&call) {
            self.faults = self.faults.saturating_add(1);
            return true;
        }
        false
    }
}

impl Rows for MemoryRows<'_> {
    ghost use Rattle.table_loader.specs.Memory.{memory_state};

    ghost state = { memory_state };

    fn entity(&mut self, uid: &EntityUID) -> Result<bool, RowsError>
        ensures call { IsCall self.old self.new (has_failed result) }
        ensures goes_on { RowsContinue (memory_state self.old) (memory_state self.new) }
        ensures counted { IsCounted (has_failed result) (memory_state self.old) (memory_state self.new) }
        ensures answer { (t : Tables) → (memory_state self.new).known ≡ Some t →
            IfOk result (λ b. b ≡ has_entity t uid.now) }
    {
        if self.count_call() {
            return Err(RowsError::Failed);
        }
        Ok(has_entity(self.entities, uid))
    }

    fn attribute(
        &mut self,
        alloc: Global,
        uid: &EntityUID,
        key: &Text,
    ) -> Result<Option<Value>, RowsError>
        ensures call { IsCall self.old self.new (has_failed result) }
        ensures goes_on { RowsContinue (memory_state self.old) (memory_state self.new) }
        ensures counted { IsCounted (has_failed result) (memory_state self.old) (memory_state self.new) }
        ensures answer { (t : Tables) → (memory_state self.new).known ≡ Some t →
            IfOk result (λ o. o ≡ attribute_at t uid.now key.now) }
    {
        if self.count_call() {
            return Err(RowsError::Failed);
        }
        match attribute_of(alloc, self.entities, uid, key) {
            Ok(value) => Ok(value),
            Err(_) => Err(RowsError::OutOfMemory),
        }
    }

    fn tags(&mut self, alloc: Global, uid: &EntityUID) -> Result<Vec<(Text, Value)>, RowsError>
        ensures call { IsCall self.old self.new (has_failed result) }
        ensures goes_on { RowsContinue (memory_state self.old) (memory_state self.new) }
        ensures counted { IsCounted (has_failed result) (memory_state self.old) (memory_state self.new) }
        ensures answer { (t : Tables) → (memory_state self.new).known ≡ Some t →
            IfOk result (λ ts. fields_of ts.items ≡ tags_at t uid.now) }
    {
        if self.count_call() {
            return Err(RowsError::Failed);
        }
        match tags_of(alloc, self.entities, uid) {
            Ok(tags) => Ok(tags),
            Err(_) => Err(RowsError::OutOfMemory),
        }
    }

    fn ancestor(&mut self, uid: &EntityUID, ancestor: &EntityUID) -> Result<bool, RowsError>
        ensures call { IsCall self.old self.new (has_failed result) }
        ensures goes_on { RowsContinue (memory_state self.old) (memory_state self.new) }
        ensures counted { IsCounted (has_failed result) (memory_state self.old) (memory_state self.new) }
        ensures answer { (t : Tables) → (memory_state self.new).known ≡ Some t →
            IfOk result (λ b. IsTrue b ↔ TablesHaveAncestor t uid.now ancestor.now) }
    {
        if self.count_call() {
            return Err(RowsError::Failed);
        }
        Ok(has_ancestor(self.entities, uid, ancestor))
    }
}
