//! The rows of a store in memory.

ghost use Rattle.std.specs.Prelude.{◌≡◌};

use crate::lookups::{attribute_of, has_ancestor, has_entity, tags_of};
use crate::rows::{Rows, RowsError};
use entity_store::Entities;
use policy_values::{EntityUID, Text, Value};
use std::alloc::Global;

/// The rows of a store in memory. A call fails only where memory runs out.
#[derive(Debug, Drop)]
pub struct StoreRows<'a> {
    /// The store.
    pub entities: &'a Entities,
}

impl<'a> StoreRows<'a> {
    /// The rows of the store.
    pub fn new(entities: &'a Entities) -> StoreRows<'a>
        ensures { result.entities.now ≡ entities.now }
    {
        StoreRows { entities }
    }
}

impl Rows for StoreRows<'_> {
    ghost use Rattle.table_loader.specs.Memory.{store_state};

    ghost state = { store_state };

    fn entity(&mut self, uid: &EntityUID) -> Result<bool, RowsError> {
        Ok(has_entity(self.entities, uid))
    }

    fn attribute(
        &mut self,
        alloc: Global,
        uid: &EntityUID,
        key: &Text,
    ) -> Result<Option<Value>, RowsError> {
        match attribute_of(alloc, self.entities, uid, key) {
            Ok(value) => Ok(value),
            Err(_) => Err(RowsError::OutOfMemory),
        }
    }

    fn tags(&mut self, alloc: Global, uid: &EntityUID) -> Result<Vec<(Text, Value)>, RowsError> {
        match tags_of(alloc, self.entities, uid) {
            Ok(tags) => Ok(tags),
            Err(_) => Err(RowsError::OutOfMemory),
        }
    }

    fn ancestor(&mut self, uid: &EntityUID, ancestor: &EntityUID) -> Result<bool, RowsError> {
        Ok(has_ancestor(self.entities, uid, ancestor))
    }
}
