//! Stores made of entities in the order of their ids.

ghost use Rattle.std.specs.Prelude.{◌≡◌, [], ◌∷◌, ◌++◌, OnOk, OnErr};
ghost use Rattle.entity_store.specs.Ascending.{IsAbove};

use crate::{Entities, Entity};
use std::alloc::{AllocError, Global};
use std::collections::BTreeMap;

impl Entities {
    /// A store without entities.
    pub fn new(alloc: Global) -> Entities
        ensures { result ≡ [] }
    {
        Entities {
            entities: BTreeMap::new(alloc),
        }
    }

    /// Adds an entity behind the others, with its ancestors as they are. Where memory runs out, the store is
    /// unchanged.
    pub fn push(&mut self, entity: Entity) -> Result<(), AllocError>
        requires { IsAbove entity.uid self.old }
        ensures ok { OnOk result (self.new ≡ self.old ++ entity ∷ []) }
        ensures err { OnErr result (self.new ≡ self.old) }
    {
        let (uid, entity) = entity.under_id()?;
        self.entities.insert(uid, entity)?;
        Ok(())
    }
}
