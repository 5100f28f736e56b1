//! A loader over a database, as docs/LIBRARY.md says of it.

use entity_loader::{AncestorsRequest, EntityAnswer, EntityLoader, EntityRequest, LoadError};
use entity_store::Entity;
use policy_values::{EntityUID, Text, Value};
use std::alloc::Global;
use std::collections::{BTreeMap, BTreeSet};

/// What is asked of a database. All answers for one load are of one transaction.
pub trait Database {
    /// Whether there is an entity of this id.
    fn has(&mut self, uid: &EntityUID) -> Result<bool, LoadError>;

    /// An attribute of the entity; none where it has not that one.
    fn attribute(
        &mut self,
        alloc: Global,
        uid: &EntityUID,
        key: &Text,
    ) -> Result<Option<Value>, LoadError>;

    /// All tags of the entity.
    fn tags(&mut self, alloc: Global, uid: &EntityUID) -> Result<BTreeMap<Text, Value>, LoadError>;

    /// Whether the second id is an ancestor of the entity, by any number of parents.
    fn is_member(&mut self, uid: &EntityUID, ancestor: &EntityUID) -> Result<bool, LoadError>;
}

/// A loader over a database. What that holds is not in the loader's value, so it says no store; and each
/// list of answers counts as one that may stray, so nothing has to be proved of what it answers.
#[derive(Debug, Drop)]
pub struct DatabaseLoader<D: Database + Drop> {
    /// The database.
    pub database: D,
    /// How often a call has failed.
    pub faults: u64,
    /// How often a list was asked for.
    pub strays: u64,
    /// How often entities were asked for.
    pub rounds: u64,
    /// How often ancestors were asked for.
    pub lists: u64,
}

impl<D: Database + Drop> EntityLoader for DatabaseLoader<D> {
    ghost use Rattle.std.specs.Prelude.{false, None};

    ghost state = { λ l. record {
      store = None;
      exact = false;
      faults = l.faults;
      strays = l.strays;
      rounds = l.rounds;
      lists = l.lists;
    } };

    fn load_entities(
        &mut self,
        alloc: Global,
        requests: &Vec<EntityRequest<'_>>,
    ) -> Result<Vec<EntityAnswer>, LoadError> {
        self.rounds = self.rounds.saturating_add(1);
        self.strays = self.strays.saturating_add(1);
        match answers(alloc, &mut self.database, requests) {
            Ok(found) => Ok(found),
            Err(LoadError::Failed) => {
                self.faults = self.faults.saturating_add(1);
                Err(LoadError::Failed)
            }
            Err(LoadError::OutOfMemory) => Err(LoadError::OutOfMemory),
        }
    }

    fn load_ancestors(
        &mut self,
        alloc: Global,
        requests: &Vec<AncestorsRequest>,
    ) -> Result<Vec<Vec<EntityUID>>, LoadError> {
        self.lists = self.lists.saturating_add(1);
        self.strays = self.strays.saturating_add(1);
        match lists(alloc, &mut self.database, requests) {
            Ok(found) => Ok(found),
            Err(LoadError::Failed) => {
                self.faults = self.faults.saturating_add(1);
                Err(LoadError::Failed)
            }
            Err(LoadError::OutOfMemory) => Err(LoadError::OutOfMemory),
        }
    }
}

fn answers<D: Database>(
    alloc: Global,
    database: &mut D,
    requests: &Vec<EntityRequest<'_>>,
) -> Result<Vec<EntityAnswer>, LoadError> {
    let mut found = Vec::new(alloc);
    for request in requests {
        found.push(answer(alloc, database, request)?)?;
    }
    Ok(found)
}

// The entity, where there is one, with all tags and with whole attributes: those with which a path of the
// trie begins.
fn answer<D: Database>(
    alloc: Global,
    database: &mut D,
    request: &EntityRequest<'_>,
) -> Result<EntityAnswer, LoadError> {
    let uid = &request.entity_id;
    if !database.has(uid)? {
        return Ok(None);
    }
    let mut attrs = BTreeMap::new(alloc);
    for (key, _below) in request.access_trie.children() {
        if let Some(value) = database.attribute(alloc, uid, key)? {
            attrs.insert(key.try_clone()?, value)?;
        }
    }
    let tags = database.tags(alloc, uid)?;
    Ok(Some(Entity::new(uid.try_clone()?, attrs, BTreeSet::new(alloc), tags)))
}

fn lists<D: Database>(
    alloc: Global,
    database: &mut D,
    requests: &Vec<AncestorsRequest>,
) -> Result<Vec<Vec<EntityUID>>, LoadError> {
    let mut found = Vec::new(alloc);
    for request in requests {
        found.push(ancestors(database, request, Vec::new(alloc))?)?;
    }
    Ok(found)
}

// Those of the ids that are ancestors of the entity.
fn ancestors<D: Database>(
    database: &mut D,
    request: &AncestorsRequest,
    mut found: Vec<EntityUID>,
) -> Result<Vec<EntityUID>, LoadError> {
    for id in &request.ancestors {
        if database.is_member(&request.entity_id, id)? {
            found.push(id.try_clone()?)?;
        }
    }
    Ok(found)
}
