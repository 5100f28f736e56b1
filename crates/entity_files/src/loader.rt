//! What was looked up, as a loader.

ghost use Rattle.std.specs.Prelude.{◌≡◌};
ghost use Rattle.std.specs.List.{list_all};
ghost use Rattle.std.specs.BTreeSet.{contains};
ghost use Rattle.policy_values.specs.Uid.{uid_cmp};
ghost use Rattle.sqlite.specs.Held.{state};
ghost use Rattle.entity_store.specs.FromParents.{IsFromParents};
ghost use Rattle.entity_files.specs.Rows.{known_entities, known_store};
ghost use Rattle.entity_files.specs.Fetched.{AreFetched, AreKnown, AreKnown-prop, is_whole};

use crate::Fetched;
use entity_loader::{
    AncestorsRequest, EntityAnswer, EntityLoader, EntityRequest, EntitySlicer, LoadError,
};
use entity_store::{Entities, Entity};
use policy_values::EntityUID;
use sqlite::{Alter, Connection};
use std::alloc::{AllocError, Global};
use std::collections::BTreeSet;

/// A loader of what was looked up in a database, which answers just what is asked. A call that asks for an id
/// that was not looked up fails, is counted, and leaves the id among the missing ones. So does one that asks
/// for ancestors of an entity, where not all of these were looked up: it leaves those that the entity has by
/// the parents of what was found.
///
/// It says the store of the database's rows, where the database is open and its disk has returned what was
/// written.
#[derive(Drop)]
pub struct FetchedLoader<'a, S: Alter> {
    /// The database, which stays as it is while there is the loader.
    pub database: &'a Connection<S>,
    /// The ids that were looked up.
    pub seen: &'a BTreeSet<EntityUID>,
    /// The store of the entities that were found.
    pub entities: &'a Entities,
    /// The ids that were not looked up: those that were asked for, and ancestors of these.
    pub missing: Vec<EntityUID>,
    /// How often a call has failed; at the last value of u64 it stays.
    pub faults: u64,
    /// How often entities were asked for; at the last value of u64 it stays.
    pub rounds: u64,
    /// How often ancestors were asked for; at the last value of u64 it stays.
    pub lists: u64,
    pub ghost known: { AreKnown (known_store (state S.Store database.now)) seen.now entities.now } by { AreKnown-prop (known_store (state S.Store database.now)) seen.now entities.now },
}

impl<'a, S: Alter> FetchedLoader<'a, S> {
    /// The loader that has not been asked yet, over what was looked up and its store.
    pub fn new(
        alloc: Global,
        database: &'a Connection<S>,
        fetched: &'a Fetched,
        entities: &'a Entities,
    ) -> FetchedLoader<'a, S>
        requires fetched { AreFetched (known_entities (state S.Store database.now)) fetched.now }
        requires made { IsFromParents fetched.now.found.items entities.now }
        ensures database { result.database.now ≡ database.now }
        ensures faults { result.faults ≡ 0 }
    {
        FetchedLoader {
            database,
            seen: &fetched.seen,
            entities,
            missing: Vec::new(alloc),
            faults: 0,
            rounds: 0,
            lists: 0,
        }
    }
}

impl<S: Alter> FetchedLoader<'_, S> {
    /// The ids that were not looked up: those that were asked for, and ancestors of these.
    pub fn into_missing(self) -> Vec<EntityUID> {
        let FetchedLoader { missing, .. } = self;
        missing
    }
}

// Whether all the ids that are asked for were looked up.
fn are_seen(seen: &BTreeSet<EntityUID>, requests: &[EntityRequest<'_>]) -> bool
    ensures { result ≡ list_all (λ r. contains uid_cmp seen.now r.entity_id) requests.now }
{
    requests
        .iter()
        .all(|request| seen.contains(&request.entity_id))
}

// Whether all ancestors were looked up that the entity has in the store of what was found.
fn has_seen_above(seen: &BTreeSet<EntityUID>, entity: &Entity) -> bool
    ensures { result ≡ list_all (contains uid_cmp seen.now) entity.now.ancestors }
{
    for above in entity.ancestors() {
        if !seen.contains(above) {
            return false;
        }
    }
    true
}

// Whether the id was looked up, and all ancestors that its entity has.
fn is_whole(seen: &BTreeSet<EntityUID>, entities: &Entities, uid: &EntityUID) -> bool
    ensures { result ≡ is_whole seen.now entities.now uid.now }
{
    if !seen.contains(uid) {
        return false;
    }
    match entities.entity(uid) {
        Some(entity) => has_seen_above(seen, entity),
        None => true,
    }
}

// Whether the ancestors that are asked for are known.
fn are_known(seen: &BTreeSet<EntityUID>, entities: &Entities, requests: &[AncestorsRequest]) -> bool
    ensures { result ≡ list_all (λ r. is_whole seen.now entities.now r.entity_id) requests.now }
{
    requests
        .iter()
        .all(|request| is_whole(seen, entities, &request.entity_id))
}

// Adds an id that was not looked up to the missing ones.
fn note(
    seen: &BTreeSet<EntityUID>,
    missing: &mut Vec<EntityUID>,
    uid: &EntityUID,
) -> Result<(), AllocError> {
    if !seen.contains(uid) {
        missing.push(uid.try_clone()?)?;
    }
    Ok(())
}

fn note_entities(
    seen: &BTreeSet<EntityUID>,
    missing: &mut Vec<EntityUID>,
    requests: &Vec<EntityRequest<'_>>,
) -> Result<(), AllocError> {
    for request in requests {
        note(seen, missing, &request.entity_id)?;
    }
    Ok(())
}

// Adds those of the ids that were not looked up.
fn note_all(
    seen: &BTreeSet<EntityUID>,
    missing: &mut Vec<EntityUID>,
    ids: &BTreeSet<EntityUID>,
) -> Result<(), AllocError> {
    for uid in ids {
        note(seen, missing, uid)?;
    }
    Ok(())
}

fn note_ancestors(
    seen: &BTreeSet<EntityUID>,
    entities: &Entities,
    missing: &mut Vec<EntityUID>,
    requests: &Vec<AncestorsRequest>,
) -> Result<(), AllocError> {
    for request in requests {
        note(seen, missing, &request.entity_id)?;
        if let Some(entity) = entities.entity(&request.entity_id) {
            note_all(seen, missing, entity.ancestors())?;
        }
    }
    Ok(())
}

impl<S: Alter> EntityLoader for FetchedLoader<'_, S> {
    ghost use Rattle.entity_files.specs.Loader.{loader_state};

    ghost state = { λ l. loader_state (known_store (state S.Store l.database.now)) l.faults l.rounds l.lists };

    fn load_entities(
        &mut self,
        alloc: Global,
        requests: &Vec<EntityRequest<'_>>,
    ) -> Result<Vec<EntityAnswer>, LoadError> {
        self.rounds = self.rounds.saturating_add(1);
        if are_seen(self.seen, requests) {
            let mut slicer = EntitySlicer::new(self.entities);
            return slicer.load_entities(alloc, requests);
        }
        self.faults = self.faults.saturating_add(1);
        note_entities(self.seen, &mut self.missing, requests)?;
        Err(LoadError::Failed)
    }

    fn load_ancestors(
        &mut self,
        alloc: Global,
        requests: &Vec<AncestorsRequest>,
    ) -> Result<Vec<Vec<EntityUID>>, LoadError> {
        self.lists = self.lists.saturating_add(1);
        if are_known(self.seen, self.entities, requests) {
            let mut slicer = EntitySlicer::new(self.entities);
            return slicer.load_ancestors(alloc, requests);
        }
        self.faults = self.faults.saturating_add(1);
        note_ancestors(self.seen, self.entities, &mut self.missing, requests)?;
        Err(LoadError::Failed)
    }
}
