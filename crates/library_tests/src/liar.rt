//! A loader that goes wrong.

use entity_loader::{AncestorsRequest, EntityAnswer, EntityLoader, EntityRequest, LoadError};
use entity_store::{Entities, Entity};
use policy_values::{EntityUID, try_clone_fields};
use std::alloc::{AllocError, Global};

/// How a loader answers.
#[derive(Clone, Copy, PartialEq)]
pub(crate) enum Way {
    /// With whole entities, and no lists of ancestors that say anything.
    Whole,
    /// So, and with lists of all ancestors, whichever are asked for.
    AllListed,
    /// So, but that the last answer is left out.
    OneFewer,
    /// So, and with an answer more.
    OneMore,
    /// So, but with no list of ancestors at all.
    NoLists,
    /// So, and with a list of ancestors more.
    OneListMore,
    /// So, but that the call for ancestors fails.
    FailsForAncestors,
    /// With the last entity of the store in place of each user.
    LastUser,
    /// With whole entities; in the round of this number, counted from 1, with the attributes of the store's
    /// last entity.
    LastAttrs(u64),
    /// With whole entities, but that the call of this number, counted from 1, fails.
    FailsAt(u64),
}

/// A loader that says no store. It counts each list of answers as one that may stray.
#[derive(Drop)]
pub(crate) struct Liar<'a> {
    /// From where the answers are.
    pub(crate) entities: &'a Entities,
    /// How it answers.
    pub(crate) way: Way,
    /// How often a call has failed.
    pub(crate) faults: u64,
    /// How often it has answered.
    pub(crate) strays: u64,
    /// How often entities were asked for.
    pub(crate) rounds: u64,
    /// How often ancestors were asked for.
    pub(crate) lists: u64,
}

impl<'a> Liar<'a> {
    /// The loader that has not been asked yet.
    pub(crate) fn new(entities: &'a Entities, way: Way) -> Liar<'a> {
        Liar {
            entities,
            way,
            faults: 0,
            strays: 0,
            rounds: 0,
            lists: 0,
        }
    }
}

impl EntityLoader for Liar<'_> {
    ghost use Rattle.std.specs.Prelude.{false, None};

    // It says no store, and what it has counted.
    ghost state = { λ l. record {
      store = None;
      exact = false;
      faults = l.faults;
      strays = l.strays;
      rounds = l.rounds;
      lists = l.lists;
    } };

    fn load_entities(
        &mut self,
        alloc: Global,
        requests: &Vec<EntityRequest<'_>>,
    ) -> Result<Vec<EntityAnswer>, LoadError> {
        self.rounds = self.rounds.saturating_add(1);
        if self.way == Way::FailsAt(self.rounds) {
            self.faults = self.faults.saturating_add(1);
            return Err(LoadError::Failed);
        }
        self.strays = self.strays.saturating_add(1);
        match answers(alloc, self.entities, self.way, self.rounds, requests) {
            Ok(found) => Ok(found),
            Err(_) => Err(LoadError::OutOfMemory),
        }
    }

    fn load_ancestors(
        &mut self,
        alloc: Global,
        requests: &Vec<AncestorsRequest>,
    ) -> Result<Vec<Vec<EntityUID>>, LoadError> {
        self.lists = self.lists.saturating_add(1);
        if self.way == Way::FailsForAncestors {
            self.faults = self.faults.saturating_add(1);
            return Err(LoadError::Failed);
        }
        self.strays = self.strays.saturating_add(1);
        match lists(alloc, self.entities, self.way, requests) {
            Ok(found) => Ok(found),
            Err(_) => Err(LoadError::OutOfMemory),
        }
    }
}

fn answers(
    alloc: Global,
    entities: &Entities,
    way: Way,
    round: u64,
    requests: &Vec<EntityRequest<'_>>,
) -> Result<Vec<EntityAnswer>, AllocError> {
    let mut found = Vec::new(alloc);
    for request in requests {
        found.push(answer(alloc, entities, way, round, &request.entity_id)?)?;
    }
    if way == Way::OneFewer {
        let _ = found.pop();
    }
    if way == Way::OneMore {
        found.push(None)?;
    }
    Ok(found)
}

fn answer(
    alloc: Global,
    entities: &Entities,
    way: Way,
    round: u64,
    uid: &EntityUID,
) -> Result<EntityAnswer, AllocError> {
    if way == Way::LastUser && uid.entity_type.as_str() == "User" {
        return match entities.iter().last() {
            Some(entity) => Ok(Some(under(alloc, entity.uid(), entity)?)),
            None => Ok(None),
        };
    }
    let found = if way == Way::LastAttrs(round) {
        entities.iter().last()
    } else {
        entities.entity(uid)
    };
    match found {
        Some(entity) => Ok(Some(under(alloc, uid, entity)?)),
        None => Ok(None),
    }
}

// The entity under an id.
fn under(alloc: Global, uid: &EntityUID, entity: &Entity) -> Result<Entity, AllocError> {
    let attrs = try_clone_fields(alloc, entity.attrs())?;
    let ancestors = entity.ancestors().clone()?;
    let tags = try_clone_fields(alloc, entity.tags())?;
    Ok(Entity::new(uid.try_clone()?, attrs, ancestors, tags))
}

// A list for each request, but for a loader that answers with no list or with one more.
fn lists(
    alloc: Global,
    entities: &Entities,
    way: Way,
    requests: &Vec<AncestorsRequest>,
) -> Result<Vec<Vec<EntityUID>>, AllocError> {
    let mut found = Vec::new(alloc);
    if way != Way::NoLists {
        for request in requests {
            found.push(list(alloc, entities, way, &request.entity_id)?)?;
        }
    }
    if way == Way::OneListMore {
        found.push(Vec::new(alloc))?;
    }
    Ok(found)
}

// Nothing, or all ancestors of the entity.
fn list(
    alloc: Global,
    entities: &Entities,
    way: Way,
    uid: &EntityUID,
) -> Result<Vec<EntityUID>, AllocError> {
    let mut found = Vec::new(alloc);
    if way == Way::AllListed {
        if let Some(entity) = entities.entity(uid) {
            for ancestor in entity.ancestors().iter() {
                found.push(ancestor.try_clone()?)?;
            }
        }
    }
    Ok(found)
}
