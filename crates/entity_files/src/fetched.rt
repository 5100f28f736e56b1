//! What was looked up so far.

ghost use Rattle.std.specs.Prelude.{◌≡◌, ◌++◌, true, cond, IfOk, OnOk, MatchResult};
ghost use Rattle.std.specs.BTreeMap.{is_at};
ghost use Rattle.std.specs.BTreeSet.{contains};
ghost use Rattle.std.specs.Option.{option_to_list};
ghost use Rattle.policy_values.specs.Uid.{uid_cmp};
ghost use Rattle.sqlite.specs.Held.{state};
ghost use Rattle.entity_files.specs.Table.{IsReady, Continues};
ghost use Rattle.entity_files.specs.Rows.{known_entities};

use crate::{FindError, find_entity};
use entity_store::{Entities, EntitiesError, Entity};
use policy_values::{EntityUID, try_clone_fields};
use sqlite::{Alter, Connection};
use std::alloc::{AllocError, Global};
use std::collections::BTreeSet;

/// The ids that were looked up, and the entities that were found, with their parents.
#[derive(Drop)]
pub struct Fetched {
    /// The ids that were looked up.
    pub seen: BTreeSet<EntityUID>,
    /// The entities that were found, with their parents, in the order of the look-ups.
    pub found: Vec<Entity>,
}

impl Fetched {
    ghost use Rattle.std.specs.Prelude.{List, Option};
    ghost use Rattle.entity_store.specs.Store.{StoredEntity};
    ghost use Rattle.entity_store.specs.FromParents.{IsFromParents, IsRefused};
    ghost use Rattle.policy_values.specs.declared.entity_uid.EntityUID.{EntityUID};
    ghost use Rattle.entity_files.specs.Fetched.{AreFetched};

    /// Nothing was looked up.
    pub fn new(alloc: Global) -> Fetched
        ensures { (told : Option (List StoredEntity)) → AreFetched told result }
    {
        Fetched {
            seen: BTreeSet::new(alloc),
            found: Vec::new(alloc),
        }
    }

    // Adds an id, and the entity that was found for it.
    fn add(&mut self, uid: EntityUID, entity: Option<Entity>) -> Result<(), AllocError>
        ensures seen { OnOk result ((u : EntityUID) → contains uid_cmp self.new.seen u ≡
            cond (is_at (uid_cmp uid) u) true (contains uid_cmp self.old.seen u)) }
        ensures found { OnOk result (self.new.found.items ≡ self.old.found.items ++
            option_to_list entity) }
    {
        self.seen.insert(uid)?;
        if let Some(entity) = entity {
            self.found.push(entity)?;
        }
        Ok(())
    }

    /// Looks an id up, unless that was done before.
    pub fn fetch<S: Alter>(
        &mut self,
        alloc: Global,
        conn: &mut Connection<S>,
        uid: &EntityUID,
    ) -> Result<(), FindError>
        requires ready { IsReady (state S.Store conn.old) }
        requires fetched { AreFetched (known_entities (state S.Store conn.old)) self.old }
        ensures ready { IsReady (state S.Store conn.new) }
        ensures goes_on { Continues (known_entities (state S.Store conn.old))
            (known_entities (state S.Store conn.new)) }
        ensures fetched { OnOk result (AreFetched (known_entities (state S.Store conn.new)) self.new) }
    {
        if self.seen.contains(uid) {
            return Ok(());
        }
        let entity = find_entity(alloc, conn, uid)?;
        self.add(uid.try_clone()?, entity)?;
        Ok(())
    }

    /// The store of what was found. It is refused where two of the entities have one id, and where an id is
    /// reached from itself by parents.
    pub fn entities(&self, alloc: Global) -> Result<Entities, EntitiesError>
        ensures { MatchResult result (IsFromParents self.now.found.items) (IsRefused self.now.found.items) }
    {
        Entities::from_parents(alloc, copies(alloc, &self.found)?)
    }
}

fn copies(alloc: Global, entities: &Vec<Entity>) -> Result<Vec<Entity>, AllocError>
    ensures { IfOk result (λ v. v.items ≡ entities.now.items) }
{
    let mut copies = Vec::new(alloc);
    for entity in entities {
        copies.push(copy(alloc, entity)?)?;
    }
    Ok(copies)
}

fn copy(alloc: Global, entity: &Entity) -> Result<Entity, AllocError>
    ensures { IfOk result (λ e. e ≡ entity.now) }
{
    let uid = entity.uid().try_clone()?;
    let attrs = try_clone_fields(alloc, entity.attrs())?;
    let tags = try_clone_fields(alloc, entity.tags())?;
    let ancestors = entity.ancestors().clone()?;
    Ok(Entity::new(uid, attrs, ancestors, tags))
}
