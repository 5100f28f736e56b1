//! Entities.

ghost use Rattle.std.specs.Prelude.{◌≡◌, ◌↔◌, IsTrue, IfOk, Contains};
ghost use Rattle.std.specs.Option.{option_copied};
ghost use Rattle.std.specs.List.Sorted.{IsStrictlySortedBy};
ghost use Rattle.policy_values.specs.Uid.{uid_cmp};
ghost use Rattle.policy_values.specs.Value.{fields_of, field_at};

use policy_values::{EntityUID, SharedSet, Text, Value};
use std::alloc::AllocError;
use std::collections::{BTreeMap, BTreeSet};
use std::marker::Model;

/// An entity: its id, its attributes and tags under their keys, and the ids of its ancestors. Until
/// [`crate::Entities::from_parents`] has taken it, the ancestors are its direct parents.
#[derive(Debug)]
pub struct Entity {
    uid: EntityUID,
    attrs: BTreeMap<Text, Value>,
    // The ancestors, where there are no shared ones.
    own: BTreeSet<EntityUID>,
    shared: Option<SharedSet<EntityUID>>,
    tags: BTreeMap<Text, Value>,
}

impl Drop for Entity {
    fn drop(self) {
        let Entity {
            uid,
            attrs,
            own,
            shared,
            tags,
        } = self;
        drop(uid);
        drop(attrs);
        drop(own);
        drop(shared);
        drop(tags);
    }
}

impl Model for Entity {
    ghost use Rattle.entity_store.specs.Store.{StoredEntity, coded_entity};

    ghost Value = { StoredEntity };

    ghost coded = { coded_entity };

    ghost use Rattle.policy_values.specs.Value.{fields_of};
    ghost use Rattle.entity_store.specs.Linked.{chosen};

    ghost view = { λ e. record {
      uid = e.uid;
      attrs = fields_of e.attrs.entries;
      ancestors = (chosen e.shared e.own).keys;
      tags = fields_of e.tags.entries;
    } };

    ghost use Rattle.std.specs.List.Sorted.{IsStrictlySortedBy};
    ghost use Rattle.policy_values.specs.Uid.{uid_cmp};

    ghost invariant = { λ e. IsStrictlySortedBy uid_cmp (chosen e.shared e.own).keys };
}

impl Entity {
    /// The entity with this id, these attributes, these ids as its parents or ancestors, and these tags.
    pub fn new(
        uid: EntityUID,
        attrs: BTreeMap<Text, Value>,
        ancestors: BTreeSet<EntityUID>,
        tags: BTreeMap<Text, Value>,
    ) -> Entity
        ensures value { result ≡ record {
          uid = uid;
          attrs = fields_of attrs.entries;
          ancestors = ancestors.keys;
          tags = fields_of tags.entries;
        } }
        ensures ascending { IsStrictlySortedBy uid_cmp result.ancestors }
    {
        let _count = ancestors.len();
        Entity {
            uid,
            attrs,
            own: ancestors,
            shared: None,
            tags,
        }
    }

    // The entity with other ancestors, which it shares.
    pub(crate) fn with_ancestors(self, ancestors: SharedSet<EntityUID>) -> Entity
        ensures value { result ≡ record self { ancestors = ancestors.keys } }
        ensures ascending { IsStrictlySortedBy uid_cmp result.ancestors }
    {
        let _count = ancestors.as_set().len();
        let Entity {
            uid,
            attrs,
            own,
            shared,
            tags,
        } = self;
        drop(shared);
        Entity {
            uid,
            attrs,
            own,
            shared: Some(ancestors),
            tags,
        }
    }

    /// Its id.
    pub fn uid(&self) -> &EntityUID
        ensures { result.now ≡ self.now.uid }
    {
        &self.uid
    }

    /// The attribute under a key, where there is one.
    pub fn get(&self, key: &Text) -> Option<&Value>
        ensures { option_copied result ≡ field_at self.now.attrs key.now }
    {
        self.attrs.get(key)
    }

    /// The tag under a key, where there is one.
    pub fn get_tag(&self, key: &Text) -> Option<&Value>
        ensures { option_copied result ≡ field_at self.now.tags key.now }
    {
        self.tags.get(key)
    }

    /// All attributes, under their keys.
    pub fn attrs(&self) -> &BTreeMap<Text, Value>
        ensures { fields_of result.now.entries ≡ self.now.attrs }
    {
        &self.attrs
    }

    /// All tags, under their keys.
    pub fn tags(&self) -> &BTreeMap<Text, Value>
        ensures { fields_of result.now.entries ≡ self.now.tags }
    {
        &self.tags
    }

    // The entity beside a copy of its id.
    pub(crate) fn under_id(self) -> Result<(EntityUID, Entity), AllocError>
        ensures uid { IfOk result (λ p. p.0 ≡ self.uid) }
        ensures entity { IfOk result (λ p. p.1 ≡ self) }
        ensures ascending { IsStrictlySortedBy uid_cmp self.ancestors }
    {
        let uid = self.uid.try_clone()?;
        Ok((uid, self))
    }

    /// The ids of its ancestors.
    pub fn ancestors(&self) -> &BTreeSet<EntityUID>
        ensures value { result.now.keys ≡ self.now.ancestors }
        ensures ascending { IsStrictlySortedBy uid_cmp self.now.ancestors }
    {
        match &self.shared {
            Some(shared) => shared.as_set(),
            None => &self.own,
        }
    }

    /// Whether the id is one of its ancestors.
    pub fn has_ancestor(&self, uid: &EntityUID) -> bool
        ensures { IsTrue result ↔ Contains self.now.ancestors uid.now }
    {
        self.ancestors().contains(uid)
    }
}
