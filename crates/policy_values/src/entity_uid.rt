//! Entity types and entity ids.

ghost use Rattle.std.specs.Prelude.{◌≡◌, IfOk};
ghost use Rattle.policy_values.specs.Name.{IsName};
ghost use Rattle.policy_values.specs.Basename.{basename_of, is_action_type};

use crate::{Name, Text};
use std::alloc::AllocError;
use std::marker::Model;

/// The type of an entity: a name.
#[derive(Debug, PartialEq, Eq, PartialOrd, Ord, Hash)]
pub struct EntityType {
    name: Name,
}

impl Drop for EntityType {
    fn drop(self) {
        let EntityType { name } = self;
        drop(name);
    }
}

impl Model for EntityType {
    ghost use Rattle.std.specs.Prelude.{List, ℕ};

    ghost Value = { List ℕ };

    ghost view = { λ n. n.name };

    ghost inverse = { λ t. record { name = t } };
}

impl EntityType {
    /// The entity type of a name.
    pub fn new(name: Name) -> EntityType
        ensures { result ≡ name }
    {
        EntityType { name }
    }

    /// How the type's name is spelled.
    pub fn as_str(&self) -> &str
        ensures value { result.now ≡ self.now }
        ensures name { IsName self.now }
    {
        self.name.as_str()
    }

    /// The last component of its name.
    pub fn basename(&self) -> &str
        ensures { result.now ≡ basename_of self.now }
    {
        let name = self.as_str();
        match name.rsplit_once("::") {
            Some((_, last)) => last,
            None => name,
        }
    }

    /// Whether it is a type of actions: the last component of its name is `Action`.
    pub fn is_action(&self) -> bool
        ensures { result ≡ is_action_type self.now }
    {
        let name = self.as_str();
        name == "Action" || name.ends_with("::Action")
    }

    /// An equal type, which shares the characters.
    pub fn try_clone(&self) -> Result<EntityType, AllocError>
        ensures { IfOk result (λ n. n ≡ self.now) }
    {
        let name = self.name.try_clone()?;
        Ok(EntityType { name })
    }
}

impl Clone for EntityType {
    ghost is_clone = { λ s t. t ≡ s };

    fn clone(&self) -> Result<EntityType, AllocError> {
        self.try_clone()
    }
}

/// What says an entity from the others of its type: any text.
#[derive(Debug, PartialEq, Eq, PartialOrd, Ord, Hash)]
pub struct Eid {
    text: Text,
}

impl Drop for Eid {
    fn drop(self) {
        let Eid { text } = self;
        drop(text);
    }
}

impl Model for Eid {
    ghost use Rattle.std.specs.Prelude.{List, ℕ};

    ghost Value = { List ℕ };

    ghost view = { λ n. n.text };

    ghost inverse = { λ t. record { text = t } };
}

impl Eid {
    /// The eid that a text is.
    pub fn new(text: Text) -> Eid
        ensures { result ≡ text }
    {
        Eid { text }
    }

    /// The text, borrowed.
    pub fn as_text(&self) -> &Text
        ensures { result.now ≡ self.now }
    {
        &self.text
    }

    /// The characters, borrowed.
    pub fn as_str(&self) -> &str
        ensures { result.now ≡ self.now }
    {
        self.text.as_str()
    }

    /// An equal eid, which shares the characters.
    pub fn try_clone(&self) -> Result<Eid, AllocError>
        ensures { IfOk result (λ n. n ≡ self.now) }
    {
        let text = self.text.try_clone()?;
        Ok(Eid { text })
    }
}

impl Clone for Eid {
    ghost is_clone = { λ s t. t ≡ s };

    fn clone(&self) -> Result<Eid, AllocError> {
        self.try_clone()
    }
}

/// The id of an entity: its type and its eid. Ids are ordered by type and then by eid; one prints as
/// `Type::"eid"`.
#[derive(Clone, Debug, PartialEq, Eq, PartialOrd, Ord, Hash)]
pub struct EntityUID {
    /// The type of the entity.
    pub entity_type: EntityType,
    /// Which entity of that type it is.
    pub eid: Eid,
}

impl Drop for EntityUID {
    fn drop(self) {
        let EntityUID { entity_type, eid } = self;
        drop(entity_type);
        drop(eid);
    }
}

impl EntityUID {
    /// The type of the entity.
    pub fn entity_type(&self) -> &EntityType
        ensures { result.now ≡ self.now.entity_type }
    {
        &self.entity_type
    }

    /// Which entity of its type it is.
    pub fn eid(&self) -> &Eid
        ensures { result.now ≡ self.now.eid }
    {
        &self.eid
    }

    /// Whether it is the id of an action.
    pub fn is_action(&self) -> bool
        ensures { result ≡ is_action_type self.now.entity_type }
    {
        self.entity_type.is_action()
    }

    /// An equal id, which shares the characters.
    pub fn try_clone(&self) -> Result<EntityUID, AllocError>
        ensures { IfOk result (λ u. u ≡ self.now) }
    {
        let entity_type = self.entity_type.try_clone()?;
        let eid = self.eid.try_clone()?;
        Ok(EntityUID { entity_type, eid })
    }
}
