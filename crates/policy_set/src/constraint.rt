//! What the scope of a policy asks of the request.

ghost use Rattle.std.specs.Prelude.{◌≡◌, IfOk};
ghost use Rattle.std.specs.Option.{option_copied};
ghost use Rattle.policy_set.specs.Condition.{is_slot, asks_slot};
ghost use Rattle.policy_set.specs.Links.{with_id, linked};

use policy_values::{EntityType, EntityUID};
use std::alloc::AllocError;
use std::marker::Model;

/// What a policy does where its condition is true.
#[derive(Clone, Copy, Debug, PartialEq, Eq)]
pub enum Effect {
    /// It allows the request, unless some forbid is true.
    Permit,
    /// It denies the request.
    Forbid,
}

/// The entity that a constraint names.
#[derive(Debug, Drop)]
pub enum EntityReference {
    /// This entity.
    EUID(EntityUID),
    /// The one that a link gives for the part's own slot.
    Slot,
}

impl EntityReference {
    /// Whether it is a slot.
    pub fn is_slot(&self) -> bool
        ensures { result ≡ is_slot self.now }
    {
        match self {
            EntityReference::EUID(_) => false,
            EntityReference::Slot => true,
        }
    }

    // An equal one, with the id in the place of the slot, where there is one.
    fn with_id(&self, id: Option<&EntityUID>) -> Result<EntityReference, AllocError>
        ensures { IfOk result (λ r. r ≡ with_id (option_copied id.entry) self.now) }
    {
        match (self, id) {
            (EntityReference::EUID(uid), _) | (EntityReference::Slot, Some(uid)) => {
                Ok(EntityReference::EUID(uid.try_clone()?))
            }
            (EntityReference::Slot, None) => Ok(EntityReference::Slot),
        }
    }
}

/// What a scope asks of the principal, or of the resource.
#[derive(Debug)]
pub enum PrincipalOrResourceConstraint {
    /// Nothing.
    Any,
    /// That it is this entity.
    Eq(EntityReference),
    /// That it is this entity, or has it as an ancestor.
    In(EntityReference),
    /// That it is of this type.
    Is(EntityType),
    /// That it is of this type, and is this entity or has it as an ancestor.
    IsIn(EntityType, EntityReference),
}

impl Drop for PrincipalOrResourceConstraint {
    fn drop(self) {
        match self {
            PrincipalOrResourceConstraint::Eq(inner) => drop(inner),
            PrincipalOrResourceConstraint::In(inner) => drop(inner),
            PrincipalOrResourceConstraint::Is(inner) => drop(inner),
            PrincipalOrResourceConstraint::IsIn(first, second) => {
                drop(first);
                drop(second);
            }
            PrincipalOrResourceConstraint::Any => {}
        }
    }
}

impl PrincipalOrResourceConstraint {
    /// Whether a slot stands in it.
    pub fn has_slot(&self) -> bool
        ensures { result ≡ asks_slot self.now }
    {
        match self {
            PrincipalOrResourceConstraint::Any | PrincipalOrResourceConstraint::Is(_) => false,
            PrincipalOrResourceConstraint::Eq(entity)
            | PrincipalOrResourceConstraint::In(entity)
            | PrincipalOrResourceConstraint::IsIn(_, entity) => entity.is_slot(),
        }
    }

    // An equal one, with the id in the place of its slot, where there is one.
    pub(crate) fn with_id(
        &self,
        id: Option<&EntityUID>,
    ) -> Result<PrincipalOrResourceConstraint, AllocError>
        ensures { IfOk result (λ c. c ≡ linked (option_copied id.entry) self.now) }
    {
        Ok(match self {
            PrincipalOrResourceConstraint::Any => PrincipalOrResourceConstraint::Any,
            PrincipalOrResourceConstraint::Eq(entity) => {
                PrincipalOrResourceConstraint::Eq(entity.with_id(id)?)
            }
            PrincipalOrResourceConstraint::In(entity) => {
                PrincipalOrResourceConstraint::In(entity.with_id(id)?)
            }
            PrincipalOrResourceConstraint::Is(entity_type) => {
                PrincipalOrResourceConstraint::Is(entity_type.try_clone()?)
            }
            PrincipalOrResourceConstraint::IsIn(entity_type, entity) => {
                let entity_type = entity_type.try_clone()?;
                let entity = or_drop!(entity.with_id(id), entity_type);
                PrincipalOrResourceConstraint::IsIn(entity_type, entity)
            }
        })
    }
}

/// What a scope asks of the action.
#[derive(Debug)]
pub enum ActionConstraint {
    /// Nothing.
    Any,
    /// That it is this action.
    Eq(EntityUID),
    /// That it is one of these actions, or has one as an ancestor.
    In(ActionList),
}

impl Drop for ActionConstraint {
    fn drop(self) {
        match self {
            ActionConstraint::Eq(inner) => drop(inner),
            ActionConstraint::In(inner) => drop(inner),
            ActionConstraint::Any => {}
        }
    }
}

/// Actions, in the order in which a scope lists them.
#[derive(Debug, Drop)]
pub struct ActionList {
    uids: Vec<EntityUID>,
}

impl Model for ActionList {
    ghost use Rattle.std.specs.Prelude.{List};
    ghost use Rattle.std.specs.Coded.{coded_list};
    ghost use Rattle.policy_values.specs.Uid.{coded_uid};
    ghost use Rattle.policy_values.specs.declared.entity_uid.EntityUID.{EntityUID};

    ghost Value = { List EntityUID };

    ghost coded = { coded_list coded_uid };

    ghost view = { λ l. l.uids.items };
}

impl ActionList {
    /// The list of these actions.
    pub fn new(uids: Vec<EntityUID>) -> ActionList
        ensures { result ≡ uids.items }
    {
        ActionList { uids }
    }

    /// The actions.
    pub fn as_slice(&self) -> &[EntityUID]
        ensures { result.now ≡ self.now }
    {
        self.uids.as_slice()
    }

    // An equal one.
    fn try_clone(&self) -> Result<ActionList, AllocError>
        ensures { IfOk result (λ l. l ≡ self.now) }
    {
        let mut uids = Vec::new(*self.uids.allocator());
        for uid in &self.uids {
            uids.push(uid.try_clone()?)?;
        }
        Ok(ActionList { uids })
    }
}

impl ActionConstraint {
    // An equal one.
    pub(crate) fn try_clone(&self) -> Result<ActionConstraint, AllocError>
        ensures { IfOk result (λ c. c ≡ self.now) }
    {
        match self {
            ActionConstraint::Any => Ok(ActionConstraint::Any),
            ActionConstraint::Eq(uid) => Ok(ActionConstraint::Eq(uid.try_clone()?)),
            ActionConstraint::In(uids) => Ok(ActionConstraint::In(uids.try_clone()?)),
        }
    }
}
