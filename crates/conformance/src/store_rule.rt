//! The rules of stores.

ghost use Rattle.std.specs.Prelude.{Some};
ghost use Rattle.conformance.specs.RuleText.{rule_text};

use policy_values::{EntityUID, Text};
use std::alloc::AllocError;
use std::fmt;
use thiserror::Error;

/// A rule that a stored entity breaks.
#[derive(Debug, Drop, PartialEq, Eq)]
pub enum StoreRule {
    /// Its type is not declared.
    TypeNotDeclared,
    /// Its type is enumerated, and does not list it.
    IdNotListed,
    /// Its type has no attribute of this name.
    AttributeNotDeclared(Text),
    /// The attribute of this name is not of its type.
    AttributeOfAnotherType(Text),
    /// The attribute of this name holds an id that an enumerated type does not list.
    AttributeHoldsUnlistedId(Text),
    /// It lacks the required attribute of this name.
    RequiredAttributeMissing(Text),
    /// Its type has no tags.
    TagsNotAllowed,
    /// The tag of this name is not of the type of tags.
    TagOfAnotherType(Text),
    /// The tag of this name holds an id that an enumerated type does not list.
    TagHoldsUnlistedId(Text),
    /// Its type is no descendant of this ancestor's type.
    AncestorNotAllowed(EntityUID),
    /// This ancestor's type is enumerated, and does not list it.
    AncestorNotListed(EntityUID),
    /// It is the entity of an action that is not declared.
    ActionNotDeclared,
    /// It is the entity of an action, and has attributes.
    ActionHasAttributes,
    /// It is the entity of an action, and has tags.
    ActionHasTags,
    /// It is the entity of an action, and its ancestors are others than those of the action in the schema.
    ActionAncestorsDiffer,
}

impl fmt::Display for StoreRule {
    ghost output = { λ rule. Some (rule_text rule) };

    fn fmt<W: fmt::Write>(&self, f: &mut fmt::Formatter<W>) -> fmt::Result {
        match self {
            StoreRule::TypeNotDeclared => f.write_str("type is not declared"),
            StoreRule::IdNotListed => f.write_str("id is not listed"),
            StoreRule::AttributeNotDeclared(key) => write!(f, "attribute `{key}` is not declared"),
            StoreRule::AttributeOfAnotherType(key) => {
                write!(f, "attribute `{key}` is not of its type")
            }
            StoreRule::AttributeHoldsUnlistedId(key) => {
                write!(f, "attribute `{key}` holds an unlisted id")
            }
            StoreRule::RequiredAttributeMissing(key) => {
                write!(f, "required attribute `{key}` is missing")
            }
            StoreRule::TagsNotAllowed => f.write_str("tags are not allowed"),
            StoreRule::TagOfAnotherType(key) => write!(f, "tag `{key}` is not of its type"),
            StoreRule::TagHoldsUnlistedId(key) => write!(f, "tag `{key}` holds an unlisted id"),
            StoreRule::AncestorNotAllowed(uid) => write!(f, "ancestor `{uid}` is not allowed"),
            StoreRule::AncestorNotListed(uid) => write!(f, "ancestor `{uid}` is not listed"),
            StoreRule::ActionNotDeclared => f.write_str("action is not declared"),
            StoreRule::ActionHasAttributes => f.write_str("action has attributes"),
            StoreRule::ActionHasTags => f.write_str("action has tags"),
            StoreRule::ActionAncestorsDiffer => {
                f.write_str("action's ancestors differ from the schema's")
            }
        }
    }
}

/// An entity that does not conform to the schema.
#[derive(Debug, Drop, PartialEq, Eq)]
pub struct EntityDoesNotConform {
    /// The id of the entity.
    pub uid: EntityUID,
    /// The first rule that it breaks.
    pub rule: StoreRule,
}

/// Why a store is not known to conform to a schema.
#[derive(Debug, Drop, Error)]
pub enum ConformanceError {
    /// An entity breaks a rule.
    #[error("{}: {}", .0.uid, .0.rule)]
    EntityDoesNotConform(EntityDoesNotConform),
    /// There was no memory to say which entity breaks which rule.
    #[error("out of memory")]
    OutOfMemory,
}

impl From<AllocError> for ConformanceError {
    ghost use Rattle.std.specs.Prelude.{◌≡◌};
    ghost use Rattle.conformance.specs.declared.store_rule.ConformanceError.TheVariants.{OutOfMemory};

    ghost from_gives = { λ _ e. e ≡ OutOfMemory };

    fn from(_error: AllocError) -> ConformanceError {
        ConformanceError::OutOfMemory
    }
}
