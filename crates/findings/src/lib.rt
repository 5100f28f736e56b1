//! Findings on policies: what is wrong, where, and how it reads.
#![tactic(auto)]

mod access;
mod copies;
mod error;
mod helps;
mod level;
mod list_of;
mod nonempty;
mod rules;
mod show;
mod typing;

pub use access::AttributeAccess;
pub use error::{ValidationError, ValidationWarning};
pub use helps::{LubContext, UnexpectedTypeHelp};
pub use level::{EntityDerefLevel, EntityDerefLevelViolation, EntityDerefViolationKind};
pub use list_of::ListOf;
pub use nonempty::{NonEmpty, partition_nonempty};
pub use rules::{
    ImpossiblePolicy, InvalidActionApplication, InvalidEnumEntity, InvalidEnumEntityError, TooDeep,
    UnrecognizedActionId, UnrecognizedActionIdHelp, UnrecognizedEntityType,
};
pub use typing::{
    EmptySetForbidden, FunctionArgumentValidation, IncompatibleTypes, NoTagsAllowed,
    NonLitExtConstructor, UndefinedFunction, UnexpectedType, UnsafeAttributeAccess,
    UnsafeOptionalAttributeAccess, UnsafeTagAccess, WrongNumberArguments,
};
