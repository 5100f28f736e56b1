//! Findings on the names, the scope and the whole of a policy.

use crate::ListOf;
use policy_expressions::Loc;
use policy_values::{Eid, EntityType, EntityUID, Text};

/// A type of a literal, or one that `is` tests for, is neither declared nor a type of actions.
#[derive(Debug, Drop, PartialEq, Eq, Hash)]
pub struct UnrecognizedEntityType {
    /// Where the literal or the test stands.
    pub source_loc: Option<Loc>,
    /// The id of the policy.
    pub policy_id: Text,
    /// The type.
    pub actual_entity_type: EntityType,
}

/// A literal names an action that is not declared.
#[derive(Debug, Drop, PartialEq, Eq, Hash)]
pub struct UnrecognizedActionId {
    /// Where the literal stands.
    pub source_loc: Option<Loc>,
    /// The id of the policy.
    pub policy_id: Text,
    /// The id of the action.
    pub actual_action_id: EntityUID,
    /// What may have been meant.
    pub hint: Option<UnrecognizedActionIdHelp>,
}

/// What may have been meant by the id of an action that is not declared.
#[derive(Debug, Drop, PartialEq, Eq, Hash)]
pub enum UnrecognizedActionIdHelp {
    /// This action, whose eid repeats the type of actions.
    AvoidActionTypeInActionId(EntityUID),
}

/// A literal is of an enumerated type that does not list its id.
#[derive(Debug, Drop, PartialEq, Eq, Hash)]
pub struct InvalidEnumEntity {
    /// Where the literal stands.
    pub source_loc: Option<Loc>,
    /// The id of the policy.
    pub policy_id: Text,
    /// The id, and those that its type lists.
    pub err: InvalidEnumEntityError,
}

/// An id of an enumerated type that does not list it.
#[derive(Debug, Drop, PartialEq, Eq, Hash)]
pub struct InvalidEnumEntityError {
    /// The id.
    pub uid: EntityUID,
    /// The ids that its type lists, in the order in which they are declared.
    pub choices: ListOf<Eid>,
}

/// No declared action can meet the scope: none that meets its part for the action has a principal type and a
/// resource type that meet the other two parts.
#[derive(Debug, Drop, PartialEq, Eq, Hash)]
pub struct InvalidActionApplication {
    /// Where it was found: nowhere in particular.
    pub source_loc: Option<Loc>,
    /// The id of the policy.
    pub policy_id: Text,
    /// Whether some type would meet `in` in place of the `==` of the principal.
    pub would_in_fix_principal: bool,
    /// Whether some type would meet `in` in place of the `==` of the resource.
    pub would_in_fix_resource: bool,
}

/// A condition is nested deeper than 200.
#[derive(Debug, Drop, PartialEq, Eq, Hash)]
pub struct TooDeep {
    /// Where it was found: nowhere in particular.
    pub source_loc: Option<Loc>,
    /// The id of the policy.
    pub policy_id: Text,
}

/// A policy whose condition is false on every request that conforms to the schema.
#[derive(Debug, Drop, PartialEq, Eq, Hash)]
pub struct ImpossiblePolicy {
    /// Where it was found: nowhere in particular.
    pub source_loc: Option<Loc>,
    /// The id of the policy.
    pub policy_id: Text,
}
