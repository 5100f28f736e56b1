//! Findings on an expression that has no type.

use crate::{AttributeAccess, ListOf, LubContext, UnexpectedTypeHelp};
use policy_expressions::Loc;
use policy_values::{EntityType, Name, Text};
use schema_types::{EntityLUB, LubHelp, Type};

/// An operand has none of the types that its operator takes.
#[derive(Debug, Drop, PartialEq, Eq, Hash)]
pub struct UnexpectedType {
    /// Where the operand stands.
    pub source_loc: Option<Loc>,
    /// The id of the policy.
    pub policy_id: Text,
    /// The types that are expected.
    pub expected: ListOf<Type>,
    /// The type of the operand.
    pub actual: Type,
    /// What may help.
    pub help: Option<UnexpectedTypeHelp>,
}

/// Types have no least upper bound where they need one.
#[derive(Debug, Drop, PartialEq, Eq, Hash)]
pub struct IncompatibleTypes {
    /// Where the expression stands whose parts they type.
    pub source_loc: Option<Loc>,
    /// The id of the policy.
    pub policy_id: Text,
    /// The types, ascending, each once.
    pub types: ListOf<Type>,
    /// Why they have none.
    pub hint: LubHelp,
    /// Where they have to be compatible.
    pub context: LubContext,
}

/// An attribute is not declared.
#[derive(Debug, Drop, PartialEq, Eq, Hash)]
pub struct UnsafeAttributeAccess {
    /// Where the access stands.
    pub source_loc: Option<Loc>,
    /// The id of the policy.
    pub policy_id: Text,
    /// The attribute, and of what it is.
    pub attribute_access: AttributeAccess,
    /// Whether it may be there all the same.
    pub may_exist: bool,
}

/// An attribute is optional, and not known to be there.
#[derive(Debug, Drop, PartialEq, Eq, Hash)]
pub struct UnsafeOptionalAttributeAccess {
    /// Where the access stands.
    pub source_loc: Option<Loc>,
    /// The id of the policy.
    pub policy_id: Text,
    /// The attribute, and of what it is.
    pub attribute_access: AttributeAccess,
}

/// A tag is not known to be there.
#[derive(Debug, Drop, PartialEq, Eq, Hash)]
pub struct UnsafeTagAccess {
    /// Where the access stands.
    pub source_loc: Option<Loc>,
    /// The id of the policy.
    pub policy_id: Text,
    /// The types of the entity, where they are known.
    pub entity_ty: Option<EntityLUB>,
    /// The tag, as it prints.
    pub tag: Text,
}

/// An entity has no tags.
#[derive(Debug, Drop, PartialEq, Eq, Hash)]
pub struct NoTagsAllowed {
    /// Where the access stands.
    pub source_loc: Option<Loc>,
    /// The id of the policy.
    pub policy_id: Text,
    /// The type of the entity, where it is one alone.
    pub entity_ty: Option<EntityType>,
}

/// There is no function of the name.
#[derive(Debug, Drop, PartialEq, Eq, Hash)]
pub struct UndefinedFunction {
    /// Where the call stands.
    pub source_loc: Option<Loc>,
    /// The id of the policy.
    pub policy_id: Text,
    /// The name.
    pub name: Name,
}

/// A call has more or fewer arguments than its function takes.
#[derive(Debug, Drop, PartialEq, Eq, Hash)]
pub struct WrongNumberArguments {
    /// Where the call stands.
    pub source_loc: Option<Loc>,
    /// The id of the policy.
    pub policy_id: Text,
    /// How many the function takes.
    pub expected: usize,
    /// How many the call has.
    pub actual: usize,
}

/// A constructor of extension values can not read its text.
#[derive(Debug, Drop, PartialEq, Eq, Hash)]
pub struct FunctionArgumentValidation {
    /// Where the call stands.
    pub source_loc: Option<Loc>,
    /// The id of the policy.
    pub policy_id: Text,
    /// What is said of the text.
    pub msg: Text,
}

/// A set literal is empty.
#[derive(Debug, Drop, PartialEq, Eq, Hash)]
pub struct EmptySetForbidden {
    /// Where the literal stands.
    pub source_loc: Option<Loc>,
    /// The id of the policy.
    pub policy_id: Text,
}

/// An argument of a constructor of extension values is no literal.
#[derive(Debug, Drop, PartialEq, Eq, Hash)]
pub struct NonLitExtConstructor {
    /// Where the call stands.
    pub source_loc: Option<Loc>,
    /// The id of the policy.
    pub policy_id: Text,
}
