//! Errors, for which a policy is refused, and warnings.

ghost use Rattle.std.specs.Prelude.{◌≡◌};
ghost use Rattle.findings.specs.Errors.{error_kind, warning_kind};

use crate::{
    EmptySetForbidden, EntityDerefLevelViolation, FunctionArgumentValidation, ImpossiblePolicy,
    IncompatibleTypes, InvalidActionApplication, InvalidEnumEntity, NoTagsAllowed,
    NonLitExtConstructor, TooDeep, UndefinedFunction, UnexpectedType, UnrecognizedActionId,
    UnrecognizedEntityType, UnsafeAttributeAccess, UnsafeOptionalAttributeAccess, UnsafeTagAccess,
    WrongNumberArguments,
};

/// A finding for which a policy is refused.
#[derive(Debug, PartialEq, Eq, Hash)]
pub enum ValidationError {
    /// A type of a literal or a test is neither declared nor a type of actions.
    UnrecognizedEntityType(UnrecognizedEntityType),
    /// A literal names an action that is not declared.
    UnrecognizedActionId(UnrecognizedActionId),
    /// A literal is of an enumerated type that does not list its id.
    InvalidEnumEntity(InvalidEnumEntity),
    /// No declared action can meet the scope.
    InvalidActionApplication(InvalidActionApplication),
    /// An operand has none of the types that its operator takes.
    UnexpectedType(UnexpectedType),
    /// Types have no least upper bound where they need one.
    IncompatibleTypes(IncompatibleTypes),
    /// An attribute is not declared.
    UnsafeAttributeAccess(UnsafeAttributeAccess),
    /// An attribute is optional, and not known to be there.
    UnsafeOptionalAttributeAccess(UnsafeOptionalAttributeAccess),
    /// A tag is not known to be there.
    UnsafeTagAccess(UnsafeTagAccess),
    /// An entity has no tags.
    NoTagsAllowed(NoTagsAllowed),
    /// There is no function of the name.
    UndefinedFunction(UndefinedFunction),
    /// A call has more or fewer arguments than its function takes.
    WrongNumberArguments(WrongNumberArguments),
    /// A constructor of extension values can not read its text.
    FunctionArgumentValidation(FunctionArgumentValidation),
    /// A dereference is not allowed at the level that the policies are checked for.
    EntityDerefLevelViolation(EntityDerefLevelViolation),
    /// A set literal is empty.
    EmptySetForbidden(EmptySetForbidden),
    /// An argument of a constructor of extension values is no literal.
    NonLitExtConstructor(NonLitExtConstructor),
    /// A condition is nested deeper than 200.
    TooDeep(TooDeep),
}

impl Drop for ValidationError {
    fn drop(self) {
        match self {
            ValidationError::UnrecognizedEntityType(inner) => drop(inner),
            ValidationError::UnrecognizedActionId(inner) => drop(inner),
            ValidationError::InvalidEnumEntity(inner) => drop(inner),
            ValidationError::InvalidActionApplication(inner) => drop(inner),
            ValidationError::UnexpectedType(inner) => drop(inner),
            ValidationError::IncompatibleTypes(inner) => drop(inner),
            ValidationError::UnsafeAttributeAccess(inner) => drop(inner),
            ValidationError::UnsafeOptionalAttributeAccess(inner) => drop(inner),
            ValidationError::UnsafeTagAccess(inner) => drop(inner),
            ValidationError::NoTagsAllowed(inner) => drop(inner),
            ValidationError::UndefinedFunction(inner) => drop(inner),
            ValidationError::WrongNumberArguments(inner) => drop(inner),
            ValidationError::FunctionArgumentValidation(inner) => drop(inner),
            ValidationError::EntityDerefLevelViolation(inner) => drop(inner),
            ValidationError::EmptySetForbidden(inner) => drop(inner),
            ValidationError::NonLitExtConstructor(inner) => drop(inner),
            ValidationError::TooDeep(inner) => drop(inner),
        }
    }
}

/// A finding for which no policy is refused.
#[derive(Debug, Drop, PartialEq, Eq, Hash)]
pub enum ValidationWarning {
    /// A policy whose condition is false on every request that conforms to the schema.
    ImpossiblePolicy(ImpossiblePolicy),
}

impl ValidationError {
    /// What kind of error it is.
    pub fn kind(&self) -> &'static str
        ensures { result.now ≡ error_kind self.now }
    {
        match self {
            ValidationError::UnrecognizedEntityType(_) => "UnrecognizedEntityType",
            ValidationError::UnrecognizedActionId(_) => "UnrecognizedActionId",
            ValidationError::InvalidEnumEntity(_) => "InvalidEnumEntity",
            ValidationError::InvalidActionApplication(_) => "InvalidActionApplication",
            ValidationError::UnexpectedType(_) => "UnexpectedType",
            ValidationError::IncompatibleTypes(_) => "IncompatibleTypes",
            ValidationError::UnsafeAttributeAccess(_) => "UnsafeAttributeAccess",
            ValidationError::UnsafeOptionalAttributeAccess(_) => "UnsafeOptionalAttributeAccess",
            ValidationError::UnsafeTagAccess(_) => "UnsafeTagAccess",
            ValidationError::NoTagsAllowed(_) => "NoTagsAllowed",
            ValidationError::UndefinedFunction(_) => "UndefinedFunction",
            ValidationError::WrongNumberArguments(_) => "WrongNumberArguments",
            ValidationError::FunctionArgumentValidation(_) => "FunctionArgumentValidation",
            ValidationError::EntityDerefLevelViolation(_) => "EntityDerefLevelViolation",
            ValidationError::EmptySetForbidden(_) => "EmptySetForbidden",
            ValidationError::NonLitExtConstructor(_) => "NonLitExtConstructor",
            ValidationError::TooDeep(_) => "TooDeep",
        }
    }
}

impl ValidationWarning {
    /// What kind of warning it is.
    pub fn kind(&self) -> &'static str
        ensures { result.now ≡ warning_kind self.now }
    {
        let ValidationWarning::ImpossiblePolicy(_) = self;
        "ImpossiblePolicy"
    }
}
