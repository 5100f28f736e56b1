//! How errors and warnings read.

ghost use Rattle.std.specs.Prelude.{None};
ghost use Rattle.findings.specs.Errors.{error_message, error_help, error_place, warning_message, warning_place};

use crate::Diagnostic;
use findings::{ValidationError, ValidationWarning};
use policy_expressions::Loc;
use policy_values::Text;
use std::alloc::{AllocError, Global};

impl Diagnostic for ValidationError {
    ghost message_text = { error_message };

    ghost help_text = { error_help };

    ghost place = { error_place };

    fn message(&self, alloc: Global) -> Result<Text, AllocError> {
        match self {
            ValidationError::UnrecognizedEntityType(e) => e.message(alloc),
            ValidationError::UnrecognizedActionId(e) => e.message(alloc),
            ValidationError::InvalidEnumEntity(e) => e.message(alloc),
            ValidationError::InvalidActionApplication(e) => e.message(alloc),
            ValidationError::UnexpectedType(e) => e.message(alloc),
            ValidationError::IncompatibleTypes(e) => e.message(alloc),
            ValidationError::UnsafeAttributeAccess(e) => e.message(alloc),
            ValidationError::UnsafeOptionalAttributeAccess(e) => e.message(alloc),
            ValidationError::UnsafeTagAccess(e) => e.message(alloc),
            ValidationError::NoTagsAllowed(e) => e.message(alloc),
            ValidationError::UndefinedFunction(e) => e.message(alloc),
            ValidationError::WrongNumberArguments(e) => e.message(alloc),
            ValidationError::FunctionArgumentValidation(e) => e.message(alloc),
            ValidationError::EntityDerefLevelViolation(e) => e.message(alloc),
            ValidationError::EmptySetForbidden(e) => e.message(alloc),
            ValidationError::NonLitExtConstructor(e) => e.message(alloc),
            ValidationError::TooDeep(e) => e.message(alloc),
        }
    }

    fn help(&self, alloc: Global) -> Result<Option<Text>, AllocError> {
        match self {
            ValidationError::UnrecognizedEntityType(e) => e.help(alloc),
            ValidationError::UnrecognizedActionId(e) => e.help(alloc),
            ValidationError::InvalidEnumEntity(e) => e.help(alloc),
            ValidationError::InvalidActionApplication(e) => e.help(alloc),
            ValidationError::UnexpectedType(e) => e.help(alloc),
            ValidationError::IncompatibleTypes(e) => e.help(alloc),
            ValidationError::UnsafeAttributeAccess(e) => e.help(alloc),
            ValidationError::UnsafeOptionalAttributeAccess(e) => e.help(alloc),
            ValidationError::UnsafeTagAccess(e) => e.help(alloc),
            ValidationError::NoTagsAllowed(e) => e.help(alloc),
            ValidationError::UndefinedFunction(e) => e.help(alloc),
            ValidationError::WrongNumberArguments(e) => e.help(alloc),
            ValidationError::FunctionArgumentValidation(e) => e.help(alloc),
            ValidationError::EntityDerefLevelViolation(e) => e.help(alloc),
            ValidationError::EmptySetForbidden(e) => e.help(alloc),
            ValidationError::NonLitExtConstructor(e) => e.help(alloc),
            ValidationError::TooDeep(e) => e.help(alloc),
        }
    }

    fn location(&self) -> Option<Loc> {
        match self {
            ValidationError::UnrecognizedEntityType(e) => e.location(),
            ValidationError::UnrecognizedActionId(e) => e.location(),
            ValidationError::InvalidEnumEntity(e) => e.location(),
            ValidationError::InvalidActionApplication(e) => e.location(),
            ValidationError::UnexpectedType(e) => e.location(),
            ValidationError::IncompatibleTypes(e) => e.location(),
            ValidationError::UnsafeAttributeAccess(e) => e.location(),
            ValidationError::UnsafeOptionalAttributeAccess(e) => e.location(),
            ValidationError::UnsafeTagAccess(e) => e.location(),
            ValidationError::NoTagsAllowed(e) => e.location(),
            ValidationError::UndefinedFunction(e) => e.location(),
            ValidationError::WrongNumberArguments(e) => e.location(),
            ValidationError::FunctionArgumentValidation(e) => e.location(),
            ValidationError::EntityDerefLevelViolation(e) => e.location(),
            ValidationError::EmptySetForbidden(e) => e.location(),
            ValidationError::NonLitExtConstructor(e) => e.location(),
            ValidationError::TooDeep(e) => e.location(),
        }
    }
}

impl Diagnostic for ValidationWarning {
    ghost message_text = { warning_message };

    ghost help_text = { λ _. None };

    ghost place = { warning_place };

    fn message(&self, alloc: Global) -> Result<Text, AllocError> {
        let ValidationWarning::ImpossiblePolicy(e) = self;
        e.message(alloc)
    }

    fn help(&self, alloc: Global) -> Result<Option<Text>, AllocError> {
        let ValidationWarning::ImpossiblePolicy(e) = self;
        e.help(alloc)
    }

    fn location(&self) -> Option<Loc> {
        let ValidationWarning::ImpossiblePolicy(e) = self;
        e.location()
    }
}
