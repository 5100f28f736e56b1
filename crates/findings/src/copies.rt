//! Copies of findings.

ghost use Rattle.std.specs.Prelude.{◌≡◌, IfOk, option_copied};

use crate::{
    AttributeAccess, EmptySetForbidden, EntityDerefLevelViolation, FunctionArgumentValidation,
    ImpossiblePolicy, IncompatibleTypes, InvalidActionApplication, InvalidEnumEntity,
    InvalidEnumEntityError, ListOf, NoTagsAllowed, NonLitExtConstructor, TooDeep,
    UndefinedFunction, UnexpectedType, UnrecognizedActionId, UnrecognizedActionIdHelp,
    UnrecognizedEntityType, UnsafeAttributeAccess, UnsafeOptionalAttributeAccess, UnsafeTagAccess,
    ValidationError, ValidationWarning, WrongNumberArguments,
};
use policy_values::{Eid, EntityType, Text};
use schema_types::{EntityLUB, Type};
use std::alloc::{AllocError, Global};

fn copied_texts(alloc: Global, texts: &[Text]) -> Result<ListOf<Text>, AllocError>
    ensures { IfOk result (λ copies. copies ≡ texts.now) }
{
    let mut copies = Vec::new(alloc);
    for text in texts {
        copies.push(text.try_clone()?)?;
    }
    Ok(ListOf::new(copies))
}

fn copied_eids(alloc: Global, eids: &[Eid]) -> Result<ListOf<Eid>, AllocError>
    ensures { IfOk result (λ copies. copies ≡ eids.now) }
{
    let mut copies = Vec::new(alloc);
    for eid in eids {
        copies.push(eid.try_clone()?)?;
    }
    Ok(ListOf::new(copies))
}

fn copied_types(alloc: Global, types: &[Type]) -> Result<ListOf<Type>, AllocError>
    ensures { IfOk result (λ copies. copies ≡ types.now) }
{
    let mut copies = Vec::new(alloc);
    for t in types {
        copies.push(t.try_clone(alloc)?)?;
    }
    Ok(ListOf::new(copies))
}

fn copied_hint(
    hint: Option<&UnrecognizedActionIdHelp>,
) -> Result<Option<UnrecognizedActionIdHelp>, AllocError>
    ensures { IfOk result (λ o. o ≡ option_copied hint.entry) }
{
    match hint {
        Some(hint) => Ok(Some(hint.try_clone()?)),
        None => Ok(None),
    }
}

fn copied_lub(types: Option<&EntityLUB>) -> Result<Option<EntityLUB>, AllocError>
    ensures { IfOk result (λ o. o ≡ option_copied types.entry) }
{
    match types {
        Some(types) => Ok(Some(types.try_clone()?)),
        None => Ok(None),
    }
}

fn copied_type(name: Option<&EntityType>) -> Result<Option<EntityType>, AllocError>
    ensures { IfOk result (λ o. o ≡ option_copied name.entry) }
{
    match name {
        Some(name) => Ok(Some(name.try_clone()?)),
        None => Ok(None),
    }
}

impl UnrecognizedActionIdHelp {
    /// An equal help.
    pub fn try_clone(&self) -> Result<UnrecognizedActionIdHelp, AllocError>
        ensures { IfOk result (λ c. c ≡ self.now) }
    {
        let UnrecognizedActionIdHelp::AvoidActionTypeInActionId(uid) = self;
        let uid = uid.try_clone()?;
        Ok(UnrecognizedActionIdHelp::AvoidActionTypeInActionId(uid))
    }
}

impl AttributeAccess {
    /// An equal access.
    pub fn try_clone(&self, alloc: Global) -> Result<AttributeAccess, AllocError>
        ensures { IfOk result (λ c. c ≡ self.now) }
    {
        match self {
            AttributeAccess::EntityLUB(types, attrs) => {
                let attrs = copied_texts(alloc, attrs.as_slice())?;
                let types = types.try_clone()?;
                Ok(AttributeAccess::EntityLUB(types, attrs))
            }
            AttributeAccess::Context(action, attrs) => {
                let attrs = copied_texts(alloc, attrs.as_slice())?;
                let action = action.try_clone()?;
                Ok(AttributeAccess::Context(action, attrs))
            }
            AttributeAccess::Other(attrs) => {
                let attrs = copied_texts(alloc, attrs.as_slice())?;
                Ok(AttributeAccess::Other(attrs))
            }
        }
    }
}

impl InvalidEnumEntityError {
    /// An equal error.
    pub fn try_clone(&self, alloc: Global) -> Result<InvalidEnumEntityError, AllocError>
        ensures { IfOk result (λ c. c ≡ self.now) }
    {
        let uid = self.uid.try_clone()?;
        let choices = copied_eids(alloc, self.choices.as_slice())?;
        Ok(InvalidEnumEntityError { uid, choices })
    }
}

impl UnrecognizedEntityType {
    /// An equal finding.
    pub fn try_clone(&self) -> Result<UnrecognizedEntityType, AllocError>
        ensures { IfOk result (λ c. c ≡ self.now) }
    {
        let policy_id = self.policy_id.try_clone()?;
        let actual_entity_type = self.actual_entity_type.try_clone()?;
        Ok(UnrecognizedEntityType {
            source_loc: self.source_loc,
            policy_id,
            actual_entity_type,
        })
    }
}

impl UnrecognizedActionId {
    /// An equal finding.
    pub fn try_clone(&self) -> Result<UnrecognizedActionId, AllocError>
        ensures { IfOk result (λ c. c ≡ self.now) }
    {
        let policy_id = self.policy_id.try_clone()?;
        let actual_action_id = self.actual_action_id.try_clone()?;
        let hint = copied_hint(self.hint.as_ref())?;
        Ok(UnrecognizedActionId {
            source_loc: self.source_loc,
            policy_id,
            actual_action_id,
            hint,
        })
    }
}

impl InvalidEnumEntity {
    /// An equal finding.
    pub fn try_clone(&self, alloc: Global) -> Result<InvalidEnumEntity, AllocError>
        ensures { IfOk result (λ c. c ≡ self.now) }
    {
        let policy_id = self.policy_id.try_clone()?;
        let err = self.err.try_clone(alloc)?;
        Ok(InvalidEnumEntity {
            source_loc: self.source_loc,
            policy_id,
            err,
        })
    }
}

impl InvalidActionApplication {
    /// An equal finding.
    pub fn try_clone(&self) -> Result<InvalidActionApplication, AllocError>
        ensures { IfOk result (λ c. c ≡ self.now) }
    {
        let policy_id = self.policy_id.try_clone()?;
        Ok(InvalidActionApplication {
            source_loc: self.source_loc,
            policy_id,
            would_in_fix_principal: self.would_in_fix_principal,
            would_in_fix_resource: self.would_in_fix_resource,
        })
    }
}

impl UnexpectedType {
    /// An equal finding.
    pub fn try_clone(&self, alloc: Global) -> Result<UnexpectedType, AllocError>
        ensures { IfOk result (λ c. c ≡ self.now) }
    {
        let policy_id = self.policy_id.try_clone()?;
        let expected = copied_types(alloc, self.expected.as_slice())?;
        let actual = self.actual.try_clone(alloc)?;
        Ok(UnexpectedType {
            source_loc: self.source_loc,
            policy_id,
            expected,
            actual,
            help: self.help,
        })
    }
}

impl IncompatibleTypes {
    /// An equal finding.
    pub fn try_clone(&self, alloc: Global) -> Result<IncompatibleTypes, AllocError>
        ensures { IfOk result (λ c. c ≡ self.now) }
    {
        let policy_id = self.policy_id.try_clone()?;
        let types = copied_types(alloc, self.types.as_slice())?;
        Ok(IncompatibleTypes {
            source_loc: self.source_loc,
            policy_id,
            types,
            hint: self.hint,
            context: self.context,
        })
    }
}

impl UnsafeAttributeAccess {
    /// An equal finding.
    pub fn try_clone(&self, alloc: Global) -> Result<UnsafeAttributeAccess, AllocError>
        ensures { IfOk result (λ c. c ≡ self.now) }
    {
        let policy_id = self.policy_id.try_clone()?;
        let attribute_access = self.attribute_access.try_clone(alloc)?;
        Ok(UnsafeAttributeAccess {
            source_loc: self.source_loc,
            policy_id,
            attribute_access,
            may_exist: self.may_exist,
        })
    }
}

impl UnsafeOptionalAttributeAccess {
    /// An equal finding.
    pub fn try_clone(&self, alloc: Global) -> Result<UnsafeOptionalAttributeAccess, AllocError>
        ensures { IfOk result (λ c. c ≡ self.now) }
    {
        let policy_id = self.policy_id.try_clone()?;
        let attribute_access = self.attribute_access.try_clone(alloc)?;
        Ok(UnsafeOptionalAttributeAccess {
            source_loc: self.source_loc,
            policy_id,
            attribute_access,
        })
    }
}

impl UnsafeTagAccess {
    /// An equal finding.
    pub fn try_clone(&self) -> Result<UnsafeTagAccess, AllocError>
        ensures { IfOk result (λ c. c ≡ self.now) }
    {
        let policy_id = self.policy_id.try_clone()?;
        let tag = self.tag.try_clone()?;
        let entity_ty = copied_lub(self.entity_ty.as_ref())?;
        Ok(UnsafeTagAccess {
            source_loc: self.source_loc,
            policy_id,
            entity_ty,
            tag,
        })
    }
}

impl NoTagsAllowed {
    /// An equal finding.
    pub fn try_clone(&self) -> Result<NoTagsAllowed, AllocError>
        ensures { IfOk result (λ c. c ≡ self.now) }
    {
        let policy_id = self.policy_id.try_clone()?;
        let entity_ty = copied_type(self.entity_ty.as_ref())?;
        Ok(NoTagsAllowed {
            source_loc: self.source_loc,
            policy_id,
            entity_ty,
        })
    }
}

impl UndefinedFunction {
    /// An equal finding.
    pub fn try_clone(&self) -> Result<UndefinedFunction, AllocError>
        ensures { IfOk result (λ c. c ≡ self.now) }
    {
        let policy_id = self.policy_id.try_clone()?;
        let name = self.name.try_clone()?;
        Ok(UndefinedFunction {
            source_loc: self.source_loc,
            policy_id,
            name,
        })
    }
}

impl WrongNumberArguments {
    /// An equal finding.
    pub fn try_clone(&self) -> Result<WrongNumberArguments, AllocError>
        ensures { IfOk result (λ c. c ≡ self.now) }
    {
        let policy_id = self.policy_id.try_clone()?;
        Ok(WrongNumberArguments {
            source_loc: self.source_loc,
            policy_id,
            expected: self.expected,
            actual: self.actual,
        })
    }
}

impl FunctionArgumentValidation {
    /// An equal finding.
    pub fn try_clone(&self) -> Result<FunctionArgumentValidation, AllocError>
        ensures { IfOk result (λ c. c ≡ self.now) }
    {
        let policy_id = self.policy_id.try_clone()?;
        let msg = self.msg.try_clone()?;
        Ok(FunctionArgumentValidation {
            source_loc: self.source_loc,
            policy_id,
            msg,
        })
    }
}

impl EntityDerefLevelViolation {
    /// An equal finding.
    pub fn try_clone(&self) -> Result<EntityDerefLevelViolation, AllocError>
        ensures { IfOk result (λ c. c ≡ self.now) }
    {
        let policy_id = self.policy_id.try_clone()?;
        Ok(EntityDerefLevelViolation {
            source_loc: self.source_loc,
            policy_id,
            violation_kind: self.violation_kind,
        })
    }
}

impl EmptySetForbidden {
    /// An equal finding.
    pub fn try_clone(&self) -> Result<EmptySetForbidden, AllocError>
        ensures { IfOk result (λ c. c ≡ self.now) }
    {
        let policy_id = self.policy_id.try_clone()?;
        Ok(EmptySetForbidden {
            source_loc: self.source_loc,
            policy_id,
        })
    }
}

impl NonLitExtConstructor {
    /// An equal finding.
    pub fn try_clone(&self) -> Result<NonLitExtConstructor, AllocError>
        ensures { IfOk result (λ c. c ≡ self.now) }
    {
        let policy_id = self.policy_id.try_clone()?;
        Ok(NonLitExtConstructor {
            source_loc: self.source_loc,
            policy_id,
        })
    }
}

impl TooDeep {
    /// An equal finding.
    pub fn try_clone(&self) -> Result<TooDeep, AllocError>
        ensures { IfOk result (λ c. c ≡ self.now) }
    {
        let policy_id = self.policy_id.try_clone()?;
        Ok(TooDeep {
            source_loc: self.source_loc,
            policy_id,
        })
    }
}

impl ImpossiblePolicy {
    /// An equal finding.
    pub fn try_clone(&self) -> Result<ImpossiblePolicy, AllocError>
        ensures { IfOk result (λ c. c ≡ self.now) }
    {
        let policy_id = self.policy_id.try_clone()?;
        Ok(ImpossiblePolicy {
            source_loc: self.source_loc,
            policy_id,
        })
    }
}

impl ValidationError {
    /// An equal error.
    pub fn try_clone(&self, alloc: Global) -> Result<ValidationError, AllocError>
        ensures { IfOk result (λ c. c ≡ self.now) }
    {
        match self {
            ValidationError::UnrecognizedEntityType(inner) => {
                Ok(ValidationError::UnrecognizedEntityType(inner.try_clone()?))
            }
            ValidationError::UnrecognizedActionId(inner) => {
                Ok(ValidationError::UnrecognizedActionId(inner.try_clone()?))
            }
            ValidationError::InvalidEnumEntity(inner) => {
                Ok(ValidationError::InvalidEnumEntity(inner.try_clone(alloc)?))
            }
            ValidationError::InvalidActionApplication(inner) => {
                Ok(ValidationError::InvalidActionApplication(inner.try_clone()?))
            }
            ValidationError::UnexpectedType(inner) => {
                Ok(ValidationError::UnexpectedType(inner.try_clone(alloc)?))
            }
            ValidationError::IncompatibleTypes(inner) => {
                Ok(ValidationError::IncompatibleTypes(inner.try_clone(alloc)?))
            }
            ValidationError::UnsafeAttributeAccess(inner) => {
                Ok(ValidationError::UnsafeAttributeAccess(inner.try_clone(alloc)?))
            }
            ValidationError::UnsafeOptionalAttributeAccess(inner) => {
                Ok(ValidationError::UnsafeOptionalAttributeAccess(inner.try_clone(alloc)?))
            }
            ValidationError::UnsafeTagAccess(inner) => {
                Ok(ValidationError::UnsafeTagAccess(inner.try_clone()?))
            }
            ValidationError::NoTagsAllowed(inner) => {
                Ok(ValidationError::NoTagsAllowed(inner.try_clone()?))
            }
            ValidationError::UndefinedFunction(inner) => {
                Ok(ValidationError::UndefinedFunction(inner.try_clone()?))
            }
            ValidationError::WrongNumberArguments(inner) => {
                Ok(ValidationError::WrongNumberArguments(inner.try_clone()?))
            }
            ValidationError::FunctionArgumentValidation(inner) => {
                Ok(ValidationError::FunctionArgumentValidation(inner.try_clone()?))
            }
            ValidationError::EntityDerefLevelViolation(inner) => {
                Ok(ValidationError::EntityDerefLevelViolation(inner.try_clone()?))
            }
            ValidationError::EmptySetForbidden(inner) => {
                Ok(ValidationError::EmptySetForbidden(inner.try_clone()?))
            }
            ValidationError::NonLitExtConstructor(inner) => {
                Ok(ValidationError::NonLitExtConstructor(inner.try_clone()?))
            }
            ValidationError::TooDeep(inner) => Ok(ValidationError::TooDeep(inner.try_clone()?)),
        }
    }
}

impl ValidationWarning {
    /// An equal warning.
    pub fn try_clone(&self) -> Result<ValidationWarning, AllocError>
        ensures { IfOk result (λ c. c ≡ self.now) }
    {
        let ValidationWarning::ImpossiblePolicy(inner) = self;
        Ok(ValidationWarning::ImpossiblePolicy(inner.try_clone()?))
    }
}
