//! Copies of types.

ghost use Rattle.std.specs.Prelude.{◌≡◌, IfOk};
ghost use Rattle.schema_types.specs.TyView.{ty_of};

use crate::{AttributeType, EntityRecordKind, Type, TypeKind};
use std::alloc::{AllocError, Global};

impl Type {
    /// An equal type.
    pub fn try_clone(&self, alloc: Global) -> Result<Type, AllocError>
        ensures { IfOk result (λ t. t ≡ self.now) }
    {
        copy_of(alloc, self)
    }
}

impl TypeKind {
    /// An equal kind.
    pub fn try_clone(&self, alloc: Global) -> Result<TypeKind, AllocError>
        ensures { IfOk result (λ k. ty_of k ≡ ty_of self.now) }
    {
        copy_of_type_kind(alloc, self)
    }
}

impl EntityRecordKind {
    /// An equal kind.
    pub fn try_clone(&self, alloc: Global) -> Result<EntityRecordKind, AllocError>
        ensures { IfOk result (λ k. k ≡ self.now) }
    {
        copy_of_kind(alloc, self)
    }
}

impl AttributeType {
    /// An equal attribute.
    pub fn try_clone(&self, alloc: Global) -> Result<AttributeType, AllocError>
        ensures { IfOk result (λ a. a ≡ self.now) }
    {
        let attr_type = self.attr_type.try_clone(alloc)?;
        Ok(AttributeType::new(attr_type, self.is_required))
    }
}

#[cycle(copy)]
fn copy_of(alloc: Global, t: &Type) -> Result<Type, AllocError>
    ensures { IfOk result (λ copy. copy ≡ t.now) }
{
    let kind = copy_of_type_kind(alloc, t.kind())?;
    Ok(Type::from_kind(kind))
}

#[cycle(copy)]
fn copy_of_type_kind(alloc: Global, k: &TypeKind) -> Result<TypeKind, AllocError>
    ensures { IfOk result (λ copy. ty_of copy ≡ ty_of k.now) }
{
    match k {
        TypeKind::Never => Ok(TypeKind::Never),
        TypeKind::True => Ok(TypeKind::True),
        TypeKind::False => Ok(TypeKind::False),
        TypeKind::Primitive { primitive_type } => {
            let primitive_type = *primitive_type;
            Ok(TypeKind::Primitive { primitive_type })
        }
        TypeKind::Set { element_type: None } => Ok(TypeKind::Set { element_type: None }),
        TypeKind::Set {
            element_type: Some(element),
        } => {
            let element = copy_of(alloc, element)?;
            let element_type = Some(Box::new(alloc, element)?);
            Ok(TypeKind::Set { element_type })
        }
        TypeKind::EntityOrRecord(kind) => {
            let kind = copy_of_kind(alloc, kind)?;
            Ok(TypeKind::EntityOrRecord(kind))
        }
        TypeKind::ExtensionType { name } => {
            let name = name.try_clone()?;
            Ok(TypeKind::ExtensionType { name })
        }
    }
}

fn copy_of_kind(alloc: Global, k: &EntityRecordKind) -> Result<EntityRecordKind, AllocError>
    ensures { IfOk result (λ copy. copy ≡ k.now) }
{
    match k {
        EntityRecordKind::Record {
            attrs,
            open_attributes,
        } => {
            let attrs = attrs.try_clone()?;
            Ok(EntityRecordKind::Record {
                attrs,
                open_attributes: *open_attributes,
            })
        }
        EntityRecordKind::AnyEntity => Ok(EntityRecordKind::AnyEntity),
        EntityRecordKind::Entity(lub) => Ok(EntityRecordKind::Entity(lub.try_clone()?)),
        EntityRecordKind::ActionEntity { name, attrs } => {
            let name = name.try_clone()?;
            let attrs = attrs.try_clone()?;
            Ok(EntityRecordKind::ActionEntity { name, attrs })
        }
    }
}
