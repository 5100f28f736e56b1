//! Copies of schema types.

ghost use Rattle.std.specs.Prelude.{◌≡◌, IfOk};
ghost use Rattle.schema_types.specs.SchemaView.{schema_ty_of};

use crate::{SchemaAttribute, SchemaAttributes, SchemaType, SchemaTypeKind};
use policy_values::{Text, push_entry};
use std::alloc::{AllocError, Global};
use std::collections::BTreeMap;

impl SchemaType {
    /// An equal type.
    pub fn try_clone(&self, alloc: Global) -> Result<SchemaType, AllocError>
        ensures { IfOk result (λ t. t ≡ self.now) }
    {
        schema_copy(alloc, self)
    }
}

impl SchemaAttributes {
    /// Equal attributes.
    pub fn try_clone(&self, alloc: Global) -> Result<SchemaAttributes, AllocError>
        ensures { IfOk result (λ a. a ≡ self.now) }
    {
        schema_copy_of_attributes(alloc, self)
    }
}

#[cycle(schema_copy)]
fn schema_copy(alloc: Global, t: &SchemaType) -> Result<SchemaType, AllocError>
    ensures { IfOk result (λ copy. copy ≡ t.now) }
{
    let kind = schema_copy_of_kind(alloc, t.kind())?;
    Ok(SchemaType::from_kind(kind))
}

#[cycle(schema_copy)]
fn schema_copy_of_kind(alloc: Global, k: &SchemaTypeKind) -> Result<SchemaTypeKind, AllocError>
    ensures { IfOk result (λ copy. schema_ty_of copy ≡ schema_ty_of k.now) }
{
    match k {
        SchemaTypeKind::Bool => Ok(SchemaTypeKind::Bool),
        SchemaTypeKind::Long => Ok(SchemaTypeKind::Long),
        SchemaTypeKind::String => Ok(SchemaTypeKind::String),
        SchemaTypeKind::EmptySet => Ok(SchemaTypeKind::EmptySet),
        SchemaTypeKind::Set { element_ty } => {
            let element = schema_copy(alloc, element_ty)?;
            let element_ty = Box::new(alloc, element)?;
            Ok(SchemaTypeKind::Set { element_ty })
        }
        SchemaTypeKind::Record {
            attrs,
            open_attributes,
        } => {
            let attrs = schema_copy_of_attributes(alloc, attrs)?;
            Ok(SchemaTypeKind::Record {
                attrs,
                open_attributes: *open_attributes,
            })
        }
        SchemaTypeKind::Entity { ty } => {
            let ty = ty.try_clone()?;
            Ok(SchemaTypeKind::Entity { ty })
        }
        SchemaTypeKind::Extension { name } => {
            let name = name.try_clone()?;
            Ok(SchemaTypeKind::Extension { name })
        }
    }
}

#[cycle(schema_copy)]
fn schema_copy_of_attributes(
    alloc: Global,
    a: &SchemaAttributes,
) -> Result<SchemaAttributes, AllocError>
    ensures { IfOk result (λ copy. copy ≡ a.now) }
{
    let entries = schema_copy_of_entries(alloc, a.entries())?;
    Ok(SchemaAttributes::with_attributes(entries))
}

#[cycle(schema_copy)]
fn schema_copy_of_entries(
    alloc: Global,
    entries: &BTreeMap<Text, SchemaAttribute>,
) -> Result<BTreeMap<Text, SchemaAttribute>, AllocError>
    ensures { IfOk result (λ copy. copy.entries ≡ entries.now.entries) }
{
    let mut copies = BTreeMap::new(alloc);
    for (key, x) in entries.iter() {
        let attr_type = schema_copy(alloc, &x.attr_type)?;
        let key = key.try_clone()?;
        let copy = SchemaAttribute {
            attr_type,
            is_required: x.is_required,
        };
        push_entry(&mut copies, key, copy)?;
    }
    Ok(copies)
}
