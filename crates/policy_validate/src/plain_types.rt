//! Types of a schema as schema types.

ghost use Rattle.std.specs.Prelude.{◌≡◌, Some, IfOk};
ghost use Rattle.schema_types.specs.Plain.{plain, plain_attrs};
ghost use Rattle.schema_types.specs.Ty.{record_of};
ghost use Rattle.schema_types.specs.declared.kinds.OpenTag.TheVariants.{ClosedAttributes};

use schema_core::{
    Attributes, OpenTag, SchemaAttributes, SchemaType, SchemaTypeError, SchemaTypeKind, Type,
    to_schema_type,
};
use std::alloc::{AllocError, Global};

// A type that is its own schema type, as such.
pub(crate) fn same_type(alloc: Global, ty: &Type) -> Result<SchemaType, AllocError>
    requires { plain ty.now ≡ Some ty.now }
    ensures { IfOk result (λ t. t ≡ ty.now) }
{
    match to_schema_type(alloc, ty) {
        Ok(same) => Ok(same),
        Err(SchemaTypeError::OutOfMemory) => Err(AllocError),
        Err(SchemaTypeError::NotRepresentable) => unreachable!(),
    }
}

// The type of records with these attributes and no others.
pub(crate) fn record_type(alloc: Global, attributes: &Attributes) -> Result<SchemaType, AllocError>
    requires { plain_attrs attributes.now ≡ Some attributes.now }
    ensures { IfOk result (λ t. t ≡ record_of attributes.now ClosedAttributes) }
{
    let attributes = attributes.try_clone()?;
    same_type(alloc, &Type::record(attributes, OpenTag::ClosedAttributes))
}

// Attributes that are their own schema types, as such.
pub(crate) fn same_attributes(
    alloc: Global,
    attributes: &Attributes,
) -> Result<SchemaAttributes, AllocError>
    requires { plain_attrs attributes.now ≡ Some attributes.now }
    ensures { IfOk result (λ a. a ≡ attributes.now) }
{
    let record = record_type(alloc, attributes)?;
    match record.kind() {
        SchemaTypeKind::Record { attrs, .. } => attrs.try_clone(alloc),
        _ => unreachable!(),
    }
}
