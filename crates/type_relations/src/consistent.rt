//! Whether some value may be of a schema type and of a type at once.

ghost use Rattle.std.specs.Prelude.{◌≡◌, is_some};
ghost use Rattle.schema_types.specs.Ty.{primitive};
ghost use Rattle.schema_types.specs.SchemaView.{schema_attrs_of};
ghost use Rattle.schema_types.specs.Attrs.{attr_at};
ghost use Rattle.type_relations.specs.Consistent.{consistent_primitive, has_type, covered, consistent, agree};

use crate::join::{entity_type_eq, name_eq};
use policy_values::{EntityType, Text};
use schema_types::{
    Attributes, EntityRecordKind, OpenTag, Primitive, SchemaAttribute, SchemaAttributes,
    SchemaType, SchemaTypeKind, Type, TypeKind,
};
use std::collections::BTreeMap;

/// Whether some value may be of the type and of the schema type.
#[cycle(consistent)]
pub fn is_consistent_with(t: &Type, schema_type: &SchemaType) -> bool
    ensures { result ≡ consistent schema_type.now t.now }
{
    match (schema_type.kind(), t.kind()) {
        (SchemaTypeKind::Bool, _) => is_consistent_primitive(Primitive::Bool, t),
        (SchemaTypeKind::Long, _) => is_consistent_primitive(Primitive::Long, t),
        (SchemaTypeKind::String, _) => is_consistent_primitive(Primitive::String, t),
        (SchemaTypeKind::EmptySet, TypeKind::Set { .. }) => true,
        (
            SchemaTypeKind::Set { element_ty },
            TypeKind::Set {
                element_type: Some(element),
            },
        ) => is_consistent_with(element, element_ty),
        (
            SchemaTypeKind::Record {
                attrs,
                open_attributes,
            },
            TypeKind::EntityOrRecord(
                EntityRecordKind::Record {
                    attrs: other,
                    open_attributes: other_open,
                },
            ),
        ) => do_agree(attrs, other, *other_open) && are_covered(attrs, *open_attributes, other),
        (SchemaTypeKind::Entity { ty }, _) => has_type(t, ty),
        (SchemaTypeKind::Extension { name }, TypeKind::ExtensionType { name: other }) => {
            name_eq(name, other)
        }
        _ => false,
    }
}

#[cycle(consistent)]
fn do_agree(attrs: &SchemaAttributes, others: &Attributes, open_attributes: OpenTag) -> bool
    ensures { result ≡ agree open_attributes attrs.now others.now }
{
    for (key, x) in attrs.entries().iter() {
        let agrees = match others.get_attr(key) {
            Some(other) => is_consistent_with(&other.attr_type, &x.attr_type),
            None => !x.is_required || open_attributes.is_open(),
        };
        if !agrees {
            return false;
        }
    }
    true
}

fn are_covered(attrs: &SchemaAttributes, open_attributes: OpenTag, others: &Attributes) -> bool
    ensures { result ≡ covered open_attributes attrs.now others.now }
{
    for (key, other) in others.entries().iter() {
        let may_lack = !other.is_required || open_attributes.is_open();
        if !has_attr(attrs.entries(), key) && !may_lack {
            return false;
        }
    }
    true
}

#[tactic(auto, using(crate::proofs::ConsistentSteps::lookup_schema_attr))]
fn has_attr(entries: &BTreeMap<Text, SchemaAttribute>, key: &Text) -> bool
    ensures { result ≡ is_some (attr_at (schema_attrs_of entries.now.entries) key.now) }
{
    entries.contains_key(key)
}

fn has_type(t: &Type, ty: &EntityType) -> bool
    ensures { result ≡ has_type ty.now t.now }
{
    match t.kind() {
        TypeKind::EntityOrRecord(EntityRecordKind::AnyEntity) => true,
        TypeKind::EntityOrRecord(EntityRecordKind::Entity(lub)) => lub.contains(ty),
        TypeKind::EntityOrRecord(EntityRecordKind::ActionEntity { name, .. }) => {
            entity_type_eq(ty, name)
        }
        _ => false,
    }
}

fn is_consistent_primitive(p: Primitive, t: &Type) -> bool
    ensures { result ≡ consistent_primitive p t.now }
{
    match (p, t.kind()) {
        (Primitive::Bool, TypeKind::True) => true,
        (Primitive::Bool, TypeKind::False) => true,
        (
            _,
            TypeKind::Primitive {
                primitive_type: other,
            },
        ) => is_same_primitive(p, *other),
        _ => false,
    }
}

fn is_same_primitive(p: Primitive, q: Primitive) -> bool
    ensures { result ≡ consistent_primitive p (primitive q) }
{
    match (p, q) {
        (Primitive::Bool, Primitive::Bool) => true,
        (Primitive::Long, Primitive::Long) => true,
        (Primitive::String, Primitive::String) => true,
        _ => false,
    }
}
