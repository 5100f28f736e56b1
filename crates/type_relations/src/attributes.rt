//! The attributes that the values of a type have.

ghost use Rattle.std.specs.Prelude.{◌≡◌, ◌||◌, IfOk, is_some, option_copied};
ghost use Rattle.schema_types.specs.Ty.{entity, no_attrs, keys_in};
ghost use Rattle.schema_types.specs.TyView.{kind_of, attrs_of};
ghost use Rattle.schema_types.specs.Attrs.{attr_at};
ghost use Rattle.type_relations.specs.Join.{shared};
ghost use Rattle.type_relations.specs.Attributes.{or_none, shared_with, union_attrs, attrs_in, may_have_declared, may_have};

use crate::join::shared_attributes;
use policy_values::{EntityType, Text};
use schema_types::{
    AttributeType, Attributes, DeclaredAttributes, EntityLUB, EntityRecordKind, Type, TypeKind,
};
use std::alloc::{AllocError, Global};
use std::collections::BTreeMap;

/// The attribute of a type under a key, where there is one.
pub fn lookup_attribute_type<S: DeclaredAttributes>(
    alloc: Global,
    schema: &S,
    t: &Type,
    key: &Text,
) -> Result<Option<AttributeType>, AllocError>
    ensures { IfOk result (λ o. o ≡ attr_at (attrs_in (S.declared schema.now) t.now) key.now) }
{
    let attrs = attributes_in(alloc, schema, t)?;
    copied(alloc, attrs.get_attr(key))
}

/// The keys of the attributes of a type, ascending.
pub fn all_attributes<S: DeclaredAttributes>(
    alloc: Global,
    schema: &S,
    t: &Type,
) -> Result<Vec<Text>, AllocError>
    ensures { IfOk result (λ ks. ks.items ≡ keys_in (attrs_in (S.declared schema.now) t.now)) }
{
    let attrs = attributes_in(alloc, schema, t)?;
    keys_of(alloc, &attrs)
}

/// The keys of the attributes of entities or records of a kind, ascending.
pub fn all_known_attrs<S: DeclaredAttributes>(
    alloc: Global,
    schema: &S,
    kind: &EntityRecordKind,
) -> Result<Vec<Text>, AllocError>
    ensures { IfOk result (λ ks. ks.items ≡ keys_in (attrs_in (S.declared schema.now) (kind_of kind.now))) }
{
    let attrs = attributes_in_kind(alloc, schema, kind)?;
    keys_of(alloc, &attrs)
}

/// Whether some value of the type may have the attribute.
pub fn may_have_attr<S: DeclaredAttributes>(schema: &S, t: &Type, key: &Text) -> bool
    ensures { result ≡ may_have (S.declared schema.now) t.now key.now }
{
    match t.kind() {
        TypeKind::Never => true,
        TypeKind::EntityOrRecord(EntityRecordKind::AnyEntity) => true,
        TypeKind::EntityOrRecord(
            EntityRecordKind::Record {
                attrs,
                open_attributes,
            },
        ) => open_attributes.is_open() || has_attr(attrs, key),
        TypeKind::EntityOrRecord(EntityRecordKind::Entity(lub)) => some_may_have(schema, lub, key),
        TypeKind::EntityOrRecord(EntityRecordKind::ActionEntity { attrs, .. }) => {
            has_attr(attrs, key)
        }
        _ => false,
    }
}

fn some_may_have<S: DeclaredAttributes>(schema: &S, lub: &EntityLUB, key: &Text) -> bool
    ensures { result ≡ may_have (S.declared schema.now) (entity lub.now) key.now }
{
    for entity_type in lub.iter() {
        match schema.attributes_of(entity_type) {
            None => return true,
            Some(attrs) => {
                if has_attr(attrs, key) {
                    return true;
                }
            }
        }
    }
    false
}

fn has_attr(attrs: &Attributes, key: &Text) -> bool
    ensures { result ≡ is_some (attr_at attrs.now key.now) }
{
    attrs.get_attr(key).is_some()
}

fn attributes_in<S: DeclaredAttributes>(
    alloc: Global,
    schema: &S,
    t: &Type,
) -> Result<Attributes, AllocError>
    ensures { IfOk result (λ xs. xs ≡ attrs_in (S.declared schema.now) t.now) }
{
    match t.kind() {
        TypeKind::EntityOrRecord(kind) => attributes_in_kind(alloc, schema, kind),
        _ => no_attributes(alloc),
    }
}

fn attributes_in_kind<S: DeclaredAttributes>(
    alloc: Global,
    schema: &S,
    kind: &EntityRecordKind,
) -> Result<Attributes, AllocError>
    ensures { IfOk result (λ xs. xs ≡ attrs_in (S.declared schema.now) (kind_of kind.now)) }
{
    match kind {
        EntityRecordKind::Record { attrs, .. } => attrs.try_clone(),
        EntityRecordKind::AnyEntity => no_attributes(alloc),
        EntityRecordKind::Entity(lub) => attributes_of_union(alloc, schema, lub),
        EntityRecordKind::ActionEntity { attrs, .. } => attrs.try_clone(),
    }
}

// The permissive join of the attributes of the types, ascending.
fn attributes_of_union<S: DeclaredAttributes>(
    alloc: Global,
    schema: &S,
    lub: &EntityLUB,
) -> Result<Attributes, AllocError>
    ensures { IfOk result (λ xs. xs ≡ union_attrs (S.declared schema.now) lub.now) }
{
    let mut names = lub.iter();
    match names.next() {
        None => no_attributes(alloc),
        Some(first) => {
            let mut attrs = declared_or_none(alloc, schema, first)?;
            for name in names {
                attrs = shared_with_declared(alloc, schema, &attrs, name)?;
            }
            Ok(attrs)
        }
    }
}

fn shared_with_declared<S: DeclaredAttributes>(
    alloc: Global,
    schema: &S,
    attrs: &Attributes,
    name: &EntityType,
) -> Result<Attributes, AllocError>
    ensures { IfOk result (λ xs. xs ≡ shared attrs.now (or_none (S.declared schema.now name.now))) }
{
    match schema.attributes_of(name) {
        Some(declared) => shared_attributes(alloc, attrs, declared),
        None => shared_attributes(alloc, attrs, &no_attributes(alloc)?),
    }
}

fn declared_or_none<S: DeclaredAttributes>(
    alloc: Global,
    schema: &S,
    name: &EntityType,
) -> Result<Attributes, AllocError>
    ensures { IfOk result (λ xs. xs ≡ or_none (S.declared schema.now name.now)) }
{
    match schema.attributes_of(name) {
        Some(declared) => declared.try_clone(),
        None => no_attributes(alloc),
    }
}

fn no_attributes(alloc: Global) -> Result<Attributes, AllocError>
    ensures { IfOk result (λ xs. xs ≡ no_attrs) }
{
    Attributes::with_attributes(alloc, BTreeMap::new(alloc))
}

fn copied(
    alloc: Global,
    attribute: Option<&AttributeType>,
) -> Result<Option<AttributeType>, AllocError>
    ensures { IfOk result (λ o. o ≡ option_copied attribute.entry) }
{
    match attribute {
        Some(x) => {
            let x = x.try_clone(alloc)?;
            Ok(Some(x))
        }
        None => Ok(None),
    }
}

fn keys_of(alloc: Global, attrs: &Attributes) -> Result<Vec<Text>, AllocError>
    ensures { IfOk result (λ ks. ks.items ≡ keys_in attrs.now) }
{
    let mut keys = Vec::new(alloc);
    for (key, _) in attrs.entries().iter() {
        keys.push(key.try_clone()?)?;
    }
    Ok(keys)
}
