//! The types that a value may be reported to have: what a schema says of attributes, contexts and tags.

ghost use Rattle.std.specs.Prelude.{◌≡◌, ◌++◌, ◌∷◌, [], IfOk, OnOk, MatchResult, Ok, Some, None, option_map, option_copied};
ghost use Rattle.schema_types.specs.declared.kinds.Primitive.TheVariants.{Bool, Long, String};
ghost use Rattle.schema_types.specs.Ty.{primitive, any_set, set_of, record_of, entity, extension};
ghost use Rattle.schema_types.specs.TyView.{kind_of, attrs_of};
ghost use Rattle.schema_types.specs.SchemaView.{schema_ty_of, schema_attrs_of};
ghost use Rattle.schema_types.specs.Plain.{plain, plain_attrs, IsPlainError};

use crate::{AttributeType, Attributes, EntityRecordKind, OpenTag, Primitive, Type, TypeKind};
use policy_values::{EntityType, Name, Text, push_entry};
use std::alloc::{AllocError, Global};
use std::collections::BTreeMap;
use std::marker::Model;

/// A type that a value may be reported to have.
#[derive(Debug)]
#[cycle(schema_type)]
pub struct SchemaType {
    kind: SchemaTypeKind,
}

impl Drop for SchemaType {
    #[cycle(schema_type_drops)]
    fn drop(self) {
        let SchemaType { kind } = self;
        drop(kind);
    }
}

/// What such a type is.
#[derive(Debug, Drop)]
#[cycle(schema_type)]
pub enum SchemaTypeKind {
    /// Booleans.
    Bool,
    /// Longs.
    Long,
    /// Strings.
    String,
    /// The empty set.
    EmptySet,
    /// Sets.
    Set {
        /// The type of their elements.
        element_ty: Box<SchemaType>,
    },
    /// Records.
    Record {
        /// Their attributes.
        attrs: SchemaAttributes,
        /// Whether they may have others.
        open_attributes: OpenTag,
    },
    /// The entities of one type.
    Entity {
        /// The type.
        ty: EntityType,
    },
    /// The values of an extension.
    Extension {
        /// How the type is called.
        name: Name,
    },
}

/// Attributes under their keys, ascending.
#[derive(Debug, Drop)]
#[cycle(schema_type)]
pub struct SchemaAttributes {
    attrs: BTreeMap<Text, SchemaAttribute>,
}

/// The type of an attribute, and whether the attribute has to be there.
#[derive(Debug, Drop)]
#[cycle(schema_type)]
pub struct SchemaAttribute {
    /// The type of what stands under the attribute.
    pub attr_type: SchemaType,
    /// Whether it has to be there.
    pub is_required: bool,
}

impl Model for SchemaType {
    ghost use Rattle.schema_types.specs.Ty.{Ty, size_of};
    ghost use Rattle.schema_types.specs.TyCode.{coded_ty};

    ghost Value = { Ty };

    ghost coded = { coded_ty };

    ghost use Rattle.schema_types.specs.SchemaView.{schema_ty_of};

    ghost view = { λ a. schema_ty_of a.kind };

    ghost size = { size_of };

    ghost use Rattle.schema_types.specs.SchemaFalls.{schema_falls};

    ghost size_decreases = { λ a h. schema_falls a };
}

impl Model for SchemaAttributes {
    ghost use Rattle.schema_types.specs.Ty.{Attrs, size_of_attrs};
    ghost use Rattle.schema_types.specs.TyCode.{coded_attrs};

    ghost Value = { Attrs };

    ghost coded = { coded_attrs };

    ghost use Rattle.schema_types.specs.SchemaView.{schema_attrs_of};

    ghost view = { λ a. schema_attrs_of a.attrs.entries };

    ghost size = { size_of_attrs };

    ghost use Rattle.schema_types.specs.SchemaFalls.{schema_attrs_fall};

    ghost size_decreases = { λ a h. schema_attrs_fall a };
}

impl SchemaType {
    /// What the type is.
    pub fn kind(&self) -> &SchemaTypeKind
        ensures { schema_ty_of result.now ≡ self.now }
    {
        &self.kind
    }

    /// The type that is of a kind.
    pub fn from_kind(kind: SchemaTypeKind) -> SchemaType
        ensures { result ≡ schema_ty_of kind }
    {
        SchemaType { kind }
    }
}

impl SchemaAttributes {
    /// The attributes of a map.
    pub fn with_attributes(attrs: BTreeMap<Text, SchemaAttribute>) -> SchemaAttributes
        ensures { result ≡ schema_attrs_of attrs.entries }
    {
        SchemaAttributes { attrs }
    }

    /// The map of the attributes.
    pub fn entries(&self) -> &BTreeMap<Text, SchemaAttribute>
        ensures { schema_attrs_of result.now.entries ≡ self.now }
    {
        &self.attrs
    }
}

/// Why no schema type was given.
#[derive(Clone, Copy, Debug, PartialEq, Eq)]
pub enum SchemaTypeError {
    /// The type has Never, AnyEntity or a union of entity types inside.
    NotRepresentable,
    /// There was no memory.
    OutOfMemory,
}

impl From<AllocError> for SchemaTypeError {
    ghost use Rattle.std.specs.Prelude.{◌≡◌};
    ghost use Rattle.schema_types.specs.declared.schema_type.SchemaTypeError.{SchemaTypeError};

    ghost from_gives = { λ _ e. e ≡ SchemaTypeError.OutOfMemory };

    fn from(_: AllocError) -> SchemaTypeError {
        SchemaTypeError::OutOfMemory
    }
}

/// The schema type of a type: a set without element type is the empty set, True and False are Bool, an action
/// is of the entity type of its name.
pub fn to_schema_type(alloc: Global, t: &Type) -> Result<SchemaType, SchemaTypeError>
    ensures { MatchResult result (λ s. plain t.now ≡ Some s) (λ e. IsPlainError (plain t.now) e) }
{
    match schema_type_of(alloc, t)? {
        Some(s) => Ok(s),
        None => Err(SchemaTypeError::NotRepresentable),
    }
}

#[cycle(plain)]
fn schema_type_of(alloc: Global, t: &Type) -> Result<Option<SchemaType>, AllocError>
    ensures { IfOk result (λ o. o ≡ plain t.now) }
{
    match t.kind() {
        TypeKind::Never => Ok(None),
        TypeKind::True => Ok(Some(SchemaType::from_kind(SchemaTypeKind::Bool))),
        TypeKind::False => Ok(Some(SchemaType::from_kind(SchemaTypeKind::Bool))),
        TypeKind::Primitive { primitive_type } => Ok(Some(schema_primitive(*primitive_type))),
        TypeKind::Set { element_type: None } => {
            Ok(Some(SchemaType::from_kind(SchemaTypeKind::EmptySet)))
        }
        TypeKind::Set {
            element_type: Some(element),
        } => match schema_type_of(alloc, element)? {
            Some(element) => Ok(Some(schema_set(alloc, element)?)),
            None => Ok(None),
        },
        TypeKind::EntityOrRecord(kind) => schema_kind(alloc, kind),
        TypeKind::ExtensionType { name } => {
            let name = name.try_clone()?;
            Ok(Some(SchemaType::from_kind(SchemaTypeKind::Extension { name })))
        }
    }
}

#[cycle(plain)]
fn schema_kind(alloc: Global, k: &EntityRecordKind) -> Result<Option<SchemaType>, AllocError>
    ensures { IfOk result (λ o. o ≡ plain (kind_of k.now)) }
{
    match k {
        EntityRecordKind::Record {
            attrs,
            open_attributes,
        } => match schema_attributes(alloc, attrs)? {
            Some(attrs) => Ok(Some(SchemaType::from_kind(SchemaTypeKind::Record {
                attrs,
                open_attributes: *open_attributes,
            }))),
            None => Ok(None),
        },
        EntityRecordKind::AnyEntity => Ok(None),
        EntityRecordKind::Entity(lub) => match lub.get_single_entity() {
            Some(ty) => Ok(Some(schema_entity(ty)?)),
            None => Ok(None),
        },
        EntityRecordKind::ActionEntity { name, .. } => Ok(Some(schema_entity(name)?)),
    }
}

#[cycle(plain)]
fn schema_attributes(alloc: Global, a: &Attributes) -> Result<Option<SchemaAttributes>, AllocError>
    ensures { IfOk result (λ o. o ≡ plain_attrs a.now) }
{
    match schema_entries(alloc, a.entries())? {
        Some(entries) => Ok(Some(SchemaAttributes::with_attributes(entries))),
        None => Ok(None),
    }
}

#[cycle(plain)]
#[tactic(auto, using(crate::proofs::PlainSteps::in_prefix_all))]
fn schema_entries(
    alloc: Global,
    entries: &BTreeMap<Text, AttributeType>,
) -> Result<Option<BTreeMap<Text, SchemaAttribute>>, AllocError>
    ensures { IfOk result (λ o. option_map (λ m. schema_attrs_of m.entries) o ≡
        plain_attrs (attrs_of entries.now.entries)) }
{
    let mut made = BTreeMap::new(alloc);
    for (key, x) in entries.iter() {
        match schema_type_of(alloc, &x.attr_type)? {
            None => return Ok(None),
            Some(attr_type) => {
                let key = key.try_clone()?;
                let attribute = SchemaAttribute {
                    attr_type,
                    is_required: x.is_required,
                };
                push_entry(&mut made, key, attribute)?;
            }
        }
    }
    Ok(Some(made))
}

fn schema_primitive(p: Primitive) -> SchemaType
    ensures { result ≡ primitive p }
{
    match p {
        Primitive::Bool => SchemaType::from_kind(SchemaTypeKind::Bool),
        Primitive::Long => SchemaType::from_kind(SchemaTypeKind::Long),
        Primitive::String => SchemaType::from_kind(SchemaTypeKind::String),
    }
}

fn schema_set(alloc: Global, element: SchemaType) -> Result<SchemaType, AllocError>
    ensures { IfOk result (λ s. s ≡ set_of element) }
{
    let element_ty = Box::new(alloc, element)?;
    Ok(SchemaType::from_kind(SchemaTypeKind::Set { element_ty }))
}

fn schema_entity(ty: &EntityType) -> Result<SchemaType, AllocError>
    ensures { IfOk result (λ s. s ≡ entity (ty.now ∷ [])) }
{
    let ty = ty.try_clone()?;
    Ok(SchemaType::from_kind(SchemaTypeKind::Entity { ty }))
}
