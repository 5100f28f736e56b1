//! What is wrong with values at places of types.

ghost use Rattle.std.specs.Prelude.{◌≡◌};
ghost use Rattle.std.specs.Option.{option_copied, option_map};
ghost use Rattle.std.specs.Ordering.{is_eq};
ghost use Rattle.policy_values.specs.Uid.{text_cmp};
ghost use Rattle.policy_values.specs.Value.{vals_of, fields_of, rec};
ghost use Rattle.schema_types.specs.Ty.{primitive, extension, record_of, is_open};
ghost use Rattle.schema_types.specs.TyView.{kind_of};
ghost use Rattle.type_relations.specs.Member.{has_field, type_of};
ghost use Rattle.conformance.specs.Misfits.{name_of, knows, fits_if, first_of, earlier, first_missing, misfit_field, extension_misfit, misfit, misfit_all, misfit_fields};
ghost use Rattle.conformance.specs.Keyed.{at_key};

use policy_values::{EntityType, Name, Text, Value, ValueKind};
use schema_types::{
    AttributeType, Attributes, EntityRecordKind, OpenTag, Primitive, Type, TypeKind,
};
use std::cmp::Ordering;
use std::collections::BTreeMap;
use typing_spec::ExtensionSchemas;

/// An extension function that makes values.
#[derive(Clone, Copy, Debug, PartialEq, Eq)]
pub(crate) enum Constructor {
    Decimal,
    Ip,
    Datetime,
    Duration,
}

/// What is wrong with a value.
#[derive(Clone, Copy, Debug, PartialEq, Eq)]
pub(crate) enum Misfit {
    /// It is an extension's, and the function that makes such values is not there.
    Lacks(Constructor),
    /// It is not of the type of its place.
    Other,
}

impl Constructor {
    /// The name of the function.
    pub(crate) fn name(self) -> &'static str
        ensures { result.now ≡ name_of self }
    {
        match self {
            Constructor::Decimal => "decimal",
            Constructor::Ip => "ip",
            Constructor::Datetime => "datetime",
            Constructor::Duration => "duration",
        }
    }
}

fn fits_if(fits: bool) -> Option<Misfit>
    ensures { result ≡ fits_if fits }
{
    if fits { None } else { Some(Misfit::Other) }
}

/// What is wrong with a value at a place of a type, if anything, where these functions are there.
#[cycle(walk)]
pub(crate) fn misfit_of(extensions: &ExtensionSchemas<'_>, t: &Type, v: &Value) -> Option<Misfit>
    ensures { result ≡ misfit (knows extensions.now) t.now v.now }
{
    match (t.kind(), v.kind()) {
        (TypeKind::True, ValueKind::Bool(b)) => fits_if(*b),
        (TypeKind::False, ValueKind::Bool(b)) => fits_if(!*b),
        (TypeKind::Primitive { primitive_type }, _) => {
            primitive_misfit(extensions, *primitive_type, v)
        }
        (TypeKind::Set { element_type: None }, ValueKind::Set(_)) => None,
        (
            TypeKind::Set {
                element_type: Some(element),
            },
            ValueKind::Set(items),
        ) => misfit_in_set(extensions, element, items),
        (TypeKind::EntityOrRecord(kind), _) => kind_misfit(extensions, kind, v),
        (TypeKind::ExtensionType { name }, _) => extension_misfit(extensions, name, v),
        _ => Some(Misfit::Other),
    }
}

fn primitive_misfit(extensions: &ExtensionSchemas<'_>, p: Primitive, v: &Value) -> Option<Misfit>
    ensures { result ≡ misfit (knows extensions.now) (primitive p) v.now }
{
    let _functions = extensions;
    match (p, v.kind()) {
        (Primitive::Bool, ValueKind::Bool(_)) => None,
        (Primitive::Long, ValueKind::Long(_)) => None,
        (Primitive::String, ValueKind::String(_)) => None,
        _ => Some(Misfit::Other),
    }
}

fn extension_misfit(extensions: &ExtensionSchemas<'_>, name: &Name, v: &Value) -> Option<Misfit>
    ensures { result ≡ misfit (knows extensions.now) (extension name.now) v.now }
{
    match v.kind() {
        ValueKind::Decimal(_) => made_by(extensions, name, Constructor::Decimal, "decimal"),
        ValueKind::IpAddr(_) => made_by(extensions, name, Constructor::Ip, "ipaddr"),
        ValueKind::DateTime(_) => made_by(extensions, name, Constructor::Datetime, "datetime"),
        ValueKind::Duration(_) => made_by(extensions, name, Constructor::Duration, "duration"),
        _ => Some(Misfit::Other),
    }
}

// A value that this function makes and which is of the other type.
fn made_by(
    extensions: &ExtensionSchemas<'_>,
    name: &Name,
    function: Constructor,
    made: &str,
) -> Option<Misfit>
    ensures { result ≡ extension_misfit (knows extensions.now) name.now function made.now }
{
    if extensions.has_function(function.name()) {
        fits_if(is_named(name, made))
    } else {
        Some(Misfit::Lacks(function))
    }
}

fn is_named(name: &Name, text: &str) -> bool
    ensures { result ≡ is_eq (text_cmp name.now text.now) }
{
    name.as_str().cmp(text) == Ordering::Equal
}

fn is_type(ty: &EntityType, name: &EntityType) -> bool
    ensures { result ≡ is_eq (text_cmp ty.now name.now) }
{
    ty.cmp(name) == Ordering::Equal
}

#[cycle(walk)]
fn kind_misfit(extensions: &ExtensionSchemas<'_>, k: &EntityRecordKind, v: &Value) -> Option<Misfit>
    ensures { result ≡ misfit (knows extensions.now) (kind_of k.now) v.now }
{
    match (k, v.kind()) {
        (
            EntityRecordKind::Record {
                attrs,
                open_attributes,
            },
            ValueKind::Record(fields),
        ) => record_misfit(extensions, attrs, *open_attributes, fields),
        (EntityRecordKind::AnyEntity, ValueKind::EntityUID(_)) => None,
        (EntityRecordKind::Entity(lub), ValueKind::EntityUID(uid)) => {
            fits_if(lub.contains(&uid.entity_type))
        }
        (EntityRecordKind::ActionEntity { name, .. }, ValueKind::EntityUID(uid)) => {
            fits_if(is_type(&uid.entity_type, name))
        }
        _ => Some(Misfit::Other),
    }
}

#[cycle(walk)]
#[tactic(auto, using(type_relations::proofs::MemberSteps::size_in))]
fn misfit_in_set(extensions: &ExtensionSchemas<'_>, t: &Type, items: &Vec<Value>) -> Option<Misfit>
    ensures { result ≡ misfit_all (knows extensions.now) t.now (vals_of items.now.items) }
{
    for item in items {
        if let Some(found) = misfit_of(extensions, t, item) {
            return Some(found);
        }
    }
    None
}

/// What is wrong with the fields of a record, if anything: what comes first in the order of the keys, of a
/// field that is not declared or does not fit its type, and of a required key that has no field.
#[cycle(walk)]
pub(crate) fn record_misfit(
    extensions: &ExtensionSchemas<'_>,
    attrs: &Attributes,
    tag: OpenTag,
    fields: &BTreeMap<Text, Value>,
) -> Option<Misfit>
    ensures { result ≡ misfit (knows extensions.now) (record_of attrs.now tag)
        (rec (fields_of fields.now.entries)) }
{
    earlier(
        misfit_in_fields(extensions, attrs, tag, fields),
        first_missing(attrs, fields),
    )
}

fn earlier(found: Option<(&Text, Misfit)>, missing: Option<&Text>) -> Option<Misfit>
    ensures { result ≡ earlier (option_map at_key found.entry) (option_copied missing.entry) }
{
    match (found, missing) {
        (None, None) => None,
        (Some(found), None) => Some(found.1),
        (None, Some(_)) => Some(Misfit::Other),
        (Some(found), Some(missing)) => Some(first(found.0, found.1, missing)),
    }
}

// What is found under a key, where it comes before the missing key.
fn first(key: &Text, found: Misfit, missing: &Text) -> Misfit
    ensures { result ≡ first_of (text_cmp key.now missing.now) found }
{
    match key.cmp(missing) {
        Ordering::Less => found,
        _ => Misfit::Other,
    }
}

#[cycle(walk)]
fn misfit_in_fields<'a>(
    extensions: &ExtensionSchemas<'_>,
    attrs: &Attributes,
    tag: OpenTag,
    fields: &'a BTreeMap<Text, Value>,
) -> Option<(&'a Text, Misfit)>
    ensures { option_map at_key result ≡
        misfit_fields (knows extensions.now) tag attrs.now (fields_of fields.now.entries) }
{
    for (key, v) in fields.iter() {
        if let Some(found) = field_misfit(extensions, tag, attrs.get_attr(key), v) {
            return Some((key, found));
        }
    }
    None
}

#[cycle(walk)]
fn field_misfit(
    extensions: &ExtensionSchemas<'_>,
    tag: OpenTag,
    declared: Option<&AttributeType>,
    v: &Value,
) -> Option<Misfit>
    ensures { result ≡ misfit_field tag (option_copied declared.entry)
        (misfit (knows extensions.now) (type_of (option_copied declared.entry)) v.now) }
{
    match declared {
        None => fits_if(is_open(tag)),
        Some(a) => misfit_of(extensions, &a.attr_type, v),
    }
}

fn is_open(tag: OpenTag) -> bool
    ensures { result ≡ is_open tag }
{
    match tag {
        OpenTag::OpenAttributes => true,
        OpenTag::ClosedAttributes => false,
    }
}

/// The first required key without a field, if any.
pub(crate) fn first_missing<'a>(
    attrs: &'a Attributes,
    fields: &BTreeMap<Text, Value>,
) -> Option<&'a Text>
    ensures { option_copied result ≡ first_missing attrs.now (fields_of fields.now.entries) }
{
    for (key, declared) in attrs.entries().iter() {
        if declared.is_required && !has_field(fields, key) {
            return Some(key);
        }
    }
    None
}

#[tactic(auto, using(type_relations::proofs::MemberSteps::lookup_field))]
fn has_field(fields: &BTreeMap<Text, Value>, key: &Text) -> bool
    ensures { result ≡ has_field (fields_of fields.now.entries) key.now }
{
    fields.contains_key(key)
}
