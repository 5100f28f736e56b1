//! Types and attributes in JSON.

ghost use Rattle.std.specs.Prelude.{◌≡◌, ◌∷◌, [], IfOk, Some, option_map};
ghost use Rattle.policy_values.specs.Name.{IsName};
ghost use Rattle.schema_types.specs.Ty.{set_of, record_of, entity, extension};
ghost use Rattle.schema_types.specs.TyView.{attrs_of};
ghost use Rattle.schema_types.specs.declared.kinds.OpenTag.TheVariants.{ClosedAttributes};
ghost use Rattle.serde_json.specs.View.{view, members_view};
ghost use Rattle.json_values.specs.Names.{name_of};
ghost use Rattle.json_schema.specs.Types.{type_named, type_form, type_of, type_of_members, attributes_of, attributes_of_members, attribute, optional, attribute_form, attribute_of, attribute_of_members};

use json_values::{read_name, with_field};
use policy_values::{Name, Text};
use schema_types::{AttributeType, Attributes, OpenTag, Type};
use serde_json::{Map, Value};
use std::alloc::{AllocError, Global};
use std::collections::BTreeMap;

fn read_extension(alloc: Global, text: &str) -> Result<Option<Type>, AllocError>
    requires { IsName text.now }
    ensures { IfOk result (λ o. o ≡ Some (extension text.now)) }
{
    match Name::parse(alloc, text)? {
        Some(name) => Ok(Some(Type::extension(name))),
        None => Ok(None),
    }
}

fn read_named(alloc: Global, text: &str) -> Result<Option<Type>, AllocError>
    ensures { IfOk result (λ o. o ≡ type_named text.now) }
{
    match text {
        "Bool" => Ok(Some(Type::primitive_boolean())),
        "Long" => Ok(Some(Type::primitive_long())),
        "String" => Ok(Some(Type::primitive_string())),
        "decimal" | "ipaddr" | "datetime" | "duration" => read_extension(alloc, text),
        _ => Ok(None),
    }
}

fn read_entity(alloc: Global, value: &Value) -> Result<Option<Type>, AllocError>
    ensures { IfOk result (λ o. o ≡ option_map (λ n. entity (n ∷ [])) (name_of (view value.now))) }
{
    match read_name(alloc, value)? {
        Some(name) => Ok(Some(Type::named_entity_reference(alloc, name)?)),
        None => Ok(None),
    }
}

/// The type that a JSON value says, where it says one: `"Bool"`, `"Long"`, `"String"`, `"decimal"`,
/// `"ipaddr"`, `"datetime"`, `"duration"`, `{"set":TYPE}`, `{"entity":NAME}` or `{"record":ATTRIBUTES}`.
#[cycle(types)]
pub fn read_type(alloc: Global, value: &Value) -> Result<Option<Type>, AllocError>
    ensures { IfOk result (λ o. o ≡ type_of (view value.now)) }
{
    match value {
        Value::String(text) => read_named(alloc, text.as_str()),
        Value::Object(members) => read_type_members(alloc, members),
        _ => Ok(None),
    }
}

#[cycle(types)]
fn read_type_members(
    alloc: Global,
    members: &Map<String, Value>,
) -> Result<Option<Type>, AllocError>
    ensures { IfOk result (λ o. o ≡ type_of_members (members_view members.now.entries)) }
{
    let mut rest = members.iter();
    let Some((key, value)) = rest.next() else {
        return Ok(None);
    };
    if rest.next().is_some() {
        return Ok(None);
    }
    read_type_form(alloc, value, key.as_str())
}

#[cycle(types)]
fn read_type_form(alloc: Global, value: &Value, key: &str) -> Result<Option<Type>, AllocError>
    ensures { IfOk result (λ o. o ≡
        type_form key.now (view value.now) (type_of (view value.now))
        (attributes_of (view value.now))) }
{
    match key {
        "set" => read_set(alloc, value),
        "entity" => read_entity(alloc, value),
        "record" => read_record(alloc, value),
        _ => Ok(None),
    }
}

#[cycle(types)]
fn read_set(alloc: Global, value: &Value) -> Result<Option<Type>, AllocError>
    ensures { IfOk result (λ o. o ≡ option_map set_of (type_of (view value.now))) }
{
    match read_type(alloc, value)? {
        Some(element) => Ok(Some(Type::set(alloc, element)?)),
        None => Ok(None),
    }
}

#[cycle(types)]
fn read_record(alloc: Global, value: &Value) -> Result<Option<Type>, AllocError>
    ensures { IfOk result (λ o. o ≡
        option_map (λ es. record_of (attrs_of es) ClosedAttributes)
        (attributes_of (view value.now))) }
{
    match read_attributes(alloc, value)? {
        Some(attrs) => Ok(Some(Type::record(attrs, OpenTag::ClosedAttributes))),
        None => Ok(None),
    }
}

/// The attributes that a JSON value says, where it says some: an object whose members say the attributes that
/// have their names. A type says a required attribute, `{"optional":TYPE}` one that is not.
#[cycle(types)]
pub fn read_attributes(alloc: Global, value: &Value) -> Result<Option<Attributes>, AllocError>
    ensures { IfOk result (λ o. o ≡ option_map attrs_of (attributes_of (view value.now))) }
{
    let Value::Object(members) = value else {
        return Ok(None);
    };
    match read_entries(alloc, members)? {
        Some(entries) => Ok(Some(Attributes::with_attributes(alloc, entries)?)),
        None => Ok(None),
    }
}

#[cycle(types)]
fn read_entries(
    alloc: Global,
    members: &Map<String, Value>,
) -> Result<Option<BTreeMap<Text, AttributeType>>, AllocError>
    ensures { IfOk result (λ o. option_map (λ es. es.entries) o ≡
        attributes_of_members (members_view members.now.entries)) }
{
    let mut entries = BTreeMap::new(alloc);
    for (key, member) in members.iter() {
        let Ok(next) = read_attribute(alloc, member) else {
            drop(entries);
            return Err(AllocError);
        };
        let Some(next) = next else {
            drop(entries);
            return Ok(None);
        };
        entries = with_field(alloc, entries, key.as_str(), next)?;
    }
    Ok(Some(entries))
}

fn required(attr_type: Option<Type>) -> Option<AttributeType>
    ensures { result ≡ option_map attribute attr_type }
{
    match attr_type {
        Some(attr_type) => Some(AttributeType::required_attribute(attr_type)),
        None => None,
    }
}

fn optional(attr_type: Option<Type>) -> Option<AttributeType>
    ensures { result ≡ option_map optional attr_type }
{
    match attr_type {
        Some(attr_type) => Some(AttributeType::optional_attribute(attr_type)),
        None => None,
    }
}

#[cycle(types)]
fn read_attribute(alloc: Global, value: &Value) -> Result<Option<AttributeType>, AllocError>
    ensures { IfOk result (λ o. o ≡ attribute_of (view value.now)) }
{
    match value {
        Value::String(text) => {
            let attr_type = read_named(alloc, text.as_str())?;
            Ok(required(attr_type))
        }
        Value::Object(members) => read_attribute_members(alloc, members),
        _ => Ok(None),
    }
}

#[cycle(types)]
fn read_attribute_members(
    alloc: Global,
    members: &Map<String, Value>,
) -> Result<Option<AttributeType>, AllocError>
    ensures { IfOk result (λ o. o ≡ attribute_of_members (members_view members.now.entries)) }
{
    let mut rest = members.iter();
    let Some((key, value)) = rest.next() else {
        return Ok(None);
    };
    if rest.next().is_some() {
        return Ok(None);
    }
    read_attribute_form(alloc, value, key.as_str())
}

#[cycle(types)]
fn read_attribute_form(
    alloc: Global,
    value: &Value,
    key: &str,
) -> Result<Option<AttributeType>, AllocError>
    ensures { IfOk result (λ o. o ≡
        attribute_form key.now (type_of (view value.now))
        (type_form key.now (view value.now) (type_of (view value.now))
        (attributes_of (view value.now)))) }
{
    if key == "optional" {
        let attr_type = read_type(alloc, value)?;
        Ok(optional(attr_type))
    } else {
        let attr_type = read_type_form(alloc, value, key)?;
        Ok(required(attr_type))
    }
}
