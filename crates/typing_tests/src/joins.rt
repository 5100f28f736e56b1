//! The least type above two types, strict and permissive, subtypes, and types that no schema can say.

use crate::lines::{Answers, assert_same, entity_type, failures};
use policy_types::{LubError, SubtypeMode, is_subtype, least_upper_bound};
use policy_values::Text;
use schema_core::{AttributeType, OpenTag, Type, to_schema_type};
use std::alloc::{AllocError, Global};
use std::collections::BTreeMap;

// A closed record of one attribute, which is a Long.
fn record_type(alloc: Global, name: &str, is_required: bool) -> Result<Type, AllocError> {
    let attribute = AttributeType::new(Type::primitive_long(), is_required);
    let mut attributes = BTreeMap::new(alloc);
    attributes.insert(Text::from_str(alloc, name)?, attribute)?;
    Type::record_with_attributes(alloc, attributes, OpenTag::ClosedAttributes)
}

// The type that a word of a line stands for.
fn type_of(alloc: Global, word: &str) -> Result<Type, AllocError> {
    match word {
        "{a}" => record_type(alloc, "a", true),
        "{a?}" => record_type(alloc, "a", false),
        "{b}" => record_type(alloc, "b", true),
        "Long" => Ok(Type::primitive_long()),
        "String" => Ok(Type::primitive_string()),
        "Bool" => Ok(Type::primitive_boolean()),
        "True" => Ok(Type::singleton_boolean(true)),
        "False" => Ok(Type::singleton_boolean(false)),
        "[]" => Ok(Type::any_set()),
        "[Long]" => Type::set(alloc, Type::primitive_long()),
        "Never" => Ok(Type::never()),
        _ => Type::named_entity_reference(alloc, entity_type(alloc, word)?),
    }
}

// Two words as types, and what is asked of the two.
fn answer_of(alloc: Global, words: &str, asked: &str) -> Result<String, AllocError> {
    let (one, other) = words.split_once(" ").unwrap_or((words, ""));
    let one = type_of(alloc, one)?;
    let other = type_of(alloc, other)?;
    match asked {
        "strict" => joined(alloc, &one, &other, SubtypeMode::Strict),
        "permissive" => joined(alloc, &one, &other, SubtypeMode::Permissive),
        _ => format!(in alloc; "{}", is_subtype(&one, &other, SubtypeMode::Strict)),
    }
}

// The least type above the two, or the help that there is none.
fn joined(
    alloc: Global,
    one: &Type,
    other: &Type,
    mode: SubtypeMode,
) -> Result<String, AllocError> {
    match least_upper_bound(alloc, one, other, mode) {
        Ok(join) => format!(in alloc; "{join}"),
        Err(LubError::Help(help)) => format!(in alloc; "{help:?}"),
        Err(LubError::OutOfMemory) => Err(AllocError),
    }
}

// What two types come to: their join in a mode, or whether the first is a subtype.
struct Pairs;

impl Answers for Pairs {
    fn answer(alloc: Global, asked: &str) -> Result<String, AllocError> {
        let (mode, words) = asked.split_once(" ").unwrap_or((asked, ""));
        answer_of(alloc, words, mode)
    }
}

const ROWS: &str = "strict {a} {a?} => AttributeQualifier
strict {a} {b} => RecordWidth
strict {a} User => EntityRecord
strict User Photo => EntityType
strict Long String => None
permissive {a} {b} => __cedar::internal::OpenRecord{}
permissive User Photo => __cedar::internal::Union<Photo, User>
strict True False => Bool
strict [] [Long] => Set<__cedar::internal::Any>
below True Bool => true
below Bool True => false";

#[test]
fn types_are_joined(rt: HostRuntime) -> Result<(), AllocError> {
    let failures = failures::<Pairs>(rt.alloc(), ROWS)?;
    assert_same(&rt, failures.as_str(), "");
    Ok(())
}

// The type as a schema says it.
struct SchemaTypes;

impl Answers for SchemaTypes {
    fn answer(alloc: Global, asked: &str) -> Result<String, AllocError> {
        let found = to_schema_type(alloc, &type_of(alloc, asked)?);
        String::from_str(alloc, if found.is_ok() { "a type" } else { "none" })
    }
}

#[test]
fn a_type_without_values_is_no_schema_type(rt: HostRuntime) -> Result<(), AllocError> {
    let failures = failures::<SchemaTypes>(rt.alloc(), "Never => none\nLong => a type")?;
    assert_same(&rt, failures.as_str(), "");
    Ok(())
}
