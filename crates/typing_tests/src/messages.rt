//! How findings read that no document has. The texts come from the rules in docs/FORMAT.md.

use crate::lines::{Answers, assert_same, entity_type, failures};
use finding_messages::Diagnostic;
use findings::{
    AttributeAccess, IncompatibleTypes, ListOf, LubContext, NoTagsAllowed, UnsafeAttributeAccess,
    UnsafeOptionalAttributeAccess, UnsafeTagAccess, ValidationError,
};
use policy_values::{EntityType, Text};
use schema_core::{EntityLUB, LubHelp, Type};
use std::alloc::{AllocError, Global};

fn policy(alloc: Global) -> Result<Text, AllocError> {
    Text::from_str(alloc, "p")
}

fn a_b(alloc: Global) -> Result<ListOf<Text>, AllocError> {
    let mut texts = Vec::new(alloc);
    texts.push(Text::from_str(alloc, "a")?)?;
    texts.push(Text::from_str(alloc, "b")?)?;
    Ok(ListOf::new(texts))
}

// Groups and users.
fn two_types(alloc: Global) -> Result<EntityLUB, AllocError> {
    let groups = EntityLUB::single_entity(alloc, entity_type(alloc, "Group")?)?;
    let users = EntityLUB::single_entity(alloc, entity_type(alloc, "User")?)?;
    groups.least_upper_bound(alloc, &users)
}

fn of_two_types(alloc: Global) -> Result<AttributeAccess, AllocError> {
    let types = two_types(alloc)?;
    Ok(AttributeAccess::EntityLUB(types, a_b(alloc)?))
}

fn no_tags(alloc: Global, entity_ty: Option<EntityType>) -> Result<ValidationError, AllocError> {
    Ok(ValidationError::NoTagsAllowed(NoTagsAllowed {
        source_loc: None,
        policy_id: policy(alloc)?,
        entity_ty,
    }))
}

fn undeclared(
    alloc: Global,
    attribute_access: AttributeAccess,
    may_exist: bool,
) -> Result<ValidationError, AllocError> {
    Ok(ValidationError::UnsafeAttributeAccess(UnsafeAttributeAccess {
        source_loc: None,
        policy_id: policy(alloc)?,
        attribute_access,
        may_exist,
    }))
}

fn optional(
    alloc: Global,
    attribute_access: AttributeAccess,
) -> Result<ValidationError, AllocError> {
    Ok(ValidationError::UnsafeOptionalAttributeAccess(UnsafeOptionalAttributeAccess {
        source_loc: None,
        policy_id: policy(alloc)?,
        attribute_access,
    }))
}

fn unsafe_tag(alloc: Global, types: EntityLUB) -> Result<ValidationError, AllocError> {
    let tag = Text::from_str(alloc, "\"t\"")?;
    Ok(ValidationError::UnsafeTagAccess(UnsafeTagAccess {
        source_loc: None,
        policy_id: policy(alloc)?,
        entity_ty: Some(types),
        tag,
    }))
}

fn incompatible(alloc: Global) -> Result<ValidationError, AllocError> {
    let mut types = Vec::new(alloc);
    types.push(Type::primitive_long())?;
    types.push(Type::primitive_string())?;
    Ok(ValidationError::IncompatibleTypes(IncompatibleTypes {
        source_loc: None,
        policy_id: policy(alloc)?,
        types: ListOf::new(types),
        hint: LubHelp::AttributeQualifier,
        context: LubContext::GetTag,
    }))
}

// The finding that words stand for.
fn finding(alloc: Global, words: &str) -> Result<ValidationError, AllocError> {
    match words {
        "no tags of users" => no_tags(alloc, Some(entity_type(alloc, "User")?)),
        "no tags" => no_tags(alloc, None),
        "may be there" => undeclared(alloc, AttributeAccess::Other(a_b(alloc)?), true),
        "of two types" => undeclared(alloc, of_two_types(alloc)?, false),
        "optional, of two types" => optional(alloc, of_two_types(alloc)?),
        "tag of two types" => unsafe_tag(alloc, two_types(alloc)?),
        _ => incompatible(alloc),
    }
}

// What a finding says, and its help behind a bar.
struct Messages;

impl Answers for Messages {
    fn answer(alloc: Global, asked: &str) -> Result<String, AllocError> {
        let finding = finding(alloc, asked)?;
        let message = finding.message(alloc)?;
        match finding.help(alloc)? {
            Some(help) => format!(in alloc; "{message}|{help}"),
            None => format!(in alloc; "{message}"),
        }
    }
}

const ROWS: &str =
    r#"no tags of users => for policy `p`, `.getTag()` is not allowed on entities of type `User` because no `tags` were declared on the entity type in the schema
no tags => for policy `p`, `.getTag()` is not allowed on entities of this type because no `tags` were declared on the entity type in the schema
may be there => for policy `p`, attribute `a.b` not found|there may be additional attributes that the validator is not able to reason about
of two types => for policy `p`, attribute `a.b` on entity types `Group`, `User` not found
optional, of two types => for policy `p`, unable to guarantee safety of access to optional attribute `a.b` on entity types `Group`, `User`|try testing for the attribute's presence with `e.a has b && ..`
tag of two types => for policy `p`, unable to guarantee safety of access to tag `"t"`|try testing for the tag's presence with `.hasTag("t") && ..`
tags of different types => the types Long and String are not compatible|for policy `p`, tag types for a `.getTag()` operation must have compatible types. Corresponding attributes of compatible record types must have the same optionality, either both being required or both being optional"#;

#[test]
fn findings_that_no_document_has(rt: HostRuntime) -> Result<(), AllocError> {
    let failures = failures::<Messages>(rt.alloc(), ROWS)?;
    assert_same(&rt, failures.as_str(), "");
    Ok(())
}
