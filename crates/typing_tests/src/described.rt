//! What schemas say of types and actions, and what typing an expression comes to.

use crate::lines::{Answers, assert_same, document_of, entity_type, failures, uid};
use policy_expressions::{Expr, Literal};
use policy_typecheck::TypecheckAnswer;
use policy_types::{all_attributes, all_known_attrs};
use policy_validate::traits::{ContextSchema as _, EntityTypeDescription as _, Schema as _};
use policy_validate::{CoreSchema, EntityTypeDescription, context_schema_for_action};
use policy_values::Text;
use schema_core::{SchemaType, SchemaTypeKind, Type, TypeKind, ValidatorSchema};
use std::alloc::{AllocError, Global};

const SCHEMA: &str =
    r#"{"schema":{"entityTypes":{"A::Group":{},"Color":{"enum":["red","blue"]},"Photo":{},"User":{"memberOf":["A::Group"],"attributes":{"n":"Long","o":{"optional":"String"}},"tags":"Long"}},"actions":[{"id":["Action","view"],"principals":["User"],"resources":["Photo"],"context":{"n":"Long"}}]}}"#;

// What is said of a type: its listed ids, its required attributes, whether `o` is an attribute, whether it
// has tags, whether it may have other attributes, and the types above it.
struct Descriptions;

impl Answers for Descriptions {
    fn answer(alloc: Global, asked: &str) -> Result<String, AllocError> {
        let document = document_of(alloc, SCHEMA)?;
        let core = CoreSchema::new(&document.schema);
        match core.entity_type(alloc, &entity_type(alloc, asked)?)? {
            Some(found) => description(alloc, &found),
            None => String::from_str(alloc, "not declared"),
        }
    }
}

fn description(alloc: Global, found: &EntityTypeDescription) -> Result<String, AllocError> {
    let mut text = String::new(alloc);
    add_eids(found, &mut text)?;
    for attribute in found.required_attrs(alloc)? {
        write!(text, "{attribute} ")?;
    }
    add_rest(alloc, found, &mut text)?;
    Ok(text)
}

fn add_eids(found: &EntityTypeDescription, text: &mut String) -> Result<(), AllocError> {
    if let Some(eids) = found.enum_entity_eids() {
        for eid in eids {
            write!(text, "{} ", eid.as_str())?;
        }
    }
    Ok(())
}

fn add_rest(
    alloc: Global,
    found: &EntityTypeDescription,
    text: &mut String,
) -> Result<(), AllocError> {
    let has_o = found.attr_type(&Text::from_str(alloc, "o")?).is_some();
    let has_tags = found.tag_type().is_some();
    write!(text, "{has_o} {has_tags} {}", found.open_attributes())?;
    for above in found.allowed_parent_types() {
        write!(text, " in {above}")?;
    }
    Ok(())
}

#[test]
fn types_are_described(rt: HostRuntime) -> Result<(), AllocError> {
    let table = "User => n true true false in A::Group
Color => red blue false false false
A::Group => false false false
Group => not declared";
    let failures = failures::<Descriptions>(rt.alloc(), table)?;
    assert_same(&rt, failures.as_str(), "");
    Ok(())
}

// The actions, the types that end with `Group`, and whether there is an action of each of two names.
fn names_in(alloc: Global, core: &CoreSchema) -> Result<String, AllocError> {
    let mut text = String::new(alloc);
    for entity in core.action_entities(alloc)? {
        write!(text, "{} ", entity.uid())?;
    }
    for name in core.entity_types_with_basename(alloc, "Group")? {
        write!(text, "{name} ")?;
    }
    add_action(alloc, core, "view", &mut text)?;
    add_action(alloc, core, "gone", &mut text)?;
    Ok(text)
}

fn add_action(
    alloc: Global,
    core: &CoreSchema,
    eid: &str,
    text: &mut String,
) -> Result<(), AllocError> {
    let found = core.action(alloc, &uid(alloc, "Action", eid)?)?;
    write!(text, "{} ", found.is_some())
}

// What the contexts of the action with this name are.
fn context_of(
    alloc: Global,
    schema: &ValidatorSchema,
    eid: &str,
) -> Result<&'static str, AllocError> {
    match context_schema_for_action(schema, &uid(alloc, "Action", eid)?) {
        Some(context) => kind_of(&context.context_type(alloc)?),
        None => Ok("none"),
    }
}

fn kind_of(ty: &SchemaType) -> Result<&'static str, AllocError> {
    match ty.kind() {
        SchemaTypeKind::Record { .. } => Ok("a record"),
        _ => Ok("no record"),
    }
}

#[test]
fn actions_are_described(rt: HostRuntime) -> Result<(), AllocError> {
    let document = document_of(rt.alloc(), SCHEMA)?;
    let names = names_in(rt.alloc(), &CoreSchema::new(&document.schema))?;
    assert_same(&rt, names.as_str(), "Action::\"view\" A::Group true false ");
    assert_same(
        &rt,
        context_of(rt.alloc(), &document.schema, "view")?,
        "a record",
    );
    assert_same(
        &rt,
        context_of(rt.alloc(), &document.schema, "gone")?,
        "none",
    );
    Ok(())
}

// The attributes of an entity type, with a space behind each, and then those that are known of it.
struct AttributeNames;

impl Answers for AttributeNames {
    fn answer(alloc: Global, asked: &str) -> Result<String, AllocError> {
        let document = document_of(alloc, SCHEMA)?;
        let of = Type::named_entity_reference(alloc, entity_type(alloc, asked)?)?;
        let mut text = String::new(alloc);
        add_attributes(alloc, &document.schema, &of, &mut text)?;
        Ok(text)
    }
}

fn add_attributes(
    alloc: Global,
    schema: &ValidatorSchema,
    of: &Type,
    text: &mut String,
) -> Result<(), AllocError> {
    for name in all_attributes(alloc, schema, of)? {
        write!(text, "{name} ")?;
    }
    if let TypeKind::EntityOrRecord(kind) = of.kind() {
        for name in all_known_attrs(alloc, schema, kind)? {
            write!(text, "{name} ")?;
        }
    }
    Ok(())
}

#[test]
fn attributes_are_listed(rt: HostRuntime) -> Result<(), AllocError> {
    let failures = failures::<AttributeNames>(
        rt.alloc(),
        "User => n o n o \nPhoto => \nColor => ",
    )?;
    assert_same(&rt, failures.as_str(), "");
    Ok(())
}

// What an answer says: whether the expression has a type, and whether that is a Long, or a String.
fn add_answer(answer: &TypecheckAnswer<'_>, text: &mut String) -> Result<(), AllocError> {
    let is_long = answer.contains_type(&Type::primitive_long());
    let is_string = answer.contains_type(&Type::primitive_string());
    write!(text, "{} {is_long} {is_string}|", answer.typechecked())
}

// A success, the failure that is made of it, and whether its expression keeps its type.
fn answer_texts(alloc: Global) -> Result<String, AllocError> {
    let mut text = String::new(alloc);
    let one = Expr::lit(Literal::Long(1), Some(Type::primitive_long()), None);
    let success = TypecheckAnswer::success(alloc, one);
    add_answer(&success, &mut text)?;
    let failure = success.into_fail();
    add_answer(&failure, &mut text)?;
    let kept = failure.into_typed_expr();
    write!(text, "{}", kept.data().is_some())?;
    Ok(text)
}

#[test]
fn failures_keep_their_expression(rt: HostRuntime) -> Result<(), AllocError> {
    let text = answer_texts(rt.alloc())?;
    assert_same(&rt, text.as_str(), "true true false|false true false|true");
    Ok(())
}
