//! The pieces of messages and helps.

ghost use Rattle.std.specs.Prelude.{◌≡◌, ◌++◌, IfOk, OnOk, Some, string_bytes, codes};
ghost use Rattle.std.specs.List.{join_by};
ghost use Rattle.schema_types.specs.TyText.{ty_text};
ghost use Rattle.findings.specs.Texts.{for_policy, string_text, in_a_row, all_of, hint_text, if_one_type_text, type_or_this};

use policy_values::{Eid, EntityType, Quoted, Text};
use schema_types::{EntityLUB, LubHelp, Type};
use std::alloc::{AllocError, Global};
use std::fmt;
use std::fmt::Write;

/// The text, behind the policy.
pub fn for_policy(alloc: Global, policy: &Text, text: &str) -> Result<Text, AllocError>
    ensures { IfOk result (λ t. t ≡ for_policy policy.now text.now) }
{
    let text = format!(in alloc; "for policy `{policy}`, {text}")?;
    Text::from_string(text)
}

/// The types, with the separator between two.
pub fn separated(alloc: Global, by: &str, types: &[Type]) -> Result<String, AllocError>
    ensures { IfOk result (λ text. string_bytes text ≡ join_by ty_text by.now types.now) }
{
    let mut text = String::new(alloc);
    let mut rest = types.iter();
    if let Some(first) = rest.next() {
        write!(text, "{first}")?;
        for t in rest {
            add_behind(&mut text, by, t)?;
        }
    }
    Ok(text)
}

// Adds a type behind the separator.
fn add_behind(text: &mut String, by: &str, t: &Type) -> Result<(), AllocError>
    ensures { OnOk result (string_bytes text.new ≡ string_bytes text.old ++ (by.now ++ ty_text t.now)) }
{
    write!(text, "{by}{t}")?;
    Ok(())
}

/// The types, in the words of a sentence.
pub fn all_of(alloc: Global, types: &[Type]) -> Result<String, AllocError>
    ensures { IfOk result (λ text. string_bytes text ≡ all_of types.now) }
{
    match types {
        [] => Ok(String::new(alloc)),
        [t] => one(alloc, t),
        [t, u] => both(alloc, t, u),
        _ => in_a_row(alloc, types),
    }
}

fn one(alloc: Global, t: &Type) -> Result<String, AllocError>
    ensures { IfOk result (λ text. string_bytes text ≡ ty_text t.now) }
{
    let text = format!(in alloc; "{t}")?;
    Ok(text)
}

fn both(alloc: Global, t: &Type, u: &Type) -> Result<String, AllocError>
    ensures { IfOk result (λ text. string_bytes text ≡ ty_text t.now ++ (codes " and " ++ ty_text u.now)) }
{
    let text = format!(in alloc; "{t} and {u}")?;
    Ok(text)
}

// Three types or more, with a comma between two, and a word before the last.
fn in_a_row(alloc: Global, types: &[Type]) -> Result<String, AllocError>
    ensures { IfOk result (λ text. string_bytes text ≡ in_a_row types.now) }
{
    let mut text = String::new(alloc);
    let mut rest = types.iter();
    if let Some(first) = rest.next() {
        let mut last = first;
        for t in rest {
            add_in_prefix(&mut text, last)?;
            last = t;
        }
        add_last(&mut text, last)?;
    }
    Ok(text)
}

// Adds a type before others.
fn add_in_prefix(text: &mut String, t: &Type) -> Result<(), AllocError>
    ensures { OnOk result (string_bytes text.new ≡ string_bytes text.old ++ (ty_text t.now ++ codes ", ")) }
{
    write!(text, "{t}, ")?;
    Ok(())
}

// Adds the last type.
fn add_last(text: &mut String, t: &Type) -> Result<(), AllocError>
    ensures { OnOk result (string_bytes text.new ≡ string_bytes text.old ++ (codes "and " ++ ty_text t.now)) }
{
    write!(text, "and {t}")?;
    Ok(())
}

/// Why types are not compatible.
pub fn lub_hint(hint: LubHelp) -> &'static str
    ensures { result.now ≡ hint_text hint }
{
    match hint {
        LubHelp::AttributeQualifier => {
            "Corresponding attributes of compatible record types must have the same optionality, either both being required or both being optional"
        }
        LubHelp::RecordWidth => "Compatible record types must have exactly the same attributes",
        LubHelp::EntityType => {
            "Different entity types are never compatible even when their attributes would be compatible"
        }
        LubHelp::EntityRecord => {
            "Entity and record types are never compatible even when their attributes would be compatible"
        }
        LubHelp::None => "Types must be exactly equal to be compatible",
    }
}

/// Of which type something is, where it is known to be one alone.
pub fn if_one_type(alloc: Global, types: &Option<EntityLUB>) -> Result<String, AllocError>
    ensures { IfOk result (λ text. string_bytes text ≡ if_one_type_text types.now) }
{
    match types {
        Some(types) => match types.get_single_entity() {
            Some(ty) => {
                let text = format!(in alloc; " on entity type `{ty}`")?;
                Ok(text)
            }
            None => Ok(String::new(alloc)),
        },
        None => Ok(String::new(alloc)),
    }
}

/// The type, or the one that is meant.
pub fn type_or_this(alloc: Global, ty: &Option<EntityType>) -> Result<String, AllocError>
    ensures { IfOk result (λ text. string_bytes text ≡ type_or_this ty.now) }
{
    match ty {
        Some(ty) => {
            let text = format!(in alloc; "type `{ty}`")?;
            Ok(text)
        }
        None => String::from_str(alloc, "this type"),
    }
}

/// A text as a string literal.
#[derive(Clone, Copy)]
pub struct StringLiteral<'a>(pub &'a Text);

impl fmt::Display for StringLiteral<'_> {
    ghost output = { λ text. Some (string_text text.0.now) };

    fn fmt<W: fmt::Write>(&self, f: &mut fmt::Formatter<W>) -> fmt::Result {
        let text = Quoted(self.0);
        write!(f, "\"{text}\"")
    }
}

/// The ids as string literals, with a comma between two.
pub fn listed(alloc: Global, ids: &[Eid]) -> Result<String, AllocError>
    ensures { IfOk result (λ text. string_bytes text ≡ join_by string_text (codes ", ") ids.now) }
{
    let mut text = String::new(alloc);
    let mut rest = ids.iter();
    if let Some(first) = rest.next() {
        add_id(&mut text, "", first)?;
        for id in rest {
            add_id(&mut text, ", ", id)?;
        }
    }
    Ok(text)
}

// Adds an id as a string literal behind a text.
fn add_id(text: &mut String, prefix: &str, id: &Eid) -> Result<(), AllocError>
    ensures { OnOk result
        (string_bytes text.new ≡ string_bytes text.old ++ (prefix.now ++ string_text id.now)) }
{
    let literal = StringLiteral(id.as_text());
    write!(text, "{prefix}{literal}")?;
    Ok(())
}
