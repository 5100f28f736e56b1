//! How the parts of findings read.

ghost use Rattle.std.specs.Prelude.{◌≡◌, ◌++◌, Some, codes};
ghost use Rattle.std.specs.Fmt.{WritesOnOk};
ghost use Rattle.std.specs.List.{join_by};
ghost use Rattle.findings.specs.Errors as errors;
ghost use Rattle.findings.specs.Texts.{help_text, context_text, violation_text, quoted, path_text, entity_types_text, access_text};

use crate::{
    AttributeAccess, EntityDerefViolationKind, ListOf, LubContext, UnexpectedTypeHelp,
    UnrecognizedActionIdHelp,
};
use policy_values::{EntityType, Text};
use schema_types::EntityLUB;
use std::fmt;
use std::fmt::Display;

impl UnexpectedTypeHelp {
    /// What may help.
    pub fn text(self) -> &'static str
        ensures { result.now ≡ help_text self }
    {
        match self {
            UnexpectedTypeHelp::TryUsingLike => {
                "try using `like` to examine the contents of a string"
            }
            UnexpectedTypeHelp::TryUsingContains => {
                "try using `contains`, `containsAny`, or `containsAll` to examine the contents of a set"
            }
            UnexpectedTypeHelp::TryUsingSingleContains => {
                "try using `contains` to test if a single element is in a set"
            }
            UnexpectedTypeHelp::TryUsingHas => "try using `has` to test for an attribute",
            UnexpectedTypeHelp::TryUsingIs => "try using `is` to test for an entity type",
            UnexpectedTypeHelp::TryUsingIn => "try using `in` for entity hierarchy membership",
            UnexpectedTypeHelp::TryUsingEqEmptyString => {
                "try using `== \"\"` to test if a string is empty"
            }
            UnexpectedTypeHelp::TypeTestNotSupported => {
                "Cedar only supports run time type tests for entities"
            }
            UnexpectedTypeHelp::ConcatenationNotSupported => {
                "Cedar does not support string concatenation"
            }
            UnexpectedTypeHelp::SetOperationsNotSupported => {
                "Cedar does not support computing the union, intersection, or difference of sets"
            }
        }
    }
}

impl fmt::Display for UnexpectedTypeHelp {
    ghost output = { λ help. Some (help_text help) };

    fn fmt<W: fmt::Write>(&self, f: &mut fmt::Formatter<W>) -> fmt::Result {
        f.write_str(self.text())
    }
}

impl LubContext {
    /// What has to be compatible.
    pub fn text(self) -> &'static str
        ensures { result.now ≡ context_text self }
    {
        match self {
            LubContext::Set => "elements of a set",
            LubContext::Conditional => "both branches of a conditional",
            LubContext::Equality => "both operands to a `==` expression",
            LubContext::Contains => {
                "elements of the first operand and the second operand to a `contains` expression"
            }
            LubContext::ContainsAnyAll => {
                "elements of both set operands to a `containsAll` or `containsAny` expression"
            }
            LubContext::GetTag => "tag types for a `.getTag()` operation",
        }
    }
}

impl fmt::Display for LubContext {
    ghost output = { λ context. Some (context_text context) };

    fn fmt<W: fmt::Write>(&self, f: &mut fmt::Formatter<W>) -> fmt::Result {
        f.write_str(self.text())
    }
}

impl fmt::Display for UnrecognizedActionIdHelp {
    ghost output = { λ hint. Some (errors.hint_text hint) };

    fn fmt<W: fmt::Write>(&self, f: &mut fmt::Formatter<W>) -> fmt::Result {
        let UnrecognizedActionIdHelp::AvoidActionTypeInActionId(uid) = self;
        write!(f, "did you intend to include the type in action `{uid}`?")
    }
}

impl fmt::Display for EntityDerefViolationKind {
    ghost output = { λ kind. Some (violation_text kind) };

    fn fmt<W: fmt::Write>(&self, f: &mut fmt::Formatter<W>) -> fmt::Result {
        match self {
            EntityDerefViolationKind::MaximumLevelExceeded {
                allowed_level,
                actual_level,
            } => write!(
                f,
                "this policy requires level {actual_level}, which exceeds the maximum allowed level ({allowed_level})"
            ),
            EntityDerefViolationKind::LiteralDerefTarget => {
                f.write_str("entity literals cannot be dereferenced at any level")
            }
        }
    }
}

impl fmt::Display for AttributeAccess {
    ghost output = { λ access. Some (access_text access) };

    fn fmt<W: fmt::Write>(&self, f: &mut fmt::Formatter<W>) -> fmt::Result {
        match self {
            AttributeAccess::EntityLUB(types, attrs) => {
                show_path(attrs, f)?;
                show_entity_types(types, f)
            }
            AttributeAccess::Context(action, attrs) => {
                show_path(attrs, f)?;
                f.write_str(" in context for ")?;
                action.fmt(f)
            }
            AttributeAccess::Other(attrs) => show_path(attrs, f),
        }
    }
}

// The attributes with a dot between two, in quotes.
fn show_path<W: fmt::Write>(attrs: &ListOf<Text>, f: &mut fmt::Formatter<W>) -> fmt::Result
    ensures { WritesOnOk W.write_str_gives f.old result (quoted (path_text attrs.now)) f.new }
{
    f.write_str("`")?;
    show_attributes(attrs, f)?;
    f.write_str("`")
}

fn show_attributes<W: fmt::Write>(attrs: &ListOf<Text>, f: &mut fmt::Formatter<W>) -> fmt::Result
    ensures { WritesOnOk W.write_str_gives f.old result (path_text attrs.now) f.new }
{
    let mut rest = attrs.as_slice().iter();
    match rest.next() {
        None => Ok(()),
        Some(first) => {
            first.fmt(f)?;
            for attr in rest {
                show_further_attribute(attr, f)?;
            }
            Ok(())
        }
    }
}

fn show_further_attribute<W: fmt::Write>(attr: &Text, f: &mut fmt::Formatter<W>) -> fmt::Result
    ensures { WritesOnOk W.write_str_gives f.old result (codes "." ++ attr.now) f.new }
{
    f.write_str(".")?;
    attr.fmt(f)
}

// Of which entity types something is.
fn show_entity_types<W: fmt::Write>(types: &EntityLUB, f: &mut fmt::Formatter<W>) -> fmt::Result
    ensures { WritesOnOk W.write_str_gives f.old result (entity_types_text types.now) f.new }
{
    match types.get_single_entity() {
        Some(ty) => {
            f.write_str(" on entity type ")?;
            show_type(ty, f)
        }
        None => {
            f.write_str(" on entity types ")?;
            show_types(types, f)
        }
    }
}

// The types in quotes, with a comma between two.
fn show_types<W: fmt::Write>(types: &EntityLUB, f: &mut fmt::Formatter<W>) -> fmt::Result
    ensures { WritesOnOk W.write_str_gives f.old result (join_by quoted (codes ", ") types.now) f.new }
{
    let mut rest = types.iter();
    match rest.next() {
        None => Ok(()),
        Some(first) => {
            show_type(first, f)?;
            for ty in rest {
                show_further_type(ty, f)?;
            }
            Ok(())
        }
    }
}

fn show_type<W: fmt::Write>(ty: &EntityType, f: &mut fmt::Formatter<W>) -> fmt::Result
    ensures { WritesOnOk W.write_str_gives f.old result (quoted ty.now) f.new }
{
    f.write_str("`")?;
    ty.fmt(f)?;
    f.write_str("`")
}

fn show_further_type<W: fmt::Write>(ty: &EntityType, f: &mut fmt::Formatter<W>) -> fmt::Result
    ensures { WritesOnOk W.write_str_gives f.old result (codes ", " ++ quoted ty.now) f.new }
{
    f.write_str(", ")?;
    show_type(ty, f)
}
