//! How types print.

ghost use Rattle.std.specs.Prelude.{◌≡◌, ◌++◌, Some, codes};
ghost use Rattle.std.specs.Fmt.{WritesOnOk};
ghost use Rattle.schema_types.specs.TyView.{kind_of, attrs_of};
ghost use Rattle.schema_types.specs.TyText.{listed, lub_text, primitive_text, open_text, mark_text, attr_text, ty_text, attrs_text};

use crate::{
    AttributeType, Attributes, EntityLUB, EntityRecordKind, OpenTag, Primitive, Type, TypeKind,
};
use policy_values::{EntityType, Text};
use std::fmt;
use std::fmt::Display;

impl Display for Primitive {
    ghost output = { λ p. Some (primitive_text p) };

    fn fmt<W: fmt::Write>(&self, f: &mut fmt::Formatter<W>) -> fmt::Result {
        match self {
            Primitive::Bool => f.write_str("Bool"),
            Primitive::Long => f.write_str("Long"),
            Primitive::String => f.write_str("String"),
        }
    }
}

impl Display for Type {
    ghost output = { λ t. Some (ty_text t) };

    fn fmt<W: fmt::Write>(&self, f: &mut fmt::Formatter<W>) -> fmt::Result {
        show(self, f)
    }
}

#[cycle(show)]
fn show<W: fmt::Write>(t: &Type, f: &mut fmt::Formatter<W>) -> fmt::Result
    ensures { WritesOnOk W.write_str_gives f.old result (ty_text t.now) f.new }
{
    match t.kind() {
        TypeKind::Never => f.write_str("__cedar::internal::Never"),
        TypeKind::True => f.write_str("__cedar::internal::True"),
        TypeKind::False => f.write_str("__cedar::internal::False"),
        TypeKind::Primitive { primitive_type } => primitive_type.fmt(f),
        TypeKind::Set { element_type: None } => f.write_str("Set<__cedar::internal::Any>"),
        TypeKind::Set {
            element_type: Some(element),
        } => {
            f.write_str("Set<")?;
            show(element, f)?;
            f.write_str(">")
        }
        TypeKind::EntityOrRecord(kind) => show_kind(kind, f),
        TypeKind::ExtensionType { name } => name.fmt(f),
    }
}

#[cycle(show)]
fn show_kind<W: fmt::Write>(k: &EntityRecordKind, f: &mut fmt::Formatter<W>) -> fmt::Result
    ensures { WritesOnOk W.write_str_gives f.old result (ty_text (kind_of k.now)) f.new }
{
    match k {
        EntityRecordKind::Record {
            attrs,
            open_attributes,
        } => {
            show_open(*open_attributes, f)?;
            f.write_str("{")?;
            show_attributes(attrs, f)?;
            f.write_str("}")
        }
        EntityRecordKind::AnyEntity => f.write_str("__cedar::internal::AnyEntity"),
        EntityRecordKind::Entity(lub) => show_lub(lub, f),
        EntityRecordKind::ActionEntity { name, .. } => name.fmt(f),
    }
}

#[cycle(show)]
fn show_attributes<W: fmt::Write>(a: &Attributes, f: &mut fmt::Formatter<W>) -> fmt::Result
    ensures { WritesOnOk W.write_str_gives f.old result (attrs_text a.now) f.new }
{
    for (key, x) in a.entries().iter() {
        show_attribute(key, x, f)?;
    }
    Ok(())
}

#[cycle(show)]
fn show_attribute<W: fmt::Write>(
    key: &Text,
    x: &AttributeType,
    f: &mut fmt::Formatter<W>,
) -> fmt::Result
    ensures { WritesOnOk W.write_str_gives f.old result
        (attr_text key.now x.now.is_required (ty_text x.now.attr_type)) f.new }
{
    key.fmt(f)?;
    show_mark(x.is_required, f)?;
    f.write_str(": ")?;
    show(&x.attr_type, f)?;
    f.write_str(",")
}

fn show_open<W: fmt::Write>(o: OpenTag, f: &mut fmt::Formatter<W>) -> fmt::Result
    ensures { WritesOnOk W.write_str_gives f.old result (open_text o) f.new }
{
    match o {
        OpenTag::OpenAttributes => f.write_str("__cedar::internal::OpenRecord"),
        OpenTag::ClosedAttributes => Ok(()),
    }
}

fn show_mark<W: fmt::Write>(is_required: bool, f: &mut fmt::Formatter<W>) -> fmt::Result
    ensures { WritesOnOk W.write_str_gives f.old result (mark_text is_required) f.new }
{
    if is_required {
        Ok(())
    } else {
        f.write_str("?")
    }
}

fn show_lub<W: fmt::Write>(lub: &EntityLUB, f: &mut fmt::Formatter<W>) -> fmt::Result
    ensures { WritesOnOk W.write_str_gives f.old result (lub_text lub.now) f.new }
{
    match lub.get_single_entity() {
        Some(entity_type) => entity_type.fmt(f),
        None => {
            f.write_str("__cedar::internal::Union<")?;
            show_listed(lub, f)?;
            f.write_str(">")
        }
    }
}

fn show_listed<W: fmt::Write>(lub: &EntityLUB, f: &mut fmt::Formatter<W>) -> fmt::Result
    ensures { WritesOnOk W.write_str_gives f.old result (listed lub.now) f.new }
{
    let mut names = lub.iter();
    match names.next() {
        None => Ok(()),
        Some(first) => {
            first.fmt(f)?;
            for name in names {
                show_behind(name, f)?;
            }
            Ok(())
        }
    }
}

fn show_behind<W: fmt::Write>(name: &EntityType, f: &mut fmt::Formatter<W>) -> fmt::Result
    ensures { WritesOnOk W.write_str_gives f.old result (codes ", " ++ name.now) f.new }
{
    f.write_str(", ")?;
    name.fmt(f)
}
