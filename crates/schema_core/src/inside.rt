// The types inside types: which names they have, and whether a schema may hold them.
ghost use Rattle.std.specs.Prelude.{◌≡◌, Some, is_some};
ghost use Rattle.std.specs.Option.{option_copied};
ghost use Rattle.policy_values.specs.Reaches.{at};
ghost use Rattle.policy_values.specs.Least.{lower_of};
ghost use Rattle.policy_values.specs.Uid.{text_cmp};
ghost use Rattle.schema_types.specs.TyView.{kind_of as part_of};
ghost use Rattle.schema_core.specs.Inside.{is_known_extension, is_held, are_held};
ghost use Rattle.schema_core.specs.Kinds.{is_held_kind};
ghost use Rattle.schema_core.specs.KindView.{kind_of};
ghost use Rattle.schema_core.specs.Lowest.{lowest_name, lowest_names, lowest_inside, lowest_within, lowest_of, undeclared_next, unknown_next};

use crate::ValidatorEntityTypeKind;
use policy_values::{EntityType, Name, SharedSteps, lower};
use schema_types::{Attributes, EntityLUB, EntityRecordKind, Type, TypeKind};

/// The lowest of `low` and the entity types that the kind names and that have no entry.
pub fn undeclared_in_kind<'a>(
    low: Option<&'a EntityType>,
    types: &SharedSteps<EntityType>,
    kind: &'a ValidatorEntityTypeKind,
) -> Option<&'a EntityType>
    ensures { option_copied result ≡
        lowest_of (undeclared_next (λ n. is_some (at text_cmp types.now.entries n)))
        (option_copied low.entry) (kind_of kind.now) }
{
    match kind {
        ValidatorEntityTypeKind::Standard {
            attributes,
            tags: Some(tags),
        } => undeclared_in_type(undeclared_in(low, types, attributes), types, tags),
        ValidatorEntityTypeKind::Standard {
            attributes,
            tags: None,
        } => undeclared_in(low, types, attributes),
        ValidatorEntityTypeKind::Enum(_) => low,
    }
}

/// The same of the attributes.
#[cycle(undeclared)]
pub fn undeclared_in<'a>(
    low: Option<&'a EntityType>,
    types: &SharedSteps<EntityType>,
    a: &'a Attributes,
) -> Option<&'a EntityType>
    ensures { option_copied result ≡ lowest_within
        (undeclared_next (λ n. is_some (at text_cmp types.now.entries n))) (option_copied low.entry) a.now }
{
    let mut low = low;
    for (_, x) in a.entries().iter() {
        low = undeclared_in_type(low, types, &x.attr_type);
    }
    low
}

// The same of the type.
#[cycle(undeclared)]
fn undeclared_in_type<'a>(
    low: Option<&'a EntityType>,
    types: &SharedSteps<EntityType>,
    t: &'a Type,
) -> Option<&'a EntityType>
    ensures { option_copied result ≡ lowest_inside
        (undeclared_next (λ n. is_some (at text_cmp types.now.entries n))) (option_copied low.entry) t.now }
{
    match t.kind() {
        TypeKind::Set {
            element_type: Some(element),
        } => undeclared_in_type(low, types, element),
        TypeKind::EntityOrRecord(kind) => undeclared_in_part(low, types, kind),
        _ => low,
    }
}

#[cycle(undeclared)]
fn undeclared_in_part<'a>(
    low: Option<&'a EntityType>,
    types: &SharedSteps<EntityType>,
    k: &'a EntityRecordKind,
) -> Option<&'a EntityType>
    ensures { option_copied result ≡
        lowest_inside (undeclared_next (λ n. is_some (at text_cmp types.now.entries n)))
        (option_copied low.entry) (part_of k.now) }
{
    match k {
        EntityRecordKind::Record { attrs, .. } => undeclared_in(low, types, attrs),
        EntityRecordKind::AnyEntity => low,
        EntityRecordKind::Entity(lub) => undeclared_among(low, types, lub),
        EntityRecordKind::ActionEntity { attrs, .. } => undeclared_in(low, types, attrs),
    }
}

fn undeclared_among<'a>(
    low: Option<&'a EntityType>,
    types: &SharedSteps<EntityType>,
    lub: &'a EntityLUB,
) -> Option<&'a EntityType>
    ensures { option_copied result ≡
        lowest_names (λ n. is_some (at text_cmp types.now.entries n)) (option_copied low.entry) lub.now }
{
    let mut low = low;
    for name in lub.iter() {
        if !types.contains_key(name) {
            low = lower(low, Some(name));
        }
    }
    low
}

/// The lowest of `low` and the extension types that the kind names and that there are not.
pub fn unknown_in_kind<'a>(
    low: Option<&'a Name>,
    kind: &'a ValidatorEntityTypeKind,
) -> Option<&'a Name>
    ensures { option_copied result ≡ lowest_of unknown_next (option_copied low.entry) (kind_of kind.now) }
{
    match kind {
        ValidatorEntityTypeKind::Standard {
            attributes,
            tags: Some(tags),
        } => unknown_in_type(unknown_in(low, attributes), tags),
        ValidatorEntityTypeKind::Standard {
            attributes,
            tags: None,
        } => unknown_in(low, attributes),
        ValidatorEntityTypeKind::Enum(_) => low,
    }
}

/// The same of the attributes.
#[cycle(unknown)]
pub fn unknown_in<'a>(low: Option<&'a Name>, a: &'a Attributes) -> Option<&'a Name>
    ensures { option_copied result ≡ lowest_within unknown_next (option_copied low.entry) a.now }
{
    let mut low = low;
    for (_, x) in a.entries().iter() {
        low = unknown_in_type(low, &x.attr_type);
    }
    low
}

// The same of the type.
#[cycle(unknown)]
fn unknown_in_type<'a>(low: Option<&'a Name>, t: &'a Type) -> Option<&'a Name>
    ensures { option_copied result ≡ lowest_inside unknown_next (option_copied low.entry) t.now }
{
    match t.kind() {
        TypeKind::Set {
            element_type: Some(element),
        } => unknown_in_type(low, element),
        TypeKind::EntityOrRecord(kind) => unknown_in_part(low, kind),
        TypeKind::ExtensionType { name } => lowest_unknown(low, name),
        _ => low,
    }
}

#[cycle(unknown)]
fn unknown_in_part<'a>(low: Option<&'a Name>, k: &'a EntityRecordKind) -> Option<&'a Name>
    ensures { option_copied result ≡ lowest_inside unknown_next (option_copied low.entry) (part_of k.now) }
{
    match k {
        EntityRecordKind::Record { attrs, .. } => unknown_in(low, attrs),
        EntityRecordKind::AnyEntity => low,
        EntityRecordKind::Entity(_) => low,
        EntityRecordKind::ActionEntity { attrs, .. } => unknown_in(low, attrs),
    }
}

fn lowest_unknown<'a>(low: Option<&'a Name>, name: &'a Name) -> Option<&'a Name>
    ensures { option_copied result ≡ lowest_name is_known_extension (option_copied low.entry) name.now }
{
    if is_known_extension(name) {
        return low;
    }
    match low {
        Some(other) => Some(if name < other { name } else { other }),
        None => Some(name),
    }
}

fn is_known_extension(name: &Name) -> bool
    ensures { result ≡ is_known_extension name.now }
{
    let name = name.as_str();
    name == "decimal" || name == "ipaddr" || name == "datetime" || name == "duration"
}

/// Whether a schema may hold the types of the kind's attributes and tags.
pub fn is_held_kind(kind: &ValidatorEntityTypeKind) -> bool
    ensures { result ≡ is_held_kind (kind_of kind.now) }
{
    match kind {
        ValidatorEntityTypeKind::Standard {
            attributes,
            tags: Some(tags),
        } => are_held(attributes) && is_held(tags),
        ValidatorEntityTypeKind::Standard {
            attributes,
            tags: None,
        } => are_held(attributes),
        ValidatorEntityTypeKind::Enum(_) => true,
    }
}

/// Whether a schema may hold the types of the attributes.
#[cycle(held)]
pub fn are_held(a: &Attributes) -> bool
    ensures { result ≡ are_held a.now }
{
    for (_, x) in a.entries().iter() {
        if !is_held(&x.attr_type) {
            return false;
        }
    }
    true
}

#[cycle(held)]
fn is_held(t: &Type) -> bool
    ensures { result ≡ is_held t.now }
{
    match t.kind() {
        TypeKind::Never => false,
        TypeKind::True => false,
        TypeKind::False => false,
        TypeKind::Primitive { .. } => true,
        TypeKind::Set { element_type: None } => false,
        TypeKind::Set {
            element_type: Some(element),
        } => is_held(element),
        TypeKind::EntityOrRecord(kind) => is_held_part(kind),
        TypeKind::ExtensionType { .. } => true,
    }
}

#[cycle(held)]
fn is_held_part(k: &EntityRecordKind) -> bool
    ensures { result ≡ is_held (part_of k.now) }
{
    match k {
        EntityRecordKind::Record {
            attrs,
            open_attributes,
        } => !open_attributes.is_open() && are_held(attrs),
        EntityRecordKind::AnyEntity => false,
        EntityRecordKind::Entity(lub) => lub.get_single_entity().is_some(),
        EntityRecordKind::ActionEntity { .. } => false,
    }
}
