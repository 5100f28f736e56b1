//! The names in a policy: the types that it names and the actions of its literals have to be declared, and
//! the ids of enumerated types to be listed.

ghost use Rattle.std.specs.Prelude.{◌≡◌, ◌++◌, IfOk, OnOk, map, None, option_copied, option_to_list};
ghost use Rattle.policy_expressions.specs.Tree.{trees_of, named_of};
ghost use Rattle.findings.specs.Mentioned.{type_of, names_in, names_in_all, names_in_named, is_known_type, is_known_action, an_id};
ghost use Rattle.policy_scope.specs.Names.{distinct, entity_type_cmp, entity_type_finding, entity_type_findings, slot_type_findings, action_id_findings, enum_findings, choices_without, others_listed, choices_in, action_id_hint, occurs_in};
ghost use Rattle.std.specs.List.{filter_map};
ghost use Rattle.policy_set.specs.Condition.{condition_of};
ghost use Rattle.schema_core.specs.KindView.{kind_of};
ghost use Rattle.policy_scope.specs.Literals.{mentioned, pair_of};

use findings::{
    InvalidEnumEntity, InvalidEnumEntityError, ListOf, UnrecognizedActionId,
    UnrecognizedActionIdHelp, UnrecognizedEntityType,
};
use policy_expressions::{Expr, ExprKind, Literal, Loc, SlotValues};
use policy_set::{Policy, Template};
use policy_values::{Eid, EntityType, EntityUID, Text};
use schema_core::{ListedIds, ValidatorEntityTypeKind, ValidatorSchema};
use std::alloc::{AllocError, Global};
use std::collections::{BTreeMap, BTreeSet};

/// The types that literals and `is` tests of the template name, in its scope and in its body, and that are
/// neither declared nor types of actions: each once at its place, in the order in which they stand.
pub fn validate_entity_types(
    alloc: Global,
    schema: &ValidatorSchema,
    template: &Template,
) -> Result<Vec<UnrecognizedEntityType>, AllocError>
    ensures { IfOk result (λ found. found.items ≡
        entity_type_findings schema.now template.now.id (condition_of template.now)) }
{
    unknown_types_in(alloc, schema, template.id(), template.condition())
}

/// The types that literals and `is` tests of a policy's condition name and that are neither declared nor
/// types of actions: each once at its place, in the order in which they stand.
pub fn unknown_types_in(
    alloc: Global,
    schema: &ValidatorSchema,
    policy_id: &Text,
    condition: &Expr<()>,
) -> Result<Vec<UnrecognizedEntityType>, AllocError>
    ensures { IfOk result
        (λ found. found.items ≡ entity_type_findings schema.now policy_id.now condition.now) }
{
    let mut names = Vec::new(alloc);
    add_names(condition, &mut names)?;
    unknown_types(alloc, schema, policy_id, names)
}

/// The types of the ids that a link gives for the slots of its template and that are neither declared nor
/// types of actions: each once, the principal's first. A static policy has none.
pub fn validate_entity_types_in_slots(
    alloc: Global,
    schema: &ValidatorSchema,
    policy: &Policy,
) -> Result<Vec<UnrecognizedEntityType>, AllocError>
    ensures { IfOk result (λ found. found.items ≡ slot_type_findings schema.now policy.now) }
{
    let mut names = Vec::new(alloc);
    if let Some(values) = policy.env() {
        add_given(values, &mut names)?;
    }
    unknown_types(alloc, schema, policy.id(), names)
}

// Adds the ids that are given for slots.
fn add_given<'a>(
    values: &'a SlotValues,
    names: &mut Vec<(Mention<'a>, Option<Loc>)>,
) -> Result<(), AllocError>
    ensures { OnOk result
        (map pair_of names.new.items ≡ map pair_of names.old.items ++ map (λ uid. (an_id uid, None))
        (option_to_list values.now.principal ++ option_to_list values.now.resource)) }
{
    if let Some(uid) = &values.principal {
        names.push((Mention::Id(uid), None))?;
    }
    if let Some(uid) = &values.resource {
        names.push((Mention::Id(uid), None))?;
    }
    Ok(())
}

// The types of these names that are not known, each once at its place.
fn unknown_types(
    alloc: Global,
    schema: &ValidatorSchema,
    policy_id: &Text,
    names: Vec<(Mention<'_>, Option<Loc>)>,
) -> Result<Vec<UnrecognizedEntityType>, AllocError>
    ensures { IfOk result (λ found. found.items ≡ distinct entity_type_cmp
        (filter_map (entity_type_finding schema.now policy_id.now) (map pair_of names.entry.items))) }
{
    let mut seen = BTreeSet::new(alloc);
    let mut found = Vec::new(alloc);
    for (mention, loc) in names {
        let ty = mentioned_type(mention);
        if is_known_type(schema, ty) {
            continue;
        }
        if seen.insert((ty, loc))? {
            found.push(UnrecognizedEntityType {
                source_loc: loc,
                policy_id: policy_id.try_clone()?,
                actual_entity_type: ty.try_clone()?,
            })?;
        }
    }
    Ok(found)
}

// Whether the type is declared, or is a type of actions.
fn is_known_type(schema: &ValidatorSchema, ty: &EntityType) -> bool
    ensures { result ≡ is_known_type schema.now ty.now }
{
    schema.is_known_entity_type(ty)
}

/// The actions that literals of the template name, in its scope and in its body, and that are not declared:
/// each once at its place, in the order in which the literals stand.
pub fn validate_action_ids(
    alloc: Global,
    schema: &ValidatorSchema,
    template: &Template,
) -> Result<Vec<UnrecognizedActionId>, AllocError>
    ensures { IfOk result (λ found. found.items ≡
        action_id_findings schema.now template.now.id (condition_of template.now)) }
{
    unknown_actions_in(alloc, schema, template.id(), template.condition())
}

/// The actions that literals of a policy's condition name and that are not declared: each once at its place,
/// in the order in which the literals stand.
pub fn unknown_actions_in(
    alloc: Global,
    schema: &ValidatorSchema,
    policy_id: &Text,
    condition: &Expr<()>,
) -> Result<Vec<UnrecognizedActionId>, AllocError>
    ensures { IfOk result (λ found. found.items ≡ action_id_findings schema.now policy_id.now condition.now) }
{
    let mut names = Vec::new(alloc);
    add_names(condition, &mut names)?;
    let mut seen = BTreeSet::new(alloc);
    let mut found = Vec::new(alloc);
    for (mention, loc) in names {
        let Mention::Id(uid) = mention else {
            continue;
        };
        if is_known_action(schema, uid) {
            continue;
        }
        if seen.insert((uid, loc))? {
            found.push(UnrecognizedActionId {
                source_loc: loc,
                policy_id: policy_id.try_clone()?,
                actual_action_id: uid.try_clone()?,
                hint: unrecognized_action_id_help(alloc, schema, uid)?,
            })?;
        }
    }
    Ok(found)
}

// Whether the id is none of an action, or that of a declared one.
fn is_known_action(schema: &ValidatorSchema, uid: &EntityUID) -> bool
    ensures { result ≡ is_known_action schema.now uid.now }
{
    !uid.is_action() || schema.get_action_id(uid).is_some()
}

/// The ids of enumerated types that literals of the template name, in its scope and in its body, and that
/// their types do not list: each once at its place, in the order in which the literals stand.
pub fn validate_enum_entity(
    alloc: Global,
    schema: &ValidatorSchema,
    template: &Template,
) -> Result<Vec<InvalidEnumEntity>, AllocError>
    ensures { IfOk result
        (λ found. found.items ≡ enum_findings schema.now template.now.id (condition_of template.now)) }
{
    unlisted_ids_in(alloc, schema, template.id(), template.condition())
}

/// The ids of enumerated types that literals of a policy's condition name and that their types do not list:
/// each once at its place, in the order in which the literals stand.
pub fn unlisted_ids_in(
    alloc: Global,
    schema: &ValidatorSchema,
    policy_id: &Text,
    condition: &Expr<()>,
) -> Result<Vec<InvalidEnumEntity>, AllocError>
    ensures { IfOk result (λ found. found.items ≡ enum_findings schema.now policy_id.now condition.now) }
{
    let mut names = Vec::new(alloc);
    add_names(condition, &mut names)?;
    let mut seen = BTreeSet::new(alloc);
    let mut found = Vec::new(alloc);
    for (mention, loc) in names {
        let Mention::Id(uid) = mention else {
            continue;
        };
        let Some(choices) = choices_without(schema, uid) else {
            continue;
        };
        if seen.insert((uid, loc))? {
            found.push(InvalidEnumEntity {
                source_loc: loc,
                policy_id: policy_id.try_clone()?,
                err: unlisted(alloc, uid, choices)?,
            })?;
        }
    }
    Ok(found)
}

// The id, and those that its type lists.
fn unlisted(
    alloc: Global,
    uid: &EntityUID,
    choices: &[Eid],
) -> Result<InvalidEnumEntityError, AllocError>
    ensures { IfOk result (λ e. e ≡ record { uid = uid.now; choices = choices.now }) }
{
    let mut listed = Vec::new(alloc);
    for eid in choices {
        listed.push(eid.try_clone()?)?;
    }
    Ok(InvalidEnumEntityError {
        uid: uid.try_clone()?,
        choices: ListOf::new(listed),
    })
}

// The ids that the id's type lists, where it is enumerated and does not list this one.
fn choices_without<'a>(schema: &'a ValidatorSchema, uid: &EntityUID) -> Option<&'a [Eid]>
    ensures { option_copied result ≡ choices_without schema.now uid.now }
{
    let ty = schema.get_entity_type(uid.entity_type())?;
    let choices = choices_in(ty.kind())?;
    others_listed(uid, choices)
}

// The ids, where this one is not among them.
fn others_listed<'a>(uid: &EntityUID, choices: &'a ListedIds) -> Option<&'a [Eid]>
    ensures { option_copied result ≡ others_listed uid.now choices.now }
{
    if choices.contains(&uid.eid) {
        None
    } else {
        Some(choices.as_slice())
    }
}

// The ids that a type lists, where it is enumerated.
fn choices_in(kind: &ValidatorEntityTypeKind) -> Option<&ListedIds>
    ensures { option_copied result ≡ choices_in (kind_of kind.now) }
{
    match kind {
        ValidatorEntityTypeKind::Enum(ids) => Some(ids),
        ValidatorEntityTypeKind::Standard { .. } => None,
    }
}

/// What may have been meant by the id of an action that is not declared: the least declared action whose eid
/// has in it that of the id behind the type of actions, with or without quotes.
pub fn unrecognized_action_id_help(
    alloc: Global,
    schema: &ValidatorSchema,
    uid: &EntityUID,
) -> Result<Option<UnrecognizedActionIdHelp>, AllocError>
    ensures { IfOk result (λ hint. hint ≡ action_id_hint schema.now uid.now) }
{
    let eid = uid.eid.as_str();
    let plain = format!(in alloc; "Action::{eid}")?;
    let quoted = format!(in alloc; "Action::\"{eid}\"")?;
    for action in schema.action_ids() {
        let name = action.name();
        let declared = name.eid.as_str();
        if has_part(declared, plain.as_str()) || has_part(declared, quoted.as_str()) {
            let name = name.try_clone()?;
            return Ok(Some(UnrecognizedActionIdHelp::AvoidActionTypeInActionId(name)));
        }
    }
    Ok(None)
}

// Whether the part stands somewhere in the text.
fn has_part(text: &str, part: &str) -> bool
    ensures { result ≡ occurs_in part.now text.now }
{
    text.contains(part)
}

// A name in a condition.
#[derive(Clone, Copy)]
enum Mention<'a> {
    // The id of a literal.
    Id(&'a EntityUID),
    // The type that `is` tests for.
    EntityType(&'a EntityType),
}

// The type of the id, or the type itself.
fn mentioned_type<'a>(mention: Mention<'a>) -> &'a EntityType
    ensures { result.now ≡ type_of (mentioned mention.entry) }
{
    match mention {
        Mention::Id(uid) => uid.entity_type(),
        Mention::EntityType(ty) => ty,
    }
}

// Adds the names in an expression, with the places of their literals and tests.
#[cycle(names)]
fn add_names<'a, T>(
    expr: &'a Expr<T>,
    names: &mut Vec<(Mention<'a>, Option<Loc>)>,
) -> Result<(), AllocError>
    ensures { OnOk result (map pair_of names.new.items ≡ map pair_of names.old.items ++ names_in expr.now) }
{
    match expr.kind() {
        ExprKind::Lit(Literal::EntityUID(uid)) => {
            Ok(names.push((Mention::Id(uid), expr.source_loc()))?)
        }
        ExprKind::Lit(_) => Ok(()),
        ExprKind::Var(_) | ExprKind::Slot(_) => Ok(()),
        ExprKind::If(x, y, z) => {
            add_names(x, names)?;
            add_names(y, names)?;
            add_names(z, names)
        }
        ExprKind::And(x, y) | ExprKind::Or(x, y) | ExprKind::BinaryApp(_, x, y) => {
            add_names(x, names)?;
            add_names(y, names)
        }
        ExprKind::UnaryApp(_, x)
        | ExprKind::GetAttr(x, _)
        | ExprKind::HasAttr(x, _)
        | ExprKind::Like(x, _) => add_names(x, names),
        ExprKind::Is(x, ty) => {
            add_names(x, names)?;
            Ok(names.push((Mention::EntityType(ty), expr.source_loc()))?)
        }
        ExprKind::ExtensionFunctionApp(_, items) | ExprKind::Set(items) => {
            add_names_of_all(items, names)
        }
        ExprKind::Record(fields) => add_names_of_named(fields, names),
    }
}

#[cycle(names)]
#[tactic(auto, using(policy_expressions::proofs::TreeSteps::depth_in))]
fn add_names_of_all<'a, T>(
    items: &'a Vec<Expr<T>>,
    names: &mut Vec<(Mention<'a>, Option<Loc>)>,
) -> Result<(), AllocError>
    ensures { OnOk result (map pair_of names.new.items ≡
        map pair_of names.old.items ++ names_in_all (trees_of items.now.items)) }
{
    for item in items {
        add_names(item, names)?;
    }
    Ok(())
}

#[cycle(names)]
fn add_names_of_named<'a, T>(
    fields: &'a BTreeMap<Text, Expr<T>>,
    names: &mut Vec<(Mention<'a>, Option<Loc>)>,
) -> Result<(), AllocError>
    ensures { OnOk result (map pair_of names.new.items ≡
        map pair_of names.old.items ++ names_in_named (named_of fields.now.entries)) }
{
    for (_, item) in fields {
        add_names(item, names)?;
    }
    Ok(())
}
