//! Least upper bounds.

ghost use Rattle.std.specs.Prelude.{◌≡◌, ◌++◌, IfOk, OnOk, ◌&&◌, MatchResult, Ok, Err, cond};
ghost use Rattle.std.specs.BTreeMap.{keys};
ghost use Rattle.std.specs.Ordering.{is_eq};
ghost use Rattle.policy_values.specs.Uid.{text_cmp};
ghost use Rattle.policy_values.specs.Maps.{IsNext};
ghost use Rattle.schema_types.specs.declared.kinds.LubHelp.TheVariants.{None as Other};
ghost use Rattle.schema_types.specs.declared.ty.TypeKind.TheVariants.{Set};
ghost use Rattle.schema_types.specs.Ty.{record_of, action, extension};
ghost use Rattle.schema_types.specs.TyView.{kind_of, ty_of, attrs_of};
ghost use Rattle.type_relations.specs.declared.mode.SubtypeMode.TheVariants.{Strict, Permissive};
ghost use Rattle.type_relations.specs.Join.{result_map, text_eq, texts_eq, bool_eq, either_open, same_keys, wide_open, is_record, is_entity, apart, join_bool, join_primitive, join_apart, join_entities, join_actions, join_records, join_first, join, join_attrs, shared, join_rest, join_all, IsLubError};
ghost use Rattle.type_relations.specs.JoinSteps.{kept_entry};

use crate::SubtypeMode;
use policy_values::{EntityType, Name, Text, push_entry};
use schema_types::{
    AttributeType, Attributes, EntityLUB, EntityRecordKind, LubHelp, OpenTag, Primitive, Type,
    TypeKind,
};
use std::alloc::{AllocError, Global};
use std::cmp::Ordering;
use std::collections::BTreeMap;
use std::mem::drop;

/// Why a least upper bound was not given.
#[derive(Debug, Drop, PartialEq, Eq)]
pub enum LubError {
    /// There is none.
    Help(LubHelp),
    /// There was no memory.
    OutOfMemory,
}

impl From<AllocError> for LubError {
    ghost use Rattle.std.specs.Prelude.{◌≡◌};
    ghost use Rattle.type_relations.specs.declared.join.LubError.{LubError};

    ghost from_gives = { λ _ e. e ≡ LubError.OutOfMemory };

    fn from(_: AllocError) -> LubError {
        LubError::OutOfMemory
    }
}

/// The least type above both types, or why there is none.
pub fn least_upper_bound(
    alloc: Global,
    a: &Type,
    b: &Type,
    mode: SubtypeMode,
) -> Result<Type, LubError>
    ensures { MatchResult result (λ t. join mode a.now b.now ≡ Ok t)
        (λ e. IsLubError (join mode a.now b.now) e) }
{
    match join_at_once(alloc, a, b, mode)? {
        Ok(t) => Ok(t),
        Err(help) => Err(LubError::Help(help)),
    }
}

/// The join of a list of types, from the type of no value on, or why there is none.
pub fn reduce_to_least_upper_bound(
    alloc: Global,
    types: &[Type],
    mode: SubtypeMode,
) -> Result<Type, LubError>
    ensures { MatchResult result (λ t. join_all mode types.now ≡ Ok t)
        (λ e. IsLubError (join_all mode types.now) e) }
{
    match join_list(alloc, types, mode)? {
        Ok(t) => Ok(t),
        Err(help) => Err(LubError::Help(help)),
    }
}

fn join_list(
    alloc: Global,
    types: &[Type],
    mode: SubtypeMode,
) -> Result<Result<Type, LubHelp>, AllocError>
    ensures { IfOk result (λ r. r ≡ join_all mode types.now) }
{
    let mut joined = Type::never();
    for t in types {
        match join_at_once(alloc, &joined, t, mode)? {
            Ok(next) => joined = next,
            Err(help) => return Ok(Err(help)),
        }
    }
    Ok(Ok(joined))
}

// The join. The strict one of equal types is either, and need not be made part by part.
fn join_at_once(
    alloc: Global,
    a: &Type,
    b: &Type,
    mode: SubtypeMode,
) -> Result<Result<Type, LubHelp>, AllocError>
    ensures { IfOk result (λ r. r ≡ join mode a.now b.now) }
{
    match mode {
        SubtypeMode::Strict if a == b => Ok(Ok(a.try_clone(alloc)?)),
        _ => join(alloc, a, b, mode),
    }
}

#[cycle(join)]
fn join(
    alloc: Global,
    a: &Type,
    b: &Type,
    mode: SubtypeMode,
) -> Result<Result<Type, LubHelp>, AllocError>
    ensures { IfOk result (λ r. r ≡ join mode a.now b.now) }
{
    match (a.kind(), b.kind()) {
        (TypeKind::Never, _) => Ok(Ok(b.try_clone(alloc)?)),
        (_, TypeKind::Never) => Ok(Ok(a.try_clone(alloc)?)),
        (TypeKind::True, TypeKind::True) => Ok(Ok(Type::singleton_boolean(true))),
        (TypeKind::True, TypeKind::False) => Ok(Ok(Type::primitive_boolean())),
        (TypeKind::False, TypeKind::True) => Ok(Ok(Type::primitive_boolean())),
        (TypeKind::False, TypeKind::False) => Ok(Ok(Type::singleton_boolean(false))),
        (TypeKind::True, TypeKind::Primitive { primitive_type: p }) => Ok(join_bool(*p)),
        (TypeKind::False, TypeKind::Primitive { primitive_type: p }) => Ok(join_bool(*p)),
        (TypeKind::Primitive { primitive_type: p }, TypeKind::True) => Ok(join_bool(*p)),
        (TypeKind::Primitive { primitive_type: p }, TypeKind::False) => Ok(join_bool(*p)),
        (TypeKind::Primitive { primitive_type: p }, TypeKind::Primitive { primitive_type: q }) =>
            Ok(join_primitive(*p, *q)),
        (TypeKind::Set { element_type: x }, TypeKind::Set { element_type: y }) => {
            join_sets(alloc, x, y, mode)
        }
        (TypeKind::EntityOrRecord(x), TypeKind::EntityOrRecord(y)) => {
            join_kinds(alloc, a, b, x, y, mode)
        }
        (TypeKind::ExtensionType { name: x }, TypeKind::ExtensionType { name: y }) => {
            join_extensions(x, y)
        }
        _ => Ok(Err(apart(a, b))),
    }
}

// Sets, by their elements.
#[cycle(join)]
fn join_sets(
    alloc: Global,
    x: &Option<Box<Type>>,
    y: &Option<Box<Type>>,
    mode: SubtypeMode,
) -> Result<Result<Type, LubHelp>, AllocError>
    ensures { IfOk result (λ r. r ≡ join mode (ty_of (Set x.now)) (ty_of (Set y.now))) }
{
    match (x, y) {
        (Some(x), Some(y)) => match join(alloc, x, y, mode)? {
            Ok(element) => Ok(Ok(Type::set(alloc, element)?)),
            Err(help) => Ok(Err(help)),
        },
        _ => Ok(Ok(Type::any_set())),
    }
}

fn join_extensions(x: &Name, y: &Name) -> Result<Result<Type, LubHelp>, AllocError>
    ensures { IfOk result (λ r. r ≡ cond (text_eq x.now y.now) (Ok (extension x.now)) (Err Other)) }
{
    if name_eq(x, y) {
        Ok(Ok(Type::extension(x.try_clone()?)))
    } else {
        Ok(Err(LubHelp::None))
    }
}

// Entities and records, by their kinds.
#[cycle(join)]
fn join_kinds(
    alloc: Global,
    a: &Type,
    b: &Type,
    x: &EntityRecordKind,
    y: &EntityRecordKind,
    mode: SubtypeMode,
) -> Result<Result<Type, LubHelp>, AllocError>
    requires left { a.now ≡ kind_of x.now }
    requires right { b.now ≡ kind_of y.now }
    ensures { IfOk result (λ r. r ≡ join mode (kind_of x.now) (kind_of y.now)) }
{
    match (x, y) {
        (
            EntityRecordKind::Record {
                attrs: r,
                open_attributes: o,
            },
            EntityRecordKind::Record {
                attrs: s,
                open_attributes: p,
            },
        ) => join_records(alloc, r, s, *o, *p, mode),
        (EntityRecordKind::AnyEntity, EntityRecordKind::AnyEntity) => {
            Ok(Ok(Type::any_entity_reference()))
        }
        (EntityRecordKind::AnyEntity, EntityRecordKind::Entity(_)) => Ok(join_apart(mode)),
        (EntityRecordKind::AnyEntity, EntityRecordKind::ActionEntity { .. }) => {
            Ok(join_apart(mode))
        }
        (EntityRecordKind::Entity(_), EntityRecordKind::AnyEntity) => Ok(join_apart(mode)),
        (EntityRecordKind::Entity(m), EntityRecordKind::Entity(n)) => {
            join_entities(alloc, m, n, mode)
        }
        (EntityRecordKind::Entity(_), EntityRecordKind::ActionEntity { .. }) => {
            Ok(join_apart(mode))
        }
        (EntityRecordKind::ActionEntity { .. }, EntityRecordKind::AnyEntity) => {
            Ok(join_apart(mode))
        }
        (EntityRecordKind::ActionEntity { .. }, EntityRecordKind::Entity(_)) => {
            Ok(join_apart(mode))
        }
        (
            EntityRecordKind::ActionEntity { name: m, attrs: r },
            EntityRecordKind::ActionEntity { name: n, attrs: s },
        ) => join_actions(alloc, m, r, n, s, mode),
        _ => Ok(Err(apart(a, b))),
    }
}

// Actions of one type have the strict join of their attributes.
#[cycle(join)]
fn join_actions(
    alloc: Global,
    m: &EntityType,
    a: &Attributes,
    n: &EntityType,
    b: &Attributes,
    mode: SubtypeMode,
) -> Result<Result<Type, LubHelp>, AllocError>
    ensures { IfOk result (λ r. r ≡ join mode (action m.now a.now) (action n.now b.now)) }
{
    if !entity_type_eq(m, n) {
        return Ok(join_apart(mode));
    }
    if !same_keys(a, b) {
        return Ok(Err(LubHelp::RecordWidth));
    }
    match join_attributes(alloc, a, b)? {
        Ok(attrs) => {
            let name = m.try_clone()?;
            Ok(Ok(Type::action_entity(name, attrs)))
        }
        Err(help) => Ok(Err(help)),
    }
}

#[cycle(join)]
fn join_records(
    alloc: Global,
    a: &Attributes,
    b: &Attributes,
    o: OpenTag,
    p: OpenTag,
    mode: SubtypeMode,
) -> Result<Result<Type, LubHelp>, AllocError>
    ensures { IfOk result (λ r. r ≡ join mode (record_of a.now o) (record_of b.now p)) }
{
    match mode {
        SubtypeMode::Strict => {
            if !same_keys(a, b) {
                return Ok(Err(LubHelp::RecordWidth));
            }
            match join_attributes(alloc, a, b)? {
                Ok(attrs) => Ok(Ok(Type::record(attrs, either_open(o, p)))),
                Err(help) => Ok(Err(help)),
            }
        }
        SubtypeMode::Permissive => {
            let attrs = shared_attributes(alloc, a, b)?;
            let open_attributes = wide_open(o, p, a, b, &attrs);
            Ok(Ok(Type::record(attrs, open_attributes)))
        }
    }
}

#[cycle(join)]
fn join_attributes(
    alloc: Global,
    a: &Attributes,
    b: &Attributes,
) -> Result<Result<Attributes, LubHelp>, AllocError>
    ensures { IfOk result (λ r. r ≡ join_attrs a.now b.now) }
{
    match join_entries(alloc, a.entries(), b.entries())? {
        Ok(entries) => Ok(Ok(Attributes::with_attributes(alloc, entries)?)),
        Err(help) => Ok(Err(help)),
    }
}

#[cycle(join)]
#[tactic(auto, using(crate::proofs::JoinSteps::in_prefix_all, crate::proofs::JoinSteps::in_prefix_step))]
fn join_entries(
    alloc: Global,
    a: &BTreeMap<Text, AttributeType>,
    b: &BTreeMap<Text, AttributeType>,
) -> Result<Result<BTreeMap<Text, AttributeType>, LubHelp>, AllocError>
    ensures { IfOk result (λ r. result_map (λ m. attrs_of m.entries) r ≡
        join_attrs (attrs_of a.now.entries) (attrs_of b.now.entries)) }
{
    let mut joined = BTreeMap::new(alloc);
    let mut rest = b.iter();
    for (key, x) in a.iter() {
        match rest.next() {
            None => return Ok(Ok(joined)),
            Some((_, y)) => match join(alloc, &x.attr_type, &y.attr_type, SubtypeMode::Strict)? {
                Err(help) => return Ok(Err(help)),
                Ok(attr_type) => {
                    if !bool_eq(x.is_required, y.is_required) {
                        drop(attr_type);
                        return Ok(Err(LubHelp::AttributeQualifier));
                    }
                    let key = key.try_clone()?;
                    let both = AttributeType {
                        attr_type,
                        is_required: x.is_required,
                    };
                    push_entry(&mut joined, key, both)?;
                }
            },
        }
    }
    Ok(Ok(joined))
}

/// The permissive join of the attributes of two records or entities.
#[cycle(join)]
pub fn shared_attributes(
    alloc: Global,
    a: &Attributes,
    b: &Attributes,
) -> Result<Attributes, AllocError>
    ensures { IfOk result (λ xs. xs ≡ shared a.now b.now) }
{
    let entries = shared_entries(alloc, a.entries(), b.entries())?;
    Attributes::with_attributes(alloc, entries)
}

#[cycle(join)]
fn shared_entries(
    alloc: Global,
    a: &BTreeMap<Text, AttributeType>,
    b: &BTreeMap<Text, AttributeType>,
) -> Result<BTreeMap<Text, AttributeType>, AllocError>
    ensures { IfOk result
        (λ m. attrs_of m.entries ≡ shared (attrs_of a.now.entries) (attrs_of b.now.entries)) }
{
    let mut kept = BTreeMap::new(alloc);
    let mut left = a.iter();
    let mut right = b.iter();
    let mut first = left.next();
    let mut second = right.next();
    'merge: loop {
        match (first, second) {
            (None, _) => return Ok(kept),
            (Some(_), None) => return Ok(kept),
            (Some((key, x)), Some((other, y))) => match key.cmp(other) {
                Ordering::Less => first = left.next(),
                Ordering::Equal => {
                    keep_shared(alloc, &mut kept, key, x, y)?;
                    first = left.next();
                    second = right.next();
                }
                Ordering::Greater => second = right.next(),
            },
        }
    }
}

// Adds an attribute of both maps, where its types have a join.
#[cycle(join)]
fn keep_shared(
    alloc: Global,
    kept: &mut BTreeMap<Text, AttributeType>,
    key: &Text,
    x: &AttributeType,
    y: &AttributeType,
) -> Result<(), AllocError>
    requires { IsNext key.now (keys kept.old) }
    ensures { OnOk result (kept.new.entries ≡ kept.old.entries ++ kept_entry key.now
        (x.now.is_required && y.now.is_required) (join Permissive x.now.attr_type y.now.attr_type)) }
{
    match join(alloc, &x.attr_type, &y.attr_type, SubtypeMode::Permissive)? {
        Ok(attr_type) => {
            let key = key.try_clone()?;
            let both = AttributeType::new(attr_type, x.is_required && y.is_required);
            push_entry(kept, key, both)
        }
        Err(_) => Ok(()),
    }
}

fn join_apart(mode: SubtypeMode) -> Result<Type, LubHelp>
    ensures { result ≡ join_apart mode }
{
    match mode {
        SubtypeMode::Strict => Err(LubHelp::EntityType),
        SubtypeMode::Permissive => Ok(Type::any_entity_reference()),
    }
}

fn join_entities(
    alloc: Global,
    a: &EntityLUB,
    b: &EntityLUB,
    mode: SubtypeMode,
) -> Result<Result<Type, LubHelp>, AllocError>
    ensures { IfOk result (λ r. r ≡ join_entities mode a.now b.now) }
{
    match mode {
        SubtypeMode::Strict => {
            if entities_eq(a, b) {
                let lub = a.try_clone()?;
                Ok(Ok(Type::entity_or_record(EntityRecordKind::Entity(lub))))
            } else {
                Ok(Err(LubHelp::EntityType))
            }
        }
        SubtypeMode::Permissive => {
            let lub = a.least_upper_bound(alloc, b)?;
            Ok(Ok(Type::entity_or_record(EntityRecordKind::Entity(lub))))
        }
    }
}

fn join_bool(p: Primitive) -> Result<Type, LubHelp>
    ensures { result ≡ join_bool p }
{
    match p {
        Primitive::Bool => Ok(Type::primitive(p)),
        Primitive::Long => Err(LubHelp::None),
        Primitive::String => Err(LubHelp::None),
    }
}

fn join_primitive(p: Primitive, q: Primitive) -> Result<Type, LubHelp>
    ensures { result ≡ join_primitive p q }
{
    match (p, q) {
        (Primitive::Bool, Primitive::Bool) => Ok(Type::primitive(p)),
        (Primitive::Long, Primitive::Long) => Ok(Type::primitive(p)),
        (Primitive::String, Primitive::String) => Ok(Type::primitive(p)),
        _ => Err(LubHelp::None),
    }
}

fn same_keys(a: &Attributes, b: &Attributes) -> bool
    ensures { result ≡ same_keys a.now b.now }
{
    let mut rest = b.entries().iter();
    for (key, _) in a.entries().iter() {
        match rest.next() {
            None => return false,
            Some((other, _)) => {
                if !text_eq(key, other) {
                    return false;
                }
            }
        }
    }
    match rest.next() {
        None => true,
        Some(_) => false,
    }
}

fn wide_open(o: OpenTag, p: OpenTag, a: &Attributes, b: &Attributes, both: &Attributes) -> OpenTag
    ensures { result ≡ wide_open o p a.now b.now both.now }
{
    if same_keys(both, a) && same_keys(both, b) {
        either_open(o, p)
    } else {
        OpenTag::OpenAttributes
    }
}

fn either_open(o: OpenTag, p: OpenTag) -> OpenTag
    ensures { result ≡ either_open o p }
{
    match (o, p) {
        (OpenTag::ClosedAttributes, OpenTag::ClosedAttributes) => OpenTag::ClosedAttributes,
        _ => OpenTag::OpenAttributes,
    }
}

fn is_entity(t: &Type) -> bool
    ensures { result ≡ is_entity t.now }
{
    match t.kind() {
        TypeKind::EntityOrRecord(EntityRecordKind::Record { .. }) => false,
        TypeKind::EntityOrRecord(_) => true,
        _ => false,
    }
}

fn is_record(t: &Type) -> bool
    ensures { result ≡ is_record t.now }
{
    match t.kind() {
        TypeKind::EntityOrRecord(EntityRecordKind::Record { .. }) => true,
        _ => false,
    }
}

// Why types of two kinds have no join.
fn apart(a: &Type, b: &Type) -> LubHelp
    ensures { result ≡ apart a.now b.now }
{
    if is_entity(a) && is_entity(b) {
        LubHelp::EntityType
    } else if (is_entity(a) && is_record(b)) || (is_record(a) && is_entity(b)) {
        LubHelp::EntityRecord
    } else {
        LubHelp::None
    }
}

fn bool_eq(q: bool, r: bool) -> bool
    ensures { result ≡ bool_eq q r }
{
    if q { r } else { !r }
}

fn text_eq(a: &Text, b: &Text) -> bool
    ensures { result ≡ text_eq a.now b.now }
{
    match a.cmp(b) {
        Ordering::Less => false,
        Ordering::Equal => true,
        Ordering::Greater => false,
    }
}

pub(crate) fn name_eq(a: &Name, b: &Name) -> bool
    ensures { result ≡ text_eq a.now b.now }
{
    match a.cmp(b) {
        Ordering::Less => false,
        Ordering::Equal => true,
        Ordering::Greater => false,
    }
}

pub(crate) fn entity_type_eq(a: &EntityType, b: &EntityType) -> bool
    ensures { result ≡ text_eq a.now b.now }
{
    match a.cmp(b) {
        Ordering::Less => false,
        Ordering::Equal => true,
        Ordering::Greater => false,
    }
}

fn entities_eq(a: &EntityLUB, b: &EntityLUB) -> bool
    ensures { result ≡ texts_eq a.now b.now }
{
    match a.cmp(b) {
        Ordering::Less => false,
        Ordering::Equal => true,
        Ordering::Greater => false,
    }
}
