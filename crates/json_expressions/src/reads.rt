//! Expressions that may be nested too deep.

ghost use Rattle.std.specs.Prelude.{◌≡◌, IfOk, option_map, option_and_then};
ghost use Rattle.policy_expressions.specs.Tree.{conj, disj};
ghost use Rattle.json_expressions.specs.Forms.{binary_tree, call_tree, chained, folded, get_tree, has_tree, if_tree, in_turn, join_tree, like_tree, of_one, paired, record_tree, set_tree, type_test_tree, unary_tree, unmarked};
ghost use Rattle.json_expressions.specs.Nesting.{all_within, fields_within};
ghost use Rattle.json_expressions.specs.Reads.{both, bounded, build_of, listed_read, on_all, on_name, on_one, on_three, on_two, placed_read};

use crate::forms::{Junction, ListForm};
use crate::lists::{only, two};
use crate::nesting::{Bounded, take_all, take_fields};
use policy_expressions::{BinaryOp, BuildError, Expr, Loc, Pattern, UnaryOp};
use policy_values::{EntityType, Name, Text};
use std::alloc::{AllocError, Global};
use std::collections::BTreeMap;

// What was built, or that it would be nested too deep.
fn read_of(built: Result<Expr<()>, BuildError>) -> Result<Bounded<Expr<()>>, AllocError>
    ensures { IfOk result (λ r. built ≡ build_of r) }
{
    match built {
        Ok(expression) => Ok(Bounded::Within(expression)),
        Err(BuildError::Nested) => Ok(Bounded::Nested),
        Err(BuildError::OutOfMemory) => Err(AllocError),
    }
}

#[tactic(auto, using(crate::proofs::Bounds::settled))]
fn build_unary(alloc: Global, op: UnaryOp, x: Expr<()>) -> Result<Bounded<Expr<()>>, AllocError>
    ensures { IfOk result (λ r. r ≡ bounded (unary_tree op x)) }
{
    read_of(Expr::unary_app(alloc, op, x, (), None))
}

#[tactic(auto, using(crate::proofs::Bounds::settled))]
fn build_binary(
    alloc: Global,
    op: BinaryOp,
    x: Expr<()>,
    y: Expr<()>,
) -> Result<Bounded<Expr<()>>, AllocError>
    ensures { IfOk result (λ r. r ≡ bounded (binary_tree op x y)) }
{
    read_of(Expr::binary_app(alloc, op, x, y, (), None))
}

#[tactic(auto, using(crate::proofs::Bounds::settled))]
fn build_and(alloc: Global, x: Expr<()>, y: Expr<()>) -> Result<Bounded<Expr<()>>, AllocError>
    ensures { IfOk result (λ r. r ≡ bounded (conj x y unmarked)) }
{
    read_of(Expr::and(alloc, x, y, (), None))
}

#[tactic(auto, using(crate::proofs::Bounds::settled))]
fn build_or(alloc: Global, x: Expr<()>, y: Expr<()>) -> Result<Bounded<Expr<()>>, AllocError>
    ensures { IfOk result (λ r. r ≡ bounded (disj x y unmarked)) }
{
    read_of(Expr::or(alloc, x, y, (), None))
}

#[tactic(auto, using(crate::proofs::Bounds::settled))]
fn build_if(
    alloc: Global,
    x: Expr<()>,
    y: Expr<()>,
    z: Expr<()>,
) -> Result<Bounded<Expr<()>>, AllocError>
    ensures { IfOk result (λ r. r ≡ bounded (if_tree x y z)) }
{
    read_of(Expr::ite(alloc, x, y, z, (), None))
}

#[tactic(auto, using(crate::proofs::Bounds::settled))]
fn build_get(alloc: Global, x: Expr<()>, name: Text) -> Result<Bounded<Expr<()>>, AllocError>
    ensures { IfOk result (λ r. r ≡ bounded (get_tree x name)) }
{
    read_of(Expr::get_attr(alloc, x, name, (), None))
}

#[tactic(auto, using(crate::proofs::Bounds::settled))]
fn build_has(alloc: Global, x: Expr<()>, name: Text) -> Result<Bounded<Expr<()>>, AllocError>
    ensures { IfOk result (λ r. r ≡ bounded (has_tree x name)) }
{
    read_of(Expr::has_attr(alloc, x, name, (), None))
}

#[tactic(auto, using(crate::proofs::Bounds::settled))]
fn build_like(alloc: Global, pattern: Pattern, x: Expr<()>) -> Result<Bounded<Expr<()>>, AllocError>
    ensures { IfOk result (λ r. r ≡ bounded (like_tree pattern x)) }
{
    read_of(Expr::like(alloc, x, pattern, (), None))
}

#[tactic(auto, using(crate::proofs::Bounds::settled))]
fn build_is(
    alloc: Global,
    entity_type: EntityType,
    x: Expr<()>,
) -> Result<Bounded<Expr<()>>, AllocError>
    ensures { IfOk result (λ r. r ≡ bounded (type_test_tree entity_type x)) }
{
    read_of(Expr::is(alloc, x, entity_type, (), None))
}

#[tactic(auto, using(crate::proofs::Bounds::settled))]
fn build_set(items: Vec<Expr<()>>) -> Result<Bounded<Expr<()>>, AllocError>
    ensures { IfOk result (λ r. r ≡ bounded (set_tree items.items)) }
{
    read_of(Expr::set(items, (), None))
}

#[tactic(auto, using(crate::proofs::Bounds::settled))]
fn build_call(name: Name, arguments: Vec<Expr<()>>) -> Result<Bounded<Expr<()>>, AllocError>
    ensures { IfOk result (λ r. r ≡ bounded (call_tree name arguments.items)) }
{
    read_of(Expr::extension_function_app(name, arguments, (), None))
}

#[tactic(auto, using(crate::proofs::Bounds::settled))]
fn build_record(fields: BTreeMap<Text, Expr<()>>) -> Result<Bounded<Expr<()>>, AllocError>
    ensures { IfOk result (λ r. r ≡ bounded (record_tree fields.entries)) }
{
    read_of(Expr::record(fields, (), None))
}

fn build_joined(
    alloc: Global,
    junction: Junction,
    x: Expr<()>,
    y: Expr<()>,
) -> Result<Bounded<Expr<()>>, AllocError>
    ensures { IfOk result (λ r. r ≡ bounded (join_tree junction x y)) }
{
    match junction {
        Junction::All => build_and(alloc, x, y),
        Junction::Any => build_or(alloc, x, y),
    }
}

// Two that were read, where neither is nested too deep.
fn both(x: Bounded<Expr<()>>, y: Bounded<Expr<()>>) -> Option<(Expr<()>, Expr<()>)>
    ensures { result ≡ both x y }
{
    match x {
        Bounded::Nested => {
            drop(y);
            None
        }
        Bounded::Within(x) => match y {
            Bounded::Within(y) => Some((x, y)),
            Bounded::Nested => {
                drop(x);
                None
            }
        },
    }
}

/// An operator applied to what was read.
pub fn unary(
    alloc: Global,
    op: UnaryOp,
    x: Option<Bounded<Expr<()>>>,
) -> Result<Option<Bounded<Expr<()>>>, AllocError>
    ensures { IfOk result (λ o. o ≡ option_map (on_one (unary_tree op)) x) }
{
    match x {
        Some(Bounded::Within(x)) => Ok(Some(build_unary(alloc, op, x)?)),
        Some(Bounded::Nested) => Ok(Some(Bounded::Nested)),
        None => Ok(None),
    }
}

/// An operator applied to two that were read.
pub fn binary(
    alloc: Global,
    op: BinaryOp,
    x: Bounded<Expr<()>>,
    y: Bounded<Expr<()>>,
) -> Result<Bounded<Expr<()>>, AllocError>
    ensures { IfOk result (λ r. r ≡ on_two (binary_tree op) x y) }
{
    match both(x, y) {
        Some((x, y)) => build_binary(alloc, op, x, y),
        None => Ok(Bounded::Nested),
    }
}

/// Two that were read, joined.
pub fn joined(
    alloc: Global,
    junction: Junction,
    x: Bounded<Expr<()>>,
    y: Bounded<Expr<()>>,
) -> Result<Bounded<Expr<()>>, AllocError>
    ensures { IfOk result (λ r. r ≡ on_two (join_tree junction) x y) }
{
    match both(x, y) {
        Some((x, y)) => build_joined(alloc, junction, x, y),
        None => Ok(Bounded::Nested),
    }
}

fn branches(
    alloc: Global,
    x: Expr<()>,
    y: Bounded<Expr<()>>,
    z: Bounded<Expr<()>>,
) -> Result<Bounded<Expr<()>>, AllocError>
    ensures { IfOk result (λ r. r ≡ on_two (if_tree x) y z) }
{
    match both(y, z) {
        Some((y, z)) => build_if(alloc, x, y, z),
        None => {
            drop(x);
            Ok(Bounded::Nested)
        }
    }
}

fn conditional(
    alloc: Global,
    x: Bounded<Expr<()>>,
    y: Bounded<Expr<()>>,
    z: Bounded<Expr<()>>,
) -> Result<Bounded<Expr<()>>, AllocError>
    ensures { IfOk result (λ r. r ≡ on_three if_tree x y z) }
{
    match x {
        Bounded::Within(x) => branches(alloc, x, y, z),
        Bounded::Nested => {
            drop(y);
            drop(z);
            Ok(Bounded::Nested)
        }
    }
}

fn fold_all(
    alloc: Global,
    junction: Junction,
    reads: Vec<Bounded<Expr<()>>>,
) -> Result<Option<Bounded<Expr<()>>>, AllocError>
    ensures { IfOk result (λ o. o ≡ folded (on_two (join_tree junction)) reads.items) }
{
    let mut rest = reads.into_iter();
    let Some(mut all) = rest.next() else {
        return Ok(None);
    };
    while let Some(next) = rest.next() {
        let Ok(more) = joined(alloc, junction, all, next) else {
            drop(rest);
            return Err(AllocError);
        };
        all = more;
    }
    Ok(Some(all))
}

// From the last: it stands where no test holds.
fn chain(
    alloc: Global,
    reads: Vec<Bounded<Expr<()>>>,
) -> Result<Option<Bounded<Expr<()>>>, AllocError>
    ensures { IfOk result (λ o. o ≡ chained (on_three if_tree) reads.items) }
{
    let mut rest = reads;
    if rest.len() < 2 {
        return Ok(None);
    }
    let Some(mut all) = rest.pop() else {
        return Ok(None);
    };
    while let Some(branch) = rest.pop() {
        let Some(test) = rest.pop() else {
            drop(branch);
            drop(all);
            return Ok(None);
        };
        let Ok(more) = conditional(alloc, test, branch, all) else {
            drop(rest);
            return Err(AllocError);
        };
        all = more;
    }
    Ok(Some(all))
}

fn pair(
    alloc: Global,
    op: BinaryOp,
    reads: Vec<Bounded<Expr<()>>>,
) -> Result<Option<Bounded<Expr<()>>>, AllocError>
    ensures { IfOk result (λ o. o ≡ paired (on_two (binary_tree op)) reads.items) }
{
    match two(reads) {
        Some((x, y)) => Ok(Some(binary(alloc, op, x, y)?)),
        None => Ok(None),
    }
}

fn formed(
    alloc: Global,
    form: ListForm,
    reads: Vec<Bounded<Expr<()>>>,
) -> Result<Option<Bounded<Expr<()>>>, AllocError>
    ensures { IfOk result (λ o. o ≡ listed_read form reads.items) }
{
    match form {
        ListForm::Fold(junction) => fold_all(alloc, junction, reads),
        ListForm::If => chain(alloc, reads),
        ListForm::Binary(op) => pair(alloc, op, reads),
    }
}

/// What is made of a list of operands.
pub(crate) fn list_form(
    alloc: Global,
    form: ListForm,
    reads: Option<Vec<Bounded<Expr<()>>>>,
) -> Result<Option<Bounded<Expr<()>>>, AllocError>
    ensures { IfOk result (λ o. o ≡ option_and_then (listed_read form) (option_map (λ v. v.items) reads)) }
{
    match reads {
        Some(reads) => formed(alloc, form, reads),
        None => Ok(None),
    }
}

fn get(alloc: Global, x: Bounded<Expr<()>>, name: Text) -> Result<Bounded<Expr<()>>, AllocError>
    ensures { IfOk result (λ r. r ≡ on_name get_tree x name) }
{
    match x {
        Bounded::Within(x) => build_get(alloc, x, name),
        Bounded::Nested => Ok(Bounded::Nested),
    }
}

// One name or more, in turn.
fn get_in_turn(
    alloc: Global,
    names: Vec<Text>,
    x: Bounded<Expr<()>>,
) -> Result<Option<Bounded<Expr<()>>>, AllocError>
    ensures { IfOk result (λ o. o ≡ in_turn (on_name get_tree) names.items x) }
{
    if names.is_empty() {
        drop(x);
        return Ok(None);
    }
    let mut all = x;
    for name in names {
        all = get(alloc, all, name)?;
    }
    Ok(Some(all))
}

/// An attribute of an attribute .. of what was read: one name or more, in turn.
pub(crate) fn get_all(
    alloc: Global,
    names: Vec<Text>,
    x: Option<Bounded<Expr<()>>>,
) -> Result<Option<Bounded<Expr<()>>>, AllocError>
    ensures { IfOk result (λ o. o ≡ option_and_then (in_turn (on_name get_tree) names.items) x) }
{
    match x {
        Some(x) => get_in_turn(alloc, names, x),
        None => Ok(None),
    }
}

// One name.
fn has_name(
    alloc: Global,
    names: Vec<Text>,
    x: Bounded<Expr<()>>,
) -> Result<Option<Bounded<Expr<()>>>, AllocError>
    ensures { IfOk result (λ o. o ≡ of_one (on_name has_tree) names.items x) }
{
    let Some(name) = only(names) else {
        drop(x);
        return Ok(None);
    };
    match x {
        Bounded::Within(x) => Ok(Some(build_has(alloc, x, name)?)),
        Bounded::Nested => Ok(Some(Bounded::Nested)),
    }
}

/// The test for an attribute of what was read: one name.
pub(crate) fn has_one(
    alloc: Global,
    names: Vec<Text>,
    x: Option<Bounded<Expr<()>>>,
) -> Result<Option<Bounded<Expr<()>>>, AllocError>
    ensures { IfOk result (λ o. o ≡ option_and_then (of_one (on_name has_tree) names.items) x) }
{
    match x {
        Some(x) => has_name(alloc, names, x),
        None => Ok(None),
    }
}

/// The test of what was read against a pattern.
pub(crate) fn like(
    alloc: Global,
    pattern: Pattern,
    x: Option<Bounded<Expr<()>>>,
) -> Result<Option<Bounded<Expr<()>>>, AllocError>
    ensures { IfOk result (λ o. o ≡ option_map (on_one (like_tree pattern)) x) }
{
    match x {
        Some(Bounded::Within(x)) => Ok(Some(build_like(alloc, pattern, x)?)),
        Some(Bounded::Nested) => Ok(Some(Bounded::Nested)),
        None => Ok(None),
    }
}

/// The test for the type of what was read.
pub(crate) fn is_of_type(
    alloc: Global,
    entity_type: EntityType,
    x: Option<Bounded<Expr<()>>>,
) -> Result<Option<Bounded<Expr<()>>>, AllocError>
    ensures { IfOk result (λ o. o ≡ option_map (on_one (type_test_tree entity_type)) x) }
{
    match x {
        Some(Bounded::Within(x)) => Ok(Some(build_is(alloc, entity_type, x)?)),
        Some(Bounded::Nested) => Ok(Some(Bounded::Nested)),
        None => Ok(None),
    }
}

fn set_of_all(alloc: Global, reads: Vec<Bounded<Expr<()>>>) -> Result<Bounded<Expr<()>>, AllocError>
    ensures { IfOk result (λ r. r ≡ on_all set_tree (all_within reads.items)) }
{
    match take_all(alloc, reads)? {
        Some(items) => build_set(items),
        None => Ok(Bounded::Nested),
    }
}

/// The set of what was read.
pub(crate) fn set(
    alloc: Global,
    reads: Option<Vec<Bounded<Expr<()>>>>,
) -> Result<Option<Bounded<Expr<()>>>, AllocError>
    ensures { IfOk result
        (λ o. o ≡ option_map (λ rs. on_all set_tree (all_within rs)) (option_map (λ v. v.items) reads)) }
{
    match reads {
        Some(reads) => Ok(Some(set_of_all(alloc, reads)?)),
        None => Ok(None),
    }
}

fn call_of_all(
    alloc: Global,
    name: Name,
    reads: Vec<Bounded<Expr<()>>>,
) -> Result<Bounded<Expr<()>>, AllocError>
    ensures { IfOk result (λ r. r ≡ on_all (call_tree name) (all_within reads.items)) }
{
    match take_all(alloc, reads)? {
        Some(arguments) => build_call(name, arguments),
        None => Ok(Bounded::Nested),
    }
}

/// The call of a function with what was read.
pub(crate) fn call(
    alloc: Global,
    name: Name,
    reads: Option<Vec<Bounded<Expr<()>>>>,
) -> Result<Option<Bounded<Expr<()>>>, AllocError>
    ensures { IfOk result (λ o. o ≡
        option_map (λ rs. on_all (call_tree name) (all_within rs)) (option_map (λ v. v.items) reads)) }
{
    match reads {
        Some(reads) => Ok(Some(call_of_all(alloc, name, reads)?)),
        None => Ok(None),
    }
}

fn record_of_all(
    alloc: Global,
    reads: BTreeMap<Text, Bounded<Expr<()>>>,
) -> Result<Bounded<Expr<()>>, AllocError>
    ensures { IfOk result (λ r. r ≡ on_all record_tree (fields_within reads.entries)) }
{
    match take_fields(alloc, reads)? {
        Some(fields) => build_record(fields),
        None => Ok(Bounded::Nested),
    }
}

/// The record of what was read.
pub(crate) fn record(
    alloc: Global,
    reads: Option<BTreeMap<Text, Bounded<Expr<()>>>>,
) -> Result<Option<Bounded<Expr<()>>>, AllocError>
    ensures { IfOk result (λ o. o ≡
        option_map (λ rs. on_all record_tree (fields_within rs)) (option_map (λ m. m.entries) reads)) }
{
    match reads {
        Some(reads) => Ok(Some(record_of_all(alloc, reads)?)),
        None => Ok(None),
    }
}

fn at_place(x: Bounded<Expr<()>>, loc: Loc) -> Bounded<Expr<()>>
    ensures { result ≡ placed_read loc x }
{
    match x {
        Bounded::Within(mut x) => {
            x.set_source_loc(Some(loc));
            Bounded::Within(x)
        }
        Bounded::Nested => Bounded::Nested,
    }
}

/// What was read, with this place in the source.
pub(crate) fn place(x: Option<Bounded<Expr<()>>>, loc: Loc) -> Option<Bounded<Expr<()>>>
    ensures { result ≡ option_map (placed_read loc) x }
{
    match x {
        Some(x) => Some(at_place(x, loc)),
        None => None,
    }
}
