//! Expressions in JSON.

ghost use Rattle.std.specs.Prelude.{◌≡◌, IfOk, map, option_map, option_and_then};
ghost use Rattle.json_trees.specs.Trees.{named_view, tree_view, trees_view};
ghost use Rattle.serde_json.specs.Find.{as_number};
ghost use Rattle.policy_expressions.specs.Tree.{lit};
ghost use Rattle.json_expressions.specs.Forms.{call_tree, get_tree, has_tree, id_tree, in_turn, like_tree, listed_tree, long_tree, of_one, placed, record_tree, set_tree, type_test_tree, unary_tree, unmarked, var_tree};
ghost use Rattle.json_expressions.specs.Parts.{called_name_of, attr_names_of, pattern_of, tested_type_of};
ghost use Rattle.json_expressions.specs.Reads.{bounded, bounded_field};
ghost use Rattle.json_expressions.specs.Exprs.{expr_of, expr_of_members, exprs_of, first_expr_of, formed_tree, named_exprs_of, named_form_tree, named_tree, operands_all, operands_fields, operands_behind, operands_first, operands_of, is_place, placed_tree, with_part};

use crate::forms::{Form, ListForm, form_named, var_named};
use crate::nesting::Bounded;
use crate::parts::{read_function, read_loc, read_names, read_pattern, read_type};
use crate::reads::{
    call, get_all, has_one, is_of_type, like, list_form, place, record, set, unary,
};
use json_trees::{Tree, as_i64, as_str, member_places, read_uid};
use json_values::{with_field, with_item};
use policy_expressions::{Expr, Literal, Loc, Pattern, UnaryOp};
use policy_values::{EntityType, Name, Text};
use std::alloc::{AllocError, Global};
use std::collections::BTreeMap;

fn leaf(literal: Literal) -> Bounded<Expr<()>>
    ensures { result ≡ bounded (lit literal unmarked) }
{
    Bounded::Within(Expr::lit(literal, (), None))
}

fn read_id(alloc: Global, tree: &Tree<'_>) -> Result<Option<Bounded<Expr<()>>>, AllocError>
    ensures { IfOk result (λ o. o ≡ option_map bounded (id_tree (tree_view tree.now))) }
{
    match read_uid(alloc, tree)? {
        Some(uid) => Ok(Some(leaf(Literal::EntityUID(uid)))),
        None => Ok(None),
    }
}

fn read_var(tree: &Tree<'_>) -> Option<Bounded<Expr<()>>>
    ensures { result ≡ option_map bounded (var_tree (tree_view tree.now)) }
{
    match as_str(tree).and_then(var_named) {
        Some(var) => Some(Bounded::Within(Expr::var(var, (), None))),
        None => None,
    }
}

fn read_long(tree: &Tree<'_>) -> Option<Bounded<Expr<()>>>
    ensures { result ≡ option_map bounded (option_and_then long_tree (as_number (tree_view tree.now))) }
{
    match as_i64(tree) {
        Some(n) => Some(leaf(Literal::Long(n))),
        None => None,
    }
}

fn is_place(first: &str, second: &str) -> bool
    ensures { result ≡ is_place first.now second.now }
{
    first == "at" && second == "of"
}

/// The expression that the tree says, where it says one; `Nested`, where that is nested deeper than 400.
/// What an object holds is looked at to its end also where it is nested too deep, since a fault of the form
/// comes first.
#[cycle(expr)]
pub fn read_expr(alloc: Global, tree: &Tree<'_>) -> Result<Option<Bounded<Expr<()>>>, AllocError>
    ensures { IfOk result (λ o. o ≡ option_map bounded (expr_of (tree_view tree.now))) }
{
    match tree {
        Tree::Null => Ok(None),
        Tree::Bool(b) => Ok(Some(leaf(Literal::Bool(*b)))),
        Tree::Number(_) => Ok(read_long(tree)),
        Tree::String(text) => Ok(Some(leaf(Literal::String(Text::from_str(alloc, text)?)))),
        Tree::Array(items) => read_set(alloc, items.as_slice()),
        Tree::Object(members) => read_members(alloc, members.as_slice()),
    }
}

#[cycle(expr)]
#[tactic(auto, using(crate::proofs::Bounds::set_reads))]
fn read_set(alloc: Global, items: &[Tree<'_>]) -> Result<Option<Bounded<Expr<()>>>, AllocError>
    ensures { IfOk result
        (λ o. o ≡ option_map bounded (option_map set_tree (exprs_of (trees_view items.now)))) }
{
    let reads = read_items(alloc, items)?;
    set(alloc, reads)
}

#[cycle(expr)]
fn read_items(
    alloc: Global,
    items: &[Tree<'_>],
) -> Result<Option<Vec<Bounded<Expr<()>>>>, AllocError>
    ensures { IfOk result (λ o. option_map (λ v. v.items) o ≡
        option_map (map bounded) (exprs_of (trees_view items.now))) }
{
    let mut all = Vec::new(alloc);
    for item in items {
        let Ok(next) = read_expr(alloc, item) else {
            drop(all);
            return Err(AllocError);
        };
        let Some(next) = next else {
            drop(all);
            return Ok(None);
        };
        all = with_item(all, next)?;
    }
    Ok(Some(all))
}

#[cycle(expr)]
fn read_members<'a>(
    alloc: Global,
    members: &[(&'a str, Tree<'a>)],
) -> Result<Option<Bounded<Expr<()>>>, AllocError>
    ensures { IfOk result (λ o. o ≡ option_map bounded (expr_of_members (named_view members.now))) }
{
    match members {
        [(key, tree)] => read_named_form(alloc, tree, key),
        _ => read_several(alloc, members),
    }
}

// What the members say by their names, of which several may be the same.
#[cycle(expr)]
fn read_several<'a>(
    alloc: Global,
    members: &[(&'a str, Tree<'a>)],
) -> Result<Option<Bounded<Expr<()>>>, AllocError>
    ensures { IfOk result (λ o. o ≡ option_map bounded (expr_of_members (named_view members.now))) }
{
    let places = member_places(alloc, members)?;
    let mut rest = places.iter();
    let Some((first, first_place)) = rest.next() else {
        return Ok(None);
    };
    let tree = &members[*first_place].1;
    let Some((second, second_place)) = rest.next() else {
        return read_named_form(alloc, tree, first);
    };
    if rest.next().is_some() {
        return Ok(None);
    }
    let inner = &members[*second_place].1;
    read_placed(alloc, inner, second, first, tree)
}

#[cycle(expr)]
#[tactic(auto, unfolding(crate::specs::Exprs::placed_tree))]
fn read_placed(
    alloc: Global,
    inner: &Tree<'_>,
    second: &str,
    first: &str,
    loc: &Tree<'_>,
) -> Result<Option<Bounded<Expr<()>>>, AllocError>
    ensures { IfOk result (λ o. o ≡
        option_map bounded (placed_tree first.now (tree_view loc.now)
        second.now (expr_of (tree_view inner.now)))) }
{
    if !is_place(first, second) {
        return Ok(None);
    }
    match read_loc(loc) {
        Some(loc) => read_at(alloc, inner, loc),
        None => Ok(None),
    }
}

#[cycle(expr)]
#[tactic(auto, using(crate::proofs::Bounds::placed_reads))]
fn read_at(
    alloc: Global,
    inner: &Tree<'_>,
    loc: Loc,
) -> Result<Option<Bounded<Expr<()>>>, AllocError>
    ensures { IfOk result
        (λ o. o ≡ option_map bounded (option_map (placed loc) (expr_of (tree_view inner.now)))) }
{
    let read = read_expr(alloc, inner)?;
    Ok(place(read, loc))
}

#[cycle(expr)]
#[tactic(auto, unfolding(crate::specs::Exprs::named_form_tree))]
fn read_named_form(
    alloc: Global,
    tree: &Tree<'_>,
    key: &str,
) -> Result<Option<Bounded<Expr<()>>>, AllocError>
    ensures { IfOk result (λ o. o ≡ option_map bounded
        (named_form_tree key.now (tree_view tree.now) (operands_of (tree_view tree.now)))) }
{
    match form_named(key) {
        Some(form) => read_form(alloc, tree, form),
        None => Ok(None),
    }
}

#[cycle(expr)]
fn read_form(
    alloc: Global,
    tree: &Tree<'_>,
    form: Form,
) -> Result<Option<Bounded<Expr<()>>>, AllocError>
    ensures { IfOk result (λ o. o ≡
        option_map bounded (formed_tree form (tree_view tree.now) (operands_of (tree_view tree.now)))) }
{
    match form {
        Form::Id => read_id(alloc, tree),
        Form::Var => Ok(read_var(tree)),
        Form::Unary(op) => read_unary(alloc, tree, op),
        Form::List(form) => read_list(alloc, tree, form),
        Form::Get => read_get(alloc, tree),
        Form::Has => read_has(alloc, tree),
        Form::Like => read_like(alloc, tree),
        Form::Is => read_is(alloc, tree),
        Form::Call => read_call(alloc, tree),
        Form::Record => read_record(alloc, tree),
    }
}

#[cycle(expr)]
#[tactic(auto, using(crate::proofs::Bounds::unary_reads))]
fn read_unary(
    alloc: Global,
    tree: &Tree<'_>,
    op: UnaryOp,
) -> Result<Option<Bounded<Expr<()>>>, AllocError>
    ensures { IfOk result
        (λ o. o ≡ option_map bounded (option_map (unary_tree op) (expr_of (tree_view tree.now)))) }
{
    let read = read_expr(alloc, tree)?;
    unary(alloc, op, read)
}

#[cycle(expr)]
fn read_list(
    alloc: Global,
    tree: &Tree<'_>,
    form: ListForm,
) -> Result<Option<Bounded<Expr<()>>>, AllocError>
    ensures { IfOk result (λ o. o ≡
        option_map bounded (option_and_then (listed_tree form) (operands_all (tree_view tree.now)))) }
{
    match tree {
        Tree::Array(items) => read_operands(alloc, items.as_slice(), form),
        _ => Ok(None),
    }
}

#[cycle(expr)]
#[tactic(auto, using(crate::proofs::Bounds::listed_reads))]
fn read_operands(
    alloc: Global,
    items: &[Tree<'_>],
    form: ListForm,
) -> Result<Option<Bounded<Expr<()>>>, AllocError>
    ensures { IfOk result (λ o. o ≡
        option_map bounded (option_and_then (listed_tree form) (exprs_of (trees_view items.now)))) }
{
    let reads = read_items(alloc, items)?;
    list_form(alloc, form, reads)
}

#[cycle(expr)]
fn read_first(alloc: Global, tree: &Tree<'_>) -> Result<Option<Bounded<Expr<()>>>, AllocError>
    ensures { IfOk result (λ o. o ≡ option_map bounded (operands_first (tree_view tree.now))) }
{
    let Tree::Array(items) = tree else {
        return Ok(None);
    };
    match items.as_slice() {
        [first, ..] => read_expr(alloc, first),
        [] => Ok(None),
    }
}

#[cycle(expr)]
fn read_get(alloc: Global, tree: &Tree<'_>) -> Result<Option<Bounded<Expr<()>>>, AllocError>
    ensures { IfOk result (λ o. o ≡ option_map bounded (named_tree
        (attr_names_of (tree_view tree.now)) (in_turn get_tree) (operands_first (tree_view tree.now)))) }
{
    let Some(names) = read_names(alloc, tree)? else {
        return Ok(None);
    };
    let read = read_first(alloc, tree)?;
    get_all(alloc, names, read)
}

#[cycle(expr)]
fn read_has(alloc: Global, tree: &Tree<'_>) -> Result<Option<Bounded<Expr<()>>>, AllocError>
    ensures { IfOk result (λ o. o ≡ option_map bounded (named_tree
        (attr_names_of (tree_view tree.now)) (of_one has_tree) (operands_first (tree_view tree.now)))) }
{
    let Some(names) = read_names(alloc, tree)? else {
        return Ok(None);
    };
    let read = read_first(alloc, tree)?;
    has_one(alloc, names, read)
}

#[cycle(expr)]
fn read_like(alloc: Global, tree: &Tree<'_>) -> Result<Option<Bounded<Expr<()>>>, AllocError>
    ensures { IfOk result (λ o. o ≡ option_map bounded
        (with_part like_tree (pattern_of (tree_view tree.now)) (operands_first (tree_view tree.now)))) }
{
    match read_pattern(alloc, tree)? {
        Some(pattern) => read_matched(alloc, tree, pattern),
        None => Ok(None),
    }
}

#[cycle(expr)]
#[tactic(auto, using(crate::proofs::Bounds::like_reads))]
fn read_matched(
    alloc: Global,
    tree: &Tree<'_>,
    pattern: Pattern,
) -> Result<Option<Bounded<Expr<()>>>, AllocError>
    ensures { IfOk result (λ o. o ≡
        option_map bounded (option_map (like_tree pattern) (operands_first (tree_view tree.now)))) }
{
    let read = read_first(alloc, tree)?;
    like(alloc, pattern, read)
}

#[cycle(expr)]
fn read_is(alloc: Global, tree: &Tree<'_>) -> Result<Option<Bounded<Expr<()>>>, AllocError>
    ensures { IfOk result (λ o. o ≡ option_map bounded
        (with_part type_test_tree (tested_type_of (tree_view tree.now))
        (operands_first (tree_view tree.now)))) }
{
    match read_type(alloc, tree)? {
        Some(entity_type) => read_typed(alloc, tree, entity_type),
        None => Ok(None),
    }
}

#[cycle(expr)]
#[tactic(auto, using(crate::proofs::Bounds::type_test_reads))]
fn read_typed(
    alloc: Global,
    tree: &Tree<'_>,
    entity_type: EntityType,
) -> Result<Option<Bounded<Expr<()>>>, AllocError>
    ensures { IfOk result (λ o. o ≡
        option_map bounded (option_map (type_test_tree entity_type) (operands_first (tree_view tree.now)))) }
{
    let read = read_first(alloc, tree)?;
    is_of_type(alloc, entity_type, read)
}

#[cycle(expr)]
fn read_call(alloc: Global, tree: &Tree<'_>) -> Result<Option<Bounded<Expr<()>>>, AllocError>
    ensures { IfOk result (λ o. o ≡ option_map bounded
        (with_part call_tree (called_name_of (tree_view tree.now)) (operands_behind (tree_view tree.now)))) }
{
    match read_function(alloc, tree)? {
        Some(name) => read_called(alloc, tree, name),
        None => Ok(None),
    }
}

#[cycle(expr)]
fn read_called(
    alloc: Global,
    tree: &Tree<'_>,
    name: Name,
) -> Result<Option<Bounded<Expr<()>>>, AllocError>
    ensures { IfOk result
        (λ o. o ≡ option_map bounded (option_map (call_tree name) (operands_behind (tree_view tree.now)))) }
{
    let reads = read_behind_first(alloc, tree)?;
    call(alloc, name, reads)
}

#[cycle(expr)]
fn read_behind_first(
    alloc: Global,
    tree: &Tree<'_>,
) -> Result<Option<Vec<Bounded<Expr<()>>>>, AllocError>
    ensures { IfOk result (λ o. option_map (λ v. v.items) o ≡
        option_map (map bounded) (operands_behind (tree_view tree.now))) }
{
    let Tree::Array(items) = tree else {
        return Ok(None);
    };
    match items.as_slice() {
        [_, rest @ ..] => read_items(alloc, rest),
        [] => Ok(None),
    }
}

#[cycle(expr)]
fn read_record(alloc: Global, tree: &Tree<'_>) -> Result<Option<Bounded<Expr<()>>>, AllocError>
    ensures { IfOk result
        (λ o. o ≡ option_map bounded (option_map record_tree (operands_fields (tree_view tree.now)))) }
{
    match tree {
        Tree::Object(members) => read_named(alloc, members.as_slice()),
        _ => Ok(None),
    }
}

#[cycle(expr)]
#[tactic(auto, using(crate::proofs::Bounds::record_reads))]
fn read_named<'a>(
    alloc: Global,
    members: &[(&'a str, Tree<'a>)],
) -> Result<Option<Bounded<Expr<()>>>, AllocError>
    ensures { IfOk result (λ o. o ≡
        option_map bounded (option_map record_tree (named_exprs_of (named_view members.now)))) }
{
    let reads = read_fields(alloc, members)?;
    record(alloc, reads)
}

#[cycle(expr)]
fn read_fields<'a>(
    alloc: Global,
    members: &[(&'a str, Tree<'a>)],
) -> Result<Option<BTreeMap<Text, Bounded<Expr<()>>>>, AllocError>
    ensures { IfOk result (λ o. option_map (λ m. m.entries) o ≡
        option_map (map bounded_field) (named_exprs_of (named_view members.now))) }
{
    let places = member_places(alloc, members)?;
    let mut fields = BTreeMap::new(alloc);
    for (key, place) in places.iter() {
        let Ok(next) = read_expr(alloc, &members[*place].1) else {
            drop(fields);
            return Err(AllocError);
        };
        let Some(next) = next else {
            drop(fields);
            return Ok(None);
        };
        fields = with_field(alloc, fields, key, next)?;
    }
    Ok(Some(fields))
}
