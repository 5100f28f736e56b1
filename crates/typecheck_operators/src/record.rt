//! Record literals.

ghost use Rattle.std.specs.Prelude.{◌≡◌, ◌++◌, IfOk, map, option_map};
ghost use Rattle.std.specs.List.{list_all};
ghost use Rattle.policy_expressions.specs.Tree.{named_of};
ghost use Rattle.typecheck_rules.specs.Walked.{has_typing, findings_of_all};
ghost use Rattle.typecheck_rules.specs.Operators as definition;
ghost use Rattle.typecheck_rules.specs.Operators.{parts_of};
ghost use Rattle.typecheck_rules.specs.Found.{findings_from};
ghost use Rattle.typecheck_operators.specs.Parts.{fields_given, trees_in_fields, record_in_parts};
ghost use Rattle.typecheck_operators.specs.Reported.{mark, walked_of, field_of};

use crate::parts::{add_found, is_typed, reported_rest, type_given};
use crate::reported::{Reported, Typing, ended_typed, failed};
use policy_expressions::{BuildError, Expr, Loc};
use policy_values::{Text, push_entry};
use schema_types::Type;
use std::alloc::{AllocError, Global};
use std::collections::BTreeMap;
use typecheck_rules::{Finding, record_type};
use typing_spec::CapabilitySet;

/// A record literal, by what its fields come to. Errs where memory runs out, or the expression
/// would be nested too deep.
#[tactic(auto, using(crate::proofs::PartLaws::record_by_parts))]
pub fn record_reported<'a>(
    alloc: Global,
    loc: Option<Loc>,
    fs: BTreeMap<Text, Reported<'a>>,
) -> Result<Reported<'a>, BuildError>
    ensures { IfOk result (λ r. walked_of r ≡
        definition.record_walked (mark loc) (map field_of fs.entry.entries)) }
{
    let ok = are_fields_typed(&fs);
    let types = fields_given(alloc, &fs)?;
    let rest = rest_of_fields(alloc, fs)?;
    record_ended(alloc, loc, ok, types, rest.trees, rest.found)
}

// Whether all have a typing.
fn are_fields_typed(fs: &BTreeMap<Text, Reported<'_>>) -> bool
    ensures { result ≡ list_all has_typing (parts_of (map field_of fs.now.entries)) }
{
    for (_, w) in fs.iter() {
        if !is_typed(w) {
            return false;
        }
    }
    true
}

// The types that fields give under their keys, where each gives one.
fn fields_given(
    alloc: Global,
    fs: &BTreeMap<Text, Reported<'_>>,
) -> Result<Option<BTreeMap<Text, Type>>, AllocError>
    ensures { IfOk result (λ o. option_map (λ m. m.entries) o ≡
        fields_given (map field_of fs.now.entries)) }
{
    let mut types = BTreeMap::new(alloc);
    for (key, w) in fs.iter() {
        match type_given(alloc, w)? {
            Some(t) => {
                let key = or_drop!(key.try_clone(), t);
                push_entry(&mut types, key, t)?;
            }
            None => return Ok(None),
        }
    }
    Ok(Some(types))
}

// The expressions under their keys, and all that is found.
#[derive(Drop)]
struct Rest {
    trees: BTreeMap<Text, Expr<Option<Type>>>,
    found: Vec<Finding>,
}

fn rest_of_fields(alloc: Global, fs: BTreeMap<Text, Reported<'_>>) -> Result<Rest, AllocError>
    ensures trees { IfOk result (λ r. r.trees.entries ≡
        trees_in_fields (map field_of fs.entry.entries)) }
    ensures found { IfOk result (λ r. findings_from r.found.items ≡
        findings_of_all (parts_of (map field_of fs.entry.entries))) }
{
    let mut trees = BTreeMap::new(alloc);
    let mut found = Vec::new(alloc);
    for (key, w) in fs {
        let (tree, more) = reported_rest(alloc, w);
        push_entry(&mut trees, key, tree)?;
        add_found(&mut found, more)?;
    }
    Ok(Rest { trees, found })
}

fn record_ended<'a>(
    alloc: Global,
    loc: Option<Loc>,
    ok: bool,
    types: Option<BTreeMap<Text, Type>>,
    trees: BTreeMap<Text, Expr<Option<Type>>>,
    found: Vec<Finding>,
) -> Result<Reported<'a>, BuildError>
    ensures { IfOk result (λ r. walked_of r ≡
        record_in_parts (mark loc) ok (option_map (λ m. m.entries) types) (named_of trees.entries)
        (findings_from found.items)) }
{
    match types {
        Some(types) => {
            let of = record_type(alloc, types)?;
            let note = or_drop!(of.try_clone(alloc), of);
            let tree = or_drop!(Expr::record(trees, Some(note), loc), of);
            let caps = CapabilitySet::new(alloc);
            Ok(ended_typed(alloc, ok, Typing { of, caps, tree }, found)?)
        }
        None => {
            let tree = Expr::record(trees, None, loc)?;
            Ok(failed(alloc, tree, found)?)
        }
    }
}
