//! The parts of expressions in JSON that are no expressions.

ghost use Rattle.std.specs.Prelude.{◌≡◌, ◌++◌, ◌∷◌, [], IfOk, OnOk, map, option_map};
ghost use Rattle.std.specs.Str.{chars};
ghost use Rattle.policy_expressions.specs.declared.kinds.PatternElem.TheVariants.{Char};
ghost use Rattle.json_trees.specs.Trees.{tree_view, trees_view};
ghost use Rattle.json_values.specs.Names.{name_of, name_of_text};
ghost use Rattle.json_expressions.specs.Parts.{elements_of, called_name_of, loc_of, loc_of_ends, loc_of_items, attr_names_of, offset_of, pattern_of, pattern_of_items, second_of, texts_of, tested_type_of};

use json_trees::{Tree, as_i64, as_str, is_null, items_of, read_name};
use json_values::with_item;
use policy_expressions::{Loc, Pattern, PatternElem};
use policy_values::{EntityType, Name, Text};
use std::alloc::{AllocError, Global};

fn read_texts(alloc: Global, items: &[Tree<'_>]) -> Result<Option<Vec<Text>>, AllocError>
    ensures { IfOk result (λ o. option_map (λ v. v.items) o ≡ texts_of (trees_view items.now)) }
{
    let mut texts = Vec::new(alloc);
    for item in items {
        let Some(text) = as_str(item) else {
            return Ok(None);
        };
        add_text(alloc, &mut texts, text)?;
    }
    Ok(Some(texts))
}

// Adds the text behind the others.
fn add_text(alloc: Global, texts: &mut Vec<Text>, text: &str) -> Result<(), AllocError>
    ensures { OnOk result (texts.new.items ≡ texts.old.items ++ text.now ∷ []) }
{
    let text = text_like(alloc, text, texts.last())?;
    texts.push(text)?;
    Ok(())
}

// The text, which shares its characters with the one before it where it is that text.
fn text_like(alloc: Global, text: &str, before: Option<&Text>) -> Result<Text, AllocError>
    ensures { IfOk result (λ t. t ≡ text.now) }
{
    if let Some(before) = before {
        if before.as_str() == text {
            let shared = before.try_clone()?;
            return Ok(shared);
        }
    }
    Text::from_str(alloc, text)
}

/// The texts behind the first item of a list.
pub(crate) fn read_names(alloc: Global, tree: &Tree<'_>) -> Result<Option<Vec<Text>>, AllocError>
    ensures { IfOk result (λ o. option_map (λ v. v.items) o ≡ attr_names_of (tree_view tree.now)) }
{
    let Some(items) = items_of(tree) else {
        return Ok(None);
    };
    match items {
        [] => Ok(Some(Vec::new(alloc))),
        [_, rest @ ..] => read_texts(alloc, rest),
    }
}

// Behind the elements, the characters of a text.
fn push_chars(elements: Vec<PatternElem>, text: &str) -> Result<Vec<PatternElem>, AllocError>
    ensures { IfOk result (λ all. all.items ≡ elements.items ++ map Char (chars text.now)) }
{
    let mut all = elements;
    for c in text.chars() {
        all.push(PatternElem::Char(c))?;
    }
    Ok(all)
}

// Behind the elements, what the tree stands for.
#[tactic(auto, using(crate::proofs::Elements::null_element, crate::proofs::Elements::text_elements, crate::proofs::Elements::no_elements))]
fn push_elements(
    elements: Vec<PatternElem>,
    tree: &Tree<'_>,
) -> Result<Option<Vec<PatternElem>>, AllocError>
    ensures { IfOk result (λ o. option_map (λ all. all.items) o ≡
        option_map (λ more. elements.items ++ more) (elements_of (tree_view tree.now))) }
{
    if is_null(tree) {
        return Ok(Some(with_item(elements, PatternElem::Wildcard)?));
    }
    match as_str(tree) {
        Some(text) => Ok(Some(push_chars(elements, text)?)),
        None => Ok(None),
    }
}

fn read_elements(alloc: Global, items: &[Tree<'_>]) -> Result<Option<Vec<PatternElem>>, AllocError>
    ensures { IfOk result
        (λ o. option_map (λ all. all.items) o ≡ pattern_of_items (trees_view items.now)) }
{
    let mut elements = Vec::new(alloc);
    for item in items {
        let Some(more) = push_elements(elements, item)? else {
            return Ok(None);
        };
        elements = more;
    }
    Ok(Some(elements))
}

// The second item, where there are two.
fn second<'t, 'a>(tree: &'t Tree<'a>) -> Option<&'t Tree<'a>>
    ensures { option_map (λ t. tree_view t.now) result ≡ second_of (tree_view tree.now) }
{
    let items = items_of(tree)?;
    if items.len() == 2 {
        Some(&items[1])
    } else {
        None
    }
}

/// The pattern that the second of two items is.
pub(crate) fn read_pattern(alloc: Global, tree: &Tree<'_>) -> Result<Option<Pattern>, AllocError>
    ensures { IfOk result (λ o. o ≡ pattern_of (tree_view tree.now)) }
{
    let Some(pattern) = second(tree) else {
        return Ok(None);
    };
    let Some(items) = items_of(pattern) else {
        return Ok(None);
    };
    match read_elements(alloc, items)? {
        Some(elements) => Ok(Some(Pattern::new(elements))),
        None => Ok(None),
    }
}

/// The type that the second of two items names.
pub(crate) fn read_type(alloc: Global, tree: &Tree<'_>) -> Result<Option<EntityType>, AllocError>
    ensures { IfOk result (λ o. o ≡ tested_type_of (tree_view tree.now)) }
{
    match second(tree) {
        Some(name) => read_name(alloc, name),
        None => Ok(None),
    }
}

// The function that a text names.
fn function_named(alloc: Global, text: &str) -> Result<Option<Name>, AllocError>
    ensures { IfOk result (λ o. o ≡ name_of_text text.now) }
{
    match Name::parse(alloc, text)? {
        Some(name) => Ok(Some(name)),
        None => Ok(None),
    }
}

fn read_function_name(alloc: Global, tree: &Tree<'_>) -> Result<Option<Name>, AllocError>
    ensures { IfOk result (λ o. o ≡ name_of (tree_view tree.now)) }
{
    match as_str(tree) {
        Some(text) => function_named(alloc, text),
        None => Ok(None),
    }
}

/// The function that the first item names.
pub(crate) fn read_function(alloc: Global, tree: &Tree<'_>) -> Result<Option<Name>, AllocError>
    ensures { IfOk result (λ o. o ≡ called_name_of (tree_view tree.now)) }
{
    let Some(items) = items_of(tree) else {
        return Ok(None);
    };
    match items {
        [first, ..] => read_function_name(alloc, first),
        [] => Ok(None),
    }
}

// The greatest offset of a place.
const GREATEST_OFFSET: i64 = 4_294_967_295;

fn read_offset(tree: &Tree<'_>) -> Option<usize>
    ensures { result ≡ offset_of (tree_view tree.now) }
{
    let offset = as_i64(tree)?;
    if offset < 0 || offset > GREATEST_OFFSET {
        return None;
    }
    Some(offset as usize)
}

fn read_ends(start: &Tree<'_>, end: &Tree<'_>) -> Option<Loc>
    ensures { result ≡ loc_of_ends (tree_view start.now) (tree_view end.now) }
{
    let start = read_offset(start)?;
    let end = read_offset(end)?;
    if start <= end {
        Some(Loc { start, end })
    } else {
        None
    }
}

fn read_loc_items(items: &[Tree<'_>]) -> Option<Loc>
    ensures { result ≡ loc_of_items (trees_view items.now) }
{
    match items {
        [start, end] => read_ends(start, end),
        _ => None,
    }
}

/// A place in the source: where it starts and where it ends, which is not before.
pub(crate) fn read_loc(tree: &Tree<'_>) -> Option<Loc>
    ensures { result ≡ loc_of (tree_view tree.now) }
{
    match items_of(tree) {
        Some(items) => read_loc_items(items),
        None => None,
    }
}
