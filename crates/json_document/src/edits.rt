//! Edits to a set of policies, in JSON.

ghost use Rattle.std.specs.Prelude.{◌≡◌, [], IfOk};
ghost use Rattle.json_trees.specs.Trees.{tree_view, trees_view};
ghost use Rattle.json_document.specs.Edits.{addition_at, edit_at, edits_of, removal_at, removed_of};
ghost use Rattle.json_document.specs.Faults.{ComesTo};

use crate::{DocumentFault, Edit, Place, PolicyRead, read_entry};
use json_trees::{Tree, get, get_str, has_only};
use policy_values::Text;
use std::alloc::{AllocError, Global};
use std::marker::Model;

/// Edits, in their order; contracts see them as their list.
#[derive(Debug, Drop)]
pub struct Edits {
    items: Vec<Edit>,
}

impl Model for Edits {
    ghost use Rattle.std.specs.Prelude.{List};
    ghost use Rattle.std.specs.Coded.{coded_list};
    ghost use Rattle.json_document.specs.declared.edit.Edit.{Edit};
    ghost use Rattle.json_document.specs.contracts.edit.Edit.{the_row as edit_row};

    ghost Value = { List Edit };

    ghost coded = { coded_list edit_row.coded };

    ghost view = { λ e. e.items.items };
}

impl Edits {
    /// These edits.
    pub fn new(items: Vec<Edit>) -> Edits
        ensures { result ≡ items.items }
    {
        Edits { items }
    }

    /// The edits, for whoever makes them.
    pub fn into_vec(self) -> Vec<Edit>
        ensures { result.items ≡ self }
    {
        self.items
    }
}

// The id that an object without other members says to remove.
#[tactic(auto, unfolding(crate::specs::Edits::removed_of))]
fn read_removal(alloc: Global, tree: &Tree<'_>) -> Result<Option<Text>, AllocError>
    ensures { IfOk result (λ o. o ≡ removed_of (tree_view tree.now)) }
{
    let Some(id) = get_str(tree, "remove") else {
        return Ok(None);
    };
    if !has_only(&["remove"], tree) {
        return Ok(None);
    }
    Ok(Some(Text::from_str(alloc, id)?))
}

fn removal(index: usize, removed: Option<Text>) -> Result<Edit, DocumentFault>
    ensures { ComesTo (λ e. e) result (removal_at index removed) }
{
    match removed {
        Some(id) => Ok(Edit::Remove(id)),
        None => Err(DocumentFault::Place(Place::Edit(index))),
    }
}

fn addition(index: usize, read: Option<PolicyRead>) -> Result<Edit, DocumentFault>
    ensures { ComesTo (λ e. e) result (addition_at index read) }
{
    match read {
        Some(PolicyRead::Policy(template)) => Ok(Edit::Policy(template)),
        Some(PolicyRead::Link(link)) => Ok(Edit::Link(link)),
        Some(PolicyRead::Nested) => Err(DocumentFault::Place(Place::EditNested(index))),
        None => Err(DocumentFault::Place(Place::Edit(index))),
    }
}

// The edit that the tree says: a removal, where it has the member `remove`, else what a list of policies
// may have.
fn read_edit(alloc: Global, index: usize, tree: &Tree<'_>) -> Result<Edit, DocumentFault>
    ensures { ComesTo (λ e. e) result (edit_at index (tree_view tree.now)) }
{
    if get(tree, "remove").is_none() {
        let read = read_entry(alloc, tree)?;
        return addition(index, read);
    }
    let removed = read_removal(alloc, tree)?;
    removal(index, removed)
}

// The edit that the tree says, which is let go of then.
fn edit_in(alloc: Global, index: usize, tree: Tree<'_>) -> Result<Edit, DocumentFault>
    ensures { ComesTo (λ e. e) result (edit_at index (tree_view tree.entry)) }
{
    let edit = read_edit(alloc, index, &tree);
    drop(tree);
    edit
}

fn read_items(alloc: Global, items: Vec<Tree<'_>>) -> Result<Vec<Edit>, DocumentFault>
    ensures { ComesTo (λ v. v.items) result (edits_of [] (trees_view items.entry.items)) }
{
    let mut edits = Vec::new(alloc);
    for item in items {
        let edit = edit_in(alloc, edits.len(), item)?;
        edits.push(edit)?;
    }
    Ok(edits)
}

/// The edits of the items; else the place of the first fault.
pub(crate) fn read_edits(alloc: Global, items: Vec<Tree<'_>>) -> Result<Edits, DocumentFault>
    ensures { ComesTo (λ es. es) result (edits_of [] (trees_view items.entry.items)) }
{
    let edits = read_items(alloc, items)?;
    Ok(Edits::new(edits))
}
