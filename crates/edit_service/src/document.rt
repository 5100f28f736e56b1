//! Documents of edits: a schema, the policies before, and the policies after. All three have to be there.

ghost use Rattle.std.specs.Prelude.{◌≡◌, IfOk, option_map};
ghost use Rattle.serde_json.specs.Data.{object};
ghost use Rattle.serde_json.specs.Find.{as_array};
ghost use Rattle.json_trees.specs.Trees.{named_view, tree_view, trees_view};
ghost use Rattle.json_schema.specs.Schema.{schema_of};
ghost use Rattle.json_document.specs.Faults.{ComesTo, MayComeTo};
ghost use Rattle.json_document.specs.Reading.{IsSchemaFrom};
ghost use Rattle.edit_service.specs.Documents.{items_in, parts_of, parts_view, set_of, IsRead, IsReadAs, IsReadFrom, IsReadBehindBefore, IsReadBehindSchema};

use crate::fault::EditFault;
use json_document::{DocumentFault, Place, Scratch, Tree, read_policies, read_schema, read_tree};
use json_trees::{have_only, take, value_of};
use policy_set::PolicySet;
use schema_core::ValidatorSchema;
use std::alloc::{AllocError, Global};

/// A schema, and the policies before and after an edit.
#[derive(Debug)]
pub struct EditDocument {
    /// The schema.
    pub schema: ValidatorSchema,
    /// The policies before.
    pub before: PolicySet,
    /// The policies after.
    pub policies: PolicySet,
}

impl Drop for EditDocument {
    fn drop(self) {
        let EditDocument {
            schema,
            before,
            policies,
        } = self;
        drop(schema);
        drop(before);
        drop(policies);
    }
}

// The parts of a document, in trees of its text.
#[derive(Drop)]
struct Parts<'a> {
    schema: Tree<'a>,
    before: Option<Tree<'a>>,
    policies: Option<Tree<'a>>,
}

// The parts that the members are, if they are those of a document.
#[tactic(auto, unfolding(crate::specs::Documents::parts_of))]
fn parts_among<'a>(mut members: Vec<(&'a str, Tree<'a>)>) -> Option<Parts<'a>>
    ensures { option_map parts_view result ≡ parts_of (object (named_view members.entry.items)) }
{
    if !have_only(&["schema", "before", "policies"], &members) {
        return None;
    }
    let schema = take(&mut members, "schema")?;
    let before = take(&mut members, "before");
    let policies = take(&mut members, "policies");
    Some(Parts {
        schema,
        before,
        policies,
    })
}

// The parts of the document that the tree is, if it has the form of one.
#[tactic(auto, unfolding(crate::specs::Documents::parts_of))]
fn parts_of(tree: Tree<'_>) -> Option<Parts<'_>>
    ensures { option_map parts_view result ≡ parts_of (tree_view tree.entry) }
{
    match tree {
        Tree::Object(members) => parts_among(members),
        other => {
            drop(other);
            None
        }
    }
}

// The schema that the tree declares; else the place of its first fault.
fn schema_in(alloc: Global, tree: Tree<'_>) -> Result<ValidatorSchema, DocumentFault>
    ensures { MayComeTo result (IsSchemaFrom (schema_of (tree_view tree.entry))) }
{
    let declared = value_of(alloc, tree)?;
    let schema = read_schema(alloc, &declared);
    drop(declared);
    schema
}

// The items of the tree, if it is a list.
fn items_of(tree: Tree<'_>) -> Option<Vec<Tree<'_>>>
    ensures { option_map (λ ts. trees_view ts.items) result ≡ as_array (tree_view tree.entry) }
{
    match tree {
        Tree::Array(items) => Some(items),
        other => {
            drop(other);
            None
        }
    }
}

// The items that the tree lists, if there is one and it is a list.
fn items_in(tree: Option<Tree<'_>>) -> Option<Vec<Tree<'_>>>
    ensures { option_map (λ ts. trees_view ts.items) result ≡ items_in (option_map tree_view tree.entry) }
{
    match tree {
        Some(tree) => items_of(tree),
        None => None,
    }
}

// The policies that the tree lists; else the place of the first fault, which is the whole where it is no list.
fn read_set(alloc: Global, tree: Option<Tree<'_>>) -> Result<PolicySet, DocumentFault>
    ensures { ComesTo (λ s. s) result (set_of (option_map tree_view tree.entry)) }
{
    match items_in(tree) {
        Some(items) => read_policies(alloc, items),
        None => Err(DocumentFault::Place(Place::Form)),
    }
}

// The document, once its schema and the policies before are read.
fn with_policies(
    alloc: Global,
    schema: ValidatorSchema,
    before: PolicySet,
    policies: Option<Tree<'_>>,
) -> Result<Result<EditDocument, EditFault>, AllocError>
    ensures { IfOk result (IsReadBehindBefore schema before (option_map tree_view policies.entry)) }
{
    match read_set(alloc, policies) {
        Ok(policies) => Ok(Ok(EditDocument {
            schema,
            before,
            policies,
        })),
        Err(DocumentFault::Place(place)) => {
            drop(schema);
            drop(before);
            Ok(Err(EditFault::Policies(place)))
        }
        Err(DocumentFault::OutOfMemory) => {
            drop(schema);
            drop(before);
            Err(AllocError)
        }
    }
}

// The document, once its schema is read.
fn with_before(
    alloc: Global,
    schema: ValidatorSchema,
    before: Option<Tree<'_>>,
    policies: Option<Tree<'_>>,
) -> Result<Result<EditDocument, EditFault>, AllocError>
    ensures { IfOk result (IsReadBehindSchema schema (option_map tree_view before.entry)
        (option_map tree_view policies.entry)) }
{
    match read_set(alloc, before) {
        Ok(before) => with_policies(alloc, schema, before, policies),
        Err(DocumentFault::Place(place)) => {
            drop(schema);
            drop(policies);
            Ok(Err(EditFault::Before(place)))
        }
        Err(DocumentFault::OutOfMemory) => {
            drop(schema);
            drop(policies);
            Err(AllocError)
        }
    }
}

// The document that the parts make; else its first fault.
fn read_parts(
    alloc: Global,
    schema: Tree<'_>,
    before: Option<Tree<'_>>,
    policies: Option<Tree<'_>>,
) -> Result<Result<EditDocument, EditFault>, AllocError>
    ensures { IfOk result (IsReadFrom record {
      schema = tree_view schema.entry;
      before = option_map tree_view before.entry;
      policies = option_map tree_view policies.entry;
    }) }
{
    match schema_in(alloc, schema) {
        Ok(schema) => with_before(alloc, schema, before, policies),
        Err(DocumentFault::Place(place)) => {
            drop(before);
            drop(policies);
            Ok(Err(EditFault::Schema(place)))
        }
        Err(DocumentFault::OutOfMemory) => {
            drop(before);
            drop(policies);
            Err(AllocError)
        }
    }
}

// The document that the tree is; else its first fault.
fn read_tree_as_document(
    alloc: Global,
    tree: Tree<'_>,
) -> Result<Result<EditDocument, EditFault>, AllocError>
    ensures { IfOk result (IsRead (tree_view tree.entry)) }
{
    match parts_of(tree) {
        Some(
            Parts {
                schema,
                before,
                policies,
            },
        ) => read_parts(alloc, schema, before, policies),
        None => Ok(Err(EditFault::Form)),
    }
}

/// The document of an edit that the bytes are; else its first fault. The bytes are read once, as a tree that
/// borrows them.
pub fn read_edit_document(
    alloc: Global,
    bytes: &[u8],
) -> Result<Result<EditDocument, EditFault>, AllocError>
    ensures { IfOk result (IsReadAs bytes.now) }
{
    let mut scratch = Scratch::new(alloc);
    match read_tree(alloc, bytes, &mut scratch)? {
        Some(tree) => read_tree_as_document(alloc, tree),
        None => Ok(Err(EditFault::Json)),
    }
}
