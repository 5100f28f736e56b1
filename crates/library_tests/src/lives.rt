//! Sets of policies under edits, beside their manifest. The command `live` ends with the first edit that is
//! refused; here the others are made after it.

ghost use Rattle.std.specs.Prelude.{◌≡◌};

use crate::texts::{assert_same, manifest_text};
use entity_manifest::compute_entity_manifest;
use json_document::{Document, Edit, Edits, Shape, TemplateLink, read_document_as, slot_pairs};
use live_manifest::{LiveManifest, LiveManifestError, LiveRemovalError, Steps};
use policy_set::{PolicySet, PolicySetError, RemovalError, Template};
use policy_values::Text;
use schema_core::ValidatorSchema;
use std::alloc::{AllocError, Global};
use std::marker::Brand;
use std::mem;
use std::sync::ledger::{Blank, Ledger};

// Users may be in groups and view photos: one type of requests, and two types of entities that a user may be
// in.
const SCHEMA: &str =
    r#"{"entityTypes":{"Group":{},"Photo":{},"User":{"memberOf":["Group"],"attributes":{"name":"String"}}},"actions":[{"id":["Action","view"],"principals":["User"],"resources":["Photo"]}]}"#;

// Edits, what is reported of each with the ids of the templates and policies behind it, and how many
// environments may be typed for all of them: two for a policy or a link, four for a template, of which there
// are two.
const ROWS: [(&str, &str, u64); 8] = [
    ("", "", 0),
    (
        r#"{"id":"p","effect":"permit","principal":{"in":["Group","g"]}}"#,
        "ok p; ",
        2,
    ),
    // An id that stands, another that does not: nothing changes, and what comes next is made.
    (
        r#"{"id":"p","effect":"permit"},{"id":"p","effect":"forbid"},{"remove":"q"},{"id":"q","effect":"permit"}"#,
        "ok p; duplicate id p; unknown id p; ok p q; ",
        4,
    ),
    // Links before their template, behind it, and without it again.
    (
        r#"{"id":"l","link":"t","principal":["Group","g"]},{"id":"t","effect":"permit","principal":{"in":"?"}},{"id":"l","link":"t","principal":["Group","g"]},{"remove":"t"},{"remove":"l"},{"remove":"t"},{"id":"l","link":"t","principal":["Group","g"]}"#,
        "unknown template; ok t; ok t l; template in use t l; ok t; ok; unknown template; ",
        6,
    ),
    // Slots.
    (
        r#"{"id":"t","effect":"permit","principal":{"in":"?"}},{"id":"l","link":"t"},{"id":"l","link":"t","principal":["Group","g"],"resource":["Photo","x"]},{"id":"l","link":"t","principal":["Group","g"]}"#,
        "ok t; slot missing t; slot extra t; ok t l; ",
        6,
    ),
    // Errors in a policy, a template and a link; the id is free afterwards.
    (
        r#"{"id":"p","effect":"permit","body":[{"when":{"isEmpty":[]}}]},{"id":"p","effect":"permit"}"#,
        "errors 1; ok p; ",
        4,
    ),
    (
        r#"{"id":"t","effect":"permit","principal":{"in":"?"},"body":[{"when":1}]},{"id":"t","effect":"permit","principal":{"in":"?"}},{"id":"l","link":"t","principal":["Nope","n"]},{"id":"l","link":"t","principal":["User","u"]}"#,
        "errors 1; ok t; errors 2 t; ok t l; ",
        12,
    ),
    // A warning refuses nothing; an attribute that two read is still read when one of them is gone.
    (
        r#"{"id":"w","effect":"permit","body":[{"when":false}]},{"id":"a","effect":"permit","body":[{"when":{"==":[{"get":[{"var":"principal"},"name"]},"x"]}}]},{"id":"b","effect":"forbid","body":[{"when":{"==":[{"get":[{"var":"principal"},"name"]},"y"]}}]},{"remove":"a"},{"remove":"w"}"#,
        "ok w; ok a w; ok a b w; ok b w; ok b; ",
        6,
    ),
];

fn fault_text(fault: &PolicySetError) -> &'static str {
    match fault {
        PolicySetError::DuplicateId(_) => "duplicate id",
        PolicySetError::UnknownTemplate(_) => "unknown template",
        PolicySetError::SlotMissing(_) => "slot missing",
        PolicySetError::SlotExtra(_) => "slot extra",
        PolicySetError::OutOfMemory => "no memory",
    }
}

fn add_added(added: &Result<(), LiveManifestError>, text: &mut String) -> Result<(), AllocError> {
    match added {
        Ok(()) => text.push_str("ok"),
        Err(LiveManifestError::PolicySet(fault)) => text.push_str(fault_text(fault)),
        Err(LiveManifestError::Validation(found)) => {
            write!(text, "errors {}", found.validation_errors().len())
        }
        Err(LiveManifestError::OutOfMemory) => text.push_str("no memory"),
    }
}

fn removed_text(removed: &Result<(), LiveRemovalError<'_>>) -> &'static str {
    match removed {
        Ok(()) => "ok",
        Err(LiveRemovalError::PolicySet(RemovalError::UnknownPolicy(_))) => "unknown id",
        Err(LiveRemovalError::PolicySet(RemovalError::TemplateInUse(_))) => "template in use",
        Err(LiveRemovalError::OutOfMemory) => "no memory",
    }
}

fn remove(live: &mut LiveManifest<'_>, id: &Text, text: &mut String) -> Result<(), AllocError> {
    text.push_str(removed_text(&live.remove(id)))
}

fn link<L: Ledger>(
    alloc: Global,
    live: &mut LiveManifest<'_>,
    link: TemplateLink,
    steps: &mut Steps<L>,
    text: &mut String,
) -> Result<(), AllocError> {
    let TemplateLink {
        id,
        template,
        values,
    } = link;
    let pairs = slot_pairs(alloc, values)?;
    add_added(&live.link(&template, id, pairs, steps), text)
}

fn add<L: Ledger>(
    live: &mut LiveManifest<'_>,
    template: Template,
    steps: &mut Steps<L>,
    text: &mut String,
) -> Result<(), AllocError> {
    let added = if template.has_slot() {
        live.add_template(template, steps)
    } else {
        live.add_static(template, steps)
    };
    add_added(&added, text)
}

// Makes an edit, and adds what is reported of it.
fn make<L: Ledger>(
    alloc: Global,
    live: &mut LiveManifest<'_>,
    edit: Edit,
    steps: &mut Steps<L>,
    text: &mut String,
) -> Result<(), AllocError> {
    match edit {
        Edit::Policy(template) => add(live, template, steps, text),
        Edit::Link(values) => link(alloc, live, values, steps, text),
        Edit::Remove(id) => remove(live, &id, text),
    }
}

// The ids of the set: of its templates, and of its policies.
fn add_ids(set: &PolicySet, text: &mut String) -> Result<(), AllocError> {
    for template in set.templates() {
        write!(text, " {}", template.id())?;
    }
    for policy in set.policies() {
        write!(text, " {}", policy.id())?;
    }
    Ok(())
}

// Whether the manifest that is kept is written as the one that is computed of the policies.
fn is_computed(
    alloc: Global,
    schema: &ValidatorSchema,
    live: &LiveManifest<'_>,
) -> Result<bool, AllocError> {
    let computed = compute_entity_manifest(alloc, schema, live.policies());
    let computed = computed.ok().ok_or(AllocError)?;
    let text = manifest_text(alloc, &computed)?;
    Ok(text.as_str() == manifest_text(alloc, live.manifest())?.as_str())
}

// What is behind an edit: the ids, and a word where the manifest is another than the computed one.
fn add_state(
    alloc: Global,
    schema: &ValidatorSchema,
    live: &LiveManifest<'_>,
    text: &mut String,
) -> Result<(), AllocError> {
    add_ids(live.policies(), text)?;
    let is_computed = is_computed(alloc, schema, live)?;
    text.push_str(if is_computed {
        "; "
    } else {
        " another manifest; "
    })
}

// What is reported of each edit, one after another.
fn make_all<L: Ledger>(
    alloc: Global,
    schema: &ValidatorSchema,
    edits: Edits,
    steps: &mut Steps<L>,
    text: &mut String,
) -> Result<(), AllocError> {
    let mut live = LiveManifest::new(alloc, schema);
    for edit in edits.into_vec() {
        make(alloc, &mut live, edit, steps, text)?;
        add_state(alloc, schema, &live, text)?;
    }
    Ok(())
}

// The same, and whether more environments were typed.
fn made<L: Ledger>(
    alloc: Global,
    mut document: Document,
    most: u64,
    blank: Blank,
) -> Result<String, AllocError>
    requires name { blank.name ≡ L.name }
    requires parts { blank.parts ≡ L.parts }
    requires one { blank.parts ≡ 1 }
{
    let edits = mem::replace(&mut document.edits, Edits::new(Vec::new(alloc)));
    let mut steps = Steps::<L>::new(blank);
    let mut text = String::new(alloc);
    make_all(alloc, &document.schema, edits, &mut steps, &mut text)?;
    if steps.count() > most {
        write!(text, "{} environments", steps.count())?;
    }
    Ok(text)
}

fn made_of(alloc: Global, edits: &str, most: u64) -> Result<String, AllocError> {
    let text = format!(in alloc; "{{\"schema\":{SCHEMA},\"edits\":[{edits}]}}")?;
    let document = read_document_as(alloc, Shape::Live, text.as_bytes());
    made::<Brand>(alloc, document.ok().ok_or(AllocError)?, most, Blank::new(1))
}

#[test]
fn refused_edits_change_nothing(rt: HostRuntime) -> Result<(), AllocError> {
    for (edits, expected, most) in ROWS {
        let text = made_of(rt.alloc(), edits, most)?;
        assert_same(&rt, text.as_str(), expected);
    }
    Ok(())
}
