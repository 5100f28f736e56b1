//! What a loader is asked: the entities of each round ascending, with the fields that are read of each, and
//! ancestors once and last.

ghost use Rattle.std.specs.Prelude.{◌≡◌};

use crate::texts::{assert_same, document_of};
use entity_loader::{
    AncestorsRequest, EntityAnswer, EntityLoader, EntityRequest, EntitySlicer, LoadError,
};
use entity_loading::{Steps, load_entities};
use json_document::Document;
use manifest_computation::compute_entity_manifest;
use policy_values::EntityUID;
use std::alloc::{AllocError, Global};
use std::marker::Brand;
use std::sync::ledger::{Blank, Ledger};

/// A loader that notes what it is asked, and asks another for it.
#[derive(Drop)]
pub(crate) struct Noter<D> {
    /// Who is asked.
    pub(crate) inner: D,
    /// The ids of each round with the fields that are read of each, a bar behind the round; those whose
    /// ancestors are asked for with the ancestors, and a hat.
    pub(crate) text: String,
}

impl<D> Noter<D> {
    /// The loader that has not been asked yet.
    pub(crate) fn new(alloc: Global, inner: D) -> Noter<D> {
        Noter {
            inner,
            text: String::new(alloc),
        }
    }
}

impl<D: EntityLoader> EntityLoader for Noter<D> {
    ghost state = { λ l. D.state l.inner };

    fn load_entities(
        &mut self,
        alloc: Global,
        requests: &Vec<EntityRequest<'_>>,
    ) -> Result<Vec<EntityAnswer>, LoadError> {
        let found = self.inner.load_entities(alloc, requests);
        match note_entities(alloc, &mut self.text, requests) {
            Ok(()) => found,
            Err(_) => Err(LoadError::OutOfMemory),
        }
    }

    fn load_ancestors(
        &mut self,
        alloc: Global,
        requests: &Vec<AncestorsRequest>,
    ) -> Result<Vec<Vec<EntityUID>>, LoadError> {
        let found = self.inner.load_ancestors(alloc, requests);
        match note_ancestors(alloc, &mut self.text, requests) {
            Ok(()) => found,
            Err(_) => Err(LoadError::OutOfMemory),
        }
    }
}

// The id of each entity, with `.name` for each field and `.?` for the tags; at the end a bar.
fn note_entities(
    alloc: Global,
    text: &mut String,
    requests: &Vec<EntityRequest<'_>>,
) -> Result<(), AllocError> {
    for request in requests {
        note_id(alloc, text, " ", &request.entity_id)?;
        for (name, _below) in request.access_trie.children() {
            text.push_str(".")?;
            text.push_str(name.as_str())?;
        }
        if request.access_trie.tags().is_some() {
            text.push_str(".?")?;
        }
    }
    text.push_str(" |")
}

// The id of each entity, with `<id` for each ancestor; at the end a hat.
fn note_ancestors(
    alloc: Global,
    text: &mut String,
    requests: &Vec<AncestorsRequest>,
) -> Result<(), AllocError> {
    for request in requests {
        note_id(alloc, text, " ", &request.entity_id)?;
        for id in &request.ancestors {
            note_id(alloc, text, "<", id)?;
        }
    }
    text.push_str(" ^")
}

fn note_id(
    alloc: Global,
    text: &mut String,
    before: &str,
    uid: &EntityUID,
) -> Result<(), AllocError> {
    let shown = format!(in alloc; "{before}{uid}")?;
    text.push_str(shown.as_str())
}

const HEAD: &str =
    r#"{"schema":{"entityTypes":{"Group":{},"Photo":{"attributes":{"owner":{"entity":"User"}}},"User":{"memberOf":["Group"],"attributes":{"dept":"String","manager":{"entity":"User"},"name":"String"}}},"actions":[{"id":["Action","view"],"principals":["User"],"resources":["Photo"]}]},"entities":[{"id":["User","alice"],"parents":[["Group","g"],["Group","h"]],"attrs":{"dept":"c","manager":{"id":["User","bob"]},"name":"a"}},{"id":["User","bob"],"attrs":{"dept":"d","manager":{"id":["User","bob"]},"name":"m"}},{"id":["Photo","x"],"attrs":{"owner":{"id":["User","bob"]}}}],"request":{"principal":["User","alice"],"action":["Action","view"],"resource":["Photo","x"],"context":{}},"policies":["#;

// The number of rounds, and what is asked in them.
fn asked_on<L: Ledger>(
    alloc: Global,
    document: &Document,
    blank: Blank,
) -> Result<String, AllocError>
    requires name { blank.name ≡ L.name }
    requires parts { blank.parts ≡ L.parts }
    requires one { blank.parts ≡ 1 }
{
    let mut steps = Steps::<L>::new(blank);
    let mut noter = Noter::new(alloc, EntitySlicer::new(&document.entities));
    let manifest = compute_entity_manifest(alloc, &document.schema, &document.policies);
    let manifest = manifest.ok().ok_or(AllocError)?;
    let loaded = load_entities(alloc, &manifest, &document.request, &mut noter, &mut steps);
    drop(loaded);
    format!(in alloc; "{}{}", noter.inner.rounds, noter.text.as_str())
}

fn asked(alloc: Global, policies: &str) -> Result<String, AllocError> {
    let text = format!(in alloc; "{HEAD}{policies}]}}")?;
    let document = document_of(alloc, text.as_str())?;
    asked_on::<Brand>(alloc, &document, Blank::new(1))
}

#[test]
fn what_is_read_is_asked_for(rt: HostRuntime) -> Result<(), AllocError> {
    let rows = [
        (
            r#"{"id":"p0","effect":"permit","body":[{"when":{"all":[{"==":[{"get":[{"var":"principal"},"manager","name"]},"m"]},{"==":[{"get":[{"var":"resource"},"owner","dept"]},"d"]}]}}]}"#,
            r#"2 Photo::"x".owner User::"alice".manager | User::"bob".dept.name |"#,
        ),
        (
            r#"{"id":"p0","effect":"permit","body":[{"when":{"==":[{"get":[{"var":"principal"},"manager"]},{"get":[{"var":"resource"},"owner"]}]}}]}"#,
            r#"2 Photo::"x".owner User::"alice".manager | User::"bob" |"#,
        ),
        (
            r#"{"id":"p0","effect":"permit","principal":{"in":["Group","g"]}},{"id":"p1","effect":"permit","resource":{"in":["Photo","y"]}}"#,
            r#"1 Photo::"x" User::"alice" | Photo::"x"<Photo::"y" User::"alice"<Group::"g" ^"#,
        ),
        // Nothing is read, so there is no round.
        ("", "0"),
        (r#"{"id":"p0","effect":"permit"}"#, "0"),
    ];
    for (policies, expected) in rows {
        let text = asked(rt.alloc(), policies)?;
        assert_same(&rt, text.as_str(), expected);
    }
    Ok(())
}
