//! Slices, and what loaders give that are honest, that lie and that fail.

ghost use Rattle.std.specs.Prelude.{◌≡◌};

use crate::asked::Noter;
use crate::liar::{Liar, Way};
use crate::texts::{assert_same, document_of, joined, store_text};
use access_tries::RootAccessTrie;
use entity_loader::{EntityLoader, EntitySlicer};
use entity_loading::{EntitySliceError, Steps, load_entities, load_trie, slice_entities};
use entity_store::Entities;
use json_document::Document;
use json_response::{response_text, write_value};
use manifest_computation::{compute_entity_manifest, slice_for_request};
use manifest_core::EntityManifest;
use policy_set::decide;
use policy_values::Value;
use std::alloc::{AllocError, Global};
use std::marker::Brand;
use std::process::Abort;
use std::sync::ledger::{Blank, Ledger};

// The name of the principal's manager and the department of the resource's owner are read.
const MANAGERS: &str =
    r#"{"schema":{"entityTypes":{"Photo":{"attributes":{"owner":{"entity":"User"}}},"User":{"attributes":{"dept":"String","manager":{"entity":"User"},"name":"String"}}},"actions":[{"id":["Action","view"],"principals":["User"],"resources":["Photo"]}]},"policies":[{"id":"p0","effect":"permit","body":[{"when":{"all":[{"==":[{"get":[{"var":"principal"},"manager","name"]},"m"]},{"==":[{"get":[{"var":"resource"},"owner","dept"]},"d"]}]}}]}],"entities":[{"id":["User","alice"],"attrs":{"dept":"c","manager":{"id":["User","bob"]},"name":"a"}},{"id":["User","bob"],"attrs":{"dept":"d","manager":{"id":["User","bob"]},"name":"m"}},{"id":["Photo","x"],"attrs":{"owner":{"id":["User","bob"]}}}],"request":{"principal":["User","alice"],"action":["Action","view"],"resource":["Photo","x"],"context":{}}}"#;

// Two users manage each other; the name of the manager of the principal's manager is read, which is the
// principal's own.
const EACH_OTHER: &str =
    r#"{"schema":{"entityTypes":{"Photo":{},"User":{"attributes":{"manager":{"entity":"User"},"name":"String"}}},"actions":[{"id":["Action","view"],"principals":["User"],"resources":["Photo"]}]},"policies":[{"id":"p0","effect":"permit","body":[{"when":{"==":[{"get":[{"var":"principal"},"manager","manager","name"]},"a"]}}]}],"entities":[{"id":["User","alice"],"attrs":{"manager":{"id":["User","bob"]},"name":"a"}},{"id":["User","bob"],"attrs":{"manager":{"id":["User","alice"]},"name":"b"}}],"request":{"principal":["User","alice"],"action":["Action","view"],"resource":["Photo","x"],"context":{}}}"#;

// The principal has to be in a group.
const GROUPS: &str =
    r#"{"schema":{"entityTypes":{"Group":{},"Photo":{},"User":{"memberOf":["Group"]}},"actions":[{"id":["Action","view"],"principals":["User"],"resources":["Photo"]}]},"policies":[{"id":"p0","effect":"permit","principal":{"in":["Group","g"]}}],"entities":[{"id":["User","alice"],"parents":[["Group","g"],["Group","h"]]}],"request":{"principal":["User","alice"],"action":["Action","view"],"resource":["Photo","x"],"context":{}}}"#;

// Fields of a record are read; the store has a number in its place.
const RECORDS: &str =
    r#"{"schema":{"entityTypes":{"Group":{},"Photo":{},"User":{"attributes":{"rec":{"record":{"extra":"Long","other":"String","req":"Long"}}},"memberOf":["Group"]}},"actions":[{"id":["Action","view"],"principals":["User"],"resources":["Photo"]}]},"policies":[{"id":"p0","effect":"permit","body":[{"when":{"not":{"has":[{"get":[{"var":"principal"},"rec"]},"req"]}}}]},{"id":"p1","effect":"forbid","body":[{"when":{"==":[{"get":[{"var":"principal"},"rec","other"]},"x"]}}]}],"entities":[{"id":["User","alice"],"attrs":{"rec":5}}],"request":{"principal":["User","alice"],"action":["Action","view"],"resource":["Photo","x"],"context":{}}}"#;

// The same, and the store has such a record, with a field more.
const FIELDS: &str =
    r#"{"schema":{"entityTypes":{"Group":{},"Photo":{},"User":{"attributes":{"rec":{"record":{"extra":"Long","other":"String","req":"Long"}}},"memberOf":["Group"]}},"actions":[{"id":["Action","view"],"principals":["User"],"resources":["Photo"]}]},"policies":[{"id":"p0","effect":"permit","body":[{"when":{"not":{"has":[{"get":[{"var":"principal"},"rec"]},"req"]}}}]},{"id":"p1","effect":"forbid","body":[{"when":{"==":[{"get":[{"var":"principal"},"rec","other"]},"x"]}}]}],"entities":[{"id":["User","alice"],"attrs":{"rec":{"record":{"extra":1,"other":"x","req":2}}}}],"request":{"principal":["User","alice"],"action":["Action","view"],"resource":["Photo","x"],"context":{}}}"#;

// Tags are read, and no attributes.
const TAGGED: &str =
    r#"{"schema":{"entityTypes":{"Photo":{},"User":{"attributes":{"name":"String"},"tags":"String"}},"actions":[{"id":["Action","view"],"principals":["User"],"resources":["Photo"]}]},"policies":[{"id":"p0","effect":"permit","body":[{"when":{"all":[{"hasTag":[{"var":"principal"},"t"]},{"==":[{"getTag":[{"var":"principal"},"t"]},"x"]}]}}]}],"entities":[{"id":["User","alice"],"attrs":{"name":"a"},"tags":{"t":"x","u":"y"}}],"request":{"principal":["User","alice"],"action":["Action","view"],"resource":["Photo","x"],"context":{}}}"#;

// There is nothing to read: a policy that asks nothing, and none.
const ANYBODY: &str =
    r#"{"schema":{"entityTypes":{"Photo":{},"User":{}},"actions":[{"id":["Action","view"],"principals":["User"],"resources":["Photo"]}]},"policies":[{"id":"p0","effect":"permit"}],"entities":[{"id":["User","alice"]}],"request":{"principal":["User","alice"],"action":["Action","view"],"resource":["Photo","x"],"context":{}}}"#;

const NO_POLICY: &str =
    r#"{"schema":{"entityTypes":{"Photo":{},"User":{}},"actions":[{"id":["Action","view"],"principals":["User"],"resources":["Photo"]}]},"entities":[{"id":["User","alice"]}],"request":{"principal":["User","alice"],"action":["Action","view"],"resource":["Photo","x"],"context":{}}}"#;

// The principal is not known.
const NOBODY: &str =
    r#"{"schema":{"entityTypes":{"Photo":{},"User":{}},"actions":[{"id":["Action","view"],"principals":["User"],"resources":["Photo"]}]},"policies":[{"id":"p0","effect":"permit"}],"request":{"principal":null,"action":["Action","view"],"resource":["Photo","x"],"context":{}}}"#;

const CUT: &str =
    r#"{"ancestors":[],"attrs":{"owner":{"id":["User","bob"]}},"id":["Photo","x"],"tags":{}}|{"ancestors":[],"attrs":{"manager":{"id":["User","bob"]}},"id":["User","alice"],"tags":{}}|{"ancestors":[],"attrs":{"dept":"d","name":"m"},"id":["User","bob"],"tags":{}}|"#;

const WHOLE: &str =
    r#"{"ancestors":[],"attrs":{"owner":{"id":["User","bob"]}},"id":["Photo","x"],"tags":{}}|{"ancestors":[],"attrs":{"dept":"c","manager":{"id":["User","bob"]},"name":"a"},"id":["User","alice"],"tags":{}}|{"ancestors":[],"attrs":{"dept":"d","manager":{"id":["User","bob"]},"name":"m"},"id":["User","bob"],"tags":{}}|"#;

const WHOLE_PAIR: &str =
    r#"{"ancestors":[],"attrs":{"manager":{"id":["User","bob"]},"name":"a"},"id":["User","alice"],"tags":{}}|{"ancestors":[],"attrs":{"manager":{"id":["User","alice"]},"name":"b"},"id":["User","bob"],"tags":{}}|"#;

const IN_BOTH: &str =
    r#"{"ancestors":[["Group","g"],["Group","h"]],"attrs":{},"id":["User","alice"],"tags":{}}|"#;

const TWO_FIELDS: &str =
    r#"{"ancestors":[],"attrs":{"rec":{"record":{"other":"x","req":2}}},"id":["User","alice"],"tags":{}}|"#;

const ALL_FIELDS: &str =
    r#"{"ancestors":[],"attrs":{"rec":{"record":{"extra":1,"other":"x","req":2}}},"id":["User","alice"],"tags":{}}|"#;

const TAGS: &str = r#"{"ancestors":[],"attrs":{},"id":["User","alice"],"tags":{"t":"x","u":"y"}}|"#;

const TAGS_AND_NAME: &str =
    r#"{"ancestors":[],"attrs":{"name":"a"},"id":["User","alice"],"tags":{"t":"x","u":"y"}}|"#;

// Bob in place of alice, and alice with another manager than before.
const OTHER_USER: &str = r#"InconsistentLoader User::"alice" false User::"bob""#;

const OTHER_VALUE: &str = r#"InconsistentLoader User::"alice" true User::"alice""#;

const ALLOWED: &str = r#"{"decision":"Allow","errors":[],"reasons":["p0"]}"#;

const FORBIDDEN: &str = r#"{"decision":"Deny","errors":[],"reasons":["p1"]}"#;

const DENIED: &str = r#"{"decision":"Deny","errors":[],"reasons":[]}"#;

// What is asked first of managers, and then of groups.
const FIRST: &str = r#" Photo::"x".owner User::"alice".manager |"#;

const BOTH_ROUNDS: &str = r#" Photo::"x".owner User::"alice".manager | User::"bob".dept.name |"#;

const THREE_ROUNDS: &str = r#" User::"alice".manager | User::"bob".manager | User::"alice".name |"#;

const OWN_MANAGER: &str = r#" User::"alice".manager | User::"alice".manager |"#;

const ONE_USER: &str = r#" User::"alice" |"#;

const ONE_IN_A_GROUP: &str = r#" User::"alice" | User::"alice"<Group::"g" ^"#;

const IN_GROUP: &str =
    r#"{"ancestors":[["Group","g"]],"attrs":{},"id":["User","alice"],"tags":{}}|"#;

// What is given and what is decided on it, with a word where the whole store decides otherwise; or why
// nothing is.
fn loaded_text(
    alloc: Global,
    document: &Document,
    loaded: &Result<Entities, EntitySliceError>,
) -> Result<String, AllocError> {
    match loaded {
        Ok(entities) => decided_text(alloc, document, entities),
        Err(error) => error_text(alloc, error),
    }
}

fn decided_text(
    alloc: Global,
    document: &Document,
    entities: &Entities,
) -> Result<String, AllocError> {
    let mut text = store_text(alloc, entities)?;
    let on_these = decided(alloc, document, entities)?;
    let on_all = decided(alloc, document, &document.entities)?;
    text.push_str(on_these.as_str())?;
    if on_these.as_str() != on_all.as_str() {
        text.push_str(" otherwise")?;
    }
    Ok(text)
}

fn decided(alloc: Global, document: &Document, entities: &Entities) -> Result<String, AllocError> {
    let Document {
        policies,
        request,
        ..
    } = document;
    if !request.is_whole() {
        return String::from_str(alloc, "not whole");
    }
    let response = decide(alloc, policies, request, entities)?;
    let text = response_text(alloc, &response)?;
    text.as_str().replace(alloc, "\n", "")
}

fn error_text(alloc: Global, error: &EntitySliceError) -> Result<String, AllocError> {
    match error {
        EntitySliceError::PartialRequest(_) => String::from_str(alloc, "PartialRequest"),
        EntitySliceError::IncompatibleEntityManifest(error) => blocked_text(alloc, &error.value),
        EntitySliceError::WrongNumberOfEntities(wrong) => {
            format!(in alloc; "WrongNumberOfEntities {} {}", wrong.expected, wrong.got)
        }
        EntitySliceError::WrongNumberOfAncestors { expected, got } => {
            format!(in alloc; "WrongNumberOfAncestors {expected} {got}")
        }
        EntitySliceError::InconsistentLoader { uid, kept, got } => {
            format!(in alloc; "InconsistentLoader {uid} {} {}", kept.is_some(), got.uid())
        }
        EntitySliceError::LoaderFault => String::from_str(alloc, "LoaderFault"),
        EntitySliceError::OutOfMemory => Err(AllocError),
    }
}

fn blocked_text(alloc: Global, value: &Value) -> Result<String, AllocError> {
    let value = write_value(alloc, value)?.to_string(alloc)?;
    format!(in alloc; "IncompatibleEntityManifest {value}")
}

// What is read: what a manifest has for the type of a request, or one trie.
#[derive(Clone, Copy)]
enum Read<'a> {
    Manifest(&'a EntityManifest),
    Trie(&'a RootAccessTrie),
}

fn load<D: EntityLoader>(
    alloc: Global,
    read: Read<'_>,
    document: &Document,
    loader: &mut D,
) -> Result<String, AllocError> {
    load_on::<D, Brand>(alloc, read, document, loader, Blank::new(1))
}

fn load_on<D: EntityLoader, L: Ledger>(
    alloc: Global,
    read: Read<'_>,
    document: &Document,
    loader: &mut D,
    blank: Blank,
) -> Result<String, AllocError>
    requires name { blank.name ≡ L.name }
    requires parts { blank.parts ≡ L.parts }
    requires one { blank.parts ≡ 1 }
{
    let request = &document.request;
    let mut steps = Steps::<L>::new(blank);
    let loaded = match read {
        Read::Manifest(manifest) => load_entities(alloc, manifest, request, loader, &mut steps),
        Read::Trie(trie) => load_trie(alloc, trie, request, loader, &mut steps),
    };
    loaded_text(alloc, document, &loaded)
}

// Who gives the entities.
#[derive(Clone, Copy)]
enum Giver {
    // The store, cut to what the policies read, where the document keeps every rule.
    Checked,
    // The store, cut to what the manifest reads.
    Slice,
    // The loader of just what is asked, along the manifest's first trie.
    Along,
    // This loader, along the trie of the request's type.
    Honest,
    // One that answers in this way.
    Liar(Way),
}

fn checked(alloc: Global, document: &Document) -> Result<String, AllocError> {
    let Document {
        schema,
        policies,
        entities,
        request,
        ..
    } = document;
    match slice_for_request(alloc, schema, policies, request, entities) {
        Ok(slice) => store_text(alloc, &slice),
        Err(_) => String::from_str(alloc, "refused"),
    }
}

fn sliced(
    alloc: Global,
    manifest: &EntityManifest,
    document: &Document,
) -> Result<String, AllocError> {
    let slice = slice_entities(alloc, manifest, &document.entities, &document.request);
    loaded_text(alloc, document, &slice)
}

fn along(
    alloc: Global,
    manifest: &EntityManifest,
    document: &Document,
) -> Result<String, AllocError> {
    let mut slicer = EntitySlicer::new(&document.entities);
    match manifest.per_action().values().next() {
        Some(trie) => load(alloc, Read::Trie(trie), document, &mut slicer),
        None => String::from_str(alloc, "no trie"),
    }
}

fn loaded(
    alloc: Global,
    manifest: &EntityManifest,
    document: &Document,
) -> Result<String, AllocError> {
    let mut slicer = EntitySlicer::new(&document.entities);
    load(alloc, Read::Manifest(manifest), document, &mut slicer)
}

// What the loader that answers in this way gives, how often it failed, if it did, and what it was asked.
fn lied(
    alloc: Global,
    manifest: &EntityManifest,
    document: &Document,
    way: Way,
) -> Result<String, AllocError> {
    let mut noter = Noter::new(alloc, Liar::new(&document.entities, way));
    let mut text = load(alloc, Read::Manifest(manifest), document, &mut noter)?;
    if noter.inner.faults > 0 {
        write!(text, " {}", noter.inner.faults)?;
    }
    text.push_str(noter.text.as_str())?;
    Ok(text)
}

fn give(
    alloc: Global,
    manifest: &EntityManifest,
    document: &Document,
    giver: Giver,
) -> Result<String, AllocError> {
    match giver {
        Giver::Checked => checked(alloc, document),
        Giver::Slice => sliced(alloc, manifest, document),
        Giver::Along => along(alloc, manifest, document),
        Giver::Honest => loaded(alloc, manifest, document),
        Giver::Liar(way) => lied(alloc, manifest, document, way),
    }
}

// What the giver gives of a document.
fn given_of(alloc: Global, text: &str, giver: Giver) -> Result<String, AllocError> {
    let document = document_of(alloc, text)?;
    let manifest = compute_entity_manifest(alloc, &document.schema, &document.policies);
    give(alloc, &manifest.ok().ok_or(AllocError)?, &document, giver)
}

// Asserts that the giver gives the entities, or the error, of a row, with which decision on them, and what it
// was asked.
fn assert_given(
    rt: &impl Abort,
    alloc: Global,
    of: (&str, Giver),
    expected: (&str, &str, &str),
) -> Result<(), AllocError> {
    let (document, giver) = of;
    let text = given_of(alloc, document, giver)?;
    let (given, decided, asked) = expected;
    let expected = joined(alloc, &[given, decided, asked])?;
    assert_same(rt, text.as_str(), expected.as_str());
    Ok(())
}

#[test]
fn entities_are_given(rt: HostRuntime) -> Result<(), AllocError> {
    let rows = [
        (MANAGERS, Giver::Checked, CUT, ""),
        (MANAGERS, Giver::Slice, CUT, ALLOWED),
        (MANAGERS, Giver::Along, CUT, ALLOWED),
        (MANAGERS, Giver::Honest, CUT, ALLOWED),
        (GROUPS, Giver::Honest, IN_GROUP, ALLOWED),
        (FIELDS, Giver::Slice, TWO_FIELDS, FORBIDDEN),
        (FIELDS, Giver::Honest, TWO_FIELDS, FORBIDDEN),
        (TAGGED, Giver::Slice, TAGS, ALLOWED),
        (TAGGED, Giver::Honest, TAGS, ALLOWED),
        (ANYBODY, Giver::Honest, "", ALLOWED),
        (NO_POLICY, Giver::Honest, "", DENIED),
        (RECORDS, Giver::Slice, "IncompatibleEntityManifest 5", ""),
        (NOBODY, Giver::Slice, "PartialRequest", ""),
        (NOBODY, Giver::Honest, "PartialRequest", ""),
    ];
    for (document, giver, given, decided) in rows {
        assert_given(&rt, rt.alloc(), (document, giver), (given, decided, ""))?;
    }
    Ok(())
}

#[test]
fn liars_are_seen(rt: HostRuntime) -> Result<(), AllocError> {
    // How the loader answers, what is then given and decided or refused, and what the loader was asked.
    let rows = [
        (MANAGERS, Way::Whole, WHOLE, ALLOWED, BOTH_ROUNDS),
        (
            MANAGERS,
            Way::OneFewer,
            "WrongNumberOfEntities 2 1",
            "",
            FIRST,
        ),
        (
            MANAGERS,
            Way::OneMore,
            "WrongNumberOfEntities 2 3",
            "",
            FIRST,
        ),
        (MANAGERS, Way::LastUser, OTHER_USER, "", FIRST),
        (MANAGERS, Way::FailsAt(1), "LoaderFault 1", "", FIRST),
        (MANAGERS, Way::FailsAt(2), "LoaderFault 1", "", BOTH_ROUNDS),
        (MANAGERS, Way::FailsAt(3), WHOLE, ALLOWED, BOTH_ROUNDS),
        (EACH_OTHER, Way::Whole, WHOLE_PAIR, ALLOWED, THREE_ROUNDS),
        (EACH_OTHER, Way::LastAttrs(1), OTHER_VALUE, "", OWN_MANAGER),
        (EACH_OTHER, Way::LastAttrs(3), OTHER_VALUE, "", THREE_ROUNDS),
        (
            EACH_OTHER,
            Way::FailsAt(3),
            "LoaderFault 1",
            "",
            THREE_ROUNDS,
        ),
        (GROUPS, Way::Whole, IN_BOTH, ALLOWED, ONE_IN_A_GROUP),
        (GROUPS, Way::AllListed, IN_BOTH, ALLOWED, ONE_IN_A_GROUP),
        (
            GROUPS,
            Way::OneFewer,
            "WrongNumberOfEntities 1 0",
            "",
            ONE_USER,
        ),
        (GROUPS, Way::FailsAt(1), "LoaderFault 1", "", ONE_USER),
        (
            GROUPS,
            Way::NoLists,
            "WrongNumberOfAncestors 1 0",
            "",
            ONE_IN_A_GROUP,
        ),
        (
            GROUPS,
            Way::OneListMore,
            "WrongNumberOfAncestors 1 2",
            "",
            ONE_IN_A_GROUP,
        ),
        (
            GROUPS,
            Way::FailsForAncestors,
            "LoaderFault 1",
            "",
            ONE_IN_A_GROUP,
        ),
        (
            FIELDS,
            Way::Whole,
            ALL_FIELDS,
            FORBIDDEN,
            " User::\"alice\".rec |",
        ),
        (
            TAGGED,
            Way::Whole,
            TAGS_AND_NAME,
            ALLOWED,
            " User::\"alice\".? |",
        ),
        (
            RECORDS,
            Way::Whole,
            "IncompatibleEntityManifest 5",
            "",
            " User::\"alice\".rec |",
        ),
        (ANYBODY, Way::FailsAt(1), "", ALLOWED, ""),
        (NO_POLICY, Way::FailsForAncestors, "", DENIED, ""),
        (NOBODY, Way::FailsAt(1), "PartialRequest", "", ""),
    ];
    for (document, way, given, decided, asked) in rows {
        let of = (document, Giver::Liar(way));
        assert_given(&rt, rt.alloc(), of, (given, decided, asked))?;
    }
    Ok(())
}
