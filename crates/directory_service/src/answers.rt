//! The answer to a line.
ghost use Rattle.std.specs.Prelude.{IfOk};
ghost use Rattle.byte_streams.specs.Steps.{RoseBy};
ghost use Rattle.sqlite.specs.Held.{state};
ghost use Rattle.entity_manifest.specs.Accepted.{IsAccepted};
ghost use Rattle.entity_manifest.specs.OfPolicies.{IsManifestOf};
ghost use Rattle.entity_files.specs.Table.{IsReady, Continues};
ghost use Rattle.entity_files.specs.Rows.{known_store};
ghost use Rattle.directory_service.specs.Lines.{IsRequestAnswered, IsLineAnswered, line_request};

use crate::requests::{LineRequest, line_request};
use crate::row_fault::row_line;
use crate::{Directory, decide_on};
use entity_manifest::{EntityManifest, Steps, refused_line};
use entity_store::Request;
use policy_set::PolicySet;
use schema_core::ValidatorSchema;
use sqlite::Alter;
use std::alloc::{AllocError, Global};
use std::sync::ledger::Ledger;

const NO_REQUEST: &str = "line: no request";

const NO_JSON: &str = "line: no JSON";

// The line on the answer to a request.
fn answer_request<S: Alter + Drop, L: Ledger>(
    alloc: Global,
    schema: &ValidatorSchema,
    policies: &PolicySet,
    manifest: &EntityManifest,
    request: &Request,
    directory: &mut Directory<S>,
    steps: &mut Steps<L>,
) -> Result<String, AllocError>
    requires accepted { IsAccepted schema.now policies.now }
    requires manifest { IsManifestOf schema.now policies.now.policies manifest.now }
    requires ready { IsReady (state S.Store directory.old.conn) }
    ensures ready { IsReady (state S.Store directory.new.conn) }
    ensures goes_on { Continues (known_store (state S.Store directory.old.conn))
        (known_store (state S.Store directory.new.conn)) }
    ensures answer { IfOk result (IsRequestAnswered schema.now policies.now.policies
        (known_store (state S.Store directory.new.conn)) request.now
        directory.old.faults directory.new.faults) }
    ensures kept { RoseBy 0 directory.old.faults directory.new.faults }
{
    let answer = decide_on(alloc, schema, policies, manifest, request, directory, steps)?;
    row_line(alloc, &answer)
}

/// The line that answers a line of the input, by the manifest of accepted policies: the response on the rows
/// to the request that the line is, or why there is none.
///
/// Where after the call the database is open and its disk has returned what was written, and the store of its
/// rows conforms, the line is that on the response on this whole store, or on a fault, by which the count of
/// faults rose.
pub fn answer_line<S: Alter + Drop, L: Ledger>(
    alloc: Global,
    schema: &ValidatorSchema,
    policies: &PolicySet,
    manifest: &EntityManifest,
    line: &[u8],
    directory: &mut Directory<S>,
    steps: &mut Steps<L>,
) -> Result<String, AllocError>
    requires accepted { IsAccepted schema.now policies.now }
    requires manifest { IsManifestOf schema.now policies.now.policies manifest.now }
    requires ready { IsReady (state S.Store directory.old.conn) }
    ensures ready { IsReady (state S.Store directory.new.conn) }
    ensures goes_on { Continues (known_store (state S.Store directory.old.conn))
        (known_store (state S.Store directory.new.conn)) }
    ensures answer { IfOk result (IsLineAnswered schema.now policies.now.policies
        (known_store (state S.Store directory.new.conn)) (line_request line.now)
        directory.old.faults directory.new.faults) }
    ensures kept { RoseBy 0 directory.old.faults directory.new.faults }
{
    let asked = line_request(alloc, line)?;
    match asked {
        LineRequest::Request(request) => answer_request(
            alloc, schema, policies, manifest, &request, directory, steps,
        ),
        LineRequest::NoRequest => refused_line(alloc, NO_REQUEST),
        LineRequest::NoJson => refused_line(alloc, NO_JSON),
    }
}
