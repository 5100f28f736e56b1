//! Decisions on the lines that follow the policies.
ghost use Rattle.std.specs.Prelude.{◌≡◌, IfOk, option_map};
ghost use Rattle.sqlite.specs.Held.{Held, state};
ghost use Rattle.entity_files.specs.Table.{IsReady};
ghost use Rattle.directory_service.specs.Accepted.{IsAccepted};
ghost use Rattle.directory_service.specs.OfPolicies.{IsManifestOf};
ghost use Rattle.directory_service.specs.Decided.{AreDecided, Decides, DecidesBy, IsReadFirst};
ghost use Rattle.directory_service.specs.Run.{IsReadFrom, IsRefusal};

use crate::document::{READ_FAULT, TOO_LONG, read_bytes, read_source};
use crate::reply::{Reply, file_reply, finish, finish_with, reply_with};
use crate::status::Status;
use crate::{
    Directory, Ended, EntityManifest, EntityManifestError, Line, Lines, answer_lines,
    compute_entity_manifest,
};
use byte_streams::{Sink, Source};
use json_document::Document;
use policy_scope::findings_text;
use sqlite::{Alter, Connection, Start};
use std::alloc::{AllocError, Global};

const NO_JSON: &str = "document: json\n";

// The document on the first line, or the reply on its first fault.
fn first_document<I: Source + Drop>(
    alloc: Global,
    lines: &mut Lines<I>,
) -> Result<Result<Document, Reply>, AllocError>
    ensures { IfOk result (IsReadFirst lines.old lines.new) }
{
    match lines.next_line(alloc) {
        Line::Text(line) => read_bytes(alloc, line.as_slice()),
        Line::End => Ok(Err(reply_with(alloc, Status::Document, NO_JSON)?)),
        Line::TooLong => Ok(Err(reply_with(alloc, Status::TooLong, TOO_LONG)?)),
        Line::Failed => Ok(Err(reply_with(alloc, Status::ReadFault, READ_FAULT)?)),
        Line::OutOfMemory => Err(AllocError),
    }
}

// The document that a source of its own gives up to its end, or the reply on its first fault.
fn own_document<D: Source + Drop>(
    alloc: Global,
    given: Option<D>,
) -> Result<Result<Document, Reply>, AllocError>
    ensures { IfOk result (IsReadFrom (option_map (λ s. D.state s) given)) }
{
    match given {
        Some(mut source) => read_source(alloc, &mut source),
        None => Ok(Err(reply_with(alloc, Status::ReadFault, READ_FAULT)?)),
    }
}

// How the run ends where answering lines ended so.
fn ended_with<K: Sink>(sink: &mut K, ended: Ended) -> Status
    ensures done { result ≡ Status.Done → (ended ≡ Ended.Done) × (K.state sink.new ≡ K.state sink.old) }
    ensures command { ¬ (result ≡ Status.Usage) }
{
    match ended {
        Ended::Done => Status::Done,
        Ended::ReadFault => finish(sink, Status::ReadFault, READ_FAULT),
        Ended::WriteFault => Status::WriteFault,
        Ended::OutOfMemory => Status::OutOfMemory,
    }
}

// Answers each line by the rows of a database that was opened.
fn by_rows<S: Alter + Drop, I: Source + Drop, K: Sink>(
    alloc: Global,
    document: &Document,
    manifest: &EntityManifest,
    conn: Connection<S>,
    lines: &mut Lines<I>,
    sink: &mut K,
) -> Status
    requires accepted { IsAccepted document.now.schema document.now.policies }
    requires manifest { IsManifestOf document.now.schema document.now.policies.policies manifest.now }
    requires ready { IsReady (state S.Store conn) }
    ensures done { result ≡ Status.Done → (last : Held S)
        × AreDecided document.now (state S.Store conn) (state S.Store last) lines.old
        (K.state sink.old) (K.state sink.new) }
    ensures command { ¬ (result ≡ Status.Usage) }
{
    let (ended, _) = answer_lines(
        alloc,
        &document.schema,
        &document.policies,
        manifest,
        Directory { conn, faults: 0 },
        lines,
        sink,
    );
    ended_with(sink, ended)
}

// Answers each line by the rows of the file.
fn by_file<S: Start, I: Source + Drop, K: Sink>(
    rt: &HostRuntime,
    path: &str,
    start: S,
    document: &Document,
    manifest: &EntityManifest,
    lines: &mut Lines<I>,
    sink: &mut K,
) -> Status
    requires accepted { IsAccepted document.now.schema document.now.policies }
    requires manifest { IsManifestOf document.now.schema document.now.policies.policies manifest.now }
    ensures command { ¬ (result ≡ Status.Usage) }
{
    let conn = match entity_files::open(rt, path, start) {
        Ok(conn) => conn,
        Err(error) => return finish_with(sink, file_reply(rt.alloc(), &error)),
    };
    by_rows(rt.alloc(), document, manifest, conn, lines, sink)
}

// The reply that the policies are not accepted.
fn refusal(alloc: Global, error: EntityManifestError) -> Result<Reply, AllocError>
    ensures { IfOk result IsRefusal }
{
    match &error {
        EntityManifestError::Validation(found) => {
            let text = findings_text(alloc, found)?;
            reply_with(alloc, Status::Findings, text.as_str())
        }
        EntityManifestError::OutOfMemory => Err(AllocError),
    }
}

// The same, where the document's policies are accepted.
fn by_policies<S: Start, I: Source + Drop, K: Sink>(
    rt: &HostRuntime,
    path: &str,
    start: S,
    document: &Document,
    lines: &mut Lines<I>,
    sink: &mut K,
) -> Status
    ensures accepted { result ≡ Status.Done → IsAccepted document.now.schema document.now.policies }
    ensures command { ¬ (result ≡ Status.Usage) }
{
    let alloc = rt.alloc();
    match compute_entity_manifest(alloc, &document.schema, &document.policies) {
        Ok(manifest) => by_file(rt, path, start, document, &manifest, lines, sink),
        Err(error) => finish_with(sink, refusal(alloc, error)),
    }
}

/// Reads schema and policies from the first line of the source, and answers each further line by the rows of
/// the file.
pub(crate) fn decide<S: Start, I: Source + Drop, K: Sink>(
    rt: &HostRuntime,
    path: &str,
    start: S,
    source: I,
    sink: &mut K,
) -> Status
    ensures done { result ≡ Status.Done → Decides (I.state source).left }
    ensures command { ¬ (result ≡ Status.Usage) }
{
    let alloc = rt.alloc();
    let mut lines = Lines::new(alloc, source);
    match first_document(alloc, &mut lines) {
        Ok(Ok(document)) => by_policies(rt, path, start, &document, &mut lines, sink),
        Ok(Err(reply)) => finish(sink, reply.status, reply.text.as_str()),
        Err(_) => Status::OutOfMemory,
    }
}

/// Reads schema and policies from a source of their own, and answers each line of the other by the rows of the
/// file.
pub(crate) fn decide_by<S: Start, I: Source + Drop, D: Source + Drop, K: Sink>(
    rt: &HostRuntime,
    path: &str,
    start: S,
    source: I,
    given: Option<D>,
    sink: &mut K,
) -> Status
    ensures done { result ≡ Status.Done → DecidesBy (option_map (λ s. D.state s) given) }
    ensures command { ¬ (result ≡ Status.Usage) }
{
    let alloc = rt.alloc();
    match own_document(alloc, given) {
        Ok(Ok(document)) => {
            let mut lines = Lines::new(alloc, source);
            by_policies(rt, path, start, &document, &mut lines, sink)
        }
        Ok(Err(reply)) => finish(sink, reply.status, reply.text.as_str()),
        Err(_) => Status::OutOfMemory,
    }
}
