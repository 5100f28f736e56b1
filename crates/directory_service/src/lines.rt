//! Decisions on requests that come as lines.
ghost use Rattle.std.specs.Prelude.{◌≡◌};
ghost use Rattle.sqlite.specs.Held.{state};
ghost use Rattle.entity_manifest.specs.Accepted.{IsAccepted};
ghost use Rattle.entity_manifest.specs.OfPolicies.{IsManifestOf};
ghost use Rattle.entity_files.specs.Table.{IsReady, Continues};
ghost use Rattle.entity_files.specs.Rows.{known_store};
ghost use Rattle.directory_service.specs.Attempts.{OfStore};
ghost use Rattle.directory_service.specs.Lines.{IsLineOn, AreLinesAnswered};

use crate::{Directory, answer_line};
use byte_streams::{AnswersLines, Ended, Lines, Sink, Source};
use entity_manifest::{EntityManifest, Steps, refused_line};
use policy_set::PolicySet;
use schema_core::ValidatorSchema;
use sqlite::Alter;
use std::alloc::{AllocError, Global};
use std::marker::Brand;
use std::sync::ledger::{Blank, Ledger};

const LONG_LINE: &str = "line: more than 16777216 bytes";

/// Decides on the requests that lines are, by the rows of a directory.
#[derive(Drop)]
pub struct LineDecider<'a, S: Alter + Drop, L: Ledger> {
    /// The schema.
    pub schema: &'a ValidatorSchema,
    /// The policies, which are accepted.
    pub policies: &'a PolicySet,
    /// Their manifest.
    pub manifest: &'a EntityManifest,
    /// The rows.
    pub directory: Directory<S>,
    /// The steps of loading so far.
    pub steps: Steps<L>,
}

impl<S: Alter + Drop, L: Ledger> AnswersLines for LineDecider<'_, S, L> {
    ghost is_ready = { λ d. IsAccepted d.schema.now d.policies.now
        × IsManifestOf d.schema.now d.policies.now.policies d.manifest.now
        × IsReady (state S.Store d.directory.conn) };

    ghost is_answer = { λ d faults asked text.
        OfStore d.schema.now (known_store (state S.Store d.directory.conn))
        (λ w. IsLineOn d.schema.now d.policies.now.policies w faults asked text) };

    ghost faults = { λ d. d.directory.faults };

    ghost comes_of = { λ first d. (d.schema.now ≡ first.schema.now) × (d.policies.now ≡ first.policies.now)
        × Continues (known_store (state S.Store first.directory.conn))
        (known_store (state S.Store d.directory.conn)) };

    fn answer(&mut self, alloc: Global, line: &[u8]) -> Result<String, AllocError> {
        answer_line(
            alloc,
            self.schema,
            self.policies,
            self.manifest,
            line,
            &mut self.directory,
            &mut self.steps,
        )
    }

    fn pass_over(&self, alloc: Global) -> Result<String, AllocError> {
        refused_line(alloc, LONG_LINE)
    }
}

// The same, with the marker of the steps.
fn answer_marked<S: Alter + Drop, L: Ledger, I: Source + Drop, K: Sink>(
    alloc: Global,
    schema: &ValidatorSchema,
    policies: &PolicySet,
    manifest: &EntityManifest,
    directory: Directory<S>,
    lines: &mut Lines<I>,
    sink: &mut K,
    blank: Blank,
) -> (Ended, Directory<S>)
    requires name { blank.name ≡ L.name }
    requires parts { blank.parts ≡ L.parts }
    requires one { blank.parts ≡ 1 }
    requires accepted { IsAccepted schema.now policies.now }
    requires manifest { IsManifestOf schema.now policies.now.policies manifest.now }
    requires ready { IsReady (state S.Store directory.conn) }
    ensures ready { IsReady (state S.Store result.1.conn) }
    ensures answered { AreLinesAnswered schema.now policies.now (known_store (state S.Store result.1.conn))
        directory.faults result.1.faults lines.old (K.state sink.old) (K.state sink.new) result.0 }
    ensures goes_on { Continues (known_store (state S.Store directory.conn))
        (known_store (state S.Store result.1.conn)) }
{
    let steps = Steps::<L>::new(blank);
    let mut decider = LineDecider {
        schema,
        policies,
        manifest,
        directory,
        steps,
    };
    let ended = byte_streams::answer_lines(alloc, &mut decider, lines, sink);
    let LineDecider { directory, .. } = decider;
    (ended, directory)
}

/// Answers each line that is left of the source, by the rows of the directory, where these are accepted
/// policies with their manifest, and writes each answer at once. How it ended, and the directory.
///
/// Where then the database is open and its disk has returned what was written, and the store of its rows
/// conforms: what was written are the lines on the responses on this whole store to the requests of the first
/// lines, in their order, or on faults, of which there are at most as many as the count of faults rose by,
/// unless that stands at the last value of u64; and where it ended with `Done` no line is left out.
pub fn answer_lines<S: Alter + Drop, I: Source + Drop, K: Sink>(
    alloc: Global,
    schema: &ValidatorSchema,
    policies: &PolicySet,
    manifest: &EntityManifest,
    directory: Directory<S>,
    lines: &mut Lines<I>,
    sink: &mut K,
) -> (Ended, Directory<S>)
    requires accepted { IsAccepted schema.now policies.now }
    requires manifest { IsManifestOf schema.now policies.now.policies manifest.now }
    requires ready { IsReady (state S.Store directory.conn) }
    ensures ready { IsReady (state S.Store result.1.conn) }
    ensures answered { AreLinesAnswered schema.now policies.now (known_store (state S.Store result.1.conn))
        directory.faults result.1.faults lines.old (K.state sink.old) (K.state sink.new) result.0 }
    ensures goes_on { Continues (known_store (state S.Store directory.conn))
        (known_store (state S.Store result.1.conn)) }
{
    let blank = Blank::new(1);
    answer_marked::<S, Brand, I, K>(
        alloc, schema, policies, manifest, directory, lines, sink, blank,
    )
}
