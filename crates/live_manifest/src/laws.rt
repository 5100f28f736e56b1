//! Laws of sets of policies under edits.

ghost use Rattle.live_manifest.specs.Calls.{CallsAreEdits};
ghost use Rattle.live_manifest.specs.Laws.{EditsKeepAcceptance, KeptAreComputed};
ghost use Rattle.live_manifest.specs.Unions.{TriesOfSetsAreUnions, TriesOfListsAreUnions};

use manifest_computation::laws::manifests_are_settled;
use policy_validate::laws::{acceptance_is_by_entry, entries_are_accepted};

/// An accepted set is accepted after an edit.
pub fn edits_keep_acceptance()
    ensures { EditsKeepAcceptance }
{
    acceptance_is_by_entry();
    entries_are_accepted();
}

/// The trie of a set with one more policy is the union of the trie of the set and of that of the policy.
pub fn tries_of_sets_are_unions()
    ensures { TriesOfSetsAreUnions }
{}

/// The trie of two lists of policies is the union of theirs.
pub fn tries_of_lists_are_unions()
    ensures { TriesOfListsAreUnions }
{}

/// The manifest that is kept is the one that is computed of the policies, and both are written alike.
pub fn kept_are_computed()
    ensures { KeptAreComputed }
{
    manifests_are_settled();
}

/// After any calls the policies are those after the edits for which there was memory.
pub fn calls_are_edits()
    ensures { CallsAreEdits }
{}
