//! What holds of manifests.

ghost use Rattle.manifest_computation.specs.Laws.{ManifestsAreSettled, TriesAreOfReads};

use access_tries::laws::same_tries_are_equal;

/// Manifests of the same policies are written alike.
pub fn manifests_are_settled()
    ensures { ManifestsAreSettled }
{
    same_tries_are_equal();
}

/// The trie that the manifest of policies has for a request is that of exactly what they read and ask for in
/// the request's environment.
pub fn tries_are_of_reads()
    ensures { TriesAreOfReads }
{}
