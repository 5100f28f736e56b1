//! Laws of loading by computed manifests.

ghost use Rattle.entity_manifest.specs.Computed.{ComputedTriesAreDeclared, ComputedManifestsFit, ComputedSlicesFit, HonestLoadingSucceeds, PoliciesHaveOneManifest};
ghost use Rattle.entity_manifest.specs.Sticking.{NothingIsBlocked, NothingBlocks};

use access_tries::laws::same_tries_are_equal;

/// A trie of declared paths that asks only ids for ancestors fits what it reaches: where request and store
/// conform to the schema, no path of it comes to a value from which it cannot go on.
pub fn nothing_blocks()
    ensures { NothingBlocks }
{}

/// Nor does a path of it come to such a value in the whole store.
pub fn nothing_is_blocked()
    ensures { NothingIsBlocked }
{}

/// The tries of a computed manifest are such tries.
pub fn computed_tries_are_declared()
    ensures { ComputedTriesAreDeclared }
{}

/// A computed manifest fits each request that conforms to the schema, on each store in which the entities
/// conform that the policies reach on it.
pub fn computed_manifests_fit()
    ensures { ComputedManifestsFit }
{}

/// There loading from an honest loader whose count of faults does not rise succeeds, or ends because of a lack of
/// memory.
pub fn honest_loading_succeeds()
    ensures { HonestLoadingSucceeds }
{}

/// There no path of the manifest's trie is blocked in the store, and slicing along it does not refuse the
/// trie.
pub fn computed_slices_fit()
    ensures { ComputedSlicesFit }
{}

/// Manifests of the same policies are equal.
pub fn policies_have_one_manifest()
    ensures { PoliciesHaveOneManifest }
{
    same_tries_are_equal();
}
