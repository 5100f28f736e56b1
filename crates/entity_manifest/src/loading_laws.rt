//! Laws of responses on what is loaded.

ghost use Rattle.entity_manifest.specs.Loaded.{TriesAreThere, LoadedIsEnough, RefusalsAreFaults};

use crate::laws::computed_manifests_fit;
use manifest_computation::slice_laws::slices_are_enough;

/// A computed manifest has a trie for each whole request that conforms, unless there are no policies.
pub fn tries_are_there()
    ensures { TriesAreThere }
{}

/// On what is loaded by the manifest of accepted policies each policy has the outcome that it has on the
/// whole store.
pub fn loaded_is_enough()
    ensures { LoadedIsEnough }
{
    slices_are_enough();
}

/// An honest loader of a store that conforms where it is reached is refused for a fault that it says or for
/// lack of memory alone.
pub fn refusals_are_faults()
    ensures { RefusalsAreFaults }
{
    computed_manifests_fit();
}
