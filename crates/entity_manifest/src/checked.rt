//! Whether a manifest is that of policies.

ghost use Rattle.std.specs.Prelude.{◌≡◌, true, None, IfOk, IfErr, IfSome};
ghost use Rattle.manifest_core.specs.Same.{same_manifests};
ghost use Rattle.entity_manifest.specs.Accepted.{IsAccepted};
ghost use Rattle.manifest_computation.specs.Computed.{IsManifestOf, WhyNone};
ghost use Rattle.entity_manifest.specs.Computed.{IsOfOthers};

use crate::laws::policies_have_one_manifest;
use manifest_computation::{EntityManifestError, compute_entity_manifest};
use manifest_core::EntityManifest;
use policy_set::PolicySet;
use schema_core::ValidatorSchema;
use std::alloc::Global;

/// The manifest of the policies, where the given one is equal to it, as where it was read from a text that was
/// written for these policies; nothing exactly where it is not. What is answered may be used for loading.
///
/// Errors: those of [`compute_entity_manifest`].
pub fn checked_manifest(
    alloc: Global,
    schema: &ValidatorSchema,
    policies: &PolicySet,
    given: &EntityManifest,
) -> Result<Option<EntityManifest>, EntityManifestError>
    ensures manifest { IfOk result (λ o. IfSome o (IsManifestOf schema.now policies.now.policies)) }
    ensures equal { IfOk result (λ o. IfSome o (λ m. same_manifests m given.now ≡ true)) }
    ensures other { IfOk result (λ o. o ≡ None → IsOfOthers schema.now policies.now.policies given.now) }
    ensures accepted { IfOk result (λ o. IsAccepted schema.now policies.now) }
    ensures refused { IfErr result (WhyNone schema.now policies.now) }
{
    policies_have_one_manifest();
    let manifest = compute_entity_manifest(alloc, schema, policies)?;
    if manifest == *given {
        Ok(Some(manifest))
    } else {
        drop(manifest);
        Ok(None)
    }
}
