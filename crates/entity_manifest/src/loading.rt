//! Loading what a request reads by the manifest that is computed of policies.

ghost use Rattle.std.specs.Prelude.{◌≡◌, ◌≢◌, ◌≤◌, ◌+◌, ℕ, true, Some, None, IfOk, IfErr};
ghost use Rattle.access_tries.specs.Table.{Table};
ghost use Rattle.entity_loading.specs.Begun.{PathsWithin};
ghost use Rattle.entity_loader.specs.State.{Continues};
ghost use Rattle.entity_store.specs.Request.{IsWhole};
ghost use Rattle.typing_spec.specs.Conforms.{RequestConforms};
ghost use Rattle.manifest_computation.specs.Accepted.{IsAccepted};
ghost use Rattle.manifest_computation.specs.Rules.{ReachedConform};
ghost use Rattle.reads_spec.specs.Cover.{IsPartOf};
ghost use Rattle.manifest_computation.specs.Slice.{slice};
ghost use Rattle.manifest_computation.specs.Computed.{IsManifestOf};
ghost use Rattle.manifest_core.specs.Manifest.{trie_for};
ghost use Rattle.entity_loading.specs.declared.error.EntitySliceError.TheVariants.{OutOfMemory};
ghost use Rattle.entity_manifest.specs.Loaded.{OfKnownStores, AreDecidedAlike, IsFaultOrMemory, WhyNotLoaded};

use crate::loading_laws::{loaded_is_enough, refusals_are_faults};
use entity_loader::{EntityLoader, EntitySlicer};
use entity_loading::{EntitySliceError, Steps, load_entities};
use entity_store::{Entities, Request};
use manifest_core::EntityManifest;
use policy_set::PolicySet;
use policy_set::laws::{have_keys_once, is_policy_set};
use schema_core::ValidatorSchema;
use std::alloc::Global;
use std::sync::ledger::Ledger;
use table_loader::entities_are_ordered;

/// What a request reads, as a loader gives it, by the manifest of accepted policies.
///
/// Where the loader says a store, and the entities conform in it that the policies reach on the request, what
/// is loaded has at least the slice of that store and at most the store; each policy has on it the outcome
/// that it has on the whole store, and the response is the same. A loader that answers just what is asked
/// gives the slice.
///
/// The loader is asked for entities at most once more than the longest path of the request's trie has steps,
/// and no more steps are counted; for ancestors once at most. Without a trie it is not asked.
///
/// Errs with `LoaderFault` only where a call of the loader failed, and with `OutOfMemory` where memory runs
/// out. A loader that says such a store is refused for nothing else: `IncompatibleEntityManifest` comes
/// where an entity that is reached does not conform, and the others where it says no store.
pub fn load_for_request<D: EntityLoader, L: Ledger>(
    alloc: Global,
    schema: &ValidatorSchema,
    policies: &PolicySet,
    manifest: &EntityManifest,
    request: &Request,
    loader: &mut D,
    steps: &mut Steps<L>,
) -> Result<Entities, EntitySliceError>
    requires accepted { IsAccepted schema.now policies.now }
    requires manifest { IsManifestOf schema.now policies.now.policies manifest.now }
    requires whole { IsWhole request.now }
    requires conforms { RequestConforms schema.now request.now }
    ensures enough { OfKnownStores schema.now policies.now.policies request.now (D.state loader.old) (λ w.
        IfOk result (λ s. IsPartOf (slice schema.now policies.now.policies request.now w) s)) }
    ensures part { OfKnownStores schema.now policies.now.policies request.now (D.state loader.old) (λ w.
        IfOk result (λ s. IsPartOf s w)) }
    ensures exact { (D.state loader.old).exact ≡ true →
        OfKnownStores schema.now policies.now.policies request.now (D.state loader.old) (λ w.
        IfOk result (λ s. s ≡ slice schema.now policies.now.policies request.now w)) }
    ensures decided { OfKnownStores schema.now policies.now.policies request.now (D.state loader.old) (λ w.
        IfOk result (λ s. AreDecidedAlike policies.now.policies request.now s w)) }
    ensures honest { OfKnownStores schema.now policies.now.policies request.now (D.state loader.old) (λ w.
        IfErr result (IsFaultOrMemory (D.state loader.old) (D.state loader.new))) }
    ensures cause { IfErr result (λ e. e ≢ OutOfMemory →
        WhyNotLoaded schema.now policies.now.policies request.now
        (D.state loader.old) (D.state loader.new) e) }
    ensures goes_on { Continues (D.state loader.old) (D.state loader.new) }
    ensures rounds { (t : Table) → trie_for manifest.now request.now ≡ Some t → (n : ℕ) →
        PathsWithin t n → (D.state loader.new).rounds ≤ (D.state loader.old).rounds + (n + 1) }
    ensures steps { (t : Table) → trie_for manifest.now request.now ≡ Some t → (n : ℕ) →
        PathsWithin t n → steps.new ≤ steps.old + (n + 1) }
    ensures lists { (D.state loader.new).lists ≤ (D.state loader.old).lists + 1 }
    ensures unasked { trie_for manifest.now request.now ≡ None →
        (D.state loader.new ≡ D.state loader.old) × (steps.new ≡ steps.old) }
{
    loaded_is_enough();
    refusals_are_faults();
    have_keys_once(policies);
    is_policy_set(policies);
    // for the proof: the names of a schema's actions ascend
    let _actions = schema.action_ids();
    load_entities(alloc, manifest, request, loader, steps)
}

/// The slice of a store, by the manifest of accepted policies; the entities that they reach on the request
/// conform. Errs only where memory runs out.
pub fn load_slice<L: Ledger>(
    alloc: Global,
    schema: &ValidatorSchema,
    policies: &PolicySet,
    manifest: &EntityManifest,
    request: &Request,
    entities: &Entities,
    steps: &mut Steps<L>,
) -> Result<Entities, EntitySliceError>
    requires accepted { IsAccepted schema.now policies.now }
    requires manifest { IsManifestOf schema.now policies.now.policies manifest.now }
    requires whole { IsWhole request.now }
    requires conforms { RequestConforms schema.now request.now }
    requires store { ReachedConform schema.now policies.now.policies request.now entities.now }
    ensures slice { IfOk result (λ s. s ≡
        slice schema.now policies.now.policies request.now entities.now) }
    ensures memory { IfErr result (λ e. e ≡ OutOfMemory) }
    ensures steps { (t : Table) → trie_for manifest.now request.now ≡ Some t → (n : ℕ) →
        PathsWithin t n → steps.new ≤ steps.old + (n + 1) }
    ensures unasked { trie_for manifest.now request.now ≡ None → steps.new ≡ steps.old }
{
    entities_are_ordered(entities);
    // for the proof: the ids of a store ascend
    let _entities = entities.iter();
    let mut loader = EntitySlicer::new(entities);
    load_for_request(
        alloc,
        schema,
        policies,
        manifest,
        request,
        &mut loader,
        steps,
    )
}
