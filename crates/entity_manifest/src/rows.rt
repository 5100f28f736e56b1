//! Decisions on many requests, over rows of tables.

ghost use Rattle.std.specs.Prelude.{IfOk, IfErr};
ghost use Rattle.std.specs.List.{AllZip};
ghost use Rattle.entity_manifest.specs.Accepted.{IsAccepted};
ghost use Rattle.entity_manifest.specs.OfPolicies.{WhyNone};
ghost use Rattle.table_loader.specs.State.{store_known};
ghost use Rattle.entity_manifest.specs.Answers.{IsRowAnswer, AreCounted};

use crate::{BatchAnswer, EntityManifestError, decide_batch};
use entity_store::Request;
use policy_set::PolicySet;
use schema_core::ValidatorSchema;
use std::alloc::Global;
use table_loader::laws::known_stores_are_ordered;
use table_loader::{RowLoader, Rows};

/// The same over rows of tables. Where the rows say a store, and the entities conform in it that a request
/// reaches, the decision is the response on all of it, and a whole request that conforms is decided, or the
/// rows failed: at most as often as their count of faults rose.
pub fn decide_batch_on_rows<R: Rows>(
    alloc: Global,
    schema: &ValidatorSchema,
    policies: &PolicySet,
    requests: &Vec<Request>,
    loader: &mut RowLoader<R>,
) -> Result<Vec<BatchAnswer>, EntityManifestError>
    ensures answers { IfOk result (λ answers. AllZip
        (IsRowAnswer schema.now policies.now.policies (store_known (R.state loader.old.rows)))
        requests.now.items answers.items) }
    ensures faults { IfOk result (λ answers. AreCounted answers.items
        (R.state loader.old.rows).faults (R.state loader.new.rows).faults) }
    ensures accepted { IfOk result (λ _. IsAccepted schema.now policies.now) }
    ensures refused { IfErr result (WhyNone schema.now policies.now) }
{
    known_stores_are_ordered();
    decide_batch(alloc, schema, policies, requests, loader)
}
