//! Ancestors that rows have.

ghost use Rattle.std.specs.Prelude.{◌≡◌, false, length, Some, IfOk};
ghost use Rattle.std.specs.List.{AllZip};
ghost use Rattle.entity_loader.specs.Answers.{IsHonestList};
ghost use Rattle.table_loader.specs.RowsState.{RowsContinue};
ghost use Rattle.table_loader.specs.Tables.{Tables, store_of};
ghost use Rattle.table_loader.specs.Asking.{IsCause, AreFound};

use crate::Rows;
use crate::asking::loaded;
use entity_loader::{AncestorsRequest, LoadError};
use policy_values::EntityUID;
use std::alloc::Global;

// For each request, in their order, those of its ids for which there is a row.
pub(crate) fn ancestor_lists<R: Rows>(
    alloc: Global,
    rows: &mut R,
    requests: &Vec<AncestorsRequest>,
) -> Result<Vec<Vec<EntityUID>>, LoadError>
    ensures goes_on { RowsContinue (R.state rows.old) (R.state rows.new) }
    ensures cause { IsCause result (R.state rows.old) (R.state rows.new) }
    ensures fit { IfOk result (λ found. length requests.now.items ≡ length found.items) }
    ensures honest { (t : Tables) → (R.state rows.new).known ≡ Some t →
        IfOk result (λ found. AllZip (IsHonestList false (store_of t)) requests.now.items found.items) }
{
    let mut found = Vec::new(alloc);
    for request in requests {
        let list = ancestors_among(alloc, rows, &request.entity_id, &request.ancestors)?;
        found.push(list)?;
    }
    Ok(found)
}

// Those of the ids that are ancestors of the entity.
fn ancestors_among<R: Rows>(
    alloc: Global,
    rows: &mut R,
    uid: &EntityUID,
    ids: &[EntityUID],
) -> Result<Vec<EntityUID>, LoadError>
    ensures goes_on { RowsContinue (R.state rows.old) (R.state rows.new) }
    ensures cause { IsCause result (R.state rows.old) (R.state rows.new) }
    ensures found { (t : Tables) → (R.state rows.new).known ≡ Some t →
        IfOk result (λ found. AreFound t uid.now ids.now found.items) }
{
    let mut found = Vec::new(alloc);
    for id in ids {
        if loaded(rows.ancestor(uid, id))? {
            found.push(id.try_clone()?)?;
        }
    }
    Ok(found)
}
