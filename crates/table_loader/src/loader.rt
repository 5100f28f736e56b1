//! A loader over rows of tables.

ghost use Rattle.std.specs.Prelude.{◌≡◌};

use crate::Rows;
use crate::ancestors::ancestor_lists;
use crate::entities::answers;
use entity_loader::{AncestorsRequest, EntityAnswer, EntityLoader, EntityRequest, LoadError};
use policy_values::EntityUID;
use std::alloc::Global;

/// A loader over rows: of an entity it gives each attribute with which the trie goes on, whole, and
/// all tags, whole, where the trie goes on with any tag.
///
/// Its count of faults is the rows' count, and it never strays. It says the store of the tables that
/// its rows say, where these are steady and the store is in order.
#[derive(Drop)]
pub struct RowLoader<R> {
    /// The rows.
    pub rows: R,
    /// How often entities were asked for; at the last value of u64 it stays.
    pub rounds: u64,
    /// How often ancestors were asked for; at the last value of u64 it stays.
    pub lists: u64,
}

impl<R: Rows> RowLoader<R> {
    /// The loader over the rows that has not been asked yet.
    pub fn new(rows: R) -> RowLoader<R>
        ensures rows { result.rows ≡ rows }
        ensures rounds { result.rounds ≡ 0 }
        ensures lists { result.lists ≡ 0 }
    {
        RowLoader {
            rows,
            rounds: 0,
            lists: 0,
        }
    }
}

impl<R: Rows> EntityLoader for RowLoader<R> {
    ghost use Rattle.table_loader.specs.State.{loader_state};

    ghost state = { λ l. loader_state (R.state l.rows) l.rounds l.lists };

    fn load_entities(
        &mut self,
        alloc: Global,
        requests: &Vec<EntityRequest<'_>>,
    ) -> Result<Vec<EntityAnswer>, LoadError> {
        self.rounds = self.rounds.saturating_add(1);
        answers(alloc, &mut self.rows, requests)
    }

    fn load_ancestors(
        &mut self,
        alloc: Global,
        requests: &Vec<AncestorsRequest>,
    ) -> Result<Vec<Vec<EntityUID>>, LoadError> {
        self.lists = self.lists.saturating_add(1);
        ancestor_lists(alloc, &mut self.rows, requests)
    }
}
