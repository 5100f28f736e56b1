//! Loaders, and their requests and answers.

ghost use Rattle.std.specs.Prelude.{◌≡◌, ◌⊎◌, map, length, Some, Err, IfOk};
ghost use Rattle.std.specs.List.{AllZip};
ghost use Rattle.std.specs.List.Sorted.{IsStrictlySortedBy};
ghost use Rattle.byte_streams.specs.Steps.{Rose};
ghost use Rattle.policy_values.specs.Uid.{uid_cmp};
ghost use Rattle.entity_store.specs.Store.{Store};
ghost use Rattle.entity_loader.specs.Answers.{Fits, IsHonest, IsHonestList};
ghost use Rattle.entity_loader.specs.State.{LoaderState, Continues, Ticks};

use access_tries::TrieRef;
use entity_store::Entity;
use policy_values::EntityUID;
use std::alloc::{AllocError, AllocFailed, Global};

/// Why nothing was loaded. It carries nothing: a loader keeps what its database said itself.
#[derive(Clone, Copy, Debug, PartialEq, Eq)]
pub enum LoadError {
    /// The loader failed.
    Failed,
    /// There is no memory left.
    OutOfMemory,
}

impl From<AllocError> for LoadError {
    ghost use Rattle.std.specs.Prelude.{◌≡◌};
    ghost use Rattle.entity_loader.specs.declared.loader.LoadError.TheVariants.{OutOfMemory};

    ghost from_gives = { λ _ e. e ≡ OutOfMemory };

    fn from(_error: AllocError) -> LoadError {
        LoadError::OutOfMemory
    }
}

impl<T: Drop> From<AllocFailed<T>> for LoadError {
    ghost use Rattle.std.specs.Prelude.{◌≡◌};
    ghost use Rattle.entity_loader.specs.declared.loader.LoadError.TheVariants.{OutOfMemory};

    ghost from_gives = { λ _ e. e ≡ OutOfMemory };

    fn from(_error: AllocFailed<T>) -> LoadError {
        LoadError::OutOfMemory
    }
}

/// An entity that is asked for, with its attributes, its tags and the fields of records there along the trie,
/// and nothing below an id.
#[derive(Debug, Drop)]
pub struct EntityRequest<'a> {
    /// The id of the entity.
    pub entity_id: EntityUID,
    /// What is read of it.
    pub access_trie: TrieRef<'a>,
}

/// The entity, where there is one.
pub type EntityAnswer = Option<Entity>;

/// Those of these ids that are ancestors of an entity are asked for.
#[derive(Debug, Drop)]
pub struct AncestorsRequest {
    /// The id of the entity.
    pub entity_id: EntityUID,
    /// The ids of which it is asked whether they are its ancestors.
    pub ancestors: Vec<EntityUID>,
}

/// What gives entities of a store.
///
/// A loader that says its store is honest: it answers at least what is asked, and at most what the store
/// has. An entity that is there is answered also where none of its attributes is asked for. A trie goes on
/// below ids, and its nodes have no types, so a loader may answer whole attributes. All rounds of one load
/// have to see one state of the data.
pub trait EntityLoader {
    // The store that it stands for, where it says it, and counts of what has happened so far.
    ghost state: { Self → LoaderState };

    /// An answer for each request, in their order. Each id is asked for once, and they ascend.
    ///
    /// `Failed` comes only where the count of faults rises; another number of answers, or an entity with
    /// another id than the one that was asked for, only where the count of strays does. Each call counts a
    /// round, also one that fails.
    fn load_entities(
        &mut self,
        alloc: Global,
        requests: &Vec<EntityRequest<'_>>,
    ) -> Result<Vec<EntityAnswer>, LoadError>
        requires { IsStrictlySortedBy uid_cmp (map (λ r. r.entity_id) requests.now.items) }
        ensures goes_on { Continues (state self.old) (state self.new) }
        ensures rounds { Ticks (state self.old).rounds (state self.new).rounds }
        ensures lists { (state self.new).lists ≡ (state self.old).lists }
        ensures cause { result ≡ Err LoadError.Failed →
            Rose (state self.old).faults (state self.new).faults }
        ensures fit { IfOk result (λ found. AllZip Fits requests.now.items found.items ⊎
            Rose (state self.old).strays (state self.new).strays) }
        ensures honest { (s : Store) → (state self.old).store ≡ Some s → IfOk result
            (λ found. AllZip (IsHonest (state self.old).exact s) requests.now.items found.items) };

    /// For each request, in their order, those of its ids that are ancestors of its entity, its parents and
    /// all that are reached by parents of these. Each entity is asked for once, and their ids ascend.
    ///
    /// `Failed` comes only where the count of faults rises; another number of answers only where the count of
    /// strays does. Each call counts one for lists, also one that fails.
    fn load_ancestors(
        &mut self,
        alloc: Global,
        requests: &Vec<AncestorsRequest>,
    ) -> Result<Vec<Vec<EntityUID>>, LoadError>
        requires { IsStrictlySortedBy uid_cmp (map (λ r. r.entity_id) requests.now.items) }
        ensures goes_on { Continues (state self.old) (state self.new) }
        ensures rounds { (state self.new).rounds ≡ (state self.old).rounds }
        ensures lists { Ticks (state self.old).lists (state self.new).lists }
        ensures cause { result ≡ Err LoadError.Failed →
            Rose (state self.old).faults (state self.new).faults }
        ensures fit { IfOk result (λ found. (length requests.now.items ≡ length found.items) ⊎
            Rose (state self.old).strays (state self.new).strays) }
        ensures honest { (s : Store) → (state self.old).store ≡ Some s → IfOk result
            (λ found. AllZip (IsHonestList (state self.old).exact s) requests.now.items found.items) };
}
