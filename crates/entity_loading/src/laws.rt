//! Laws of tries of what is read.

ghost use Rattle.entity_loading.specs.Tries.{EveryTrieIsOfSome, LeastTriesFit};

/// The least trie of what is read and demanded is a trie of it, where each path of which something is
/// demanded is read.
#[tactic(auto, using(crate::proofs::LeastSteps::least_fits))]
pub fn least_tries_fit()
    ensures { LeastTriesFit }
{}

/// Each trie is one of some paths and demands.
#[tactic(auto, using(crate::proofs::Enumerating::every_trie))]
pub fn every_trie_is_of_some()
    ensures { EveryTrieIsOfSome }
{}
