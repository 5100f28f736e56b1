//! Laws of tries.

ghost use Rattle.access_tries.specs.Laws.{UnionsAgree, SameTriesAreEqual};

/// The union of tries is commutative, associative and idempotent: whichever is made has the same paths
/// and marks.
#[tactic(auto, using(crate::proofs::UnionLaws::unions_agree))]
pub fn unions_agree()
    ensures { UnionsAgree }
{}

/// Tries are equal where they have the same paths and marks.
#[tactic(auto, using(crate::proofs::SameTries::same_tries_are_equal))]
pub fn same_tries_are_equal()
    ensures { SameTriesAreEqual }
{}
