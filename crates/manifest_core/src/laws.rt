//! Laws of manifests.

ghost use Rattle.manifest_core.specs.Laws.{TypedStays};

/// What `to_typed` answers is typed: typing it again by the same schema is not refused, and gives the same
/// paths and marks.
#[tactic(auto, using(crate::proofs::TypedAgain::typed_stays))]
pub fn typed_stays()
    ensures { TypedStays }
{}
