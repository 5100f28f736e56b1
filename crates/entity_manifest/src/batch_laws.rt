//! Laws of decisions on many requests.

ghost use Rattle.entity_manifest.specs.BatchLaws.{AnswersAreWhole, FaultsAreCounted};

/// Where a loader says a store, and the entities conform in it that a request reaches, the decision is the
/// response on all of it, and a whole request that conforms is decided or ends with a fault of the loader.
pub fn answers_are_whole()
    ensures { AnswersAreWhole }
{}

/// At most as many answers are faults of the loader as its count of faults rose by.
pub fn faults_are_counted()
    ensures { FaultsAreCounted }
{}
