//! Laws of the parts of JSON.

ghost use Rattle.json_values.specs.Names.{SaysNames};

/// A text is read as a name exactly where it is one.
#[tactic(auto, using(crate::proofs::NameTest::name_reported))]
pub fn names_are_reported()
    ensures { SaysNames }
{}
