//! Laws of the documents that are made from a number.

ghost use Rattle.document_laws.specs.SampleLaws.{SamplesAreSound};

/// Each text that is made of a seed and a size is a document that keeps every rule.
pub fn samples_are_sound()
    ensures { SamplesAreSound }
{}
