//! Laws of what a document is answered.

ghost use Rattle.document_laws.specs.AnswerLaws.{AnswersAreSettled};

use manifest_computation::laws::manifests_are_settled;

/// A command has at most one answer to the bytes of a document: one status and one text.
pub fn answers_are_settled()
    ensures { AnswersAreSettled }
{
    manifests_are_settled();
}
