//! What a finding says.

ghost use Rattle.std.specs.Prelude.{◌≡◌, ℕ, List, Option, IfOk};
ghost use Rattle.policy_expressions.specs.declared.kinds.Loc.{Loc as Place};

use policy_expressions::Loc;
use policy_values::Text;
use std::alloc::{AllocError, Global};

/// What a finding says, what may help, and where it was found.
pub trait Diagnostic {
    ghost message_text: { Self → List ℕ };

    ghost help_text: { Self → Option (List ℕ) };

    ghost place: { Self → Option Place };

    /// What is wrong.
    fn message(&self, alloc: Global) -> Result<Text, AllocError>
        ensures { IfOk result (λ text. text ≡ message_text self.now) };

    /// What may help, where something is known to.
    fn help(&self, alloc: Global) -> Result<Option<Text>, AllocError>
        ensures { IfOk result (λ text. text ≡ help_text self.now) };

    /// The part of the policy's source that is meant, where it is known.
    fn location(&self) -> Option<Loc>
        ensures { result ≡ place self.now };
}
