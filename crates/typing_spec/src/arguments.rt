// Arguments that are one text.
ghost use Rattle.std.specs.Prelude.{◌≡◌, IfOk};
ghost use Rattle.std.specs.Option.{option_copied, option_and_then};
ghost use Rattle.std.specs.Result.{result_err};
ghost use Rattle.policy_expressions.specs.Tree.{trees_of};
ghost use Rattle.typing_spec.specs.Signatures.{only_text};
ghost use Rattle.typing_spec.specs.Arguments.{unreadable};

use crate::ArgumentCheck;
use policy_expressions::{Expr, ExprKind, Literal};
use policy_values::Text;
use std::alloc::{AllocError, Global};

// The text of a single string literal.
#[tactic(auto, using(crate::proofs::OneText::text_of_none, crate::proofs::OneText::text_of_several))]
pub(crate) fn only_text<T>(arguments: &[Expr<T>]) -> Option<&Text>
    ensures { option_copied result ≡ only_text (trees_of arguments.now) }
{
    match arguments {
        [] => None,
        [argument] => match argument.kind() {
            ExprKind::Lit(Literal::String(text)) => Some(text),
            _ => None,
        },
        [_, _, ..] => None,
    }
}

// Errs where there is a text that does not pass the check.
pub(crate) fn check_text(
    alloc: Global,
    check: ArgumentCheck,
    text: Option<&Text>,
) -> Result<Result<(), Text>, AllocError>
    ensures { IfOk result (λ checked. result_err checked ≡
        option_and_then (unreadable check) (option_copied text.entry)) }
{
    match text {
        Some(text) if !check.reads(text.as_str()) => Ok(Err(check.message(alloc, text)?)),
        _ => Ok(Ok(())),
    }
}
