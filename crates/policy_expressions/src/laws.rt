//! Laws of expressions.

ghost use Rattle.policy_expressions.specs.Keys.{HasKeysOnce};

use crate::Expr;
use crate::expr::operand_depth;

/// Each record of an expression has each of its keys once.
pub fn keys_are_once<T>(e: &Expr<T>)
    ensures { HasKeysOnce e.now }
{
    let _depth = operand_depth(e);
}
