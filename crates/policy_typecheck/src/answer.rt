//! What typing an expression comes to.

ghost use Rattle.std.specs.Prelude.{◌≡◌, ◌↔◌, [], IsTrue, Some};
ghost use Rattle.policy_expressions.specs.Tree.{mark_of};
ghost use Rattle.policy_typecheck.specs.TypecheckAnswer.{expr_of, is_success, failed};
ghost use Rattle.policy_typecheck.specs.declared.answer.TypecheckAnswer.TheVariants.{TypecheckSuccess, TypecheckFail};

use policy_expressions::Expr;
use schema_types::Type;
use std::alloc::Global;
use typing_spec::CapabilitySet;

/// What typing an expression comes to. The type of each part of the expression, where it is known, is the
/// part's note.
#[derive(Debug, Drop)]
pub enum TypecheckAnswer<'a> {
    /// The expression has a type.
    TypecheckSuccess {
        /// The expression, with types.
        expr_type: Expr<Option<Type>>,
        /// What is known once the expression is true.
        expr_capability: CapabilitySet<'a>,
    },
    /// The expression has no type. What stands above it may go on with the type that it would have, where
    /// there is one.
    TypecheckFail {
        /// The expression, with types.
        expr_recovery_type: Expr<Option<Type>>,
    },
}

impl<'a> TypecheckAnswer<'a> {
    /// A success after which nothing is known.
    pub fn success(alloc: Global, expr_type: Expr<Option<Type>>) -> TypecheckAnswer<'a>
        ensures { result ≡ TypecheckSuccess expr_type [] }
    {
        TypecheckAnswer::success_with_capability(expr_type, CapabilitySet::new(alloc))
    }

    /// A success after which something is known.
    pub fn success_with_capability(
        expr_type: Expr<Option<Type>>,
        expr_capability: CapabilitySet<'a>,
    ) -> TypecheckAnswer<'a>
        ensures { result ≡ TypecheckSuccess expr_type expr_capability.entry }
    {
        TypecheckAnswer::TypecheckSuccess {
            expr_type,
            expr_capability,
        }
    }

    /// A failure.
    pub fn fail(expr_recovery_type: Expr<Option<Type>>) -> TypecheckAnswer<'a>
        ensures { result ≡ TypecheckFail expr_recovery_type }
    {
        TypecheckAnswer::TypecheckFail { expr_recovery_type }
    }

    /// Whether the expression has this type, or would have it.
    pub fn contains_type(&self, ty: &Type) -> bool
        ensures { IsTrue result ↔ ((mark_of (expr_of self.now)).note ≡ Some ty.now) }
    {
        match self.typed_expr().data() {
            Some(of) => is_same_type(of, ty),
            None => false,
        }
    }

    /// The expression, with types.
    pub fn into_typed_expr(self) -> Expr<Option<Type>>
        ensures { result ≡ expr_of self.entry }
    {
        match self {
            TypecheckAnswer::TypecheckSuccess {
                expr_type,
                expr_capability,
            } => {
                drop(expr_capability);
                expr_type
            }
            TypecheckAnswer::TypecheckFail { expr_recovery_type } => expr_recovery_type,
        }
    }

    /// Whether the expression has a type.
    pub fn typechecked(&self) -> bool
        ensures { result ≡ is_success self.now }
    {
        match self {
            TypecheckAnswer::TypecheckSuccess { .. } => true,
            TypecheckAnswer::TypecheckFail { .. } => false,
        }
    }

    /// The failure of the same expression.
    pub fn into_fail(self) -> TypecheckAnswer<'a>
        ensures { result ≡ failed self.entry }
    {
        TypecheckAnswer::fail(self.into_typed_expr())
    }

    // The expression, borrowed.
    fn typed_expr(&self) -> &Expr<Option<Type>>
        ensures { result.now ≡ expr_of self.now }
    {
        match self {
            TypecheckAnswer::TypecheckSuccess { expr_type, .. } => expr_type,
            TypecheckAnswer::TypecheckFail { expr_recovery_type } => expr_recovery_type,
        }
    }
}

#[tactic(auto, using(crate::proofs::Types::type_decides))]
pub(crate) fn is_same_type(t: &Type, u: &Type) -> bool
    ensures { IsTrue result ↔ (t.now ≡ u.now) }
{
    *t == *u
}
