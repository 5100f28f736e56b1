//! One typing after others.

ghost use Rattle.std.specs.Prelude.{◌≡◌, IfOk, IsTrue, map};
ghost use Rattle.std.specs.List.{list_all};
ghost use Rattle.policy_typecheck.specs.TypecheckAnswer.{after, expr_of, is_success, known_of, part_of};

use crate::TypecheckAnswer;
use policy_expressions::Expr;
use schema_types::Type;
use std::alloc::{AllocError, Global};
use typing_spec::CapabilitySet;

impl<'a> TypecheckAnswer<'a> {
    /// The same, with other knowledge after a success.
    pub fn map_capability<F: FnOnce(CapabilitySet<'a>) -> CapabilitySet<'a> + Drop>(
        self,
        f: F,
    ) -> TypecheckAnswer<'a>
        requires { F.IsAlwaysCallable f }
        ensures expression { expr_of result ≡ expr_of self.entry }
        ensures success { is_success result ≡ is_success self.entry }
        ensures known { IsTrue (is_success self.entry) →
            F.post f (known_of self.entry) (known_of result) }
    {
        match self {
            TypecheckAnswer::TypecheckSuccess {
                expr_type,
                expr_capability,
            } => TypecheckAnswer::success_with_capability(expr_type, f(expr_capability)),
            TypecheckAnswer::TypecheckFail { expr_recovery_type } => {
                drop(f);
                TypecheckAnswer::fail(expr_recovery_type)
            }
        }
    }

    /// What f answers to the expression and to what is known; a failure, where this is one.
    pub fn then_typecheck<F: FnOnce(Expr<Option<Type>>, CapabilitySet<'a>) -> TypecheckAnswer<'a>>(
        self,
        alloc: Global,
        f: F,
    ) -> TypecheckAnswer<'a>
        requires { F.IsAlwaysCallable f }
        ensures { (a : _) × F.post f (expr_of self.entry) (known_of self.entry) a ×
            (result ≡ after (is_success self.entry) a) }
    {
        let ok = self.typechecked();
        let (expr, known) = self.into_parts(alloc);
        after(ok, f(expr, known))
    }

    /// What f answers to the expressions and to what is known after each; a failure, where one of the
    /// answers is one.
    pub fn sequence_all_then_typecheck<
        F: FnOnce(Vec<(Expr<Option<Type>>, CapabilitySet<'a>)>) -> TypecheckAnswer<'a> + Drop,
    >(
        alloc: Global,
        answers: Vec<TypecheckAnswer<'a>>,
        f: F,
    ) -> Result<TypecheckAnswer<'a>, AllocError>
        requires { F.IsAlwaysCallable f }
        ensures { IfOk result (λ r. (parts : _) × (a : _) ×
            (parts.items ≡ map part_of answers.entry.items) × F.post f parts a ×
            (r ≡ after (list_all is_success answers.entry.items) a)) }
    {
        let ok = have_all_types(&answers);
        let parts = parts_of(alloc, answers)?;
        Ok(after(ok, f(parts)))
    }

    /// The expression, and what is known.
    pub(crate) fn into_parts(self, alloc: Global) -> (Expr<Option<Type>>, CapabilitySet<'a>)
        ensures { result ≡ part_of self.entry }
    {
        match self {
            TypecheckAnswer::TypecheckSuccess {
                expr_type,
                expr_capability,
            } => (expr_type, expr_capability),
            TypecheckAnswer::TypecheckFail { expr_recovery_type } => {
                (expr_recovery_type, CapabilitySet::new(alloc))
            }
        }
    }
}

// The answer, made to fail where what it stands on failed.
fn after<'a>(ok: bool, answer: TypecheckAnswer<'a>) -> TypecheckAnswer<'a>
    ensures { result ≡ after ok answer.entry }
{
    if ok { answer } else { answer.into_fail() }
}

fn have_all_types(answers: &Vec<TypecheckAnswer<'_>>) -> bool
    ensures { result ≡ list_all is_success answers.now.items }
{
    for answer in answers {
        if !answer.typechecked() {
            return false;
        }
    }
    true
}

fn parts_of<'a>(
    alloc: Global,
    answers: Vec<TypecheckAnswer<'a>>,
) -> Result<Vec<(Expr<Option<Type>>, CapabilitySet<'a>)>, AllocError>
    ensures { IfOk result (λ parts. parts.items ≡ map part_of answers.entry.items) }
{
    let mut parts = Vec::new(alloc);
    for answer in answers {
        let part = answer.into_parts(alloc);
        parts.push(part)?;
    }
    Ok(parts)
}
