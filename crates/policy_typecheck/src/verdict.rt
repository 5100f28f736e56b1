//! Whether a policy can be true.

ghost use Rattle.std.specs.Prelude.{◌≡◌};
ghost use Rattle.policy_typecheck.specs.Checks.{verdict_reported};

use typecheck_walk::PolicyCheck;

/// Whether a policy can be true on requests of an environment.
#[derive(Clone, Copy, Debug, PartialEq, Eq)]
pub enum Verdict {
    /// Its condition has the type False there: it is true on no request.
    Never,
    /// Its condition has the type True or Bool there: it may be true.
    May,
}

/// By the check of its condition.
pub(crate) fn verdict_by(check: &PolicyCheck) -> Verdict
    ensures { result ≡ verdict_reported check.now }
{
    match check {
        PolicyCheck::Irrelevant(_) => Verdict::Never,
        PolicyCheck::Success(_) | PolicyCheck::Fail(_) => Verdict::May,
    }
}
