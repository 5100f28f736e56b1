//! What is answered to a request.

ghost use Rattle.std.specs.Prelude.{◌≡◌};

use policy_core::{EvalError, Text};
use std::marker::Model;

/// Whether a request is allowed.
#[derive(Clone, Copy, Debug, PartialEq, Eq)]
pub enum Decision {
    /// It is: some permit is true, and no forbid.
    Allow,
    /// It is not.
    Deny,
}

/// A policy whose condition has no value.
#[derive(Debug, Drop)]
pub struct PolicyFailure {
    /// The policy's id.
    pub id: Text,
    /// Why its condition has no value.
    pub error: EvalError,
}

/// The decision on a request, with the policies that led to it.
#[derive(Debug, Drop)]
pub struct Response {
    decision: Decision,
    reasons: Vec<Text>,
    errors: Vec<PolicyFailure>,
}

impl Model for Response {
    ghost use Rattle.policy_set.specs.Response.{ResponseData, coded_response};

    ghost Value = { ResponseData };

    ghost coded = { coded_response };

    ghost view = { λ r.
        record { decision = r.decision; reasons = r.reasons.items; errors = r.errors.items } };
}

impl Response {
    /// The response with this decision, for these reasons, with these errors.
    pub fn new(decision: Decision, reasons: Vec<Text>, errors: Vec<PolicyFailure>) -> Response
        ensures { result ≡ record { decision = decision; reasons = reasons.items; errors = errors.items } }
    {
        Response {
            decision,
            reasons,
            errors,
        }
    }

    /// Whether the request is allowed.
    pub fn decision(&self) -> Decision
        ensures { result ≡ self.now.decision }
    {
        self.decision
    }

    /// The ids of the policies that led to the decision, ascending: the true permits for Allow, else the true
    /// forbids.
    pub fn reasons(&self) -> &[Text]
        ensures { result.now ≡ self.now.reasons }
    {
        &self.reasons
    }

    /// The policies whose conditions have no value, ascending by id.
    pub fn errors(&self) -> &[PolicyFailure]
        ensures { result.now ≡ self.now.errors }
    {
        &self.errors
    }
}
