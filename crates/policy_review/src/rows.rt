//! What a review says.

use entity_store::RequestType;
use policy_typecheck::Verdict;
use policy_values::Text;

/// Whether a policy can be true on requests of a type.
#[derive(Debug, Drop)]
pub struct ReviewRow {
    /// The id of the policy, which is static or a link.
    pub policy_id: Text,
    /// The type of requests.
    pub request_type: RequestType,
    /// Whether it can be true on them.
    pub verdict: Verdict,
}

/// The least level at which a template or static policy passes.
#[derive(Debug, Drop)]
pub struct PolicyLevel {
    /// Its id.
    pub policy_id: Text,
    /// The level; none, where it passes at no level.
    pub level: Option<u32>,
}

/// A review of policies.
#[derive(Debug, Drop)]
pub struct Review {
    /// For each static policy and link, ascending by id, a row for each environment of the schema, ascending.
    pub matrix: Vec<ReviewRow>,
    /// For each template and static policy, ascending by id, its least level.
    pub levels: Vec<PolicyLevel>,
}
