//! One edit to a set of policies.

use crate::TemplateLink;
use policy_set::Template;
use policy_values::Text;

/// What is to be done to a set of policies.
#[derive(Debug, Drop)]
pub enum Edit {
    /// This policy is to be added, or this template where slots stand in its scope.
    Policy(Template),
    /// This link of a template is to be added.
    Link(TemplateLink),
    /// What has this id is to be removed.
    Remove(Text),
}
