//! Laws of sets of policies.

pub use crate::policy_set::{have_keys_once, is_policy_set};
