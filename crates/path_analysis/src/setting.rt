//! Where conditions are analysed.

use schema_core::{RequestEnv, ValidatorSchema};
use std::alloc::Global;

/// The schema and the environment in which a condition has its types.
#[derive(Drop)]
pub(crate) struct Setting<'a> {
    pub(crate) alloc: Global,
    pub(crate) schema: &'a ValidatorSchema,
    pub(crate) env: &'a RequestEnv<'a>,
}
