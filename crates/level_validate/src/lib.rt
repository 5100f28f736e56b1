//! Levels: what of typed conditions is further from the request than a level allows, and the entity store cut
//! at a level.
#![tactic(auto)]

mod errors;
mod fault;
mod held;
pub mod laws;
mod levels;
mod pending;
mod slice;
mod walk;

pub use errors::{LevelFaults, level_errors};
pub use level_spec::laws::{link_levels_are_sound, static_levels_are_sound};
pub use slice::slice_at_level;
