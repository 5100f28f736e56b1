//! Entities with their attributes, tags and ancestors, stores of entities, and requests.
#![tactic(auto)]

mod ascending;
mod context;
mod entities;
mod entity;
mod request;

pub use context::Context;
pub use entities::{Entities, EntitiesError};
pub use entity::Entity;
pub use request::{Request, RequestType};
