//! Texts, names, entity types and entity ids, what leads to what by one or more steps, and values: booleans,
//! longs, strings, entity ids, sets, records and extension values, in one total order.
#![tactic(auto)]

mod ascending;
mod checks;
mod closure;
mod entity_uid;
mod hash;
mod key;
mod keys;
pub mod laws;
mod map;
mod name;
mod parse;
mod post_order;
mod reach;
mod readings;
mod repeats;
mod reverse;
mod sets;
mod shared_set;
mod show;
mod text;
mod value;

pub use checks::{first_not_closed, first_own, least_outside, least_unlisted, lower};
pub use closure::{SharedSteps, Steps, closure_of};
pub use entity_uid::{Eid, EntityType, EntityUID};
pub use key::Key;
pub use map::push_entry;
pub use name::Name;
pub use readings::{read_datetime, read_decimal, read_duration, read_ip};
pub use repeats::{first_repeated, least_repeated};
pub use reverse::{add_step, descendants_of};
pub use shared_set::SharedSet;
pub use show::Quoted;
pub use text::Text;
pub use value::{Value, ValueKind, try_clone_fields};
