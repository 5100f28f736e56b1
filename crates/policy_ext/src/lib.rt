//! Extension values of policies: decimals, ranges of IP addresses, points in time and spans of time.
//!
//! Each is read from a text. Decimals and ranges are written as texts that are read back, points in time and
//! spans of time as their milliseconds.
#![tactic(auto)]

mod datetime;
mod datetime_reading;
mod decimal;
mod digits;
mod duration;
mod ip_addr;
mod ip_reading;
pub mod laws;

pub use datetime::DateTimeValue;
pub use decimal::Decimal;
pub use duration::Duration;
pub use ip_addr::{Family, IpAddr};
