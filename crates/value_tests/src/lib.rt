//! Rows on values, expressions, schemas and tries, each worked out by hand.
#![tactic(auto)]

#[cfg(test)]
mod calls;
#[cfg(test)]
mod expressions;
#[cfg(test)]
mod lines;
#[cfg(test)]
mod schemas;
#[cfg(test)]
mod tries;
