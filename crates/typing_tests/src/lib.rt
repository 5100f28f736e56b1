//! Rows on types, typing, requests and edits, each worked out by hand.
#![tactic(auto)]

#[cfg(test)]
mod accesses;
#[cfg(test)]
mod checks;
#[cfg(test)]
mod copies;
#[cfg(test)]
mod described;
#[cfg(test)]
mod edits;
#[cfg(test)]
mod environments;
#[cfg(test)]
mod joins;
#[cfg(test)]
mod lines;
#[cfg(test)]
mod messages;
#[cfg(test)]
mod paths;
#[cfg(test)]
mod risks;
