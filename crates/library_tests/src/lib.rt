//! Rows on manifests, loaders and what stands on them, each worked out by hand.
#![tactic(auto)]

#[cfg(test)]
mod asked;
#[cfg(test)]
mod batch;
#[cfg(test)]
mod errors;
#[cfg(test)]
mod faces;
#[cfg(test)]
mod liar;
#[cfg(test)]
mod lives;
#[cfg(test)]
mod loaded_manifests;
#[cfg(test)]
mod loaders;
#[cfg(test)]
mod manifests;
#[cfg(test)]
mod stores;
#[cfg(test)]
mod texts;
