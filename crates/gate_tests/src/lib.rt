//! What `run` answers where sources and sinks fail, and each command once as a user calls it: what no clause
//! says.
#![tactic(auto)]

#[cfg(test)]
mod hostile;
#[cfg(test)]
mod runs;
