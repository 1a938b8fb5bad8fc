//! Tests of the outside: what keepers over memory and over a database keep, and what a sink in memory takes.
//!
//! No code stands beside them, so that no other proof is made again with theirs.
#![tactic(auto)]

#[cfg(test)]
mod keepers;
#[cfg(test)]
mod sink;
