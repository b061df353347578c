// Trials: edge cases of the rules as one proved table, and tests of whole rehearsals.
// Promises: each case of the table is computed from a sheet on, by the definitions that the calls' contracts use.
// Knows every crate below, and no crate knows it.
#![tactic(auto)]

#[cfg(test)]
mod changes;
#[cfg(test)]
mod edges;
#[cfg(test)]
mod long;
#[cfg(test)]
mod plays;
#[cfg(test)]
mod recorded;
pub mod statements;
