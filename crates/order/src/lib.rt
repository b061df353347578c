// Entries of a ready list, and the order in which ready tasks are served.
// Promises: every tie order is lawful (see `ties`), so "the first entry" has one meaning.
// Knows nothing of tasks, clocks or how a list is stored.
#![tactic(auto)]

pub mod entries;
pub mod ties;
