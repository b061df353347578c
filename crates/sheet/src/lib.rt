// Reads the bytes of a task sheet: its numbers, its records and its faults, and where a name stands in it.
// Promises of every list of bytes the one reading that the grammar gives it, or the first fault with its place.
// Knows nothing of tasks in a schedule: what a number, a rate or a period may be is judged elsewhere.
#![tactic(auto)]

pub mod lookup;
pub mod numbers;
pub mod records;
#[cfg(test)]
mod tests;
pub mod walk;
