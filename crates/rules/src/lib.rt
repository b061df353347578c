// The rules of one task: its phase, its jobs, what a deadline does to it, who may be admitted, how it changes and how it goes.
// Promises: each rule is one pure function with one equation, refusals in their order.
// Knows no table of tasks, no ready list and no controller.
// A clock is a plain number, in range where a rule asks for it: some rules of a task do not (`withdraw`), so a type would be made and left at each call.
#![tactic(auto)]

pub mod admission;
pub mod changes;
pub mod jobs;
mod limits;
pub mod phases;
pub mod refusals;
pub mod task_at;
pub mod tasks;
mod ticks;
pub mod withdrawals;
