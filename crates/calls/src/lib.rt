// Calls as values: what can be asked of a controller, what it answers, and a controller that is asked one call after another.
// Promises: every call in every order has one answer, also one out of its place, and leaves one state.
// The clause on the list stands in each contract here too, as in the controller.
// Knows nothing of bytes and lines, nor of what the answers are worth to a task.
#![tactic(auto)]

pub mod exchanges;
pub mod stages;
