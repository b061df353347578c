// A rehearsal: a sheet and call records in, a line for each call out.
// Promises: the output bytes are an equation of the input bytes, over any lawful ready list.
// Knows nothing of files, streams or arguments.
#![tactic(auto)]

pub mod lines;
pub mod play;
pub mod scripts;
mod turns;
