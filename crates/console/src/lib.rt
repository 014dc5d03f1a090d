// What the programs share: lines of standard input, files by name, lines on standard output that hold bytes of the input, what stands in a line, terms that are fed. What a line takes in, what is read out of it and what the trace says of a term is promised; of what is written, nothing can be.
#![tactic(auto)]

pub mod blanks;
pub mod files;
pub mod lines;
pub mod saying;
pub mod terms;
pub mod words;

// The lent buffers of the machine.
pub use state::{State, Work};
