//! The run over the real things: the words of the command line, standard input and output, the system's clock, and a keeper
//! over a file or in memory. Nothing is claimed of it: no contract says what these give.
#![tactic(auto)]

mod keepers;
mod run;
mod words;

pub use run::exit_of;
