//! The answers to lines that hold expressions, one a line, and the run that gives them: the programs `cel_lines` and
//! `cel_values` are this run, each with a stored one of its own.
//!
//! In a line `\n`, `\r`, `\t`, `\\` and `\xHH` stand for these bytes, so that each text can be given; any other backslash stands for
//! itself. A line whose bytes are no UTF-8 is no text, and its answer is `NOT_UTF8` with the offset of the first bad byte.
#![tactic(auto)]

mod answer;
mod context;
mod escapes;
mod laws;
mod program;
mod task;

pub use answer::line_answer;
pub use context::stated_context;
pub use laws::one_answer_a_line;
pub use program::run;
pub use task::{Task, task_of};
