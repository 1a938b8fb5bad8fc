//! Reads one expression a line and writes one line for each: `OK ` and its printed form, or its fault as `KIND OFFSET`.
//!
//! With one of the words `allow`, `deny` and `binding` a line that reads is also checked in that place, and its fault is written.
//! With the word `value` a condition of an allow policy is evaluated, and its outcome is written.
//! Other words are refused: nothing is read then, and the status is 2.
#![tactic(auto)]

use std::io;
use std::process::ExitCode;

fn main(rt: HostRuntime) -> io::Result<ExitCode> {
    cel_answers::run(&rt)
}
