//! The program `x509_tool TYPE`: reads hexadecimal DER from standard input, and prints its DER encoding and how many
//! deviations of each kind stood in it.
#![tactic(auto)]

use std::alloc::Global;
use std::process::ExitCode;
use x509_tool_parts::console::{Shown, outcome, print, show, shown_after};

/// Prints the output, and answers what is shown in the end.
fn written(rt: &HostRuntime, answer: Shown<Global>) -> Shown<Global> {
    let printed = match &answer.output {
        Some(output) => print(rt, output),
        None => Ok(()),
    };
    shown_after(answer, printed)
}

fn main(rt: HostRuntime) -> ExitCode {
    let answer = written(&rt, show(outcome(&rt)));
    if !answer.line.is_empty() {
        // Standard error is the last resort: where it fails too, the status alone tells.
        let _ = eprintln!(rt; "{}", answer.line);
    }
    ExitCode::from(answer.status)
}
