//! The program `cimaroly`: shows and checks X.509 structures.
#![tactic(auto)]

use cimaroly_parts::cli::run;
use cimaroly_parts::words::words;
use cimaroly_parts::{Status, Stop, Terminal};
use std::io::IsTerminal;
use std::process::ExitCode;

/// Does what the command line asks for.
fn outcome(rt: &HostRuntime) -> Result<Status, Stop> {
    let has_output = rt.stdout().is_terminal();
    let has_errors = rt.stderr().is_terminal();
    let terminal = Terminal::new(rt, has_output, has_errors)?;
    let words = words(rt)?;
    run(rt, words.as_slice(), terminal)
}

fn main(rt: HostRuntime) -> ExitCode {
    let status = match outcome(&rt) {
        Ok(status) => status,
        Err(stop) => {
            if let Some(error) = &stop.error {
                // Standard error is the last resort: where it fails too, the status alone tells.
                let _ = eprintln!(rt; "cimaroly: {error:#}");
            }
            stop.status
        }
    };
    ExitCode::from(status.code())
}
