//! The program's outcome over its argument and a reader, and what is shown of it.

use refusing::{Refusing, Turn, in_turn};
use std::alloc::{Allocator, Global};
use std::process::Abort;
use x509_tool_parts::console::{Stop, outcome_of, show, shown_after};
use x509_tool_parts::fault::ToolFault;

/// The outcome for the name of a type and an input.
fn outcome_over<A: Allocator + Copy>(
    rt: &impl Abort,
    global: Global,
    alloc: A,
    type_name: &str,
    input: &[u8],
) -> Result<Vec<u8, A>, Stop> {
    let name = String::from_str(global, type_name).expect(rt, "memory");
    outcome_of(alloc, Ok(name), input)
}

/// The outcome is these lines, and want of memory where a request is refused.
fn shows(rt: &impl Abort, global: Global, type_name: &str, input: &[u8], lines: &str) {
    let heap = Refusing::new(global);
    let requests = in_turn!(
        heap,
        match outcome_over(rt, global, &heap, type_name, input) {
            Ok(output) => Turn::right(output.as_slice() == lines.as_bytes()),
            Err(Stop::Fault(ToolFault::OutOfMemory)) => Turn::Refused,
            Err(_other) => Turn::Wrong,
        }
    );
    assert!(rt; requests.is_some(), "{type_name}");
}

/// An algorithm identifier of RSA without its NULL is one of the raw ones too, where nothing is absent that should stand.
#[test]
fn the_argument_says_the_type(rt: HostRuntime) {
    let empty = "3000\n0 0 0 0 0 0 0 0 0 0\n";
    shows(&rt, rt.alloc(), "name", b"3000\n", empty);
    shows(&rt, rt.alloc(), "extensions", b"3000\n", empty);
    let input = b"300b06092a864886f70d010101\n";
    let written = "300d06092a864886f70d0101010500\n1 0 0 0 0 0 0 0 0 0\n";
    shows(&rt, rt.alloc(), "algorithm", input, written);
}

#[test]
fn other_arguments_are_usage(rt: HostRuntime) {
    let outcome = outcome_over(&rt, rt.alloc(), rt.alloc(), "raw-algorithm", b"3");
    assert!(rt; matches!(outcome, Err(Stop::Fault(ToolFault::Usage))));
    let outcome = outcome_over(&rt, rt.alloc(), rt.alloc(), "names", b"3000");
    assert!(rt; matches!(outcome, Err(Stop::Fault(ToolFault::Usage))));
    let argument = Err(Stop::Fault(ToolFault::Usage));
    let outcome = outcome_of(rt.alloc(), argument, b"3000".as_slice());
    assert!(rt; matches!(outcome, Err(Stop::Fault(ToolFault::Usage))));
}

#[test]
fn failed_printing_is_shown(rt: HostRuntime) {
    let answer = show::<Global>(Ok(Vec::new(rt.alloc())));
    let shown = shown_after(answer, Err(Stop::Console));
    assert!(rt; shown.output.is_none() && shown.status == 5);
    assert_eq!(rt; shown.line, "input or output failed");
    let answer = show::<Global>(Ok(Vec::new(rt.alloc())));
    let shown = shown_after(answer, Ok(()));
    assert!(rt; shown.output.is_some() && shown.line.is_empty() && shown.status == 0);
}
