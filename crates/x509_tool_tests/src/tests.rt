//! Worked inputs of the program, and the faults of its work.

use refusing::{Refusing, Turn, in_turn};
use std::alloc::{AllocError, Allocator, Global};
use std::io::{self, ErrorKind};
use std::process::Abort;
use std::test::Fail;
use x509_tool_parts::console::{Stop, only, read_input, show};
use x509_tool_parts::fault::ToolFault;
use x509_tool_parts::run_text::run_text;

/// The text gives these two lines as a value of the type, and want of memory where a request is refused.
fn prints_as(rt: &impl Abort, heap: &Refusing<Global>, type_name: &str, input: &[u8], lines: &str) {
    let requests = in_turn!(
        heap,
        match run_text(heap, type_name, input) {
            Ok(output) => Turn::right(output.as_slice() == lines.as_bytes()),
            Err(ToolFault::OutOfMemory) => Turn::Refused,
            Err(_other) => Turn::Wrong,
        }
    );
    assert!(rt; requests.is_some(), "{input:?}");
}

/// The same as a raw algorithm identifier.
fn prints(rt: &impl Abort, heap: &Refusing<Global>, input: &[u8], lines: &str) {
    prints_as(rt, heap, "raw-algorithm", input, lines);
}

/// The text gives this fault as a value of the type, and want of memory where a request is refused.
fn faults_as(
    rt: &impl Abort,
    heap: &Refusing<Global>,
    type_name: &str,
    input: &[u8],
    fault: ToolFault,
) {
    let requests = in_turn!(
        heap,
        match run_text(heap, type_name, input) {
            Ok(_output) => Turn::Wrong,
            Err(ToolFault::OutOfMemory) => Turn::Refused,
            Err(other) => Turn::right(other == fault),
        }
    );
    assert!(rt; requests.is_some(), "{input:?}");
}

/// The same as a raw algorithm identifier.
fn faults(rt: &impl Abort, heap: &Refusing<Global>, input: &[u8], fault: ToolFault) {
    faults_as(rt, heap, "raw-algorithm", input, fault);
}

#[test]
fn names_print(rt: HostRuntime) {
    let heap = Refusing::new(rt.alloc());
    let empty = "3000\n0 0 0 0 0 0 0 0 0 0\n";
    prints_as(&rt, &heap, "name", b"3000\n", empty);
    prints_as(&rt, &heap, "name", b"3000", empty);
    let common_name = "300c310a300806035504030c0161\n0 0 0 0 0 0 0 0 0 0\n";
    let input = b"300C310A300806035504030C0161\n";
    prints_as(&rt, &heap, "name", input, common_name);
    faults_as(&rt, &heap, "name", b"30 00", ToolFault::Usage);
    faults_as(&rt, &heap, "name", b"3100\n", ToolFault::Refused);
}

#[test]
fn extensions_print(rt: HostRuntime) {
    let heap = Refusing::new(rt.alloc());
    let empty = "3000\n0 0 0 0 0 0 0 0 0 0\n";
    prints_as(&rt, &heap, "extensions", b"3000\n", empty);
    let spelled = b"300E300C0603551D1301010004023000\n";
    let written = "300b30090603551d1304023000\n0 0 0 0 0 0 1 0 0 0\n";
    prints_as(&rt, &heap, "extensions", spelled, written);
    let disordered = b"3011300f0603551d2304083006820101800100";
    let ordered = "3011300f0603551d2304083006800100820101\n0 0 0 0 0 0 0 1 0 0\n";
    prints_as(&rt, &heap, "extensions", disordered, ordered);
    let left_over = b"300d300b0603551d13040430000500";
    faults_as(&rt, &heap, "extensions", left_over, ToolFault::Refused);
}

#[test]
fn algorithms_print(rt: HostRuntime) {
    let heap = Refusing::new(rt.alloc());
    let absent = b"300B06092A864886F70D010101\n";
    let written = "300d06092a864886f70d0101010500\n1 0 0 0 0 0 0 0 0 0\n";
    prints_as(&rt, &heap, "algorithm", absent, written);
    let nested =
        b"303d06092a864886f70d01010a3030a00d300b0609608648016503040201a11a301806092a864886f70d010108300b0609608648016503040201a203020120";
    let filled =
        "304106092a864886f70d01010a3034a00f300d06096086480165030402010500a11c301a06092a864886f70d010108300d06096086480165030402010500a203020120\n0 0 2 0 0 0 0 0 0 0\n";
    prints_as(&rt, &heap, "algorithm", nested, filled);
    let other = b"300B0609608648016503040201";
    faults_as(&rt, &heap, "algorithm", other, ToolFault::Refused);
    faults_as(&rt, &heap, "algorithm", b"", ToolFault::Refused);
    faults_as(&rt, &heap, "algorithm", b"3", ToolFault::Usage);
}

#[test]
fn keys_print(rt: HostRuntime) {
    let heap = Refusing::new(rt.alloc());
    let public = b"3018300b06092a864886f70d01010103090030060201050201 03";
    faults_as(&rt, &heap, "public-key", public, ToolFault::Usage);
    let public = b"3018300b06092a864886f70d0101010309003006020105020103";
    let written = "301a300d06092a864886f70d01010105000309003006020105020103\n1 0 0 0 0 0 0 0 0 0\n";
    prints_as(&rt, &heap, "public-key", public, written);
    let private = b"3011020100300506032b657004030401aaa000";
    let written = "300f020100300506032b657004030401aa\n0 0 0 0 0 0 0 0 0 1\n";
    prints_as(&rt, &heap, "private-key", private, written);
    let second = b"3015020100300506032b657004030401aaa000810200bb";
    faults_as(&rt, &heap, "private-key", second, ToolFault::Refused);
}

#[test]
fn certificates_print(rt: HostRuntime) {
    let heap = Refusing::new(rt.alloc());
    let plain =
        b"304c303a020101300506032b65703000301e170d3139313031373137343132385a170d3232313031363137343132385a3000300a300506032b6570030100300b06092a864886f70d01010b030100";
    let written =
        "304e303a020101300506032b65703000301e170d3139313031373137343132385a170d3232313031363137343132385a3000300a300506032b6570030100300d06092a864886f70d01010b0500030100\n1 0 0 0 0 0 0 0 0 0\n";
    prints_as(&rt, &heap, "certificate", plain, written);
    let request = b"301f30130201003000300a300506032b6570030100a000300506032b6570030100";
    let same =
        "301f30130201003000300a300506032b6570030100a000300506032b6570030100\n0 0 0 0 0 0 0 0 0 0\n";
    prints_as(&rt, &heap, "request", request, same);
    let absent = b"301d30110201003000300a300506032b6570030100300506032b6570030100";
    faults_as(&rt, &heap, "request", absent, ToolFault::Refused);
}

#[test]
fn rows_print(rt: HostRuntime) {
    let heap = Refusing::new(rt.alloc());
    let absent = "300c06082a864886f70d02090500\n0 1 0 0 0 0 0 0 0 0\n";
    let strict = "300c06082a864886f70d02090500\n0 0 0 0 0 0 0 0 0 0\n";
    prints(&rt, &heap, b"300a06082a864886f70d0209", absent);
    prints(&rt, &heap, b"300A06082A864886F70D0209\n", absent);
    prints(&rt, &heap, b"300a06082A864886f70D0209", absent);
    prints(&rt, &heap, b"300c06082a864886f70d02090500\n", strict);
}

#[test]
fn faults_are_named(rt: HostRuntime) {
    let heap = Refusing::new(rt.alloc());
    for text in [
        b"".as_slice(),
        b"\n".as_slice(),
        b"300a06082a864886f70d02".as_slice(),
    ] {
        faults(&rt, &heap, text, ToolFault::Refused);
    }
    for text in [
        b"30 00".as_slice(),
        b"3000\n\n".as_slice(),
        b"3000\r\n".as_slice(),
        b"3".as_slice(),
        b"300".as_slice(),
        b"30g0".as_slice(),
        b"\n3000".as_slice(),
    ] {
        faults(&rt, &heap, text, ToolFault::Usage);
    }
}

/// No memory is asked for where the name is that of no type.
#[test]
fn other_names_are_usage(rt: HostRuntime) {
    let heap = Refusing::new(rt.alloc());
    heap.refuse_all();
    for name in ["names", "Name", "Raw-algorithm", "nothing", ""] {
        let answer = run_text(&heap, name, b"3000");
        assert_eq!(rt; answer.err(), Some(ToolFault::Usage), "{name}");
    }
    assert_eq!(rt; heap.requests(), 0);
}

#[test]
fn statuses_and_lines(rt: HostRuntime) -> Result<(), Fail> {
    for (stop, status, line) in [
        (Stop::Fault(ToolFault::Refused), 1, "refused"),
        (Stop::Fault(ToolFault::Usage), 2, "usage: x509_tool TYPE"),
        (Stop::Fault(ToolFault::OutOfMemory), 3, "out of memory"),
        (Stop::Fault(ToolFault::TooLong), 4, "too long"),
        (Stop::Console, 5, "input or output failed"),
        (Stop::from(ToolFault::OutOfMemory), 3, "out of memory"),
        (Stop::from(AllocError), 3, "out of memory"),
        (
            Stop::from(io::Error::from(ErrorKind::OutOfMemory)),
            3,
            "out of memory",
        ),
        (
            Stop::from(io::Error::from(ErrorKind::BrokenPipe)),
            5,
            "input or output failed",
        ),
    ] {
        assert_eq!(rt; stop.status(), status);
        assert_eq!(rt; stop.line(), line);
    }
    let shown = ToolFault::Usage.to_string(rt.alloc())?;
    assert_eq!(rt; shown.as_str(), ToolFault::Usage.line());
    Ok(())
}

/// What a run showed that should read these bytes.
fn input_turn<A: Allocator>(answer: Result<Vec<u8, A>, Stop>, bytes: &[u8]) -> Turn {
    match answer {
        Ok(input) => Turn::right(input.as_slice() == bytes),
        Err(Stop::Fault(ToolFault::OutOfMemory)) => Turn::Refused,
        Err(_other) => Turn::Wrong,
    }
}

/// An input of more than one read, also where memory is refused first; no bytes take no memory.
#[test]
fn inputs_are_read(rt: HostRuntime) {
    let heap = Refusing::new(rt.alloc());
    let bytes = [0xA5u8; 10000];
    let requests = in_turn!(
        heap,
        input_turn(read_input(&heap, bytes.as_slice()), &bytes)
    );
    assert!(rt; requests > Some(0));
    let requests = in_turn!(heap, input_turn(read_input(&heap, b"".as_slice()), b""));
    assert!(rt; requests == Some(0));
}

/// A reader that gives one byte, then fails once, and then ends.
#[derive(Drop)]
struct Failing {
    is_read: bool,
    has_failed: bool,
    kind: ErrorKind,
}

impl io::Read for Failing {
    fn read(&mut self, buf: &mut [u8]) -> io::Result<usize> {
        if self.has_failed {
            return Ok(0);
        }
        if self.is_read {
            self.has_failed = true;
            return Err(io::Error::from(self.kind));
        }
        self.is_read = true;
        match buf.first_mut() {
            Some(first) => {
                *first = b'3';
                Ok(1)
            }
            None => Ok(0),
        }
    }
}

/// What a reader that fails in this way midway is refused with.
fn stop_of<A: Allocator>(alloc: A, kind: ErrorKind) -> Option<Stop> {
    let reader = Failing {
        is_read: false,
        has_failed: false,
        kind,
    };
    read_input(alloc, reader).err()
}

/// What a run showed that should end with the reader's failure.
fn broken_turn(stop: Option<Stop>) -> Turn {
    match stop {
        Some(Stop::Console) => Turn::Granted,
        Some(Stop::Fault(ToolFault::OutOfMemory)) => Turn::Refused,
        _ => Turn::Wrong,
    }
}

/// The byte before the failure takes the one request. A reader that itself wants memory is tried without refusals,
/// since its answer is the same. An interruption alone is no failure.
#[test]
fn failed_reads_are_refused(rt: HostRuntime) {
    let heap = Refusing::new(rt.alloc());
    let requests = in_turn!(heap, broken_turn(stop_of(&heap, ErrorKind::BrokenPipe)));
    assert!(rt; requests == Some(1));
    let refused = stop_of(rt.alloc(), ErrorKind::OutOfMemory);
    assert!(rt; matches!(refused, Some(Stop::Fault(ToolFault::OutOfMemory))));
    assert!(rt; stop_of(rt.alloc(), ErrorKind::Interrupted).is_none());
}

#[test]
fn one_argument_is_taken(rt: HostRuntime) {
    assert!(rt; matches!(only(Some(5u8), None), Ok(5)));
    assert!(rt; matches!(only(Some(5u8), Some(6)), Err(Stop::Fault(ToolFault::Usage))));
    assert!(rt; matches!(only::<u8>(None, None), Err(Stop::Fault(ToolFault::Usage))));
}

#[test]
fn outcomes_are_shown(rt: HostRuntime) {
    let output = Vec::new(rt.alloc());
    let shown = show::<Global>(Ok(output));
    assert!(rt; shown.output.is_some() && shown.line.is_empty() && shown.status == 0);
    let shown = show::<Global>(Err(Stop::Console));
    assert!(rt;
        shown.output.is_none() && shown.line == "input or output failed" && shown.status == 5
    );
}
