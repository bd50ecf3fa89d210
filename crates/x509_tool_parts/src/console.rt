//! The program's argument, its standard input and its standard output.

ghost use Rattle.std.specs.Prelude.{◌≡◌, false, None, Err, IfOk, OnOk, IfErr, IfSome};
ghost use Rattle.std.specs.Io.KnownBytes.{IsAtEnd};
ghost use Rattle.std.specs.String.{string_bytes};
ghost use Rattle.x509_tool_parts.specs.Input.{Grows, IsGivenUp, only_of, told_of};
ghost use Rattle.x509_tool_parts.specs.Outcomes.{Outcome, OutcomeOver};
ghost use Rattle.x509_tool_parts.specs.Output.{listed_answer};
ghost use Rattle.x509_tool_parts.specs.Stops.{status_of_stop, line_of_stop, output_of, line_of_outcome, status_of_outcome};

use crate::fault::ToolFault;
use crate::run_text::run_text;
use std::alloc::{AllocError, Allocator};
use std::env;
use std::io::{self, ErrorKind, Read, Write};

/// How often standard input is read at the most: an input that hasn't ended by then is given up.
const MOST_READS: usize = 1 << 24;

/// How many bytes one read takes at the most.
const READ_SIZE: usize = 4096;

/// Why the program ends without output.
#[derive(Clone, Copy, Debug, Drop)]
pub enum Stop {
    /// The text gives no output.
    Fault(ToolFault),
    /// Standard input or output failed, or the input didn't end.
    Console,
}

impl Stop {
    /// The program's exit status.
    pub fn status(self) -> u8
        ensures { result ≡ status_of_stop self }
    {
        match self {
            Stop::Fault(fault) => fault.status(),
            Stop::Console => 5,
        }
    }

    /// The line on standard error.
    pub fn line(self) -> &'static str
        ensures { result.now ≡ line_of_stop self }
    {
        match self {
            Stop::Fault(fault) => fault.line(),
            Stop::Console => "input or output failed",
        }
    }
}

impl From<ToolFault> for Stop {
    ghost use Rattle.std.specs.Prelude.{◌≡◌};
    ghost use Rattle.x509_tool_parts.specs.declared.console.Stop.TheVariants.{Fault};

    ghost from_gives = { λ fault stop. stop ≡ Fault fault };

    fn from(fault: ToolFault) -> Stop {
        Stop::Fault(fault)
    }
}

impl From<AllocError> for Stop {
    ghost use Rattle.std.specs.Prelude.{◌≡◌};
    ghost use Rattle.x509_tool_parts.specs.declared.console.Stop.TheVariants.{Fault};
    ghost use Rattle.x509_tool_parts.specs.declared.fault.ToolFault.TheVariants.{OutOfMemory};

    ghost from_gives = { λ _ stop. stop ≡ Fault OutOfMemory };

    fn from(_refused: AllocError) -> Stop {
        Stop::Fault(ToolFault::OutOfMemory)
    }
}

/// What the system refuses is memory, or the console.
impl From<io::Error> for Stop {
    ghost use Rattle.std.specs.Prelude.{◌≡◌};
    ghost use Rattle.std.specs.IoError.{error_kind};
    ghost use Rattle.x509_tool_parts.specs.Stops.{stop_of_kind};

    ghost from_gives = { λ error stop. stop ≡ stop_of_kind (error_kind error) };

    fn from(error: io::Error) -> Stop {
        match error.kind() {
            ErrorKind::OutOfMemory => Stop::Fault(ToolFault::OutOfMemory),
            _ => Stop::Console,
        }
    }
}

/// The one argument: the first, where there is no second.
pub fn only<T: Drop>(first: Option<T>, second: Option<T>) -> Result<T, Stop>
    ensures { result ≡ only_of first second }
{
    match (first, second) {
        (Some(name), None) => Ok(name),
        (Some(_), Some(_)) | (None, _) => Err(Stop::Fault(ToolFault::Usage)),
    }
}

/// The program's one argument.
fn type_name(rt: &HostRuntime) -> Result<String, Stop> {
    let mut arguments = match env::args(rt) {
        Ok(arguments) => arguments,
        Err(error) if error.kind() == ErrorKind::OutOfMemory => {
            return Err(Stop::Fault(ToolFault::OutOfMemory));
        }
        Err(_not_text) => return Err(Stop::Fault(ToolFault::Usage)),
    };
    let _program = arguments.next();
    let first = arguments.next();
    only(first, arguments.next())
}

/// What one read tells.
#[derive(Clone, Copy, Drop)]
enum OneRead {
    /// The input has ended.
    End,
    /// So many bytes were read.
    Bytes(usize),
    /// Nothing was read, and the read is to be tried again.
    Again,
}

/// What the answer of one read tells.
///
/// # Errors
/// The read failed: memory was refused, or the console failed. A read that was interrupted hasn't failed.
fn told(answer: io::Result<usize>) -> Result<OneRead, Stop>
    ensures { result ≡ told_of answer }
{
    match answer {
        Ok(0) => Ok(OneRead::End),
        Ok(count) => Ok(OneRead::Bytes(count)),
        Err(error) => match error.kind() {
            ErrorKind::Interrupted => Ok(OneRead::Again),
            _ => Err(Stop::from(error)),
        },
    }
}

/// Reads once, and adds what was read to the input. Answers whether there may be more.
///
/// # Errors
/// The read failed, as `told` says, or memory was refused. The input is as it was.
fn read_more<A: Allocator, R: Read>(reader: &mut R, input: &mut Vec<u8, A>) -> Result<bool, Stop>
    ensures bytes { OnOk result (Grows (R.remaining reader.old) (R.remaining reader.new) input.old.items
        input.new.items) }
    ensures end { IfOk result (λ more. more ≡ false → IsAtEnd (R.remaining reader.new)) }
    ensures err { IfErr result IsGivenUp }
{
    let mut buffer = [0u8; READ_SIZE];
    match told(reader.read(&mut buffer))? {
        OneRead::End => Ok(false),
        OneRead::Bytes(count) => {
            input.extend_from_slice(&buffer[..count])?;
            Ok(true)
        }
        OneRead::Again => Ok(true),
    }
}

/// All of a reader's bytes up to its end.
///
/// # Errors
/// A read failed, memory was refused, or the input hadn't ended after `MOST_READS` reads.
pub fn read_input<A: Allocator, R: Read + Drop>(alloc: A, mut reader: R) -> Result<Vec<u8, A>, Stop>
    ensures ok { IfOk result (λ input. IfSome (R.remaining reader) (λ bytes. input.items ≡ bytes)) }
    ensures err { IfErr result IsGivenUp }
{
    let mut input = Vec::new(alloc);
    for _ in 0..MOST_READS {
        if !read_more(&mut reader, &mut input)? {
            return Ok(input);
        }
    }
    Err(Stop::Console)
}

/// What the program shows.
#[derive(Drop)]
pub struct Shown<A: Allocator> {
    /// What goes to standard output, where anything does.
    pub output: Option<Vec<u8, A>>,
    /// The line that goes to standard error; none is empty.
    pub line: &'static str,
    /// The exit status.
    pub status: u8,
}

/// What the program shows of its outcome: the output alone, or a line and a status.
pub fn show<A: Allocator>(outcome: Result<Vec<u8, A>, Stop>) -> Shown<A>
    ensures output { result.output ≡ output_of outcome }
    ensures line { result.line.now ≡ line_of_outcome outcome }
    ensures status { result.status ≡ status_of_outcome outcome }
{
    match outcome {
        Ok(output) => Shown {
            output: Some(output),
            line: "",
            status: 0,
        },
        Err(stop) => Shown {
            output: None,
            line: stop.line(),
            status: stop.status(),
        },
    }
}

/// What is shown in the end: the answer where its output was printed, or why it couldn't be.
pub fn shown_after<A: Allocator>(answer: Shown<A>, printed: Result<(), Stop>) -> Shown<A>
    ensures printed { OnOk printed (result ≡ answer) }
    ensures output { IfErr printed (λ _. result.output ≡ None) }
    ensures line { IfErr printed (λ stop. result.line.now ≡ line_of_stop stop) }
    ensures status { IfErr printed (λ stop. result.status ≡ status_of_stop stop) }
{
    match printed {
        Ok(()) => answer,
        Err(stop) => show(Err(stop)),
    }
}

/// The answer to an input that was read, as a value of the type of a name.
///
/// # Errors
/// Why the input wasn't read, where it wasn't; else those of `run_text`.
fn answer_to<A: Allocator + Copy>(
    alloc: A,
    type_name: &str,
    read: Result<Vec<u8, A>, Stop>,
) -> Result<Vec<u8, A>, Stop>
    ensures ok { IfOk read (λ input. Outcome A type_name.now input.items (listed_answer (λ v. v.items) result)) }
    ensures err { IfErr read (λ stop. result ≡ Err stop) }
{
    let input = read?;
    Ok(run_text(alloc, type_name, &input)?)
}

/// The program's outcome: looks at the argument, reads the input, and answers it. Where there is no one argument, nothing
/// is read.
///
/// # Errors
/// Why there is no one argument; else those of `read_input`, and then those of `run_text`.
pub fn outcome_of<A: Allocator + Copy, R: Read + Drop>(
    alloc: A,
    argument: Result<String, Stop>,
    reader: R,
) -> Result<Vec<u8, A>, Stop>
    ensures ok { IfOk argument (λ name. OutcomeOver A (R.remaining reader) (string_bytes name)
        (listed_answer (λ v. v.items) result)) }
    ensures err { IfErr argument (λ stop. result ≡ Err stop) }
{
    match argument {
        Ok(name) => answer_to(alloc, name.as_str(), read_input(alloc, reader)),
        Err(stop) => Err(stop),
    }
}

/// The program's outcome over its argument and standard input.
pub fn outcome(rt: &HostRuntime) -> Result<Vec<u8>, Stop> {
    outcome_of(rt.alloc(), type_name(rt), rt.reader())
}

/// Writes to standard output.
pub fn print(rt: &HostRuntime, output: &[u8]) -> Result<(), Stop> {
    let mut out = io::writer(rt);
    out.write_all(output)?;
    out.flush()?;
    Ok(())
}
