//! Files and folders.

use crate::progress::Progress;
use crate::run::{input, tell_notes};
use crate::words::MARK;
use cimaroly_work::{Session, Status, Stop};
use std::fs::{self, File};
use std::io::{self, BufReader, ErrorKind, Write};
use std::rt::Files;
use std::time::Clock;
use x509_report_parts::shown::ShownBytes;

/// How many bytes are read at a time.
const CHUNK: usize = 65536;

/// Works on a file, or on standard input where its path is `-`.
fn file<R, W: Write>(
    rt: &R,
    session: &mut Session<'_, W>,
    path: &str,
    progress: &mut Progress,
) -> Result<(), Stop>
where
    R: Files<File = File> + Input + Eprint + AllocGlobal + Clock,
{
    if path == "-" {
        let reader = BufReader::with_capacity(rt.alloc(), CHUNK, rt.reader())?;
        return input(rt, session, path, reader, progress);
    }
    let opened = fs::open(rt, path)?;
    let reader = BufReader::with_capacity(rt.alloc(), CHUNK, opened)?;
    input(rt, session, path, reader, progress)
}

/// What stands in a folder: the paths, in their order, and how many names aren't valid UTF-8, so that nothing can be
/// opened.
fn listed<R>(rt: &R, path: &str) -> io::Result<(Vec<String>, usize)>
where
    R: Files + AllocGlobal + Clone + Drop,
{
    let mut paths = Vec::new(rt.alloc());
    let mut nameless: usize = 0;
    for entry in fs::read_dir(rt, path)? {
        match entry {
            Ok(entry) => paths.push(String::from_str(rt.alloc(), entry.path().as_str())?)?,
            Err(error) if matches!(error.kind(), ErrorKind::InvalidFilename) => {
                nameless = nameless.saturating_add(1);
            }
            Err(error) => return Err(error),
        }
    }
    paths.sort()?;
    Ok((paths, nameless))
}

/// What a path leads to.
#[derive(Clone, Copy, Debug, PartialEq, Eq)]
enum Target {
    Folder,
    File,
    Other,
}

/// What a path leads to. Of links to folders, those that stand in a folder aren't followed, so that none goes in a circle.
fn target_of<R: Files>(rt: &R, path: &str, is_inner: bool) -> Target {
    let Ok(metadata) = fs::metadata(rt, path) else {
        return Target::File;
    };
    if !metadata.is_dir() {
        return if metadata.is_file() || !is_inner {
            Target::File
        } else {
            Target::Other
        };
    }
    match fs::symlink_metadata(rt, path) {
        Ok(own) if own.is_symlink() && is_inner => Target::Other,
        _ => Target::Folder,
    }
}

/// What is said of a file by whose name nothing can be opened.
pub(crate) const NO_TEXT: &str = "a file name that isn't valid UTF-8 can't be opened";

/// Tells that a file failed, on standard error and in JSON.
fn fail<R: Eprint, W: Write>(
    rt: &R,
    session: &mut Session<'_, W>,
    path: &str,
    reason: &str,
) -> Result<(), Stop> {
    session.fail(path, reason)?;
    session.out.flush()?;
    eprintln!(rt; "cimaroly: {}: {reason}", ShownBytes(path.as_bytes()))?;
    Ok(())
}

/// Tells that a file failed, unless nothing else can be done.
fn told<R: Eprint, W: Write>(
    rt: &R,
    session: &mut Session<'_, W>,
    path: &str,
    outcome: Result<(), Stop>,
) -> Result<(), Stop> {
    match outcome {
        Ok(()) => Ok(()),
        Err(
            Stop {
                status: Status::Failed,
                error: Some(error),
            },
        ) => {
            let reason = error.to_string(session.alloc)?;
            fail(rt, session, path, reason.as_str())
        }
        Err(stop) => Err(stop),
    }
}

/// Puts what stands in a folder on a list, the first at its end, and tells standard error where something can't be opened.
fn push_folder<R, W: Write>(
    rt: &R,
    session: &mut Session<'_, W>,
    pending: &mut Vec<(String, bool)>,
    path: &str,
) -> Result<(), Stop>
where
    R: Files + Eprint + AllocGlobal + Clone + Drop,
{
    let (mut paths, nameless) = listed(rt, path)?;
    if nameless > 0 {
        let reason = format!(in session.alloc;
            "file names that aren't valid UTF-8 and can't be opened: {nameless}"
        )?;
        fail(rt, session, path, reason.as_str())?;
    }
    for _ in 0..paths.len() {
        if let Some(inner) = paths.pop() {
            if pending.push((inner, true)).is_err() {
                return Err(Stop::memory());
            }
        }
    }
    Ok(())
}

/// Tells that nothing can be opened by a name that isn't UTF-8, and is escaped.
fn fail_unnamed<R: Eprint, W: Write>(
    rt: &R,
    session: &mut Session<'_, W>,
    name: &str,
) -> Result<(), Stop> {
    session.fail(name, NO_TEXT)?;
    session.out.flush()?;
    // it was escaped when it was made
    eprintln!(rt; "cimaroly: {name}: {NO_TEXT}")?;
    Ok(())
}

/// Works on a file, or puts what stands in a folder on a list.
fn visit<R, W: Write>(
    rt: &R,
    session: &mut Session<'_, W>,
    pending: &mut Vec<(String, bool)>,
    (path, target): (&str, Target),
    progress: &mut Progress,
) -> Result<(), Stop>
where
    R: Files<File = File> + Input + Eprint + AllocGlobal + Clock + Clone + Drop,
{
    if target == Target::Folder {
        progress.clear(rt)?;
        session.is_one_of_many = true;
        let before = pending.len();
        let pushed = push_folder(rt, session, pending, path);
        progress.open(pending.len().saturating_sub(before));
        return pushed;
    }
    let read = match target {
        Target::File => file(rt, session, path, progress),
        _ => Ok(()),
    };
    progress.pass();
    read
}

/// Works on a path: a file, or all that stands in a folder and in those in it.
///
/// # Errors
/// Output failed, memory is refused, or the program was called in a wrong way. Where an input fails, that is told, and
/// the work goes on.
pub(crate) fn path<R, W: Write>(
    rt: &R,
    session: &mut Session<'_, W>,
    path: &str,
    progress: &mut Progress,
) -> Result<(), Stop>
where
    R: Files<File = File> + Input + Eprint + AllocGlobal + Clock + Clone + Drop,
{
    if let Some(name) = path.strip_prefix(MARK) {
        return fail_unnamed(rt, session, name);
    }
    let mut pending = Vec::new(rt.alloc());
    if pending
        .push((String::from_str(rt.alloc(), path)?, false))
        .is_err()
    {
        return Err(Stop::memory());
    }
    for _ in 0..u64::MAX {
        let Some((next, is_inner)) = pending.pop() else {
            break;
        };
        session.is_named = !is_inner;
        let target = target_of(rt, next.as_str(), is_inner);
        let outcome = visit(rt, session, &mut pending, (next.as_str(), target), progress);
        if outcome.is_err() {
            progress.clear(rt)?;
        }
        tell_notes(rt, session)?;
        told(rt, session, next.as_str(), outcome)?;
    }
    Ok(())
}
