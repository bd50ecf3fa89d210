//! The report of bytes as a type, as one JSON object in a buffer.
#![tactic(auto)]

ghost use Rattle.std.specs.Prelude.{◌≡◌, Bool, List, ℕ, IfOk, IsTrue};
ghost use Rattle.x509_flat_report.specs.Reports.{IsReport, PutsText, Reported, reading_of};
ghost use Rattle.x509_flat.specs.declared.kind.Kind.{Kind as FlatKind};

mod object;
mod reading;

use crate::object::{outline_report, whole_report};
use crate::reading::{Reading, read_as};
use std::alloc::{AllocError, Allocator};
use x509_flat::kind::Kind;
use x509_flat::status::{Sized, Status};
use x509_inspect::{Identifiers, NameForm, Options, Secrets};

/// What writes bytes as a type as one object in JSON.
pub trait Reporter {
    /// Which objects it may write, by the type that memory comes from, of bytes as a type, with the secret numbers of private
    /// keys or without.
    ghost writes: { Type 0 → FlatKind → List ℕ → Bool → List ℕ → Type 0 };

    /// An object about bytes as a type, with the secret numbers of private keys or without.
    ///
    /// # Errors
    /// `AllocError` where memory is refused.
    fn object<A: Allocator + Copy>(
        &self,
        alloc: A,
        kind: Kind,
        bytes: &[u8],
        secrets: bool,
    ) -> Result<Vec<u8, A>, AllocError>
        ensures { IfOk result (λ text. writes A kind bytes.now secrets text.items) };
}

/// The objects that `cimaroly` writes, without where the bytes come from.
pub struct Objects;

impl Reporter for Objects {
    ghost writes = { λ A kind bytes secrets text. IsReport A (reading_of kind) bytes text };

    fn object<A: Allocator + Copy>(
        &self,
        alloc: A,
        kind: Kind,
        bytes: &[u8],
        secrets: bool,
    ) -> Result<Vec<u8, A>, AllocError> {
        match read_as(kind) {
            Reading::Whole(kind) => whole_report(alloc, kind, bytes, options(secrets)),
            Reading::Outline(kind) => outline_report(alloc, kind, bytes, options(secrets)),
        }
    }
}

/// How a report tells fields.
fn options(secrets: bool) -> Options
    ensures shown { IsTrue secrets → result ≡ record { secrets = Secrets.Shown; identifiers = Identifiers.Named; names = NameForm.InOrder } }
    ensures hidden { (IsTrue secrets → ⊥) → result ≡ record { secrets = Secrets.Hidden; identifiers = Identifiers.Named; names = NameForm.InOrder } }
{
    let secrets = if secrets {
        Secrets::Shown
    } else {
        Secrets::Hidden
    };
    Options {
        secrets,
        identifiers: Identifiers::Named,
        names: NameForm::InOrder,
    }
}

/// Writes a text to the front of a slice that may be too short, and tells its size.
fn put_text(text: &[u8], out: &mut [u8]) -> Sized
    ensures { PutsText text.now out.old out.new result.status result.size }
{
    let size = text.len();
    if out.len() < size {
        return Sized {
            status: Status::TooShort,
            size,
        };
    }
    out[..size].copy_from_slice(text);
    Sized {
        status: Status::Done,
        size,
    }
}

/// Nothing is written for want of memory.
fn without_memory() -> Sized
    ensures { (result.status ≡ Status.OutOfMemory) × (result.size ≡ 0) }
{
    Sized {
        status: Status::OutOfMemory,
        size: 0,
    }
}

/// Writes the report of bytes as a type to the front of a slice, as one JSON object, and tells its size; also where the
/// bytes are refused. The text is an object that the reporter writes of these bytes as this type, with the secret numbers of
/// private keys where they are asked for.
pub fn report<A: Allocator + Copy, R: Reporter>(
    alloc: A,
    reporter: &R,
    kind: Kind,
    bytes: &[u8],
    secrets: bool,
    out: &mut [u8],
) -> Sized
    ensures { Reported (R.writes A kind bytes.now secrets) out.old out.new result.status result.size }
{
    match reporter.object(alloc, kind, bytes, secrets) {
        Ok(text) => put_text(text.as_slice(), out),
        Err(AllocError) => without_memory(),
    }
}
