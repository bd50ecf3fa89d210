//! Bytes that are held in the value itself where they are few, and in memory beyond.

ghost use Rattle.std.specs.Prelude.{◌≡◌, ◌≤◌, ◌<◌, length, IfOk, IfErr};
ghost use Rattle.x509_der.specs.Held.{held_bytes};

use std::alloc::{AllocError, Allocator};
use std::marker::Model;

/// How many bytes a value has room for.
pub(crate) const ROOM: usize = 22;

/// At most 22 bytes. Contracts see them.
#[derive(Debug, Drop)]
pub(crate) struct Short {
    len: u8,
    bytes: [u8; 22],
}

impl Model for Short {
    ghost use Rattle.std.specs.Prelude.{◌≤◌, List, ℕ, take};

    ghost Value = { List ℕ };

    ghost view = { λ s. take s.len s.bytes };

    ghost invariant = { λ s. s.len ≤ 22 };
}

impl Short {
    /// These bytes.
    pub(crate) fn of(bytes: &[u8]) -> Short
        requires { length bytes.now ≤ 22 }
        ensures { result ≡ bytes.now }
    {
        let mut kept = [0u8; 22];
        let size = bytes.len();
        kept[..size].copy_from_slice(bytes);
        Short {
            len: size as u8,
            bytes: kept,
        }
    }

    /// The same bytes again.
    fn again(&self) -> Short
        ensures { result ≡ self.now }
    {
        Short {
            len: self.len,
            bytes: self.bytes,
        }
    }

    /// The bytes.
    fn as_slice(&self) -> &[u8]
        ensures { result.now ≡ self.now }
    {
        &self.bytes[..self.len as usize]
    }
}

/// Bytes, in the value or in memory.
#[derive(Drop)]
#[derive_where(Debug)]
pub(crate) enum Held<A: Allocator> {
    /// At most 22.
    Short(Short),
    /// More.
    Long(Vec<u8, A>),
}

/// Keeps these bytes. Takes memory where they are more than 22.
///
/// # Errors
/// `AllocError` where memory is refused.
pub(crate) fn hold<A: Allocator>(alloc: A, bytes: &[u8]) -> Result<Held<A>, AllocError>
    ensures ok { IfOk result (λ h. held_bytes h ≡ bytes.now) }
    ensures few { IfErr result (λ _. 22 < length bytes.now) }
{
    if bytes.len() <= ROOM {
        Ok(Held::Short(Short::of(bytes)))
    } else {
        let bytes = Vec::from_slice(alloc, bytes)?;
        Ok(Held::Long(bytes))
    }
}

/// The bytes that are kept.
pub(crate) fn bytes_of<A: Allocator>(held: &Held<A>) -> &[u8]
    ensures { result.now ≡ held_bytes held.now }
{
    match held {
        Held::Short(short) => short.as_slice(),
        Held::Long(bytes) => bytes.as_slice(),
    }
}

/// The same bytes again.
///
/// # Errors
/// `AllocError` where memory is refused.
pub(crate) fn held_again<A: Allocator + Copy>(held: &Held<A>) -> Result<Held<A>, AllocError>
    ensures { IfOk result (λ h. held_bytes h ≡ held_bytes held.now) }
{
    match held {
        Held::Short(short) => Ok(Held::Short(short.again())),
        Held::Long(bytes) => {
            let bytes = Vec::from_slice(*bytes.allocator(), bytes.as_slice())?;
            Ok(Held::Long(bytes))
        }
    }
}
