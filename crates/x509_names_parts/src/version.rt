//! The version of a certificate.

ghost use Rattle.std.specs.Prelude.{◌≡◌, refl, Err, IfErr};
ghost use Rattle.x509_der.specs.Types.read_error.{BadVersion, OutOfMemory};
ghost use Rattle.x509_der.specs.View.{meant};
ghost use Rattle.x509_der.specs.laws.Meaning.{seen_lawful, seen_element};
ghost use Rattle.x509_names_parts.specs.declared.version.Version.{Version};
ghost use Rattle.x509_names_parts.specs.Versions.{version_number, version_of, version_base, version_meaning, version};
ghost use Rattle.x509_names_parts.specs.facts.Versions.{version_is, version_keeps};

use std::alloc::Allocator;
use x509_der::parts::{Field, INTEGER_TAG, Output, Reader, View, WholeDeviations, read_viewed};
use x509_der::{CloneEq, FromDer, ReadError, SameEq, ToDer, TooLong};

/// The version of a certificate (RFC 5280, 4.1.2.1).
///
/// # Encoding
/// `Version ::= INTEGER { v1(0), v2(1), v3(2) }`. Other numbers are refused. Reading it takes no memory.
#[repr(u8)]
#[derive(Debug, Drop, Clone, Copy, PartialEq, Eq)]
pub enum Version {
    /// Version 1, the number 0.
    V1,
    /// Version 2, the number 1.
    V2,
    /// Version 3, the number 2.
    V3,
}

/// Version 1, which a certificate has where it names none.
impl Default for Version {
    ghost use Rattle.x509_names_parts.specs.declared.version.Version.TheVariants.{V1};

    ghost is_default = { λ v. v ≡ V1 };

    fn default() -> Version {
        Version::V1
    }
}

impl Version {
    /// The version of a number: 0 to 2. None for any other number. Takes no memory.
    pub fn from_u8(v: u8) -> Option<Self>
        ensures { result ≡ version_of v }
    {
        match v {
            0 => Some(Version::V1),
            1 => Some(Version::V2),
            2 => Some(Version::V3),
            _ => None,
        }
    }

    /// The number that stands for the version.
    fn number(self) -> u8
        ensures { result ≡ version_number self }
    {
        self as u8
    }
}

impl CloneEq for Version {
    ghost use Rattle.std.proofs.Common.{rules};

    ghost exact = { Prim.search (rules) };
}

impl SameEq for Version {
    fn decides() {}
}

impl ToDer for Version {
    ghost strict = { λ v. version.strict v };

    fn put<O: Output>(&self, out: &mut [u8], at: usize) -> Result<usize, TooLong> {
        self.number().put::<O>(out, at)
    }
}

impl<A: Allocator> View<u8, A> for Version {
    ghost base = { version_base };

    ghost view = { version_meaning };

    ghost keeps = { version_keeps };

    fn meaning(_alloc: A, parts: u8) -> Result<(Self, WholeDeviations), ReadError>
        ensures meaning { version_meaning.of parts ≡ meant result }
        ensures refusal { result ≡ Err OutOfMemory → ⊥ }
        ensures name { IfErr result (λ e. e ≡ BadVersion) }
    {
        match Version::from_u8(parts) {
            Some(version) => Ok((version, WholeDeviations::Nothing)),
            None => Err(ReadError::BadVersion),
        }
    }
}

impl<A: Allocator + Copy> Field<A> for Version {
    type Brief = Version;

    ghost shape = { version };

    ghost brief = { λ v. v };

    ghost lawful = { λ h. seen_lawful version_meaning version_base version_keeps };

    ghost elements = { λ h. seen_element version_meaning version_base
        (⟦<u8 as Field<A>>⟧.elements tt) version_is };

    ghost agrees = { λ v. refl };

    fn starts(byte: u8) -> bool {
        byte == INTEGER_TAG
    }

    fn known(&self) {}

    fn read(alloc: A, reader: &mut Reader<'_, A>) -> Result<Self, ReadError> {
        read_viewed::<Self, u8, A>(alloc, reader)
    }

    fn pass(alloc: A, reader: &mut Reader<'_, A>) -> Result<Version, ReadError> {
        read_viewed::<Self, u8, A>(alloc, reader)
    }
}

impl<A: Allocator + Copy> FromDer<A> for Version {
    ghost stands_alone = { (tt, tt) };
}
