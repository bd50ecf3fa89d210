//! The parameters of algorithm identifiers, which the object identifier chooses.

ghost use Rattle.std.specs.Prelude.{◌≡◌, IsTrue, true};
ghost use Rattle.std.specs.List.{list_any};
ghost use Rattle.std.specs.Option.{is_none};
ghost use Rattle.x509_der.specs.Reading.{Ready, Reads, Passes, thrifty};
ghost use Rattle.x509_der.specs.ObjectIdentifier.{is_arcs, arcs_spelled};
ghost use Rattle.x509_keys_parts.specs.AlgorithmKinds.{rsa_algorithms, bare_algorithms, kind_of as kind_by};
ghost use Rattle.x509_keys_parts.specs.AlgorithmParameters.{parameters_bytes, AreParameters, if_null, if_aes, by_kind, parameters_avoid};
ghost use Rattle.x509_keys_parts.specs.AlgorithmIdentifier.{are_absent, chosen_by};

use crate::aes::AesParameters;
use crate::ec_parameters::EcParameters;
use crate::hash_algorithm::HashAlgorithm;
use crate::key_kind::{KeyKind, key_kind};
use crate::pss_form::{pass_pss, read_pss};
use crate::rsassa_pss::{MaskGenAlgorithm, RsassaPssParams};
use std::alloc::{Allocator, Global};
use x509_der::parts::{AnyDefinedBy, Field, OidRef, Optional, Output, Reader, pass_oid};
use x509_der::{
    CloneEq, ObjectIdentifier, ObjectIdentifierAsn1, ReadError, SameEq, ToDer, TooLong,
};

/// The parameters of an algorithm identifier. Which of them an algorithm has, its object identifier says.
#[derive(Drop)]
#[derive_where(Debug, PartialEq, Eq)]
#[derive_where(Clone; A: Copy)]
pub enum AlgorithmIdentifierParameters<A: Allocator = Global> {
    /// The field is absent.
    None,
    /// NULL.
    Null,
    /// Those of AES.
    Aes(AesParameters<A>),
    /// The curve of an elliptic curve key.
    Ec(EcParameters<A>),
    /// Those of RSASSA-PSS.
    RsassaPss(RsassaPssParams<A>),
}

impl<A: Allocator + Copy> CloneEq for AlgorithmIdentifierParameters<A> {
    ghost use Rattle.std.proofs.Common.{rules};

    ghost exact = { Prim.search (rules) };
}

impl<A: Allocator> SameEq for AlgorithmIdentifierParameters<A> {
    fn decides() {
        AesParameters::<A>::decides();
        EcParameters::<A>::decides();
        RsassaPssParams::<A>::decides();
    }
}

/// Which parameters an algorithm has.
#[derive(Debug, Drop, Clone, Copy, PartialEq, Eq)]
pub enum AlgorithmKind {
    /// RSA keys, and signatures with a hash function of their own: NULL, which some leave out.
    Rsa,
    /// RSASSA-PSS: its parameters.
    RsassaPss,
    /// Elliptic curve keys: a curve.
    EcPublicKey,
    /// Signatures and keys that have none.
    Bare,
    /// AES: those of the mode, or none.
    Aes,
    /// Hash functions: NULL.
    Hash,
    /// The object identifier isn't known, and so no parameters are read behind it.
    Unknown,
}

/// The contents of the object identifiers of RSA keys, and of RSASSA-PKCS1-v1_5 with each hash function.
const RSA_CONTENTS: &[&[u8]] = &[
    &[0x2A, 0x86, 0x48, 0x86, 0xF7, 0x0D, 1, 1, 1],
    &[0x2A, 0x86, 0x48, 0x86, 0xF7, 0x0D, 1, 1, 5],
    &[0x2A, 0x86, 0x48, 0x86, 0xF7, 0x0D, 1, 1, 0x0E],
    &[0x2A, 0x86, 0x48, 0x86, 0xF7, 0x0D, 1, 1, 0x0B],
    &[0x2A, 0x86, 0x48, 0x86, 0xF7, 0x0D, 1, 1, 0x0C],
    &[0x2A, 0x86, 0x48, 0x86, 0xF7, 0x0D, 1, 1, 0x0D],
    &[0x60, 0x86, 0x48, 1, 0x65, 3, 4, 3, 0x0D],
    &[0x60, 0x86, 0x48, 1, 0x65, 3, 4, 3, 0x0E],
    &[0x60, 0x86, 0x48, 1, 0x65, 3, 4, 3, 0x0F],
    &[0x60, 0x86, 0x48, 1, 0x65, 3, 4, 3, 0x10],
];

/// The contents of those of ECDSA with each hash function, Ed25519, Ed448, X25519, X448, ML-DSA and DSA with SHA-1.
const BARE_CONTENTS: &[&[u8]] = &[
    &[0x2A, 0x86, 0x48, 0xCE, 0x3D, 4, 3, 2],
    &[0x2A, 0x86, 0x48, 0xCE, 0x3D, 4, 3, 3],
    &[0x2A, 0x86, 0x48, 0xCE, 0x3D, 4, 3, 4],
    &[0x60, 0x86, 0x48, 1, 0x65, 3, 4, 3, 9],
    &[0x60, 0x86, 0x48, 1, 0x65, 3, 4, 3, 0x0A],
    &[0x60, 0x86, 0x48, 1, 0x65, 3, 4, 3, 0x0B],
    &[0x60, 0x86, 0x48, 1, 0x65, 3, 4, 3, 0x0C],
    &[0x2B, 0x65, 0x70],
    &[0x2B, 0x65, 0x71],
    &[0x2B, 0x65, 0x6E],
    &[0x2B, 0x65, 0x6F],
    &[0x60, 0x86, 0x48, 1, 0x65, 3, 4, 3, 0x11],
    &[0x60, 0x86, 0x48, 1, 0x65, 3, 4, 3, 0x12],
    &[0x60, 0x86, 0x48, 1, 0x65, 3, 4, 3, 0x13],
    &[0x2A, 0x86, 0x48, 0xCE, 0x38, 4, 3],
];

/// Whether two contents end alike. Those of one family differ in their last byte, so that most are told apart by it
/// alone.
fn end_alike(one: &[u8], other: &[u8]) -> bool
    ensures { one.now ≡ other.now → IsTrue result }
{
    if one.is_empty() || other.is_empty() {
        return true;
    }
    one[one.len() - 1] == other[other.len() - 1]
}

/// Whether an object identifier has this content.
pub(crate) fn has_content(identifier: &OidRef<'_>, content: &[u8]) -> bool
    ensures { result ≡ is_arcs identifier.now (arcs_spelled content.now) }
{
    end_alike(identifier.content(), content) && identifier.is_content(content)
}

/// Whether the content of an object identifier stands in a table.
pub fn is_among(identifier: &OidRef<'_>, contents: &[&[u8]]) -> bool
    ensures { result ≡ list_any (λ content. is_arcs identifier.now (arcs_spelled content.now)) contents.now }
{
    contents
        .iter()
        .any(|content| has_content(identifier, *content))
}

/// Whether an object identifier is that of RSA keys or signatures, whose parameters are NULL.
pub(crate) fn is_rsa_algorithm(identifier: &OidRef<'_>) -> bool
    ensures { result ≡ list_any (is_arcs identifier.now) rsa_algorithms }
{
    is_among(identifier, RSA_CONTENTS)
}

/// Whether an object identifier is that of an algorithm without parameters.
fn is_bare_algorithm(identifier: &OidRef<'_>) -> bool
    ensures { result ≡ list_any (is_arcs identifier.now) bare_algorithms }
{
    is_among(identifier, BARE_CONTENTS)
}

/// The kind that an object identifier says. Contents are compared, and arcs are decoded of the last kinds alone.
#[tactic(auto, unfolding(x509_der::specs::ObjectIdentifier::numbers_from))]
pub fn kind_of(identifier: &OidRef<'_>) -> AlgorithmKind
    ensures { result ≡ kind_by identifier.now }
{
    if is_rsa_algorithm(identifier) {
        AlgorithmKind::Rsa
    } else if has_content(identifier, &[0x2A, 0x86, 0x48, 0x86, 0xF7, 0x0D, 1, 1, 10]) {
        AlgorithmKind::RsassaPss
    } else if has_content(identifier, &[0x2A, 0x86, 0x48, 0xCE, 0x3D, 2, 1]) {
        AlgorithmKind::EcPublicKey
    } else if is_bare_algorithm(identifier) {
        AlgorithmKind::Bare
    } else if identifier.starts_under(&[2, 16, 840, 1, 101, 3, 4, 1]) {
        AlgorithmKind::Aes
    } else if identifier.starts_under(&[2, 16, 840, 1, 101, 3, 4, 2])
        || identifier.is_arcs(&[1, 3, 14, 3, 2, 26])
    {
        AlgorithmKind::Hash
    } else {
        AlgorithmKind::Unknown
    }
}

impl<A: Allocator> ToDer for AlgorithmIdentifierParameters<A> {
    ghost strict = { parameters_bytes };

    fn put<O: Output>(&self, out: &mut [u8], at: usize) -> Result<usize, TooLong> {
        match self {
            AlgorithmIdentifierParameters::None => Ok(at),
            AlgorithmIdentifierParameters::Null => ().put::<O>(out, at),
            AlgorithmIdentifierParameters::Aes(parameters) => parameters.put::<O>(out, at),
            AlgorithmIdentifierParameters::Ec(parameters) => parameters.put::<O>(out, at),
            AlgorithmIdentifierParameters::RsassaPss(parameters) => parameters.put::<O>(out, at),
        }
    }
}

/// NULL, and none where it is absent.
fn if_null<A: Allocator>(parameters: Optional<()>) -> AlgorithmIdentifierParameters<A>
    ensures { result ≡ if_null parameters }
{
    match parameters {
        Optional(None) => AlgorithmIdentifierParameters::None,
        Optional(Some(())) => AlgorithmIdentifierParameters::Null,
    }
}

/// The parameters of AES, and none where they are absent.
fn if_aes<A: Allocator>(parameters: Optional<AesParameters<A>>) -> AlgorithmIdentifierParameters<A>
    ensures { result ≡ if_aes parameters }
{
    match parameters.0 {
        None => AlgorithmIdentifierParameters::None,
        Some(parameters) => AlgorithmIdentifierParameters::Aes(parameters),
    }
}

/// Says that the value is one of its type. It does nothing when it runs.
fn known_parameters<A: Allocator + Copy>(value: &AlgorithmIdentifierParameters<A>)
    ensures { AreParameters value.now }
{
    match value {
        AlgorithmIdentifierParameters::None | AlgorithmIdentifierParameters::Null => {}
        AlgorithmIdentifierParameters::Aes(parameters) => parameters.known(),
        AlgorithmIdentifierParameters::Ec(parameters) => parameters.known(),
        AlgorithmIdentifierParameters::RsassaPss(parameters) => parameters.known(),
    }
}

/// Reads parameters of a kind.
///
/// # Errors
/// Refused where the kind isn't known or no parameters of it stand there, or memory is refused.
fn read_as<A: Allocator + Copy>(
    alloc: A,
    kind: AlgorithmKind,
    reader: &mut Reader<'_, A>,
) -> Result<AlgorithmIdentifierParameters<A>, ReadError>
    requires { Ready reader.old }
    ensures { Reads (by_kind kind) reader.old reader.new result }
{
    match kind {
        AlgorithmKind::Rsa => Ok(if_null(Optional::read(alloc, reader)?)),
        AlgorithmKind::RsassaPss => Ok(AlgorithmIdentifierParameters::RsassaPss(read_pss(
            alloc, reader,
        )?)),
        AlgorithmKind::EcPublicKey => Ok(AlgorithmIdentifierParameters::Ec(EcParameters::read(
            alloc, reader,
        )?)),
        AlgorithmKind::Bare => Ok(AlgorithmIdentifierParameters::None),
        AlgorithmKind::Aes => Ok(if_aes(Optional::read(alloc, reader)?)),
        AlgorithmKind::Hash => {
            <()>::read(alloc, reader)?;
            Ok(AlgorithmIdentifierParameters::Null)
        }
        AlgorithmKind::Unknown => Err(ReadError::Unsupported),
    }
}

/// What an object identifier says of an algorithm: which parameters it has, and which keys.
#[derive(Debug, Drop, Clone, Copy)]
pub struct Chosen {
    /// Which parameters follow.
    pub parameters: AlgorithmKind,
    /// Which keys the algorithm has.
    pub keys: KeyKind,
}

/// Whether parameters that may be absent are.
fn is_left_out(there: Option<()>) -> bool
    ensures { result ≡ is_none there }
{
    match there {
        Some(()) => false,
        None => true,
    }
}

/// Goes past the parameters of a kind, and says whether they are absent.
///
/// # Errors
/// Refused where no parameters of the kind stand there.
fn pass_as<A: Allocator + Copy>(
    alloc: A,
    kind: AlgorithmKind,
    reader: &mut Reader<'_, A>,
) -> Result<bool, ReadError>
    requires { Ready reader.old }
    ensures { Passes (thrifty (by_kind {A = A} kind)) are_absent reader.old reader.new result }
{
    match kind {
        AlgorithmKind::Rsa => {
            let there = Optional::<()>::pass(alloc, reader)?;
            Ok(is_left_out(there))
        }
        AlgorithmKind::RsassaPss => {
            pass_pss(alloc, reader)?;
            Ok(false)
        }
        AlgorithmKind::EcPublicKey => {
            EcParameters::pass(alloc, reader)?;
            Ok(false)
        }
        AlgorithmKind::Bare => Ok(true),
        AlgorithmKind::Aes => {
            let there = Optional::<AesParameters<A>>::pass(alloc, reader)?;
            Ok(is_left_out(there))
        }
        AlgorithmKind::Hash => {
            <()>::pass(alloc, reader)?;
            Ok(false)
        }
        AlgorithmKind::Unknown => Err(ReadError::Unsupported),
    }
}

impl<A: Allocator + Copy> AnyDefinedBy<ObjectIdentifierAsn1<A>, A>
    for AlgorithmIdentifierParameters<A> {
    ghost use Rattle.x509_keys_parts.specs.facts.AlgorithmParameters.{parameters_family, parameters_agree};

    type Kind = Chosen;

    type BriefBehind = bool;

    ghost shapes = { λ arcs. by_kind (kind_by arcs) };

    ghost kind = { chosen_by };

    ghost brief_behind = { are_absent };

    ghost starts = { λ b. true };

    ghost avoids = { parameters_avoid };

    ghost family = { parameters_family (record {
      nulls = ⟦<() as Field<A>>⟧.lawful tt;
      null_there = ⟦<Optional<()> as Field<A>>⟧.lawful (tt, tt);
      pss = ⟦<RsassaPssParams<A> as Field<A>>⟧.lawful tt;
      curves = ⟦<EcParameters<A> as Field<A>>⟧.lawful tt;
      aes_there = ⟦<Optional<AesParameters<A>> as Field<A>>⟧.lawful (tt, tt);
    }) };

    ghost shapes_agree = { λ arcs v. parameters_agree (kind_by arcs) v };

    fn starts(_byte: u8) -> bool {
        true
    }

    fn known_behind(&self, _key: &ObjectIdentifierAsn1<A>) {
        known_parameters(self);
    }

    fn read_behind(
        alloc: A,
        key: &ObjectIdentifierAsn1<A>,
        reader: &mut Reader<'_, A>,
    ) -> Result<Self, ReadError> {
        read_as(alloc, kind_of(&key.0.lent()), reader)
    }

    fn pass_key(_alloc: A, reader: &mut Reader<'_, A>) -> Result<Chosen, ReadError> {
        let identifier = pass_oid(reader)?;
        Ok(Chosen {
            parameters: kind_of(&identifier),
            keys: key_kind(&identifier),
        })
    }

    fn pass_behind(
        alloc: A,
        chosen: Chosen,
        reader: &mut Reader<'_, A>,
    ) -> Result<bool, ReadError> {
        pass_as(alloc, chosen.parameters, reader)
    }
}
