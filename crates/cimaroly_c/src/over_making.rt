//! What is made over a block of memory.

ghost use Rattle.picky_asn1_x509.specs.Requests.{request_info};
ghost use Rattle.picky_asn1_x509.specs.TbsCertificates.{tbs_certificate};
ghost use Rattle.x509_flat_make.specs.Assembling.{AssemblesTo};
ghost use Rattle.x509_flat_make.specs.Describing.{DescribesTo, Explains};
ghost use Rattle.x509_flat_make.specs.Making.{ConvertsTo, NamesTo, WritesPem};
ghost use Rattle.cimaroly_c.specs.Exports.{Arena};

use crate::over::arena;
use lent_memory::OneBlock;
use x509_flat::status::Sized;
use x509_flat_make::{assemble, described as flat_described};

/// `described` of `x509_flat_make`.
pub(crate) fn described(block: &OneBlock, text: &str, out: &mut [u8]) -> Sized
    ensures { DescribesTo Arena out.old out.new result.status result.size }
{
    let arena = arena(block);
    flat_described::described(&arena, text, out)
}

/// `why_not_described` of `x509_flat_make`.
pub(crate) fn why_not_described(block: &OneBlock, text: &str, out: &mut [u8]) -> Sized
    ensures { Explains out.old out.new result.status result.size }
{
    let arena = arena(block);
    flat_described::why_not_described(&arena, text, out)
}

/// A certificate, put together.
pub(crate) fn certificate(
    block: &OneBlock,
    part: &[u8],
    algorithm: &[u8],
    signature: &[u8],
    out: &mut [u8],
) -> Sized
    ensures { AssemblesTo Arena (tbs_certificate {A = Arena}) part.now algorithm.now signature.now out.old out.new result.status result.size }
{
    let arena = arena(block);
    assemble::certificate(&arena, part, algorithm, signature, out)
}

/// A request, put together.
pub(crate) fn request(
    block: &OneBlock,
    part: &[u8],
    algorithm: &[u8],
    signature: &[u8],
    out: &mut [u8],
) -> Sized
    ensures { AssemblesTo Arena (request_info {A = Arena}) part.now algorithm.now signature.now out.old out.new result.status result.size }
{
    let arena = arena(block);
    assemble::request(&arena, part, algorithm, signature, out)
}

/// A signature algorithm by its name.
pub(crate) fn signature_algorithm(block: &OneBlock, text: &str, out: &mut [u8]) -> Sized
    ensures { NamesTo text.now out.old out.new result.status result.size }
{
    let arena = arena(block);
    x509_flat_make::signature_algorithm(&arena, text, out)
}

/// r and s as a signature.
pub(crate) fn ecdsa_signature(block: &OneBlock, raw: &[u8], out: &mut [u8]) -> Sized
    ensures { ConvertsTo raw.now out.old out.new result.status result.size }
{
    let arena = arena(block);
    x509_flat_make::ecdsa_signature(&arena, raw, out)
}

/// Bytes as PEM.
pub(crate) fn pem(block: &OneBlock, label: &str, bytes: &[u8], out: &mut [u8]) -> Sized
    ensures { WritesPem label.now bytes.now out.old out.new result.status result.size }
{
    let arena = arena(block);
    x509_flat_make::pem(&arena, label, bytes, out)
}
