//! What is made for signers, and of what they give.

ghost use Rattle.std.specs.Prelude.{◌≡◌};
ghost use Rattle.std.specs.Str.{IsUtf8};
ghost use Rattle.picky_asn1_x509.specs.Requests.{request_info};
ghost use Rattle.picky_asn1_x509.specs.TbsCertificates.{tbs_certificate};
ghost use Rattle.x509_flat.specs.Encodings.{Untouched};
ghost use Rattle.x509_flat_make.specs.Assembling.{AssemblesTo};
ghost use Rattle.x509_flat_make.specs.Describing.{DescribesTo, Explains};
ghost use Rattle.x509_flat_make.specs.Making.{ConvertsTo, NamesTo, WritesPem};
ghost use Rattle.cimaroly_c.specs.Exports.{Answers, Arena};

use crate::over_making as over;
use lent_memory::{Lent, OneBlock};
use x509_flat::status::Status;

/// Makes what a description in JSON says, to the front of a buffer.
#[unsafe(no_mangle)]
pub extern "C" fn cimaroly_make(
    memory: &mut Lent,
    text: &[u8],
    out: &mut [u8],
    size: &mut usize,
) -> u32
    ensures { Answers result (λ status. DescribesTo Arena out.old out.new status size.new) }
{
    let Ok(description) = std::str::from_utf8(text) else {
        *size = 0;
        return Status::Refused.number();
    };
    let block = OneBlock::from_mut(memory);
    let sized = over::described(&block, description, out);
    block.give_back(memory);
    *size = sized.size;
    sized.status.number()
}

/// Writes why nothing is made of a description, to the front of a buffer.
#[unsafe(no_mangle)]
pub extern "C" fn cimaroly_why_not_made(
    memory: &mut Lent,
    text: &[u8],
    out: &mut [u8],
    size: &mut usize,
) -> u32
    ensures { Answers result (λ status. Explains out.old out.new status size.new) }
{
    let description = std::str::from_utf8(text).unwrap_or("");
    let block = OneBlock::from_mut(memory);
    let sized = over::why_not_described(&block, description, out);
    block.give_back(memory);
    *size = sized.size;
    sized.status.number()
}

/// Puts a certificate, kind 1, or a request, kind 2, together, to the front of a buffer.
#[unsafe(no_mangle)]
pub extern "C" fn cimaroly_assemble(
    memory: &mut Lent,
    kind: u32,
    part: &[u8],
    algorithm: &[u8],
    signature: &[u8],
    out: &mut [u8],
    size: &mut usize,
) -> u32
    ensures certificate { kind ≡ 1 → Answers result (λ status. AssemblesTo Arena (tbs_certificate {A = Arena}) part.now algorithm.now signature.now out.old out.new status size.new) }
    ensures request { kind ≡ 2 → Answers result (λ status. AssemblesTo Arena (request_info {A = Arena}) part.now algorithm.now signature.now out.old out.new status size.new) }
    ensures unknown { (kind ≡ 1 → ⊥) → (kind ≡ 2 → ⊥) → (result ≡ 4) × Untouched out.old out.new size.new }
{
    if kind != 1 && kind != 2 {
        *size = 0;
        return Status::UnknownKind.number();
    }
    let block = OneBlock::from_mut(memory);
    let sized = if kind == 1 {
        over::certificate(&block, part, algorithm, signature, out)
    } else {
        over::request(&block, part, algorithm, signature, out)
    };
    block.give_back(memory);
    *size = sized.size;
    sized.status.number()
}

/// Writes the signature algorithm that a text names, to the front of a buffer.
#[unsafe(no_mangle)]
pub extern "C" fn cimaroly_signature_algorithm(
    memory: &mut Lent,
    name: &[u8],
    out: &mut [u8],
    size: &mut usize,
) -> u32
    ensures text { IsUtf8 name.now → Answers result (λ status. NamesTo name.now out.old out.new status size.new) }
    ensures other { (IsUtf8 name.now → ⊥) → (result ≡ 1) × Untouched out.old out.new size.new }
{
    let Ok(text) = std::str::from_utf8(name) else {
        *size = 0;
        return Status::Refused.number();
    };
    let block = OneBlock::from_mut(memory);
    let sized = over::signature_algorithm(&block, text, out);
    block.give_back(memory);
    *size = sized.size;
    sized.status.number()
}

/// Writes r and s as a signature of ECDSA, to the front of a buffer.
#[unsafe(no_mangle)]
pub extern "C" fn cimaroly_ecdsa_signature(
    memory: &mut Lent,
    raw: &[u8],
    out: &mut [u8],
    size: &mut usize,
) -> u32
    ensures { Answers result (λ status. ConvertsTo raw.now out.old out.new status size.new) }
{
    let block = OneBlock::from_mut(memory);
    let sized = over::ecdsa_signature(&block, raw, out);
    block.give_back(memory);
    *size = sized.size;
    sized.status.number()
}

/// Writes bytes as PEM with a label, to the front of a buffer.
#[unsafe(no_mangle)]
pub extern "C" fn cimaroly_pem_encode(
    memory: &mut Lent,
    label: &[u8],
    der: &[u8],
    out: &mut [u8],
    size: &mut usize,
) -> u32
    ensures text { IsUtf8 label.now → Answers result (λ status. WritesPem label.now der.now out.old out.new status size.new) }
    ensures other { (IsUtf8 label.now → ⊥) → (result ≡ 1) × Untouched out.old out.new size.new }
{
    let Ok(text) = std::str::from_utf8(label) else {
        *size = 0;
        return Status::Refused.number();
    };
    let block = OneBlock::from_mut(memory);
    let sized = over::pem(&block, text, der, out);
    block.give_back(memory);
    *size = sized.size;
    sized.status.number()
}
