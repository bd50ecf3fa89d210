//! What is wrong with certificates and requests beyond their encoding.

ghost use Rattle.x509_flat_findings.specs.Findings.{FindingsTold};
ghost use Rattle.x509_flat_findings.specs.RequestFindings.{RequestFindingsTold};
ghost use Rattle.cimaroly_c.specs.Exports.{Answers, Arena};

use crate::over::arena;
use lent_memory::{Lent, OneBlock};
use x509_flat::status::Sized;
use x509_flat_findings::findings::{FlatFinding, findings as flat_findings};
use x509_flat_findings::request_findings::request_findings as flat_request_findings;

/// `findings` of `x509_flat_findings`.
fn findings(block: &OneBlock, der: &[u8], out: &mut [FlatFinding]) -> Sized
    ensures { FindingsTold Arena der.now out.old out.new result.status result.size }
{
    let arena = arena(block);
    flat_findings(&arena, der, out)
}

/// Writes which rules a certificate breaks, and where, to the front of a buffer.
#[unsafe(no_mangle)]
pub extern "C" fn cimaroly_findings(
    memory: &mut Lent,
    der: &[u8],
    out: &mut [FlatFinding],
    count: &mut usize,
) -> u32
    ensures { Answers result (λ status. FindingsTold Arena der.now out.old out.new status count.new) }
{
    let block = OneBlock::from_mut(memory);
    let sized = findings(&block, der, out);
    block.give_back(memory);
    *count = sized.size;
    sized.status.number()
}

/// `request_findings` of `x509_flat_findings`.
fn request_findings(block: &OneBlock, der: &[u8], out: &mut [FlatFinding]) -> Sized
    ensures { RequestFindingsTold Arena der.now out.old out.new result.status result.size }
{
    let arena = arena(block);
    flat_request_findings(&arena, der, out)
}

/// Writes which rules a request breaks, and where, to the front of a buffer.
#[unsafe(no_mangle)]
pub extern "C" fn cimaroly_request_findings(
    memory: &mut Lent,
    der: &[u8],
    out: &mut [FlatFinding],
    count: &mut usize,
) -> u32
    ensures { Answers result (λ status. RequestFindingsTold Arena der.now out.old out.new status count.new) }
{
    let block = OneBlock::from_mut(memory);
    let sized = request_findings(&block, der, out);
    block.give_back(memory);
    *count = sized.size;
    sized.status.number()
}
