//! Where the fields of the outline of a private key stand.

ghost use Rattle.std.specs.Prelude.{ℕ, List, IfOk, IfErr};
ghost use Rattle.x509_der.specs.Calls.{NoValue};
ghost use Rattle.x509_der.specs.Tally.{Tally};
ghost use Rattle.x509_fields.specs.Found.{Found, Within};
ghost use Rattle.x509_more_outlines.specs.PrivateKeys.{private_key};
ghost use Rattle.x509_outline_fields.specs.PrivateKeys.{PrivateKeyIn};

use std::alloc::Allocator;
use x509_der::{ReadError, check, laws};
use x509_fields::{PrivateKeyInfoFields, Walk};
use x509_more_outlines::laws::private_key_outline_fields;
use x509_more_outlines::{PrivateKeyOutline, PublicBitsOutline};
use x509_outline::AlgorithmOutline;

/// The tag of the attributes behind a private key, `[0]`.
const ATTRIBUTES_TAG: u8 = 0xA0;

/// Checks that the bytes are the outline of a private key, and answers where its fields stand, each with its tag and its
/// length (RFC 5958, 2); the attributes as the element that is skipped. It builds no value and takes no memory.
///
/// # Errors
/// Refused exactly where the bytes encode no outline of a private key; never for memory.
pub fn fields_of_private_key<A: Allocator + Copy>(
    alloc: A,
    bytes: &[u8],
) -> Result<PrivateKeyInfoFields, ReadError>
    ensures ok { IfOk result (Found (private_key {A = A}) PrivateKeyIn bytes.now) }
    ensures err { IfErr result (NoValue (private_key {A = A}) bytes.now) }
{
    let _deviations = check::<PrivateKeyOutline<A>, A>(alloc, bytes)?;
    Ok(fields_within::<A>(bytes))
}

/// Where the fields stand of the outline that the bytes encode. Of other bytes the spans say nothing.
fn fields_within<A: Allocator + Copy>(bytes: &[u8]) -> PrivateKeyInfoFields
    ensures { Within (private_key {A = A}) PrivateKeyIn bytes.now result }
{
    private_key_outline_fields::<A>();
    laws::spellings_are_lawful::<AlgorithmOutline<A>, A>();
    laws::spellings_are_lawful::<PublicBitsOutline<A>, A>();
    let mut walk = Walk::of(bytes).inside();
    let version = walk.next();
    let private_key_algorithm = walk.next();
    let private_key = walk.next();
    let skipped = walk.next_if(ATTRIBUTES_TAG);
    let public_key = walk.next_unless(ATTRIBUTES_TAG);
    PrivateKeyInfoFields {
        version,
        private_key_algorithm,
        private_key,
        skipped,
        public_key,
    }
}
