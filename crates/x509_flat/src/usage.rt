//! What an extension of key usage says.

ghost use Rattle.std.specs.Prelude.{◌≡◌, Bool, List};
ghost use Rattle.x509_der.specs.Tally.{Tally};
ghost use Rattle.picky_asn1_x509.specs.KeyUsages.{key_usage as key_usages};
ghost use Rattle.x509_fields.specs.Spans.{FieldIn, all_of};
ghost use Rattle.x509_flat.specs.Usages.{UsageTold, flat_usage, no_usage};

use crate::status::Answer;
use picky_asn1_x509::{KeyUsage, check};
use std::alloc::Allocator;
use x509_der::laws::spellings_are_lawful;
use x509_fields::Span;
use x509_values::usage_bit_within;

/// What a key may be used for (RFC 5280, 4.2.1.3), in the order of the bits.
#[repr(C)]
#[derive(Clone, Copy, Debug, PartialEq, Eq)]
pub struct FlatUsage {
    /// `digitalSignature`.
    pub digital_signature: bool,
    /// `nonRepudiation`, also called `contentCommitment`.
    pub content_commitment: bool,
    /// `keyEncipherment`.
    pub key_encipherment: bool,
    /// `dataEncipherment`.
    pub data_encipherment: bool,
    /// `keyAgreement`.
    pub key_agreement: bool,
    /// `keyCertSign`.
    pub key_cert_sign: bool,
    /// `cRLSign`.
    pub crl_sign: bool,
    /// `encipherOnly`.
    pub encipher_only: bool,
    /// `decipherOnly`.
    pub decipher_only: bool,
}

impl FlatUsage {
    /// The bits of the usage that octets encode.
    fn within(octets: &[u8]) -> Self
        ensures { (v : List Bool) (whole : Tally) → FieldIn key_usages v (all_of octets.now) octets.now whole → result ≡ flat_usage v }
    {
        let whole = Span {
            start: 0,
            end: octets.len(),
        };
        FlatUsage {
            digital_signature: usage_bit_within(octets, whole, 0),
            content_commitment: usage_bit_within(octets, whole, 1),
            key_encipherment: usage_bit_within(octets, whole, 2),
            data_encipherment: usage_bit_within(octets, whole, 3),
            key_agreement: usage_bit_within(octets, whole, 4),
            key_cert_sign: usage_bit_within(octets, whole, 5),
            crl_sign: usage_bit_within(octets, whole, 6),
            encipher_only: usage_bit_within(octets, whole, 7),
            decipher_only: usage_bit_within(octets, whole, 8),
        }
    }

    /// No usage.
    fn none() -> Self
        ensures { result ≡ no_usage }
    {
        FlatUsage {
            digital_signature: false,
            content_commitment: false,
            key_encipherment: false,
            data_encipherment: false,
            key_agreement: false,
            key_cert_sign: false,
            crl_sign: false,
            encipher_only: false,
            decipher_only: false,
        }
    }
}

/// What the key usage says that the octets of an extension's value encode. It takes no memory.
pub fn key_usage<A: Allocator + Copy>(alloc: A, octets: &[u8]) -> Answer<FlatUsage>
    ensures { UsageTold octets.now result.status result.fields }
{
    spellings_are_lawful::<KeyUsage<A>, A>();
    match check::<KeyUsage<A>, A>(alloc, octets) {
        Ok(_deviations) => Answer::done(FlatUsage::within(octets)),
        Err(error) => Answer::refused(error, FlatUsage::none()),
    }
}
