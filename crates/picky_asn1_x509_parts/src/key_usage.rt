//! What a key may be used for.

ghost use Rattle.std.specs.Prelude.{◌≡◌, ◌<◌, ◌++◌, false, refl, length, replicate, slice_index_or, IfOk, IsOk, OnOk, OnErr};
ghost use Rattle.x509_der.specs.Element.{element};
ghost use Rattle.x509_der.specs.BitString.{bits_of, unused_bits, payload, bit_content};
ghost use Rattle.picky_asn1_x509_parts.specs.KeyUsages.{key_usage, put, SetsBit};

use std::alloc::{AllocError, Allocator, Global};
use std::marker::Model;
use x509_der::parts::{BIT_STRING_TAG, Field, Output, Reader};
use x509_der::{BitString, BitStringAsn1, CloneEq, FromDer, ReadError, SameEq, ToDer, TooLong};

/// What a key may be used for: a list of bits, of which the first nine have names. Contracts see the list. Bits past
/// its end count as unset, and its length is kept, also where its last bits are unset.
///
/// # Encoding
/// `KeyUsage ::= BIT STRING { digitalSignature (0), nonRepudiation (1), keyEncipherment (2), dataEncipherment (3),
/// keyAgreement (4), keyCertSign (5), cRLSign (6), encipherOnly (7), decipherOnly (8) }` (RFC 5280, 4.2.1.3). Any
/// number of bits is read, and trailing bits that are unset are written (X.690, 11.2.2, would take them away).
#[derive(Drop)]
#[derive_where(Debug, PartialEq, Eq)]
#[derive_where(Clone; A: Copy)]
pub struct KeyUsage<A: Allocator = Global>(BitStringAsn1<A>);

impl<A: Allocator> Model for KeyUsage<A> {
    ghost use Rattle.std.specs.Prelude.{List, Bool};

    ghost Value = { List Bool };

    ghost view = { λ s. s.0 };

    ghost inverse = { λ bits. record { 0 = bits } };
}

impl<A: Allocator> KeyUsage<A> {
    /// So many bits, none of them set.
    ///
    /// # Errors
    /// `AllocError` where memory is refused.
    pub fn new(alloc: A, bits: usize) -> Result<Self, AllocError>
        ensures { IfOk result (λ usage. usage ≡ replicate bits false) }
    {
        Ok(KeyUsage(BitStringAsn1(BitString::with_len(alloc, bits)?)))
    }

    /// Nine bits, those that have names, none of them set.
    ///
    /// # Errors
    /// `AllocError` where memory is refused.
    pub fn new_default(alloc: A) -> Result<Self, AllocError>
        ensures { IfOk result (λ usage. usage ≡ replicate 9 false) }
    {
        KeyUsage::new(alloc, 9)
    }

    /// How many bits there are, set or not. It may be more than a `usize` can say. Takes no memory.
    pub fn len(&self) -> u128
        ensures { result ≡ length self.now }
    {
        self.0.0.get_num_bits()
    }

    /// The bits in bytes, from the top bit of each on; the unused bits of the last byte aren't set.
    pub fn as_bytes(&self) -> &[u8]
        ensures bytes { result.now ≡ payload self.now }
        ensures bits { bits_of result.now ≡ self.now ++ replicate (unused_bits (length self.now)) false }
    {
        self.0.0.payload_view()
    }

    /// Whether the bit at a place is set; false past the end.
    fn is_set(&self, index: usize) -> bool
        ensures { result ≡ slice_index_or self.now index false }
    {
        self.0.0.is_set(index)
    }

    /// Sets or clears the bit at a place, behind as many unset bits as are wanting.
    ///
    /// # Errors
    /// `AllocError` where memory is refused. The bits are as they were.
    fn put(&mut self, index: usize, value: bool) -> Result<(), AllocError>
        requires { index < 9 }
        ensures ok { OnOk result (self.new ≡ put self.old index value) }
        ensures err { OnErr result (self.new ≡ self.old) }
        ensures spares { index < length self.old → IsOk result }
    {
        let size = index + 1;
        if self.0.0.get_num_bits() < size as u128 {
            self.0.0.set_num_bits(size)?;
        }
        self.0.0.set(index, value);
        Ok(())
    }

    /// Whether the key may verify signatures other than those on certificates and revocation lists: bit 0, false past
    /// the end (RFC 5280, 4.2.1.3).
    pub fn digital_signature(&self) -> bool
        ensures { result ≡ slice_index_or self.now 0 false }
    {
        self.is_set(0)
    }

    /// Whether the key may verify signatures that commit the signer to a content, named nonRepudiation before: bit 1,
    /// false past the end (RFC 5280, 4.2.1.3).
    pub fn content_commitment(&self) -> bool
        ensures { result ≡ slice_index_or self.now 1 false }
    {
        self.is_set(1)
    }

    /// Whether the key may encipher keys: bit 2, false past the end (RFC 5280, 4.2.1.3).
    pub fn key_encipherment(&self) -> bool
        ensures { result ≡ slice_index_or self.now 2 false }
    {
        self.is_set(2)
    }

    /// Whether the key may encipher data itself: bit 3, false past the end (RFC 5280, 4.2.1.3).
    pub fn data_encipherment(&self) -> bool
        ensures { result ≡ slice_index_or self.now 3 false }
    {
        self.is_set(3)
    }

    /// Whether the key may be used to agree on a key: bit 4, false past the end (RFC 5280, 4.2.1.3).
    pub fn key_agreement(&self) -> bool
        ensures { result ≡ slice_index_or self.now 4 false }
    {
        self.is_set(4)
    }

    /// Whether the key may verify signatures on certificates: bit 5, false past the end (RFC 5280, 4.2.1.3).
    pub fn key_cert_sign(&self) -> bool
        ensures { result ≡ slice_index_or self.now 5 false }
    {
        self.is_set(5)
    }

    /// Whether the key may verify signatures on revocation lists: bit 6, false past the end (RFC 5280, 4.2.1.3).
    pub fn crl_sign(&self) -> bool
        ensures { result ≡ slice_index_or self.now 6 false }
    {
        self.is_set(6)
    }

    /// Whether a key agreed on may only encipher: bit 7, false past the end (RFC 5280, 4.2.1.3).
    pub fn encipher_only(&self) -> bool
        ensures { result ≡ slice_index_or self.now 7 false }
    {
        self.is_set(7)
    }

    /// Whether a key agreed on may only decipher: bit 8, false past the end (RFC 5280, 4.2.1.3).
    pub fn decipher_only(&self) -> bool
        ensures { result ≡ slice_index_or self.now 8 false }
    {
        self.is_set(8)
    }

    /// Sets or clears bit 0, `digital_signature`, behind as many unset bits as are wanting, also to clear it. Takes
    /// memory only where the bit lies past the end.
    ///
    /// # Errors
    /// `AllocError` where memory is refused. The bits are as they were.
    pub fn set_digital_signature(&mut self, value: bool) -> Result<(), AllocError>
        ensures { SetsBit 0 value self.old self.new result }
    {
        self.put(0, value)
    }

    /// Sets or clears bit 1, `content_commitment`, behind as many unset bits as are wanting, also to clear it. Takes
    /// memory only where the bit lies past the end.
    ///
    /// # Errors
    /// `AllocError` where memory is refused. The bits are as they were.
    pub fn set_content_commitment(&mut self, value: bool) -> Result<(), AllocError>
        ensures { SetsBit 1 value self.old self.new result }
    {
        self.put(1, value)
    }

    /// Sets or clears bit 2, `key_encipherment`, behind as many unset bits as are wanting, also to clear it. Takes
    /// memory only where the bit lies past the end.
    ///
    /// # Errors
    /// `AllocError` where memory is refused. The bits are as they were.
    pub fn set_key_encipherment(&mut self, value: bool) -> Result<(), AllocError>
        ensures { SetsBit 2 value self.old self.new result }
    {
        self.put(2, value)
    }

    /// Sets or clears bit 3, `data_encipherment`, behind as many unset bits as are wanting, also to clear it. Takes
    /// memory only where the bit lies past the end.
    ///
    /// # Errors
    /// `AllocError` where memory is refused. The bits are as they were.
    pub fn set_data_encipherment(&mut self, value: bool) -> Result<(), AllocError>
        ensures { SetsBit 3 value self.old self.new result }
    {
        self.put(3, value)
    }

    /// Sets or clears bit 4, `key_agreement`, behind as many unset bits as are wanting, also to clear it. Takes memory
    /// only where the bit lies past the end.
    ///
    /// # Errors
    /// `AllocError` where memory is refused. The bits are as they were.
    pub fn set_key_agreement(&mut self, value: bool) -> Result<(), AllocError>
        ensures { SetsBit 4 value self.old self.new result }
    {
        self.put(4, value)
    }

    /// Sets or clears bit 5, `key_cert_sign`, behind as many unset bits as are wanting, also to clear it. Takes memory
    /// only where the bit lies past the end.
    ///
    /// # Errors
    /// `AllocError` where memory is refused. The bits are as they were.
    pub fn set_key_cert_sign(&mut self, value: bool) -> Result<(), AllocError>
        ensures { SetsBit 5 value self.old self.new result }
    {
        self.put(5, value)
    }

    /// Sets or clears bit 6, `crl_sign`, behind as many unset bits as are wanting, also to clear it. Takes memory only
    /// where the bit lies past the end.
    ///
    /// # Errors
    /// `AllocError` where memory is refused. The bits are as they were.
    pub fn set_crl_sign(&mut self, value: bool) -> Result<(), AllocError>
        ensures { SetsBit 6 value self.old self.new result }
    {
        self.put(6, value)
    }

    /// Sets or clears bit 7, `encipher_only`, behind as many unset bits as are wanting, also to clear it. Takes memory
    /// only where the bit lies past the end.
    ///
    /// # Errors
    /// `AllocError` where memory is refused. The bits are as they were.
    pub fn set_encipher_only(&mut self, value: bool) -> Result<(), AllocError>
        ensures { SetsBit 7 value self.old self.new result }
    {
        self.put(7, value)
    }

    /// Sets or clears bit 8, `decipher_only`, behind as many unset bits as are wanting, also to clear it. Takes memory
    /// only where the bit lies past the end.
    ///
    /// # Errors
    /// `AllocError` where memory is refused. The bits are as they were.
    pub fn set_decipher_only(&mut self, value: bool) -> Result<(), AllocError>
        ensures { SetsBit 8 value self.old self.new result }
    {
        self.put(8, value)
    }
}

impl<A: Allocator + Copy> CloneEq for KeyUsage<A> {
    ghost use Rattle.std.proofs.Common.{rules};

    ghost exact = { Prim.search (rules) };
}

impl<A: Allocator> SameEq for KeyUsage<A> {
    fn decides() {
        BitStringAsn1::<A>::decides();
    }
}

impl<A: Allocator> ToDer for KeyUsage<A> {
    ghost strict = { λ v. element 3 (bit_content v) };

    fn put<O: Output>(&self, out: &mut [u8], at: usize) -> Result<usize, TooLong> {
        self.0.put::<O>(out, at)
    }
}

impl<A: Allocator + Copy> Field<A> for KeyUsage<A> {
    type Brief = ();

    ghost shape = { key_usage };

    ghost brief = { λ v. tt };

    ghost lawful = { λ h. ⟦<BitStringAsn1<A> as Field<A>>⟧.lawful tt };

    ghost elements = { λ h. ⟦<BitStringAsn1<A> as Field<A>>⟧.elements tt };

    ghost agrees = { λ v. refl };

    fn starts(byte: u8) -> bool {
        byte == BIT_STRING_TAG
    }

    fn known(&self) {}

    fn read(alloc: A, reader: &mut Reader<'_, A>) -> Result<Self, ReadError> {
        Ok(KeyUsage(BitStringAsn1::read(alloc, reader)?))
    }

    fn pass(alloc: A, reader: &mut Reader<'_, A>) -> Result<(), ReadError> {
        BitStringAsn1::<A>::pass(alloc, reader)
    }
}

impl<A: Allocator + Copy> FromDer<A> for KeyUsage<A> {
    ghost stands_alone = { (tt, tt) };
}
