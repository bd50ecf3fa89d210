//! Extensions of certificates and requests.

ghost use Rattle.std.specs.Prelude.{◌≡◌, ◌↔◌, true, false, Contains, Err, IfOk, IsOkAnd, IsTrue, MatchResult};
ghost use Rattle.x509_der.specs.View.{if_found};
ghost use Rattle.x509_der.specs.laws.Meaning.{sequence_keeps, seen_lawful, seen_element};
ghost use Rattle.picky_asn1_x509_parts.specs.declared.extension_value.ExtensionValue.TheVariants as value;
ghost use Rattle.picky_asn1_x509_parts.specs.Extensions.{key_kept, authority_key_arcs, subject_key_arcs, key_usage_arcs, subject_name_arcs, issuer_name_arcs, constraints_arcs, extended_usage_arcs, crl_number_arcs, any_usage_arcs, kind_of as kind_by, kind_in, critical_of, critical_kinds, inner, extension_back, extension_base, extension_meaning, extension_bytes, extension, made, viewed, with_critical};

use crate::authority_key_identifier::AuthorityKeyIdentifier;
use crate::basic_constraints::BasicConstraints;
use crate::extended_key_usage::ExtendedKeyUsage;
use crate::extension_value::{ExtensionKey, ExtensionValue, KeyNest, known_value};
pub use crate::extension_view::ExtensionView;
use crate::key_identifier::KeyIdentifier;
use crate::key_usage::KeyUsage;
use crate::matching_fields::MatchingFields;
use std::alloc::{AllocError, Allocator, Global};
use std::marker::Model;
use x509_der::parts::{
    Content, DefinedBy, Field, Join, Judge, One, Optional, Output, Reader, Ref, SEQUENCE_TAG,
    Sequence, Tagged, View, WholeDeviations, clone_both, pass_viewed, read_viewed,
};
use x509_der::{
    CloneEq, Deviation, FromDer, IntegerAsn1, ObjectIdentifier, ObjectIdentifierAsn1,
    OctetStringAsn1, OctetStringAsn1Container, ReadError, SameEq, ToDer, TooLong,
};
use x509_names::{GeneralName, GeneralNames};
use x509_oids_objects as oids;

/// An extension: its object identifier, whether it is critical, and its value, which is of the kind that the object
/// identifier says. Contracts see the three.
///
/// # Encoding
/// `Extension ::= SEQUENCE { extnID OBJECT IDENTIFIER, critical BOOLEAN DEFAULT FALSE, extnValue OCTET STRING }` (RFC
/// 5280, 4.1 and 4.2). The value fills the OCTET STRING whole. A FALSE that is encoded is read with the deviation
/// `CriticalFalseSpelled`, and written as it must be: not at all.
#[derive(Drop)]
#[derive_where(Debug, PartialEq, Eq)]
pub struct Extension<A: Allocator = Global> {
    extn_id: ObjectIdentifierAsn1<A>,
    critical: bool,
    extn_value: ExtensionValue<A>,
}

impl<A: Allocator> Model for Extension<A> {
    ghost use Rattle.std.specs.Prelude.{◌≡◌};
    ghost use Rattle.picky_asn1_x509_parts.specs.Extensions.{ExtensionFields, kind_in, kind_of};

    ghost Value = { ExtensionFields A };

    ghost view = { λ e. record { extn_id = e.extn_id; critical = e.critical; extn_value = e.extn_value } };

    ghost invariant = { λ e. kind_in e.extn_value ≡ kind_of e.extn_id };

    ghost inverse = { λ v. record { extn_id = v.extn_id; critical = v.critical; extn_value = v.extn_value } };
}

impl<A: Allocator> Extension<A> {
    /// The object identifier.
    pub fn extn_id(&self) -> &ObjectIdentifierAsn1<A>
        ensures { result.now ≡ self.now.extn_id }
    {
        &self.extn_id
    }

    /// Whether the extension is critical.
    pub fn critical(&self) -> bool
        ensures { result ≡ self.now.critical }
    {
        self.critical
    }

    /// The value, in the variant that the object identifier says. Takes no memory.
    pub fn extn_value(&self) -> ExtensionView<'_, A>
        ensures value { viewed result ≡ self.now.extn_value }
        ensures kind { kind_in (viewed result) ≡ kind_by self.now.extn_id }
    {
        match &self.extn_value {
            ExtensionValue::AuthorityKeyIdentifier(key) => {
                ExtensionView::AuthorityKeyIdentifier(&key.0)
            }
            ExtensionValue::SubjectKeyIdentifier(key) => ExtensionView::SubjectKeyIdentifier(
                &key.0,
            ),
            ExtensionValue::KeyUsage(usage) => ExtensionView::KeyUsage(&usage.0),
            ExtensionValue::SubjectAltName(names) => ExtensionView::SubjectAltName(&names.0),
            ExtensionValue::IssuerAltName(names) => ExtensionView::IssuerAltName(&names.0),
            ExtensionValue::BasicConstraints(constraints) => {
                ExtensionView::BasicConstraints(&constraints.0)
            }
            ExtensionValue::ExtendedKeyUsage(usage) => ExtensionView::ExtendedKeyUsage(&usage.0),
            ExtensionValue::Generic(octets) => ExtensionView::Generic(octets),
            ExtensionValue::CrlNumber(number) => ExtensionView::CrlNumber(number),
        }
    }

    /// The extension, critical. Nothing else changes.
    pub fn into_critical(mut self) -> Self
        ensures { result ≡ with_critical self true }
    {
        self.critical = true;
        self
    }

    /// The extension, not critical. Nothing else changes.
    pub fn into_non_critical(mut self) -> Self
        ensures { result ≡ with_critical self false }
    {
        self.critical = false;
        self
    }

    /// Makes the extension critical or not. Nothing else changes.
    pub fn set_critical(&mut self, critical: bool)
        ensures { self.new ≡ with_critical self.old critical }
    {
        self.critical = critical;
    }
}

/// An extension with the identifier of its kind, if there was memory for that.
///
/// # Errors
/// `AllocError` where there was none. The value is then dropped.
fn identified<A: Allocator>(
    extn_id: Result<ObjectIdentifier<A>, AllocError>,
    critical: bool,
    extn_value: ExtensionValue<A>,
) -> Result<Extension<A>, AllocError>
    requires { IfOk extn_id (λ id. kind_in extn_value ≡ kind_by id) }
    ensures { MatchResult extn_id (λ id. IsOkAnd result (λ e. e ≡ made id critical extn_value))
        (λ e. result ≡ Err e) }
{
    match extn_id {
        Ok(extn_id) => Ok(Extension {
            extn_id: ObjectIdentifierAsn1(extn_id),
            critical,
            extn_value,
        }),
        // By a call, since the value's type is large, and would be walked through here.
        Err(error) => {
            drop(extn_value);
            Err(error)
        }
    }
}

impl<A: Allocator + Copy> Extension<A> {
    /// An authority key identifier, not critical, as RFC 5280, 4.2.1.1, demands. Each part may be absent.
    ///
    /// # Errors
    /// `AllocError` where memory is refused. The parts are then dropped.
    pub fn new_authority_key_identifier(
        alloc: A,
        key_identifier: Option<KeyIdentifier<A>>,
        authority_cert_issuer: Option<GeneralName<A>>,
        authority_cert_serial_number: Option<IntegerAsn1<A>>,
    ) -> Result<Self, AllocError>
        ensures { IfOk result (λ e. e ≡ made authority_key_arcs false
            (value.AuthorityKeyIdentifier (record {
              key_identifier = key_identifier;
              issuer = authority_cert_issuer;
              serial_number = authority_cert_serial_number;
            }))) }
    {
        let key = AuthorityKeyIdentifier::new(
            key_identifier,
            authority_cert_issuer,
            authority_cert_serial_number,
        );
        identified(
            oids::authority_key_identifier(alloc),
            false,
            ExtensionValue::AuthorityKeyIdentifier(OctetStringAsn1Container(key)),
        )
    }

    /// A subject key identifier, not critical, as RFC 5280, 4.2.1.2, demands.
    ///
    /// # Errors
    /// `AllocError` where memory is refused. The octets are then dropped.
    pub fn new_subject_key_identifier(
        alloc: A,
        key_identifier: Vec<u8, A>,
    ) -> Result<Self, AllocError>
        ensures { IfOk result (λ e. e ≡ made subject_key_arcs false
            (value.SubjectKeyIdentifier key_identifier.items)) }
    {
        let key = OctetStringAsn1(key_identifier);
        identified(
            oids::subject_key_identifier(alloc),
            false,
            ExtensionValue::SubjectKeyIdentifier(OctetStringAsn1Container(key)),
        )
    }

    /// A key usage, critical, as RFC 5280, 4.2.1.3, recommends.
    ///
    /// # Errors
    /// `AllocError` where memory is refused. The usage is then dropped.
    pub fn new_key_usage(alloc: A, key_usage: KeyUsage<A>) -> Result<Self, AllocError>
        ensures { IfOk result (λ e. e ≡ made key_usage_arcs true (value.KeyUsage key_usage)) }
    {
        identified(
            oids::key_usage(alloc),
            true,
            ExtensionValue::KeyUsage(OctetStringAsn1Container(key_usage)),
        )
    }

    /// Further names of the subject, critical. RFC 5280, 4.2.1.6, demands that where the certificate's own subject is
    /// empty, and recommends the contrary elsewhere.
    ///
    /// # Errors
    /// `AllocError` where memory is refused. The names are then dropped.
    pub fn new_subject_alt_name(alloc: A, names: GeneralNames<A>) -> Result<Self, AllocError>
        ensures { IfOk result (λ e. e ≡ made subject_name_arcs true (value.SubjectAltName names)) }
    {
        identified(
            oids::subject_alternative_name(alloc),
            true,
            ExtensionValue::SubjectAltName(OctetStringAsn1Container(names)),
        )
    }

    /// Further names of the issuer, not critical, as RFC 5280, 4.2.1.7, recommends.
    ///
    /// # Errors
    /// `AllocError` where memory is refused. The names are then dropped.
    pub fn new_issuer_alt_name(alloc: A, names: GeneralNames<A>) -> Result<Self, AllocError>
        ensures { IfOk result (λ e. e ≡ made issuer_name_arcs false (value.IssuerAltName names)) }
    {
        identified(
            oids::issuer_alternative_name(alloc),
            false,
            ExtensionValue::IssuerAltName(OctetStringAsn1Container(names)),
        )
    }

    /// Basic constraints, critical, which is always acceptable (RFC 5280, 4.2.1.9). Each part may be absent; the path
    /// length is the number of intermediate certificates that may follow.
    ///
    /// # Errors
    /// `AllocError` where memory is refused.
    pub fn new_basic_constraints(
        alloc: A,
        ca: Option<bool>,
        path_len_constraint: Option<u8>,
    ) -> Result<Self, AllocError>
        ensures { IfOk result (λ e. e ≡ made constraints_arcs true
            (value.BasicConstraints (record { ca = ca; pathlen = path_len_constraint }))) }
    {
        let constraints = BasicConstraints::new(ca, path_len_constraint);
        identified(
            oids::basic_constraints(alloc),
            true,
            ExtensionValue::BasicConstraints(OctetStringAsn1Container(constraints)),
        )
    }

    /// Purposes of a key, critical exactly where `anyExtendedKeyUsage`, 2.5.29.37.0, isn't among them: with it, RFC
    /// 5280, 4.2.1.12, recommends that the extension isn't critical.
    ///
    /// # Errors
    /// `AllocError` where memory is refused. The purposes are then dropped.
    pub fn new_extended_key_usage(
        alloc: A,
        extended_key_usage: ExtendedKeyUsage<A>,
    ) -> Result<Self, AllocError>
        ensures { IfOk result (λ e. (e ≡ made extended_usage_arcs e.critical
            (value.ExtendedKeyUsage extended_key_usage)) ×
            (IsTrue e.critical ↔ ¬ Contains extended_key_usage any_usage_arcs)) }
    {
        let extn_id = ObjectIdentifierAsn1(oids::extended_key_usage(alloc)?);
        let any = oids::kp_any_extended_key_usage(alloc)?;
        let critical = !extended_key_usage.contains(&any);
        Ok(Extension {
            extn_id,
            critical,
            extn_value: ExtensionValue::ExtendedKeyUsage(OctetStringAsn1Container(
                extended_key_usage,
            )),
        })
    }

    /// The number of a revocation list, not critical, as RFC 5280, 5.2.3, demands.
    ///
    /// # Errors
    /// `AllocError` where memory is refused. The number is then dropped.
    pub fn new_crl_number(
        alloc: A,
        number: OctetStringAsn1Container<IntegerAsn1<A>>,
    ) -> Result<Self, AllocError>
        ensures { IfOk result (λ e. e ≡ made crl_number_arcs false (value.CrlNumber number)) }
    {
        identified(
            oids::crl_number(alloc),
            false,
            ExtensionValue::CrlNumber(number),
        )
    }
}

// By hand, since the kind of a value that was cloned variant by variant isn't seen to be that of its identifier.
impl<A: Allocator + Copy> Clone for Extension<A> {
    ghost is_clone = { λ x y. y ≡ x };

    fn clone(&self) -> Result<Self, AllocError> {
        let (extn_id, extn_value) = clone_both(&self.extn_id, &self.extn_value)?;
        Ok(Extension {
            extn_id,
            critical: self.critical,
            extn_value,
        })
    }
}

impl<A: Allocator + Copy> CloneEq for Extension<A> {
    ghost exact = { λ x y h. h };
}

impl<A: Allocator> SameEq for Extension<A> {
    fn decides() {
        ObjectIdentifierAsn1::<A>::decides();
        bool::decides();
        ExtensionValue::<A>::decides();
    }
}

/// The fields, owned.
type Fields<A> = Tagged<Sequence, MatchingFields<A>>;

/// The fields that are written, borrowed.
type Written<'a, A> = Tagged<
    Sequence,
    One<
        DefinedBy<
            KeyNest<Ref<'a, ObjectIdentifierAsn1<A>>, Ref<'a, bool>>,
            Ref<'a, ExtensionValue<A>>,
        >,
    >,
>;

/// The fields of an extension, to be written.
fn written<A: Allocator>(value: &Extension<A>) -> Written<'_, A>
    ensures { result ≡ extension_back value.now }
{
    let critical = if value.critical {
        Optional(Some(Ref(&value.critical)))
    } else {
        Optional(None)
    };
    let key = KeyNest(Join(Ref(&value.extn_id), One(critical)));
    Tagged::new(One(DefinedBy(key, Ref(&value.extn_value))))
}

/// Whether an extension is critical: not, where it isn't encoded.
fn critical_in(spelled: Option<bool>) -> bool
    ensures { result ≡ critical_of spelled }
{
    spelled.unwrap_or(false)
}

/// The deviation of a FALSE that is encoded.
fn spelled_false(spelled: Option<bool>) -> Option<Deviation>
    ensures { if_found result ≡ critical_kinds spelled }
{
    match spelled {
        Some(false) => Some(Deviation::CriticalFalseSpelled),
        Some(true) | None => None,
    }
}

impl<A: Allocator> ToDer for Extension<A> {
    ghost strict = { extension_bytes };

    fn put<O: Output>(&self, out: &mut [u8], at: usize) -> Result<usize, TooLong> {
        written(self).put::<O>(out, at)
    }
}

impl<A: Allocator + Copy> View<Fields<A>, A> for Extension<A> {
    ghost use Rattle.picky_asn1_x509_parts.specs.facts.ExtensionFacts.{extension_is, extension_one};

    ghost base = { extension_base };

    ghost view = { extension_meaning };

    ghost keeps = { sequence_keeps extension_meaning inner
        (⟦<MatchingFields<A> as Content<A>>⟧.content_lawful tt) extension_is extension_one };

    fn meaning(_alloc: A, parts: Fields<A>) -> Result<(Self, WholeDeviations), ReadError> {
        let MatchingFields(DefinedBy(KeyNest(key), extn_value)) = parts.into_inner();
        let Join(extn_id, One(Optional(spelled))) = key;
        let found = WholeDeviations::of(spelled_false(spelled));
        let critical = critical_in(spelled);
        Ok((
            Extension {
                extn_id,
                critical,
                extn_value,
            },
            found,
        ))
    }
}

impl<A: Allocator + Copy> Judge<Fields<A>, A> for Extension<A> {
    type Glimpse = (ExtensionKey, ());

    type Kept = ();

    ghost glimpse = { λ f. (key_kept f.0, tt) };

    ghost kept = { λ v. tt };

    fn judge(brief: (ExtensionKey, ())) -> Result<((), WholeDeviations), ReadError> {
        Ok(((), WholeDeviations::of(spelled_false(brief.0.critical))))
    }
}

impl<A: Allocator + Copy> Field<A> for Extension<A> {
    ghost use Rattle.picky_asn1_x509_parts.specs.facts.ExtensionFacts.{extension_is, extension_one, extension_agrees};

    type Brief = ();

    ghost shape = { extension };

    ghost brief = { λ v. tt };

    ghost lawful = { λ h. seen_lawful extension_meaning extension_base ⟦<Extension<A> as View<Fields<A>, A>>⟧.keeps };

    ghost elements = { λ h. seen_element extension_meaning extension_base
        (⟦<Fields<A> as Field<A>>⟧.elements tt) extension_is };

    ghost agrees = { extension_agrees };

    fn starts(byte: u8) -> bool {
        byte == SEQUENCE_TAG
    }

    fn known(&self) {
        self.extn_id.known();
        known_value(&self.extn_value);
    }

    fn read(alloc: A, reader: &mut Reader<'_, A>) -> Result<Self, ReadError> {
        read_viewed::<Self, Fields<A>, A>(alloc, reader)
    }

    fn pass(alloc: A, reader: &mut Reader<'_, A>) -> Result<(), ReadError> {
        pass_viewed::<Self, Fields<A>, A>(alloc, reader)
    }
}

impl<A: Allocator + Copy> FromDer<A> for Extension<A> {
    ghost stands_alone = { (tt, tt) };
}
