//! Laws of all types: those of this crate, and those of the crates below, by their names here. A function here does
//! nothing when it runs: its contract is the law.

ghost use Rattle.std.specs.Prelude.{◌≡◌, ◌↔◌, ℕ, true, List, sum};
ghost use Rattle.x509_der.specs.FirstField.{FirstPart};
ghost use Rattle.x509_der.specs.Tally.{Tally};
ghost use Rattle.picky_asn1_x509_parts.specs.ExtensionLists.{extensions};
ghost use Rattle.picky_asn1_x509.specs.CertificatePlaces.{TbsAt, CertificateAt, InfoAt, RequestAt, AttributesAt};
ghost use Rattle.picky_asn1_x509.specs.Certificates.{signature_fields, certificate_parts, certificate};
ghost use Rattle.picky_asn1_x509.specs.OlderCertificates.{OlderTbs, older_tbs, without_ids, OlderCertificate, older_certificate, certificate_without_ids};
ghost use Rattle.picky_asn1_x509.specs.Requests.{request_attributes, request_info, info_bytes, request_parts, request};
ghost use Rattle.picky_asn1_x509.specs.TbsCertificates.{required_fields, required_of, is_fitting, tbs_certificate, tbs_bytes};

use crate::certificate::Certificate;
use crate::certification_request::{
    CertificationRequest, CertificationRequestInfo, OpenSslAttributes,
};
use crate::tbs_certificate::TbsCertificate;
use picky_asn1_x509_parts::Attribute;
pub use picky_asn1_x509_parts::laws::{
    attribute_fields, authority_key_identifier_fields, authority_key_identifier_marks,
    basic_constraints_fields, basic_constraints_takes_no_memory, extended_key_usage_fields,
    extension_fields, extension_readable, extension_views_compared, key_usage_setters,
    last_field_counts, neighbours_ascend, request_attribute_readable,
};
use std::alloc::Allocator;
pub use x509_der::laws::{
    bool_takes_no_memory, contained_fields, defined_by_fields, equal_spellings,
    equality_is_sameness, fields, implicit_tags, item_fields, joined_fields, lists_owe_their_items,
    natural_contents, no_proper_front, null_takes_no_memory, number_has_one_content,
    payload_fields, read_write_read, spelled_where_readable, spellings_are_lawful,
    strict_is_written, tagged_fields_are_elements, tagged_lists, u8_takes_no_memory, viewed_fields,
};
pub use x509_keys::laws::{
    aes_auth_enc_fields, aes_parameters_fields, algorithm_fields, algorithms_fit,
    digest_info_fields, ec_private_key_fields, hash_fields, hash_identifiers, mask_gen_fields,
    private_key_fields, private_keys_are_elements, private_keys_inside, private_keys_read_back,
    public_keys_read_back, raw_algorithm_fields, rsa_private_key_fields, rsa_public_key_fields,
    rsassa_pss_fields, sha_identifiers, subject_public_key_fields,
};
pub use x509_names::laws::{
    attribute_fields as attribute_type_and_value_fields, attributes_read_back,
    directory_string_fields, edi_party_name_fields, general_name_fields, made_attributes_read_back,
    name_fields, other_name_fields, time_fields, time_takes_no_memory, validity_fields,
    validity_takes_no_memory, version_takes_no_memory,
};
pub use x509_prim::laws::{generalized_time_takes_no_memory, utc_time_takes_no_memory};

/// The law of fields of `TbsCertificate`: the version and the extensions, where they are encoded, and the others stand
/// one behind another.
pub fn tbs_certificate_fields<A: Allocator + Copy>()
    ensures { (v : TbsCertificate A) (string : List ℕ) (y : Tally) → tbs_certificate.spelled v string y →
        TbsAt v string y }
{
    fields::<TbsCertificate<A>, A>();
}

/// The law of fields of `Certificate`: the signed part stands right behind the header, and behind it the algorithm and
/// the signature.
pub fn certificate_fields<A: Allocator + Copy>()
    ensures { (v : Certificate A) (string : List ℕ) (y : Tally) → certificate.spelled v string y →
        CertificateAt v string y }
{
    fields::<Certificate<A>, A>();
}

/// The law of fields of `CertificationRequestInfo`: its fields stand one behind another.
pub fn certification_request_info_fields<A: Allocator + Copy>()
    ensures { (v : CertificationRequestInfo A) (string : List ℕ) (y : Tally) →
        request_info.spelled v string y → InfoAt v string y }
{
    fields::<CertificationRequestInfo<A>, A>();
}

/// The law of fields of `CertificationRequest`: the signed part stands right behind the header, and behind it the
/// algorithm and the signature.
pub fn certification_request_fields<A: Allocator + Copy>()
    ensures { (v : CertificationRequest A) (string : List ℕ) (y : Tally) → request.spelled v string y →
        RequestAt v string y }
{
    fields::<CertificationRequest<A>, A>();
}

/// The law of fields of `OpenSslAttributes`: the attributes stand one behind another behind the header.
pub fn request_attributes_fields<A: Allocator + Copy>()
    ensures { (list : List (Attribute A)) (string : List ℕ) (y : Tally) →
        request_attributes.spelled list string y → AttributesAt list string y }
{
    fields::<OpenSslAttributes<A>, A>();
}

/// A signed part is read back as itself exactly where its version fits its fields, and each of these is read back.
pub fn tbs_certificates_read_back<A: Allocator>()
    ensures { (v : TbsCertificate A) → tbs_certificate.readable v ↔ ((is_fitting v ≡ true) ×
        (required_fields.readable (required_of v) × extensions.readable v.extensions)) }
{}

/// Rewriting what is signed: of a certificate that was read with its signed part, the slice is what is written of the
/// part exactly where no deviation stands inside the slice.
pub fn certificate_signed_part<A: Allocator>()
    ensures { (v : Certificate A) (string slice inside outside : List ℕ) →
        FirstPart certificate_parts tbs_certificate signature_fields string v slice inside outside →
        (slice ≡ tbs_bytes v.tbs_certificate) ↔ (sum inside ≡ 0) }
{}

/// The same of a request.
pub fn request_signed_part<A: Allocator>()
    ensures { (v : CertificationRequest A) (string slice inside outside : List ℕ) →
        FirstPart request_parts request_info signature_fields string v slice inside outside →
        (slice ≡ info_bytes v.certification_request_info) ↔ (sum inside ≡ 0) }
{}

/// What is encoded in the form without unique identifiers, the signed part or the whole certificate, is encoded in the
/// full form too, with the same value in the other fields, no unique identifiers, and the same deviations, places and
/// headers.
pub fn full_form_covers_form_without_unique_ids<A: Allocator>()
    ensures signed { (v : OlderTbs A) (string : List ℕ) (y : Tally) → older_tbs.spelled v string y →
        tbs_certificate.spelled (without_ids v) string y }
    ensures whole { (v : OlderCertificate A) (string : List ℕ) (y : Tally) →
        older_certificate.spelled v string y → certificate.spelled (certificate_without_ids v) string y }
{}
