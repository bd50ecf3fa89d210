//! Every public name of `picky_asn1_x509`, at its root and in its modules: this file names them all, and doesn't compile
//! where one is gone. The object identifiers are named by the tables of the tests of calls.

/// At the root.
mod root {
    pub use picky_asn1_x509::AesAuthEncParams;
    pub use picky_asn1_x509::AesMode;
    pub use picky_asn1_x509::AesParameters;
    pub use picky_asn1_x509::AlgorithmError;
    pub use picky_asn1_x509::AlgorithmIdentifier;
    pub use picky_asn1_x509::AlgorithmIdentifierParameters;
    pub use picky_asn1_x509::AsciiCharSet;
    pub use picky_asn1_x509::Asn1RawDer;
    pub use picky_asn1_x509::Asn1SequenceOf;
    pub use picky_asn1_x509::Asn1SetOf;
    pub use picky_asn1_x509::Attribute;
    pub use picky_asn1_x509::AttributeTypeAndValue;
    pub use picky_asn1_x509::AttributeTypeAndValueParameters;
    pub use picky_asn1_x509::AttributeValues;
    pub use picky_asn1_x509::Attributes;
    pub use picky_asn1_x509::AuthorityKeyIdentifier;
    pub use picky_asn1_x509::BasicConstraints;
    pub use picky_asn1_x509::BitString;
    pub use picky_asn1_x509::BitStringAsn1;
    pub use picky_asn1_x509::BitStringAsn1Container;
    pub use picky_asn1_x509::BmpCharSet;
    pub use picky_asn1_x509::BmpString;
    pub use picky_asn1_x509::BmpStringAsn1;
    pub use picky_asn1_x509::Certificate;
    pub use picky_asn1_x509::CertificationRequest;
    pub use picky_asn1_x509::CertificationRequestInfo;
    pub use picky_asn1_x509::CharSet;
    pub use picky_asn1_x509::CharSetError;
    pub use picky_asn1_x509::CloneEq;
    pub use picky_asn1_x509::Deviation;
    pub use picky_asn1_x509::Deviations;
    pub use picky_asn1_x509::DigestInfo;
    pub use picky_asn1_x509::DirectoryName;
    pub use picky_asn1_x509::DirectoryString;
    pub use picky_asn1_x509::ECPrivateKey;
    pub use picky_asn1_x509::EcParameters;
    pub use picky_asn1_x509::EcPoint;
    pub use picky_asn1_x509::EdiPartyName;
    pub use picky_asn1_x509::EncapsulatedEcPoint;
    pub use picky_asn1_x509::EncapsulatedEcSecret;
    pub use picky_asn1_x509::EncapsulatedMldsaPublicKey;
    pub use picky_asn1_x509::EncapsulatedRsaPublicKey;
    pub use picky_asn1_x509::ExtendedKeyUsage;
    pub use picky_asn1_x509::Extension;
    pub use picky_asn1_x509::ExtensionView;
    pub use picky_asn1_x509::Extensions;
    pub use picky_asn1_x509::Field;
    pub use picky_asn1_x509::FromDer;
    pub use picky_asn1_x509::GeneralName;
    pub use picky_asn1_x509::GeneralNames;
    pub use picky_asn1_x509::GeneralizedTime;
    pub use picky_asn1_x509::GeneralizedTimeAsn1;
    pub use picky_asn1_x509::HashAlgorithm;
    pub use picky_asn1_x509::Ia5CharSet;
    pub use picky_asn1_x509::Ia5String;
    pub use picky_asn1_x509::Ia5StringAsn1;
    pub use picky_asn1_x509::IntegerAsn1;
    pub use picky_asn1_x509::KeyIdentifier;
    pub use picky_asn1_x509::KeyUsage;
    pub use picky_asn1_x509::MaskGenAlgorithm;
    pub use picky_asn1_x509::Name;
    pub use picky_asn1_x509::NameAttr;
    pub use picky_asn1_x509::NamePrettyFormatter;
    pub use picky_asn1_x509::ObjectIdentifier;
    pub use picky_asn1_x509::ObjectIdentifierAsn1;
    pub use picky_asn1_x509::OctetStringAsn1;
    pub use picky_asn1_x509::OctetStringAsn1Container;
    pub use picky_asn1_x509::OidError;
    pub use picky_asn1_x509::OpenSslAttributes;
    pub use picky_asn1_x509::OtherName;
    pub use picky_asn1_x509::PRIVATE_KEY_INFO_VERSION_1;
    pub use picky_asn1_x509::PRIVATE_KEY_INFO_VERSION_2;
    pub use picky_asn1_x509::Place;
    pub use picky_asn1_x509::PrintableCharSet;
    pub use picky_asn1_x509::PrintableString;
    pub use picky_asn1_x509::PrintableStringAsn1;
    pub use picky_asn1_x509::PrivateKeyInfo;
    pub use picky_asn1_x509::PrivateKeyValue;
    pub use picky_asn1_x509::PublicKey;
    pub use picky_asn1_x509::RawAlgorithmIdentifier;
    pub use picky_asn1_x509::RawIn;
    pub use picky_asn1_x509::RdnSequence;
    pub use picky_asn1_x509::ReadError;
    pub use picky_asn1_x509::RelativeDistinguishedName;
    pub use picky_asn1_x509::RestrictedString;
    pub use picky_asn1_x509::RestrictedStringAsn1;
    pub use picky_asn1_x509::RsaPrivateKey;
    pub use picky_asn1_x509::RsaPublicKey;
    pub use picky_asn1_x509::RsassaPssParams;
    pub use picky_asn1_x509::SameEq;
    pub use picky_asn1_x509::ShaVariant;
    pub use picky_asn1_x509::SignedRead;
    pub use picky_asn1_x509::SliceError;
    pub use picky_asn1_x509::SubjectKeyIdentifier;
    pub use picky_asn1_x509::SubjectPublicKeyInfo;
    pub use picky_asn1_x509::Tags;
    pub use picky_asn1_x509::TbsCertificate;
    pub use picky_asn1_x509::Time;
    pub use picky_asn1_x509::ToDer;
    pub use picky_asn1_x509::TooLong;
    pub use picky_asn1_x509::UTCTime;
    pub use picky_asn1_x509::UnsupportedAlgorithmError;
    pub use picky_asn1_x509::UtcTimeAsn1;
    pub use picky_asn1_x509::Utf8String;
    pub use picky_asn1_x509::Validity;
    pub use picky_asn1_x509::Version;
    pub use picky_asn1_x509::WriteError;
    pub use picky_asn1_x509::encoded_len;
    pub use picky_asn1_x509::from_bytes;
    pub use picky_asn1_x509::read_counted;
    pub use picky_asn1_x509::read_located;
    pub use picky_asn1_x509::read_metered;
    pub use picky_asn1_x509::to_vec;
    pub use picky_asn1_x509::write_to_slice;
}

/// In `algorithm_identifier`.
mod algorithm_identifier {
    pub use picky_asn1_x509::algorithm_identifier::{
        AesAuthEncParams, AesMode, AesParameters, AlgorithmError, AlgorithmIdentifier,
        AlgorithmIdentifierParameters, DigestInfo, EcParameters, HashAlgorithm, MaskGenAlgorithm,
        RawAlgorithmIdentifier, RsassaPssParams, ShaVariant, UnsupportedAlgorithmError,
    };
}

/// In `attribute`.
mod attribute {
    pub use picky_asn1_x509::attribute::{Attribute, AttributeValues, Attributes};
}

/// In `attribute_type_and_value`.
mod attribute_type_and_value {
    pub use picky_asn1_x509::attribute_type_and_value::{
        AttributeTypeAndValue, AttributeTypeAndValueParameters,
    };
}

/// In `certificate`.
mod certificate {
    pub use picky_asn1_x509::certificate::{Certificate, TbsCertificate};
}

/// In `certification_request`.
mod certification_request {
    pub use picky_asn1_x509::certification_request::{
        CertificationRequest, CertificationRequestInfo, OpenSslAttributes,
    };
}

/// In `directory_string`.
mod directory_string {
    pub use picky_asn1_x509::directory_string::DirectoryString;
}

/// In `extension`.
mod extension {
    pub use picky_asn1_x509::extension::{
        AuthorityKeyIdentifier, BasicConstraints, ExtendedKeyUsage, Extension, ExtensionView,
        Extensions, KeyIdentifier, KeyUsage, SubjectKeyIdentifier,
    };
}

/// In `laws`.
mod laws {
    pub use picky_asn1_x509::laws::{
        aes_auth_enc_fields, aes_parameters_fields, algorithm_fields, algorithms_fit,
        attribute_fields, attribute_type_and_value_fields, attributes_read_back,
        authority_key_identifier_fields, authority_key_identifier_marks, basic_constraints_fields,
        basic_constraints_takes_no_memory, bool_takes_no_memory, certificate_fields,
        certificate_signed_part, certification_request_fields, certification_request_info_fields,
        contained_fields, defined_by_fields, digest_info_fields, directory_string_fields,
        ec_private_key_fields, edi_party_name_fields, equal_spellings, equality_is_sameness,
        extended_key_usage_fields, extension_fields, extension_readable, extension_views_compared,
        fields, full_form_covers_form_without_unique_ids, general_name_fields,
        generalized_time_takes_no_memory, hash_fields, hash_identifiers, implicit_tags,
        item_fields, joined_fields, key_usage_setters, last_field_counts, lists_owe_their_items,
        made_attributes_read_back, mask_gen_fields, name_fields, natural_contents,
        neighbours_ascend, no_proper_front, null_takes_no_memory, number_has_one_content,
        other_name_fields, payload_fields, private_key_fields, private_keys_are_elements,
        private_keys_inside, private_keys_read_back, public_keys_read_back, raw_algorithm_fields,
        read_write_read, request_attribute_readable, request_attributes_fields,
        request_signed_part, rsa_private_key_fields, rsa_public_key_fields, rsassa_pss_fields,
        sha_identifiers, spelled_where_readable, spellings_are_lawful, strict_is_written,
        subject_public_key_fields, tagged_fields_are_elements, tagged_lists,
        tbs_certificate_fields, tbs_certificates_read_back, time_fields, time_takes_no_memory,
        u8_takes_no_memory, utc_time_takes_no_memory, validity_fields, validity_takes_no_memory,
        version_takes_no_memory, viewed_fields,
    };
}

/// In `name`.
mod name {
    pub use picky_asn1_x509::name::{
        DirectoryName, EdiPartyName, GeneralName, GeneralNames, Name, NameAttr,
        NamePrettyFormatter, OtherName, RdnSequence, RelativeDistinguishedName,
    };
}

/// In `oid`.
mod oid {
    pub use picky_asn1_x509::oid::{ObjectIdentifier, ObjectIdentifierAsn1, OidError};
}

/// In `private_key_info`.
mod private_key_info {
    pub use picky_asn1_x509::private_key_info::{
        ECPrivateKey, EncapsulatedEcSecret, PRIVATE_KEY_INFO_VERSION_1, PRIVATE_KEY_INFO_VERSION_2,
        PrivateKeyInfo, PrivateKeyValue, RsaPrivateKey,
    };
}

/// In `signed_read`.
mod signed_read {
    pub use picky_asn1_x509::signed_read::SignedRead;
}

/// In `subject_public_key_info`.
mod subject_public_key_info {
    pub use picky_asn1_x509::subject_public_key_info::{
        EcPoint, EncapsulatedEcPoint, EncapsulatedMldsaPublicKey, EncapsulatedRsaPublicKey,
        PublicKey, RsaPublicKey, SubjectPublicKeyInfo,
    };
}

/// In `tbs_certificate`.
mod tbs_certificate {
    pub use picky_asn1_x509::tbs_certificate::TbsCertificate;
}

/// In `validity`.
mod validity {
    pub use picky_asn1_x509::validity::{Time, Validity};
}

/// In `version`.
mod version {
    pub use picky_asn1_x509::version::Version;
}

#[test]
fn every_name_is_there(rt: HostRuntime) {
    assert!(rt; root::encoded_len(&true) == Ok(3));
}
