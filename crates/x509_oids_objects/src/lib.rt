//! Object identifiers of content types, attributes, extensions, key purposes and other objects.
//!
//! Each has a constant, its dotted text, and a function that makes it. This file is written by
//! `tools/make_object_identifiers.py` from `tools/object_identifiers.tsv`.
#![tactic(auto, unfolding(x509_der::specs::ObjectIdentifier::digits))]

ghost use Rattle.std.specs.Prelude.{◌≡◌, ◌∷◌, [], IfOk};
ghost use Rattle.x509_der.specs.ObjectIdentifier.{dotted};

use std::alloc::{AllocError, Allocator};
use x509_der::ObjectIdentifier;
use x509_der::parts::from_lawful;

/// `1.2.840.113549.1.7.1` (RFC 2315, 14).
pub const CONTENT_INFO_TYPE_DATA: &'static str = "1.2.840.113549.1.7.1";

/// The object identifier `CONTENT_INFO_TYPE_DATA`, `1.2.840.113549.1.7.1`.
///
/// # Errors
/// `AllocError` where memory is refused.
pub fn content_info_type_data<A: Allocator>(alloc: A) -> Result<ObjectIdentifier<A>, AllocError>
    ensures arcs { IfOk result (λ o. o ≡ 1 ∷ 2 ∷ 840 ∷ 113549 ∷ 1 ∷ 7 ∷ 1 ∷ []) }
    ensures text { CONTENT_INFO_TYPE_DATA.now ≡ dotted (1 ∷ 2 ∷ 840 ∷ 113549 ∷ 1 ∷ 7 ∷ 1 ∷ []) }
{
    from_lawful(alloc, &[1, 2, 840, 113549, 1, 7, 1])
}

/// `1.2.840.113549.1.7.2` (RFC 2315, 14).
pub const SIGNED_DATA: &'static str = "1.2.840.113549.1.7.2";

/// The object identifier `SIGNED_DATA`, `1.2.840.113549.1.7.2`.
///
/// # Errors
/// `AllocError` where memory is refused.
pub fn signed_data<A: Allocator>(alloc: A) -> Result<ObjectIdentifier<A>, AllocError>
    ensures arcs { IfOk result (λ o. o ≡ 1 ∷ 2 ∷ 840 ∷ 113549 ∷ 1 ∷ 7 ∷ 2 ∷ []) }
    ensures text { SIGNED_DATA.now ≡ dotted (1 ∷ 2 ∷ 840 ∷ 113549 ∷ 1 ∷ 7 ∷ 2 ∷ []) }
{
    from_lawful(alloc, &[1, 2, 840, 113549, 1, 7, 2])
}

/// `1.2.840.113549.1.7.3` (RFC 2315, 14).
pub const ENVELOPED_DATA: &'static str = "1.2.840.113549.1.7.3";

/// The object identifier `ENVELOPED_DATA`, `1.2.840.113549.1.7.3`.
///
/// # Errors
/// `AllocError` where memory is refused.
pub fn enveloped_data<A: Allocator>(alloc: A) -> Result<ObjectIdentifier<A>, AllocError>
    ensures arcs { IfOk result (λ o. o ≡ 1 ∷ 2 ∷ 840 ∷ 113549 ∷ 1 ∷ 7 ∷ 3 ∷ []) }
    ensures text { ENVELOPED_DATA.now ≡ dotted (1 ∷ 2 ∷ 840 ∷ 113549 ∷ 1 ∷ 7 ∷ 3 ∷ []) }
{
    from_lawful(alloc, &[1, 2, 840, 113549, 1, 7, 3])
}

/// `1.2.840.113549.1.7.6` (RFC 2315, 14).
pub const CONTENT_INFO_TYPE_ENCRYPTED_DATA: &'static str = "1.2.840.113549.1.7.6";

/// The object identifier `CONTENT_INFO_TYPE_ENCRYPTED_DATA`, `1.2.840.113549.1.7.6`.
///
/// # Errors
/// `AllocError` where memory is refused.
pub fn content_info_type_encrypted_data<A: Allocator>(
    alloc: A,
) -> Result<ObjectIdentifier<A>, AllocError>
    ensures arcs { IfOk result (λ o. o ≡ 1 ∷ 2 ∷ 840 ∷ 113549 ∷ 1 ∷ 7 ∷ 6 ∷ []) }
    ensures text { CONTENT_INFO_TYPE_ENCRYPTED_DATA.now ≡ dotted (1 ∷ 2 ∷ 840 ∷ 113549 ∷ 1 ∷ 7 ∷ 6 ∷ []) }
{
    from_lawful(alloc, &[1, 2, 840, 113549, 1, 7, 6])
}

/// `1.2.840.113549.1.9.1` (RFC 2985, appendix A).
pub const EMAIL_ADDRESS: &'static str = "1.2.840.113549.1.9.1";

/// The object identifier `EMAIL_ADDRESS`, `1.2.840.113549.1.9.1`.
///
/// # Errors
/// `AllocError` where memory is refused.
pub fn email_address<A: Allocator>(alloc: A) -> Result<ObjectIdentifier<A>, AllocError>
    ensures arcs { IfOk result (λ o. o ≡ 1 ∷ 2 ∷ 840 ∷ 113549 ∷ 1 ∷ 9 ∷ 1 ∷ []) }
    ensures text { EMAIL_ADDRESS.now ≡ dotted (1 ∷ 2 ∷ 840 ∷ 113549 ∷ 1 ∷ 9 ∷ 1 ∷ []) }
{
    from_lawful(alloc, &[1, 2, 840, 113549, 1, 9, 1])
}

/// `1.2.840.113549.1.9.3` (RFC 2985, appendix A).
pub const CONTENT_TYPE: &'static str = "1.2.840.113549.1.9.3";

/// The object identifier `CONTENT_TYPE`, `1.2.840.113549.1.9.3`.
///
/// # Errors
/// `AllocError` where memory is refused.
pub fn content_type<A: Allocator>(alloc: A) -> Result<ObjectIdentifier<A>, AllocError>
    ensures arcs { IfOk result (λ o. o ≡ 1 ∷ 2 ∷ 840 ∷ 113549 ∷ 1 ∷ 9 ∷ 3 ∷ []) }
    ensures text { CONTENT_TYPE.now ≡ dotted (1 ∷ 2 ∷ 840 ∷ 113549 ∷ 1 ∷ 9 ∷ 3 ∷ []) }
{
    from_lawful(alloc, &[1, 2, 840, 113549, 1, 9, 3])
}

/// `1.2.840.113549.1.9.4` (RFC 2985, appendix A).
pub const MESSAGE_DIGEST: &'static str = "1.2.840.113549.1.9.4";

/// The object identifier `MESSAGE_DIGEST`, `1.2.840.113549.1.9.4`.
///
/// # Errors
/// `AllocError` where memory is refused.
pub fn message_digest<A: Allocator>(alloc: A) -> Result<ObjectIdentifier<A>, AllocError>
    ensures arcs { IfOk result (λ o. o ≡ 1 ∷ 2 ∷ 840 ∷ 113549 ∷ 1 ∷ 9 ∷ 4 ∷ []) }
    ensures text { MESSAGE_DIGEST.now ≡ dotted (1 ∷ 2 ∷ 840 ∷ 113549 ∷ 1 ∷ 9 ∷ 4 ∷ []) }
{
    from_lawful(alloc, &[1, 2, 840, 113549, 1, 9, 4])
}

/// `1.2.840.113549.1.9.5` (RFC 2985, appendix A).
pub const SIGNING_TIME: &'static str = "1.2.840.113549.1.9.5";

/// The object identifier `SIGNING_TIME`, `1.2.840.113549.1.9.5`.
///
/// # Errors
/// `AllocError` where memory is refused.
pub fn signing_time<A: Allocator>(alloc: A) -> Result<ObjectIdentifier<A>, AllocError>
    ensures arcs { IfOk result (λ o. o ≡ 1 ∷ 2 ∷ 840 ∷ 113549 ∷ 1 ∷ 9 ∷ 5 ∷ []) }
    ensures text { SIGNING_TIME.now ≡ dotted (1 ∷ 2 ∷ 840 ∷ 113549 ∷ 1 ∷ 9 ∷ 5 ∷ []) }
{
    from_lawful(alloc, &[1, 2, 840, 113549, 1, 9, 5])
}

/// `1.2.840.113549.1.9.6` (RFC 2985, appendix A).
pub const COUNTER_SIGN: &'static str = "1.2.840.113549.1.9.6";

/// The object identifier `COUNTER_SIGN`, `1.2.840.113549.1.9.6`.
///
/// # Errors
/// `AllocError` where memory is refused.
pub fn counter_sign<A: Allocator>(alloc: A) -> Result<ObjectIdentifier<A>, AllocError>
    ensures arcs { IfOk result (λ o. o ≡ 1 ∷ 2 ∷ 840 ∷ 113549 ∷ 1 ∷ 9 ∷ 6 ∷ []) }
    ensures text { COUNTER_SIGN.now ≡ dotted (1 ∷ 2 ∷ 840 ∷ 113549 ∷ 1 ∷ 9 ∷ 6 ∷ []) }
{
    from_lawful(alloc, &[1, 2, 840, 113549, 1, 9, 6])
}

/// `1.2.840.113549.1.9.14` (RFC 2985, appendix A).
pub const EXTENSION_REQ: &'static str = "1.2.840.113549.1.9.14";

/// The object identifier `EXTENSION_REQ`, `1.2.840.113549.1.9.14`.
///
/// # Errors
/// `AllocError` where memory is refused.
pub fn extension_request<A: Allocator>(alloc: A) -> Result<ObjectIdentifier<A>, AllocError>
    ensures arcs { IfOk result (λ o. o ≡ 1 ∷ 2 ∷ 840 ∷ 113549 ∷ 1 ∷ 9 ∷ 14 ∷ []) }
    ensures text { EXTENSION_REQ.now ≡ dotted (1 ∷ 2 ∷ 840 ∷ 113549 ∷ 1 ∷ 9 ∷ 14 ∷ []) }
{
    from_lawful(alloc, &[1, 2, 840, 113549, 1, 9, 14])
}

/// `1.2.840.113549.1.9.20` (RFC 2985, appendix A).
pub const ATTRIBUTE_PKCS12_FRIENDLY_NAME: &'static str = "1.2.840.113549.1.9.20";

/// The object identifier `ATTRIBUTE_PKCS12_FRIENDLY_NAME`, `1.2.840.113549.1.9.20`.
///
/// # Errors
/// `AllocError` where memory is refused.
pub fn attribute_pkcs12_friendly_name<A: Allocator>(
    alloc: A,
) -> Result<ObjectIdentifier<A>, AllocError>
    ensures arcs { IfOk result (λ o. o ≡ 1 ∷ 2 ∷ 840 ∷ 113549 ∷ 1 ∷ 9 ∷ 20 ∷ []) }
    ensures text { ATTRIBUTE_PKCS12_FRIENDLY_NAME.now ≡ dotted (1 ∷ 2 ∷ 840 ∷ 113549 ∷ 1 ∷ 9 ∷ 20 ∷ []) }
{
    from_lawful(alloc, &[1, 2, 840, 113549, 1, 9, 20])
}

/// `1.2.840.113549.1.9.21` (RFC 2985, appendix A).
pub const ATTRIBUTE_PKCS12_LOCAL_KEY_ID: &'static str = "1.2.840.113549.1.9.21";

/// The object identifier `ATTRIBUTE_PKCS12_LOCAL_KEY_ID`, `1.2.840.113549.1.9.21`.
///
/// # Errors
/// `AllocError` where memory is refused.
pub fn attribute_pkcs12_local_key_id<A: Allocator>(
    alloc: A,
) -> Result<ObjectIdentifier<A>, AllocError>
    ensures arcs { IfOk result (λ o. o ≡ 1 ∷ 2 ∷ 840 ∷ 113549 ∷ 1 ∷ 9 ∷ 21 ∷ []) }
    ensures text { ATTRIBUTE_PKCS12_LOCAL_KEY_ID.now ≡ dotted (1 ∷ 2 ∷ 840 ∷ 113549 ∷ 1 ∷ 9 ∷ 21 ∷ []) }
{
    from_lawful(alloc, &[1, 2, 840, 113549, 1, 9, 21])
}

/// `1.2.840.113549.1.9.22.1` (RFC 7292, 4.2.3).
pub const CERT_SAFE_BAG_TYPE_X509: &'static str = "1.2.840.113549.1.9.22.1";

/// The object identifier `CERT_SAFE_BAG_TYPE_X509`, `1.2.840.113549.1.9.22.1`.
///
/// # Errors
/// `AllocError` where memory is refused.
pub fn cert_safe_bag_type_x509<A: Allocator>(alloc: A) -> Result<ObjectIdentifier<A>, AllocError>
    ensures arcs { IfOk result (λ o. o ≡ 1 ∷ 2 ∷ 840 ∷ 113549 ∷ 1 ∷ 9 ∷ 22 ∷ 1 ∷ []) }
    ensures text { CERT_SAFE_BAG_TYPE_X509.now ≡ dotted (1 ∷ 2 ∷ 840 ∷ 113549 ∷ 1 ∷ 9 ∷ 22 ∷ 1 ∷ []) }
{
    from_lawful(alloc, &[1, 2, 840, 113549, 1, 9, 22, 1])
}

/// `1.2.840.113549.1.9.23.1` (RFC 7292, 4.2.4).
pub const CRL_SAFE_BAG_TYPE_X509: &'static str = "1.2.840.113549.1.9.23.1";

/// The object identifier `CRL_SAFE_BAG_TYPE_X509`, `1.2.840.113549.1.9.23.1`.
///
/// # Errors
/// `AllocError` where memory is refused.
pub fn crl_safe_bag_type_x509<A: Allocator>(alloc: A) -> Result<ObjectIdentifier<A>, AllocError>
    ensures arcs { IfOk result (λ o. o ≡ 1 ∷ 2 ∷ 840 ∷ 113549 ∷ 1 ∷ 9 ∷ 23 ∷ 1 ∷ []) }
    ensures text { CRL_SAFE_BAG_TYPE_X509.now ≡ dotted (1 ∷ 2 ∷ 840 ∷ 113549 ∷ 1 ∷ 9 ∷ 23 ∷ 1 ∷ []) }
{
    from_lawful(alloc, &[1, 2, 840, 113549, 1, 9, 23, 1])
}

/// `1.2.840.113549.1.12.1.3` (RFC 7292, appendix C).
pub const PKCS12_PBE_WITH_SHA_AND_3_KEY_TRIPLE_DES_CBC: &'static str = "1.2.840.113549.1.12.1.3";

/// The object identifier `PKCS12_PBE_WITH_SHA_AND_3_KEY_TRIPLE_DES_CBC`, `1.2.840.113549.1.12.1.3`.
///
/// # Errors
/// `AllocError` where memory is refused.
pub fn pkcs12_pbe_with_sha_and_3_key_triple_des_cbc<A: Allocator>(
    alloc: A,
) -> Result<ObjectIdentifier<A>, AllocError>
    ensures arcs { IfOk result (λ o. o ≡ 1 ∷ 2 ∷ 840 ∷ 113549 ∷ 1 ∷ 12 ∷ 1 ∷ 3 ∷ []) }
    ensures text { PKCS12_PBE_WITH_SHA_AND_3_KEY_TRIPLE_DES_CBC.now ≡ dotted (1 ∷ 2 ∷ 840 ∷ 113549 ∷ 1 ∷ 12 ∷ 1 ∷ 3 ∷ []) }
{
    from_lawful(alloc, &[1, 2, 840, 113549, 1, 12, 1, 3])
}

/// `1.2.840.113549.1.12.1.6` (RFC 7292, appendix C).
pub const PKCS12_PBE_WITH_SHA_AND_40_BIT_RC2_CBC: &'static str = "1.2.840.113549.1.12.1.6";

/// The object identifier `PKCS12_PBE_WITH_SHA_AND_40_BIT_RC2_CBC`, `1.2.840.113549.1.12.1.6`.
///
/// # Errors
/// `AllocError` where memory is refused.
pub fn pkcs12_pbe_with_sha_and_40_bit_rc2_cbc<A: Allocator>(
    alloc: A,
) -> Result<ObjectIdentifier<A>, AllocError>
    ensures arcs { IfOk result (λ o. o ≡ 1 ∷ 2 ∷ 840 ∷ 113549 ∷ 1 ∷ 12 ∷ 1 ∷ 6 ∷ []) }
    ensures text { PKCS12_PBE_WITH_SHA_AND_40_BIT_RC2_CBC.now ≡ dotted (1 ∷ 2 ∷ 840 ∷ 113549 ∷ 1 ∷ 12 ∷ 1 ∷ 6 ∷ []) }
{
    from_lawful(alloc, &[1, 2, 840, 113549, 1, 12, 1, 6])
}

/// `1.2.840.113549.1.12.10.1.1` (RFC 7292, 4.2).
pub const SAFE_BAG_TYPE_KEY: &'static str = "1.2.840.113549.1.12.10.1.1";

/// The object identifier `SAFE_BAG_TYPE_KEY`, `1.2.840.113549.1.12.10.1.1`.
///
/// # Errors
/// `AllocError` where memory is refused.
pub fn safe_bag_type_key<A: Allocator>(alloc: A) -> Result<ObjectIdentifier<A>, AllocError>
    ensures arcs { IfOk result (λ o. o ≡ 1 ∷ 2 ∷ 840 ∷ 113549 ∷ 1 ∷ 12 ∷ 10 ∷ 1 ∷ 1 ∷ []) }
    ensures text { SAFE_BAG_TYPE_KEY.now ≡ dotted (1 ∷ 2 ∷ 840 ∷ 113549 ∷ 1 ∷ 12 ∷ 10 ∷ 1 ∷ 1 ∷ []) }
{
    from_lawful(alloc, &[1, 2, 840, 113549, 1, 12, 10, 1, 1])
}

/// `1.2.840.113549.1.12.10.1.2` (RFC 7292, 4.2).
pub const SAFE_BAG_TYPE_SHROUDED_KEY: &'static str = "1.2.840.113549.1.12.10.1.2";

/// The object identifier `SAFE_BAG_TYPE_SHROUDED_KEY`, `1.2.840.113549.1.12.10.1.2`.
///
/// # Errors
/// `AllocError` where memory is refused.
pub fn safe_bag_type_shrouded_key<A: Allocator>(alloc: A) -> Result<ObjectIdentifier<A>, AllocError>
    ensures arcs { IfOk result (λ o. o ≡ 1 ∷ 2 ∷ 840 ∷ 113549 ∷ 1 ∷ 12 ∷ 10 ∷ 1 ∷ 2 ∷ []) }
    ensures text { SAFE_BAG_TYPE_SHROUDED_KEY.now ≡ dotted (1 ∷ 2 ∷ 840 ∷ 113549 ∷ 1 ∷ 12 ∷ 10 ∷ 1 ∷ 2 ∷ []) }
{
    from_lawful(alloc, &[1, 2, 840, 113549, 1, 12, 10, 1, 2])
}

/// `1.2.840.113549.1.12.10.1.3` (RFC 7292, 4.2).
pub const SAFE_BAG_TYPE_CERT: &'static str = "1.2.840.113549.1.12.10.1.3";

/// The object identifier `SAFE_BAG_TYPE_CERT`, `1.2.840.113549.1.12.10.1.3`.
///
/// # Errors
/// `AllocError` where memory is refused.
pub fn safe_bag_type_cert<A: Allocator>(alloc: A) -> Result<ObjectIdentifier<A>, AllocError>
    ensures arcs { IfOk result (λ o. o ≡ 1 ∷ 2 ∷ 840 ∷ 113549 ∷ 1 ∷ 12 ∷ 10 ∷ 1 ∷ 3 ∷ []) }
    ensures text { SAFE_BAG_TYPE_CERT.now ≡ dotted (1 ∷ 2 ∷ 840 ∷ 113549 ∷ 1 ∷ 12 ∷ 10 ∷ 1 ∷ 3 ∷ []) }
{
    from_lawful(alloc, &[1, 2, 840, 113549, 1, 12, 10, 1, 3])
}

/// `1.2.840.113549.1.12.10.1.4` (RFC 7292, 4.2).
pub const SAFE_BAG_TYPE_CRL: &'static str = "1.2.840.113549.1.12.10.1.4";

/// The object identifier `SAFE_BAG_TYPE_CRL`, `1.2.840.113549.1.12.10.1.4`.
///
/// # Errors
/// `AllocError` where memory is refused.
pub fn safe_bag_type_crl<A: Allocator>(alloc: A) -> Result<ObjectIdentifier<A>, AllocError>
    ensures arcs { IfOk result (λ o. o ≡ 1 ∷ 2 ∷ 840 ∷ 113549 ∷ 1 ∷ 12 ∷ 10 ∷ 1 ∷ 4 ∷ []) }
    ensures text { SAFE_BAG_TYPE_CRL.now ≡ dotted (1 ∷ 2 ∷ 840 ∷ 113549 ∷ 1 ∷ 12 ∷ 10 ∷ 1 ∷ 4 ∷ []) }
{
    from_lawful(alloc, &[1, 2, 840, 113549, 1, 12, 10, 1, 4])
}

/// `1.2.840.113549.1.12.10.1.5` (RFC 7292, 4.2).
pub const SAFE_BAG_TYPE_SECRET: &'static str = "1.2.840.113549.1.12.10.1.5";

/// The object identifier `SAFE_BAG_TYPE_SECRET`, `1.2.840.113549.1.12.10.1.5`.
///
/// # Errors
/// `AllocError` where memory is refused.
pub fn safe_bag_type_secret<A: Allocator>(alloc: A) -> Result<ObjectIdentifier<A>, AllocError>
    ensures arcs { IfOk result (λ o. o ≡ 1 ∷ 2 ∷ 840 ∷ 113549 ∷ 1 ∷ 12 ∷ 10 ∷ 1 ∷ 5 ∷ []) }
    ensures text { SAFE_BAG_TYPE_SECRET.now ≡ dotted (1 ∷ 2 ∷ 840 ∷ 113549 ∷ 1 ∷ 12 ∷ 10 ∷ 1 ∷ 5 ∷ []) }
{
    from_lawful(alloc, &[1, 2, 840, 113549, 1, 12, 10, 1, 5])
}

/// `1.2.840.113549.1.12.10.1.6` (RFC 7292, 4.2).
pub const SAFE_BAG_TYPE_SAFE_CONTENTS: &'static str = "1.2.840.113549.1.12.10.1.6";

/// The object identifier `SAFE_BAG_TYPE_SAFE_CONTENTS`, `1.2.840.113549.1.12.10.1.6`.
///
/// # Errors
/// `AllocError` where memory is refused.
pub fn safe_bag_type_safe_contents<A: Allocator>(
    alloc: A,
) -> Result<ObjectIdentifier<A>, AllocError>
    ensures arcs { IfOk result (λ o. o ≡ 1 ∷ 2 ∷ 840 ∷ 113549 ∷ 1 ∷ 12 ∷ 10 ∷ 1 ∷ 6 ∷ []) }
    ensures text { SAFE_BAG_TYPE_SAFE_CONTENTS.now ≡ dotted (1 ∷ 2 ∷ 840 ∷ 113549 ∷ 1 ∷ 12 ∷ 10 ∷ 1 ∷ 6 ∷ []) }
{
    from_lawful(alloc, &[1, 2, 840, 113549, 1, 12, 10, 1, 6])
}

/// `1.3.6.1.5.5.7.3.1` (RFC 5280, 4.2.1.12).
pub const KP_SERVER_AUTH: &'static str = "1.3.6.1.5.5.7.3.1";

/// The object identifier `KP_SERVER_AUTH`, `1.3.6.1.5.5.7.3.1`.
///
/// # Errors
/// `AllocError` where memory is refused.
pub fn kp_server_auth<A: Allocator>(alloc: A) -> Result<ObjectIdentifier<A>, AllocError>
    ensures arcs { IfOk result (λ o. o ≡ 1 ∷ 3 ∷ 6 ∷ 1 ∷ 5 ∷ 5 ∷ 7 ∷ 3 ∷ 1 ∷ []) }
    ensures text { KP_SERVER_AUTH.now ≡ dotted (1 ∷ 3 ∷ 6 ∷ 1 ∷ 5 ∷ 5 ∷ 7 ∷ 3 ∷ 1 ∷ []) }
{
    from_lawful(alloc, &[1, 3, 6, 1, 5, 5, 7, 3, 1])
}

/// `1.3.6.1.5.5.7.3.2` (RFC 5280, 4.2.1.12).
pub const KP_CLIENT_AUTH: &'static str = "1.3.6.1.5.5.7.3.2";

/// The object identifier `KP_CLIENT_AUTH`, `1.3.6.1.5.5.7.3.2`.
///
/// # Errors
/// `AllocError` where memory is refused.
pub fn kp_client_auth<A: Allocator>(alloc: A) -> Result<ObjectIdentifier<A>, AllocError>
    ensures arcs { IfOk result (λ o. o ≡ 1 ∷ 3 ∷ 6 ∷ 1 ∷ 5 ∷ 5 ∷ 7 ∷ 3 ∷ 2 ∷ []) }
    ensures text { KP_CLIENT_AUTH.now ≡ dotted (1 ∷ 3 ∷ 6 ∷ 1 ∷ 5 ∷ 5 ∷ 7 ∷ 3 ∷ 2 ∷ []) }
{
    from_lawful(alloc, &[1, 3, 6, 1, 5, 5, 7, 3, 2])
}

/// `1.3.6.1.5.5.7.3.3` (RFC 5280, 4.2.1.12).
pub const KP_CODE_SIGNING: &'static str = "1.3.6.1.5.5.7.3.3";

/// The object identifier `KP_CODE_SIGNING`, `1.3.6.1.5.5.7.3.3`.
///
/// # Errors
/// `AllocError` where memory is refused.
pub fn kp_code_signing<A: Allocator>(alloc: A) -> Result<ObjectIdentifier<A>, AllocError>
    ensures arcs { IfOk result (λ o. o ≡ 1 ∷ 3 ∷ 6 ∷ 1 ∷ 5 ∷ 5 ∷ 7 ∷ 3 ∷ 3 ∷ []) }
    ensures text { KP_CODE_SIGNING.now ≡ dotted (1 ∷ 3 ∷ 6 ∷ 1 ∷ 5 ∷ 5 ∷ 7 ∷ 3 ∷ 3 ∷ []) }
{
    from_lawful(alloc, &[1, 3, 6, 1, 5, 5, 7, 3, 3])
}

/// `1.3.6.1.5.5.7.3.4` (RFC 5280, 4.2.1.12).
pub const KP_EMAIL_PROTECTION: &'static str = "1.3.6.1.5.5.7.3.4";

/// The object identifier `KP_EMAIL_PROTECTION`, `1.3.6.1.5.5.7.3.4`.
///
/// # Errors
/// `AllocError` where memory is refused.
pub fn kp_email_protection<A: Allocator>(alloc: A) -> Result<ObjectIdentifier<A>, AllocError>
    ensures arcs { IfOk result (λ o. o ≡ 1 ∷ 3 ∷ 6 ∷ 1 ∷ 5 ∷ 5 ∷ 7 ∷ 3 ∷ 4 ∷ []) }
    ensures text { KP_EMAIL_PROTECTION.now ≡ dotted (1 ∷ 3 ∷ 6 ∷ 1 ∷ 5 ∷ 5 ∷ 7 ∷ 3 ∷ 4 ∷ []) }
{
    from_lawful(alloc, &[1, 3, 6, 1, 5, 5, 7, 3, 4])
}

/// `1.3.6.1.5.5.7.3.5` (RFC 2459, 4.2.1.13).
pub const KP_IPSEC_END_SYSTEM: &'static str = "1.3.6.1.5.5.7.3.5";

/// The object identifier `KP_IPSEC_END_SYSTEM`, `1.3.6.1.5.5.7.3.5`.
///
/// # Errors
/// `AllocError` where memory is refused.
pub fn kp_ipsec_end_system<A: Allocator>(alloc: A) -> Result<ObjectIdentifier<A>, AllocError>
    ensures arcs { IfOk result (λ o. o ≡ 1 ∷ 3 ∷ 6 ∷ 1 ∷ 5 ∷ 5 ∷ 7 ∷ 3 ∷ 5 ∷ []) }
    ensures text { KP_IPSEC_END_SYSTEM.now ≡ dotted (1 ∷ 3 ∷ 6 ∷ 1 ∷ 5 ∷ 5 ∷ 7 ∷ 3 ∷ 5 ∷ []) }
{
    from_lawful(alloc, &[1, 3, 6, 1, 5, 5, 7, 3, 5])
}

/// `1.3.6.1.5.5.7.3.6` (RFC 2459, 4.2.1.13).
pub const KP_IPSPEC_TUNNEL: &'static str = "1.3.6.1.5.5.7.3.6";

/// The object identifier `KP_IPSPEC_TUNNEL`, `1.3.6.1.5.5.7.3.6`.
///
/// # Errors
/// `AllocError` where memory is refused.
pub fn kp_ipsec_tunnel<A: Allocator>(alloc: A) -> Result<ObjectIdentifier<A>, AllocError>
    ensures arcs { IfOk result (λ o. o ≡ 1 ∷ 3 ∷ 6 ∷ 1 ∷ 5 ∷ 5 ∷ 7 ∷ 3 ∷ 6 ∷ []) }
    ensures text { KP_IPSPEC_TUNNEL.now ≡ dotted (1 ∷ 3 ∷ 6 ∷ 1 ∷ 5 ∷ 5 ∷ 7 ∷ 3 ∷ 6 ∷ []) }
{
    from_lawful(alloc, &[1, 3, 6, 1, 5, 5, 7, 3, 6])
}

/// `1.3.6.1.5.5.7.3.7` (RFC 2459, 4.2.1.13).
pub const KP_IPSEC_USER: &'static str = "1.3.6.1.5.5.7.3.7";

/// The object identifier `KP_IPSEC_USER`, `1.3.6.1.5.5.7.3.7`.
///
/// # Errors
/// `AllocError` where memory is refused.
pub fn kp_ipsec_user<A: Allocator>(alloc: A) -> Result<ObjectIdentifier<A>, AllocError>
    ensures arcs { IfOk result (λ o. o ≡ 1 ∷ 3 ∷ 6 ∷ 1 ∷ 5 ∷ 5 ∷ 7 ∷ 3 ∷ 7 ∷ []) }
    ensures text { KP_IPSEC_USER.now ≡ dotted (1 ∷ 3 ∷ 6 ∷ 1 ∷ 5 ∷ 5 ∷ 7 ∷ 3 ∷ 7 ∷ []) }
{
    from_lawful(alloc, &[1, 3, 6, 1, 5, 5, 7, 3, 7])
}

/// `1.3.6.1.5.5.7.3.8` (RFC 5280, 4.2.1.12).
pub const KP_TIME_STAMPING: &'static str = "1.3.6.1.5.5.7.3.8";

/// The object identifier `KP_TIME_STAMPING`, `1.3.6.1.5.5.7.3.8`.
///
/// # Errors
/// `AllocError` where memory is refused.
pub fn kp_time_stamping<A: Allocator>(alloc: A) -> Result<ObjectIdentifier<A>, AllocError>
    ensures arcs { IfOk result (λ o. o ≡ 1 ∷ 3 ∷ 6 ∷ 1 ∷ 5 ∷ 5 ∷ 7 ∷ 3 ∷ 8 ∷ []) }
    ensures text { KP_TIME_STAMPING.now ≡ dotted (1 ∷ 3 ∷ 6 ∷ 1 ∷ 5 ∷ 5 ∷ 7 ∷ 3 ∷ 8 ∷ []) }
{
    from_lawful(alloc, &[1, 3, 6, 1, 5, 5, 7, 3, 8])
}

/// `1.3.6.1.5.5.7.3.9` (RFC 5280, 4.2.1.12).
pub const KP_OCSP_SIGNING: &'static str = "1.3.6.1.5.5.7.3.9";

/// The object identifier `KP_OCSP_SIGNING`, `1.3.6.1.5.5.7.3.9`.
///
/// # Errors
/// `AllocError` where memory is refused.
pub fn kp_ocsp_signing<A: Allocator>(alloc: A) -> Result<ObjectIdentifier<A>, AllocError>
    ensures arcs { IfOk result (λ o. o ≡ 1 ∷ 3 ∷ 6 ∷ 1 ∷ 5 ∷ 5 ∷ 7 ∷ 3 ∷ 9 ∷ []) }
    ensures text { KP_OCSP_SIGNING.now ≡ dotted (1 ∷ 3 ∷ 6 ∷ 1 ∷ 5 ∷ 5 ∷ 7 ∷ 3 ∷ 9 ∷ []) }
{
    from_lawful(alloc, &[1, 3, 6, 1, 5, 5, 7, 3, 9])
}

/// `2.5.29.14` (RFC 5280, 4.2.1.2).
pub const SUBJECT_KEY_IDENTIFIER: &'static str = "2.5.29.14";

/// The object identifier `SUBJECT_KEY_IDENTIFIER`, `2.5.29.14`.
///
/// # Errors
/// `AllocError` where memory is refused.
pub fn subject_key_identifier<A: Allocator>(alloc: A) -> Result<ObjectIdentifier<A>, AllocError>
    ensures arcs { IfOk result (λ o. o ≡ 2 ∷ 5 ∷ 29 ∷ 14 ∷ []) }
    ensures text { SUBJECT_KEY_IDENTIFIER.now ≡ dotted (2 ∷ 5 ∷ 29 ∷ 14 ∷ []) }
{
    from_lawful(alloc, &[2, 5, 29, 14])
}

/// `2.5.29.15` (RFC 5280, 4.2.1.3).
pub const KEY_USAGE: &'static str = "2.5.29.15";

/// The object identifier `KEY_USAGE`, `2.5.29.15`.
///
/// # Errors
/// `AllocError` where memory is refused.
pub fn key_usage<A: Allocator>(alloc: A) -> Result<ObjectIdentifier<A>, AllocError>
    ensures arcs { IfOk result (λ o. o ≡ 2 ∷ 5 ∷ 29 ∷ 15 ∷ []) }
    ensures text { KEY_USAGE.now ≡ dotted (2 ∷ 5 ∷ 29 ∷ 15 ∷ []) }
{
    from_lawful(alloc, &[2, 5, 29, 15])
}

/// `2.5.29.17` (RFC 5280, 4.2.1.6).
pub const SUBJECT_ALTERNATIVE_NAME: &'static str = "2.5.29.17";

/// The object identifier `SUBJECT_ALTERNATIVE_NAME`, `2.5.29.17`.
///
/// # Errors
/// `AllocError` where memory is refused.
pub fn subject_alternative_name<A: Allocator>(alloc: A) -> Result<ObjectIdentifier<A>, AllocError>
    ensures arcs { IfOk result (λ o. o ≡ 2 ∷ 5 ∷ 29 ∷ 17 ∷ []) }
    ensures text { SUBJECT_ALTERNATIVE_NAME.now ≡ dotted (2 ∷ 5 ∷ 29 ∷ 17 ∷ []) }
{
    from_lawful(alloc, &[2, 5, 29, 17])
}

/// `2.5.29.18` (RFC 5280, 4.2.1.7).
pub const ISSUER_ALTERNATIVE_NAME: &'static str = "2.5.29.18";

/// The object identifier `ISSUER_ALTERNATIVE_NAME`, `2.5.29.18`.
///
/// # Errors
/// `AllocError` where memory is refused.
pub fn issuer_alternative_name<A: Allocator>(alloc: A) -> Result<ObjectIdentifier<A>, AllocError>
    ensures arcs { IfOk result (λ o. o ≡ 2 ∷ 5 ∷ 29 ∷ 18 ∷ []) }
    ensures text { ISSUER_ALTERNATIVE_NAME.now ≡ dotted (2 ∷ 5 ∷ 29 ∷ 18 ∷ []) }
{
    from_lawful(alloc, &[2, 5, 29, 18])
}

/// `2.5.29.19` (RFC 5280, 4.2.1.9).
pub const BASIC_CONSTRAINTS: &'static str = "2.5.29.19";

/// The object identifier `BASIC_CONSTRAINTS`, `2.5.29.19`.
///
/// # Errors
/// `AllocError` where memory is refused.
pub fn basic_constraints<A: Allocator>(alloc: A) -> Result<ObjectIdentifier<A>, AllocError>
    ensures arcs { IfOk result (λ o. o ≡ 2 ∷ 5 ∷ 29 ∷ 19 ∷ []) }
    ensures text { BASIC_CONSTRAINTS.now ≡ dotted (2 ∷ 5 ∷ 29 ∷ 19 ∷ []) }
{
    from_lawful(alloc, &[2, 5, 29, 19])
}

/// `2.5.29.20` (RFC 5280, 5.2.3).
pub const CRL_NUMBER: &'static str = "2.5.29.20";

/// The object identifier `CRL_NUMBER`, `2.5.29.20`.
///
/// # Errors
/// `AllocError` where memory is refused.
pub fn crl_number<A: Allocator>(alloc: A) -> Result<ObjectIdentifier<A>, AllocError>
    ensures arcs { IfOk result (λ o. o ≡ 2 ∷ 5 ∷ 29 ∷ 20 ∷ []) }
    ensures text { CRL_NUMBER.now ≡ dotted (2 ∷ 5 ∷ 29 ∷ 20 ∷ []) }
{
    from_lawful(alloc, &[2, 5, 29, 20])
}

/// `2.5.29.35` (RFC 5280, 4.2.1.1).
pub const AUTHORITY_KEY_IDENTIFIER: &'static str = "2.5.29.35";

/// The object identifier `AUTHORITY_KEY_IDENTIFIER`, `2.5.29.35`.
///
/// # Errors
/// `AllocError` where memory is refused.
pub fn authority_key_identifier<A: Allocator>(alloc: A) -> Result<ObjectIdentifier<A>, AllocError>
    ensures arcs { IfOk result (λ o. o ≡ 2 ∷ 5 ∷ 29 ∷ 35 ∷ []) }
    ensures text { AUTHORITY_KEY_IDENTIFIER.now ≡ dotted (2 ∷ 5 ∷ 29 ∷ 35 ∷ []) }
{
    from_lawful(alloc, &[2, 5, 29, 35])
}

/// `2.5.29.37` (RFC 5280, 4.2.1.12).
pub const EXTENDED_KEY_USAGE: &'static str = "2.5.29.37";

/// The object identifier `EXTENDED_KEY_USAGE`, `2.5.29.37`.
///
/// # Errors
/// `AllocError` where memory is refused.
pub fn extended_key_usage<A: Allocator>(alloc: A) -> Result<ObjectIdentifier<A>, AllocError>
    ensures arcs { IfOk result (λ o. o ≡ 2 ∷ 5 ∷ 29 ∷ 37 ∷ []) }
    ensures text { EXTENDED_KEY_USAGE.now ≡ dotted (2 ∷ 5 ∷ 29 ∷ 37 ∷ []) }
{
    from_lawful(alloc, &[2, 5, 29, 37])
}

/// `2.5.29.37.0` (RFC 5280, 4.2.1.12).
pub const KP_ANY_EXTENDED_KEY_USAGE: &'static str = "2.5.29.37.0";

/// The object identifier `KP_ANY_EXTENDED_KEY_USAGE`, `2.5.29.37.0`.
///
/// # Errors
/// `AllocError` where memory is refused.
pub fn kp_any_extended_key_usage<A: Allocator>(alloc: A) -> Result<ObjectIdentifier<A>, AllocError>
    ensures arcs { IfOk result (λ o. o ≡ 2 ∷ 5 ∷ 29 ∷ 37 ∷ 0 ∷ []) }
    ensures text { KP_ANY_EXTENDED_KEY_USAGE.now ≡ dotted (2 ∷ 5 ∷ 29 ∷ 37 ∷ 0 ∷ []) }
{
    from_lawful(alloc, &[2, 5, 29, 37, 0])
}

/// `2.5.4.3` (RFC 5280, A.1).
pub const AT_COMMON_NAME: &'static str = "2.5.4.3";

/// The object identifier `AT_COMMON_NAME`, `2.5.4.3`.
///
/// # Errors
/// `AllocError` where memory is refused.
pub fn at_common_name<A: Allocator>(alloc: A) -> Result<ObjectIdentifier<A>, AllocError>
    ensures arcs { IfOk result (λ o. o ≡ 2 ∷ 5 ∷ 4 ∷ 3 ∷ []) }
    ensures text { AT_COMMON_NAME.now ≡ dotted (2 ∷ 5 ∷ 4 ∷ 3 ∷ []) }
{
    from_lawful(alloc, &[2, 5, 4, 3])
}

/// `2.5.4.4` (RFC 5280, A.1).
pub const AT_SURNAME: &'static str = "2.5.4.4";

/// The object identifier `AT_SURNAME`, `2.5.4.4`.
///
/// # Errors
/// `AllocError` where memory is refused.
pub fn at_surname<A: Allocator>(alloc: A) -> Result<ObjectIdentifier<A>, AllocError>
    ensures arcs { IfOk result (λ o. o ≡ 2 ∷ 5 ∷ 4 ∷ 4 ∷ []) }
    ensures text { AT_SURNAME.now ≡ dotted (2 ∷ 5 ∷ 4 ∷ 4 ∷ []) }
{
    from_lawful(alloc, &[2, 5, 4, 4])
}

/// `2.5.4.5` (RFC 5280, A.1).
pub const AT_SERIAL_NUMBER: &'static str = "2.5.4.5";

/// The object identifier `AT_SERIAL_NUMBER`, `2.5.4.5`.
///
/// # Errors
/// `AllocError` where memory is refused.
pub fn at_serial_number<A: Allocator>(alloc: A) -> Result<ObjectIdentifier<A>, AllocError>
    ensures arcs { IfOk result (λ o. o ≡ 2 ∷ 5 ∷ 4 ∷ 5 ∷ []) }
    ensures text { AT_SERIAL_NUMBER.now ≡ dotted (2 ∷ 5 ∷ 4 ∷ 5 ∷ []) }
{
    from_lawful(alloc, &[2, 5, 4, 5])
}

/// `2.5.4.6` (RFC 5280, A.1).
pub const AT_COUNTRY_NAME: &'static str = "2.5.4.6";

/// The object identifier `AT_COUNTRY_NAME`, `2.5.4.6`.
///
/// # Errors
/// `AllocError` where memory is refused.
pub fn at_country_name<A: Allocator>(alloc: A) -> Result<ObjectIdentifier<A>, AllocError>
    ensures arcs { IfOk result (λ o. o ≡ 2 ∷ 5 ∷ 4 ∷ 6 ∷ []) }
    ensures text { AT_COUNTRY_NAME.now ≡ dotted (2 ∷ 5 ∷ 4 ∷ 6 ∷ []) }
{
    from_lawful(alloc, &[2, 5, 4, 6])
}

/// `2.5.4.7` (RFC 5280, A.1).
pub const AT_LOCALITY_NAME: &'static str = "2.5.4.7";

/// The object identifier `AT_LOCALITY_NAME`, `2.5.4.7`.
///
/// # Errors
/// `AllocError` where memory is refused.
pub fn at_locality_name<A: Allocator>(alloc: A) -> Result<ObjectIdentifier<A>, AllocError>
    ensures arcs { IfOk result (λ o. o ≡ 2 ∷ 5 ∷ 4 ∷ 7 ∷ []) }
    ensures text { AT_LOCALITY_NAME.now ≡ dotted (2 ∷ 5 ∷ 4 ∷ 7 ∷ []) }
{
    from_lawful(alloc, &[2, 5, 4, 7])
}

/// `2.5.4.8` (RFC 5280, A.1).
pub const AT_STATE_OR_PROVINCE_NAME: &'static str = "2.5.4.8";

/// The object identifier `AT_STATE_OR_PROVINCE_NAME`, `2.5.4.8`.
///
/// # Errors
/// `AllocError` where memory is refused.
pub fn at_state_or_province_name<A: Allocator>(alloc: A) -> Result<ObjectIdentifier<A>, AllocError>
    ensures arcs { IfOk result (λ o. o ≡ 2 ∷ 5 ∷ 4 ∷ 8 ∷ []) }
    ensures text { AT_STATE_OR_PROVINCE_NAME.now ≡ dotted (2 ∷ 5 ∷ 4 ∷ 8 ∷ []) }
{
    from_lawful(alloc, &[2, 5, 4, 8])
}

/// `2.5.4.9` (RFC 4519, 2.34).
pub const AT_STREET_NAME: &'static str = "2.5.4.9";

/// The object identifier `AT_STREET_NAME`, `2.5.4.9`.
///
/// # Errors
/// `AllocError` where memory is refused.
pub fn at_street_name<A: Allocator>(alloc: A) -> Result<ObjectIdentifier<A>, AllocError>
    ensures arcs { IfOk result (λ o. o ≡ 2 ∷ 5 ∷ 4 ∷ 9 ∷ []) }
    ensures text { AT_STREET_NAME.now ≡ dotted (2 ∷ 5 ∷ 4 ∷ 9 ∷ []) }
{
    from_lawful(alloc, &[2, 5, 4, 9])
}

/// `2.5.4.10` (RFC 5280, A.1).
pub const AT_ORGANIZATION_NAME: &'static str = "2.5.4.10";

/// The object identifier `AT_ORGANIZATION_NAME`, `2.5.4.10`.
///
/// # Errors
/// `AllocError` where memory is refused.
pub fn at_organization_name<A: Allocator>(alloc: A) -> Result<ObjectIdentifier<A>, AllocError>
    ensures arcs { IfOk result (λ o. o ≡ 2 ∷ 5 ∷ 4 ∷ 10 ∷ []) }
    ensures text { AT_ORGANIZATION_NAME.now ≡ dotted (2 ∷ 5 ∷ 4 ∷ 10 ∷ []) }
{
    from_lawful(alloc, &[2, 5, 4, 10])
}

/// `2.5.4.11` (RFC 5280, A.1).
pub const AT_ORGANIZATIONAL_UNIT_NAME: &'static str = "2.5.4.11";

/// The object identifier `AT_ORGANIZATIONAL_UNIT_NAME`, `2.5.4.11`.
///
/// # Errors
/// `AllocError` where memory is refused.
pub fn at_organizational_unit_name<A: Allocator>(
    alloc: A,
) -> Result<ObjectIdentifier<A>, AllocError>
    ensures arcs { IfOk result (λ o. o ≡ 2 ∷ 5 ∷ 4 ∷ 11 ∷ []) }
    ensures text { AT_ORGANIZATIONAL_UNIT_NAME.now ≡ dotted (2 ∷ 5 ∷ 4 ∷ 11 ∷ []) }
{
    from_lawful(alloc, &[2, 5, 4, 11])
}

/// `2.5.4.20` (RFC 4519, 2.35).
pub const AT_PHONE: &'static str = "2.5.4.20";

/// The object identifier `AT_PHONE`, `2.5.4.20`.
///
/// # Errors
/// `AllocError` where memory is refused.
pub fn at_phone<A: Allocator>(alloc: A) -> Result<ObjectIdentifier<A>, AllocError>
    ensures arcs { IfOk result (λ o. o ≡ 2 ∷ 5 ∷ 4 ∷ 20 ∷ []) }
    ensures text { AT_PHONE.now ≡ dotted (2 ∷ 5 ∷ 4 ∷ 20 ∷ []) }
{
    from_lawful(alloc, &[2, 5, 4, 20])
}

/// `2.5.4.42` (RFC 5280, A.1).
pub const AT_GIVENNAME: &'static str = "2.5.4.42";

/// The object identifier `AT_GIVENNAME`, `2.5.4.42`.
///
/// # Errors
/// `AllocError` where memory is refused.
pub fn at_given_name<A: Allocator>(alloc: A) -> Result<ObjectIdentifier<A>, AllocError>
    ensures arcs { IfOk result (λ o. o ≡ 2 ∷ 5 ∷ 4 ∷ 42 ∷ []) }
    ensures text { AT_GIVENNAME.now ≡ dotted (2 ∷ 5 ∷ 4 ∷ 42 ∷ []) }
{
    from_lawful(alloc, &[2, 5, 4, 42])
}

/// `1.3.6.1.4.1.311.2.1.4` (Microsoft, Object IDs associated with Microsoft cryptography).
pub const SPC_INDIRECT_DATA_OBJID: &'static str = "1.3.6.1.4.1.311.2.1.4";

/// The object identifier `SPC_INDIRECT_DATA_OBJID`, `1.3.6.1.4.1.311.2.1.4`.
///
/// # Errors
/// `AllocError` where memory is refused.
pub fn spc_indirect_data_objid<A: Allocator>(alloc: A) -> Result<ObjectIdentifier<A>, AllocError>
    ensures arcs { IfOk result (λ o. o ≡ 1 ∷ 3 ∷ 6 ∷ 1 ∷ 4 ∷ 1 ∷ 311 ∷ 2 ∷ 1 ∷ 4 ∷ []) }
    ensures text { SPC_INDIRECT_DATA_OBJID.now ≡ dotted (1 ∷ 3 ∷ 6 ∷ 1 ∷ 4 ∷ 1 ∷ 311 ∷ 2 ∷ 1 ∷ 4 ∷ []) }
{
    from_lawful(alloc, &[1, 3, 6, 1, 4, 1, 311, 2, 1, 4])
}

/// `1.3.6.1.4.1.311.2.1.11` (Microsoft, Object IDs associated with Microsoft cryptography).
pub const SPC_STATEMENT_TYPE: &'static str = "1.3.6.1.4.1.311.2.1.11";

/// The object identifier `SPC_STATEMENT_TYPE`, `1.3.6.1.4.1.311.2.1.11`.
///
/// # Errors
/// `AllocError` where memory is refused.
pub fn spc_statement_type<A: Allocator>(alloc: A) -> Result<ObjectIdentifier<A>, AllocError>
    ensures arcs { IfOk result (λ o. o ≡ 1 ∷ 3 ∷ 6 ∷ 1 ∷ 4 ∷ 1 ∷ 311 ∷ 2 ∷ 1 ∷ 11 ∷ []) }
    ensures text { SPC_STATEMENT_TYPE.now ≡ dotted (1 ∷ 3 ∷ 6 ∷ 1 ∷ 4 ∷ 1 ∷ 311 ∷ 2 ∷ 1 ∷ 11 ∷ []) }
{
    from_lawful(alloc, &[1, 3, 6, 1, 4, 1, 311, 2, 1, 11])
}

/// `1.3.6.1.4.1.311.2.1.12` (Microsoft, Object IDs associated with Microsoft cryptography).
pub const SPC_SP_OPUS_INFO_OBJID: &'static str = "1.3.6.1.4.1.311.2.1.12";

/// The object identifier `SPC_SP_OPUS_INFO_OBJID`, `1.3.6.1.4.1.311.2.1.12`.
///
/// # Errors
/// `AllocError` where memory is refused.
pub fn spc_sp_opus_info_objid<A: Allocator>(alloc: A) -> Result<ObjectIdentifier<A>, AllocError>
    ensures arcs { IfOk result (λ o. o ≡ 1 ∷ 3 ∷ 6 ∷ 1 ∷ 4 ∷ 1 ∷ 311 ∷ 2 ∷ 1 ∷ 12 ∷ []) }
    ensures text { SPC_SP_OPUS_INFO_OBJID.now ≡ dotted (1 ∷ 3 ∷ 6 ∷ 1 ∷ 4 ∷ 1 ∷ 311 ∷ 2 ∷ 1 ∷ 12 ∷ []) }
{
    from_lawful(alloc, &[1, 3, 6, 1, 4, 1, 311, 2, 1, 12])
}

/// `1.3.6.1.4.1.311.2.1.15` (Microsoft, Object IDs associated with Microsoft cryptography).
pub const SPC_PE_IMAGE_DATAOBJ: &'static str = "1.3.6.1.4.1.311.2.1.15";

/// The object identifier `SPC_PE_IMAGE_DATAOBJ`, `1.3.6.1.4.1.311.2.1.15`.
///
/// # Errors
/// `AllocError` where memory is refused.
pub fn spc_pe_image_dataobj<A: Allocator>(alloc: A) -> Result<ObjectIdentifier<A>, AllocError>
    ensures arcs { IfOk result (λ o. o ≡ 1 ∷ 3 ∷ 6 ∷ 1 ∷ 4 ∷ 1 ∷ 311 ∷ 2 ∷ 1 ∷ 15 ∷ []) }
    ensures text { SPC_PE_IMAGE_DATAOBJ.now ≡ dotted (1 ∷ 3 ∷ 6 ∷ 1 ∷ 4 ∷ 1 ∷ 311 ∷ 2 ∷ 1 ∷ 15 ∷ []) }
{
    from_lawful(alloc, &[1, 3, 6, 1, 4, 1, 311, 2, 1, 15])
}

/// `1.3.6.1.4.1.311.2.1.30` (Microsoft, Object IDs associated with Microsoft cryptography).
pub const SPC_SIPINFO_OBJID: &'static str = "1.3.6.1.4.1.311.2.1.30";

/// The object identifier `SPC_SIPINFO_OBJID`, `1.3.6.1.4.1.311.2.1.30`.
///
/// # Errors
/// `AllocError` where memory is refused.
pub fn spc_sip_info_objid<A: Allocator>(alloc: A) -> Result<ObjectIdentifier<A>, AllocError>
    ensures arcs { IfOk result (λ o. o ≡ 1 ∷ 3 ∷ 6 ∷ 1 ∷ 4 ∷ 1 ∷ 311 ∷ 2 ∷ 1 ∷ 30 ∷ []) }
    ensures text { SPC_SIPINFO_OBJID.now ≡ dotted (1 ∷ 3 ∷ 6 ∷ 1 ∷ 4 ∷ 1 ∷ 311 ∷ 2 ∷ 1 ∷ 30 ∷ []) }
{
    from_lawful(alloc, &[1, 3, 6, 1, 4, 1, 311, 2, 1, 30])
}

/// `1.3.6.1.4.1.311.2.2.10` (Microsoft, MS-NLMP).
pub const NTLM_SSP: &'static str = "1.3.6.1.4.1.311.2.2.10";

/// The object identifier `NTLM_SSP`, `1.3.6.1.4.1.311.2.2.10`.
///
/// # Errors
/// `AllocError` where memory is refused.
pub fn ntlm_ssp<A: Allocator>(alloc: A) -> Result<ObjectIdentifier<A>, AllocError>
    ensures arcs { IfOk result (λ o. o ≡ 1 ∷ 3 ∷ 6 ∷ 1 ∷ 4 ∷ 1 ∷ 311 ∷ 2 ∷ 2 ∷ 10 ∷ []) }
    ensures text { NTLM_SSP.now ≡ dotted (1 ∷ 3 ∷ 6 ∷ 1 ∷ 4 ∷ 1 ∷ 311 ∷ 2 ∷ 2 ∷ 10 ∷ []) }
{
    from_lawful(alloc, &[1, 3, 6, 1, 4, 1, 311, 2, 2, 10])
}

/// `1.3.6.1.4.1.311.2.2.30` (Microsoft, MS-NEGOEX).
pub const NEGOEX: &'static str = "1.3.6.1.4.1.311.2.2.30";

/// The object identifier `NEGOEX`, `1.3.6.1.4.1.311.2.2.30`.
///
/// # Errors
/// `AllocError` where memory is refused.
pub fn negoex<A: Allocator>(alloc: A) -> Result<ObjectIdentifier<A>, AllocError>
    ensures arcs { IfOk result (λ o. o ≡ 1 ∷ 3 ∷ 6 ∷ 1 ∷ 4 ∷ 1 ∷ 311 ∷ 2 ∷ 2 ∷ 30 ∷ []) }
    ensures text { NEGOEX.now ≡ dotted (1 ∷ 3 ∷ 6 ∷ 1 ∷ 4 ∷ 1 ∷ 311 ∷ 2 ∷ 2 ∷ 30 ∷ []) }
{
    from_lawful(alloc, &[1, 3, 6, 1, 4, 1, 311, 2, 2, 30])
}

/// `1.3.6.1.4.1.311.3.2.1` (Microsoft, Object IDs associated with Microsoft cryptography).
pub const TIMESTAMP_REQUEST: &'static str = "1.3.6.1.4.1.311.3.2.1";

/// The object identifier `TIMESTAMP_REQUEST`, `1.3.6.1.4.1.311.3.2.1`.
///
/// # Errors
/// `AllocError` where memory is refused.
pub fn timestamp_request<A: Allocator>(alloc: A) -> Result<ObjectIdentifier<A>, AllocError>
    ensures arcs { IfOk result (λ o. o ≡ 1 ∷ 3 ∷ 6 ∷ 1 ∷ 4 ∷ 1 ∷ 311 ∷ 3 ∷ 2 ∷ 1 ∷ []) }
    ensures text { TIMESTAMP_REQUEST.now ≡ dotted (1 ∷ 3 ∷ 6 ∷ 1 ∷ 4 ∷ 1 ∷ 311 ∷ 3 ∷ 2 ∷ 1 ∷ []) }
{
    from_lawful(alloc, &[1, 3, 6, 1, 4, 1, 311, 3, 2, 1])
}

/// `1.3.6.1.4.1.311.3.3.1` (Microsoft, Object IDs associated with Microsoft cryptography).
pub const MS_COUNTER_SIGN: &'static str = "1.3.6.1.4.1.311.3.3.1";

/// The object identifier `MS_COUNTER_SIGN`, `1.3.6.1.4.1.311.3.3.1`.
///
/// # Errors
/// `AllocError` where memory is refused.
pub fn ms_counter_signature<A: Allocator>(alloc: A) -> Result<ObjectIdentifier<A>, AllocError>
    ensures arcs { IfOk result (λ o. o ≡ 1 ∷ 3 ∷ 6 ∷ 1 ∷ 4 ∷ 1 ∷ 311 ∷ 3 ∷ 3 ∷ 1 ∷ []) }
    ensures text { MS_COUNTER_SIGN.now ≡ dotted (1 ∷ 3 ∷ 6 ∷ 1 ∷ 4 ∷ 1 ∷ 311 ∷ 3 ∷ 3 ∷ 1 ∷ []) }
{
    from_lawful(alloc, &[1, 3, 6, 1, 4, 1, 311, 3, 3, 1])
}

/// `1.3.6.1.4.1.311.10.1` (Microsoft, Object IDs associated with Microsoft cryptography).
pub const CERT_TRUST_LIST: &'static str = "1.3.6.1.4.1.311.10.1";

/// The object identifier `CERT_TRUST_LIST`, `1.3.6.1.4.1.311.10.1`.
///
/// # Errors
/// `AllocError` where memory is refused.
pub fn cert_trust_list<A: Allocator>(alloc: A) -> Result<ObjectIdentifier<A>, AllocError>
    ensures arcs { IfOk result (λ o. o ≡ 1 ∷ 3 ∷ 6 ∷ 1 ∷ 4 ∷ 1 ∷ 311 ∷ 10 ∷ 1 ∷ []) }
    ensures text { CERT_TRUST_LIST.now ≡ dotted (1 ∷ 3 ∷ 6 ∷ 1 ∷ 4 ∷ 1 ∷ 311 ∷ 10 ∷ 1 ∷ []) }
{
    from_lawful(alloc, &[1, 3, 6, 1, 4, 1, 311, 10, 1])
}

/// `1.3.6.1.4.1.311.10.3.9` (Microsoft, Object IDs associated with Microsoft cryptography).
pub const ROOT_LIST_SIGNER: &'static str = "1.3.6.1.4.1.311.10.3.9";

/// The object identifier `ROOT_LIST_SIGNER`, `1.3.6.1.4.1.311.10.3.9`.
///
/// # Errors
/// `AllocError` where memory is refused.
pub fn root_list_signer<A: Allocator>(alloc: A) -> Result<ObjectIdentifier<A>, AllocError>
    ensures arcs { IfOk result (λ o. o ≡ 1 ∷ 3 ∷ 6 ∷ 1 ∷ 4 ∷ 1 ∷ 311 ∷ 10 ∷ 3 ∷ 9 ∷ []) }
    ensures text { ROOT_LIST_SIGNER.now ≡ dotted (1 ∷ 3 ∷ 6 ∷ 1 ∷ 4 ∷ 1 ∷ 311 ∷ 10 ∷ 3 ∷ 9 ∷ []) }
{
    from_lawful(alloc, &[1, 3, 6, 1, 4, 1, 311, 10, 3, 9])
}

/// `1.3.6.1.4.1.311.10.3.13` (Microsoft, Object IDs associated with Microsoft cryptography).
pub const KP_LIFETIME_SIGNING: &'static str = "1.3.6.1.4.1.311.10.3.13";

/// The object identifier `KP_LIFETIME_SIGNING`, `1.3.6.1.4.1.311.10.3.13`.
///
/// # Errors
/// `AllocError` where memory is refused.
pub fn kp_lifetime_signing<A: Allocator>(alloc: A) -> Result<ObjectIdentifier<A>, AllocError>
    ensures arcs { IfOk result (λ o. o ≡ 1 ∷ 3 ∷ 6 ∷ 1 ∷ 4 ∷ 1 ∷ 311 ∷ 10 ∷ 3 ∷ 13 ∷ []) }
    ensures text { KP_LIFETIME_SIGNING.now ≡ dotted (1 ∷ 3 ∷ 6 ∷ 1 ∷ 4 ∷ 1 ∷ 311 ∷ 10 ∷ 3 ∷ 13 ∷ []) }
{
    from_lawful(alloc, &[1, 3, 6, 1, 4, 1, 311, 10, 3, 13])
}

/// `1.3.6.1.4.1.311.20.2.2` (Microsoft, MS-WCCE).
pub const SMART_CARD_LOGON: &'static str = "1.3.6.1.4.1.311.20.2.2";

/// The object identifier `SMART_CARD_LOGON`, `1.3.6.1.4.1.311.20.2.2`.
///
/// # Errors
/// `AllocError` where memory is refused.
pub fn smart_card_logon<A: Allocator>(alloc: A) -> Result<ObjectIdentifier<A>, AllocError>
    ensures arcs { IfOk result (λ o. o ≡ 1 ∷ 3 ∷ 6 ∷ 1 ∷ 4 ∷ 1 ∷ 311 ∷ 20 ∷ 2 ∷ 2 ∷ []) }
    ensures text { SMART_CARD_LOGON.now ≡ dotted (1 ∷ 3 ∷ 6 ∷ 1 ∷ 4 ∷ 1 ∷ 311 ∷ 20 ∷ 2 ∷ 2 ∷ []) }
{
    from_lawful(alloc, &[1, 3, 6, 1, 4, 1, 311, 20, 2, 2])
}

/// `1.3.6.1.4.1.311.20.2.3` (Microsoft, MS-WCCE).
pub const USER_PRINCIPAL_NAME: &'static str = "1.3.6.1.4.1.311.20.2.3";

/// The object identifier `USER_PRINCIPAL_NAME`, `1.3.6.1.4.1.311.20.2.3`.
///
/// # Errors
/// `AllocError` where memory is refused.
pub fn user_principal_name<A: Allocator>(alloc: A) -> Result<ObjectIdentifier<A>, AllocError>
    ensures arcs { IfOk result (λ o. o ≡ 1 ∷ 3 ∷ 6 ∷ 1 ∷ 4 ∷ 1 ∷ 311 ∷ 20 ∷ 2 ∷ 3 ∷ []) }
    ensures text { USER_PRINCIPAL_NAME.now ≡ dotted (1 ∷ 3 ∷ 6 ∷ 1 ∷ 4 ∷ 1 ∷ 311 ∷ 20 ∷ 2 ∷ 3 ∷ []) }
{
    from_lawful(alloc, &[1, 3, 6, 1, 4, 1, 311, 20, 2, 3])
}

/// `1.3.6.1.4.1.311.60.3.2` (Microsoft, Object IDs associated with Microsoft cryptography).
pub const AUTO_UPDATE_END_REVOCATION: &'static str = "1.3.6.1.4.1.311.60.3.2";

/// The object identifier `AUTO_UPDATE_END_REVOCATION`, `1.3.6.1.4.1.311.60.3.2`.
///
/// # Errors
/// `AllocError` where memory is refused.
pub fn auto_update_end_revocation<A: Allocator>(alloc: A) -> Result<ObjectIdentifier<A>, AllocError>
    ensures arcs { IfOk result (λ o. o ≡ 1 ∷ 3 ∷ 6 ∷ 1 ∷ 4 ∷ 1 ∷ 311 ∷ 60 ∷ 3 ∷ 2 ∷ []) }
    ensures text { AUTO_UPDATE_END_REVOCATION.now ≡ dotted (1 ∷ 3 ∷ 6 ∷ 1 ∷ 4 ∷ 1 ∷ 311 ∷ 60 ∷ 3 ∷ 2 ∷ []) }
{
    from_lawful(alloc, &[1, 3, 6, 1, 4, 1, 311, 60, 3, 2])
}

/// `1.3.6.1.4.1.311.74.1` (Microsoft, CNG DPAPI).
pub const PROTECTION_DESCRIPTOR_TYPE: &'static str = "1.3.6.1.4.1.311.74.1";

/// The object identifier `PROTECTION_DESCRIPTOR_TYPE`, `1.3.6.1.4.1.311.74.1`.
///
/// # Errors
/// `AllocError` where memory is refused.
pub fn protection_descriptor_type<A: Allocator>(alloc: A) -> Result<ObjectIdentifier<A>, AllocError>
    ensures arcs { IfOk result (λ o. o ≡ 1 ∷ 3 ∷ 6 ∷ 1 ∷ 4 ∷ 1 ∷ 311 ∷ 74 ∷ 1 ∷ []) }
    ensures text { PROTECTION_DESCRIPTOR_TYPE.now ≡ dotted (1 ∷ 3 ∷ 6 ∷ 1 ∷ 4 ∷ 1 ∷ 311 ∷ 74 ∷ 1 ∷ []) }
{
    from_lawful(alloc, &[1, 3, 6, 1, 4, 1, 311, 74, 1])
}

/// `1.3.6.1.4.1.311.74.1.1` (Microsoft, CNG DPAPI).
pub const SID_PROTECTION_DESCRIPTOR: &'static str = "1.3.6.1.4.1.311.74.1.1";

/// The object identifier `SID_PROTECTION_DESCRIPTOR`, `1.3.6.1.4.1.311.74.1.1`.
///
/// # Errors
/// `AllocError` where memory is refused.
pub fn sid_protection_descriptor<A: Allocator>(alloc: A) -> Result<ObjectIdentifier<A>, AllocError>
    ensures arcs { IfOk result (λ o. o ≡ 1 ∷ 3 ∷ 6 ∷ 1 ∷ 4 ∷ 1 ∷ 311 ∷ 74 ∷ 1 ∷ 1 ∷ []) }
    ensures text { SID_PROTECTION_DESCRIPTOR.now ≡ dotted (1 ∷ 3 ∷ 6 ∷ 1 ∷ 4 ∷ 1 ∷ 311 ∷ 74 ∷ 1 ∷ 1 ∷ []) }
{
    from_lawful(alloc, &[1, 3, 6, 1, 4, 1, 311, 74, 1, 1])
}

/// `1.3.6.1.4.1.311.74.1.2` (Microsoft, CNG DPAPI).
pub const KEY_FILE_PROTECTION_DESCRIPTOR: &'static str = "1.3.6.1.4.1.311.74.1.2";

/// The object identifier `KEY_FILE_PROTECTION_DESCRIPTOR`, `1.3.6.1.4.1.311.74.1.2`.
///
/// # Errors
/// `AllocError` where memory is refused.
pub fn key_file_protection_descriptor<A: Allocator>(
    alloc: A,
) -> Result<ObjectIdentifier<A>, AllocError>
    ensures arcs { IfOk result (λ o. o ≡ 1 ∷ 3 ∷ 6 ∷ 1 ∷ 4 ∷ 1 ∷ 311 ∷ 74 ∷ 1 ∷ 2 ∷ []) }
    ensures text { KEY_FILE_PROTECTION_DESCRIPTOR.now ≡ dotted (1 ∷ 3 ∷ 6 ∷ 1 ∷ 4 ∷ 1 ∷ 311 ∷ 74 ∷ 1 ∷ 2 ∷ []) }
{
    from_lawful(alloc, &[1, 3, 6, 1, 4, 1, 311, 74, 1, 2])
}

/// `1.3.6.1.4.1.311.74.1.5` (Microsoft, CNG DPAPI).
pub const SSDL_PROTECTION_DESCRIPTOR: &'static str = "1.3.6.1.4.1.311.74.1.5";

/// The object identifier `SSDL_PROTECTION_DESCRIPTOR`, `1.3.6.1.4.1.311.74.1.5`.
///
/// # Errors
/// `AllocError` where memory is refused.
pub fn ssdl_protection_descriptor<A: Allocator>(alloc: A) -> Result<ObjectIdentifier<A>, AllocError>
    ensures arcs { IfOk result (λ o. o ≡ 1 ∷ 3 ∷ 6 ∷ 1 ∷ 4 ∷ 1 ∷ 311 ∷ 74 ∷ 1 ∷ 5 ∷ []) }
    ensures text { SSDL_PROTECTION_DESCRIPTOR.now ≡ dotted (1 ∷ 3 ∷ 6 ∷ 1 ∷ 4 ∷ 1 ∷ 311 ∷ 74 ∷ 1 ∷ 5 ∷ []) }
{
    from_lawful(alloc, &[1, 3, 6, 1, 4, 1, 311, 74, 1, 5])
}

/// `1.3.6.1.4.1.311.74.1.8` (Microsoft, CNG DPAPI).
pub const LOCAL_PROTECTION_DESCRIPTOR: &'static str = "1.3.6.1.4.1.311.74.1.8";

/// The object identifier `LOCAL_PROTECTION_DESCRIPTOR`, `1.3.6.1.4.1.311.74.1.8`.
///
/// # Errors
/// `AllocError` where memory is refused.
pub fn local_protection_descriptor<A: Allocator>(
    alloc: A,
) -> Result<ObjectIdentifier<A>, AllocError>
    ensures arcs { IfOk result (λ o. o ≡ 1 ∷ 3 ∷ 6 ∷ 1 ∷ 4 ∷ 1 ∷ 311 ∷ 74 ∷ 1 ∷ 8 ∷ []) }
    ensures text { LOCAL_PROTECTION_DESCRIPTOR.now ≡ dotted (1 ∷ 3 ∷ 6 ∷ 1 ∷ 4 ∷ 1 ∷ 311 ∷ 74 ∷ 1 ∷ 8 ∷ []) }
{
    from_lawful(alloc, &[1, 3, 6, 1, 4, 1, 311, 74, 1, 8])
}

/// `1.3.6.1.4.1.311.10.11.9` (Microsoft, Object IDs associated with Microsoft cryptography).
pub const CERT_ENHKEY_USAGE_PROP_ID: &'static str = "1.3.6.1.4.1.311.10.11.9";

/// The object identifier `CERT_ENHKEY_USAGE_PROP_ID`, `1.3.6.1.4.1.311.10.11.9`.
///
/// # Errors
/// `AllocError` where memory is refused.
pub fn cert_enhkey_usage_prop_id<A: Allocator>(alloc: A) -> Result<ObjectIdentifier<A>, AllocError>
    ensures arcs { IfOk result (λ o. o ≡ 1 ∷ 3 ∷ 6 ∷ 1 ∷ 4 ∷ 1 ∷ 311 ∷ 10 ∷ 11 ∷ 9 ∷ []) }
    ensures text { CERT_ENHKEY_USAGE_PROP_ID.now ≡ dotted (1 ∷ 3 ∷ 6 ∷ 1 ∷ 4 ∷ 1 ∷ 311 ∷ 10 ∷ 11 ∷ 9 ∷ []) }
{
    from_lawful(alloc, &[1, 3, 6, 1, 4, 1, 311, 10, 11, 9])
}

/// `1.3.6.1.4.1.311.10.11.11` (Microsoft, Object IDs associated with Microsoft cryptography).
pub const CERT_FRIENDLY_NAME_PROP_ID: &'static str = "1.3.6.1.4.1.311.10.11.11";

/// The object identifier `CERT_FRIENDLY_NAME_PROP_ID`, `1.3.6.1.4.1.311.10.11.11`.
///
/// # Errors
/// `AllocError` where memory is refused.
pub fn cert_friendly_name_prop_id<A: Allocator>(alloc: A) -> Result<ObjectIdentifier<A>, AllocError>
    ensures arcs { IfOk result (λ o. o ≡ 1 ∷ 3 ∷ 6 ∷ 1 ∷ 4 ∷ 1 ∷ 311 ∷ 10 ∷ 11 ∷ 11 ∷ []) }
    ensures text { CERT_FRIENDLY_NAME_PROP_ID.now ≡ dotted (1 ∷ 3 ∷ 6 ∷ 1 ∷ 4 ∷ 1 ∷ 311 ∷ 10 ∷ 11 ∷ 11 ∷ []) }
{
    from_lawful(alloc, &[1, 3, 6, 1, 4, 1, 311, 10, 11, 11])
}

/// `1.3.6.1.4.1.311.10.11.20` (Microsoft, Object IDs associated with Microsoft cryptography).
pub const CERT_KEY_IDENTIFIER_PROP_ID: &'static str = "1.3.6.1.4.1.311.10.11.20";

/// The object identifier `CERT_KEY_IDENTIFIER_PROP_ID`, `1.3.6.1.4.1.311.10.11.20`.
///
/// # Errors
/// `AllocError` where memory is refused.
pub fn cert_key_identifier_prop_id<A: Allocator>(
    alloc: A,
) -> Result<ObjectIdentifier<A>, AllocError>
    ensures arcs { IfOk result (λ o. o ≡ 1 ∷ 3 ∷ 6 ∷ 1 ∷ 4 ∷ 1 ∷ 311 ∷ 10 ∷ 11 ∷ 20 ∷ []) }
    ensures text { CERT_KEY_IDENTIFIER_PROP_ID.now ≡ dotted (1 ∷ 3 ∷ 6 ∷ 1 ∷ 4 ∷ 1 ∷ 311 ∷ 10 ∷ 11 ∷ 20 ∷ []) }
{
    from_lawful(alloc, &[1, 3, 6, 1, 4, 1, 311, 10, 11, 20])
}

/// `1.3.6.1.4.1.311.10.11.29` (Microsoft, Object IDs associated with Microsoft cryptography).
pub const CERT_SUBJECT_NAME_MD5_HASH_PROP_ID: &'static str = "1.3.6.1.4.1.311.10.11.29";

/// The object identifier `CERT_SUBJECT_NAME_MD5_HASH_PROP_ID`, `1.3.6.1.4.1.311.10.11.29`.
///
/// # Errors
/// `AllocError` where memory is refused.
pub fn cert_subject_name_md5_hash_prop_id<A: Allocator>(
    alloc: A,
) -> Result<ObjectIdentifier<A>, AllocError>
    ensures arcs { IfOk result (λ o. o ≡ 1 ∷ 3 ∷ 6 ∷ 1 ∷ 4 ∷ 1 ∷ 311 ∷ 10 ∷ 11 ∷ 29 ∷ []) }
    ensures text { CERT_SUBJECT_NAME_MD5_HASH_PROP_ID.now ≡ dotted (1 ∷ 3 ∷ 6 ∷ 1 ∷ 4 ∷ 1 ∷ 311 ∷ 10 ∷ 11 ∷ 29 ∷ []) }
{
    from_lawful(alloc, &[1, 3, 6, 1, 4, 1, 311, 10, 11, 29])
}

/// `1.3.6.1.4.1.311.10.11.83` (Microsoft, Object IDs associated with Microsoft cryptography).
pub const CERT_ROOT_PROGRAM_CERT_POLICIES_PROP_ID: &'static str = "1.3.6.1.4.1.311.10.11.83";

/// The object identifier `CERT_ROOT_PROGRAM_CERT_POLICIES_PROP_ID`, `1.3.6.1.4.1.311.10.11.83`.
///
/// # Errors
/// `AllocError` where memory is refused.
pub fn cert_root_program_cert_policies_prop_id<A: Allocator>(
    alloc: A,
) -> Result<ObjectIdentifier<A>, AllocError>
    ensures arcs { IfOk result (λ o. o ≡ 1 ∷ 3 ∷ 6 ∷ 1 ∷ 4 ∷ 1 ∷ 311 ∷ 10 ∷ 11 ∷ 83 ∷ []) }
    ensures text { CERT_ROOT_PROGRAM_CERT_POLICIES_PROP_ID.now ≡ dotted (1 ∷ 3 ∷ 6 ∷ 1 ∷ 4 ∷ 1 ∷ 311 ∷ 10 ∷ 11 ∷ 83 ∷ []) }
{
    from_lawful(alloc, &[1, 3, 6, 1, 4, 1, 311, 10, 11, 83])
}

/// `1.3.6.1.4.1.311.10.11.98` (Microsoft, Object IDs associated with Microsoft cryptography).
pub const CERT_AUTH_ROOT_SHA256_HASH_PROP_ID: &'static str = "1.3.6.1.4.1.311.10.11.98";

/// The object identifier `CERT_AUTH_ROOT_SHA256_HASH_PROP_ID`, `1.3.6.1.4.1.311.10.11.98`.
///
/// # Errors
/// `AllocError` where memory is refused.
pub fn cert_auto_root_sha256_hash_prop_id<A: Allocator>(
    alloc: A,
) -> Result<ObjectIdentifier<A>, AllocError>
    ensures arcs { IfOk result (λ o. o ≡ 1 ∷ 3 ∷ 6 ∷ 1 ∷ 4 ∷ 1 ∷ 311 ∷ 10 ∷ 11 ∷ 98 ∷ []) }
    ensures text { CERT_AUTH_ROOT_SHA256_HASH_PROP_ID.now ≡ dotted (1 ∷ 3 ∷ 6 ∷ 1 ∷ 4 ∷ 1 ∷ 311 ∷ 10 ∷ 11 ∷ 98 ∷ []) }
{
    from_lawful(alloc, &[1, 3, 6, 1, 4, 1, 311, 10, 11, 98])
}

/// `1.3.6.1.4.1.311.10.11.104` (Microsoft, Object IDs associated with Microsoft cryptography).
pub const CERT_DISALLOWED_FILETIME_PROP_ID: &'static str = "1.3.6.1.4.1.311.10.11.104";

/// The object identifier `CERT_DISALLOWED_FILETIME_PROP_ID`, `1.3.6.1.4.1.311.10.11.104`.
///
/// # Errors
/// `AllocError` where memory is refused.
pub fn cert_disallowed_filetime_prop_id<A: Allocator>(
    alloc: A,
) -> Result<ObjectIdentifier<A>, AllocError>
    ensures arcs { IfOk result (λ o. o ≡ 1 ∷ 3 ∷ 6 ∷ 1 ∷ 4 ∷ 1 ∷ 311 ∷ 10 ∷ 11 ∷ 104 ∷ []) }
    ensures text { CERT_DISALLOWED_FILETIME_PROP_ID.now ≡ dotted (1 ∷ 3 ∷ 6 ∷ 1 ∷ 4 ∷ 1 ∷ 311 ∷ 10 ∷ 11 ∷ 104 ∷ []) }
{
    from_lawful(alloc, &[1, 3, 6, 1, 4, 1, 311, 10, 11, 104])
}

/// `1.3.6.1.4.1.311.10.11.105` (Microsoft, Object IDs associated with Microsoft cryptography).
pub const CERT_ROOT_PROGRAM_CHAIN_POLICIES_PROP_ID: &'static str = "1.3.6.1.4.1.311.10.11.105";

/// The object identifier `CERT_ROOT_PROGRAM_CHAIN_POLICIES_PROP_ID`, `1.3.6.1.4.1.311.10.11.105`.
///
/// # Errors
/// `AllocError` where memory is refused.
pub fn cert_root_program_chain_policies_prop_id<A: Allocator>(
    alloc: A,
) -> Result<ObjectIdentifier<A>, AllocError>
    ensures arcs { IfOk result (λ o. o ≡ 1 ∷ 3 ∷ 6 ∷ 1 ∷ 4 ∷ 1 ∷ 311 ∷ 10 ∷ 11 ∷ 105 ∷ []) }
    ensures text { CERT_ROOT_PROGRAM_CHAIN_POLICIES_PROP_ID.now ≡ dotted (1 ∷ 3 ∷ 6 ∷ 1 ∷ 4 ∷ 1 ∷ 311 ∷ 10 ∷ 11 ∷ 105 ∷ []) }
{
    from_lawful(alloc, &[1, 3, 6, 1, 4, 1, 311, 10, 11, 105])
}

/// `1.3.6.1.4.1.311.10.11.122` (Microsoft, Object IDs associated with Microsoft cryptography).
pub const DISALLOWED_ENHKEY_USAGE: &'static str = "1.3.6.1.4.1.311.10.11.122";

/// The object identifier `DISALLOWED_ENHKEY_USAGE`, `1.3.6.1.4.1.311.10.11.122`.
///
/// # Errors
/// `AllocError` where memory is refused.
pub fn disallowed_enhkey_usage<A: Allocator>(alloc: A) -> Result<ObjectIdentifier<A>, AllocError>
    ensures arcs { IfOk result (λ o. o ≡ 1 ∷ 3 ∷ 6 ∷ 1 ∷ 4 ∷ 1 ∷ 311 ∷ 10 ∷ 11 ∷ 122 ∷ []) }
    ensures text { DISALLOWED_ENHKEY_USAGE.now ≡ dotted (1 ∷ 3 ∷ 6 ∷ 1 ∷ 4 ∷ 1 ∷ 311 ∷ 10 ∷ 11 ∷ 122 ∷ []) }
{
    from_lawful(alloc, &[1, 3, 6, 1, 4, 1, 311, 10, 11, 122])
}

/// `1.3.6.1.4.1.311.10.11.126` (Microsoft, Object IDs associated with Microsoft cryptography).
pub const UNKNOWN_RESERVED_PROP_ID_126: &'static str = "1.3.6.1.4.1.311.10.11.126";

/// The object identifier `UNKNOWN_RESERVED_PROP_ID_126`, `1.3.6.1.4.1.311.10.11.126`.
///
/// # Errors
/// `AllocError` where memory is refused.
pub fn unknown_reserved_prop_id_126<A: Allocator>(
    alloc: A,
) -> Result<ObjectIdentifier<A>, AllocError>
    ensures arcs { IfOk result (λ o. o ≡ 1 ∷ 3 ∷ 6 ∷ 1 ∷ 4 ∷ 1 ∷ 311 ∷ 10 ∷ 11 ∷ 126 ∷ []) }
    ensures text { UNKNOWN_RESERVED_PROP_ID_126.now ≡ dotted (1 ∷ 3 ∷ 6 ∷ 1 ∷ 4 ∷ 1 ∷ 311 ∷ 10 ∷ 11 ∷ 126 ∷ []) }
{
    from_lawful(alloc, &[1, 3, 6, 1, 4, 1, 311, 10, 11, 126])
}

/// `1.3.6.1.4.1.311.10.11.127` (Microsoft, Object IDs associated with Microsoft cryptography).
pub const UNKNOWN_RESERVED_PROP_ID_127: &'static str = "1.3.6.1.4.1.311.10.11.127";

/// The object identifier `UNKNOWN_RESERVED_PROP_ID_127`, `1.3.6.1.4.1.311.10.11.127`.
///
/// # Errors
/// `AllocError` where memory is refused.
pub fn unknown_reserved_prop_id_127<A: Allocator>(
    alloc: A,
) -> Result<ObjectIdentifier<A>, AllocError>
    ensures arcs { IfOk result (λ o. o ≡ 1 ∷ 3 ∷ 6 ∷ 1 ∷ 4 ∷ 1 ∷ 311 ∷ 10 ∷ 11 ∷ 127 ∷ []) }
    ensures text { UNKNOWN_RESERVED_PROP_ID_127.now ≡ dotted (1 ∷ 3 ∷ 6 ∷ 1 ∷ 4 ∷ 1 ∷ 311 ∷ 10 ∷ 11 ∷ 127 ∷ []) }
{
    from_lawful(alloc, &[1, 3, 6, 1, 4, 1, 311, 10, 11, 127])
}

/// `1.2.840.113554.1.2.2` (RFC 4121, 1).
pub const KRB5: &'static str = "1.2.840.113554.1.2.2";

/// The object identifier `KRB5`, `1.2.840.113554.1.2.2`.
///
/// # Errors
/// `AllocError` where memory is refused.
pub fn krb5<A: Allocator>(alloc: A) -> Result<ObjectIdentifier<A>, AllocError>
    ensures arcs { IfOk result (λ o. o ≡ 1 ∷ 2 ∷ 840 ∷ 113554 ∷ 1 ∷ 2 ∷ 2 ∷ []) }
    ensures text { KRB5.now ≡ dotted (1 ∷ 2 ∷ 840 ∷ 113554 ∷ 1 ∷ 2 ∷ 2 ∷ []) }
{
    from_lawful(alloc, &[1, 2, 840, 113554, 1, 2, 2])
}

/// `1.2.840.113554.1.2.2.3` (Kerberos user-to-user authentication (GSS-API, draft)).
pub const KRB5_USER_TO_USER: &'static str = "1.2.840.113554.1.2.2.3";

/// The object identifier `KRB5_USER_TO_USER`, `1.2.840.113554.1.2.2.3`.
///
/// # Errors
/// `AllocError` where memory is refused.
pub fn krb5_user_to_user<A: Allocator>(alloc: A) -> Result<ObjectIdentifier<A>, AllocError>
    ensures arcs { IfOk result (λ o. o ≡ 1 ∷ 2 ∷ 840 ∷ 113554 ∷ 1 ∷ 2 ∷ 2 ∷ 3 ∷ []) }
    ensures text { KRB5_USER_TO_USER.now ≡ dotted (1 ∷ 2 ∷ 840 ∷ 113554 ∷ 1 ∷ 2 ∷ 2 ∷ 3 ∷ []) }
{
    from_lawful(alloc, &[1, 2, 840, 113554, 1, 2, 2, 3])
}

/// `1.2.840.48018.1.2.2` (Microsoft, MS-SPNG).
pub const MS_KRB5: &'static str = "1.2.840.48018.1.2.2";

/// The object identifier `MS_KRB5`, `1.2.840.48018.1.2.2`.
///
/// # Errors
/// `AllocError` where memory is refused.
pub fn ms_krb5<A: Allocator>(alloc: A) -> Result<ObjectIdentifier<A>, AllocError>
    ensures arcs { IfOk result (λ o. o ≡ 1 ∷ 2 ∷ 840 ∷ 48018 ∷ 1 ∷ 2 ∷ 2 ∷ []) }
    ensures text { MS_KRB5.now ≡ dotted (1 ∷ 2 ∷ 840 ∷ 48018 ∷ 1 ∷ 2 ∷ 2 ∷ []) }
{
    from_lawful(alloc, &[1, 2, 840, 48018, 1, 2, 2])
}

/// `1.3.6.1.5.2.3.1` (RFC 4556, 3.1.3).
pub const PKINIT_AUTH_DATA: &'static str = "1.3.6.1.5.2.3.1";

/// The object identifier `PKINIT_AUTH_DATA`, `1.3.6.1.5.2.3.1`.
///
/// # Errors
/// `AllocError` where memory is refused.
pub fn pkinit_auth_data<A: Allocator>(alloc: A) -> Result<ObjectIdentifier<A>, AllocError>
    ensures arcs { IfOk result (λ o. o ≡ 1 ∷ 3 ∷ 6 ∷ 1 ∷ 5 ∷ 2 ∷ 3 ∷ 1 ∷ []) }
    ensures text { PKINIT_AUTH_DATA.now ≡ dotted (1 ∷ 3 ∷ 6 ∷ 1 ∷ 5 ∷ 2 ∷ 3 ∷ 1 ∷ []) }
{
    from_lawful(alloc, &[1, 3, 6, 1, 5, 2, 3, 1])
}

/// `1.3.6.1.5.2.3.2` (RFC 4556, 3.1.3).
pub const PKINIT_DH_KEY_DATA: &'static str = "1.3.6.1.5.2.3.2";

/// The object identifier `PKINIT_DH_KEY_DATA`, `1.3.6.1.5.2.3.2`.
///
/// # Errors
/// `AllocError` where memory is refused.
pub fn kpinit_dh_key_data<A: Allocator>(alloc: A) -> Result<ObjectIdentifier<A>, AllocError>
    ensures arcs { IfOk result (λ o. o ≡ 1 ∷ 3 ∷ 6 ∷ 1 ∷ 5 ∷ 2 ∷ 3 ∷ 2 ∷ []) }
    ensures text { PKINIT_DH_KEY_DATA.now ≡ dotted (1 ∷ 3 ∷ 6 ∷ 1 ∷ 5 ∷ 2 ∷ 3 ∷ 2 ∷ []) }
{
    from_lawful(alloc, &[1, 3, 6, 1, 5, 2, 3, 2])
}

/// `1.3.6.1.5.2.5` (Initial and pass-through authentication using Kerberos (IAKERB, draft)).
pub const IAKERB5: &'static str = "1.3.6.1.5.2.5";

/// The object identifier `IAKERB5`, `1.3.6.1.5.2.5`.
///
/// # Errors
/// `AllocError` where memory is refused.
pub fn iakerb5<A: Allocator>(alloc: A) -> Result<ObjectIdentifier<A>, AllocError>
    ensures arcs { IfOk result (λ o. o ≡ 1 ∷ 3 ∷ 6 ∷ 1 ∷ 5 ∷ 2 ∷ 5 ∷ []) }
    ensures text { IAKERB5.now ≡ dotted (1 ∷ 3 ∷ 6 ∷ 1 ∷ 5 ∷ 2 ∷ 5 ∷ []) }
{
    from_lawful(alloc, &[1, 3, 6, 1, 5, 2, 5])
}

/// `1.3.6.1.5.2.7` (Public key cryptography based user-to-user authentication (PKU2U, draft)).
pub const GSS_PKU2U: &'static str = "1.3.6.1.5.2.7";

/// The object identifier `GSS_PKU2U`, `1.3.6.1.5.2.7`.
///
/// # Errors
/// `AllocError` where memory is refused.
pub fn gss_pku2u<A: Allocator>(alloc: A) -> Result<ObjectIdentifier<A>, AllocError>
    ensures arcs { IfOk result (λ o. o ≡ 1 ∷ 3 ∷ 6 ∷ 1 ∷ 5 ∷ 2 ∷ 7 ∷ []) }
    ensures text { GSS_PKU2U.now ≡ dotted (1 ∷ 3 ∷ 6 ∷ 1 ∷ 5 ∷ 2 ∷ 7 ∷ []) }
{
    from_lawful(alloc, &[1, 3, 6, 1, 5, 2, 7])
}

/// `1.3.6.1.5.5.2` (RFC 4178, 3).
pub const SPNEGO: &'static str = "1.3.6.1.5.5.2";

/// The object identifier `SPNEGO`, `1.3.6.1.5.5.2`.
///
/// # Errors
/// `AllocError` where memory is refused.
pub fn spnego<A: Allocator>(alloc: A) -> Result<ObjectIdentifier<A>, AllocError>
    ensures arcs { IfOk result (λ o. o ≡ 1 ∷ 3 ∷ 6 ∷ 1 ∷ 5 ∷ 5 ∷ 2 ∷ []) }
    ensures text { SPNEGO.now ≡ dotted (1 ∷ 3 ∷ 6 ∷ 1 ∷ 5 ∷ 5 ∷ 2 ∷ []) }
{
    from_lawful(alloc, &[1, 3, 6, 1, 5, 5, 2])
}
