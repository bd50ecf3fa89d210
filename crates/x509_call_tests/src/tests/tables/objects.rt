//! The object identifiers of other objects, beside their texts.

use super::Checked;
use std::alloc::Allocator;
use x509_oids_objects as oids;

fn lines_1<A: Allocator + Copy>(alloc: A, checked: &mut Checked) {
    lines! { checked, alloc:
        CONTENT_INFO_TYPE_DATA content_info_type_data "1.2.840.113549.1.7.1";
        SIGNED_DATA signed_data "1.2.840.113549.1.7.2";
        ENVELOPED_DATA enveloped_data "1.2.840.113549.1.7.3";
        CONTENT_INFO_TYPE_ENCRYPTED_DATA content_info_type_encrypted_data "1.2.840.113549.1.7.6";
        EMAIL_ADDRESS email_address "1.2.840.113549.1.9.1";
        CONTENT_TYPE content_type "1.2.840.113549.1.9.3";
        MESSAGE_DIGEST message_digest "1.2.840.113549.1.9.4";
        SIGNING_TIME signing_time "1.2.840.113549.1.9.5";
        COUNTER_SIGN counter_sign "1.2.840.113549.1.9.6";
        EXTENSION_REQ extension_request "1.2.840.113549.1.9.14";
        ATTRIBUTE_PKCS12_FRIENDLY_NAME attribute_pkcs12_friendly_name "1.2.840.113549.1.9.20";
        ATTRIBUTE_PKCS12_LOCAL_KEY_ID attribute_pkcs12_local_key_id "1.2.840.113549.1.9.21";
        CERT_SAFE_BAG_TYPE_X509 cert_safe_bag_type_x509 "1.2.840.113549.1.9.22.1";
        CRL_SAFE_BAG_TYPE_X509 crl_safe_bag_type_x509 "1.2.840.113549.1.9.23.1";
        PKCS12_PBE_WITH_SHA_AND_3_KEY_TRIPLE_DES_CBC pkcs12_pbe_with_sha_and_3_key_triple_des_cbc "1.2.840.113549.1.12.1.3";
        PKCS12_PBE_WITH_SHA_AND_40_BIT_RC2_CBC pkcs12_pbe_with_sha_and_40_bit_rc2_cbc "1.2.840.113549.1.12.1.6";
    }
}

fn lines_2<A: Allocator + Copy>(alloc: A, checked: &mut Checked) {
    lines! { checked, alloc:
        SAFE_BAG_TYPE_KEY safe_bag_type_key "1.2.840.113549.1.12.10.1.1";
        SAFE_BAG_TYPE_SHROUDED_KEY safe_bag_type_shrouded_key "1.2.840.113549.1.12.10.1.2";
        SAFE_BAG_TYPE_CERT safe_bag_type_cert "1.2.840.113549.1.12.10.1.3";
        SAFE_BAG_TYPE_CRL safe_bag_type_crl "1.2.840.113549.1.12.10.1.4";
        SAFE_BAG_TYPE_SECRET safe_bag_type_secret "1.2.840.113549.1.12.10.1.5";
        SAFE_BAG_TYPE_SAFE_CONTENTS safe_bag_type_safe_contents "1.2.840.113549.1.12.10.1.6";
        KP_SERVER_AUTH kp_server_auth "1.3.6.1.5.5.7.3.1";
        KP_CLIENT_AUTH kp_client_auth "1.3.6.1.5.5.7.3.2";
        KP_CODE_SIGNING kp_code_signing "1.3.6.1.5.5.7.3.3";
        KP_EMAIL_PROTECTION kp_email_protection "1.3.6.1.5.5.7.3.4";
        KP_IPSEC_END_SYSTEM kp_ipsec_end_system "1.3.6.1.5.5.7.3.5";
        KP_IPSPEC_TUNNEL kp_ipsec_tunnel "1.3.6.1.5.5.7.3.6";
        KP_IPSEC_USER kp_ipsec_user "1.3.6.1.5.5.7.3.7";
        KP_TIME_STAMPING kp_time_stamping "1.3.6.1.5.5.7.3.8";
        KP_OCSP_SIGNING kp_ocsp_signing "1.3.6.1.5.5.7.3.9";
        SUBJECT_KEY_IDENTIFIER subject_key_identifier "2.5.29.14";
    }
}

fn lines_3<A: Allocator + Copy>(alloc: A, checked: &mut Checked) {
    lines! { checked, alloc:
        KEY_USAGE key_usage "2.5.29.15";
        SUBJECT_ALTERNATIVE_NAME subject_alternative_name "2.5.29.17";
        ISSUER_ALTERNATIVE_NAME issuer_alternative_name "2.5.29.18";
        BASIC_CONSTRAINTS basic_constraints "2.5.29.19";
        CRL_NUMBER crl_number "2.5.29.20";
        AUTHORITY_KEY_IDENTIFIER authority_key_identifier "2.5.29.35";
        EXTENDED_KEY_USAGE extended_key_usage "2.5.29.37";
        KP_ANY_EXTENDED_KEY_USAGE kp_any_extended_key_usage "2.5.29.37.0";
        AT_COMMON_NAME at_common_name "2.5.4.3";
        AT_SURNAME at_surname "2.5.4.4";
        AT_SERIAL_NUMBER at_serial_number "2.5.4.5";
        AT_COUNTRY_NAME at_country_name "2.5.4.6";
        AT_LOCALITY_NAME at_locality_name "2.5.4.7";
        AT_STATE_OR_PROVINCE_NAME at_state_or_province_name "2.5.4.8";
        AT_STREET_NAME at_street_name "2.5.4.9";
        AT_ORGANIZATION_NAME at_organization_name "2.5.4.10";
    }
}

fn lines_4<A: Allocator + Copy>(alloc: A, checked: &mut Checked) {
    lines! { checked, alloc:
        AT_ORGANIZATIONAL_UNIT_NAME at_organizational_unit_name "2.5.4.11";
        AT_PHONE at_phone "2.5.4.20";
        AT_GIVENNAME at_given_name "2.5.4.42";
        SPC_INDIRECT_DATA_OBJID spc_indirect_data_objid "1.3.6.1.4.1.311.2.1.4";
        SPC_STATEMENT_TYPE spc_statement_type "1.3.6.1.4.1.311.2.1.11";
        SPC_SP_OPUS_INFO_OBJID spc_sp_opus_info_objid "1.3.6.1.4.1.311.2.1.12";
        SPC_PE_IMAGE_DATAOBJ spc_pe_image_dataobj "1.3.6.1.4.1.311.2.1.15";
        SPC_SIPINFO_OBJID spc_sip_info_objid "1.3.6.1.4.1.311.2.1.30";
        NTLM_SSP ntlm_ssp "1.3.6.1.4.1.311.2.2.10";
        NEGOEX negoex "1.3.6.1.4.1.311.2.2.30";
        TIMESTAMP_REQUEST timestamp_request "1.3.6.1.4.1.311.3.2.1";
        MS_COUNTER_SIGN ms_counter_signature "1.3.6.1.4.1.311.3.3.1";
        CERT_TRUST_LIST cert_trust_list "1.3.6.1.4.1.311.10.1";
        ROOT_LIST_SIGNER root_list_signer "1.3.6.1.4.1.311.10.3.9";
        KP_LIFETIME_SIGNING kp_lifetime_signing "1.3.6.1.4.1.311.10.3.13";
        SMART_CARD_LOGON smart_card_logon "1.3.6.1.4.1.311.20.2.2";
    }
}

fn lines_5<A: Allocator + Copy>(alloc: A, checked: &mut Checked) {
    lines! { checked, alloc:
        USER_PRINCIPAL_NAME user_principal_name "1.3.6.1.4.1.311.20.2.3";
        AUTO_UPDATE_END_REVOCATION auto_update_end_revocation "1.3.6.1.4.1.311.60.3.2";
        PROTECTION_DESCRIPTOR_TYPE protection_descriptor_type "1.3.6.1.4.1.311.74.1";
        SID_PROTECTION_DESCRIPTOR sid_protection_descriptor "1.3.6.1.4.1.311.74.1.1";
        KEY_FILE_PROTECTION_DESCRIPTOR key_file_protection_descriptor "1.3.6.1.4.1.311.74.1.2";
        SSDL_PROTECTION_DESCRIPTOR ssdl_protection_descriptor "1.3.6.1.4.1.311.74.1.5";
        LOCAL_PROTECTION_DESCRIPTOR local_protection_descriptor "1.3.6.1.4.1.311.74.1.8";
        CERT_ENHKEY_USAGE_PROP_ID cert_enhkey_usage_prop_id "1.3.6.1.4.1.311.10.11.9";
        CERT_FRIENDLY_NAME_PROP_ID cert_friendly_name_prop_id "1.3.6.1.4.1.311.10.11.11";
        CERT_KEY_IDENTIFIER_PROP_ID cert_key_identifier_prop_id "1.3.6.1.4.1.311.10.11.20";
        CERT_SUBJECT_NAME_MD5_HASH_PROP_ID cert_subject_name_md5_hash_prop_id "1.3.6.1.4.1.311.10.11.29";
        CERT_ROOT_PROGRAM_CERT_POLICIES_PROP_ID cert_root_program_cert_policies_prop_id "1.3.6.1.4.1.311.10.11.83";
        CERT_AUTH_ROOT_SHA256_HASH_PROP_ID cert_auto_root_sha256_hash_prop_id "1.3.6.1.4.1.311.10.11.98";
        CERT_DISALLOWED_FILETIME_PROP_ID cert_disallowed_filetime_prop_id "1.3.6.1.4.1.311.10.11.104";
        CERT_ROOT_PROGRAM_CHAIN_POLICIES_PROP_ID cert_root_program_chain_policies_prop_id "1.3.6.1.4.1.311.10.11.105";
        DISALLOWED_ENHKEY_USAGE disallowed_enhkey_usage "1.3.6.1.4.1.311.10.11.122";
    }
}

fn lines_6<A: Allocator + Copy>(alloc: A, checked: &mut Checked) {
    lines! { checked, alloc:
        UNKNOWN_RESERVED_PROP_ID_126 unknown_reserved_prop_id_126 "1.3.6.1.4.1.311.10.11.126";
        UNKNOWN_RESERVED_PROP_ID_127 unknown_reserved_prop_id_127 "1.3.6.1.4.1.311.10.11.127";
        KRB5 krb5 "1.2.840.113554.1.2.2";
        KRB5_USER_TO_USER krb5_user_to_user "1.2.840.113554.1.2.2.3";
        MS_KRB5 ms_krb5 "1.2.840.48018.1.2.2";
        PKINIT_AUTH_DATA pkinit_auth_data "1.3.6.1.5.2.3.1";
        PKINIT_DH_KEY_DATA kpinit_dh_key_data "1.3.6.1.5.2.3.2";
        IAKERB5 iakerb5 "1.3.6.1.5.2.5";
        GSS_PKU2U gss_pku2u "1.3.6.1.5.2.7";
        SPNEGO spnego "1.3.6.1.5.5.2";
    }
}

/// Each line in turn.
pub(super) fn lines<A: Allocator + Copy>(alloc: A, checked: &mut Checked) {
    lines_1(alloc, checked);
    lines_2(alloc, checked);
    lines_3(alloc, checked);
    lines_4(alloc, checked);
    lines_5(alloc, checked);
    lines_6(alloc, checked);
}
