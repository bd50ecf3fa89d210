//! Where the fields of outlines and of revocation lists stand.

ghost use Rattle.x509_flat.specs.Fields.{CertificateOutlineTold, PrivateKeyOutlineTold, RequestOutlineTold, RevocationListTold};
ghost use Rattle.cimaroly_c.specs.Exports.{Answers, Arena};

use bumpalo::Bump;
use lent_memory::{Lent, OneBlock};
use x509_flat::certificate_fields::{FlatCertificate, certificate_outline_fields};
use x509_flat::list_fields::{FlatList, list_fields};
use x509_flat::private_key_fields::{FlatPrivateKey, private_key_outline_fields};
use x509_flat::request_fields::{FlatRequest, request_outline_fields};

/// Where the fields of a certificate of any algorithm stand.
#[unsafe(no_mangle)]
pub extern "C" fn cimaroly_certificate_outline_fields(
    der: &[u8],
    fields: &mut FlatCertificate,
) -> u32
    ensures { Answers result (λ status. CertificateOutlineTold Arena der.now status fields.new) }
{
    let mut nothing = Lent::nothing();
    let block = OneBlock::from_mut(&mut nothing);
    let arena = Bump::new(&block);
    let answer = certificate_outline_fields(&arena, der);
    *fields = answer.fields;
    answer.status.number()
}

/// Where the fields of a request of any algorithm stand.
#[unsafe(no_mangle)]
pub extern "C" fn cimaroly_request_outline_fields(der: &[u8], fields: &mut FlatRequest) -> u32
    ensures { Answers result (λ status. RequestOutlineTold Arena der.now status fields.new) }
{
    let mut nothing = Lent::nothing();
    let block = OneBlock::from_mut(&mut nothing);
    let arena = Bump::new(&block);
    let answer = request_outline_fields(&arena, der);
    *fields = answer.fields;
    answer.status.number()
}

/// Where the fields of a private key of any algorithm stand.
#[unsafe(no_mangle)]
pub extern "C" fn cimaroly_private_key_outline_fields(
    der: &[u8],
    fields: &mut FlatPrivateKey,
) -> u32
    ensures { Answers result (λ status. PrivateKeyOutlineTold Arena der.now status fields.new) }
{
    let mut nothing = Lent::nothing();
    let block = OneBlock::from_mut(&mut nothing);
    let arena = Bump::new(&block);
    let answer = private_key_outline_fields(&arena, der);
    *fields = answer.fields;
    answer.status.number()
}

/// Where the fields of a revocation list stand.
#[unsafe(no_mangle)]
pub extern "C" fn cimaroly_crl_fields(der: &[u8], fields: &mut FlatList) -> u32
    ensures { Answers result (λ status. RevocationListTold Arena der.now status fields.new) }
{
    let mut nothing = Lent::nothing();
    let block = OneBlock::from_mut(&mut nothing);
    let arena = Bump::new(&block);
    let answer = list_fields(&arena, der);
    *fields = answer.fields;
    answer.status.number()
}
