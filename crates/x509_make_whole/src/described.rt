//! What a description describes.

ghost use Rattle.std.specs.Prelude.{OnOk};
ghost use Rattle.x509_make_parts.specs.Appending.{Appends};

use crate::made::Made;
use json::Value;
use std::alloc::Allocator;
use x509_make_fields::certificates::{certificate, tbs_certificate};
use x509_make_fields::extensions::extensions;
use x509_make_fields::keys::{public_key, rsa_public_key};
use x509_make_fields::requests::{request, request_info};
use x509_make_fields::short_certificates::short_certificate;
use x509_make_fields::short_requests::short_request;
use x509_make_keys::algorithms::{algorithm, raw_algorithm};
use x509_make_keys::private_keys::{ec_private_key, private_key_info, rsa_private_key};
use x509_make_names::names::name;
use x509_make_parts::node::text_of;
use x509_make_parts::{Done, Fault, Maker};
use x509_make_values::Fields;

/// The members of a report that say what it is of, and how it was read.
const HEAD: [&'static str; 12] = [
    "type",
    "file",
    "line",
    "label",
    "length",
    "result",
    "deviations",
    "signed",
    "sha256",
    "sha1",
    "pin",
    "validity",
];

/// Appends a structure by its fields.
fn structure<A: Allocator + Copy>(maker: &mut Maker<A>, made: Made, node: &Value<'_, A>) -> Done
    ensures { OnOk result (Appends maker.old.out.items maker.new.out.items) }
{
    match made {
        Made::RequestInfo => request_info(maker, node),
        Made::TbsCertificate => tbs_certificate(maker, node),
        Made::Certificate => certificate(maker, node),
        Made::Request => request(maker, node),
        Made::PublicKey => public_key(maker, node),
        Made::RsaPublicKey => rsa_public_key(maker, node),
        Made::Name => name(maker, node),
        Made::Extensions => extensions(maker, node),
        Made::Algorithm => algorithm(maker, node),
        Made::RawAlgorithm => raw_algorithm(maker, node),
        Made::PrivateKey => private_key_info(maker, node),
        Made::RsaPrivateKey => rsa_private_key(maker, node),
        Made::EcPrivateKey => ec_private_key(maker, node),
    }
}

/// Appends a structure that is described by the member with its title.
fn by_fields<A: Allocator + Copy>(maker: &mut Maker<A>, made: Made, root: &Value<'_, A>) -> Done
    ensures { OnOk result (Appends maker.old.out.items maker.new.out.items) }
{
    let mut fields = Fields::of(&mut maker.place, root)?;
    fields.pass(&HEAD);
    let start = maker.open();
    let node = fields.need(&mut maker.place, made.title())?;
    structure(maker, made, node)?;
    maker.leave_from(start)?;
    fields.finish(&mut maker.place)
}

/// Appends a structure of a short description.
fn in_short<A: Allocator + Copy>(maker: &mut Maker<A>, made: Made, root: &Value<'_, A>) -> Done
    ensures { OnOk result (Appends maker.old.out.items maker.new.out.items) }
{
    match made {
        Made::RequestInfo => short_request(maker, root),
        Made::TbsCertificate => short_certificate(maker, root),
        Made::Request if root.get("subject").is_some() => Err(Fault::Said(
            "for what is signed of a request write \"type\": \"request-info\"",
        )),
        Made::Certificate if root.get("subject").is_some() => Err(Fault::Said(
            "for what is signed of a certificate write \"type\": \"tbs-certificate\"",
        )),
        _ => Err(Fault::Missing(made.title())),
    }
}

/// What a description is of, by its member `type`.
fn made_by<A: Allocator + Copy>(maker: &mut Maker<A>, root: &Value<'_, A>) -> Result<Made, Fault> {
    let mut fields = Fields::of(&mut maker.place, root)?;
    let kind = fields.need(&mut maker.place, "type")?;
    let text = text_of(kind, "a type")?;
    match Made::from_name(text) {
        Some(made) => {
            maker.place.leave();
            Ok(made)
        }
        None => Err(Fault::Not("a type that is made, as request-info or tbs-certificate")),
    }
}

/// Appends what a description says, and answers what it is. It is in DER only where what reads it says so.
///
/// # Errors
/// What is wrong; the maker's place says where.
pub(crate) fn described<A: Allocator + Copy>(
    maker: &mut Maker<A>,
    root: &Value<'_, A>,
) -> Result<Made, Fault> {
    let made = made_by(maker, root)?;
    if root.get(made.title()).is_some() {
        by_fields(maker, made, root)?;
    } else {
        in_short(maker, made, root)?;
    }
    Ok(made)
}
