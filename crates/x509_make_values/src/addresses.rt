//! Addresses of the internet protocol.

ghost use Rattle.std.specs.Prelude.{OnOk};
ghost use Rattle.x509_make_parts.specs.Appending.{AppendsElement};

use crate::octets::octets;
use json::Value;
use std::alloc::Allocator;
use std::net::{Ipv4Addr, Ipv6Addr};
use x509_make_parts::node::{check_leaf, text_of};
use x509_make_parts::{Done, Fault, Maker};

/// Appends the 4 or 16 bytes of an address as people write it, under a tag (RFC 5280, 4.2.1.6).
///
/// # Errors
/// `Not` where it is none.
pub fn address_text<A: Allocator + Copy>(maker: &mut Maker<A>, tag: u8, text: &str) -> Done
    ensures { OnOk result (AppendsElement tag maker.old.out.items maker.new.out.items) }
{
    if let Ok(address) = Ipv4Addr::parse_ascii(text.as_bytes()) {
        return maker.element(tag, &address.octets());
    }
    match Ipv6Addr::parse_ascii(text.as_bytes()) {
        Ok(address) => maker.element(tag, &address.octets()),
        Err(_) => Err(Fault::Not("an address")),
    }
}

/// Appends the address that a node says, under a tag; or bytes in hexadecimal, where its member `length` tells how many
/// there are.
///
/// # Errors
/// `Not` where it says none, and those of `check_leaf`.
pub fn address<A: Allocator + Copy>(maker: &mut Maker<A>, tag: u8, node: &Value<'_, A>) -> Done
    ensures { OnOk result (AppendsElement tag maker.old.out.items maker.new.out.items) }
{
    if node.get("length").is_some() {
        return octets(maker, tag, node);
    }
    check_leaf(&mut maker.place, node)?;
    let text = text_of(node, "an address")?;
    address_text(maker, tag, text)
}
