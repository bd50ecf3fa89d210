//! Key usages (RFC 5280, 4.2.1.3).

ghost use Rattle.std.specs.Prelude.{OnOk};
ghost use Rattle.x509_make_parts.specs.Appending.{AppendsElement};

use json::Value;
use std::alloc::Allocator;
use x509_der::BitString;
use x509_make_parts::{Done, Fault, Maker, Place};

/// The place of the bit of a usage.
fn bit_of(name: &str) -> Option<usize> {
    match name {
        "digitalSignature" => Some(0),
        "nonRepudiation" | "contentCommitment" => Some(1),
        "keyEncipherment" => Some(2),
        "dataEncipherment" => Some(3),
        "keyAgreement" => Some(4),
        "keyCertSign" => Some(5),
        "cRLSign" => Some(6),
        "encipherOnly" => Some(7),
        "decipherOnly" => Some(8),
        _ => None,
    }
}

/// Sets the bits of the usages that are named, and answers how many bits there are up to the last.
fn set_bits<A: Allocator + Copy>(
    place: &mut Place,
    string: &mut BitString<A>,
    names: &[Value<'_, A>],
) -> Result<usize, Fault> {
    let mut needed = 0;
    for (index, name) in names.iter().enumerate() {
        place.enter(index);
        let Some(bit) = bit_of(name.as_str().unwrap_or("")) else {
            return Err(Fault::Not("a key usage, as digitalSignature"));
        };
        string.set(bit, true);
        if bit >= needed {
            needed = bit.saturating_add(1);
        }
        place.leave();
    }
    Ok(needed)
}

/// How many bits a key usage has: as many as are told, or up to the last that is set (X.690, 11.2.2).
fn count_of(told: Option<u64>, needed: usize) -> Result<usize, Fault> {
    match told {
        None => Ok(needed),
        Some(count) if needed as u64 <= count && count <= 16 => Ok(count as usize),
        Some(_) => Err(Fault::Said("bits doesn't fit value")),
    }
}

/// Appends a `KeyUsage` by the names of its usages, of as many bits as are told, or up to the last that is set.
///
/// # Errors
/// `Not` where there is no list of usages, `Said` where the number of bits doesn't fit.
pub fn key_usage<A: Allocator + Copy>(
    maker: &mut Maker<A>,
    list: &Value<'_, A>,
    told: Option<u64>,
) -> Done
    ensures { OnOk result (AppendsElement 3 maker.old.out.items maker.new.out.items) }
{
    let Value::Array(names) = list else {
        return Err(Fault::Not("a list of key usages"));
    };
    let Ok(mut string) = BitString::with_len(maker.alloc, 16) else {
        return Err(Fault::OutOfMemory);
    };
    let needed = set_bits(&mut maker.place, &mut string, names.as_slice())?;
    let count = count_of(told, needed)?;
    if string.set_num_bits(count).is_err() {
        return Err(Fault::OutOfMemory);
    }
    let start = maker.open();
    maker.put(&[string.get_num_unused_bits()])?;
    maker.put(string.payload_view())?;
    maker.close(start, 0x03)
}
