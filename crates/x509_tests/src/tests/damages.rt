//! Damages of encodings, and the refusal that each must come to.

use std::alloc::Global;
use std::process::Abort;
use x509_der::{FromDer, ReadError, Refused, read_explained};

/// The byte that is damaged, what stands in its place, and the error with its place.
pub(crate) type Damage = (usize, u8, ReadError, usize);

/// An encoding in hexadecimal, and damages of it, each by itself.
pub(crate) type Damaged = (&'static str, &'static [Damage]);

/// The bytes are refused as is stated.
pub(crate) fn is_refused<T: FromDer<Global>>(
    rt: &impl Abort,
    alloc: Global,
    bytes: &[u8],
    stated: Refused,
) {
    let found = read_explained::<T, Global>(alloc, bytes).err();
    assert!(rt; found == Some(stated), "{found:?} and not {stated:?}");
}

/// The bytes are refused at a place.
fn is_refused_at<T: FromDer<Global>>(rt: &impl Abort, alloc: Global, bytes: &[u8], at: usize) {
    let found = read_explained::<T, Global>(alloc, bytes).err();
    let place = found.map(|refused| refused.at);
    assert!(rt; place == Some(at), "{found:?} and not at byte {at}");
}

/// An encoding that is cut off anywhere is refused at its first byte, whose element doesn't end; and one with a byte behind it
/// at that byte.
fn cut_or_longer_is_refused<T: FromDer<Global>>(rt: &impl Abort, alloc: Global, bytes: &[u8]) {
    for count in 0..bytes.len() {
        is_refused_at::<T>(rt, alloc, bytes.get(..count).expect(rt, "a front"), 0);
    }
    let mut longer = Vec::new(alloc);
    longer.extend_from_slice(bytes).expect(rt, "memory");
    longer.push(0).expect(rt, "memory");
    let stated = Refused {
        error: ReadError::LeftOver,
        at: bytes.len(),
    };
    is_refused::<T>(rt, alloc, &longer, stated);
}

/// The encoding is read, and each damage of it is refused as is stated.
pub(crate) fn each_refused<T: FromDer<Global>>(rt: &impl Abort, alloc: Global, table: &Damaged) {
    let mut bytes = hex::decode(alloc, table.0).expect(rt, table.0);
    let is_read = read_explained::<T, Global>(alloc, &bytes).is_ok();
    assert!(rt; is_read, "{} is refused", table.0);
    cut_or_longer_is_refused::<T>(rt, alloc, &bytes);
    for damage in table.1 {
        let whole = bytes.get(damage.0).copied().expect(rt, table.0);
        if let Some(byte) = bytes.get_mut(damage.0) {
            *byte = damage.1;
        }
        is_refused::<T>(
            rt,
            alloc,
            &bytes,
            Refused {
                error: damage.2,
                at: damage.3,
            },
        );
        if let Some(byte) = bytes.get_mut(damage.0) {
            *byte = whole;
        }
    }
}
