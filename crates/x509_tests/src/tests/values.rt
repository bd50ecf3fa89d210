//! Values of certificates: what `openssl x509` and `openssl asn1parse` tell of the same bytes, and `date` of the same
//! times.

use picky_asn1_x509::{GeneralizedTime, Time};
use std::alloc::Global;
use x509_fields::{CertificateFields, Span};
use x509_values::{
    AttributePlace, GeneralNamePlace, Moment, attributes_within, certificate_validity,
    find_extension, general_names_within, serial_number,
};

/// A certificate whose subject has one set of two attributes, and whose issuer has none.
const CERTIFICATE: &str =
    "3081c13075a003020102020101300506032b65703000301e170d3139313031373137343132385a170d3232313031363137343132385a30163114300806035504030c01613008060355040a0c0162302a300506032b6570032100000102030405060708090a0b0c0d0e0f101112131415161718191a1b1c1d1e1f300506032b657003410000000000000000000000000000000000000000000000000000000000000000000000000000000000000000000000000000000000000000000000000000000000";

/// A certificate with one extension, basicConstraints.
const WITH_EXTENSION: &str =
    "3078306ca003020102020101300506032b65703000301e170d3139303131373137343132385a170d3232303131363137343132385a300d310b3009060355040313026162300a300506032b65700301008102070082020780a316301430120603551d130101ff040830060101ff020105300506032b6570030100";

/// A list of general names: a DNS name, an address and a directory name.
const NAMES: &str = "301c8204612e6465870401020304a40e300c310a30080603550403130161";

/// The element of so many bytes behind so many others.
fn at(start: usize, size: usize) -> Span {
    Span {
        start,
        end: start.saturating_add(size),
    }
}

/// The seconds of a time, whatever its form.
fn seconds(year: u16, month: u8, day: u8, hour: u8, minute: u8, second: u8) -> Option<i64> {
    let time = GeneralizedTime::new(year, month, day, hour, minute, second)?;
    let time = Time::from(time);
    Some(Moment::of(&time).unix_time())
}

#[test]
fn unix_times(rt: HostRuntime) {
    assert!(rt; seconds(1970, 1, 1, 0, 0, 0) == Some(0));
    assert!(rt; seconds(2000, 2, 29, 23, 59, 59) == Some(951868799));
    assert!(rt; seconds(1900, 3, 1, 0, 0, 0) == Some(-2203891200));
    assert!(rt; seconds(9999, 12, 31, 23, 59, 59) == Some(253402300799));
    assert!(rt; seconds(2026, 8, 6, 7, 8, 9) == Some(1786000089));
}

#[test]
fn validity(rt: HostRuntime) {
    let alloc = rt.alloc();
    let bytes = hex::decode(alloc, CERTIFICATE).expect(&rt, CERTIFICATE);
    let validity = certificate_validity(alloc, &bytes).expect(&rt, "a certificate");
    let not_before = Moment::of(&validity.not_before);
    assert!(rt; not_before.unix_time() == 1571334088);
    assert!(rt; Moment::of(&validity.not_after).unix_time() == 1665942088);
    assert!(rt; not_before.year == 2019 && not_before.month == 10 && not_before.day == 17);
    assert!(rt; not_before.hour == 17 && not_before.minute == 41 && not_before.second == 28);
    assert!(rt; certificate_validity(alloc, &[]).is_err());
}

#[test]
fn attributes(rt: HostRuntime) {
    let alloc = rt.alloc();
    let bytes = hex::decode(alloc, CERTIFICATE).expect(&rt, CERTIFICATE);
    let places = CertificateFields::within::<Global>(&bytes);
    let none = AttributePlace {
        set: 9,
        identifier: at(0, 0),
        tag: 0,
        value: at(0, 0),
    };
    let mut out = [none; 3];
    assert!(rt; attributes_within::<Global>(&bytes, places.fields.issuer, &mut out) == 0);
    assert!(rt; out[0] == none);
    assert!(rt; attributes_within::<Global>(&bytes, places.fields.subject, &mut out) == 2);
    assert!(rt;
        out[0]
            == AttributePlace {
                set: 0,
                identifier: at(62, 3),
                tag: 12,
                value: at(67, 1)
            }
    );
    assert!(rt;
        out[1]
            == AttributePlace {
                set: 0,
                identifier: at(72, 3),
                tag: 12,
                value: at(77, 1)
            }
    );
}

#[test]
fn more_attributes_than_room(rt: HostRuntime) {
    let alloc = rt.alloc();
    let bytes = hex::decode(alloc, CERTIFICATE).expect(&rt, CERTIFICATE);
    let places = CertificateFields::within::<Global>(&bytes);
    let none = AttributePlace {
        set: 9,
        identifier: at(0, 0),
        tag: 0,
        value: at(0, 0),
    };
    let mut out = [none; 1];
    assert!(rt; attributes_within::<Global>(&bytes, places.fields.subject, &mut out) == 2);
    assert!(rt; out[0].value == at(67, 1));
}

#[test]
fn general_names(rt: HostRuntime) {
    let alloc = rt.alloc();
    let bytes = hex::decode(alloc, NAMES).expect(&rt, NAMES);
    let none = GeneralNamePlace {
        tag: 0,
        content: at(0, 0),
    };
    let mut out = [none; 4];
    assert!(rt; general_names_within::<Global>(&bytes, at(0, bytes.len()), &mut out) == 3);
    assert!(rt;
        out[0]
            == GeneralNamePlace {
                tag: 0x82,
                content: at(4, 4)
            }
    );
    assert!(rt;
        out[1]
            == GeneralNamePlace {
                tag: 0x87,
                content: at(10, 4)
            }
    );
    assert!(rt;
        out[2]
            == GeneralNamePlace {
                tag: 0xA4,
                content: at(16, 14)
            }
    );
    assert!(rt; out[3] == none);
}

#[test]
fn extension_and_serial_number(rt: HostRuntime) {
    let alloc = rt.alloc();
    let bytes = hex::decode(alloc, WITH_EXTENSION).expect(&rt, WITH_EXTENSION);
    assert!(rt; serial_number(alloc, &bytes).expect(&rt, "a certificate") == at(11, 1));
    let found = find_extension(alloc, &bytes, &[0x55, 0x1D, 0x13]);
    assert!(rt; found.expect(&rt, "a certificate") == Some(at(104, 8)));
    let other = find_extension(alloc, &bytes, &[0x55, 0x1D, 0x11]);
    assert!(rt; other.expect(&rt, "a certificate") == None);
    let bare = hex::decode(alloc, CERTIFICATE).expect(&rt, CERTIFICATE);
    let none = find_extension(alloc, &bare, &[0x55, 0x1D, 0x13]);
    assert!(rt; none.expect(&rt, "a certificate") == None);
}
