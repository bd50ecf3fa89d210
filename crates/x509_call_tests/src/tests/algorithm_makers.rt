//! Makers of algorithm identifiers: by name, by a hash function, and of AES.

use super::Heap;
use super::checks::{bytes_of, is_written, made_turn, same};
use refusing::{Refusing, Turn, in_turn};
use std::alloc::{AllocError, Allocator, Global};
use std::process::Abort;
use x509_keys::{AesMode, AesParameters, AlgorithmError, AlgorithmIdentifier, ShaVariant};

/// What the makers without choices give, in the order of `simple`.
const SIMPLE: &[&str] = &[
    "300d06092a864886f70d0101040500",
    "300d06092a864886f70d0101050500",
    "300d06092a864886f70d01010e0500",
    "300d06092a864886f70d01010b0500",
    "300d06092a864886f70d01010c0500",
    "300d06092a864886f70d01010d0500",
    "300d060960864801650304030d0500",
    "300d060960864801650304030e0500",
    "300d060960864801650304030f0500",
    "300d06096086480165030403100500",
    "300d06092a864886f70d0101010500",
    "300b06072a8648ce3804030500",
    "300906052b0e03021a0500",
    "300a06082a8648ce3d040302",
    "300a06082a8648ce3d040303",
    "300a06082a8648ce3d040304",
    "300b0609608648016503040309",
    "300b060960864801650304030a",
    "300b060960864801650304030b",
    "300b060960864801650304030c",
    "300506032b6570",
    "300506032b656e",
    "300506032b6571",
    "300506032b656f",
    "300b0609608648016503040311",
    "300b0609608648016503040312",
    "300b0609608648016503040313",
    "300c06082a864886f70d02050500",
];

/// The makers without choices, and that of hash functions with MD5.
fn simple<A: Allocator>(alloc: A, maker: usize) -> Result<AlgorithmIdentifier<A>, AllocError> {
    match maker {
        0 => AlgorithmIdentifier::new_md5_with_rsa_encryption(alloc),
        1 => AlgorithmIdentifier::new_sha1_with_rsa_encryption(alloc),
        2 => AlgorithmIdentifier::new_sha224_with_rsa_encryption(alloc),
        3 => AlgorithmIdentifier::new_sha256_with_rsa_encryption(alloc),
        4 => AlgorithmIdentifier::new_sha384_with_rsa_encryption(alloc),
        5 => AlgorithmIdentifier::new_sha512_with_rsa_encryption(alloc),
        6 => AlgorithmIdentifier::new_sha3_224_with_rsa_encryption(alloc),
        7 => AlgorithmIdentifier::new_sha3_256_with_rsa_encryption(alloc),
        8 => AlgorithmIdentifier::new_sha3_384_with_rsa_encryption(alloc),
        9 => AlgorithmIdentifier::new_sha3_512_with_rsa_encryption(alloc),
        10 => AlgorithmIdentifier::new_rsa_encryption(alloc),
        11 => AlgorithmIdentifier::new_dsa_with_sha1(alloc),
        12 => AlgorithmIdentifier::new_sha1(alloc),
        13 => AlgorithmIdentifier::new_ecdsa_with_sha256(alloc),
        14 => AlgorithmIdentifier::new_ecdsa_with_sha384(alloc),
        15 => AlgorithmIdentifier::new_ecdsa_with_sha512(alloc),
        16 => AlgorithmIdentifier::new_ecdsa_with_sha3_224(alloc),
        17 => AlgorithmIdentifier::new_ecdsa_with_sha3_256(alloc),
        18 => AlgorithmIdentifier::new_ecdsa_with_sha3_384(alloc),
        19 => AlgorithmIdentifier::new_ecdsa_with_sha3_512(alloc),
        20 => AlgorithmIdentifier::new_ed25519(alloc),
        21 => AlgorithmIdentifier::new_x25519(alloc),
        22 => AlgorithmIdentifier::new_ed448(alloc),
        23 => AlgorithmIdentifier::new_x448(alloc),
        24 => AlgorithmIdentifier::new_mldsa_44(alloc),
        25 => AlgorithmIdentifier::new_mldsa_65(alloc),
        26 => AlgorithmIdentifier::new_mldsa_87(alloc),
        _ => AlgorithmIdentifier::new_sha(alloc, ShaVariant::MD5),
    }
}

/// None takes memory.
fn simple_algorithms_over<A: Heap>(rt: &impl Abort, heap: A, alloc: Global) {
    let mut maker = 0usize;
    for text in SIMPLE {
        let bytes = bytes_of(rt, alloc, *text);
        let requests = in_turn!(heap, made_turn(simple(heap, maker), &bytes));
        same(rt, &requests, &Some(0), *text);
        maker = maker.saturating_add(1);
    }
}

#[test]
fn simple_algorithms(rt: HostRuntime) {
    let heap = Refusing::new(rt.alloc());
    simple_algorithms_over(&rt, &heap, rt.alloc());
}

/// The modes of AES: with NULL under a key of 128, 192 and 256 bits, and with none under 256.
const AES: &[(AesMode, &str, &str, &str, &str)] = &[
    (
        AesMode::Ecb,
        "300d06096086480165030401010500",
        "300d06096086480165030401150500",
        "300d06096086480165030401290500",
        "300b0609608648016503040129",
    ),
    (
        AesMode::Cbc,
        "300d06096086480165030401020500",
        "300d06096086480165030401160500",
        "300d060960864801650304012a0500",
        "300b060960864801650304012a",
    ),
    (
        AesMode::Ofb,
        "300d06096086480165030401030500",
        "300d06096086480165030401170500",
        "300d060960864801650304012b0500",
        "300b060960864801650304012b",
    ),
    (
        AesMode::Cfb,
        "300d06096086480165030401040500",
        "300d06096086480165030401180500",
        "300d060960864801650304012c0500",
        "300b060960864801650304012c",
    ),
    (
        AesMode::Wrap,
        "300d06096086480165030401050500",
        "300d06096086480165030401190500",
        "300d060960864801650304012d0500",
        "300b060960864801650304012d",
    ),
    (
        AesMode::Gcm,
        "300d06096086480165030401060500",
        "300d060960864801650304011a0500",
        "300d060960864801650304012e0500",
        "300b060960864801650304012e",
    ),
    (
        AesMode::Ccm,
        "300d06096086480165030401070500",
        "300d060960864801650304011b0500",
        "300d060960864801650304012f0500",
        "300b060960864801650304012f",
    ),
    (
        AesMode::WrapPad,
        "300d06096086480165030401080500",
        "300d060960864801650304011c0500",
        "300d06096086480165030401300500",
        "300b0609608648016503040130",
    ),
];

/// How many requests the maker of an AES algorithm makes.
fn aes_requests<A: Heap>(heap: A, size: usize, mode: AesMode, bytes: &[u8]) -> Option<u64> {
    in_turn!(
        heap,
        {
            let made = match size {
                128 => AlgorithmIdentifier::new_aes128(heap, mode, AesParameters::Null),
                192 => AlgorithmIdentifier::new_aes192(heap, mode, AesParameters::Null),
                256 => AlgorithmIdentifier::new_aes256(heap, mode, AesParameters::Null),
                _ => AlgorithmIdentifier::new_aes256_empty(heap, mode),
            };
            made_turn(made, bytes)
        }
    )
}

/// None takes memory.
fn aes_algorithms_over<A: Heap>(rt: &impl Abort, heap: A, alloc: Global) {
    for (mode, small, middle, large, empty) in AES {
        for (size, text) in [(128, *small), (192, *middle), (256, *large), (0, *empty)] {
            let bytes = bytes_of(rt, alloc, text);
            same(rt, &aes_requests(heap, size, *mode, &bytes), &Some(0), text);
        }
    }
}

#[test]
fn aes_algorithms(rt: HostRuntime) {
    let heap = Refusing::new(rt.alloc());
    aes_algorithms_over(&rt, &heap, rt.alloc());
}

/// The hash functions with which RSA signatures are known by name, and what is made of them.
const RSA_HASHES: &[(ShaVariant, &str)] = &[
    (ShaVariant::SHA2_224, "300d06092a864886f70d01010e0500"),
    (ShaVariant::SHA2_256, "300d06092a864886f70d01010b0500"),
    (ShaVariant::SHA2_384, "300d06092a864886f70d01010c0500"),
    (ShaVariant::SHA2_512, "300d06092a864886f70d01010d0500"),
    (ShaVariant::SHA3_384, "300d060960864801650304030f0500"),
    (ShaVariant::SHA3_512, "300d06096086480165030403100500"),
];

/// And those with which they aren't, with the names.
const OTHER_HASHES: &[(ShaVariant, &str)] = &[
    (ShaVariant::MD5, "MD5"),
    (ShaVariant::SHA1, "SHA1"),
    (ShaVariant::SHA2_512_224, "SHA2_512_224"),
    (ShaVariant::SHA2_512_256, "SHA2_512_256"),
    (ShaVariant::SHA3_224, "SHA3_224"),
    (ShaVariant::SHA3_256, "SHA3_256"),
    (ShaVariant::SHAKE128, "SHAKE128"),
    (ShaVariant::SHAKE256, "SHAKE256"),
];

/// What a run showed that should make what is written as these bytes, or refuse a hash function by this name.
fn sha_turn<A: Allocator>(
    answer: Result<AlgorithmIdentifier<A>, AlgorithmError<A>>,
    stated: &[u8],
) -> Turn {
    match answer {
        Ok(value) => Turn::right(is_written(&value, stated)),
        Err(AlgorithmError::OutOfMemory) => Turn::Refused,
        Err(AlgorithmError::Unsupported(error)) => {
            Turn::right(error.algorithm.as_str().as_bytes() == stated)
        }
    }
}

/// How many requests the maker of an RSA algorithm makes.
fn sha_requests<A: Heap>(heap: A, variant: ShaVariant, stated: &[u8]) -> Option<u64> {
    in_turn!(
        heap,
        {
            sha_turn(
                AlgorithmIdentifier::new_rsa_encryption_with_sha(heap, variant),
                stated,
            )
        }
    )
}

/// An identifier takes no memory, and a name takes it once.
fn rsa_with_hashes_over<A: Heap>(rt: &impl Abort, heap: A, alloc: Global) {
    for (variant, text) in RSA_HASHES {
        let bytes = bytes_of(rt, alloc, *text);
        let requests = sha_requests(heap, *variant, &bytes);
        same(rt, &requests, &Some(0), *text);
    }
    for (variant, name) in OTHER_HASHES {
        let requests = sha_requests(heap, *variant, name.as_bytes());
        same(rt, &requests, &Some(1), *name);
    }
}

#[test]
fn rsa_with_hashes(rt: HostRuntime) {
    let heap = Refusing::new(rt.alloc());
    rsa_with_hashes_over(&rt, &heap, rt.alloc());
}
