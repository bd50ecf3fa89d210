//! Laws of the types of this crate. A function here does nothing when it runs: its contract is the law.

ghost use Rattle.std.specs.Prelude.{◌≡◌, ◌∷◌, ◌++◌, ◌↔◌, [], ℕ, List, Some, true};
ghost use Rattle.x509_der.specs.Tally.{Tally};
ghost use Rattle.x509_der.specs.Element.{element};
ghost use Rattle.x509_der.specs.Tagged.{tagged};
ghost use Rattle.x509_der.specs.Items.{items};
ghost use Rattle.x509_keys_parts.specs.AesAuthEncParams.{AuthEncParams, auth_enc};
ghost use Rattle.x509_keys_parts.specs.AesLaws.{AuthEncAt, AesAt};
ghost use Rattle.x509_keys_parts.specs.AesParameters.{aes_parameters};
ghost use Rattle.x509_keys_parts.specs.AlgorithmIdentifier.{Algorithm, algorithm_identifier, identified};
ghost use Rattle.x509_keys_parts.specs.AlgorithmKinds.{kind_of};
ghost use Rattle.x509_keys_parts.specs.AlgorithmLaws.{fit, FieldsAt as AlgorithmAt};
ghost use Rattle.x509_keys_parts.specs.HashAlgorithms.{hash_arcs, hash_of, hash_algorithm};
ghost use Rattle.x509_keys_parts.specs.RsassaPss.{mask_gen, rsassa_pss};
ghost use Rattle.x509_keys_parts.specs.DigestInfos.{digest_info};
ghost use Rattle.x509_keys_parts.specs.HashLaws.{HashAt, MaskGenAt, PssAt, DigestInfoAt};
ghost use Rattle.x509_keys_parts.specs.ShaVariants.{sha_arcs, sha_of};
ghost use Rattle.x509_keys_parts.specs.RawAlgorithm.{RawAlgorithm, raw_algorithm, FieldsAt};

use crate::aes::AesParameters;
use crate::aes_auth_enc::AesAuthEncParams;
use crate::algorithm_identifier::AlgorithmIdentifier;
use crate::algorithm_parameters::AlgorithmIdentifierParameters;
use crate::digest_info::DigestInfo;
use crate::hash_algorithm::HashAlgorithm;
use crate::raw_algorithm_identifier::RawAlgorithmIdentifier;
use crate::rsassa_pss::{MaskGenAlgorithm, RsassaPssParams};
use crate::sha_variant::ShaVariant;
use std::alloc::Allocator;
use x509_der::laws::{fields, spellings_are_lawful};

/// In each encoding of an algorithm identifier with raw parameters the object identifier stands right behind the header
/// and the parameters behind it, each with the deviations that lie within its slice; so each slice is its field's DER
/// encoding exactly where no deviation lies within it.
pub fn raw_algorithm_fields<A: Allocator + Copy>()
    ensures { (v : RawAlgorithm) (string : List ℕ) (y : Tally) → raw_algorithm.spelled v string y →
        FieldsAt v string y }
{
    fields::<RawAlgorithmIdentifier<A>, A>();
}

/// `HashAlgorithm::from_oid` of what `to_oid` gives is the same hash function, for all eight, and no other object
/// identifier names it.
#[tactic(auto, using(crate::specs::facts::HashAlgorithmFacts::hash_there, crate::specs::facts::HashAlgorithmFacts::hash_again))]
pub fn hash_identifiers()
    ensures same { (hash : HashAlgorithm) → hash_of (hash_arcs hash) ≡ Some hash }
    ensures only { (arcs : List ℕ) (hash : HashAlgorithm) → hash_of arcs ≡ Some hash → arcs ≡ hash_arcs hash }
{}

/// `ShaVariant::from_oid` of what `to_oid` gives is the same hash function, for all fourteen, and no other object
/// identifier names it.
#[tactic(auto, using(crate::specs::facts::ShaVariantFacts::sha_there, crate::specs::facts::ShaVariantFacts::sha_again))]
pub fn sha_identifiers()
    ensures same { (sha : ShaVariant) → sha_of (sha_arcs sha) ≡ Some sha }
    ensures only { (arcs : List ℕ) (sha : ShaVariant) → sha_of arcs ≡ Some sha → arcs ≡ sha_arcs sha }
{}

/// In each encoding of an algorithm identifier the object identifier stands right behind the header, and behind it the
/// parameters that its kind says, each with the deviations that lie within its slice.
pub fn algorithm_fields<A: Allocator + Copy>()
    ensures { (v : Algorithm A) (string : List ℕ) (y : Tally) → algorithm_identifier.spelled v string y →
        AlgorithmAt v string y }
{
    fields::<AlgorithmIdentifier<A>, A>();
}

/// An algorithm identifier is readable exactly where it has the parameters that its object identifier says, and what is
/// read is. So nothing is read as an algorithm identifier of MD5 with RSA encryption, of MD5, or of DSA with SHA-1 and
/// NULL, as their makers give them.
pub fn algorithms_fit<A: Allocator + Copy>()
    ensures readable { (v : Algorithm A) → algorithm_identifier.readable v ↔ (
        fit (kind_of v.algorithm) v.parameters ≡ true
        ) }
    ensures fit { (v : Algorithm A) (string : List ℕ) (y : Tally) → algorithm_identifier.spelled v string y →
        fit (kind_of v.algorithm) v.parameters ≡ true }
    ensures md5_with_rsa { (string : List ℕ) (y : Tally) →
        (algorithm_identifier {A = A}).spelled (identified (1 ∷ 2 ∷ 840 ∷ 113549 ∷ 1 ∷ 1 ∷ 4 ∷ [])
        AlgorithmIdentifierParameters.Null) string y → ⊥ }
    ensures md5 { (string : List ℕ) (y : Tally) → (algorithm_identifier {A = A}).spelled
        (identified (1 ∷ 2 ∷ 840 ∷ 113549 ∷ 2 ∷ 5 ∷ []) AlgorithmIdentifierParameters.Null) string y → ⊥ }
    ensures dsa_with_sha1 { (string : List ℕ) (y : Tally) →
        (algorithm_identifier {A = A}).spelled (identified (1 ∷ 2 ∷ 840 ∷ 10040 ∷ 4 ∷ 3 ∷ [])
        AlgorithmIdentifierParameters.Null) string y → ⊥ }
{
    spellings_are_lawful::<AlgorithmIdentifier<A>, A>();
}

/// The law of fields of `HashAlgorithm`: in each encoding the object identifier stands right behind the header, and
/// behind it NULL or nothing.
pub fn hash_fields<A: Allocator + Copy>()
    ensures { (v : HashAlgorithm) (string : List ℕ) (y : Tally) → hash_algorithm.spelled v string y →
        HashAt v string y }
{
    fields::<HashAlgorithm, A>();
}

/// The law of fields of `MaskGenAlgorithm`: in each encoding the object identifier stands right behind the header, and
/// behind it the hash algorithm, with the deviations that lie within its slice.
pub fn mask_gen_fields<A: Allocator + Copy>()
    ensures { (v : MaskGenAlgorithm A) (string : List ℕ) (y : Tally) → mask_gen.spelled v string y →
        MaskGenAt v string y }
{
    fields::<MaskGenAlgorithm<A>, A>();
}

/// The law of fields of `RsassaPssParams`: in each encoding the hash algorithm, the mask generation algorithm and the
/// INTEGER of the salt length stand one behind another, under their tags, each with the deviations that lie within its
/// slice.
pub fn rsassa_pss_fields<A: Allocator + Copy>()
    ensures { (v : RsassaPssParams A) (string : List ℕ) (y : Tally) → rsassa_pss.spelled v string y →
        PssAt v string y }
{
    fields::<RsassaPssParams<A>, A>();
}

/// The law of fields of `DigestInfo`: in each encoding the algorithm stands right behind the header, with the
/// deviations that lie within its slice, and behind it the digest.
pub fn digest_info_fields<A: Allocator + Copy>()
    ensures { (v : DigestInfo A) (string : List ℕ) (y : Tally) → digest_info.spelled v string y →
        DigestInfoAt v string y }
{
    fields::<DigestInfo<A>, A>();
}

/// The law of fields of `AesAuthEncParams`: in each encoding the nonce stands right behind the header, and behind it
/// the length of the integrity check value.
pub fn aes_auth_enc_fields<A: Allocator + Copy>()
    ensures { (v : AuthEncParams) (string : List ℕ) (y : Tally) → auth_enc.spelled v string y → AuthEncAt v string y }
{
    fields::<AesAuthEncParams<A>, A>();
}

/// The law of fields of `AesParameters`: each encoding is one of the alternative that was taken, whole.
pub fn aes_parameters_fields<A: Allocator + Copy>()
    ensures { (v : AesParameters A) (string : List ℕ) (y : Tally) → aes_parameters.spelled v string y →
        AesAt v string y }
{
    fields::<AesParameters<A>, A>();
}
