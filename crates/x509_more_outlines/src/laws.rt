//! Laws of the types of this crate. A function here does nothing when it runs: its contract is the law.

ghost use Rattle.std.specs.Prelude.{ℕ, List};
ghost use Rattle.x509_der.specs.Tally.{Tally};
ghost use Rattle.x509_more_outlines.specs.PrivateKeys.{private_key, PrivateKeyAt};
ghost use Rattle.x509_more_outlines.specs.PublicBits.{public_bits, BitsAt};
ghost use Rattle.x509_more_outlines.specs.Requests.{request_info, InfoAt, request, RequestAt};

use crate::private_key_outline::PrivateKeyOutline;
use crate::public_bits_outline::PublicBitsOutline;
use crate::request_info_outline::RequestInfoOutline;
use crate::request_outline::RequestOutline;
use std::alloc::Allocator;
use x509_der::laws::fields;

/// The law of fields of `PrivateKeyOutline`: the fields, where they are encoded, stand one behind another.
pub fn private_key_outline_fields<A: Allocator + Copy>()
    ensures { (v : PrivateKeyOutline A) (string : List ℕ) (y : Tally) → private_key.spelled v string y →
        PrivateKeyAt v string y }
{
    fields::<PrivateKeyOutline<A>, A>();
}

/// The law of fields of `PublicBitsOutline`: each encoding is one of the form that was taken.
pub fn public_bits_outline_fields<A: Allocator + Copy>()
    ensures { (v : PublicBitsOutline A) (string : List ℕ) (y : Tally) → public_bits.spelled v string y →
        BitsAt v string y }
{
    fields::<PublicBitsOutline<A>, A>();
}

/// The law of fields of `RequestInfoOutline`: the fields stand one behind another.
pub fn request_info_outline_fields<A: Allocator + Copy>()
    ensures { (v : RequestInfoOutline A) (string : List ℕ) (y : Tally) → request_info.spelled v string y →
        InfoAt v string y }
{
    fields::<RequestInfoOutline<A>, A>();
}

/// The law of fields of `RequestOutline`: the signed part stands right behind the header, and behind it the algorithm
/// and the signature.
pub fn request_outline_fields<A: Allocator + Copy>()
    ensures { (v : RequestOutline A) (string : List ℕ) (y : Tally) → request.spelled v string y →
        RequestAt v string y }
{
    fields::<RequestOutline<A>, A>();
}
