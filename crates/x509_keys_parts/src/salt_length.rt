//! Lengths of salts, as they are written.

ghost use Rattle.x509_der.specs.Integer.{natural_content};

use std::marker::Model;
use x509_der::TooLong;
use x509_der::parts::{Output, OwnTag, ToContent, Universal};

/// A number that is written as an INTEGER, without memory.
#[derive(Drop)]
pub(crate) struct SaltLength(pub(crate) usize);

impl Model for SaltLength {
    ghost use Rattle.std.specs.Prelude.{ℕ};

    ghost Value = { ℕ };

    ghost view = { λ s. s.0 };
}

/// Puts the content of a number in front of a place, to be counted or written.
fn put_natural<O: Output>(number: usize, out: &mut [u8], at: usize) -> Result<usize, TooLong>
    requires { O.fits (natural_content number) out.old at }
    ensures { O.puts (natural_content number) out.old at out.new result }
{
    if number < 128 {
        return O::bytes(&[number as u8], out, at);
    }
    let at = O::bytes(&[(number % 256) as u8], out, at)?;
    put_natural::<O>(number / 256, out, at)
}

impl ToContent for SaltLength {
    ghost content = { natural_content };

    fn put_content<O: Output>(&self, out: &mut [u8], at: usize) -> Result<usize, TooLong> {
        put_natural::<O>(self.0, out, at)
    }
}

impl OwnTag for SaltLength {
    type Tag = Universal<2>;
}
