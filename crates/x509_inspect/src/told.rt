//! What is done with bytes as a type that is chosen when it runs.

ghost use Rattle.std.specs.Prelude.{IfOk, IfErr, MatchOption};
ghost use Rattle.x509_der.specs.Calls.{Located, NoWhole};
ghost use Rattle.x509_der.specs.Shape.{Shape};
ghost use Rattle.x509_inspect.specs.Outcomes.{Counts, Encodes, EncodesNone, Finds, IsEncoding, NotChecked, NotRead, NotWritten, WantsMemory};

use std::alloc::{AllocError, Allocator};
use x509_der::{
    FromDer, Place, ReadError, Refused, WriteError, check_explained, check_located, read_explained,
    read_located, to_vec,
};
use x509_fingerprints::{Keyed, Pin, pin_of};
use x509_report::{Faults, Moment, Reported, Secrets};

/// What is done with bytes as a type that it doesn't know.
pub(crate) trait Task<A: Allocator + Copy> {
    /// What it answers.
    type Answer;

    /// What the answer says of the grammar of a type.
    ghost says: { Self → (V : Type 0) → Shape V → Self.Answer → Type 0 };

    /// Does it.
    fn run<T: FromDer<A> + Reported + Keyed<A>>(self) -> Self::Answer
        ensures { says self T T.shape result };
}

/// Where a read was refused; at the start where only the read of the places was, for want of memory.
fn refused_at<T: FromDer<A>, A: Allocator + Copy>(
    alloc: A,
    bytes: &[u8],
    error: ReadError,
) -> Refused
    ensures { NoWhole T.shape bytes.now error → NotRead T T.shape bytes.now result }
{
    match read_explained::<T, A>(alloc, bytes) {
        Ok((value, _)) => {
            drop(value);
            Refused { error, at: 0 }
        }
        Err(refused) => refused,
    }
}

/// Reads a value, and tells each deviation with its place, or where the read was refused.
///
/// # Errors
/// The bytes encode no value of the type, or memory is refused.
pub(crate) fn read_told<T: FromDer<A>, A: Allocator + Copy>(
    alloc: A,
    bytes: &[u8],
) -> Result<(T, Vec<Place, A>), Refused>
    ensures ok { IfOk result (λ r. Located T.shape bytes.now r.0 r.1.items) }
    ensures err { IfErr result (NotRead T T.shape bytes.now) }
{
    match read_located::<T, A>(alloc, bytes) {
        Ok(read) => Ok(read),
        Err(error) => Err(refused_at::<T, A>(alloc, bytes, error)),
    }
}

/// Checks bytes, which are gone over once where they are in DER or refused, and tells each deviation with its place. It
/// builds no value, and takes memory for places alone.
///
/// # Errors
/// The bytes encode no value of the type, or memory for places is refused.
pub(crate) fn check_told<T: FromDer<A>, A: Allocator + Copy>(
    alloc: A,
    bytes: &[u8],
) -> Result<Vec<Place, A>, Refused>
    ensures ok { IfOk result (λ places. Finds T T.shape bytes.now places.items) }
    ensures err { IfErr result (NotChecked T T.shape bytes.now) }
{
    let deviations = check_explained::<T, A>(alloc, bytes)?;
    if deviations.is_none() {
        return Ok(Vec::new(alloc));
    }
    match check_located::<T, A>(alloc, bytes) {
        Ok(places) => Ok(places),
        Err(error) => Err(Refused { error, at: 0 }),
    }
}

/// The pin of the public key that a value holds, if it holds one.
///
/// # Errors
/// Memory is refused.
pub(crate) fn pin_told<T: Keyed<A>, A: Allocator + Copy>(
    alloc: A,
    value: &T,
) -> Result<Option<Pin>, Refused>
    ensures { IfErr result WantsMemory }
{
    match pin_of(alloc, value) {
        Ok(pin) => Ok(pin),
        Err(WriteError::OutOfMemory) => Err(Refused {
            error: ReadError::OutOfMemory,
            at: 0,
        }),
        // (the key stands in memory, beside which it would have to)
        Err(WriteError::TooLong) => Ok(None),
    }
}

/// The deviations of bytes as a type.
#[derive(Clone, Copy, Drop)]
pub(crate) struct Checking<'a, A> {
    /// Where memory is asked for.
    pub(crate) alloc: A,
    /// The bytes.
    pub(crate) bytes: &'a [u8],
}

impl<A: Allocator + Copy> Task<A> for Checking<'_, A> {
    type Answer = Result<Vec<Place, A>, Refused>;

    ghost says = { λ t V s r. IfOk r (λ places. Finds V s t.bytes.now places.items) × IfErr r (NotChecked V s t.bytes.now) };

    fn run<T: FromDer<A> + Reported + Keyed<A>>(self) -> Result<Vec<Place, A>, Refused> {
        check_told::<T, A>(self.alloc, self.bytes)
    }
}

/// The deviations of bytes as a type, and from when until when the value is valid.
#[derive(Clone, Copy, Drop)]
pub(crate) struct Dating<'a, A> {
    /// Where memory is asked for.
    pub(crate) alloc: A,
    /// The bytes.
    pub(crate) bytes: &'a [u8],
}

/// The deviations of a structure, and the first and the last second for which it is valid, if it says so.
pub type Dated<A> = (Vec<Place, A>, Option<(Moment, Moment)>);

impl<A: Allocator + Copy> Task<A> for Dating<'_, A> {
    type Answer = Result<Dated<A>, Refused>;

    ghost says = { λ t V s r. IfOk r (λ dated. Finds V s t.bytes.now dated.0.items) × IfErr r (NotRead V s t.bytes.now) };

    fn run<T: FromDer<A> + Reported + Keyed<A>>(self) -> Result<Dated<A>, Refused> {
        let (value, places) = read_told::<T, A>(self.alloc, self.bytes)?;
        let validity = value.validity();
        drop(value);
        Ok((places, validity))
    }
}

/// What is wrong in extensions of a value that the encoding keeps as octets.
///
/// # Errors
/// `AllocError` where memory is refused.
pub(crate) fn faults_in<T: Reported, A: Allocator + Copy>(
    alloc: A,
    value: &T,
    bytes: &[u8],
) -> Result<Faults<A>, AllocError> {
    let mut faults = Faults::new(alloc);
    value.tell(&mut faults, bytes, Secrets::Hidden)?;
    Ok(faults)
}

/// The same, where want of memory is told as a read tells it.
fn faults_told<T: Reported, A: Allocator + Copy>(
    alloc: A,
    value: &T,
    bytes: &[u8],
) -> Result<Faults<A>, Refused>
    ensures { IfErr result WantsMemory }
{
    match faults_in(alloc, value, bytes) {
        Ok(faults) => Ok(faults),
        Err(AllocError) => Err(Refused {
            error: ReadError::OutOfMemory,
            at: 0,
        }),
    }
}

/// The same as `Dating`, with what is wrong in extensions that the encoding keeps as octets.
#[derive(Clone, Copy, Drop)]
pub(crate) struct Searching<'a, A> {
    /// Where memory is asked for.
    pub(crate) alloc: A,
    /// The bytes.
    pub(crate) bytes: &'a [u8],
}

/// What there is to be said of a structure and of extensions in it that the encoding keeps as octets.
#[derive(Drop)]
pub struct Searched<A: Allocator> {
    /// The deviations of the structure, without those in the octets.
    pub places: Vec<Place, A>,
    /// The first and the last second for which it is valid, if it says so.
    pub validity: Option<(Moment, Moment)>,
    /// What is wrong in the octets.
    pub faults: Faults<A>,
}

impl<A: Allocator + Copy> Task<A> for Searching<'_, A> {
    type Answer = Result<Searched<A>, Refused>;

    ghost says = { λ t V s r. IfOk r (λ searched. Finds V s t.bytes.now searched.places.items) × IfErr r (NotRead V s t.bytes.now) };

    fn run<T: FromDer<A> + Reported + Keyed<A>>(self) -> Result<Searched<A>, Refused> {
        let (value, places) = read_told::<T, A>(self.alloc, self.bytes)?;
        let validity = value.validity();
        let faults = faults_told(self.alloc, &value, self.bytes);
        drop(value);
        let faults = faults?;
        Ok(Searched {
            places,
            validity,
            faults,
        })
    }
}

/// How many deviations bytes have as a type, and which public key they hold.
#[derive(Clone, Copy, Drop)]
pub(crate) struct Pinning<'a, A> {
    /// Where memory is asked for.
    pub(crate) alloc: A,
    /// The bytes.
    pub(crate) bytes: &'a [u8],
}

/// How many deviations a structure has, and the pin of its public key, if it holds one.
pub type Pinned = (usize, Option<Pin>);

impl<A: Allocator + Copy> Task<A> for Pinning<'_, A> {
    type Answer = Result<Pinned, Refused>;

    ghost says = { λ t V s r. IfOk r (λ pinned. Counts V s t.bytes.now pinned.0) × IfErr r (NotRead V s t.bytes.now) };

    fn run<T: FromDer<A> + Reported + Keyed<A>>(self) -> Result<Pinned, Refused> {
        let (value, places) = read_told::<T, A>(self.alloc, self.bytes)?;
        let pin = pin_told(self.alloc, &value);
        drop(value);
        Ok((places.len(), pin?))
    }
}

/// Whether bytes encode a value of a type.
#[derive(Clone, Copy, Drop)]
pub(crate) struct Accepting<'a, A> {
    /// Where memory would be asked for.
    pub(crate) alloc: A,
    /// The bytes.
    pub(crate) bytes: &'a [u8],
}

impl<A: Allocator + Copy> Task<A> for Accepting<'_, A> {
    type Answer = Option<Refused>;

    ghost says = { λ t V s r. MatchOption r (Encodes V s t.bytes.now) (EncodesNone V s t.bytes.now) };

    fn run<T: FromDer<A> + Reported + Keyed<A>>(self) -> Option<Refused> {
        match check_explained::<T, A>(self.alloc, self.bytes) {
            Ok(_deviations) => None,
            Err(refused) => Some(refused),
        }
    }
}

/// The DER encoding of bytes as a type.
#[derive(Clone, Copy, Drop)]
pub(crate) struct Encoding<'a, A> {
    /// Where memory is asked for.
    pub(crate) alloc: A,
    /// The bytes.
    pub(crate) bytes: &'a [u8],
}

impl<A: Allocator + Copy> Task<A> for Encoding<'_, A> {
    type Answer = Result<Result<Vec<u8, A>, WriteError>, Refused>;

    ghost says = { λ t V s r. IfOk r (λ written. IfOk written (λ encoding. IsEncoding V s t.bytes.now encoding.items) × IfErr written (NotWritten V s t.bytes.now)) × IfErr r (NotRead V s t.bytes.now) };

    fn run<T: FromDer<A> + Reported + Keyed<A>>(
        self,
    ) -> Result<Result<Vec<u8, A>, WriteError>, Refused> {
        let (value, _places) = read_told::<T, A>(self.alloc, self.bytes)?;
        let written = to_vec(self.alloc, &value);
        drop(value);
        Ok(written)
    }
}
