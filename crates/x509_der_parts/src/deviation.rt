//! Encodings that are read and not written: which there are, how many of each were met, and where.

ghost use Rattle.std.specs.Prelude.{◌≡◌, ◌+◌, ◌<◌, ◌≤◌, ◌^◌, ◌↔◌, ℕ, IsTrue, Some, sum, slice_set, slice_index, replicate, length};
ghost use Rattle.x509_der_parts.specs.Deviations.{Together, kind_index, kind_name, paired};
ghost use Rattle.x509_der_parts.specs.Tally.{counts_of};

use std::fmt;
use std::marker::Model;

/// The ten loose encodings that are read and not written. The list is closed.
#[derive(Clone, Copy, Debug, PartialEq, Eq)]
pub enum Deviation {
    /// An algorithm of the RSA family stands without parameters (RFC 4055, 1.2 and 5; RFC 8017, A.1). They are written
    /// as NULL.
    RsaParametersAbsent,
    /// An algorithm identifier whose parameters are any element stands without them. They are written as NULL.
    RawParametersAbsent,
    /// A hash algorithm stands without NULL (RFC 4055, 2.1). It is written with it.
    HashNullAbsent,
    /// A salt length is above 2^64 - 1, and read as 2^64 - 1.
    SaltTooLarge,
    /// The version of a certificate is encoded though it is the default (X.690, 11.5). It is left out.
    VersionZeroSpelled,
    /// An empty list of extensions is encoded (RFC 5280, 4.1.2.9). It is left out.
    EmptyExtensionsSpelled,
    /// A criticality is encoded though it is the default, FALSE (X.690, 11.5). It is left out.
    CriticalFalseSpelled,
    /// The fields of an authority key identifier repeat or are out of order (RFC 5280, 4.2.1.1).
    AuthorityKeyFieldOrder,
    /// A general name has an explicit tag in place of its implicit one, or a directory name an implicit one (RFC 5280,
    /// 4.2.1.6).
    GeneralNameForm,
    /// An element that is not understood stands behind a private key (RFC 5958, 2). It is left out.
    SkippedKeyElement,
}

impl Deviation {
    /// The ten kinds, in the order of their numbers.
    pub const ALL: [Deviation; 10] = [
        Deviation::RsaParametersAbsent,
        Deviation::RawParametersAbsent,
        Deviation::HashNullAbsent,
        Deviation::SaltTooLarge,
        Deviation::VersionZeroSpelled,
        Deviation::EmptyExtensionsSpelled,
        Deviation::CriticalFalseSpelled,
        Deviation::AuthorityKeyFieldOrder,
        Deviation::GeneralNameForm,
        Deviation::SkippedKeyElement,
    ];

    /// The kind's number, from 1 to 10.
    pub fn number(self) -> usize
        ensures { result ≡ kind_index self + 1 }
    {
        self.index() + 1
    }

    /// The kind's name in plain words.
    pub fn name(self) -> &'static str
        ensures { result.now ≡ kind_name self }
    {
        match self {
            Deviation::RsaParametersAbsent => "RSA parameters absent",
            Deviation::RawParametersAbsent => "algorithm parameters absent",
            Deviation::HashNullAbsent => "hash parameters absent",
            Deviation::SaltTooLarge => "salt length too large",
            Deviation::VersionZeroSpelled => "default version encoded",
            Deviation::EmptyExtensionsSpelled => "empty extensions encoded",
            Deviation::CriticalFalseSpelled => "default criticality encoded",
            Deviation::AuthorityKeyFieldOrder => "authority key fields repeated or out of order",
            Deviation::GeneralNameForm => "general name under the other kind of tag",
            Deviation::SkippedKeyElement => "element skipped behind a private key",
        }
    }

    /// The kind's place among the ten, from 0.
    pub(crate) fn index(self) -> usize
        ensures value { result ≡ kind_index self }
        ensures ten { result < 10 }
    {
        match self {
            Deviation::RsaParametersAbsent => 0,
            Deviation::RawParametersAbsent => 1,
            Deviation::HashNullAbsent => 2,
            Deviation::SaltTooLarge => 3,
            Deviation::VersionZeroSpelled => 4,
            Deviation::EmptyExtensionsSpelled => 5,
            Deviation::CriticalFalseSpelled => 6,
            Deviation::AuthorityKeyFieldOrder => 7,
            Deviation::GeneralNameForm => 8,
            Deviation::SkippedKeyElement => 9,
        }
    }
}

impl fmt::Display for Deviation {
    ghost output = { λ kind. Some (kind_name kind) };

    fn fmt<W: fmt::Write>(&self, f: &mut fmt::Formatter<W>) -> fmt::Result {
        f.write_str(self.name())
    }
}

/// Counts less earlier ones, kind by kind.
fn differences(later: [usize; 10], earlier: [usize; 10]) -> [usize; 10]
    requires { (kind : ℕ) → slice_index earlier kind ≤ slice_index later kind }
    ensures ten { length result ≡ 10 }
    ensures each { Together result earlier later }
{
    let mut counts = later;
    for kind in 0..10 {
        counts[kind] -= earlier[kind];
    }
    counts
}

/// How many deviations of each kind stand in an input. Contracts see the ten counts, in the order of the kinds.
#[derive(Clone, Copy, Debug, PartialEq, Eq)]
pub struct Deviations {
    counts: [usize; 10],
}

impl Model for Deviations {
    ghost use Rattle.std.specs.Prelude.{List, ℕ};
    ghost use Rattle.x509_der_parts.specs.Deviations.{IsCounts};

    ghost Value = { List ℕ };

    ghost view = { λ d. d.counts };

    ghost invariant = { λ d. IsCounts d.counts };

    ghost inverse = { λ counts. record { counts = counts } };
}

impl Deviations {
    /// No deviation.
    pub(crate) fn none() -> Deviations
        ensures { result ≡ replicate 10 0 }
    {
        Deviations { counts: [0; 10] }
    }

    /// One more of a kind.
    pub(crate) fn add(&mut self, kind: Deviation)
        requires { sum self.old + 1 < 2 ^ 64 }
        ensures { self.new ≡ slice_set self.old (kind_index kind)
            (slice_index self.old (kind_index kind) + 1) }
    {
        self.counts[kind.index()] += 1;
    }

    /// The counts less earlier ones, kind by kind.
    pub(crate) fn since(&self, earlier: &Deviations) -> Deviations
        requires { (kind : ℕ) → slice_index earlier.now kind ≤ slice_index self.now kind }
        ensures { Together result earlier.now self.now }
    {
        let counts = differences(self.counts, earlier.counts);
        Deviations { counts }
    }

    /// The counts of the deviations that stand at some places.
    pub fn of_places(places: &[Place]) -> Deviations
        ensures { result ≡ counts_of places.now }
    {
        let mut counts = Deviations::none();
        for place in places {
            counts.add(place.kind);
        }
        counts
    }

    /// How many of a kind were met.
    pub fn count(&self, kind: Deviation) -> usize
        ensures { result ≡ slice_index self.now (kind_index kind) }
    {
        let index = kind.index();
        self.counts[index]
    }

    /// The ten counts, in the order of the kinds.
    pub fn counts(&self) -> &[usize]
        ensures { result.now ≡ self.now }
    {
        &self.counts
    }

    /// The ten counts, in the order of the kinds, as an array.
    pub fn array(&self) -> [usize; 10]
        ensures { result ≡ self.now }
    {
        self.counts
    }

    /// The ten kinds, each with its count, in the order of the kinds.
    pub fn pairs(&self) -> [(Deviation, usize); 10]
        ensures { result ≡ paired self.now }
    {
        let mut pairs = [(Deviation::RsaParametersAbsent, 0); 10];
        for index in 0..10 {
            pairs[index] = (Deviation::ALL[index], self.counts[index]);
        }
        pairs
    }

    /// How many were met in all.
    pub fn total(&self) -> usize
        ensures { result ≡ sum self.now }
    {
        self.counts.iter().sum()
    }

    /// Whether none was met, so that the input is the DER encoding of its value.
    pub fn is_none(&self) -> bool
        ensures { IsTrue result ↔ (sum self.now ≡ 0) }
    {
        self.total() == 0
    }
}

/// Where a deviation stands in an input.
#[derive(Clone, Copy, Debug, PartialEq, Eq)]
pub struct Place {
    /// Which deviation it is.
    pub kind: Deviation,
    /// How many bytes of the input stand before it.
    pub start: usize,
    /// How many bytes of the input stand before its end: it covers the bytes `start..end`.
    pub end: usize,
}
