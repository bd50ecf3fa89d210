//! As which type bytes without a label are read.

ghost use Rattle.std.specs.Prelude.{◌≡◌, ◌↔◌, ◌∷◌, ◌++◌, [], List, IsTrue, None};
ghost use Rattle.x509_inspect.specs.Determined.{AcceptedAs, FurthestOf, IsDetermined, IsFurther, IsTelling, OnlyOne, Tried, all_kinds, at_of, outcome_of};

use crate::task::accepts;
use std::alloc::Allocator;
use std::fmt::{self, Display, Write};
use x509_der::Refused;
use x509_inspect_parts::Kind;

/// Which types accept some bytes.
#[derive(Clone, Copy, Debug, PartialEq, Eq)]
pub enum Determined {
    /// One, which says what the bytes are.
    One(Kind),
    /// None; of the type whose reading got furthest, why. It is one that says what the bytes are.
    None(Kind, Refused),
    /// Several, or one that bytes of other kinds have too.
    Several(Outcomes),
}

/// Whether bytes that a type accepts are of that type: other structures are read as names and algorithm identifiers too.
fn is_telling(kind: Kind) -> bool
    ensures { IsTrue result ↔ IsTelling kind }
{
    !matches!(kind, Kind::Name | Kind::Algorithm | Kind::RawAlgorithm)
}

/// What reading some bytes as each type comes to: why they are refused, or nothing where they are accepted.
#[derive(Clone, Copy, Debug, PartialEq, Eq)]
pub struct Outcomes {
    /// As `Certificate` (RFC 5280, 4.1).
    pub certificate: Option<Refused>,
    /// As `CertificationRequest` (RFC 2986, 4).
    pub request: Option<Refused>,
    /// As `PrivateKeyInfo`, also called `OneAsymmetricKey` (RFC 5958, 2).
    pub private_key: Option<Refused>,
    /// As `SubjectPublicKeyInfo` (RFC 5280, 4.1.2.7).
    pub public_key: Option<Refused>,
    /// As `RSAPrivateKey` (RFC 8017, A.1.2).
    pub rsa_private_key: Option<Refused>,
    /// As `RSAPublicKey` (RFC 8017, A.1.1).
    pub rsa_public_key: Option<Refused>,
    /// As `ECPrivateKey` (RFC 5915, 3).
    pub ec_private_key: Option<Refused>,
    /// As `Name` (RFC 5280, 4.1.2.4).
    pub name: Option<Refused>,
    /// As `Extensions` (RFC 5280, 4.1).
    pub extensions: Option<Refused>,
    /// As `AlgorithmIdentifier` (RFC 5280, 4.1.1.2), of an algorithm that is known.
    pub algorithm: Option<Refused>,
    /// As `AlgorithmIdentifier` with any parameters.
    pub raw_algorithm: Option<Refused>,
    /// As `CertificationRequestInfo` (RFC 2986, 4.1).
    pub request_info: Option<Refused>,
    /// As `TBSCertificate` (RFC 5280, 4.1.2).
    pub tbs_certificate: Option<Refused>,
}

impl Outcomes {
    /// Why the bytes are refused as a type.
    fn of(&self, kind: Kind) -> Option<Refused>
        ensures { result ≡ outcome_of self.now kind }
    {
        match kind {
            Kind::Certificate => self.certificate,
            Kind::Request => self.request,
            Kind::PrivateKey => self.private_key,
            Kind::PublicKey => self.public_key,
            Kind::RsaPrivateKey => self.rsa_private_key,
            Kind::RsaPublicKey => self.rsa_public_key,
            Kind::EcPrivateKey => self.ec_private_key,
            Kind::Name => self.name,
            Kind::Extensions => self.extensions,
            Kind::Algorithm => self.algorithm,
            Kind::RawAlgorithm => self.raw_algorithm,
            Kind::RequestInfo => self.request_info,
            Kind::TbsCertificate => self.tbs_certificate,
        }
    }

    /// Whether they are accepted as a type.
    fn accepts(&self, kind: Kind) -> bool
        ensures { IsTrue result ↔ (outcome_of self.now kind ≡ None) }
    {
        match self.of(kind) {
            None => true,
            Some(_refused) => false,
        }
    }

    /// How far the reading as a type got; 0 where they are accepted.
    fn at(&self, kind: Kind) -> usize
        ensures { result ≡ at_of self.now kind }
    {
        match self.of(kind) {
            None => 0,
            Some(refused) => refused.at,
        }
    }

    /// A type that accepts the bytes: the first of `Kind::ALL`.
    pub fn first(&self) -> Option<Kind>
        ensures { AcceptedAs self.now all_kinds result }
    {
        self.accepting(&Kind::ALL)
    }

    /// How many types accept the bytes.
    pub fn count(&self) -> usize {
        Kind::ALL.iter().filter(|kind| self.accepts(**kind)).count()
    }

    /// The first of some types that accepts the bytes.
    fn accepting(&self, kinds: &[Kind]) -> Option<Kind>
        ensures { AcceptedAs self.now kinds.now result }
    {
        for kind in kinds {
            if self.accepts(*kind) {
                return Some(*kind);
            }
        }
        None
    }

    /// Whether none of some types but one accepts the bytes.
    fn is_only(&self, kind: Kind, kinds: &[Kind]) -> bool
        ensures { IsTrue result ↔ OnlyOne self.now kinds.now kind }
    {
        for other in kinds {
            if !self.leaves(*other, kind) {
                return false;
            }
        }
        true
    }

    /// Whether a type refuses the bytes, or is this one.
    fn leaves(&self, other: Kind, kind: Kind) -> bool
        ensures { IsTrue result ↔ (outcome_of self.now other ≡ None → other ≡ kind) }
    {
        other == kind || !self.accepts(other)
    }

    /// Whether a type that accepts the bytes says what they are, and no other accepts them.
    fn is_told_by(&self, kind: Kind) -> bool
        ensures { IsTrue result ↔ (IsTelling kind × OnlyOne self.now all_kinds kind) }
    {
        is_telling(kind) && self.is_only(kind, &Kind::ALL)
    }

    /// Of some types that say what bytes are, the one whose reading got furthest; the first where several got as far.
    fn furthest_of(&self, kinds: &[Kind]) -> Option<Kind>
        ensures { FurthestOf self.now kinds.now result }
    {
        let mut best: Option<Kind> = None;
        for kind in kinds {
            best = self.further(best, *kind);
        }
        best
    }

    /// The further of the best so far and one more type.
    fn further(&self, best: Option<Kind>, kind: Kind) -> Option<Kind>
        ensures { (kinds : List Kind) → FurthestOf self.now kinds best → FurthestOf self.now (kinds ++ (kind ∷ [])) result }
    {
        if self.beats(kind, best) {
            Some(kind)
        } else {
            best
        }
    }

    /// Whether a type says what bytes are, and its reading got further than that of the best so far.
    fn beats(&self, kind: Kind, best: Option<Kind>) -> bool
        ensures { IsTrue result ↔ (IsTelling kind × IsFurther self.now best kind) }
    {
        is_telling(kind) && self.is_further(kind, best)
    }

    /// Whether a type's reading got further than that of the best so far.
    fn is_further(&self, kind: Kind, best: Option<Kind>) -> bool
        ensures { IsTrue result ↔ IsFurther self.now best kind }
    {
        match best {
            None => true,
            Some(best) => self.at(best) < self.at(kind),
        }
    }

    /// What is said of the bytes.
    fn determined(&self) -> Determined
        ensures { IsDetermined self.now result }
    {
        match self.first() {
            Some(kind) => {
                if self.is_told_by(kind) {
                    Determined::One(kind)
                } else {
                    Determined::Several(*self)
                }
            }
            None => self.refused(),
        }
    }

    /// What is said of bytes that no type accepts.
    fn refused(&self) -> Determined
        requires { AcceptedAs self.now all_kinds None }
        ensures { IsDetermined self.now result }
    {
        let Some(kind) = self.furthest_of(&Kind::ALL) else {
            unreachable!()
        };
        let Some(refused) = self.of(kind) else {
            unreachable!()
        };
        Determined::None(kind, refused)
    }
}

/// What stands between two names of a list, before one with so many behind it.
fn before_name(written: usize, left: usize) -> &'static str {
    match (written, left) {
        (0, _) => "",
        (_, 0) => " or ",
        _ => ", ",
    }
}

/// The names of the types that accept the bytes, as in `name, algorithm or raw-algorithm`.
impl Display for Outcomes {
    fn fmt<W: Write>(&self, f: &mut fmt::Formatter<W>) -> fmt::Result {
        let mut written: usize = 0;
        let mut left = self.count();
        for kind in &Kind::ALL {
            if self.accepts(*kind) {
                left = left.saturating_sub(1);
                f.write_str(before_name(written, left))?;
                written = written.saturating_add(1);
                f.write_str(kind.name())?;
            }
        }
        Ok(())
    }
}

/// What reading bytes as each type comes to.
fn tried<A: Allocator + Copy>(alloc: A, bytes: &[u8]) -> Outcomes
    ensures { Tried A bytes.now result }
{
    Outcomes {
        certificate: accepts(alloc, Kind::Certificate, bytes),
        request: accepts(alloc, Kind::Request, bytes),
        private_key: accepts(alloc, Kind::PrivateKey, bytes),
        public_key: accepts(alloc, Kind::PublicKey, bytes),
        rsa_private_key: accepts(alloc, Kind::RsaPrivateKey, bytes),
        rsa_public_key: accepts(alloc, Kind::RsaPublicKey, bytes),
        ec_private_key: accepts(alloc, Kind::EcPrivateKey, bytes),
        name: accepts(alloc, Kind::Name, bytes),
        extensions: accepts(alloc, Kind::Extensions, bytes),
        algorithm: accepts(alloc, Kind::Algorithm, bytes),
        raw_algorithm: accepts(alloc, Kind::RawAlgorithm, bytes),
        request_info: accepts(alloc, Kind::RequestInfo, bytes),
        tbs_certificate: accepts(alloc, Kind::TbsCertificate, bytes),
    }
}

/// Which types accept bytes. It builds no value and takes no memory, so that want of it is no reason to refuse.
pub fn determine<A: Allocator + Copy>(alloc: A, bytes: &[u8]) -> Determined
    ensures { (outcomes : Outcomes) × Tried A bytes.now outcomes × IsDetermined outcomes result }
{
    tried(alloc, bytes).determined()
}
