//! What the program's work came to.

ghost use Rattle.std.specs.Prelude.{◌≡◌, ◌+◌};
ghost use Rattle.cimaroly_work.specs.Statuses.{code_of, rank_of, IsWorse};
ghost use Rattle.cimaroly_work.specs.Tallies.{Counts, Searched, up_to_most};

use std::fmt::{self, Display, Write};
use x509_inspect::Standing;
use x509_report_parts::values::Count;

/// What the work came to, by which the program's exit status goes.
#[derive(Clone, Copy, Debug, PartialEq, Eq)]
pub enum Status {
    /// All is in DER.
    Der,
    /// Something has deviations.
    Deviations,
    /// Something was refused.
    Refused,
    /// The program was called in a wrong way.
    Usage,
    /// Input or output failed.
    Failed,
    /// A request for memory was refused.
    OutOfMemory,
}

impl Status {
    /// The exit status.
    pub fn code(self) -> u8
        ensures { result ≡ code_of self }
    {
        match self {
            Status::Der => 0,
            Status::Refused => 1,
            Status::Usage => 2,
            Status::Deviations => 3,
            Status::Failed => 4,
            Status::OutOfMemory => 5,
        }
    }

    /// How much it weighs against the others.
    fn rank(self) -> u8
        ensures { result ≡ rank_of self }
    {
        match self {
            Status::Der => 0,
            Status::Deviations => 1,
            Status::Refused => 2,
            Status::Usage => 3,
            Status::Failed => 4,
            Status::OutOfMemory => 5,
        }
    }

    /// The worse of two: of deviations, refusals, wrong usage, failed input or output, and want of memory the later.
    pub fn worse(self, other: Status) -> Status
        ensures { IsWorse self other result }
    {
        if self.rank() < other.rank() {
            other
        } else {
            self
        }
    }
}

/// How many structures were read, and what each came to.
#[derive(Clone, Copy, Debug, PartialEq, Eq)]
pub struct Tally {
    /// How many are in DER.
    pub der: u64,
    /// How many have deviations.
    pub deviating: u64,
    /// How many were refused.
    pub refused: u64,
    /// How many PEM blocks and files were passed over.
    pub passed_over: u64,
    /// How many are expired or not yet valid at the time that was asked for.
    pub outdated: u64,
    /// How many of those that are read have extensions in them that the encoding keeps as octets, and that are malformed.
    pub malformed: u64,
    /// How many have such extensions with deviations in them.
    pub deviating_inside: u64,
    /// What they came to together.
    pub status: Status,
}

impl Tally {
    /// No structure.
    pub fn new() -> Tally
        ensures counts { Counts result 0 0 0 0 0 }
        ensures octets { Searched result 0 0 }
        ensures status { result.status ≡ Status.Der }
    {
        Tally {
            der: 0,
            deviating: 0,
            refused: 0,
            passed_over: 0,
            outdated: 0,
            malformed: 0,
            deviating_inside: 0,
            status: Status::Der,
        }
    }

    /// One more structure with so many deviations.
    pub fn add(&mut self, deviations: usize)
        ensures octets { Searched self.new self.old.malformed self.old.deviating_inside }
        ensures der { deviations ≡ 0 → Counts self.new (up_to_most (self.old.der + 1)) self.old.deviating self.old.refused self.old.passed_over self.old.outdated }
        ensures none { deviations ≡ 0 → self.new.status ≡ self.old.status }
        ensures deviating { (deviations ≡ 0 → ⊥) → Counts self.new self.old.der (up_to_most (self.old.deviating + 1)) self.old.refused self.old.passed_over self.old.outdated }
        ensures some { (deviations ≡ 0 → ⊥) → IsWorse self.old.status Status.Deviations self.new.status }
    {
        if deviations == 0 {
            self.der = self.der.saturating_add(1);
        } else {
            self.deviating = self.deviating.saturating_add(1);
            self.status = self.status.worse(Status::Deviations);
        }
    }

    /// How the time that was asked for stands to a structure's own.
    pub fn date(&mut self, standing: Standing)
        ensures octets { Searched self.new self.old.malformed self.old.deviating_inside }
        ensures none { standing ≡ Standing.Valid → Counts self.new self.old.der self.old.deviating self.old.refused self.old.passed_over self.old.outdated }
        ensures one { (standing ≡ Standing.Valid → ⊥) → Counts self.new self.old.der self.old.deviating self.old.refused self.old.passed_over (up_to_most (self.old.outdated + 1)) }
        ensures valid { standing ≡ Standing.Valid → self.new.status ≡ self.old.status }
        ensures other { (standing ≡ Standing.Valid → ⊥) → IsWorse self.old.status Status.Deviations self.new.status }
    {
        if standing == Standing::Valid {
            return;
        }
        self.outdated = self.outdated.saturating_add(1);
        self.status = self.status.worse(Status::Deviations);
    }

    /// In extensions of a structure that its encoding keeps as octets, so many are malformed, and so many deviations stand in
    /// the others.
    pub fn search(&mut self, malformed: usize, deviations: usize)
        ensures counts { Counts self.new self.old.der self.old.deviating self.old.refused self.old.passed_over self.old.outdated }
        ensures well { malformed ≡ 0 → self.new.malformed ≡ self.old.malformed }
        ensures malformed { (malformed ≡ 0 → ⊥) → self.new.malformed ≡ up_to_most (self.old.malformed + 1) }
        ensures strict { deviations ≡ 0 → self.new.deviating_inside ≡ self.old.deviating_inside }
        ensures deviating { (deviations ≡ 0 → ⊥) → self.new.deviating_inside ≡ up_to_most (self.old.deviating_inside + 1) }
        ensures none { malformed ≡ 0 → deviations ≡ 0 → self.new.status ≡ self.old.status }
        ensures some { malformed ≡ 0 → (deviations ≡ 0 → ⊥) → IsWorse self.old.status Status.Deviations self.new.status }
        ensures bad { (malformed ≡ 0 → ⊥) → IsWorse self.old.status Status.Refused self.new.status }
    {
        if malformed > 0 {
            self.malformed = self.malformed.saturating_add(1);
        }
        if deviations > 0 {
            self.deviating_inside = self.deviating_inside.saturating_add(1);
        }
        if malformed > 0 {
            self.note(Status::Refused);
        } else if deviations > 0 {
            self.note(Status::Deviations);
        }
    }

    /// One more structure that is refused.
    pub fn refuse(&mut self)
        ensures octets { Searched self.new self.old.malformed self.old.deviating_inside }
        ensures counts { Counts self.new self.old.der self.old.deviating (up_to_most (self.old.refused + 1)) self.old.passed_over self.old.outdated }
        ensures status { IsWorse self.old.status Status.Refused self.new.status }
    {
        self.refused = self.refused.saturating_add(1);
        self.status = self.status.worse(Status::Refused);
    }

    /// One more block or file that is passed over.
    pub fn pass_over(&mut self)
        ensures octets { Searched self.new self.old.malformed self.old.deviating_inside }
        ensures counts { Counts self.new self.old.der self.old.deviating self.old.refused (up_to_most (self.old.passed_over + 1)) self.old.outdated }
        ensures status { self.new.status ≡ self.old.status }
    {
        self.passed_over = self.passed_over.saturating_add(1);
    }

    /// Something came to this.
    pub fn note(&mut self, status: Status)
        ensures octets { Searched self.new self.old.malformed self.old.deviating_inside }
        ensures counts { Counts self.new self.old.der self.old.deviating self.old.refused self.old.passed_over self.old.outdated }
        ensures status { IsWorse self.old.status status self.new.status }
    {
        self.status = self.status.worse(status);
    }

    /// How many structures were read or refused.
    pub fn structures(&self) -> u64
        ensures { result ≡ up_to_most (self.now.der + self.now.deviating + self.now.refused) }
    {
        self.der
            .saturating_add(self.deviating)
            .saturating_add(self.refused)
    }
}

impl Display for Tally {
    fn fmt<W: Write>(&self, f: &mut fmt::Formatter<W>) -> fmt::Result {
        write!(f, "{}: ", Count(self.structures(), "structure"))?;
        write!(
            f,
            "{} in DER, {} with deviations, ",
            self.der, self.deviating
        )?;
        write!(f, "{} refused", self.refused)?;
        if self.outdated > 0 {
            write!(f, "; {} expired or not yet valid", self.outdated)?;
        }
        if self.malformed > 0 {
            write!(f, "; {} with malformed extensions", self.malformed)?;
        }
        if self.deviating_inside > 0 {
            write!(
                f,
                "; {} with deviations inside of extensions",
                self.deviating_inside
            )?;
        }
        match self.passed_over {
            0 => Ok(()),
            count => write!(f, "; {count} passed over"),
        }
    }
}
