//! Whether public keys are the same.

use x509_inspect::Pin;

/// What the public keys of structures come to.
#[derive(Clone, Copy, Debug, PartialEq, Eq)]
pub(crate) enum Verdict {
    /// They are the same.
    Same,
    /// They aren't.
    Different,
    /// Those that are there are the same, but not each structure holds one.
    Missing,
    /// There are no two structures.
    Alone,
}

impl Verdict {
    /// What is said of it.
    pub(crate) fn text(self) -> &'static str {
        match self {
            Verdict::Same => "the public keys are the same",
            Verdict::Different => "the public keys differ",
            Verdict::Missing => "not every structure holds its public key",
            Verdict::Alone => "fewer than two structures: nothing to compare",
        }
    }
}

/// What is known of the public keys of structures.
#[derive(Clone, Copy, Debug, PartialEq, Eq)]
pub(crate) struct Keys {
    first: Option<Pin>,
    count: u64,
    has_others: bool,
    is_missing: bool,
}

impl Keys {
    /// No structure.
    pub(crate) fn new() -> Keys {
        Keys {
            first: None,
            count: 0,
            has_others: false,
            is_missing: false,
        }
    }

    /// One more structure, with the pin of its public key, if it holds one.
    pub(crate) fn add(&mut self, pin: Option<Pin>) {
        self.count = self.count.saturating_add(1);
        match (self.first, pin) {
            (_, None) => self.is_missing = true,
            (None, Some(pin)) => self.first = Some(pin),
            (Some(first), Some(pin)) => self.has_others = self.has_others || first != pin,
        }
    }

    /// What they come to.
    pub(crate) fn verdict(&self) -> Verdict {
        if self.has_others {
            Verdict::Different
        } else if self.count < 2 {
            Verdict::Alone
        } else if self.is_missing {
            Verdict::Missing
        } else {
            Verdict::Same
        }
    }
}
