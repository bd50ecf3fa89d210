//! Colours on a terminal.

ghost use Rattle.std.specs.Prelude.{◌≡◌, []};

/// What a colour sets off.
#[derive(Clone, Copy, Debug, PartialEq, Eq)]
pub enum Mark {
    /// The first line of a report.
    Heading,
    /// Why something is refused.
    Refusal,
    /// How something deviates.
    Deviation,
}

/// Whether there are colours.
#[derive(Clone, Copy, Debug, PartialEq, Eq)]
pub enum Colours {
    /// None.
    Off,
    /// Those of ECMA-48, 8.3.117 (SGR).
    On,
}

impl Colours {
    /// What stands before a text that is set off: nothing without colours.
    pub fn begin(self, mark: Mark) -> &'static str
        ensures { self ≡ Colours.Off → result.now ≡ [] }
    {
        match (self, mark) {
            (Colours::Off, _) => "",
            (Colours::On, Mark::Heading) => "\x1b[1m",
            (Colours::On, Mark::Refusal) => "\x1b[31m",
            (Colours::On, Mark::Deviation) => "\x1b[33m",
        }
    }

    /// What stands behind it.
    pub fn end(self) -> &'static str
        ensures { self ≡ Colours.Off → result.now ≡ [] }
    {
        match self {
            Colours::Off => "",
            Colours::On => "\x1b[0m",
        }
    }
}
