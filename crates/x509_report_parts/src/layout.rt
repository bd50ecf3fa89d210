//! How a report as text is laid out.

use crate::colour::Colours;

/// How a report as text is laid out.
#[derive(Clone, Copy, Debug, PartialEq, Eq)]
pub struct Layout {
    /// How many columns there are; `None` where lines may have any length.
    pub width: Option<usize>,
    /// Whether there are colours.
    pub colours: Colours,
}

impl Layout {
    /// Lines of any length, without colours.
    pub const PLAIN: Layout = Layout {
        width: None,
        colours: Colours::Off,
    };
}
