//! Whether secrets are told.

/// Whether the secret numbers of a private key are told.
#[derive(Clone, Copy, Debug, PartialEq, Eq)]
pub enum Secrets {
    /// They aren't, but for their sizes.
    Hidden,
    /// They are.
    Shown,
}
