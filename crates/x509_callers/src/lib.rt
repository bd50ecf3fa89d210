//! One caller of `picky_asn1_x509` for each kind of user: a checker, an importer, an inspector, a request builder and a
//! signer.
//! `docs/CALLING.md` goes through them.
#![tactic(auto)]

pub mod checker;
pub mod copies;
pub mod importer;
pub mod inspector;
pub mod places;
pub mod requester;
pub mod signer;
