//! Textual encodings of RFC 7468, PEM by their common name, read from a stream a block at a time.
#![tactic(auto)]

mod block;
mod boundary;
mod cursor;
mod decoding;
mod fault;
mod full_line;
mod in_text;
mod lines;
mod reader;
mod rest;
mod table;
#[cfg(test)]
mod tests;
mod white;

pub use crate::block::Block;
pub use crate::cursor::Cursor;
pub use crate::decoding::{decode_in, room_for};
pub use crate::fault::{Fault, PemError};
pub use crate::in_text::{Span, TextBlock, next_in};
pub use crate::reader::PemReader;
