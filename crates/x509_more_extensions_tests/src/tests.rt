//! Encodings that OpenSSL made, as tables, and what `openssl x509 -text` says of them.

mod further;
mod qualified;
mod rows;
mod timestamps;
mod values;
