//! Where octets come from and where they go, and how a program reads and writes all of them. The words of a text
//! are those of `dns_text`.
#![tactic(auto)]

pub mod laws;
mod memory;
mod source_sink;
mod standard;
mod status;
mod transfer;

pub use dns_text::{
    decode_hex, four_words, is_skipped, is_text, number_below, split_line, split_word, two_words,
    without_return,
};
pub use memory::{MemSink, MemSource, PlainSink, PlainSource};
pub use source_sink::{Failed, Sink, Source};
pub use standard::{StdSink, StdSource};
pub use status::Status;
pub use transfer::{INPUT_LIMIT, ReadError, read_all, write_all};
