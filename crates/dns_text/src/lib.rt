//! Text and octets: octets that print as base64 and hexadecimal (RFC 4648), and the lines of a text with the words,
//! numbers and octets in them.
#![tactic(auto)]

mod base64_text;
mod hex_text;
mod words;

pub use base64_text::Base64Text;
pub use hex_text::{LowerHex, UpperHex};
pub use words::{
    decode_hex, four_words, is_skipped, is_text, number_below, one_word, split_line, split_word,
    three_words, two_words, without_return,
};
