//! The tokens of anchor text, and times to live as text (after RFC 1035 5.1).
#![tactic(auto)]

mod lex_error;
mod lex_token;
mod lexer;
mod text;
mod ttl;

pub use lex_error::LexError;
pub use lex_token::LexToken;
pub use lexer::Lexer;
pub use ttl::parse_ttl;
