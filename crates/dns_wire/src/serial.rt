//! Serial numbers (RFC 1982).

/// A number of 32 bits that wraps, as the times of a signature are.
#[derive(Clone, Copy, Debug, PartialEq, Eq, Hash)]
pub struct SerialNumber(pub u32);
