//! The protocols of KEY records (RFC 2535 3.1.3).
ghost use Rattle.std.specs.Prelude.{◌≡◌};
ghost use Rattle.sec_keydata.specs.KeyUses.{protocol_number, protocol_numbered};

/// The protocol that a key is for, by its number.
#[derive(Clone, Copy, Debug, Default, PartialEq, Eq, Hash)]
pub enum Protocol {
    /// Number 0, which is reserved.
    Reserved,
    /// Number 1.
    TLS,
    /// Number 2.
    Email,
    /// Number 3.
    #[default]
    DNSSEC,
    /// Number 4.
    IPSec,
    /// Number 255: every protocol.
    All,
    /// Any other number.
    Other(u8),
}

impl From<u8> for Protocol {
    ghost from_gives = { λ number protocol. protocol ≡ protocol_numbered number };

    fn from(number: u8) -> Protocol {
        match number {
            0 => Protocol::Reserved,
            1 => Protocol::TLS,
            2 => Protocol::Email,
            3 => Protocol::DNSSEC,
            4 => Protocol::IPSec,
            255 => Protocol::All,
            _ => Protocol::Other(number),
        }
    }
}

impl From<Protocol> for u8 {
    ghost from_gives = { λ protocol number. number ≡ protocol_number protocol };

    fn from(protocol: Protocol) -> u8 {
        match protocol {
            Protocol::Reserved => 0,
            Protocol::TLS => 1,
            Protocol::Email => 2,
            Protocol::DNSSEC => 3,
            Protocol::IPSec => 4,
            Protocol::All => 255,
            Protocol::Other(number) => number,
        }
    }
}
