//! The flags of DNSKEY and CDNSKEY records.
ghost use Rattle.std.specs.Prelude.{◌≡◌};
ghost use Rattle.sec_keydata.specs.DnsKeyFlags as specs;

/// The key is one of a zone (RFC 4034 2.1.1).
const ZONE_KEY: u16 = 0x0100;

/// The key is revoked (RFC 5011 7).
const REVOKE: u16 = 0x0080;

/// The key is meant as a secure entry point (RFC 4034 2.1.1).
const SECURE_ENTRY_POINT: u16 = 0x0001;

/// The flags that have these bits alone.
pub(crate) fn flags_of(zone_key: bool, secure_entry_point: bool, revoke: bool) -> u16
    ensures { result ≡ specs.flags_of zone_key secure_entry_point revoke }
{
    let zone_key = if zone_key { ZONE_KEY } else { 0 };
    let revoke = if revoke { REVOKE } else { 0 };
    let secure_entry_point = if secure_entry_point {
        SECURE_ENTRY_POINT
    } else {
        0
    };
    zone_key + revoke + secure_entry_point
}

/// Whether the key is one of a zone.
pub(crate) fn is_zone_key(flags: u16) -> bool
    ensures { result ≡ specs.is_zone_key flags }
{
    flags & ZONE_KEY != 0
}

/// Whether the key is a secure entry point.
pub(crate) fn is_secure_entry_point(flags: u16) -> bool
    ensures { result ≡ specs.is_secure_entry_point flags }
{
    flags & SECURE_ENTRY_POINT != 0
}

/// Whether the key is revoked.
pub(crate) fn is_revoked(flags: u16) -> bool
    ensures { result ≡ specs.is_revoked flags }
{
    flags & REVOKE != 0
}
