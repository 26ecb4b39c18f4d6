//! The tags of keys (RFC 4034 appendix B).
ghost use Rattle.std.specs.Prelude.{◌≡◌, ◌≤◌, ◌<◌, ◌*◌, ◌-◌, ◌^◌, length};
ghost use Rattle.sec_keydata.specs.DnsKeys.{dnskey_data};
ghost use Rattle.sec_keydata.specs.KeyTags.{octet_sum, tag_of_sum, key_tag, dnskey_tag, is_tag};

use crate::dnskey::DNSKEY;
use crate::key_data_error::KeyDataError;

impl DNSKEY {
    /// The tag of the key, by which a DS or an RRSIG names it (RFC 4034 appendix B). It is computed in this way for
    /// every algorithm. Takes no memory.
    ///
    /// # Errors
    ///
    /// `DataTooLong` exactly where the key has more than 65,531 octets.
    pub fn calculate_key_tag(&self) -> Result<u16, KeyDataError>
        ensures { result ≡ dnskey_tag (dnskey_data self.now) }
    {
        self.fields().tag()
    }

    /// Whether the key has this tag. One of more than 65,531 octets has none.
    pub fn has_tag(&self, tag: u16) -> bool
        ensures { result ≡ is_tag (dnskey_tag (dnskey_data self.now)) tag }
    {
        match self.calculate_key_tag() {
            Ok(of_key) => of_key == tag,
            Err(_) => false,
        }
    }

    /// The tag of a DNSKEY whose data are these octets (RFC 4034 appendix B).
    pub fn calculate_key_tag_internal(octets: &[u8]) -> u16
        requires { length octets.now < 2 ^ 16 }
        ensures { result ≡ key_tag octets.now }
    {
        tag_of_sum(octet_sum(octets))
    }
}

/// The sum of octets, those at even places times 256.
pub(crate) fn octet_sum(octets: &[u8]) -> u32
    requires { length octets.now < 2 ^ 16 }
    ensures sum { result ≡ octet_sum octets.now }
    ensures at_most { result ≤ 65280 * length octets.now }
{
    let mut sum = 0u32;
    for (place, octet) in octets.iter().enumerate() {
        let weight = if place % 2 == 0 { 256 } else { 1 };
        sum += weight * u32::from(*octet);
    }
    sum
}

/// The tag of a sum: what passes sixteen bits is added to it, and the tag is the last sixteen bits.
pub(crate) fn tag_of_sum(sum: u32) -> u16
    requires { sum < 2 ^ 32 - 2 ^ 16 }
    ensures { result ≡ tag_of_sum sum }
{
    ((sum + (sum >> 16)) % 0x10000) as u16
}
