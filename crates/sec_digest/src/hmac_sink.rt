//! HMAC as what takes octets in.
ghost use Rattle.std.specs.Prelude.{◌≡◌, ℕ, List, ◌++◌, []};
ghost use Rattle.dns_wire.specs.Sinks.{Takes};
ghost use Rattle.sec_digest.specs.Hmac.{Feeds, hmac};
ghost use Rattle.sec_digest.specs.Mac.{mac_octets};
ghost use Rattle.sec_digest.specs.PutMacs.{MacOf};

use crate::hmac::{Hmac, HmacHash};
use crate::mac::Mac;
use dns_wire::{EmitError, Form, OctetSink, Putting};

impl OctetSink for Hmac {
    ghost use Rattle.std.specs.Prelude.{ℕ, List};
    ghost use Rattle.sec_digest.specs.declared.hmac.HmacHash.{HmacHash};
    ghost use Rattle.sec_digest.specs.Hmac.{Feeds};

    // the hash function and the key
    ghost Purpose = { HmacHash × List ℕ };

    ghost has_taken = { λ hasher purpose m. Feeds hasher purpose.0 purpose.1 m };

    fn take(&mut self, octets: &[u8]) {
        self.update(octets);
    }
}

/// The MAC of a value's octets.
///
/// # Errors
///
/// The cause for which there are no octets.
pub fn mac_of_put<T: Putting>(
    hash: HmacHash,
    key: &[u8],
    value: &T,
    form: Form,
) -> Result<Mac, EmitError>
    ensures { MacOf result hash key.now (T.written form.canonical_form form.name_encoding value.now) }
{
    let mut hasher = Hmac::new(hash, key);
    value.put(form, &mut hasher)?;
    Ok(hasher.finish())
}
