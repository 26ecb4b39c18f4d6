//! A caller that feeds HMAC in a loop, and texts of base32.
ghost use Rattle.std.specs.Prelude.{◌≡◌};
ghost use Rattle.std.specs.List.{flat_map};
ghost use Rattle.sec_digest.specs.Hmac.{hmac};
ghost use Rattle.sec_digest.specs.Mac.{mac_octets};

use sec_digest::{Hmac, HmacHash, Mac, base32_dnssec};
use std::test::Fail;

/// The MAC of a message in pieces.
fn mac_of_pieces(hash: HmacHash, key: &[u8], pieces: &[&[u8]]) -> Mac
    ensures { mac_octets result ≡ hmac hash key.now (flat_map (λ piece. piece.now) pieces.now) }
{
    let mut hmac = Hmac::new(hash, key);
    for piece in pieces {
        hmac.update(piece);
    }
    hmac.finish()
}

#[test]
fn a_message_in_pieces_has_the_mac_of_the_whole(rt: HostRuntime) {
    for hash in [HmacHash::Sha256, HmacHash::Sha384, HmacHash::Sha512] {
        let whole = mac_of_pieces(hash, b"Jefe", &[b"what do ya want for nothing?"]);
        let mac = mac_of_pieces(hash, b"Jefe", &[b"what do ya want ", b"", b"for nothing?"]);
        assert_eq!(rt; mac.as_slice(), whole.as_slice());
    }
}

#[test]
fn octets_have_a_text_in_base32(rt: HostRuntime) -> Result<(), Fail> {
    // RFC 4648 section 10
    assert_eq!(rt;
        base32_dnssec(rt.alloc(), b"foobar")?.as_str(),
        "cpnmuoj1e8"
    );
    Ok(())
}
