//! Octets that are made wrong.
ghost use Rattle.std.specs.Prelude.{◌≡◌};
ghost use Rattle.dns_demo.specs.Demo.{turned, turned_if};

/// Turns the lowest bit of the last octet.
#[tactic(auto, unfolding(crate::specs::Demo::turned))]
fn turn(octets: &mut Vec<u8>)
    ensures { octets.new.items ≡ turned octets.old.items }
{
    if !octets.is_empty() {
        let last = octets.len() - 1;
        octets[last] ^= 1;
    }
}

/// Turns it or not.
pub(crate) fn flip_last_bit_if(turned: bool, octets: &mut Vec<u8>)
    ensures { octets.new.items ≡ turned_if turned octets.old.items }
{
    if turned {
        turn(octets);
    }
}
