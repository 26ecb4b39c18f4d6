//! Times in six octets (RFC 8945 4.2).
ghost use Rattle.std.specs.Prelude.{◌≡◌, ◌<◌, ◌^◌};
ghost use Rattle.dns_wire.specs.Octets.{six_octets};

/// A time of 48 bits in six octets, the highest first.
pub fn time_octets(time: u64) -> [u8; 6]
    requires { time < 2 ^ 48 }
    ensures { result ≡ six_octets time }
{
    let high = ((time / 0x1_0000_0000) as u16).to_be_bytes();
    let low = ((time % 0x1_0000_0000) as u32).to_be_bytes();
    [high[0], high[1], low[0], low[1], low[2], low[3]]
}
