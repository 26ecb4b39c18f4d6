//! Names read where they stand (RFC 1035 4.1.4).
ghost use Rattle.std.specs.Prelude.{◌≡◌, ℕ, ◌≤◌, List, length, IsOk, IfOk, OnOk, Ok};
ghost use Rattle.dns_wire.specs.Reading.{octets, place, Gives, Reads};
ghost use Rattle.dns_names.specs.Names.{IsName};
ghost use Rattle.dns_names.specs.Places.{NameAt, name_at};
ghost use Rattle.dns_names.specs.PointerCache.{IsPointerCache};
ghost use Rattle.dns_names.specs.Skipping.{without_value};

use crate::label_reader::{LabelReader, Step};
use crate::name::Name;
use dns_wire::{BinDecoder, DecodeError};

impl Name {
    /// Reads the name at the decoder's place, its first run ending at or before `end`. A pointer leads before the first
    /// octet of its own run.
    ///
    /// Pointers that were followed before are known from `cache`, and those that are met are noted there.
    ///
    /// # Errors
    ///
    /// `InsufficientBytes` where an octet is needed past the end, `NameMalformed` for a length octet of 64 to 191, for
    /// a pointer that does not lead before its run and for a wire form above 255 octets: the first octet that fails
    /// decides. The decoder then stays in place.
    pub fn read_with(
        decoder: &mut BinDecoder<'_>,
        end: usize,
        cache: &mut [u16],
    ) -> Result<Name, DecodeError>
        requires ahead { place decoder.old ≤ end }
        requires inside { end ≤ length (octets decoder.old) }
        requires cache { IsPointerCache (octets decoder.old) cache.old }
        ensures found { IfOk result (λ n. NameAt (octets decoder.old) (place decoder.old) end n (place decoder.new)) }
        ensures only { (n : List (List ℕ)) (next : ℕ) → NameAt (octets decoder.old) (place decoder.old) end n next
            → (result ≡ Ok n) × (place decoder.new ≡ next) }
        ensures exact { Reads (λ n. n) result decoder.old decoder.new
            (name_at (octets decoder.old) (place decoder.old) end) }
        ensures name { IfOk result IsName }
        ensures cache { IsPointerCache (octets decoder.old) cache.new }
        ensures inside { place decoder.new ≤ end }
    {
        let (name, next) = read_at(decoder.buffer(), decoder.index(), end, cache)?;
        // The field shows the proof that the value is a name.
        let _ = name.len();
        decoder.set_index(next);
        Ok(name)
    }

    /// Skips the name at the decoder's place, as `read_with` reads it.
    ///
    /// # Errors
    ///
    /// Those of `read_with`.
    pub fn skip_with(
        decoder: &mut BinDecoder<'_>,
        end: usize,
        cache: &mut [u16],
    ) -> Result<(), DecodeError>
        requires ahead { place decoder.old ≤ end }
        requires inside { end ≤ length (octets decoder.old) }
        requires cache { IsPointerCache (octets decoder.old) cache.old }
        ensures found { OnOk result
            ((n : List (List ℕ)) × NameAt (octets decoder.old) (place decoder.old) end n (place decoder.new)) }
        ensures only { (n : List (List ℕ)) (next : ℕ) → NameAt (octets decoder.old) (place decoder.old) end n next
            → IsOk result × (place decoder.new ≡ next) }
        ensures exact { Reads (λ x. x) result decoder.old decoder.new
            (without_value (name_at (octets decoder.old) (place decoder.old) end)) }
        ensures cache { IsPointerCache (octets decoder.old) cache.new }
        ensures inside { place decoder.new ≤ end }
    {
        let next = skip_at(decoder.buffer(), decoder.index(), end, cache)?;
        decoder.set_index(next);
        Ok(())
    }

    /// Reads the name at the decoder's place, its first run ending at or before `end`. A pointer leads before the first
    /// octet of its own run.
    ///
    /// # Errors
    ///
    /// `InsufficientBytes` where an octet is needed past the end, `NameMalformed` for a length octet of 64 to 191, for
    /// a pointer that does not lead before its run and for a wire form above 255 octets: the first octet that fails
    /// decides. The decoder then stays in place.
    pub fn read_within(decoder: &mut BinDecoder<'_>, end: usize) -> Result<Name, DecodeError>
        requires ahead { place decoder.old ≤ end }
        requires inside { end ≤ length (octets decoder.old) }
        ensures found { IfOk result (λ n. NameAt (octets decoder.old) (place decoder.old) end n (place decoder.new)) }
        ensures only { (n : List (List ℕ)) (next : ℕ) → NameAt (octets decoder.old) (place decoder.old) end n next
            → (result ≡ Ok n) × (place decoder.new ≡ next) }
        ensures exact { Reads (λ n. n) result decoder.old decoder.new
            (name_at (octets decoder.old) (place decoder.old) end) }
        ensures name { IfOk result IsName }
        ensures inside { place decoder.new ≤ end }
    {
        Name::read_with(decoder, end, &mut [])
    }

    /// Reads the name at the decoder's place, as `read_within` up to the end of the octets.
    ///
    /// # Errors
    ///
    /// Those of `read_within`.
    pub fn read(decoder: &mut BinDecoder<'_>) -> Result<Name, DecodeError>
        ensures found { let m = octets decoder.old in
            IfOk result (λ n. NameAt m (place decoder.old) (length m) n (place decoder.new)) }
        ensures only { let m = octets decoder.old in
            (n : List (List ℕ)) (next : ℕ) → NameAt m (place decoder.old) (length m) n next
            → (result ≡ Ok n) × (place decoder.new ≡ next) }
        ensures exact { let m = octets decoder.old in
            Reads (λ n. n) result decoder.old decoder.new (name_at m (place decoder.old) (length m)) }
        ensures name { IfOk result IsName }
        ensures inside { place decoder.new ≤ length (octets decoder.new) }
    {
        let end = decoder.index() + decoder.len();
        Name::read_within(decoder, end)
    }
}

/// The name at `place`, its first run ending at or before `end`, and the place behind that run.
#[tactic(auto, using(crate::proofs::Chains::reading))]
fn read_at(
    octets: &[u8],
    place: usize,
    end: usize,
    cache: &mut [u16],
) -> Result<(Name, usize), DecodeError>
    requires inside { end ≤ length octets.now }
    requires cache { IsPointerCache octets.now cache.old }
    ensures value { result ≡ name_at octets.now place end }
    ensures cache { IsPointerCache octets.now cache.new }
{
    let mut reader = LabelReader::new(octets, place, end);
    let mut name = Name::root();
    'steps: loop {
        match reader.step(cache)? {
            Step::Label(label) => name.push(label),
            Step::Pointer => (),
            Step::Root(next) => return Ok((name, next)),
        }
    }
}

/// The place behind the name at `place`, whose first run ends at or before `end`.
#[tactic(auto, using(crate::proofs::Chains::skipping))]
fn skip_at(octets: &[u8], place: usize, end: usize, cache: &mut [u16]) -> Result<usize, DecodeError>
    requires inside { end ≤ length octets.now }
    requires cache { IsPointerCache octets.now cache.old }
    ensures value { Gives (λ next. (tt, next)) result (without_value (name_at octets.now place end)) }
    ensures cache { IsPointerCache octets.now cache.new }
{
    let mut reader = LabelReader::new(octets, place, end);
    'steps: loop {
        if let Step::Root(next) = reader.step(cache)? {
            return Ok(next);
        }
    }
}
