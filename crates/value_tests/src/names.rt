//! Names as keys of maps, as labels, and through a pointer cache (RFC 1035 section 4.1.4).
ghost use Rattle.std.specs.Prelude.{◌≤◌, length};
ghost use Rattle.dns_names.specs.PointerCache.{IsPointerCache};

use dns_names::{Label, Name, with_pointer_cache};
use dns_wire::{BinDecoder, DecodeError};
use std::collections::{BTreeMap, BTreeSet};
use std::test::Fail;

#[test]
fn names_are_kept_in_order(rt: HostRuntime) -> Result<(), Fail> {
    let sorted = ["example.", "a.example.", "Z.a.example.", "*.z.example."];
    let mut set = BTreeSet::new(rt.alloc());
    let mut counts = BTreeMap::new(rt.alloc());
    for text in [sorted[2], sorted[0], sorted[3], sorted[1]] {
        let name = Name::from_ascii(text)?;
        set.insert(name)?;
        *counts.entry(name)?.or_insert(0) = name.num_labels();
    }
    for (name, text) in set.iter().zip(sorted) {
        assert_eq!(rt; name.to_string(rt.alloc())?.as_str(), text);
    }
    assert_eq!(rt; counts.get(&Name::from_ascii("z.A.EXAMPLE")?), Some(&3));
    Ok(())
}

#[test]
fn labels_make_names_and_come_back(rt: HostRuntime) -> Result<(), Fail> {
    let labels = [b"a.b".as_slice(), b"C"];
    let name = Name::from_labels(&[Label::from_bytes(labels[0])?, Label::from_bytes(labels[1])?])?;
    let mut rest = name.iter();
    assert_eq!(rt; rest.next(), Some(labels[0]));
    assert_eq!(rt; rest.next(), Some(labels[1]));
    assert_eq!(rt; rest.next(), None);
    Ok(())
}

/// Skips the first name at `place`, and reads the one after it.
fn second_name(
    message: &[u8],
    place: usize,
    cache: &mut [u16],
) -> Result<(Name, usize), DecodeError>
    requires at { place ≤ length message.now }
    requires cache { IsPointerCache message.now cache.old }
{
    let mut decoder = BinDecoder::new(message);
    decoder.set_index(place);
    let end = message.len();
    Name::skip_with(&mut decoder, end, cache)?;
    let name = Name::read_with(&mut decoder, end, cache)?;
    Ok((name, decoder.index()))
}

#[test]
fn names_are_read_through_a_pointer_cache(rt: HostRuntime) -> Result<(), Fail> {
    // `a` at 0 and three pointers, each to the one before; then `b.a` twice, each by the last pointer
    let mut octets = [0u8; 513];
    octets[..9].copy_from_slice(b"\x01a\x00\xc0\x00\xc0\x03\xc0\x05");
    octets[9..17].copy_from_slice(b"\x01b\xc0\x07\x01b\xc0\x07");
    // a message with a small table, and one with a large table
    for message in [&octets[..17], &octets[..]] {
        let (name, next) = with_pointer_cache(message, |cache| second_name(message, 9, cache))?;
        assert!(rt; name == Name::from_ascii("b.a")?);
        assert_eq!(rt; next, 17);
    }
    Ok(())
}
