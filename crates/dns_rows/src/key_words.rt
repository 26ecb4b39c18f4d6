//! The words of a call that write keys and digests of keys by their data.
ghost use Rattle.std.specs.Prelude.{◌≡◌};
ghost use Rattle.dns_wire.specs.Reading.{GivesUnless};
ghost use Rattle.sec_keydata.specs.DnsKeys.{dnskey_data};
ghost use Rattle.sec_keydata.specs.DsData.{ds_data};
ghost use Rattle.dns_rows.specs.declared.refusal.Refusal.TheVariants.{OutOfMemory as no_memory};
ghost use Rattle.dns_rows.specs.KeyWords.{key_in, ds_in};

use crate::call_words::data_octets_in;
use crate::refusal::Refusal;
use dns_wire::{BinDecoder, RecordDataDecodable};
use sec_keydata::{DNSKEY, DS};
use std::alloc::Global;

/// The key whose DNSKEY data a word writes in hexadecimal.
#[tactic(auto, using(crate::proofs::KeyValues::key_of_its_values))]
pub fn key_in(alloc: Global, word: &[u8]) -> Result<DNSKEY, Refusal>
    ensures { GivesUnless no_memory dnskey_data result (key_in word.now) }
{
    let (octets, length) = data_octets_in(alloc, word)?;
    Ok(DNSKEY::read_data(alloc, &mut BinDecoder::new(&octets), length)?)
}

/// The DS whose data a word writes in hexadecimal.
#[tactic(auto, using(crate::proofs::KeyValues::ds_of_its_values))]
pub fn ds_in(alloc: Global, word: &[u8]) -> Result<DS, Refusal>
    ensures { GivesUnless no_memory ds_data result (ds_in word.now) }
{
    let (octets, length) = data_octets_in(alloc, word)?;
    Ok(DS::read_data(alloc, &mut BinDecoder::new(&octets), length)?)
}
