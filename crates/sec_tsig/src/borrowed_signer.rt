//! Signers whose key is the caller's.
ghost use Rattle.std.specs.Prelude.{◌≡◌, ◌<◌, ◌^◌, ℕ, List, [], length, false, Ok, IsOk};
ghost use Rattle.std.specs.Option.{option_copied, ForSome};
ghost use Rattle.dns_wire.specs.declared.encoder.NameEncoding.TheVariants.{Uncompressed};
ghost use Rattle.sec_digest.specs.Hmac.{Feeds, hmac, mac_len};
ghost use Rattle.sec_digest.specs.Mac.{mac_octets};
ghost use Rattle.sec_sigdata.specs.TsigAlgorithms.{algorithm_with};
ghost use Rattle.sec_sigdata.specs.TsigRecords.{borrowed_data, borrowed_fields};
ghost use Rattle.sec_tsig.specs.Signers.{signing_mac, tsig_by};
ghost use Rattle.sec_tsig.specs.Tsig.{IsCounted, mac_input};

use crate::mac_input::{MacInput, put_input};
use dns_grammar::FieldOut;
use dns_names::Name;
use dns_wire::Putting;
use sec_digest::{Hmac, HmacHash, Mac};
use sec_sigdata::{BorrowedTsig, TsigAlgorithm, TsigError, TsigVariables};
use std::marker::Model;

/// A signer whose key and name are borrowed: what signs and checks without memory.
#[derive(Drop)]
pub struct BorrowedSigner<'a> {
    key: &'a [u8],
    // the hash function of the algorithm
    hash: HmacHash,
    name: &'a Name,
    fudge: u16,
}

impl<'a> Model for BorrowedSigner<'a> {
    ghost use Rattle.sec_tsig.specs.Signers.{Signer};

    ghost Value = { Signer };

    ghost view = { λ s. record { key = s.key.now; algorithm = s.hash; name = s.name.now; fudge = s.fudge } };
}

impl<'a> BorrowedSigner<'a> {
    /// A signer with this key, HMAC with this hash function, and this name, and the fudge of what it signs, in seconds.
    pub fn new(key: &'a [u8], hash: HmacHash, name: &'a Name, fudge: u16) -> BorrowedSigner<'a>
        ensures { result ≡ record { key = key.now; algorithm = hash; name = name.now; fudge = fudge } }
    {
        BorrowedSigner {
            key,
            hash,
            name,
            fudge,
        }
    }

    /// The hash function of the algorithm.
    pub(crate) fn hash(&self) -> HmacHash
        ensures { result ≡ self.now.algorithm }
    {
        self.hash
    }

    /// The algorithm.
    pub(crate) fn algorithm(&self) -> TsigAlgorithm
        ensures { result ≡ algorithm_with self.now.algorithm }
    {
        TsigAlgorithm::from(self.hash)
    }

    /// The name of the key.
    pub(crate) fn signer_name(&self) -> &'a Name
        ensures { result.now ≡ self.now.name }
    {
        self.name
    }

    /// A hasher of nothing under the key.
    pub(crate) fn hasher(&self) -> Hmac
        ensures { Feeds result self.now.algorithm self.now.key [] }
    {
        Hmac::new(self.hash, self.key)
    }

    /// The number of octets of a MAC.
    pub(crate) fn mac_len(&self) -> usize
        ensures { result ≡ mac_len self.now.algorithm }
    {
        self.hash.output_len()
    }

    /// The owner and the data of a TSIG by this signer, without a MAC.
    pub(crate) fn tsig_by(
        &self,
        time: u64,
        oid: u16,
        error: Option<TsigError>,
        other: &'a [u8],
    ) -> TsigVariables<'a>
        ensures owner { result.key_name.now ≡ self.now.name }
        ensures fields { borrowed_fields result.tsig ≡ tsig_by self.now time oid error other.now }
    {
        TsigVariables {
            key_name: self.name,
            tsig: BorrowedTsig {
                algorithm: self.algorithm(),
                time,
                fudge: self.fudge,
                mac: &[],
                oid,
                error,
                other,
            },
        }
    }

    /// The MAC of a message whose fields fit.
    pub(crate) fn mac_of<M: Putting>(&self, input: &MacInput<'_, M>) -> Mac
        requires message { IsOk (M.written false Uncompressed input.now.message) }
        requires previous { ForSome (option_copied input.now.previous) IsCounted }
        requires time { input.now.variables.now.tsig.time < 2 ^ 48 }
        requires other { length input.now.variables.now.tsig.other.now < 2 ^ 16 }
        ensures { (octets : List ℕ) → M.written false Uncompressed input.now.message ≡ Ok octets
            → mac_octets result ≡ hmac self.now.algorithm self.now.key (mac_input (option_copied input.now.previous)
            input.now.is_first octets input.now.variables.now.key_name.now (borrowed_data input.now.variables.now.tsig)) }
    {
        let mut hasher = self.hasher();
        put_input(&mut hasher, input);
        hasher.finish()
    }

    /// The MAC of octets that are sent with a TSIG record of this signer with these data.
    pub(crate) fn signing_mac<'m>(
        &self,
        previous: Option<&'m [u8]>,
        first: bool,
        octets: &'m [u8],
        variables: &'m TsigVariables<'m>,
    ) -> Mac
        requires previous { ForSome (option_copied previous) IsCounted }
        requires owner { variables.now.key_name.now ≡ self.now.name }
        requires time { variables.now.tsig.time < 2 ^ 48 }
        requires other { length variables.now.tsig.other.now < 2 ^ 16 }
        ensures { mac_octets result ≡ signing_mac self.now (option_copied previous.entry) first octets.now
            (borrowed_fields variables.now.tsig) }
    {
        self.mac_of(&MacInput {
            previous,
            message: FieldOut::Octets(octets),
            is_first: first,
            variables,
        })
    }
}
