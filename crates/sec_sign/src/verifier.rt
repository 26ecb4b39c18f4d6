//! Keys that signatures of record sets are checked by (RFC 4035 5.3).
ghost use Rattle.std.specs.Prelude.{◌≡◌, IfOk};
ghost use Rattle.dns_wire.specs.Reading.{Gives, GivesUnless};
ghost use Rattle.sec_codes.specs.DecodedKeys.{key_of, kind_of};
ghost use Rattle.sec_codes.specs.KeyForms.{key_form};
ghost use Rattle.sec_codes.specs.Schemes.{verified};
ghost use Rattle.sec_sigdata.specs.Signatures.{rrsig_data};
ghost use Rattle.sec_sign.specs.Verifying.{rrsig_verified};

use crate::tbs::TBS;
use crate::verify_error::VerifyRrsigError;
use dns_message::Record;
use dns_names::Name;
use dns_rdata::RData;
use dns_types::DNSClass;
use sec_codes::{Algorithm, DecodedKey, KeyError, PublicKey, SignatureScheme, decode_public_key};
use sec_keydata::{DNSKEY, KEY};
use sec_sigdata::RRSIG;
use std::alloc::Global;

/// A record whose key signatures are checked by.
pub trait Verifier {
    ghost use Rattle.sec_codes.specs.KeyForms.{Key};

    // the octets of the key and its algorithm
    ghost checked_by: { Self → Key };

    /// The algorithm of the key.
    fn algorithm(&self) -> Algorithm
        ensures { result ≡ (checked_by self.now).algorithm };

    /// The key in its form. Takes no memory.
    ///
    /// # Errors
    ///
    /// Why the octets lack the form of the algorithm's keys.
    fn key(&self) -> Result<DecodedKey<'_>, KeyError>
        ensures form { Gives kind_of result (key_form (checked_by self.now).algorithm (checked_by self.now).octets) }
        ensures key { IfOk result (λ key. key_of key ≡ checked_by self.now) };

    /// Checks a signature on a message.
    ///
    /// # Errors
    ///
    /// Why the octets lack the form of the algorithm's keys. Where they have it, `Crypto` exactly where the scheme does
    /// not accept the signature. Or `OutOfMemory`.
    fn verify<S: SignatureScheme>(
        &self,
        scheme: &S,
        hash: &[u8],
        signature: &[u8],
    ) -> Result<(), KeyError>
        ensures { GivesUnless KeyError.OutOfMemory (λ done. done) result
            (verified (checked_by self.now).algorithm (checked_by self.now).octets
            (S.accepts scheme.now (checked_by self.now).algorithm (checked_by self.now).octets hash.now signature.now)) }
    {
        self.key()?.verify(scheme, hash, signature)
    }

    /// Checks a signature of the set with this name, this class and the type that the signature covers, among the
    /// records. Times, signer, key tag and zone flag are not looked at.
    ///
    /// # Errors
    ///
    /// `Tbs` with the cause why there are no octets that it could be of. Else `Key`, as `verify`. Or `OutOfMemory`.
    fn verify_rrsig<S: SignatureScheme>(
        &self,
        alloc: Global,
        scheme: &S,
        name: &Name,
        dns_class: DNSClass,
        sig: &RRSIG,
        records: &[Record<RData>],
    ) -> Result<(), VerifyRrsigError>
        ensures { GivesUnless VerifyRrsigError.OutOfMemory (λ done. done) result
            (rrsig_verified (S.accepts scheme.now) (checked_by self.now) (rrsig_data sig.now) name.now dns_class
            records.now) }
    {
        let tbs = TBS::from_input(alloc, name, dns_class, sig.input(), records)?;
        self.verify(scheme, tbs.as_slice(), sig.sig())?;
        Ok(())
    }
}

impl Verifier for DNSKEY {
    ghost use Rattle.sec_keydata.specs.DnsKeys.{dnskey_data};

    ghost checked_by = { λ key. (dnskey_data key).public_key };

    fn algorithm(&self) -> Algorithm {
        self.public_key().algorithm()
    }

    fn key(&self) -> Result<DecodedKey<'_>, KeyError> {
        let key = self.public_key();
        decode_public_key(key.public_bytes(), key.algorithm())
    }
}

impl Verifier for KEY {
    ghost use Rattle.sec_keydata.specs.KeyData.{key_data};

    ghost checked_by = { λ key. record {
      octets = (key_data key).public_key;
      algorithm = (key_data key).algorithm;
    } };

    fn algorithm(&self) -> Algorithm {
        self.algorithm()
    }

    fn key(&self) -> Result<DecodedKey<'_>, KeyError> {
        decode_public_key(self.public_key(), self.algorithm())
    }
}
