//! How the names of a zone are hashed, in NSEC3 and NSEC3PARAM records (RFC 5155 3.1, 4.1).
ghost use Rattle.std.specs.Prelude.{◌≡◌, ◌≤◌, length, Some, IfOk};
ghost use Rattle.dns_wire.specs.Reading.{octets, place, Gives, ReadsUnless};
ghost use Rattle.dns_grammar.specs.Fields.{Num, no_fault, fields_at};
ghost use Rattle.sec_sigdata.specs.SignatureRows.{nsec3_flags_fault, hash_algorithm_fault, nsec3param_row};
ghost use Rattle.sec_sigdata.specs.HashParameters.{hash_number, opt_out_flags, parameters_data, hash_values, hash_text};
ghost use Rattle.sec_sigdata.specs.HashParameters.{salt_text};

use dns_text::UpperHex;
use dns_wire::{BinDecoder, DecodeError, Octets, OutOfMemory};
use sec_digest::Nsec3HashAlgorithm;
use std::alloc::Global;
use std::fmt;

/// How names are hashed: the algorithm, whether names without signatures may be left out, the rounds behind the first,
/// the salt.
#[derive(Debug, PartialEq, Eq, Hash, Drop)]
pub(crate) struct HashParameters {
    pub(crate) hash_algorithm: Nsec3HashAlgorithm,
    pub(crate) opt_out: bool,
    pub(crate) iterations: u16,
    pub(crate) salt: Octets,
}

impl HashParameters {
    /// The flags (RFC 5155 3.1.2): 1 where names may be left out, and else 0.
    pub(crate) fn flags(&self) -> u8
        ensures { result ≡ opt_out_flags (parameters_data self.now).opt_out }
    {
        u8::from(self.opt_out)
    }

    /// Reads hash algorithm, flags, iterations and salt of data that end at `end`.
    pub(crate) fn read_within(
        alloc: Global,
        decoder: &mut BinDecoder<'_>,
        end: usize,
    ) -> Result<HashParameters, DecodeError>
        requires ahead { place decoder.old ≤ end }
        requires inside { end ≤ length (octets decoder.old) }
        ensures exact { ReadsUnless (λ parameters. hash_values (parameters_data parameters)) result
            decoder.old decoder.new (fields_at nsec3param_row (octets decoder.old) (place decoder.old) end) }
        ensures inside { place decoder.new ≤ end }
    {
        let mut reader = *decoder;
        let hash_algorithm = hash_algorithm(reader.read_u8_within(end)?)?;
        let opt_out = opt_out(reader.read_u8_within(end)?)?;
        let iterations = reader.read_u16_within(end)?;
        let salt = reader.read_counted8_within(end)?;
        let salt = Octets::from_slice(alloc, salt)?;
        *decoder = reader;
        Ok(HashParameters {
            hash_algorithm,
            opt_out,
            iterations,
            salt,
        })
    }

    /// A copy of the parameters.
    pub(crate) fn try_clone(&self) -> Result<HashParameters, OutOfMemory>
        ensures { IfOk result (λ copy. copy ≡ self.now) }
    {
        Ok(HashParameters {
            hash_algorithm: self.hash_algorithm,
            opt_out: self.opt_out,
            iterations: self.iterations,
            salt: self.salt.try_clone()?,
        })
    }
}

/// Whether the number is that of a hash algorithm (RFC 5155 11).
///
/// # Errors
///
/// `UnknownNsec3HashAlgorithm` for any number but 1.
pub fn check_hash_algorithm(number: u8) -> Result<(), DecodeError>
    ensures { result ≡ no_fault (hash_algorithm_fault (Num number)) }
{
    hash_algorithm(number)?;
    Ok(())
}

/// Whether the flags of an NSEC3 or NSEC3PARAM have no other one than Opt-Out (RFC 5155 3.1.2).
///
/// # Errors
///
/// `UnrecognizedNsec3Flags` for any flags but 0 and 1.
pub fn check_nsec3_flags(flags: u8) -> Result<(), DecodeError>
    ensures { result ≡ no_fault (nsec3_flags_fault (Num flags)) }
{
    opt_out(flags)?;
    Ok(())
}

/// The hash algorithm of a number (RFC 5155 11).
fn hash_algorithm(number: u8) -> Result<Nsec3HashAlgorithm, DecodeError>
    ensures test { Gives (λ _. tt) result (no_fault (hash_algorithm_fault (Num number))) }
    ensures number { IfOk result (λ algorithm. hash_number algorithm ≡ number) }
{
    Nsec3HashAlgorithm::try_from(number)
}

/// Whether the flags say Opt-Out (RFC 5155 3.1.2.1). Any other flag is refused.
fn opt_out(flags: u8) -> Result<bool, DecodeError>
    ensures test { Gives (λ _. tt) result (no_fault (nsec3_flags_fault (Num flags))) }
    ensures flags { IfOk result (λ opt_out. opt_out_flags opt_out ≡ flags) }
{
    match flags {
        0 => Ok(false),
        1 => Ok(true),
        _ => Err(DecodeError::UnrecognizedNsec3Flags(flags)),
    }
}

/// A salt, as it is printed.
#[derive(Clone, Copy)]
struct SaltText<'a>(&'a [u8]);

impl fmt::Display for SaltText<'_> {
    ghost output = { λ text. Some (salt_text text.0.now) };

    #[tactic(auto, unfolding(crate::specs::HashParameters::salt_text))]
    fn fmt<W: fmt::Write>(&self, f: &mut fmt::Formatter<W>) -> fmt::Result {
        if self.0.is_empty() {
            write!(f, "-")
        } else {
            write!(f, "{}", UpperHex(self.0))
        }
    }
}

/// Hash number, flags, iterations, salt in upper-case hexadecimal (RFC 5155 3.3).
impl fmt::Display for HashParameters {
    ghost output = { λ parameters. Some (hash_text (parameters_data parameters)) };

    #[tactic(auto, unfolding(crate::specs::HashParameters::hash_text))]
    fn fmt<W: fmt::Write>(&self, f: &mut fmt::Formatter<W>) -> fmt::Result {
        write!(
            f,
            "{} {} {} {}",
            u8::from(self.hash_algorithm),
            self.flags(),
            self.iterations,
            SaltText(self.salt.as_slice())
        )
    }
}
