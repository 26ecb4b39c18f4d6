//! The octets of a record set that are signed, put into what takes octets in (RFC 4034 3.1.8.1).
ghost use Rattle.std.specs.Prelude.{◌<◌, ◌^◌, length};
ghost use Rattle.dns_wire.specs.Sinks.{Takes};
ghost use Rattle.sec_sign.specs.Signed.{header_octets, record_octets};
ghost use Rattle.sec_sign.specs.SignedSets.{head_of};

use dns_grammar::FieldOut;
use dns_message::BorrowedRecord;
use dns_names::Name;
use dns_types::{DNSClass, RecordType};
use dns_wire::{EmitError, Form, NameEncoding, OctetSink, Putting};
use sec_sigdata::SigInput;

/// How what is signed is written: in canonical form, and names as they are given.
pub const CANONICAL: Form = Form {
    canonical_form: true,
    name_encoding: NameEncoding::Uncompressed,
};

/// What comes before the data of each record of a set as they are signed.
#[derive(Clone, Copy, Debug)]
pub struct SignedHead<'a> {
    /// The owner as it is signed, in lower case.
    pub owner: &'a Name,
    /// The type of the records.
    pub rtype: RecordType,
    /// Their class.
    pub dns_class: DNSClass,
    /// Their original TTL, in seconds.
    pub original_ttl: u32,
}

/// The data of a record set in canonical form, in ascending order and each once (RFC 4034 6.3), wherever they are held.
pub trait CanonicalData {
    ghost use Rattle.std.specs.Prelude.{ℕ, List};
    ghost use Rattle.dns_wire.specs.Sinks.{Takes};
    ghost use Rattle.sec_sign.specs.Signed.{records_octets};
    ghost use Rattle.sec_sign.specs.SignedSets.{head_of};

    // the data, in order
    ghost strings: { Self → List (List ℕ) };

    /// Puts a record with this head for each of the data, in their order.
    fn put_records<S: OctetSink>(&self, head: &SignedHead<'_>, sink: &mut S)
        ensures { Takes S.has_taken sink.old sink.new (records_octets (head_of head.now) (strings self.now)) };
}

/// Puts a record with this head and these data, which are in canonical form.
#[tactic(auto, using(crate::proofs::SignedWriting::put_surely, crate::proofs::SignedWriting::record_written))]
pub fn put_signed_record<S: OctetSink>(head: &SignedHead<'_>, rdata: &[u8], sink: &mut S)
    requires { length rdata.now < 2 ^ 16 }
    ensures { Takes S.has_taken sink.old sink.new (record_octets (head_of head.now) rdata.now) }
{
    let rr = BorrowedRecord {
        name: head.owner,
        rtype: head.rtype,
        dns_class: head.dns_class,
        ttl: head.original_ttl,
        rdata: &FieldOut::Octets(rdata),
    };
    let _ = rr.put(CANONICAL, sink);
}

/// Puts the data of an RRSIG up to the signature, in canonical form.
#[tactic(auto, using(crate::proofs::SignedWriting::put_surely, crate::proofs::SignedWriting::header_written))]
fn put_header<S: OctetSink>(input: &SigInput, sink: &mut S)
    ensures { Takes S.has_taken sink.old sink.new (header_octets input.now) }
{
    let _ = input.put(CANONICAL, sink);
}

/// A record set as a signature of it covers it (RFC 4034 3.1.8.1).
#[derive(Clone, Copy, Debug)]
pub struct SignedSet<'a, D> {
    /// The owner as it is signed (RFC 4035 5.3.2).
    pub owner: &'a Name,
    /// The class.
    pub dns_class: DNSClass,
    /// The fields of the RRSIG before the signature, whose type covered is that of the set.
    pub input: &'a SigInput,
    /// The data.
    pub strings: &'a D,
}

impl<D: CanonicalData> Putting for SignedSet<'_, D> {
    ghost use Rattle.std.specs.Prelude.{Ok};
    ghost use Rattle.sec_sign.specs.Signed.{signed_octets};

    ghost written = { λ _ _ set. Ok (signed_octets set.owner.now set.input.now set.dns_class
        (D.strings set.strings.now)) };

    /// Puts what is signed, which is in canonical form whatever the form.
    #[tactic(auto, unfolding(crate::specs::Signed::signed_octets))]
    fn put<S: OctetSink>(&self, _form: Form, sink: &mut S) -> Result<(), EmitError> {
        put_header(self.input, sink);
        let owner = self.owner.to_lowercase();
        let head = SignedHead {
            owner: &owner,
            rtype: self.input.type_covered,
            dns_class: self.dns_class,
            original_ttl: self.input.original_ttl,
        };
        self.strings.put_records(&head, sink);
        Ok(())
    }
}
