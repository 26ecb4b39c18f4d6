//! Numbers of record types and of classes.
ghost use Rattle.std.specs.Prelude.{◌≡◌, Some, map};
ghost use Rattle.std.specs.Option.{option_map};
ghost use Rattle.dns_wire.specs.Lookup.{lookup};
ghost use Rattle.dns_types.specs.Codes.{type_text, class_text};

use std::fmt;
use std::marker::Model;

/// The types that have a mnemonic here, with it (IANA, Resource Record TYPEs).
pub(crate) const TYPES: [(u16, &str); 38] = [
    (RecordType::A.0, "A"),
    (RecordType::NS.0, "NS"),
    (RecordType::MD.0, "MD"),
    (RecordType::MF.0, "MF"),
    (RecordType::CNAME.0, "CNAME"),
    (RecordType::SOA.0, "SOA"),
    (RecordType::MB.0, "MB"),
    (RecordType::MG.0, "MG"),
    (RecordType::MR.0, "MR"),
    (RecordType::NULL.0, "NULL"),
    (RecordType::PTR.0, "PTR"),
    (RecordType::MINFO.0, "MINFO"),
    (RecordType::MX.0, "MX"),
    (RecordType::TXT.0, "TXT"),
    (RecordType::RP.0, "RP"),
    (RecordType::AFSDB.0, "AFSDB"),
    (RecordType::RT.0, "RT"),
    (RecordType::SIG.0, "SIG"),
    (RecordType::KEY.0, "KEY"),
    (RecordType::PX.0, "PX"),
    (RecordType::AAAA.0, "AAAA"),
    (RecordType::SRV.0, "SRV"),
    (RecordType::NAPTR.0, "NAPTR"),
    (RecordType::KX.0, "KX"),
    (RecordType::DNAME.0, "DNAME"),
    (RecordType::OPT.0, "OPT"),
    (RecordType::DS.0, "DS"),
    (RecordType::RRSIG.0, "RRSIG"),
    (RecordType::NSEC.0, "NSEC"),
    (RecordType::DNSKEY.0, "DNSKEY"),
    (RecordType::NSEC3.0, "NSEC3"),
    (RecordType::NSEC3PARAM.0, "NSEC3PARAM"),
    (RecordType::CDS.0, "CDS"),
    (RecordType::CDNSKEY.0, "CDNSKEY"),
    (RecordType::TSIG.0, "TSIG"),
    (RecordType::IXFR.0, "IXFR"),
    (RecordType::AXFR.0, "AXFR"),
    (RecordType::ANY.0, "ANY"),
];

/// The classes that have a mnemonic here, with it (IANA, DNS CLASSes).
pub(crate) const CLASSES: [(u16, &str); 5] = [
    (DNSClass::IN.0, "IN"),
    (DNSClass::CH.0, "CH"),
    (DNSClass::HS.0, "HS"),
    (DNSClass::NONE.0, "NONE"),
    (DNSClass::ANY.0, "ANY"),
];

/// The mnemonic beside a number.
fn mnemonic(codes: &[(u16, &'static str)], number: u16) -> Option<&'static str>
    ensures { option_map (λ text. text.now) result
        ≡ lookup (map (λ entry. (entry.0, entry.1.now)) codes.now) number }
{
    'codes: for (code, mnemonic) in codes {
        if *code == number {
            return Some(mnemonic);
        }
    }
    None
}

/// A type of record, by its number. A contract sees the number.
#[derive(Clone, Copy, Debug, PartialEq, Eq, Hash)]
pub struct RecordType(u16);

impl Model for RecordType {
    ghost use Rattle.std.specs.Prelude.{ℕ};

    ghost Value = { ℕ };

    ghost view = { λ t. t.0 };

    ghost inverse = { λ n. record { 0 = n } };
}

/// The types that have a mnemonic here.
impl RecordType {
    /// An IPv4 address.
    pub const A: RecordType = RecordType(1);

    /// A name server.
    pub const NS: RecordType = RecordType(2);

    /// A mail destination.
    pub const MD: RecordType = RecordType(3);

    /// A mail forwarder.
    pub const MF: RecordType = RecordType(4);

    /// An alias.
    pub const CNAME: RecordType = RecordType(5);

    /// The start of a zone.
    pub const SOA: RecordType = RecordType(6);

    /// A mailbox.
    pub const MB: RecordType = RecordType(7);

    /// A member of a mail group.
    pub const MG: RecordType = RecordType(8);

    /// Another name of a mailbox.
    pub const MR: RecordType = RecordType(9);

    /// Any octets.
    pub const NULL: RecordType = RecordType(10);

    /// A pointer to a name.
    pub const PTR: RecordType = RecordType(12);

    /// Mailboxes of a mailing list.
    pub const MINFO: RecordType = RecordType(14);

    /// A mail exchange.
    pub const MX: RecordType = RecordType(15);

    /// Text.
    pub const TXT: RecordType = RecordType(16);

    /// A responsible person.
    pub const RP: RecordType = RecordType(17);

    /// A server of an AFS cell.
    pub const AFSDB: RecordType = RecordType(18);

    /// A route through another host.
    pub const RT: RecordType = RecordType(21);

    /// A signature of the older form.
    pub const SIG: RecordType = RecordType(24);

    /// A key of the older form.
    pub const KEY: RecordType = RecordType(25);

    /// Mail between RFC 822 and X.400.
    pub const PX: RecordType = RecordType(26);

    /// An IPv6 address.
    pub const AAAA: RecordType = RecordType(28);

    /// A service.
    pub const SRV: RecordType = RecordType(33);

    /// A naming authority pointer.
    pub const NAPTR: RecordType = RecordType(35);

    /// A key exchanger.
    pub const KX: RecordType = RecordType(36);

    /// An alias of a subtree.
    pub const DNAME: RecordType = RecordType(39);

    /// Options of EDNS.
    pub const OPT: RecordType = RecordType(41);

    /// A delegation signer.
    pub const DS: RecordType = RecordType(43);

    /// A signature of a record set.
    pub const RRSIG: RecordType = RecordType(46);

    /// The next name of a zone.
    pub const NSEC: RecordType = RecordType(47);

    /// A key of a zone.
    pub const DNSKEY: RecordType = RecordType(48);

    /// The next hashed name of a zone.
    pub const NSEC3: RecordType = RecordType(50);

    /// How a zone's names are hashed.
    pub const NSEC3PARAM: RecordType = RecordType(51);

    /// A DS record that the child asks for.
    pub const CDS: RecordType = RecordType(59);

    /// A DNSKEY that the child asks for.
    pub const CDNSKEY: RecordType = RecordType(60);

    /// A signature of a message.
    pub const TSIG: RecordType = RecordType(250);

    /// A transfer of what changed.
    pub const IXFR: RecordType = RecordType(251);

    /// A transfer of a zone.
    pub const AXFR: RecordType = RecordType(252);

    /// All types.
    pub const ANY: RecordType = RecordType(255);
}

impl From<u16> for RecordType {
    ghost from_gives = { λ n t. t ≡ n };

    fn from(number: u16) -> RecordType {
        RecordType(number)
    }
}

impl From<RecordType> for u16 {
    ghost from_gives = { λ t n. n ≡ t };

    fn from(rtype: RecordType) -> u16 {
        rtype.0
    }
}

impl fmt::Display for RecordType {
    ghost output = { λ t. Some (type_text t) };

    fn fmt<W: fmt::Write>(&self, f: &mut fmt::Formatter<W>) -> fmt::Result {
        match mnemonic(&TYPES, self.0) {
            Some(mnemonic) => f.write_str(mnemonic),
            None => write!(f, "TYPE{}", self.0),
        }
    }
}

/// A class of records, by its number. A contract sees the number.
#[derive(Clone, Copy, Debug, PartialEq, Eq, Hash)]
pub struct DNSClass(u16);

impl Model for DNSClass {
    ghost use Rattle.std.specs.Prelude.{ℕ};

    ghost Value = { ℕ };

    ghost view = { λ c. c.0 };

    ghost inverse = { λ n. record { 0 = n } };
}

/// The classes that have a mnemonic here.
impl DNSClass {
    /// The Internet.
    pub const IN: DNSClass = DNSClass(1);

    /// Chaosnet.
    pub const CH: DNSClass = DNSClass(3);

    /// Hesiod.
    pub const HS: DNSClass = DNSClass(4);

    /// No class.
    pub const NONE: DNSClass = DNSClass(254);

    /// All classes.
    pub const ANY: DNSClass = DNSClass(255);
}

impl From<u16> for DNSClass {
    ghost from_gives = { λ n c. c ≡ n };

    fn from(number: u16) -> DNSClass {
        DNSClass(number)
    }
}

impl From<DNSClass> for u16 {
    ghost from_gives = { λ c n. n ≡ c };

    fn from(dns_class: DNSClass) -> u16 {
        dns_class.0
    }
}

impl fmt::Display for DNSClass {
    ghost output = { λ c. Some (class_text c) };

    fn fmt<W: fmt::Write>(&self, f: &mut fmt::Formatter<W>) -> fmt::Result {
        match mnemonic(&CLASSES, self.0) {
            Some(mnemonic) => f.write_str(mnemonic),
            None => write!(f, "CLASS{}", self.0),
        }
    }
}
