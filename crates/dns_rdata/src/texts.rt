//! Record data as text (RFC 1035 5.1, RFC 3597 5).
ghost use Rattle.std.specs.Prelude.{◌≡◌, Some};
ghost use Rattle.std.specs.List.{flat_map};
ghost use Rattle.dns_rdata.specs.RData.{rdata_text};
ghost use Rattle.dns_rdata.specs.Texts.{quoted_octet, quoted_text, strings_text, unknown_text, behind_length};
ghost use Rattle.dns_rdata.specs.Texts.{soa_times_text, soa_text, srv_text, naptr_strings_text, naptr_text};

use crate::naptr::NAPTR;
use crate::rdata::RData;
use crate::soa::SOA;
use crate::srv::SRV;
use dns_text::UpperHex;
use dns_wire::Octets;
use std::fmt;
use std::net::{Ipv4Addr, Ipv6Addr};

/// An octet of a string.
#[derive(Clone, Copy)]
struct QuotedOctet(u8);

impl fmt::Display for QuotedOctet {
    ghost output = { λ text. Some (quoted_octet text.0) };

    fn fmt<W: fmt::Write>(&self, f: &mut fmt::Formatter<W>) -> fmt::Result {
        let octet = self.0;
        if octet == b'"' || octet == b'\\' {
            write!(f, "\\{}", char::from(octet))
        } else if octet.is_ascii_graphic() || octet == b' ' {
            write!(f, "{}", char::from(octet))
        } else {
            write!(f, "\\{}{}{}", octet / 100, octet / 10 % 10, octet % 10)
        }
    }
}

/// The octets of a string.
#[derive(Clone, Copy)]
struct QuotedOctets<'a>(&'a [u8]);

impl fmt::Display for QuotedOctets<'_> {
    ghost output = { λ text. Some (flat_map quoted_octet text.0.now) };

    fn fmt<W: fmt::Write>(&self, f: &mut fmt::Formatter<W>) -> fmt::Result {
        let octets = self.0;
        for octet in octets {
            write!(f, "{}", QuotedOctet(*octet))?;
        }
        Ok(())
    }
}

/// A string in quotes.
#[derive(Clone, Copy)]
struct Quoted<'a>(&'a Octets);

impl fmt::Display for Quoted<'_> {
    ghost output = { λ text. Some (quoted_text text.0.now) };

    fn fmt<W: fmt::Write>(&self, f: &mut fmt::Formatter<W>) -> fmt::Result {
        write!(f, "\"{}\"", QuotedOctets(self.0.as_slice()))
    }
}

/// Strings in quotes, with a space between each two.
#[derive(Clone, Copy)]
struct Strings<'a>(&'a [Octets]);

impl fmt::Display for Strings<'_> {
    ghost output = { λ text. Some (strings_text text.0.now) };

    fn fmt<W: fmt::Write>(&self, f: &mut fmt::Formatter<W>) -> fmt::Result {
        if let [first, rest @ ..] = self.0 {
            write!(f, "{}", Quoted(first))?;
            for string in rest {
                write!(f, " {}", Quoted(string))?;
            }
        }
        Ok(())
    }
}

/// A space and octets in hexadecimal, and nothing where there are none.
#[derive(Clone, Copy)]
struct BehindLength<'a>(&'a [u8]);

impl fmt::Display for BehindLength<'_> {
    ghost output = { λ text. Some (behind_length text.0.now) };

    #[tactic(auto, unfolding(crate::specs::Texts::behind_length))]
    fn fmt<W: fmt::Write>(&self, f: &mut fmt::Formatter<W>) -> fmt::Result {
        if self.0.is_empty() {
            Ok(())
        } else {
            write!(f, " {}", UpperHex(self.0))
        }
    }
}

/// Octets that nothing is known of.
#[derive(Clone, Copy)]
struct UnknownText<'a>(&'a [u8]);

impl fmt::Display for UnknownText<'_> {
    ghost output = { λ text. Some (unknown_text text.0.now) };

    fn fmt<W: fmt::Write>(&self, f: &mut fmt::Formatter<W>) -> fmt::Result {
        let octets = self.0;
        write!(f, "\\# {}{}", octets.len(), BehindLength(octets))
    }
}

/// The times of a SOA.
#[derive(Clone, Copy)]
struct SoaTimes<'a>(&'a SOA);

impl fmt::Display for SoaTimes<'_> {
    ghost output = { λ text. Some (soa_times_text text.0.now) };

    #[tactic(auto, unfolding(crate::specs::Texts::soa_times_text))]
    fn fmt<W: fmt::Write>(&self, f: &mut fmt::Formatter<W>) -> fmt::Result {
        let soa = self.0;
        write!(
            f,
            "{} {} {} {}",
            soa.refresh, soa.retry, soa.expire, soa.minimum
        )
    }
}

/// Both names, serial, refresh, retry, expire, minimum.
impl fmt::Display for SOA {
    ghost output = { λ soa. Some (soa_text soa) };

    fn fmt<W: fmt::Write>(&self, f: &mut fmt::Formatter<W>) -> fmt::Result {
        write!(
            f,
            "{} {} {} {}",
            self.mname,
            self.rname,
            self.serial,
            SoaTimes(self)
        )
    }
}

/// Priority, weight, port, target.
impl fmt::Display for SRV {
    ghost output = { λ srv. Some (srv_text srv) };

    fn fmt<W: fmt::Write>(&self, f: &mut fmt::Formatter<W>) -> fmt::Result {
        write!(
            f,
            "{} {} {} {}",
            self.priority, self.weight, self.port, self.target
        )
    }
}

/// The strings of a NAPTR.
#[derive(Clone, Copy)]
struct NaptrStrings<'a>(&'a NAPTR);

impl fmt::Display for NaptrStrings<'_> {
    ghost output = { λ text. Some (naptr_strings_text text.0.now) };

    #[tactic(auto, unfolding(crate::specs::Texts::naptr_strings_text))]
    fn fmt<W: fmt::Write>(&self, f: &mut fmt::Formatter<W>) -> fmt::Result {
        let naptr = self.0;
        write!(
            f,
            "{} {} {}",
            Quoted(&naptr.flags),
            Quoted(&naptr.services),
            Quoted(&naptr.regexp)
        )
    }
}

/// Order, preference, flags, services and regular expression in quotes, replacement.
impl fmt::Display for NAPTR {
    ghost output = { λ naptr. Some (naptr_text naptr) };

    fn fmt<W: fmt::Write>(&self, f: &mut fmt::Formatter<W>) -> fmt::Result {
        write!(
            f,
            "{} {} {} {}",
            self.order,
            self.preference,
            NaptrStrings(self),
            self.replacement
        )
    }
}

/// The fields with a space between each two: addresses as usual, strings in quotes, and octets that nothing is known of
/// as `\#`, how many there are, and hexadecimal (RFC 3597 5).
impl fmt::Display for RData {
    ghost output = { λ rdata. Some (rdata_text rdata) };

    fn fmt<W: fmt::Write>(&self, f: &mut fmt::Formatter<W>) -> fmt::Result {
        match self {
            RData::A(octets) => write!(f, "{}", Ipv4Addr::from_octets(*octets)),
            RData::AAAA(octets) => write!(f, "{}", Ipv6Addr::from_octets(*octets)),
            RData::NS(name)
            | RData::MD(name)
            | RData::MF(name)
            | RData::CNAME(name)
            | RData::MB(name)
            | RData::MG(name)
            | RData::MR(name)
            | RData::PTR(name)
            | RData::DNAME(name) => write!(f, "{name}"),
            RData::MX(mx) => write!(f, "{} {}", mx.preference, mx.exchange),
            RData::AFSDB(afsdb) => write!(f, "{} {}", afsdb.subtype, afsdb.hostname),
            RData::RT(rt) => write!(f, "{} {}", rt.preference, rt.intermediate),
            RData::KX(kx) => write!(f, "{} {}", kx.preference, kx.exchanger),
            RData::PX(px) => write!(f, "{} {} {}", px.preference, px.map822, px.mapx400),
            RData::MINFO(minfo) => write!(f, "{} {}", minfo.rmailbx, minfo.emailbx),
            RData::RP(rp) => write!(f, "{} {}", rp.mbox, rp.txt),
            RData::SOA(soa) => write!(f, "{soa}"),
            RData::SRV(srv) => write!(f, "{srv}"),
            RData::NAPTR(naptr) => write!(f, "{naptr}"),
            RData::TXT(txt) => write!(f, "{}", Strings(txt.strings.as_slice())),
            RData::NULL(null) | RData::OPT(null) | RData::Unknown(_, null) => {
                write!(f, "{}", UnknownText(null.anything()))
            }
            RData::DNSSEC(rdata) => write!(f, "{rdata}"),
            RData::TSIG(tsig) => write!(f, "{tsig}"),
            RData::Update0(_) => write!(f, "{}", UnknownText(&[])),
        }
    }
}
