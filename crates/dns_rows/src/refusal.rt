//! Why a call has no other answer.
ghost use Rattle.std.specs.Prelude.{◌≡◌, ℕ, List, IfOk, Result};
ghost use Rattle.std.specs.String.{string_bytes};
ghost use Rattle.dns_wire.specs.Reading.{GivesUnless};
ghost use Rattle.dns_rows.specs.declared.refusal.Refusal.{Refusal};
ghost use Rattle.dns_rows.specs.declared.refusal.Refusal.TheVariants.{OutOfMemory as no_memory};
ghost use Rattle.dns_rows.specs.Refusals.{name_refusal, decode_refusal, emit_refusal, key_refusal, key_data_refusal};
ghost use Rattle.dns_rows.specs.Refusals.{token_refusal, lex_refusal, anchor_refusal, mac_refusal, tbs_refusal};
ghost use Rattle.dns_rows.specs.Refusals.{sign_refusal, verify_refusal, input_refusal, request_refusal};
ghost use Rattle.dns_rows.specs.Refusals.{response_refusal, answer_text};

use dns_lexer::LexError;
use dns_wire::{DecodeError, EmitError, NameError, OutOfMemory};
use rrsig_input::InputError;
use sec_anchor::ParseError;
use sec_codes::KeyError;
use sec_keydata::{KeyDataError, TokenError};
use sec_sigdata::DnsSecError;
use sec_sign::{SignError, TbsError, VerifyRrsigError};
use sec_tsig::{RequestError, TsigSignError};
use std::alloc::{AllocError, AllocFailed, Global};
use std::fmt;

/// Why a call has no other answer.
#[derive(Debug, PartialEq, Eq, Drop)]
pub enum Refusal {
    /// No call has this word and these words after it.
    NoCall,
    /// A text that is no name.
    Name(NameError),
    /// Octets that are not what is read.
    Decode(DecodeError),
    /// A value that is not written.
    Emit(EmitError),
    /// Octets that are no public key.
    Key(KeyError),
    /// A key without tag or digest.
    KeyData(KeyDataError),
    /// Words that are no record data.
    Token(TokenError),
    /// A text without tokens.
    Lex(LexError),
    /// A text that is no anchor text.
    Anchor(ParseError),
    /// A MAC that is not made or not accepted.
    Mac(DnsSecError),
    /// A record set without octets to sign.
    Tbs(TbsError),
    /// A record set that is not signed.
    Sign(SignError),
    /// A signature that is not accepted.
    Verify(VerifyRrsigError),
    /// A message without octets that a signature covers.
    Input(InputError),
    /// A request that is not signed.
    Request(RequestError),
    /// A response that is not signed.
    Response(TsigSignError),
    /// There was no memory.
    OutOfMemory,
}

impl From<NameError> for Refusal {
    ghost from_gives = { λ cause refusal. refusal ≡ name_refusal cause };

    fn from(cause: NameError) -> Refusal {
        Refusal::Name(cause)
    }
}

impl From<DecodeError> for Refusal {
    ghost from_gives = { λ cause refusal. refusal ≡ decode_refusal cause };

    fn from(cause: DecodeError) -> Refusal {
        match cause {
            DecodeError::OutOfMemory => Refusal::OutOfMemory,
            cause => Refusal::Decode(cause),
        }
    }
}

impl From<EmitError> for Refusal {
    ghost from_gives = { λ cause refusal. refusal ≡ emit_refusal cause };

    fn from(cause: EmitError) -> Refusal {
        match cause {
            EmitError::OutOfMemory => Refusal::OutOfMemory,
            cause => Refusal::Emit(cause),
        }
    }
}

impl From<KeyError> for Refusal {
    ghost from_gives = { λ cause refusal. refusal ≡ key_refusal cause };

    fn from(cause: KeyError) -> Refusal {
        match cause {
            KeyError::OutOfMemory => Refusal::OutOfMemory,
            cause => Refusal::Key(cause),
        }
    }
}

impl From<KeyDataError> for Refusal {
    ghost from_gives = { λ cause refusal. refusal ≡ key_data_refusal cause };

    fn from(cause: KeyDataError) -> Refusal {
        match cause {
            KeyDataError::OutOfMemory => Refusal::OutOfMemory,
            cause => Refusal::KeyData(cause),
        }
    }
}

impl From<TokenError> for Refusal {
    ghost from_gives = { λ cause refusal. refusal ≡ token_refusal cause };

    fn from(cause: TokenError) -> Refusal {
        match cause {
            TokenError::OutOfMemory => Refusal::OutOfMemory,
            cause => Refusal::Token(cause),
        }
    }
}

impl From<LexError> for Refusal {
    ghost from_gives = { λ cause refusal. refusal ≡ lex_refusal cause };

    fn from(cause: LexError) -> Refusal {
        match cause {
            LexError::OutOfMemory => Refusal::OutOfMemory,
            cause => Refusal::Lex(cause),
        }
    }
}

impl From<ParseError> for Refusal {
    ghost from_gives = { λ cause refusal. refusal ≡ anchor_refusal cause };

    fn from(cause: ParseError) -> Refusal {
        match cause {
            ParseError::OutOfMemory => Refusal::OutOfMemory,
            cause => Refusal::Anchor(cause),
        }
    }
}

impl From<DnsSecError> for Refusal {
    ghost from_gives = { λ cause refusal. refusal ≡ mac_refusal cause };

    fn from(cause: DnsSecError) -> Refusal {
        match cause {
            DnsSecError::OutOfMemory => Refusal::OutOfMemory,
            cause => Refusal::Mac(cause),
        }
    }
}

impl From<TbsError> for Refusal {
    ghost from_gives = { λ cause refusal. refusal ≡ tbs_refusal cause };

    fn from(cause: TbsError) -> Refusal {
        match cause {
            TbsError::OutOfMemory => Refusal::OutOfMemory,
            cause => Refusal::Tbs(cause),
        }
    }
}

impl From<SignError> for Refusal {
    ghost from_gives = { λ cause refusal. refusal ≡ sign_refusal cause };

    fn from(cause: SignError) -> Refusal {
        match cause {
            SignError::OutOfMemory => Refusal::OutOfMemory,
            cause => Refusal::Sign(cause),
        }
    }
}

impl From<VerifyRrsigError> for Refusal {
    ghost from_gives = { λ cause refusal. refusal ≡ verify_refusal cause };

    fn from(cause: VerifyRrsigError) -> Refusal {
        match cause {
            VerifyRrsigError::OutOfMemory => Refusal::OutOfMemory,
            cause => Refusal::Verify(cause),
        }
    }
}

impl From<InputError> for Refusal {
    ghost from_gives = { λ cause refusal. refusal ≡ input_refusal cause };

    fn from(cause: InputError) -> Refusal {
        Refusal::Input(cause)
    }
}

impl From<RequestError> for Refusal {
    ghost from_gives = { λ cause refusal. refusal ≡ request_refusal cause };

    fn from(cause: RequestError) -> Refusal {
        Refusal::Request(cause)
    }
}

impl From<TsigSignError> for Refusal {
    ghost from_gives = { λ cause refusal. refusal ≡ response_refusal cause };

    fn from(cause: TsigSignError) -> Refusal {
        match cause {
            TsigSignError::OutOfMemory => Refusal::OutOfMemory,
            cause => Refusal::Response(cause),
        }
    }
}

impl From<OutOfMemory> for Refusal {
    ghost from_gives = { λ _ refusal. refusal ≡ no_memory };

    fn from(_: OutOfMemory) -> Refusal {
        Refusal::OutOfMemory
    }
}

impl From<AllocError> for Refusal {
    ghost from_gives = { λ _ refusal. refusal ≡ no_memory };

    fn from(_: AllocError) -> Refusal {
        Refusal::OutOfMemory
    }
}

impl<T: Drop> From<AllocFailed<T>> for Refusal {
    ghost from_gives = { λ _ refusal. refusal ≡ no_memory };

    fn from(_: AllocFailed<T>) -> Refusal {
        Refusal::OutOfMemory
    }
}

/// `no call`; else `refused` and what the cause prints.
impl fmt::Display for Refusal {
    ghost use Rattle.std.specs.Prelude.{Some};
    ghost use Rattle.dns_rows.specs.Refusals.{refusal_text};

    ghost output = { λ refusal. Some (refusal_text refusal) };

    fn fmt<W: fmt::Write>(&self, f: &mut fmt::Formatter<W>) -> fmt::Result {
        match self {
            Refusal::NoCall => f.write_str("no call"),
            Refusal::Name(cause) => write!(f, "refused {cause}"),
            Refusal::Decode(cause) => write!(f, "refused {cause}"),
            Refusal::Emit(cause) => write!(f, "refused {cause}"),
            Refusal::Key(cause) => write!(f, "refused {cause}"),
            Refusal::KeyData(cause) => write!(f, "refused {cause}"),
            Refusal::Token(cause) => write!(f, "refused {cause}"),
            Refusal::Lex(cause) => write!(f, "refused {cause}"),
            Refusal::Anchor(cause) => write!(f, "refused {cause}"),
            Refusal::Mac(cause) => write!(f, "refused {cause}"),
            Refusal::Tbs(cause) => write!(f, "refused {cause}"),
            Refusal::Sign(cause) => write!(f, "refused {cause}"),
            Refusal::Verify(cause) => write!(f, "refused {cause}"),
            Refusal::Input(cause) => write!(f, "refused {cause}"),
            Refusal::Request(cause) => write!(f, "refused {cause}"),
            Refusal::Response(cause) => write!(f, "refused {cause}"),
            Refusal::OutOfMemory => f.write_str("refused OutOfMemory"),
        }
    }
}

/// The text of a line: what its call answers, or why it has no other answer. Want of memory is no answer.
pub fn answer_text(alloc: Global, answer: Result<String, Refusal>) -> Result<String, OutOfMemory>
    ensures { (given : Result (List ℕ) Refusal) → GivesUnless no_memory (λ text. string_bytes text) answer given
        → IfOk result (λ text. string_bytes text ≡ answer_text given) }
{
    match answer {
        Ok(text) => Ok(text),
        Err(Refusal::OutOfMemory) => Err(OutOfMemory),
        Err(refusal) => Ok(refusal.to_string(alloc)?),
    }
}
