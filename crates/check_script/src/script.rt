//! A script: who signs, a request, and answers to it, each in a line of its own.

ghost use Rattle.std.specs.Prelude.{◌≡◌, ◌^◌};
ghost use Rattle.std.specs.Str.{IsAscii};
ghost use Rattle.dns_text.specs.Words.{words};
ghost use Rattle.dns_wire.specs.Reading.{GivesUnless};
ghost use Rattle.dns_script.specs.LineErrors.{Adds};
ghost use Rattle.check_script.specs.Script.{add_anchor, add_key, add_request, add_answer, answer_words};

use dns_script::{LineError, Lines, Reason};
use dns_text::{decode_hex, number_below, two_words};
use script_lines::anchor_entries;
use sec_anchor::Entry;
use sec_tsig::TSigner;
use signer_lines::{SignedRequest, key_words, request_words};
use std::alloc::Global;
use std::marker::Model;

/// An answer, and the moment at which it is checked, in seconds from 1970 on.
#[derive(Drop)]
pub struct Answer {
    pub moment: u32,
    pub octets: Vec<u8>,
}

impl Model for Answer {
    ghost use Rattle.check_script.specs.Script.{Answer as answer};

    ghost Value = { answer };

    ghost view = { λ s. record { moment = s.moment; octets = s.octets.items } };
}

/// A script: the trusted entries, the signed request, and the answers to it.
#[derive(Drop)]
pub struct Script {
    pub entries: Vec<Entry>,
    pub request: SignedRequest,
    pub answers: Vec<Answer>,
}

impl Model for Script {
    ghost use Rattle.std.specs.Prelude.{map};
    ghost use Rattle.sec_anchor.specs.Entries.{entry_data};
    ghost use Rattle.check_script.specs.Script.{Script as script};

    ghost Value = { script };

    ghost view = { λ s. record {
      entries = map entry_data s.entries.items;
      request = s.request;
      answers = s.answers.items;
    } };
}

/// What the lines of a script say so far.
#[derive(Drop)]
pub struct ScriptSoFar {
    entries: Vec<Entry>,
    signer: Option<TSigner>,
    request: Option<SignedRequest>,
    answers: Vec<Answer>,
}

impl Model for ScriptSoFar {
    ghost use Rattle.std.specs.Prelude.{map};
    ghost use Rattle.sec_anchor.specs.Entries.{entry_data};
    ghost use Rattle.check_script.specs.Script.{ScriptSoFar as script_so_far};

    ghost Value = { script_so_far };

    ghost view = { λ s. record {
      entries = map entry_data s.entries.items;
      signer = s.signer;
      request = s.request;
      answers = s.answers.items;
    } };
}

/// The answer of the words `MOMENT HEX`.
fn answer_words(alloc: Global, rest: &[u8]) -> Result<Answer, LineError>
    ensures { GivesUnless LineError.OutOfMemory (λ answer. answer) result (answer_words (words rest.now)) }
{
    let fault = LineError::Fault(Reason::Answer);
    let (moment, octets) = two_words(rest).ok_or(fault)?;
    let moment = number_below(1 << 32, moment).ok_or(fault)?;
    let octets = decode_hex(alloc, octets)?.ok_or(fault)?;
    Ok(Answer {
        moment: moment as u32,
        octets,
    })
}

impl ScriptSoFar {
    fn add_anchor(&mut self, alloc: Global, text: &[u8]) -> Result<(), LineError>
        requires { IsAscii text.now }
        ensures { Adds result self.new (add_anchor self.old text.now) }
    {
        if self.signer.is_some() {
            return Err(LineError::Fault(Reason::Order));
        }
        let mut found = anchor_entries(alloc, text)?;
        self.entries.append(&mut found)?;
        Ok(())
    }

    fn add_key(&mut self, alloc: Global, text: &[u8]) -> Result<(), LineError>
        ensures { Adds result self.new (add_key self.old text.now) }
    {
        if self.signer.is_some() {
            return Err(LineError::Fault(Reason::Order));
        }
        let signer = key_words(alloc, text)?;
        self.signer = Some(signer);
        Ok(())
    }

    fn add_request(&mut self, alloc: Global, text: &[u8]) -> Result<(), LineError>
        ensures { Adds result self.new (add_request self.old text.now) }
    {
        let Some(signer) = &self.signer else {
            return Err(LineError::Fault(Reason::Order));
        };
        if self.request.is_some() {
            return Err(LineError::Fault(Reason::Order));
        }
        let request = request_words(alloc, signer, text)?;
        self.request = Some(request);
        Ok(())
    }

    fn add_answer(&mut self, alloc: Global, text: &[u8]) -> Result<(), LineError>
        ensures { Adds result self.new (add_answer self.old text.now) }
    {
        if self.request.is_none() {
            return Err(LineError::Fault(Reason::Order));
        }
        let answer = answer_words(alloc, text)?;
        self.answers.push(answer)?;
        Ok(())
    }
}

impl Lines for ScriptSoFar {
    ghost use Rattle.check_script.specs.Script.{check_kind};

    type Script = Script;

    ghost kind = { check_kind };

    fn new(alloc: Global) -> ScriptSoFar {
        ScriptSoFar {
            entries: Vec::new(alloc),
            signer: None,
            request: None,
            answers: Vec::new(alloc),
        }
    }

    fn add(&mut self, alloc: Global, word: &[u8], text: &[u8]) -> Result<(), LineError> {
        if word == b"anchor".as_slice() {
            self.add_anchor(alloc, text)
        } else if word == b"key".as_slice() {
            self.add_key(alloc, text)
        } else if word == b"request".as_slice() {
            self.add_request(alloc, text)
        } else if word == b"answer".as_slice() {
            self.add_answer(alloc, text)
        } else {
            Err(LineError::Fault(Reason::Word))
        }
    }

    fn finish(self) -> Option<Script> {
        let ScriptSoFar {
            entries,
            signer: _,
            request,
            answers,
        } = self;
        match request {
            Some(request) => Some(Script {
                entries,
                request,
                answers,
            }),
            None => None,
        }
    }
}
