//! Standard input and output as a source and a sink. They are the trusted edge of a program: they tell no octets as a
//! source and a sink, and what they do with their reader or writer is said by clauses of their own.

ghost use Rattle.std.specs.Prelude.{◌≡◌, ◌<◌, false, None, Err, length, IfOk};
ghost use Rattle.std.specs.Result.{result_ok};
ghost use Rattle.std.specs.Io.{ReadsAtMost, WritesAtMost};
ghost use Rattle.std.specs.Io.KnownBytes.{ReadConsumes, WriteAppends};
ghost use Rattle.dns_io.specs.Counts.{CountsTaken, CountsFaults};
ghost use Rattle.dns_io.specs.Interruptions.{was_interrupted};

use crate::{Failed, Sink, Source};
use std::io;
use std::io::{Read, Write};

/// Whether a signal interrupted the call that answered this (EINTR).
fn is_interrupted(answer: &io::Result<usize>) -> bool
    ensures { result ≡ was_interrupted answer.now }
{
    match answer {
        Ok(_) => false,
        Err(error) => matches!(error.kind(), io::ErrorKind::Interrupted),
    }
}

/// Why nothing was moved by a call that was interrupted at each of 2^64 - 1 tries.
fn always_interrupted() -> io::Error
    ensures { was_interrupted (Err result) ≡ false }
{
    io::Error::other("interrupted at each try")
}

/// Reads once, and again where a signal interrupted the call, as `Read::read_to_end` does.
#[tactic(auto, using(crate::proofs::Tries::read_at_last, crate::proofs::Tries::read_interrupted))]
fn read_uninterrupted<R: Read>(reader: &mut R, buf: &mut [u8]) -> io::Result<usize>
    ensures bound { ReadsAtMost result buf.new }
    ensures octets { ReadConsumes (R.remaining reader.old) (R.remaining reader.new) result buf.new }
    ensures uninterrupted { was_interrupted result ≡ false }
{
    'tries: for _ in 0..u64::MAX {
        let answer = reader.read(buf);
        if !is_interrupted(&answer) {
            return answer;
        }
    }
    Err(always_interrupted())
}

/// Writes once, and again where a signal interrupted the call, as `Write::write_all` does.
#[tactic(auto, using(crate::proofs::Tries::written_at_last, crate::proofs::Tries::write_interrupted))]
fn write_uninterrupted<W: Write>(writer: &mut W, buf: &[u8]) -> io::Result<usize>
    ensures bound { WritesAtMost result buf.now }
    ensures octets { WriteAppends (W.contents writer.old) (W.contents writer.new) result buf.now }
    ensures uninterrupted { was_interrupted result ≡ false }
{
    'tries: for _ in 0..u64::MAX {
        let answer = writer.write(buf);
        if !is_interrupted(&answer) {
            return answer;
        }
    }
    Err(always_interrupted())
}

/// A reader as a source. A read that a signal interrupted is tried again.
#[derive(Debug, Drop)]
pub struct StdSource<R> {
    reader: R,
    taken: u64,
    faults: u64,
}

impl<R: Read> StdSource<R> {
    ghost use Rattle.dns_io.specs.Standard.{reader_of, std_taken, std_source_faults, faults_after};

    /// Begins with both counts at 0.
    pub fn new(reader: R) -> StdSource<R>
        ensures reader { reader_of result ≡ reader }
        ensures taken { std_taken result ≡ 0 }
        ensures faults { std_source_faults result ≡ 0 }
    {
        StdSource {
            reader,
            taken: 0,
            faults: 0,
        }
    }

    /// Passes on what the reader answered: its count, or one more fault for its error.
    fn pass_on(&mut self, answer: io::Result<usize>) -> Result<usize, Failed>
        ensures count { result_ok result ≡ result_ok answer }
        ensures taken { CountsTaken (std_taken self.old) (std_taken self.new) answer }
        ensures faults { std_source_faults self.new ≡ faults_after (std_source_faults self.old) (result_ok answer) }
        ensures reader { reader_of self.new ≡ reader_of self.old }
    {
        match answer {
            Ok(count) => {
                self.taken = self.taken.saturating_add(count as u64);
                Ok(count)
            }
            Err(_) => {
                self.faults = self.faults.saturating_add(1);
                Err(Failed)
            }
        }
    }
}

impl<R: Read> Source for StdSource<R> {
    ghost use Rattle.dns_io.specs.Standard.{reader_of, std_taken, std_source_faults, PassesRead};

    ghost left = { λ _. None };

    ghost taken = { std_taken };

    ghost faults = { std_source_faults };

    fn read(&mut self, buf: &mut [u8]) -> Result<usize, Failed>
        ensures bound { ReadsAtMost result buf.new }
        ensures octets { ReadConsumes None None result buf.new }
        ensures taken { CountsTaken (std_taken self.old) (std_taken self.new) result }
        ensures faults { CountsFaults (std_source_faults self.old) (std_source_faults self.new) result }

        // What is moved is what the reader gives, and a failure is the reader's.
        ensures reader { PassesRead (R.remaining (reader_of self.old)) (R.remaining (reader_of self.new))
            buf.new result (std_source_faults self.old) (std_source_faults self.new) }
    {
        let answer = read_uninterrupted(&mut self.reader, buf);
        self.pass_on(answer)
    }
}

/// A writer as a sink. A write that a signal interrupted is tried again.
#[derive(Debug, Drop)]
pub struct StdSink<W> {
    writer: W,
    faults: u64,
}

impl<W: Write> StdSink<W> {
    ghost use Rattle.dns_io.specs.Standard.{writer_of, std_sink_faults, faults_after, count_written};

    /// Begins with its count at 0.
    pub fn new(writer: W) -> StdSink<W>
        ensures writer { writer_of result ≡ writer }
        ensures faults { std_sink_faults result ≡ 0 }
    {
        StdSink { writer, faults: 0 }
    }

    /// Passes on what the writer answered for `len` octets: its count, or one more fault for its error, and for a count
    /// of 0 where there were some.
    fn pass_on(&mut self, answer: io::Result<usize>, len: usize) -> Result<usize, Failed>
        ensures count { result_ok result ≡ count_written len answer }
        ensures faults { std_sink_faults self.new ≡ faults_after (std_sink_faults self.old) (count_written len answer) }
        ensures writer { writer_of self.new ≡ writer_of self.old }
    {
        match answer {
            Ok(count) if count > 0 || len == 0 => Ok(count),
            _ => {
                self.faults = self.faults.saturating_add(1);
                Err(Failed)
            }
        }
    }
}

impl<W: Write> Sink for StdSink<W> {
    ghost use Rattle.dns_io.specs.Standard.{writer_of, std_sink_faults, PassesWrite};

    ghost held = { λ _. None };

    ghost faults = { std_sink_faults };

    /// A writer that takes nothing of a piece that holds something has failed.
    fn write(&mut self, buf: &[u8]) -> Result<usize, Failed>
        ensures bound { WritesAtMost result buf.now }
        ensures moves { 0 < length buf.now → IfOk result (λ n. 0 < n) }
        ensures octets { WriteAppends None None result buf.now }
        ensures faults { CountsFaults (std_sink_faults self.old) (std_sink_faults self.new) result }

        // What is appended is what the writer takes, and a failure is the writer's.
        ensures writer { PassesWrite (W.contents (writer_of self.old)) (W.contents (writer_of self.new))
            buf.now result (std_sink_faults self.old) (std_sink_faults self.new) }
    {
        let answer = write_uninterrupted(&mut self.writer, buf);
        self.pass_on(answer, buf.len())
    }
}
