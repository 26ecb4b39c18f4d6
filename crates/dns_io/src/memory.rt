//! Sources and sinks in memory. Those that fail at listed calls count their calls from 1. All but [`PlainSink`] take no
//! memory of their own.

ghost use Rattle.std.specs.Prelude.{◌≡◌, ◌≤◌, ◌<◌, ◌↔◌, ◌⊎◌, ◌≢◌, ◌+◌, ◌-◌, ◌++◌, [], length, take, min, None, Some};
ghost use Rattle.std.specs.Prelude.{Contains, IsErr, IfOk, IsOkAnd, vec_len};
ghost use Rattle.std.specs.Io.{ReadsAtMost, WritesAtMost};
ghost use Rattle.std.specs.Io.KnownBytes.{ReadConsumes, WriteAppends};
ghost use Rattle.dns_io.specs.Counts.{raised, CountsTaken, CountsFaults};

use crate::{Failed, Sink, Source};
use std::alloc::Global;

/// The octets of a vector, at most `step` of them a call, with a failure at each call whose number is listed.
#[derive(Debug, Drop)]
pub struct MemSource {
    octets: Vec<u8>,
    at: usize,
    step: usize,
    fails: Vec<u64>,
    calls: u64,
    faults: u64,
    ghost within: { at ≤ vec_len octets },
    ghost steps: { 0 < step },
}

impl MemSource {
    ghost use Rattle.dns_io.specs.Memory.{source_left, source_taken, source_calls, source_fails, source_step};
    ghost use Rattle.dns_io.specs.Memory.{source_faults};

    /// A source of `octets`, whose calls numbered in `fails` fail. It begins with its counts at 0.
    pub fn new(octets: Vec<u8>, fails: Vec<u64>, step: usize) -> MemSource
        requires { 0 < step }
        ensures left { source_left result ≡ octets.items }
        ensures fails { source_fails result ≡ fails.items }
        ensures step { source_step result ≡ step }
        ensures taken { source_taken result ≡ 0 }
        ensures calls { source_calls result ≡ 0 }
        ensures faults { source_faults result ≡ 0 }
    {
        MemSource {
            octets,
            at: 0,
            step,
            fails,
            calls: 0,
            faults: 0,
        }
    }
}

impl Source for MemSource {
    ghost use Rattle.dns_io.specs.Memory.{source_left, source_calls, source_fails, source_step, source_faults};
    ghost use Rattle.dns_io.specs.Memory.{source_taken, SameSource};

    ghost left = { λ s. Some (source_left s) };

    ghost taken = { source_taken };

    ghost faults = { source_faults };

    /// Fails exactly at the calls that are listed, and else moves as much as it may.
    fn read(&mut self, buf: &mut [u8]) -> Result<usize, Failed>
        ensures bound { ReadsAtMost result buf.new }
        ensures octets { ReadConsumes (Some (source_left self.old)) (Some (source_left self.new)) result buf.new }
        ensures taken { CountsTaken (source_taken self.old) (source_taken self.new) result }
        ensures faults { CountsFaults (source_faults self.old) (source_faults self.new) result }

        ensures calls { source_calls self.new ≡ raised (source_calls self.old) 1 }
        ensures fails { IsErr result ↔ Contains (source_fails self.old) (source_calls self.new) }
        ensures moved { IfOk result (λ n. n ≡ min (source_step self.old) (min (length buf.old)
            (length (source_left self.old)))) }
        ensures same { SameSource self.old self.new }
    {
        self.calls = self.calls.saturating_add(1);
        if self.fails.contains(&self.calls) {
            self.faults = self.faults.saturating_add(1);
            return Err(Failed);
        }
        let count = copy_prefix(&self.octets[self.at..], buf, self.step);
        self.at += count;
        Ok(count)
    }
}

// Copies the longest prefix that there is, that fits and that may go at once.
fn copy_prefix(from: &[u8], to: &mut [u8], most: usize) -> usize
    ensures count { result ≡ min most (min (length to.old) (length from.now)) }
    ensures prefix { take result to.new ≡ take result from.now }
{
    let count = most.min(to.len()).min(from.len());
    to[..count].copy_from_slice(&from[..count]);
    count
}

/// The octets of a vector, as many a call as fit.
#[derive(Debug, Drop)]
pub struct PlainSource {
    octets: Vec<u8>,
    at: usize,
    ghost within: { at ≤ vec_len octets },
}

impl PlainSource {
    ghost use Rattle.dns_io.specs.Memory.{plain_left, plain_taken};

    /// A source of `octets`, of which none are taken yet.
    pub fn new(octets: Vec<u8>) -> PlainSource
        ensures left { plain_left result ≡ octets.items }
        ensures taken { plain_taken result ≡ 0 }
    {
        PlainSource { octets, at: 0 }
    }
}

impl Source for PlainSource {
    ghost use Rattle.dns_io.specs.Memory.{plain_left, plain_taken};

    ghost left = { λ s. Some (plain_left s) };

    ghost taken = { plain_taken };

    ghost faults = { λ _. 0 };

    /// Never fails, and moves as much as it may.
    fn read(&mut self, buf: &mut [u8]) -> Result<usize, Failed>
        ensures bound { ReadsAtMost result buf.new }
        ensures octets { ReadConsumes (Some (plain_left self.old)) (Some (plain_left self.new)) result buf.new }
        ensures taken { CountsTaken (plain_taken self.old) (plain_taken self.new) result }
        ensures faults { CountsFaults 0 0 result }

        ensures moved { IsOkAnd result (λ n. n ≡ min (length buf.old) (length (plain_left self.old))) }
    {
        let count = copy_prefix(&self.octets[self.at..], buf, buf.len());
        self.at += count;
        Ok(count)
    }
}

/// Octets that are appended to others within a buffer, at most `step` of them a call, with a failure at each call whose
/// number is listed and where the buffer is full.
#[derive(Debug, Drop)]
pub struct MemSink {
    buffer: Vec<u8>,
    len: usize,
    step: usize,
    fails: Vec<u64>,
    calls: u64,
    faults: u64,
    ghost within: { len ≤ vec_len buffer },
    ghost steps: { 0 < step },
}

impl MemSink {
    ghost use Rattle.dns_io.specs.Memory.{sink_held, sink_room, sink_calls, sink_fails, sink_step, sink_faults};

    /// A sink that holds nothing yet and has room for as many octets as `buffer` has. Its calls numbered in `fails`
    /// fail. It begins with its counts at 0.
    pub fn new(buffer: Vec<u8>, fails: Vec<u64>, step: usize) -> MemSink
        requires { 0 < step }
        ensures held { sink_held result ≡ [] }
        ensures room { sink_room result ≡ vec_len buffer }
        ensures fails { sink_fails result ≡ fails.items }
        ensures step { sink_step result ≡ step }
        ensures calls { sink_calls result ≡ 0 }
        ensures faults { sink_faults result ≡ 0 }
    {
        MemSink {
            buffer,
            len: 0,
            step,
            fails,
            calls: 0,
            faults: 0,
        }
    }

    /// The octets that it holds.
    pub fn as_slice(&self) -> &[u8]
        ensures { result.now ≡ sink_held self.now }
    {
        &self.buffer[..self.len]
    }
}

impl Sink for MemSink {
    ghost use Rattle.dns_io.specs.Memory.{sink_held, sink_room, sink_calls, sink_fails, sink_step, sink_faults};
    ghost use Rattle.dns_io.specs.Memory.{SameSink};

    ghost held = { λ s. Some (sink_held s) };

    ghost faults = { sink_faults };

    /// Fails exactly at the calls that are listed, and where `buf` has octets and there is no room for any. Else it
    /// appends as much as it may.
    fn write(&mut self, buf: &[u8]) -> Result<usize, Failed>
        ensures bound { WritesAtMost result buf.now }
        ensures moves { 0 < length buf.now → IfOk result (λ n. 0 < n) }
        ensures octets { WriteAppends (Some (sink_held self.old)) (Some (sink_held self.new)) result buf.now }
        ensures faults { CountsFaults (sink_faults self.old) (sink_faults self.new) result }

        ensures calls { sink_calls self.new ≡ raised (sink_calls self.old) 1 }
        ensures fails { IsErr result ↔ (Contains (sink_fails self.old) (sink_calls self.new)
            ⊎ (buf.now ≢ [] × (sink_room self.old ≡ 0))) }
        ensures moved { IfOk result (λ n. n ≡ min (sink_step self.old) (min (length buf.now)
            (sink_room self.old))) }
        ensures same { SameSink self.old self.new }
    {
        self.calls = self.calls.saturating_add(1);
        if self.fails.contains(&self.calls) {
            self.faults = self.faults.saturating_add(1);
            return Err(Failed);
        }
        if self.len == self.buffer.len() && !buf.is_empty() {
            self.faults = self.faults.saturating_add(1);
            return Err(Failed);
        }
        let count = append_prefix(buf, &mut self.buffer, self.len, self.step);
        self.len += count;
        Ok(count)
    }
}

// Copies the longest prefix that there is, that fits behind a place and that may go at once.
fn append_prefix(from: &[u8], to: &mut [u8], at: usize, most: usize) -> usize
    requires { at ≤ length to.old }
    ensures count { result ≡ min most (min (length from.now) (length to.old - at)) }
    ensures prefix { take (at + result) to.new ≡ take at to.old ++ take result from.now }
{
    let count = most.min(from.len()).min(to.len() - at);
    to[at..at + count].copy_from_slice(&from[..count]);
    count
}

/// A sink that takes every octet and never fails. It keeps the octets while there is memory for all of them, and is asked
/// for them at the end.
#[derive(Debug, Drop)]
pub struct PlainSink {
    octets: Vec<u8>,
    is_whole: bool,
}

impl PlainSink {
    ghost use Rattle.std.specs.Option.{option_map};
    ghost use Rattle.dns_io.specs.Memory.{plain_kept};

    /// A sink that has taken nothing yet.
    pub fn new(alloc: Global) -> PlainSink
        ensures { plain_kept result ≡ Some [] }
    {
        PlainSink {
            octets: Vec::new(alloc),
            is_whole: true,
        }
    }

    /// All the octets that it took. There are none where memory ran out at a write.
    pub fn kept(&self) -> Option<&[u8]>
        ensures { option_map (λ octets. octets.now) result ≡ plain_kept self.now }
    {
        if self.is_whole {
            Some(self.octets.as_slice())
        } else {
            None
        }
    }
}

impl Sink for PlainSink {
    ghost use Rattle.std.specs.Prelude.{IfSome};
    ghost use Rattle.std.specs.Io.KnownBytes.{append_known};
    ghost use Rattle.dns_io.specs.Memory.{plain_kept};

    ghost held = { λ _. None };

    ghost faults = { λ _. 0 };

    /// Takes all of `buf`.
    fn write(&mut self, buf: &[u8]) -> Result<usize, Failed>
        ensures bound { WritesAtMost result buf.now }
        ensures moves { 0 < length buf.now → IfOk result (λ n. 0 < n) }
        ensures octets { WriteAppends None None result buf.now }
        ensures faults { CountsFaults 0 0 result }

        ensures taken { IsOkAnd result (λ n. n ≡ length buf.now) }
        ensures kept { IfSome (plain_kept self.new) (λ octets. append_known (plain_kept self.old) buf.now ≡ Some octets) }
    {
        if self.is_whole && self.octets.extend_from_slice(buf).is_err() {
            self.is_whole = false;
        }
        Ok(buf.len())
    }
}
