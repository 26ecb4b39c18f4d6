//! Sources and sinks, and reading and writing all of them.
use dns_io::{
    Failed, INPUT_LIMIT, MemSink, MemSource, PlainSink, PlainSource, ReadError, Sink, Source,
    StdSink, StdSource, read_all, write_all,
};
use std::alloc::Global;
use std::io;
use std::io::{Read, Write};
use std::test::Fail;

/// A reader and a writer of one octet a call, which fails or takes nothing from the third call on.
#[derive(Drop)]
struct Failing {
    calls: u8,
}

impl Read for Failing {
    fn read(&mut self, buf: &mut [u8]) -> io::Result<usize> {
        self.calls = self.calls.saturating_add(1);
        if self.calls > 2 || buf.is_empty() {
            return Err(io::Error::from(io::ErrorKind::Other));
        }
        buf[0] = b'x';
        Ok(1)
    }
}

impl Write for Failing {
    fn write(&mut self, buf: &[u8]) -> io::Result<usize> {
        self.calls = self.calls.saturating_add(1);
        Ok(if self.calls > 2 { 0 } else { buf.len().min(1) })
    }

    fn flush(&mut self) -> io::Result<()> {
        Ok(())
    }
}

/// A reader or a writer of at most two octets a call, of which a signal interrupts every other call.
#[derive(Drop)]
struct Interrupted<S> {
    stream: S,
    was_interrupted: bool,
}

impl<S> Interrupted<S> {
    fn new(stream: S) -> Interrupted<S> {
        Interrupted {
            stream,
            was_interrupted: false,
        }
    }

    fn interrupt(&mut self) -> io::Result<()> {
        self.was_interrupted = !self.was_interrupted;
        if self.was_interrupted {
            return Err(io::Error::from(io::ErrorKind::Interrupted));
        }
        Ok(())
    }
}

impl<R: Read> Read for Interrupted<R> {
    fn read(&mut self, buf: &mut [u8]) -> io::Result<usize> {
        self.interrupt()?;
        let len = buf.len().min(2);
        self.stream.read(&mut buf[..len])
    }
}

impl<W: Write> Write for Interrupted<W> {
    fn write(&mut self, buf: &[u8]) -> io::Result<usize> {
        self.interrupt()?;
        self.stream.write(&buf[..buf.len().min(2)])
    }

    fn flush(&mut self) -> io::Result<()> {
        self.stream.flush()
    }
}

#[test]
fn interrupted_calls_are_tried_again(rt: HostRuntime) -> Result<(), Fail> {
    let alloc = rt.alloc();
    let mut source = StdSource::new(Interrupted::new(b"key\nrequest\n".as_slice()));
    let content = read_all(alloc, &mut source)?;
    assert_eq!(rt; content.as_slice(), b"key\nrequest\n".as_slice());
    let mut written = Vec::new(alloc);
    let mut sink = StdSink::new(Interrupted::new(&mut written));
    write_all(&mut sink, b"fault\n")?;
    assert_eq!(rt; written.as_slice(), b"fault\n".as_slice());
    Ok(())
}

#[test]
fn interrupted_streams_fail(rt: HostRuntime) {
    let mut source = StdSource::new(Interrupted::new(Failing { calls: 0 }));
    assert_eq!(rt;
        read_all(rt.alloc(), &mut source).err(),
        Some(ReadError::Fault)
    );
    let mut sink = StdSink::new(Interrupted::new(Failing { calls: 0 }));
    assert_eq!(rt; write_all(&mut sink, b"fault\n"), Err(Failed));
}

#[test]
fn standard_streams_are_read_and_written(rt: HostRuntime) -> Result<(), Fail> {
    let alloc = rt.alloc();
    let mut source = StdSource::new(b"key\nrequest\n".as_slice());
    let content = read_all(alloc, &mut source)?;
    assert_eq!(rt; content.as_slice(), b"key\nrequest\n".as_slice());
    let mut written = Vec::new(alloc);
    let mut sink = StdSink::new(&mut written);
    write_all(&mut sink, b"fault\n")?;
    assert_eq!(rt; written.as_slice(), b"fault\n".as_slice());
    Ok(())
}

#[test]
fn standard_streams_fail(rt: HostRuntime) {
    let mut source = StdSource::new(Failing { calls: 0 });
    assert_eq!(rt;
        read_all(rt.alloc(), &mut source).err(),
        Some(ReadError::Fault)
    );
    let mut sink = StdSink::new(Failing { calls: 0 });
    assert_eq!(rt; write_all(&mut sink, b"fault\n"), Err(Failed));
}

#[test]
fn sources_in_memory_give_pieces(rt: HostRuntime) -> Result<(), Fail> {
    let alloc = rt.alloc();
    let octets = Vec::from_slice(alloc, b"abcdef".as_slice())?;
    let mut source = MemSource::new(octets, Vec::from_array(alloc, [2])?, 4);
    let mut buf = [0; 5];
    for answer in [Ok(4), Err(Failed), Ok(2)] {
        assert_eq!(rt; source.read(&mut buf), answer);
    }
    assert_eq!(rt; buf, *b"efcd\0");
    let mut source = MemSource::new(vec![in alloc; 0; 3]?, Vec::from_array(alloc, [2])?, 1);
    assert_eq!(rt; read_all(alloc, &mut source).err(), Some(ReadError::Fault));
    Ok(())
}

#[test]
fn a_sink_in_memory_is_written_in_pieces(rt: HostRuntime) -> Result<(), Fail> {
    let alloc = rt.alloc();
    let mut sink = MemSink::new(vec![in alloc; 0; 9]?, Vec::from_array(alloc, [4])?, 2);
    assert_eq!(rt; write_all(&mut sink, b"abcde"), Ok(()));
    assert_eq!(rt; write_all(&mut sink, b"fgh"), Err(Failed));
    assert_eq!(rt; write_all(&mut sink, b"fghij"), Err(Failed));
    assert_eq!(rt; sink.as_slice(), b"abcdefghi".as_slice());
    Ok(())
}

#[test]
fn a_plain_sink_takes_all(rt: HostRuntime) -> Result<(), Fail> {
    let mut sink = PlainSink::new(rt.alloc());
    for text in ["abc", "", "defgh"] {
        write_all(&mut sink, text.as_bytes())?;
    }
    assert_eq!(rt; sink.kept(), Some(b"abcdefgh".as_slice()));
    Ok(())
}

/// How many octets are read of so many line feeds.
fn count_read(alloc: Global, len: usize) -> Result<usize, ReadError> {
    let mut source = PlainSource::new(vec![in alloc; b'\n'; len]?);
    Ok(read_all(alloc, &mut source)?.len())
}

#[test]
fn input_has_a_limit(rt: HostRuntime) -> Result<(), Fail> {
    let alloc = rt.alloc();
    assert_eq!(rt; INPUT_LIMIT, 16_777_216);
    assert_eq!(rt; count_read(alloc, 0), Ok(0));
    assert_eq!(rt; count_read(alloc, 16_777_216), Ok(16_777_216));
    assert_eq!(rt; count_read(alloc, 16_777_217), Err(ReadError::TooLong));
    Ok(())
}
