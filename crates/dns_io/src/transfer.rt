//! Reading all there is, and writing all there is to write.

ghost use Rattle.std.specs.Prelude.{◌≡◌, ◌≢◌, ◌≤◌, ◌<◌, ◌+◌, length, IfOk, OnOk, OnErr, IsErrOf, vec_len};
ghost use Rattle.std.specs.Io.KnownBytes.{Appends, Consumes, IsAtEnd};
ghost use Rattle.dns_io.specs.Counts.{RoseBy, raised, CountsFaults};
ghost use Rattle.dns_io.specs.Transfer.{ReadsAll, CountsReadFault, AppendsPrefix, Moves};
ghost use Rattle.dns_io.specs.declared.transfer.TheConstants.{INPUT_LIMIT};
ghost use Rattle.dns_io.specs.declared.transfer.ReadError.TheVariants.{OutOfMemory};

use crate::{Failed, Sink, Source};
use std::alloc::{AllocError, Global};
use std::error::Error;
use std::fmt;

/// The most octets that are read.
pub const INPUT_LIMIT: usize = 16_777_216;

// How many octets are asked for at once.
const PIECE: usize = 65_536;

/// Why there is no content.
#[derive(Clone, Copy, Debug, PartialEq, Eq, Hash)]
pub enum ReadError {
    /// A read failed.
    Fault,
    /// More than [`INPUT_LIMIT`] octets come before the end.
    TooLong,
    /// Out of memory.
    OutOfMemory,
}

/// The name of the variant.
impl fmt::Display for ReadError {
    ghost use Rattle.std.specs.Prelude.{Some};
    ghost use Rattle.dns_io.specs.ErrorTexts.{read_error_text};

    ghost output = { λ error. Some (read_error_text error) };

    fn fmt<W: fmt::Write>(&self, f: &mut fmt::Formatter<W>) -> fmt::Result {
        f.write_str(match self {
            ReadError::Fault => "Fault",
            ReadError::TooLong => "TooLong",
            ReadError::OutOfMemory => "OutOfMemory",
        })
    }
}

impl Error for ReadError {}

impl From<AllocError> for ReadError {
    ghost from_gives = { λ _ e. e ≡ OutOfMemory };

    fn from(_: AllocError) -> Self {
        ReadError::OutOfMemory
    }
}

/// All the octets of a source, up to its end. At most `INPUT_LIMIT` + 1 octets are ever taken.
pub fn read_all<S: Source>(alloc: Global, source: &mut S) -> Result<Vec<u8>, ReadError>
    // What the source tells decides, but for a failed read and where memory is out.
    ensures told { ReadsAll result (S.left source.old) }
    ensures end { OnOk result (IsAtEnd (S.left source.new)) }
    ensures taken { IfOk result (λ content. S.taken source.new ≡ raised (S.taken source.old) (vec_len content)) }
    ensures consumed { IfOk result (λ content. Consumes (S.left source.old) (S.left source.new) content.items) }

    // Each refusal has its cause, also where the source tells nothing.
    ensures faults { CountsReadFault (S.faults source.old) (S.faults source.new) result }
    ensures too_long { IsErrOf result ReadError.TooLong
        → RoseBy (INPUT_LIMIT + 1) (S.taken source.old) (S.taken source.new) }
    ensures at_most { S.taken source.new ≤ raised (S.taken source.old) (INPUT_LIMIT + 1) }
{
    let mut content = Vec::new(alloc);
    let mut piece = empty_piece(alloc)?;
    'pieces: while content.len() <= INPUT_LIMIT {
        let room = piece.len().min(INPUT_LIMIT + 1 - content.len());
        if read_piece(source, &mut piece[..room], &mut content)? == 0 {
            return Ok(content);
        }
    }
    Err(ReadError::TooLong)
}

// Reads once, and appends what came. Nothing comes at the end alone.
fn read_piece<S: Source>(
    source: &mut S,
    piece: &mut [u8],
    content: &mut Vec<u8>,
) -> Result<usize, ReadError>
    ensures moved { IfOk result (Moves (S.left source.old) (S.left source.new) content.old.items content.new.items) }
    ensures end { IfOk result (λ n. n ≡ 0 → 0 < length piece.old → IsAtEnd (S.left source.new)) }
    ensures bound { IfOk result (λ n. n ≤ length piece.old) }
    ensures taken { IfOk result (λ n. S.taken source.new ≡ raised (S.taken source.old) n) }
    ensures faults { CountsReadFault (S.faults source.old) (S.faults source.new) result }
    ensures too_long { result ≢ Err ReadError.TooLong }
    ensures at_most { S.taken source.new ≤ raised (S.taken source.old) (length piece.old) }
{
    let Ok(count) = source.read(piece) else {
        return Err(ReadError::Fault);
    };
    content.extend_from_slice(&piece[..count])?;
    Ok(count)
}

// Room for a piece of the input. The loop needs only that it is some, and a proof does not count to 65,536.
fn empty_piece(alloc: Global) -> Result<Vec<u8>, AllocError>
    ensures { IfOk result (λ piece. 0 < vec_len piece) }
{
    vec![in alloc; 0u8; PIECE]
}

/// Writes the whole text, or a prefix of it where a write fails.
pub fn write_all<K: Sink>(sink: &mut K, text: &[u8]) -> Result<(), Failed>
    ensures whole { OnOk result (Appends (K.held sink.old) (K.held sink.new) text.now) }
    ensures prefix { OnErr result (AppendsPrefix (K.held sink.old) (K.held sink.new) text.now) }
    ensures faults { CountsFaults (K.faults sink.old) (K.faults sink.new) result }
{
    let mut rest = text;
    'pieces: while !rest.is_empty() {
        let count = sink.write(rest)?;
        rest = &rest[count..];
    }
    Ok(())
}
