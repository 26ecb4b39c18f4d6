//! What the program is called with, and the number that it ends with.

ghost use Rattle.std.specs.Prelude.{◌≡◌, drop, IfErr};
ghost use Rattle.std.specs.IoError.{error_kind};
ghost use Rattle.std.specs.Process.{exit_status};
ghost use Rattle.dns_io.specs.Status.{status_number};
ghost use Rattle.dns_script.specs.CommandLine.{status_without_words, IsWithoutWords};

use dns_io::Status;
use std::process::ExitCode;
use std::{env, io};

/// The words of a command line behind the program's name.
pub fn behind_program_name(words: &[String]) -> &[String]
    ensures { result.now ≡ drop 1 words.now }
{
    match words {
        [_, rest @ ..] => rest,
        [] => &[],
    }
}

/// The words of the command line.
///
/// # Errors
///
/// How a run ends whose words can't be had: `OutOfMemory`, or `Usage` where a word is no text.
pub fn command_words(rt: &HostRuntime) -> Result<Vec<String>, Status>
    ensures { IfErr result IsWithoutWords }
{
    match env::args(rt).and_then(|args| Ok(args.collect::<Vec<String>>(rt.alloc())?)) {
        Ok(words) => Ok(words),
        Err(error) => Err(status_without_words(&error)),
    }
}

/// How a run ends whose words could not be had.
fn status_without_words(error: &io::Error) -> Status
    ensures { result ≡ status_without_words (error_kind error.now) }
{
    match error.kind() {
        io::ErrorKind::OutOfMemory => Status::OutOfMemory,
        _ => Status::Usage,
    }
}

/// The number that the process ends with.
pub fn exit_code(status: Status) -> ExitCode
    ensures { exit_status result ≡ status_number status }
{
    ExitCode::from(u8::from(status))
}
