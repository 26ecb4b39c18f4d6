//! How a run of a program ended.

ghost use Rattle.std.specs.Prelude.{◌≡◌};
ghost use Rattle.dns_io.specs.Status.{status_number};

/// How a run ended. The first five are in the order in which a run finds them.
#[derive(Clone, Copy, Debug, PartialEq, Eq, Hash)]
pub enum Status {
    /// The words of the command are none that it knows.
    Usage,
    /// A read failed.
    ReadFault,
    /// More than [`INPUT_LIMIT`](crate::INPUT_LIMIT) octets come before the end of the input.
    TooLong,
    /// There was no memory.
    OutOfMemory,
    /// A write failed.
    WriteFault,
    /// The input is no script.
    ScriptFault,
    /// The input is a script, and not everything in it is accepted.
    Refused,
    /// The input is a script, and everything in it is accepted.
    Accepted,
}

/// The number that a program ends with.
impl From<Status> for u8 {
    ghost from_gives = { λ status number. number ≡ status_number status };

    fn from(status: Status) -> u8 {
        match status {
            Status::Usage => 64,
            Status::ReadFault => 3,
            Status::TooLong => 6,
            Status::OutOfMemory => 5,
            Status::WriteFault => 4,
            Status::ScriptFault => 2,
            Status::Refused => 1,
            Status::Accepted => 0,
        }
    }
}
