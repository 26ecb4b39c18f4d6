//! What is true of the definitions. Nothing calls these functions.
ghost use Rattle.sec_tsig.specs.Laws.{VerdictIsByMessage, NoMessageIsDecode, ValidIsAccepted, AcceptedIsValid};
ghost use Rattle.sec_tsig.specs.Laws.{InputHasOneReading, RequestPasses, ResponsePasses, LaterPasses};

use sec_digest::laws::length_of_hmac;

/// The verdict on octets is decided by the message in them, and is `Decode` exactly where there is none.
pub fn verdict_is_by_its_message()
    ensures stands { VerdictIsByMessage }
    ensures none { NoMessageIsDecode }
{}

/// The valid responses for a chain are accepted, and no other octets.
pub fn valid_is_accepted()
    ensures accepted { ValidIsAccepted }
    ensures valid { AcceptedIsValid }
{
    length_of_hmac();
}

/// Octets under a MAC have one reading.
pub fn input_one_reading()
    ensures { InputHasOneReading }
{}

/// A signed request passes its own check.
pub fn request_passes()
    ensures { RequestPasses }
{
    length_of_hmac();
}

/// A signed response passes a fresh verifier.
pub fn response_passes()
    ensures { ResponsePasses }
{
    length_of_hmac();
}

/// A later response passes next.
pub fn later_passes()
    ensures { LaterPasses }
{
    length_of_hmac();
}
