//! What is true of the demo. Nothing calls these functions.
ghost use Rattle.dns_demo.specs.Laws.{AnchorIsRead, AnswersAreWritten, AnswersHaveTsig, RequestIsSigned};
ghost use Rattle.dns_demo.specs.Laws.{RequestIsWritten, SetsAreSigned};

use sec_digest::laws::length_of_hmac;

/// The anchor text is read.
pub fn anchor_is_read()
    ensures { AnchorIsRead }
{}

/// The request is written and signed.
pub fn request_is_signed()
    ensures written { RequestIsWritten }
    ensures signed { RequestIsSigned }
{
    length_of_hmac();
}

/// The record set of each answer has octets to sign.
pub fn sets_are_signed()
    ensures { SetsAreSigned }
{}

/// Each answer is written, and a TSIG record is put behind it.
pub fn answers_are_signed()
    ensures written { AnswersAreWritten }
    ensures signed { AnswersHaveTsig }
{
    length_of_hmac();
}
