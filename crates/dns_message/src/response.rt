//! Responses: messages whose bit QR is set (RFC 1035 4.1.1), with the octets that they were read from.
ghost use Rattle.std.specs.Prelude.{◌≡◌};
ghost use Rattle.dns_message.specs.Responses.{response_message, response_octets, ReadsResponse};

use crate::message::Message;
use dns_wire::DecodeError;
use std::error::Error;
use std::fmt;

/// Why octets are no response.
#[derive(Clone, Copy, Debug, PartialEq, Eq)]
pub enum ResponseError {
    /// The octets are no message.
    Decode(DecodeError),
    /// The bit QR is clear.
    NotAResponse,
    /// There was no memory.
    OutOfMemory,
}

/// The name of the variant, and what it holds.
impl fmt::Display for ResponseError {
    ghost use Rattle.std.specs.Prelude.{Some};
    ghost use Rattle.dns_message.specs.ErrorTexts.{response_error_text};

    ghost output = { λ error. Some (response_error_text error) };

    fn fmt<W: fmt::Write>(&self, f: &mut fmt::Formatter<W>) -> fmt::Result {
        match self {
            ResponseError::Decode(fault) => write!(f, "Decode {fault}"),
            ResponseError::NotAResponse => f.write_str("NotAResponse"),
            ResponseError::OutOfMemory => f.write_str("OutOfMemory"),
        }
    }
}

impl Error for ResponseError {}

/// A response, and the octets that it was read from. A contract sees them, by `response_message` and
/// `response_octets`.
#[derive(Debug, Drop)]
pub struct DnsResponse {
    message: Message,
    buffer: Vec<u8>,
}

impl DnsResponse {
    /// Reads the response that stands in these octets. Octets behind the message are no fault.
    ///
    /// # Errors
    ///
    /// `Decode` with the fault of `Message::from_vec`, then `NotAResponse` where the bit QR is clear. Or `OutOfMemory`.
    #[tactic(auto, using(crate::proofs::ResponseLaws::reads_response))]
    pub fn from_buffer(buffer: Vec<u8>) -> Result<DnsResponse, ResponseError>
        ensures { ReadsResponse buffer.items result }
    {
        let alloc = *buffer.allocator();
        match Message::from_vec(alloc, buffer.as_slice()) {
            Ok(message) => {
                if message.is_response() {
                    Ok(DnsResponse { message, buffer })
                } else {
                    Err(ResponseError::NotAResponse)
                }
            }
            Err(fault) => match fault {
                DecodeError::OutOfMemory => Err(ResponseError::OutOfMemory),
                _ => Err(ResponseError::Decode(fault)),
            },
        }
    }

    /// The message.
    pub fn message(&self) -> &Message
        ensures { result.now ≡ response_message self.now }
    {
        &self.message
    }

    /// The octets.
    pub fn as_buffer(&self) -> &[u8]
        ensures { result.now ≡ response_octets self.now }
    {
        self.buffer.as_slice()
    }
}
