//! Octets and numbers, in and out.
#![tactic(auto)]

mod counter;
mod decoder;
mod encoder;
mod encoder_sink;
mod error;
mod grower;
pub mod laws;
mod octets;
mod pieces;
mod putting;
mod serial;
mod sink;
mod slice_writer;
mod time;
mod traits;

pub use counter::Counter;
pub use decoder::BinDecoder;
pub use encoder::{BinEncoder, NameEncoding};
pub use error::{DecodeError, EmitError, NameError, OutOfMemory};
pub use grower::Grower;
pub use octets::Octets;
pub use putting::{Form, Putting, emit_put, fill_room, put_len};
pub use serial::SerialNumber;
pub use sink::{OctetSink, put_u8, put_u16, put_u32};
pub use slice_writer::SliceWriter;
pub use time::time_octets;
pub use traits::{BinDecodable, BinEncodable, RecordDataDecodable};
