//! Names in wire form.
ghost use Rattle.std.specs.Prelude.{◌≡◌, IfOk};
ghost use Rattle.dns_names.specs.Names.{IsName};
ghost use Rattle.dns_c.specs.Arguments.{wire_name};

use crate::status::Status;
use dns_names::Name;
use dns_wire::BinDecoder;

/// The name whose wire form the octets are.
///
/// # Errors
///
/// `BadName`.
pub(crate) fn name_of_wire(octets: &[u8]) -> Result<Name, Status>
    ensures exact { result ≡ wire_name octets.now }
    ensures name { IfOk result IsName }
{
    let mut decoder = BinDecoder::new(octets);
    let Ok(name) = Name::read(&mut decoder) else {
        return Err(Status::BadName);
    };
    if decoder.index() == octets.len() {
        Ok(name)
    } else {
        Err(Status::BadName)
    }
}
