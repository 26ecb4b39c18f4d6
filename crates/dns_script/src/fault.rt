//! The one line that is the text where octets are no script.

ghost use Rattle.std.specs.Prelude.{◌≡◌, ◌++◌, OnOk};
ghost use Rattle.std.specs.String.{string_bytes};
ghost use Rattle.dns_script.specs.Faults.{fault_text};

use crate::reason::Reason;
use dns_wire::OutOfMemory;

/// `fault LINE REASON`
pub fn push_fault(text: &mut String, line: u64, reason: Reason) -> Result<(), OutOfMemory>
    ensures { OnOk result (string_bytes text.new ≡ string_bytes text.old ++ fault_text line reason) }
{
    writeln!(text, "fault {line} {reason}")?;
    Ok(())
}
