//! The lines of a text, each answered in its place.
ghost use Rattle.std.specs.Prelude.{◌≡◌, ◌++◌, IfOk};
ghost use Rattle.std.specs.String.{string_bytes};
ghost use Rattle.dns_text.specs.Words.{words};
ghost use Rattle.dns_rows.specs.Rows.{row_text, rows_text};

use dns_text::{is_skipped, split_line, without_return};
use dns_wire::OutOfMemory;
use std::alloc::Global;

/// The calls of a program.
pub trait Calls {
    ghost use Rattle.std.specs.Prelude.{ℕ, List};

    /// What the words of a line are answered.
    ghost answer_to: { List (List ℕ) → List ℕ };

    /// What the words of a line are answered.
    fn answer(&self, alloc: Global, line: &[u8]) -> Result<String, OutOfMemory>
        ensures { IfOk result (λ text. string_bytes text ≡ answer_to (words line.now)) };
}

/// Appends what a line is answered, and a line feed: nothing else where the line is skipped.
fn push_row<C: Calls>(
    alloc: Global,
    calls: &C,
    line: &[u8],
    text: &mut String,
) -> Result<(), OutOfMemory>
    ensures { IfOk result (λ _. string_bytes text.new ≡ string_bytes text.old ++ row_text C.answer_to line.now) }
{
    if is_skipped(line) {
        writeln!(text, "")?;
        return Ok(());
    }
    let answer = calls.answer(alloc, line)?;
    writeln!(text, "{answer}")?;
    Ok(())
}

/// What the lines of a text are answered, one row for each.
pub(crate) fn rows<C: Calls>(alloc: Global, calls: &C, octets: &[u8]) -> Result<String, OutOfMemory>
    ensures { IfOk result (λ text. string_bytes text ≡ rows_text C.answer_to octets.now) }
{
    let mut text = String::new(alloc);
    let mut rest = octets;
    'lines: while !rest.is_empty() {
        let (line, after) = split_line(rest);
        push_row(alloc, calls, without_return(line), &mut text)?;
        rest = after;
    }
    Ok(text)
}
