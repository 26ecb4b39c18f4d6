//! The words of a line as one text.
ghost use Rattle.std.specs.Prelude.{◌≡◌, IfOk};
ghost use Rattle.dns_text.specs.Words.{words};
ghost use Rattle.sec_anchor.specs.Entries.{joined};

use dns_text::split_word;
use dns_wire::OutOfMemory;
use std::alloc::Global;

/// The words of a line, with a space between each two.
#[tactic(auto, using(crate::proofs::JoinedSteps::spaced_more))]
pub(crate) fn joined(alloc: Global, line: &[u8]) -> Result<Vec<u8>, OutOfMemory>
    ensures { IfOk result (λ text. text.items ≡ joined (words line.now)) }
{
    let Some((first, mut rest)) = split_word(line) else {
        return Ok(Vec::new(alloc));
    };
    let mut text = Vec::from_slice(alloc, first)?;
    'words: while let Some((word, after)) = split_word(rest) {
        text.push(b' ')?;
        text.extend_from_slice(word)?;
        rest = after;
    }
    Ok(text)
}
