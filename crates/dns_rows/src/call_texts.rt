//! What calls are answered, where it is no value's own text, and what is written of a value.
ghost use Rattle.std.specs.Prelude.{◌≡◌, IfOk, map, false};
ghost use Rattle.std.specs.String.{string_bytes};
ghost use Rattle.dns_wire.specs.Reading.{GivesUnless};
ghost use Rattle.dns_rows.specs.CallTexts.{yes_or_no, text_or_dash, separated};

use dns_wire::{BinEncodable, BinEncoder, EmitError, NameEncoding, OutOfMemory};
use std::alloc::Global;

/// `yes` or `no`.
pub fn yes_or_no(is: bool) -> &'static str
    ensures { result.now ≡ yes_or_no is }
{
    if is { "yes" } else { "no" }
}

/// A text, and `-` where it is empty.
pub fn text_or_dash(alloc: Global, text: String) -> Result<String, OutOfMemory>
    ensures { IfOk result (λ shown. string_bytes shown ≡ text_or_dash (string_bytes text)) }
{
    if text.is_empty() {
        return Ok(String::from_str(alloc, "-")?);
    }
    Ok(text)
}

/// Texts with a separator between each two, and `-` for none.
pub fn separated(alloc: Global, separator: &str, texts: &[String]) -> Result<String, OutOfMemory>
    ensures { IfOk result (λ text. string_bytes text ≡ separated separator.now (map string_bytes texts.now)) }
{
    if texts.is_empty() {
        return Ok(String::from_str(alloc, "-")?);
    }
    Ok(texts.join(alloc, separator)?)
}

/// The octets of a value, as they are written first.
pub fn written<T: BinEncodable>(alloc: Global, value: &T) -> Result<Vec<u8>, EmitError>
    ensures { GivesUnless EmitError.OutOfMemory (λ octets. octets.items) result
        (T.written false NameEncoding.Uncompressed value.now) }
{
    let mut encoder = BinEncoder::new(alloc);
    value.emit(&mut encoder)?;
    Ok(encoder.into_bytes())
}
