//! Times to live as text.
ghost use Rattle.std.specs.Prelude.{◌≡◌, ◌+◌, ◌^◌, ◌<◌, ◌≤◌, length, drop, position, not, IfSome};
ghost use Rattle.std.specs.Char.{is_ascii_digit};
ghost use Rattle.dns_lexer.specs.Ttls as specs;

use dns_text::number_below;

/// The first number of seconds above those of a time to live.
const LIMIT: u64 = 1 << 32;

/// The seconds of a time to live: groups of decimal digits and a unit `s`, `m`, `h`, `d` or `w` in either case; the
/// last unit may be missing, for seconds. `None` at a text of another form, and where the sum is above 4,294,967,295.
pub fn parse_ttl(text: &str) -> Option<u32>
    ensures { result ≡ specs.ttl_of text.now }
{
    let octets = text.as_bytes();
    if octets.is_empty() {
        return None;
    }
    let sum = sum_of_groups(octets)?;
    Some(sum as u32)
}

/// The sum of the groups of a text, where it is below the limit.
fn sum_of_groups(text: &[u8]) -> Option<u64>
    ensures value { result ≡ specs.small (specs.group_sum 0 text.now) }
    ensures small { IfSome result (λ sum. sum < 2 ^ 32) }
{
    let mut rest = text;
    let mut sum = 0u64;
    'groups: while !rest.is_empty() {
        let seconds = first_group(rest)?;
        sum += seconds;
        if sum >= LIMIT {
            return None;
        }
        rest = behind_group(rest);
    }
    Some(sum)
}

/// The seconds of the group that a text begins with, where they are below the limit.
fn first_group(text: &[u8]) -> Option<u64>
    ensures value { result ≡ specs.small (specs.first_group text.now) }
    ensures small { IfSome result (λ seconds. seconds < 2 ^ 32) }
{
    let count = digit_count(text);
    let number = number_below(LIMIT, &text[..count])?;
    let unit = first_unit(&text[count..])?;
    let seconds = number * unit;
    if seconds < LIMIT { Some(seconds) } else { None }
}

/// What stands behind the group that a text begins with.
fn behind_group(text: &[u8]) -> &[u8]
    ensures { result.now ≡ drop (specs.digit_count text.now + 1) text.now }
{
    match &text[digit_count(text)..] {
        [_, rest @ ..] => rest,
        [] => &[],
    }
}

/// Where the first octet stands that is no digit.
fn digits_end(text: &[u8]) -> Option<usize>
    ensures { result ≡ position (λ c. not (is_ascii_digit c)) text.now }
{
    text.iter().position(|octet| !octet.is_ascii_digit())
}

/// How many digits a text begins with.
fn digit_count(text: &[u8]) -> usize
    ensures value { result ≡ specs.digit_count text.now }
    ensures within { result ≤ length text.now }
{
    match digits_end(text) {
        Some(count) => count,
        None => text.len(),
    }
}

/// The seconds of the unit that a text begins with.
fn first_unit(text: &[u8]) -> Option<u64>
    ensures value { result ≡ specs.first_unit text.now }
    ensures some { IfSome result (λ seconds. 0 < seconds) }
    ensures small { IfSome result (λ seconds. seconds ≤ 604800) }
{
    match text {
        [] => Some(1),
        [unit, ..] => match unit.to_ascii_lowercase() {
            b's' => Some(1),
            b'm' => Some(60),
            b'h' => Some(3600),
            b'd' => Some(86_400),
            b'w' => Some(604_800),
            _ => None,
        },
    }
}
