//! The lines of the text, each appended by a function of its own.

ghost use Rattle.std.specs.Prelude.{◌≡◌, ◌++◌, OnOk};
ghost use Rattle.std.specs.List.{flat_map};
ghost use Rattle.std.specs.String.{string_bytes};
ghost use Rattle.check_script.specs.Text.{request_text, accepted_text, tsig_text, refused_text, set_text, report_text};
ghost use Rattle.check_script.specs.Text.{section_word, cause_word};

use dns_text::LowerHex;
use dns_wire::OutOfMemory;
use sec_check::{CheckError, Report, Section, SetProof};

/// `request HEX`
pub(crate) fn push_request(text: &mut String, octets: &[u8]) -> Result<(), OutOfMemory>
    ensures { OnOk result (string_bytes text.new ≡ string_bytes text.old ++ request_text octets.now) }
{
    let hex = LowerHex(octets);
    writeln!(text, "request {hex}")?;
    Ok(())
}

/// `answer K ok N`
pub(crate) fn push_accepted(text: &mut String, number: u64, sets: usize) -> Result<(), OutOfMemory>
    ensures { OnOk result (string_bytes text.new ≡ string_bytes text.old ++ accepted_text number sets) }
{
    writeln!(text, "answer {number} ok {sets}")?;
    Ok(())
}

/// `tsig E T`, or `tsig E` without a time; nothing where E is 0.
pub(crate) fn push_tsig(text: &mut String, error: u16, time: Option<u64>) -> Result<(), OutOfMemory>
    ensures { OnOk result (string_bytes text.new ≡ string_bytes text.old ++ tsig_text error time) }
{
    if error == 0 {
        return Ok(());
    }
    match time {
        Some(time) => writeln!(text, "tsig {error} {time}")?,
        None => writeln!(text, "tsig {error}")?,
    }
    Ok(())
}

/// `answer K CAUSE`
pub(crate) fn push_refused(
    text: &mut String,
    number: u64,
    cause: CheckError,
) -> Result<(), OutOfMemory>
    ensures { OnOk result (string_bytes text.new ≡ string_bytes text.old ++ refused_text number cause) }
{
    let word = cause_word(cause);
    writeln!(text, "answer {number} {word}")?;
    Ok(())
}

/// `PART NAME CLASS TYPE MARK`
pub(crate) fn push_set(text: &mut String, set: &SetProof) -> Result<(), OutOfMemory>
    ensures { OnOk result (string_bytes text.new ≡ string_bytes text.old ++ set_text set.now) }
{
    let section = section_word(set.section);
    let owner = set.owner;
    let dns_class = set.dns_class;
    let rtype = set.rtype;
    let proof = set.proof;
    write!(text, "{section} {owner} {dns_class} ")?;
    writeln!(text, "{rtype} {proof}")?;
    Ok(())
}

/// A line for each set.
pub(crate) fn push_sets(text: &mut String, sets: &[SetProof]) -> Result<(), OutOfMemory>
    ensures { OnOk result (string_bytes text.new ≡ string_bytes text.old ++ flat_map set_text sets.now) }
{
    'sets: for set in sets {
        push_set(text, set)?;
    }
    Ok(())
}

/// The lines of an answer that is accepted.
pub(crate) fn push_report(
    text: &mut String,
    number: u64,
    report: &Report,
) -> Result<(), OutOfMemory>
    ensures { OnOk result (string_bytes text.new ≡ string_bytes text.old ++ report_text number report.now) }
{
    let sets = report.sets();
    push_accepted(text, number, sets.len())?;
    push_tsig(text, report.tsig_error(), report.server_time())?;
    push_sets(text, sets)
}

fn section_word(section: Section) -> &'static str
    ensures { result.now ≡ section_word section }
{
    match section {
        Section::Answer => "an",
        Section::Authority => "ns",
        Section::Additional => "ar",
    }
}

fn cause_word(cause: CheckError) -> &'static str
    ensures { result.now ≡ cause_word cause }
{
    match cause {
        CheckError::Decode => "Decode",
        CheckError::MissingTsig => "MissingTsig",
        CheckError::TsigWrongKey => "TsigWrongKey",
        CheckError::TruncatedMac => "TruncatedMac",
        CheckError::HmacInvalid => "HmacInvalid",
        CheckError::Outdated => "Outdated",
        CheckError::NotAResponse => "NotAResponse",
        CheckError::OutOfMemory => "OutOfMemory",
    }
}
