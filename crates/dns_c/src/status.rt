//! What a call answers.
ghost use Rattle.std.specs.Prelude.{◌≡◌};
ghost use Rattle.dns_c.specs.Answered.{number_of};

/// What a call answers: that it is done, or why it is refused. C is told its number.
#[derive(Clone, Copy, Debug, PartialEq, Eq)]
pub enum Status {
    /// It is done.
    Done,
    /// The caller's room is too short. The length that is needed is told.
    OutTooShort,
    /// The hash function is none of SHA-256, SHA-384 and SHA-512.
    UnknownHash,
    /// The digest type is none of SHA-1, SHA-256 and SHA-384.
    UnknownDigestType,
    /// More than 65,535 octets of data.
    DataTooLong,
    /// More than 255 octets of salt.
    SaltTooLong,
    /// The octets are no name in wire form, or go on behind it.
    BadName,
    /// The text is no UTF-8.
    NotUtf8,
    /// A label of the text has no octets.
    EmptyLabel,
    /// A label of the text has more than 63 octets.
    LabelTooLong,
    /// The name of the text has more than 255 octets in wire form.
    NameTooLong,
    /// A `\` of the text is followed by nothing, or by digits that are no octet.
    BadEscape,
    /// A character of the text is neither printable ASCII nor escaped.
    BadCharacter,
    /// A time of 2^48 seconds or more.
    TimeTooLarge,
    /// The octets are no message without a transaction signature, or go on behind it.
    NotARequest,
    /// The message has 65,535 additional records.
    CountTooLarge,
    /// The signed message would have more than 65,535 octets.
    MessageTooLong,
    /// The chain has a MAC of more than 64 octets.
    BadChain,
    /// No message stands in the octets.
    NotAMessage,
    /// The message has no transaction signature as its last record.
    MissingTsig,
    /// The transaction signature names another key or another algorithm.
    WrongKey,
    /// The MAC is cut.
    TruncatedMac,
    /// The MAC is wrong.
    WrongMac,
    /// Signed before the last answer, or the request was sent outside its window.
    Outdated,
    /// The message is signed and is no response.
    NotAResponse,
    /// The number of the section is none of 1, 2 and 3.
    BadSection,
    /// No record stands at the place.
    NoRecord,
    /// No RRSIG with data starts at the place.
    NoRrsig,
    /// The RRSIG has more labels than the owner.
    LabelsExceedOwner,
}

impl Status {
    /// The number by which C is told of it.
    pub(crate) fn number(self) -> u32
        ensures { result ≡ number_of self }
    {
        match self {
            Status::Done => 0,
            Status::OutTooShort => 1,
            Status::UnknownHash => 2,
            Status::UnknownDigestType => 3,
            Status::DataTooLong => 4,
            Status::SaltTooLong => 5,
            Status::BadName => 6,
            Status::NotUtf8 => 7,
            Status::EmptyLabel => 8,
            Status::LabelTooLong => 9,
            Status::NameTooLong => 10,
            Status::BadEscape => 11,
            Status::BadCharacter => 12,
            Status::TimeTooLarge => 13,
            Status::NotARequest => 14,
            Status::CountTooLarge => 15,
            Status::MessageTooLong => 16,
            Status::BadChain => 17,
            Status::NotAMessage => 18,
            Status::MissingTsig => 19,
            Status::WrongKey => 20,
            Status::TruncatedMac => 21,
            Status::WrongMac => 22,
            Status::Outdated => 23,
            Status::NotAResponse => 24,
            Status::BadSection => 25,
            Status::NoRecord => 26,
            Status::NoRrsig => 27,
            Status::LabelsExceedOwner => 28,
        }
    }
}
