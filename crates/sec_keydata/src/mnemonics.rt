//! The mnemonics of algorithms in the text of a DS.
ghost use Rattle.std.specs.Prelude.{◌≡◌, map};
ghost use Rattle.sec_keydata.specs.Tokens.{mnemonics, algorithm_beside};

use sec_codes::Algorithm;

/// The mnemonics and the algorithms (RFC 4034 appendix A.1). Algorithms that need no support here are unknown ones.
pub(crate) const MNEMONICS: [(&str, Algorithm); 8] = [
    ("RSAMD5", Algorithm::Unknown(1)),
    ("DH", Algorithm::Unknown(2)),
    ("DSA", Algorithm::Unknown(3)),
    ("ECC", Algorithm::Unknown(4)),
    ("RSASHA1", Algorithm::RSASHA1),
    ("INDIRECT", Algorithm::Unknown(252)),
    ("PRIVATEDNS", Algorithm::Unknown(253)),
    ("PRIVATEOID", Algorithm::Unknown(254)),
];

/// The algorithm whose mnemonic a word is.
pub(crate) fn algorithm_named(word: &[u8]) -> Option<Algorithm>
    ensures { result ≡ algorithm_beside mnemonics word.now }
{
    named_in(&MNEMONICS, word)
}

/// The algorithm beside a word in a table.
fn named_in(table: &[(&'static str, Algorithm)], word: &[u8]) -> Option<Algorithm>
    ensures { result ≡ algorithm_beside (map (λ entry. (entry.0.now, entry.1)) table.now) word.now }
{
    'table: for (mnemonic, algorithm) in table {
        if word == mnemonic.as_bytes() {
            return Some(*algorithm);
        }
    }
    None
}
