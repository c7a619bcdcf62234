ghost use Rattle.std.specs.Prelude.{◌≡◌};
ghost use Rattle.cel_record.specs.Kind.{kind_of_hex};

use hash_bank::HexError;
use std::fmt;

/// Why a JSON text is no record. The tests stand in the order NotJson, NotObject, Pcr, Digests, and
/// then for each member of `digests` HashAlg, Length, Hex, DigestTwice; the first that fails is told.
#[derive(Clone, Copy, Debug, PartialEq, Eq)]
pub enum RecordKind {
    /// The bytes are no JSON text (RFC 8259) that `serde_json` reads.
    NotJson,
    /// The value is no object.
    NotObject,
    /// `pcr` is no unsigned whole number from 0 to 23.
    Pcr,
    /// `digests` is no array.
    Digests,
    /// A member of `digests` is no object with the texts `hashAlg` and `digest`.
    HashAlg,
    /// A digest of one of the four banks has a byte that is no hexadecimal digit.
    Hex,
    /// A digest of one of the four banks hasn't two digits for each byte.
    Length,
    /// Two members of `digests` name one bank.
    DigestTwice,
}

impl fmt::Display for RecordKind {
    fn fmt<W: fmt::Write>(&self, f: &mut fmt::Formatter<W>) -> fmt::Result {
        f.write_str(match self {
            RecordKind::NotJson => "no JSON",
            RecordKind::NotObject => "no object",
            RecordKind::Pcr => "no PCR",
            RecordKind::Digests => "no list of digests",
            RecordKind::HashAlg => "no algorithm and digest",
            RecordKind::Hex => "a digest with a bad digit",
            RecordKind::Length => "a digest of another length",
            RecordKind::DigestTwice => "two digests of one bank",
        })
    }
}

impl From<HexError> for RecordKind {
    ghost from_gives = { λ error kind. kind ≡ kind_of_hex error };

    fn from(error: HexError) -> RecordKind {
        match error {
            HexError::BadLength => RecordKind::Length,
            HexError::BadHex(_) => RecordKind::Hex,
        }
    }
}
