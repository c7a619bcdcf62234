//! One member of a record's digests.
ghost use Rattle.std.specs.Prelude.{◌≡◌, IfOk, IfSome, length};
ghost use Rattle.hash_bank.specs.Hash.{size_in};
ghost use Rattle.serde_json.specs.View.{view};
ghost use Rattle.cel_record.specs.Member.{bank_named as named, member_of};

use crate::kind::RecordKind;
use crate::value::text_under;
use hash_bank::{Bank, Digest};
use serde_json::Value;

// The bank of this name, if it is one that is read.
fn bank_named(name: &str) -> Option<Bank>
    ensures { result ≡ named name.now }
{
    match name {
        "sha1" => Some(Bank::Sha1),
        "sha256" => Some(Bank::Sha256),
        "sha384" => Some(Bank::Sha384),
        "sha512" => Some(Bank::Sha512),
        _ => None,
    }
}

// The digest that a member states, or nothing where its bank is none of the four.
pub(crate) fn read_member(member: &Value) -> Result<Option<(Bank, Digest)>, RecordKind>
    ensures value { result ≡ member_of (view member.now) }
    ensures sized { IfOk result (λ o. IfSome o (λ d. length d.1 ≡ size_in d.0)) }
{
    let name = text_under(member, "hashAlg").ok_or(RecordKind::HashAlg)?;
    let text = text_under(member, "digest").ok_or(RecordKind::HashAlg)?;
    let Some(bank) = bank_named(name) else {
        return Ok(None);
    };
    let digest = Digest::from_hex(bank, text)?;
    Ok(Some((bank, digest)))
}
