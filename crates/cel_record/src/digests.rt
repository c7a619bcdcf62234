//! The digests that a record lists.
ghost use Rattle.std.specs.Prelude.{◌≡◌, ◌≤◌, length};
ghost use Rattle.hash_bank.specs.Hash.{size_in};
ghost use Rattle.serde_json.specs.View.{view, items_view};
ghost use Rattle.cel_record.specs.Step.{Gives};
ghost use Rattle.cel_record.specs.Listed.{listed, with_digest, none_listed};
ghost use Rattle.cel_record.specs.RecordText.{digests_after, digests_with};

use crate::kind::RecordKind;
use crate::member::read_member;
use hash_bank::{Bank, Digest, Digests};
use serde_json::Value;

// Sets the digest of a bank.
fn set_digest(digests: &mut Digests, bank: Bank, digest: &Digest)
    requires { length digest.now ≡ size_in bank }
    ensures { listed digests.new ≡ with_digest bank digest.now (listed digests.old) }
{
    match bank {
        Bank::Sha1 => digests.sha1 = Some(*digest),
        Bank::Sha256 => digests.sha256 = Some(*digest),
        Bank::Sha384 => digests.sha384 = Some(*digest),
        Bank::Sha512 => digests.sha512 = Some(*digest),
    }
}

// Adds what one member states.
fn add_member(digests: &mut Digests, member: &Value) -> Result<(), RecordKind>
    ensures { Gives (λ _. listed digests.new) result (digests_with (listed digests.old) (view member.now)) }
{
    if let Some((bank, digest)) = read_member(member)? {
        if digests.get(bank).is_some() {
            return Err(RecordKind::DigestTwice);
        }
        set_digest(digests, bank, &digest);
    }
    Ok(())
}

// The digests that the members of an array list.
pub(crate) fn read_digests(members: &[Value]) -> Result<Digests, RecordKind>
    ensures { Gives listed result (digests_after none_listed (items_view members.now)) }
{
    let mut digests = Digests {
        sha1: None,
        sha256: None,
        sha384: None,
        sha512: None,
    };
    for member in members {
        add_member(&mut digests, member)?;
    }
    Ok(digests)
}
