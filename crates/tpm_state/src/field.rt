//! What the fields of a state file share: their fault, and digests one behind the other.
ghost use Rattle.std.specs.Prelude.{◌≡◌, ◌+◌, ◌++◌, length, OnOk, IfOk};
ghost use Rattle.std.specs.List.{flat_map};
ghost use Rattle.hash_bank.specs.Hash.{size_in};
ghost use Rattle.pl_layout.specs.Reading.{bytes_at, repeat_at};
ghost use Rattle.tpm_state.specs.Field.{Gives, digest_text, fault};

use crate::DecodeError;
use hash_bank::{Bank, Digest};
use pl_base::Memory;
use pl_layout::{CutFault, digest_of, place_of, read_bank_bytes};

/// The fault of the field that begins with these bytes, the last of all that there are.
pub(crate) fn fault_at(all: usize, bytes: &[u8]) -> DecodeError
    ensures { result ≡ fault all bytes.now }
{
    DecodeError::Malformed(place_of(all, bytes))
}

impl CutFault for DecodeError {
    ghost cut_at = { fault };

    fn cut(all: usize, bytes: &[u8]) -> DecodeError {
        fault_at(all, bytes)
    }
}

/// So many digests of the bank's size, behind those that were read.
pub(crate) fn read_digests(
    all: usize,
    bank: Bank,
    count: u8,
    before: Vec<Digest>,
    bytes: &[u8],
) -> Result<(Vec<Digest>, &[u8]), DecodeError>
    ensures exact { Gives (λ x. (x.0.items, x.1.now)) result (repeat_at (λ b. bytes_at (fault all) (size_in bank)) count before.items bytes.now) }
    ensures count { IfOk result (λ x. length x.0.items ≡ length before.items + count) }
{
    let mut read = before;
    let mut rest = bytes;
    for _ in 0..count {
        let (next, after) = read_bank_bytes::<DecodeError>(all, bank, rest)?;
        read.push(digest_of(next))?;
        rest = after;
    }
    Ok((read, rest))
}

/// Writes digests one after the other.
pub(crate) fn put_digests(out: &mut Vec<u8>, digests: &[Digest]) -> Result<(), Memory>
    ensures { OnOk result (out.new.items ≡ out.old.items ++ flat_map digest_text digests.now) }
{
    for digest in digests {
        out.extend_from_slice(digest.as_slice())?;
    }
    Ok(())
}
