ghost use Rattle.std.specs.Prelude.{◌≡◌, ◌≤◌, ◌<◌, ℕ, length, slice_index_or, Some, None, IfSome};
ghost use Rattle.hash_bank.specs.Hash.{size_in};
ghost use Rattle.hash_bank.specs.Extending.{start_of};
ghost use Rattle.hash_bank.specs.Digests.{digest_at};
ghost use Rattle.pcr_replay.specs.Row.{rows};
ghost use Rattle.pcr_replay.specs.Measured.{replayed_in, replay_on, value_after};

use crate::record::LogRecord;
use hash_bank::{Bank, Digest, Digests, extend, start};

/// What the bank's PCR holds after the extends of its records in order, since a restart at this
/// locality. `None` exactly where one of the PCR's records lacks the bank. There are 24 PCRs, from
/// 0 on.
pub fn replay(list: &[LogRecord], pcr: u8, bank: Bank, locality: u8) -> Option<Digest>
    requires { pcr ≤ 23 }
    ensures { result ≡ replayed_in bank pcr locality (rows list.now) }
{
    let mut value = start(bank, pcr, locality);
    for record in list {
        if record.pcr == pcr {
            match record.digests.get(bank) {
                Some(digest) => value = extend(bank, &value, &digest),
                None => return None,
            }
        }
    }
    Some(value)
}

/// The bank's digest, if it is there, where it lies.
fn digest_of(digests: &Digests, bank: Bank) -> &Option<Digest>
    ensures value { result.now ≡ digest_at digests.now bank }
    ensures size { IfSome result.now (λ d. length d ≡ size_in bank) }
{
    match bank {
        Bank::Sha1 => &digests.sha1,
        Bank::Sha256 => &digests.sha256,
        Bank::Sha384 => &digests.sha384,
        Bank::Sha512 => &digests.sha512,
    }
}

/// Extends a value by the bank's digest, where both are there; else there is no value.
fn extend_value(bank: Bank, value: &mut Option<Digest>, digests: &Digests)
    requires { IfSome value.old (λ v. length v ≡ size_in bank) }
    ensures value { value.new ≡ value_after bank value.old (digest_at digests.now bank) }
    ensures size { IfSome value.new (λ v. length v ≡ size_in bank) }
{
    if let Some(held) = value {
        match digest_of(digests, bank) {
            Some(digest) => *held = extend(bank, held, digest),
            None => *value = None,
        }
    }
}

/// Puts what each PCR holds after a restart at the locality.
fn start_all(values: &mut [Option<Digest>], bank: Bank, locality: u8)
    requires { length values.old ≡ 24 }
    ensures { (pcr : ℕ) → pcr < 24 → slice_index_or values.new pcr None ≡ Some (start_of bank pcr locality) }
{
    for pcr in 0..24u8 {
        values[pcr as usize] = Some(start(bank, pcr, locality));
    }
}

/// Extends each PCR by the digests of its records, in order.
fn extend_all(values: &mut [Option<Digest>], bank: Bank, list: &[LogRecord])
    requires count { length values.old ≡ 24 }
    requires sizes { (pcr : ℕ) → pcr < 24 → IfSome (slice_index_or values.old pcr None) (λ v. length v ≡ size_in bank) }
    ensures { (pcr : ℕ) → pcr < 24 → slice_index_or values.new pcr None ≡ replay_on bank pcr (slice_index_or values.old pcr None) (rows list.now) }
{
    for record in list {
        let pcr = record.pcr as usize;
        extend_value(bank, &mut values[pcr], &record.digests);
    }
}

/// What each of the bank's 24 PCRs holds, as `replay` says of it, in one pass over the records.
pub fn replay_all(list: &[LogRecord], bank: Bank, locality: u8) -> [Option<Digest>; 24]
    ensures { (pcr : ℕ) → pcr < 24 → slice_index_or result pcr None ≡ replayed_in bank pcr locality (rows list.now) }
{
    let mut values = [None; 24];
    start_all(&mut values, bank, locality);
    extend_all(&mut values, bank, list);
    values
}
