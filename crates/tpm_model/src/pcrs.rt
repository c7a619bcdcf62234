//! The PCR values of a state, and the commands on them.
ghost use Rattle.std.specs.Prelude.{◌≡◌, ◌+◌, ◌*◌, ◌<◌, ◌≤◌, true, ◌++◌, length, take};
ghost use Rattle.hash_bank.specs.Hash.{size_in};
ghost use Rattle.hash_bank.specs.Banks.{has_bank};
ghost use Rattle.hash_bank.specs.Digests.{digest_at};
ghost use Rattle.policy_digest.specs.Policies.{IsPolicyHash};
ghost use Rattle.tpm_model.specs.Held.{parts_of};
ghost use Rattle.tpm_model.specs.PcrCommands.{is_start_locality as start_locality_of, pcr_extend, pcr_read, restart};
ghost use Rattle.tpm_model.specs.StartValues.{starts_from, starts_if, start_values};
ghost use Rattle.tpm_model.specs.Pcrs.{present_digest_in, bank_count as count_of_banks, banks_before, place_of, pcr_of, values_of, chosen, extended_in, after_extend, HasValues};

use crate::held::Held;
use crate::pcr_values::PcrValues;
use crate::{Counter, Refusal, Response};
use hash_bank::{Bank, Banks, Digest, Digests, extend, start};
use pl_base::List;
use policy_digest::values_digest_in;
use std::alloc::Global;

/// The PCRs of a bank.
const PCRS: usize = 24;

/// How many present banks stand before this one.
fn present_before(banks: Banks, bank: Bank) -> usize
    ensures value { result ≡ banks_before banks bank }
    ensures small { result ≤ 3 }
{
    let sha1 = usize::from(banks.sha1);
    let sha256 = usize::from(banks.sha256);
    let sha384 = usize::from(banks.sha384);
    match bank {
        Bank::Sha1 => 0,
        Bank::Sha256 => sha1,
        Bank::Sha384 => sha1 + sha256,
        Bank::Sha512 => sha1 + sha256 + sha384,
    }
}

/// How many banks are present.
pub(crate) fn bank_count(banks: Banks) -> usize
    ensures { result ≡ count_of_banks banks }
{
    usize::from(banks.sha1)
        + usize::from(banks.sha256)
        + usize::from(banks.sha384)
        + usize::from(banks.sha512)
}

/// Where the value of a PCR stands.
fn place(banks: Banks, bank: Bank, pcr: u8) -> usize
    requires { pcr < 24 }
    ensures value { result ≡ place_of banks bank pcr }
    ensures small { result < 96 }
{
    PCRS * present_before(banks, bank) + usize::from(pcr)
}

/// The value of a PCR, where its bank is present.
pub(crate) fn pcr_value(banks: Banks, pcrs: &[Digest], bank: Bank, pcr: u8) -> Option<Digest>
    ensures { result ≡ pcr_of banks pcrs.now bank pcr }
{
    if banks.has(bank) && usize::from(pcr) < PCRS {
        pcrs.get(place(banks, bank, pcr)).copied()
    } else {
        None
    }
}

/// Extends the PCR in one bank, where it is present and there is a digest for it.
fn extend_in(banks: Banks, pcrs: &mut PcrValues, bank: Bank, pcr: u8, digests: &Digests)
    requires { HasValues banks pcrs.old }
    ensures value { pcrs.new ≡ extended_in banks pcr (digest_at digests.now bank) bank pcrs.old }
    ensures values { HasValues banks pcrs.new }
{
    let Some(old) = pcr_value(banks, pcrs.as_slice(), bank, pcr) else {
        return;
    };
    let Some(digest) = digests.get(bank) else {
        return;
    };
    pcrs.set(place(banks, bank, pcr), &extend(bank, &old, &digest));
}

/// Extends the PCR in each present bank with a digest.
fn extend_all(banks: Banks, pcrs: &mut PcrValues, pcr: u8, digests: &Digests)
    requires { HasValues banks pcrs.old }
    ensures value { pcrs.new ≡ after_extend banks pcr digests.now pcrs.old }
    ensures values { HasValues banks pcrs.new }
{
    extend_in(banks, pcrs, Bank::Sha1, pcr, digests);
    extend_in(banks, pcrs, Bank::Sha256, pcr, digests);
    extend_in(banks, pcrs, Bank::Sha384, pcr, digests);
    extend_in(banks, pcrs, Bank::Sha512, pcr, digests);
}

/// PcrExtend.
pub(crate) fn pcr_extended(held: &mut Held, pcr: u8, digests: &Digests) -> Response
    requires { HasValues held.old.banks held.old.pcrs }
    ensures { (result, parts_of held.new) ≡ pcr_extend pcr digests.now (parts_of held.old) }
{
    if usize::from(pcr) >= PCRS {
        return Response::Refused(Refusal::Value);
    }
    if held.update_counter == u32::MAX {
        return Response::Refused(Refusal::CounterEnd(Counter::Update));
    }
    extend_all(held.banks, &mut held.pcrs, pcr, digests);
    held.update_counter += 1;
    Response::Done
}

/// PcrRead.
pub(crate) fn pcr_answer(held: &Held, bank: Bank, pcr: u8) -> Response
    ensures { (result, parts_of held.now) ≡ pcr_read bank pcr (parts_of held.now) }
{
    if usize::from(pcr) >= PCRS {
        return Response::Refused(Refusal::Value);
    }
    match pcr_value(held.banks, held.pcrs.as_slice(), bank, pcr) {
        Some(value) => Response::Pcr(value),
        None => Response::Refused(Refusal::BankAbsent(bank)),
    }
}

/// The 24 values of a present bank.
fn bank_values(banks: Banks, pcrs: &[Digest], bank: Bank) -> &[Digest]
    requires values { HasValues banks pcrs.now }
    requires present { has_bank banks bank ≡ true }
    ensures value { result.now ≡ values_of banks pcrs.now bank }
    ensures count { length result.now ≡ 24 }
{
    let start = PCRS * present_before(banks, bank);
    &pcrs[start..start + PCRS]
}

/// The values at the mask's bits, and how many they are.
fn chosen_of(pcrs: u32, values: &[Digest]) -> ([Digest; 24], usize)
    requires { length values.now ≡ 24 }
    ensures value { take result.1 result.0 ≡ chosen pcrs values.now }
    ensures count { result.1 ≤ 24 }
{
    let mut room = [Digest::zeros(Bank::Sha1); 24];
    let mut count = 0;
    let mut rest = pcrs;
    for value in values {
        if rest % 2 == 1 {
            room[count] = *value;
            count += 1;
        }
        rest /= 2;
    }
    (room, count)
}

/// The digest of the mask's present values in a present bank, under the hash.
pub(crate) fn present_values_digest(
    banks: Banks,
    values: &[Digest],
    hash: Bank,
    bank: Bank,
    pcrs: u32,
) -> Digest
    requires values { HasValues banks values.now }
    requires present { has_bank banks bank ≡ true }
    requires hash { IsPolicyHash hash }
    ensures value { result ≡ present_digest_in hash bank pcrs banks values.now }
    ensures size { length result ≡ size_in hash }
{
    let (room, count) = chosen_of(pcrs, bank_values(banks, values, bank));
    values_digest_in(hash, &room[..count])
}

/// Puts the start values of the bank's PCRs at the end.
fn push_started(values: &mut PcrValues, bank: Bank, locality: u8)
    requires { length values.old ≤ 72 }
    ensures value { values.new ≡ values.old ++ starts_from bank locality 0 24 }
    ensures count { length values.new ≡ length values.old + 24 }
{
    for pcr in 0..24u8 {
        values.push(&start(bank, pcr, locality));
    }
}

/// Puts the start values of the bank's PCRs at the end, where it is present.
fn push_started_if(values: &mut PcrValues, present: bool, bank: Bank, locality: u8)
    requires { length values.old ≤ 72 }
    ensures value { values.new ≡ values.old ++ starts_if present bank locality }
    ensures count { length values.new ≤ length values.old + 24 }
{
    if present {
        push_started(values, bank, locality);
    }
}

/// The values of the present banks after a start at the locality.
pub(crate) fn started(banks: Banks, locality: u8) -> PcrValues
    ensures { result ≡ start_values banks locality }
{
    let mut values = PcrValues::new();
    push_started_if(&mut values, banks.sha1, Bank::Sha1, locality);
    push_started_if(&mut values, banks.sha256, Bank::Sha256, locality);
    push_started_if(&mut values, banks.sha384, Bank::Sha384, locality);
    push_started_if(&mut values, banks.sha512, Bank::Sha512, locality);
    values
}

/// Whether a machine may start at the locality.
pub(crate) fn is_start_locality(locality: u8) -> bool
    ensures { result ≡ start_locality_of locality }
{
    locality == 0 || locality == 3 || locality == 4
}

/// Restart. It takes no memory.
pub(crate) fn restarted(alloc: Global, held: &mut Held, locality: u8, banks: Banks) -> Response
    ensures { (result, parts_of held.new) ≡ restart locality banks (parts_of held.old) }
{
    if !is_start_locality(locality) || bank_count(banks) == 0 {
        return Response::Refused(Refusal::Value);
    }
    held.banks = banks;
    held.pcrs = started(banks, locality);
    held.update_counter = 0;
    held.sessions = List::new(alloc);
    Response::Done
}
