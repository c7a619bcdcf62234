//! The largest table, put in force and opened by: 24 rows of 512 values. Beside it stands what `sha2` alone takes for as
//! many strings, and as long ones, as a table is hashed of.
ghost use Rattle.std.specs.Prelude.{◌≡◌, true};
ghost use Rattle.policy_digest.specs.Table.{valid_table};

use hash_bank::{Bank, Banks, hash, start};
use pcrlock_deeds::policy_at;
use pcrlock_line::Reply;
use pcrlock_open::{open_secret, unseal};
use pcrlock_update::{Given, make_new_policy, test_standing, update_policy};
use pl_base::{List, ListEntropy, MemFiles, Name};
use policy_digest::{Row, Table, Values, mask_of_pcr};
use policy_file::{Token, write_token};
use policy_session::read_index;
use sha2::{Digest, Sha256};
use std::alloc::Global;
use tpm_device::{SoftTpm, Tpm};
use tpm_model::State;

/// The names of the benchmarks.
pub const NAMES: [&str; 4] = [
    "policy-make",
    "policy-update",
    "policy-unseal",
    "policy-hashes",
];

/// How large a table is.
#[derive(Clone, Copy)]
pub struct Size {
    /// The rows, one for each PCR from 0 on, at most 24.
    rows: u8,
    /// The values of each, from 1 to 512.
    values: u32,
}

/// Two rows of nine values.
pub const SMALL: Size = Size { rows: 2, values: 9 };

/// As many rows, and as many values of each, as there may be.
pub const LARGE: Size = Size {
    rows: 24,
    values: 512,
};

const BANK: Bank = Bank::Sha256;

/// The banks of the TPM.
const BANKS: Banks = Banks {
    sha1: false,
    sha256: true,
    sha384: false,
    sha512: false,
};

const INDEX: u32 = 0x0180_0100;

const PIN: [u8; 32] = [1; 32];

/// The object that a TPM which was never used makes first: it holds the pin, bound to the index.
const OBJECT: u32 = 0x8100_0000;

/// The values of a PCR, of which the last is what it holds after a start.
fn row(alloc: Global, pcr: u8, values: u32) -> anyhow::Result<Row> {
    if pcr > 23 {
        anyhow::bail!("there are 24 PCRs");
    }
    let mut choices = List::new(alloc);
    for number in 1..=values {
        let mut list = Vec::new(alloc);
        if number == values {
            list.push(start(BANK, pcr, 0))?;
        } else {
            list.push(hash(BANK, &number.to_be_bytes()))?;
        }
        let Some(one) = Values::from_vec(list) else {
            anyhow::bail!("not one value");
        };
        choices.push(one)?;
    }
    Ok(Row {
        pcrs: mask_of_pcr(pcr),
        choices,
    })
}

/// A table of this size.
fn table(alloc: Global, size: Size) -> anyhow::Result<Table> {
    let mut rows = List::new(alloc);
    for pcr in 0..size.rows {
        rows.push(row(alloc, pcr, size.values)?)?;
    }
    Ok(Table { bank: BANK, rows })
}

/// A TPM that was never used.
fn fresh_tpm(alloc: Global) -> SoftTpm {
    SoftTpm::new(State::fresh(alloc, BANKS), List::new(alloc))
}

/// Puts the table in force where there is no index.
fn made(
    alloc: Global,
    files: &mut MemFiles,
    tpm: &mut SoftTpm,
    table: &Table,
) -> anyhow::Result<usize>
    requires { valid_table table.now ≡ true }
{
    let path = Name::from_text(alloc, "policy")?;
    let mut entropy = ListEntropy::new(List::new(alloc), List::new(alloc));
    if tpm.begin(alloc).is_err() || !tpm.is_ready() {
        anyhow::bail!("not ready");
    }
    let given = Given {
        path: &path,
        index: INDEX,
        table,
    };
    let reply = make_new_policy(
        alloc,
        files,
        tpm,
        &mut entropy,
        &given,
        None,
        false,
        Some(&PIN),
        Vec::new(alloc),
    );
    match reply {
        Ok(Reply::Fine(text)) => Ok(text.len()),
        _ => anyhow::bail!("not made"),
    }
}

/// Puts the table in force so many times, each time on a TPM that was never used.
fn make(alloc: Global, table: &Table, rounds: u32) -> anyhow::Result<usize>
    requires { valid_table table.now ≡ true }
{
    let mut count = 0;
    for _ in 0..rounds {
        let mut files = MemFiles::new(alloc, List::new(alloc));
        let mut tpm = fresh_tpm(alloc);
        count = made(alloc, &mut files, &mut tpm, table)?;
    }
    Ok(count)
}

/// What `make-policy --force` does behind its prediction where the table stands and no pin is given: the index is
/// tested, the pin is unsealed by the table that stands, and the table is put in force again.
fn update_once(
    alloc: Global,
    files: &mut MemFiles,
    tpm: &mut SoftTpm,
    table: &Table,
) -> anyhow::Result<usize>
    requires { valid_table table.now ≡ true }
{
    let path = Name::from_text(alloc, "policy")?;
    let Ok(Ok(Some(policy))) = policy_at(alloc, files, &path) else {
        anyhow::bail!("no policy");
    };
    if tpm.begin(alloc).is_err() || !tpm.is_ready() {
        anyhow::bail!("not ready");
    }
    let Ok((public, held)) = read_index(alloc, tpm, INDEX) else {
        anyhow::bail!("no index");
    };
    match test_standing(alloc, Some(&policy), None, true, &public, &held, table) {
        Ok(Ok(false)) => {}
        _ => anyhow::bail!("not to be changed"),
    }
    if !tpm.is_ready() {
        anyhow::bail!("not ready");
    }
    match open_secret(alloc, tpm, &policy, OBJECT) {
        Ok(Ok(_)) => {}
        _ => anyhow::bail!("no pin"),
    }
    if !tpm.is_ready() {
        anyhow::bail!("not ready");
    }
    let text = Vec::new(alloc);
    match update_policy(alloc, files, tpm, &path, &policy, &PIN, &held, table, text) {
        Ok(Reply::Fine(text)) => Ok(text.len()),
        _ => anyhow::bail!("not updated"),
    }
}

/// Puts the table in force once, and again so many times.
fn update(alloc: Global, table: &Table, rounds: u32) -> anyhow::Result<usize>
    requires { valid_table table.now ≡ true }
{
    let mut files = MemFiles::new(alloc, List::new(alloc));
    let mut tpm = fresh_tpm(alloc);
    let mut count = made(alloc, &mut files, &mut tpm, table)?;
    for _ in 0..rounds {
        count = update_once(alloc, &mut files, &mut tpm, table)?;
    }
    Ok(count)
}

/// Puts the table in force, and runs `unseal` so many times, each time from the files on.
fn open(alloc: Global, table: &Table, rounds: u32) -> anyhow::Result<usize>
    requires { valid_table table.now ≡ true }
{
    let mut files = MemFiles::new(alloc, List::new(alloc));
    let mut tpm = fresh_tpm(alloc);
    let mut count = made(alloc, &mut files, &mut tpm, table)?;
    let bytes = write_token(alloc, &Token::Bound { object: OBJECT })?;
    files.put("token", bytes.as_slice())?;
    let state = Name::from_text(alloc, "state")?;
    let token = Name::from_text(alloc, "token")?;
    let policy = Name::from_text(alloc, "policy")?;
    for _ in 0..rounds {
        count = match unseal(alloc, &mut files, &mut tpm, &state, &token, &policy) {
            Ok(Reply::Fine(text)) => text.len(),
            _ => anyhow::bail!("no key"),
        };
    }
    Ok(count)
}

/// The strings of so many groups of a level of so many digests that one PolicyOR joins: 36 bytes and the group's digests.
fn join(level: u32) -> usize {
    let string = [7u8; 292];
    let mut sum: usize = 0;
    for _ in 0..level / 8 {
        sum = sum.wrapping_add(Sha256::digest(&string[..])[0] as usize);
    }
    sum
}

/// Hashes as many strings as a table of this size has, and as long ones: for each value the value itself and the 78
/// bytes of PolicyPCR, and the PolicyORs above them.
fn hashes(size: Size, rounds: u32) -> usize {
    let string = [7u8; 128];
    let mut sum: usize = 0;
    for _ in 0..rounds {
        sum = 0;
        for _ in 0..size.rows {
            for _ in 0..size.values {
                sum = sum.wrapping_add(Sha256::digest(&string[..32])[0] as usize);
                sum = sum.wrapping_add(Sha256::digest(&string[..78])[0] as usize);
            }
            for level in [size.values, size.values / 8, size.values / 64] {
                sum = sum.wrapping_add(join(level));
            }
        }
    }
    sum
}

/// Runs the benchmark of this name with a table of this size for so many rounds, and answers how long the text is that
/// a round printed, or what the hashes sum to.
pub fn run(alloc: Global, name: &str, size: Size, rounds: u32) -> anyhow::Result<usize> {
    if name == "policy-hashes" {
        return Ok(hashes(size, rounds));
    }
    let table = table(alloc, size)?;
    if !table.is_valid() {
        anyhow::bail!("no valid table");
    }
    match name {
        "policy-make" => make(alloc, &table, rounds),
        "policy-update" => update(alloc, &table, rounds),
        _ => open(alloc, &table, rounds),
    }
}
