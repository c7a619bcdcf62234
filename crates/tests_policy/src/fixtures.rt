//! What several tests of policies begin with: values, tables of PCR 11, and a TPM whose index holds a table's root.
use hash_bank::{Bank, Banks, Digest, hash, hash_all};
use nv_index::{NvPublic, index_name};
use or_tree::build;
use pl_base::{List, Small};
use policy_digest::{Row, Table, Values, pin_policy, policy_authorize_nv};
use policy_walk::{PrepareError, Prepared, prepare};
use std::alloc::Global;
use std::test::Fail;
use tpm_model::{Command, Response, State, step};

/// SHA-256 alone.
pub(crate) const SHA256_ALONE: Banks = Banks {
    sha1: false,
    sha256: true,
    sha384: false,
    sha512: false,
};

/// The index of a policy.
pub(crate) const INDEX: u32 = 0x0180_0100;

/// The object that is bound to the index.
pub(crate) const OBJECT: u32 = 0x8100_0000;

/// The pin of the index.
pub(crate) const PIN: [u8; 32] = [1; 32];

/// The key that is sealed.
pub(crate) const KEY: [u8; 2] = [0x00, 0xff];

/// PCR 11 in SHA-256 after one extend with the digest of `abc`, as a TPM 2.0 gives it.
pub(crate) const VALUE: &str = "589f9ffed4c477966bfb8d41f37895b08c69047df8f911d6f3b57fbe08faee8d";

/// The digest of these hexadecimal digits.
pub(crate) fn digest(digits: &str) -> Result<Digest, Fail> {
    match Digest::from_hex(Bank::Sha256, digits) {
        Ok(digest) => Ok(digest),
        Err(_) => Err("no digest")?,
    }
}

/// A value that PCR 11 doesn't hold.
pub(crate) fn other() -> Digest {
    hash(Bank::Sha256, b"other")
}

/// The table of one row of PCR 11 that allows these values.
pub(crate) fn table(alloc: Global, values: &[Digest]) -> Result<Table, Fail> {
    let mut choices = List::new(alloc);
    for value in values {
        choices.push(Values::from_vec(vec![in alloc; *value]?).ok_or("1 to 24 values")?)?;
    }
    of_row(alloc, 1 << 11, choices)
}

/// The table of one row.
pub(crate) fn of_row(alloc: Global, pcrs: u32, choices: List<Values>) -> Result<Table, Fail> {
    let mut rows = List::new(alloc);
    rows.push(Row { pcrs, choices })?;
    Ok(Table {
        bank: Bank::Sha256,
        rows,
    })
}

/// The root of a table.
pub(crate) fn root(alloc: Global, table: &Table) -> Result<Digest, Fail> {
    if !table.is_valid() {
        return Err("no valid table")?;
    }
    Ok(build(alloc, table)?.root())
}

/// The index's content for the root of a table.
pub(crate) fn content(alloc: Global, table: &Table) -> Result<Small, Fail> {
    let root = root(alloc, table)?;
    let bytes = [[0x00, 0x0b].as_slice(), root.as_slice()].concat(alloc)?;
    Ok(Small::from_slice(&bytes).ok_or("at most 128 bytes")?)
}

/// The walk by a table that the content is of.
pub(crate) fn prepared(alloc: Global, table: Table, content: &Small) -> Result<Prepared, Fail> {
    if !table.is_valid() {
        return Err("no valid table")?;
    }
    match prepare(alloc, &[table], INDEX, content) {
        Ok(prepared) => Ok(prepared),
        Err(PrepareError::Outdated { .. }) => Err("outdated")?,
        Err(PrepareError::Memory) => Err("memory")?,
    }
}

/// Whether a command was done.
pub(crate) fn is_done(alloc: Global, state: &mut State, command: &Command) -> bool {
    matches!(
        step(alloc, state, command),
        Ok(Response::Done | Response::Object(_) | Response::Session(_))
    )
}

/// The policy of objects that are bound to the index.
fn policy(alloc: Global, state: &mut State) -> Option<Digest> {
    match step(alloc, state, &Command::NvReadPublic { index: INDEX }) {
        Ok(Response::Public(written)) => Some(policy_authorize_nv(&index_name(&written))),
        _ => None,
    }
}

/// An extend of PCR 11 with the digest of `abc`.
pub(crate) fn extend() -> Command {
    Command::PcrExtend {
        pcr: 11,
        digests: hash_all(b"abc"),
    }
}

/// The definition of the index.
fn define() -> Command {
    Command::NvDefine {
        public: NvPublic {
            handle: INDEX,
            attributes: 0x0206_0008,
            policy: pin_policy(&PIN),
            size: 34,
        },
    }
}

/// The write of the index.
fn write(content: &Small) -> Command {
    Command::NvWrite {
        index: INDEX,
        pin: PIN,
        value: *content,
    }
}

/// A TPM whose PCR 11 was extended once, with an index that holds the content.
fn with_index(alloc: Global, content: &Small) -> Result<State, Fail> {
    let mut state = State::fresh(alloc, SHA256_ALONE);
    if is_done(alloc, &mut state, &extend())
        && is_done(alloc, &mut state, &define())
        && is_done(alloc, &mut state, &write(content))
    {
        Ok(state)
    } else {
        Err("no index")?
    }
}

/// Such a TPM, with the key sealed to the index.
pub(crate) fn machine(alloc: Global, content: &Small) -> Result<State, Fail> {
    let mut state = with_index(alloc, content)?;
    let policy = policy(alloc, &mut state).ok_or("no index")?;
    let secret = Small::from_slice(&KEY).ok_or("two bytes")?;
    if is_done(alloc, &mut state, &Command::Seal { policy, secret }) {
        Ok(state)
    } else {
        Err("no object")?
    }
}
