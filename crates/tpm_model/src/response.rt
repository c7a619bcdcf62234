//! The answers of the TPM.
use hash_bank::{Bank, Digest};
use nv_index::NvPublic;
use pl_base::Small;

/// What the TPM answers to a command.
#[derive(Clone, Copy, Debug)]
pub enum Response {
    /// Done, with nothing to tell.
    Done,
    /// The value of a PCR.
    Pcr(Digest),
    /// The handle of the new session.
    Session(u32),
    /// The digest of a session.
    PolicyDigest(Digest),
    /// The content of an NV index.
    Content(Small),
    /// The public area of an NV index.
    Public(NvPublic),
    /// The handle of the new object.
    Object(u32),
    /// The secret of an object.
    Secret(Small),
    /// The command was refused, and nothing changed.
    Refused(Refusal),
}

/// A counter that ends at 4,294,967,295.
#[derive(Clone, Copy, Debug, PartialEq, Eq)]
pub enum Counter {
    /// The PCR update counter: one for each extend since the restart.
    Update,
    /// The write counter: one for each write of an NV index since the TPM was made.
    Writes,
}

/// Why the TPM refused a command.
#[derive(Clone, Copy, Debug)]
pub enum Refusal {
    /// A field has no allowed value.
    Value,
    /// The session's digest isn't the object's policy.
    PolicyFail { session: Digest, object: Digest },
    /// A PCR was extended since the session looked at one: the counter noted then, and now.
    PcrChanged { noted: u32, now: u32 },
    /// Nothing has this handle.
    Handle(u32),
    /// 64 sessions are open.
    SessionsFull,
    /// The session's trail has 128 entries.
    TrailFull,
    /// The counter stands at its end.
    CounterEnd(Counter),
    /// The bank isn't present.
    BankAbsent(Bank),
    /// 64 objects are there.
    ObjectsFull,
    /// All handles of the kind were used.
    HandlesEnd,
    /// The secret has no byte.
    SealSize,
    /// The attributes aren't those allowed at a definition.
    Attributes,
    /// The size isn't that of a content.
    Size,
    /// The index is there already.
    Defined,
    /// 16 indices are there.
    TableFull,
    /// No index has the handle.
    NotDefined,
    /// The pin's policy isn't the index's.
    PinRefused { given: Digest, index: Digest },
    /// The index was never written.
    Uninitialized,
}
