//! Why a walk stops.
use hash_bank::{Bank, Digest};

/// Why a client's walk on a session stopped before the key. Its cause is named by the TPM (TPM 2.0 Library Part
/// 3, the command named), but for `NotForeseen`, which a client tells by the session's digest. Where another gives
/// commands on the session, `NotForeseen`, `NotNewest` and `WrongBinding` can come by that alone.
#[derive(Clone, Copy, Debug)]
pub enum Why {
    /// No list of the row allows the values of the mask's PCRs.
    NotForeseen(u32),
    /// A PCR was extended since the session looked at one: the counter noted then, and now (TPM2_PolicyPCR,
    /// TPM2_Unseal).
    PcrChanged { noted: u32, now: u32 },
    /// The bank isn't present (TPM2_PolicyPCR).
    BankAbsent(Bank),
    /// The session isn't there any more: another ended it, or the TPM was restarted; its handle.
    SessionGone(u32),
    /// Another used the session: its digest is none of the list (TPM2_PolicyOR), or its trail is full (each policy
    /// command).
    Interfered,
    /// The index's content isn't that of the session's digest: another table was put in force
    /// (TPM2_PolicyAuthorizeNV).
    NotNewest,
    /// The index isn't there (TPM2_PolicyAuthorizeNV).
    NoIndex,
    /// The index was never written (TPM2_PolicyAuthorizeNV).
    Unwritten,
    /// No object has this handle (TPM2_Unseal).
    NoObject(u32),
    /// The session's digest isn't the object's policy (TPM2_Unseal).
    WrongBinding { session: Digest, object: Digest },
}

/// Why no session could be started (TPM2_StartAuthSession).
#[derive(Clone, Copy, Debug, PartialEq, Eq)]
pub enum StartRefusal {
    /// 64 sessions are open.
    SessionsFull,
    /// All handles of sessions were used.
    HandlesEnd,
}
