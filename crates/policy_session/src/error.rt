//! Why an object isn't opened.
use hash_bank::{Bank, Digest};

/// Why an object isn't opened. Its cause is named by the TPM (TPM 2.0 Library Part 3, the command
/// named), but for `NotForeseen` and `NotLiteral`, which a client tells by the session's digest.
#[derive(Clone, Copy, Debug)]
pub enum UnsealError {
    /// 64 sessions are open (TPM2_StartAuthSession).
    SessionsFull,
    /// All handles of sessions were used (TPM2_StartAuthSession).
    HandlesEnd,
    /// The bank isn't present (TPM2_PolicyPCR).
    BankAbsent(Bank),
    /// No list of the table allows the values of the mask's PCRs: the mask, and the PCR's value, or
    /// for several PCRs the digest of their values. It comes only for a key that is bound to an
    /// index.
    NotForeseen { pcrs: u32, now: Digest },
    /// The PCR has this value, and another one is asked for. It comes only for a key that is sealed
    /// to one value.
    NotLiteral { now: Digest },
    /// No object has this handle (TPM2_Unseal).
    NoObject(u32),
    /// The session's digest isn't the object's policy (TPM2_Unseal).
    WrongBinding { session: Digest, object: Digest },
    /// The outside refused, and the device's count of faults rose. The device isn't ready any more.
    Failed,
    /// Memory ran out, or the device refused a command in a way that no state of which a walk has
    /// come so far does; no device that tells its state does that.
    Memory,
}
