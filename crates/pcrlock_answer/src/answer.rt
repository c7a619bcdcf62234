use crate::place::Place;
use hash_bank::{Bank, Digest};
use pl_base::Name;

/// What a command answers that didn't do its work. Each answer is one line on standard error, which
/// [`answer_line`](crate::answer_line) gives.
#[derive(Debug, Drop)]
pub enum Answer {
    /// None of the lists of a policy's row, whose mask of PCRs this is, is what these hold: of one PCR its value, of
    /// several the digest of their values.
    NotForeseen {
        pcrs: u32,
        now: Digest,
    },
    /// The PCR holds `now`, and the object opens only where it holds `sealed`.
    NotLiteral {
        pcr: u8,
        now: Digest,
        sealed: Digest,
    },
    /// The words are outside the set of command lines.
    BadWords,
    /// The file at `path` has no reading by its format, from `place` on.
    Malformed {
        path: Name,
        place: Place,
    },
    /// No file stands at this path.
    NoSuchFile(Name),
    /// What is counted under `kind` passes its limit with `number`.
    Limit {
        kind: Name,
        number: u64,
    },
    /// A counter of the TPM stands at its end: that of writes to NV indices, or else that of PCR updates.
    CounterEnd {
        writes: bool,
    },
    /// Reading a file or folder failed.
    ReadFault,
    /// Writing or removing a file, or writing to standard output, failed.
    WriteFault,
    /// Drawing random bytes failed.
    EntropyFault,
    /// The TPM failed.
    TpmFault,
    /// Memory ran out.
    Memory,
    /// No token file stands at this path.
    NoToken(Name),
    /// The TPM has no object of this handle.
    NoObject(u32),
    /// The object opens under another policy digest than that of the session.
    WrongBinding {
        session: Digest,
        object: Digest,
    },
    /// The TPM has no room for another session.
    SessionsFull,
    /// The TPM has no such bank of PCRs.
    BankAbsent(Bank),
    /// A record of the components has no digest of the asked bank: that at `place`, counted from 0, among
    /// the records of the component's variant.
    NoDigest {
        component: Name,
        variant: Name,
        place: u32,
    },
    /// No asked PCR can be protected.
    NothingProtected,
    /// No policy file stands at this path.
    NoPolicy(Name),
    /// The TPM has no index of this handle.
    NoIndex(u32),
    /// The index of this handle was never written.
    UnwrittenIndex(u32),
    /// An index of this handle, with this Name, is written under a policy of another pin.
    IndexTaken {
        handle: u32,
        name: Digest,
    },
    /// The index holds the root of none of the policy file's tables: that root, and the one of the newest table.
    Outdated {
        index: Digest,
        file: Digest,
    },
    /// The given pin has another policy than the index.
    PinRefused {
        given: Digest,
        index: Digest,
    },
    /// The firmware extended this PCR and no separator into it.
    NoSeparator(u8),
    /// The proof on this line of a proof file fails.
    NotProved(u32),
}
