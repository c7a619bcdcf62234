ghost use Rattle.std.specs.Prelude.{◌≡◌};
ghost use Rattle.predict_proof.specs.declared.error.ProofError.TheVariants.{Memory as OutOfMemory};

use hash_bank::Digest;
use pl_base::Memory;

/// Why a list isn't proved: the number of its first member that isn't, from 0 on, and what is wrong
/// with it.
#[derive(Clone, Copy, Debug, PartialEq, Eq)]
pub enum CheckError {
    /// The cut is none of the window's.
    Cut(u32),
    /// The choice is none of those of the components before the cut.
    Choice(u32),
    /// A record of the PCRs in the chosen variants lacks the bank.
    NoDigest(u32),
    /// A PCR's value isn't the one that the choice leads to.
    Differs {
        /// The number of the member.
        number: u32,
        /// The least such PCR.
        pcr: u8,
        /// The value that the choice leads to.
        reached: Digest,
    },
}

impl CheckError {
    ghost use Rattle.predict_proof.specs.Proved.{number_of};

    /// The number of the member that isn't proved.
    pub fn number(&self) -> u32
        ensures { result ≡ number_of self.now }
    {
        match self {
            CheckError::Cut(number) => *number,
            CheckError::Choice(number) => *number,
            CheckError::NoDigest(number) => *number,
            CheckError::Differs { number, .. } => *number,
        }
    }
}

/// Why a text is no proof file.
#[derive(Clone, Copy, Debug, PartialEq, Eq)]
pub enum ProofError {
    /// The line with this number, from 0 on, is the first that isn't as it has to be.
    BadLine(u32),
    /// There are more than 12,288 lines of proofs, and as many are good.
    TooMany,
    /// Memory ran out.
    Memory,
}

impl From<Memory> for ProofError {
    ghost from_gives = { λ _ error. error ≡ OutOfMemory };

    fn from(_memory: Memory) -> ProofError {
        ProofError::Memory
    }
}
