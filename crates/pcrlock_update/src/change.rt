//! Changes that commands on policies make.
use nv_index::NvPublic;
use pl_base::{List, Small};

/// A change of the TPM.
#[derive(Debug, Drop)]
pub enum TpmChange {
    /// The index under the handle is taken away (TPM 2.0 Library Part 3, TPM2_NV_UndefineSpace).
    Undefine(u32),
    /// An index is defined (TPM2_NV_DefineSpace).
    Define(NvPublic),
    /// An index is written under its pin (TPM2_NV_Write).
    Write {
        index: u32,
        pin: [u8; 32],
        value: Small,
    },
    /// An object is taken away, where it is there (TPM2_EvictControl).
    Evict(u32),
}

/// A change of the TPM, or of the policy file.
#[derive(Debug, Drop)]
pub enum Change {
    /// The TPM executes a command.
    Tpm(TpmChange),
    /// The policy file has these bytes.
    File(List<u8>),
}
