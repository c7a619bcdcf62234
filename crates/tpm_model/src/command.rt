//! The commands of the TPM.
use hash_bank::{Bank, Banks, Digest, Digests};
use nv_index::NvPublic;
use pl_base::Small;
use policy_digest::Group;

/// A command to the TPM (TPM 2.0 Library Part 3). Handles are 32-bit numbers: sessions from
/// 0x03000000, NV indices from 0x01000000 and sealed objects from 0x81000000 on.
#[derive(Clone, Copy, Debug)]
pub enum Command {
    /// A restart of the machine at a locality, with the given banks (TPM2_Startup).
    Restart {
        locality: u8,
        banks: Banks,
    },
    /// An extend of one PCR in each bank with a digest (TPM2_PCR_Extend).
    PcrExtend {
        pcr: u8,
        digests: Digests,
    },
    /// The value of one PCR (TPM2_PCR_Read).
    PcrRead {
        bank: Bank,
        pcr: u8,
    },
    /// A new policy session of a hash (TPM2_StartAuthSession).
    StartSession {
        hash: Bank,
    },
    /// Binds the session to the present values of the mask's PCRs (TPM2_PolicyPCR).
    PolicyPcr {
        session: u32,
        bank: Bank,
        pcrs: u32,
    },
    /// Goes on where the session's digest is one of the list (TPM2_PolicyOR).
    PolicyOr {
        session: u32,
        list: Group,
    },
    /// Goes on where the session's digest is the index's content (TPM2_PolicyAuthorizeNV).
    PolicyAuthorizeNv {
        session: u32,
        index: u32,
    },
    /// The session's digest (TPM2_PolicyGetDigest).
    PolicyGetDigest {
        session: u32,
    },
    /// Ends the session (TPM2_FlushContext).
    FlushSession {
        session: u32,
    },
    /// Defines an NV index (TPM2_NV_DefineSpace).
    NvDefine {
        public: NvPublic,
    },
    /// Takes an NV index away (TPM2_NV_UndefineSpace).
    NvUndefine {
        index: u32,
    },
    /// Writes an NV index under its pin (TPM2_NV_Write).
    NvWrite {
        index: u32,
        pin: [u8; 32],
        value: Small,
    },
    /// The content of an NV index (TPM2_NV_Read).
    NvRead {
        index: u32,
    },
    /// The public area of an NV index (TPM2_NV_ReadPublic).
    NvReadPublic {
        index: u32,
    },
    /// Seals a secret to a policy (TPM2_Create and TPM2_Load, made persistent).
    Seal {
        policy: Digest,
        secret: Small,
    },
    /// Takes a sealed object away (TPM2_EvictControl).
    Evict {
        handle: u32,
    },
    /// The secret of an object whose policy the session meets (TPM2_Unseal).
    Unseal {
        session: u32,
        handle: u32,
    },
}
