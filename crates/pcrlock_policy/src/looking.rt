//! What stands under the handle of an index.
ghost use Rattle.std.specs.Prelude.{◌≡◌, true, IfOk, IfErr};
ghost use Rattle.policy_session.specs.Kept.{Kept};
ghost use Rattle.tpm_model.specs.declared.parts.Parts.{Parts};
ghost use Rattle.pcrlock_line.specs.Causes.{HasCauses};
ghost use Rattle.pcrlock_line.specs.Running.{Runs};
ghost use Rattle.pcrlock_policy.specs.IndexState.{index_state};

use nv_index::NvPublic;
use pcrlock_line::Stop;
use pl_base::Small;
use policy_session::{IndexError, read_index};
use std::alloc::Global;
use tpm_device::Tpm;

/// What stands under the handle of an NV index.
#[derive(Debug, Drop)]
pub enum IndexState {
    /// No index.
    Missing,
    /// One that was defined and never written.
    Unwritten,
    /// One with this public area, which was last written with this content.
    Written { public: NvPublic, content: Small },
}

/// Looks up what stands under the handle, on the ready device (TPM 2.0 Library Part 3, TPM2_NV_ReadPublic and
/// TPM2_NV_Read). The state stays as it is, and the device goes on.
pub(crate) fn look_up<T: Tpm>(alloc: Global, tpm: &mut T, handle: u32) -> Result<IndexState, Stop>
    requires { T.ready tpm.old ≡ true }
    ensures causes { HasCauses (0, 0, T.faults tpm.old, 0) (0, 0, T.faults tpm.new, 0) result }
    ensures readiness { IfOk result (λ _. T.ready tpm.new ≡ true) }
    ensures told { (s : Parts) → Runs (T.live tpm.old) (T.stored tpm.old) s → IfOk result (λ found. found ≡ index_state handle s) }
    ensures runs { (s : Parts) → Runs (T.live tpm.old) (T.stored tpm.old) s → IfOk result (λ _. Runs (T.live tpm.new) (T.stored tpm.new) s) }
    ensures kept { (s : Parts) → Runs (T.live tpm.old) (T.stored tpm.old) s → IfErr result (λ _. Kept s (T.stored tpm.new)) }
{
    match read_index(alloc, tpm, handle) {
        Ok((public, content)) => Ok(IndexState::Written { public, content }),
        Err(IndexError::NoIndex) => Ok(IndexState::Missing),
        Err(IndexError::Unwritten) => Ok(IndexState::Unwritten),
        Err(IndexError::Failed) => Err(Stop::TpmFault),
        Err(IndexError::Memory) => Err(Stop::Memory),
    }
}
