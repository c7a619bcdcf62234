//! What an index holds.
ghost use Rattle.std.specs.Prelude.{◌≡◌, Bool, true, false, Ok, Err, IfErr};
ghost use Rattle.pl_base.specs.Faults.{HasCause};
ghost use Rattle.tpm_model.specs.declared.parts.Parts.{Parts};
ghost use Rattle.tpm_model.specs.IndexCommands.{nv_read, nv_read_public};
ghost use Rattle.tpm_model.specs.Rules.{HasRules};
ghost use Rattle.policy_session.specs.Answers.{is_answer as answers, is_refusal};
ghost use Rattle.policy_session.specs.IndexReads.{IsRead, content_in as content_of, index_read, is_reading, is_told, public_in as public_of};
ghost use Rattle.policy_session.specs.Ran.{Gives, Ran};
ghost use Rattle.tpm_device.specs.Running.{IsLive};

use crate::UnsealError;
use crate::steps::ask;
use nv_index::NvPublic;
use pl_base::Small;
use std::alloc::Global;
use tpm_device::Tpm;
use tpm_model::{Command, Response};

/// Why an index isn't read.
#[derive(Clone, Copy, Debug, PartialEq, Eq)]
pub enum IndexError {
    /// No index has this handle (TPM 2.0 Library Part 3, TPM2_NV_ReadPublic).
    NoIndex,
    /// It was never written (TPM 2.0 Library Part 3, TPM2_NV_Read).
    Unwritten,
    /// The outside refused, and the device's count of faults rose. The device isn't ready any more.
    Failed,
    /// Memory ran out.
    Memory,
}

/// The public area in an answer.
fn public_in(response: &Response) -> Option<NvPublic>
    ensures { result ≡ public_of response.now }
{
    match response {
        Response::Public(public) => Some(*public),
        _ => None,
    }
}

/// The content in an answer.
fn content_in(response: &Response) -> Option<Small>
    ensures { result ≡ content_of response.now }
{
    match response {
        Response::Content(content) => Some(*content),
        _ => None,
    }
}

/// Reads the public area of an index, where it is there.
fn read_public<T: Tpm>(
    alloc: Global,
    tpm: &mut T,
    index: u32,
) -> Result<Option<NvPublic>, UnsealError>
    requires { T.ready tpm.old ≡ true }
    ensures cause { HasCause (T.faults tpm.old) (T.faults tpm.new) (result ≡ Err UnsealError.Failed) }
    ensures outside { IfErr result (λ error. is_refusal error ≡ false) }
    ensures readiness { answers result ≡ true → T.ready tpm.new ≡ true }
    ensures ran { (s : Parts) (keeps : Bool) → IsLive keeps s (T.live tpm.old) (T.stored tpm.old)
        → Ran s keeps (Gives (Ok (public_of (nv_read_public index s).0)) s) result (T.ready tpm.new) (T.live tpm.new) (T.stored tpm.new) }
    ensures rules { (s : Parts) → T.live tpm.old ≡ Some s → HasRules s }
{
    match ask(alloc, tpm, &Command::NvReadPublic { index }) {
        Ok(response) => Ok(public_in(&response)),
        Err(error) => Err(error),
    }
}

/// Reads the content of an index, where it was written.
fn read_content<T: Tpm>(
    alloc: Global,
    tpm: &mut T,
    index: u32,
) -> Result<Option<Small>, UnsealError>
    requires { T.ready tpm.old ≡ true }
    ensures cause { HasCause (T.faults tpm.old) (T.faults tpm.new) (result ≡ Err UnsealError.Failed) }
    ensures outside { IfErr result (λ error. is_refusal error ≡ false) }
    ensures readiness { answers result ≡ true → T.ready tpm.new ≡ true }
    ensures ran { (s : Parts) (keeps : Bool) → IsLive keeps s (T.live tpm.old) (T.stored tpm.old)
        → Ran s keeps (Gives (Ok (content_of (nv_read index s).0)) s) result (T.ready tpm.new) (T.live tpm.new) (T.stored tpm.new) }
{
    match ask(alloc, tpm, &Command::NvRead { index }) {
        Ok(response) => Ok(content_in(&response)),
        Err(error) => Err(error),
    }
}

/// A failure of the device, or want of memory.
fn failure(error: UnsealError) -> IndexError
    ensures cause { result ≡ IndexError.Failed → error ≡ UnsealError.Failed }
    ensures outside { is_told result ≡ false }
{
    match error {
        UnsealError::Failed => IndexError::Failed,
        _ => IndexError::Memory,
    }
}

/// Reads the public area and the content of an index (TPM 2.0 Library Part 3, TPM2_NV_ReadPublic and TPM2_NV_Read). The
/// state of the TPM stays as it is.
///
/// # Errors
///
/// `NoIndex` where no index has the handle, `Unwritten` where it was never written, a failure of the device, or want of
/// memory.
pub fn read_index<T: Tpm>(
    alloc: Global,
    tpm: &mut T,
    index: u32,
) -> Result<(NvPublic, Small), IndexError>
    requires { T.ready tpm.old ≡ true }
    ensures cause { HasCause (T.faults tpm.old) (T.faults tpm.new) (result ≡ Err IndexError.Failed) }
    ensures readiness { is_reading result ≡ true → T.ready tpm.new ≡ true }
    ensures ran { (s : Parts) (keeps : Bool) → IsLive keeps s (T.live tpm.old) (T.stored tpm.old)
        → IsRead s keeps (index_read index s) result (T.ready tpm.new) (T.live tpm.new) (T.stored tpm.new) }
    ensures rules { (s : Parts) → T.live tpm.old ≡ Some s → HasRules s }
{
    match read_public(alloc, tpm, index) {
        Ok(Some(public)) => match read_content(alloc, tpm, index) {
            Ok(Some(content)) => Ok((public, content)),
            Ok(None) => Err(IndexError::Unwritten),
            Err(error) => Err(failure(error)),
        },
        Ok(None) => Err(IndexError::NoIndex),
        Err(error) => Err(failure(error)),
    }
}
