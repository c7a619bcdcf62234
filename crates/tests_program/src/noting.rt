//! A TPM that notes which commands it is asked.
ghost use Rattle.std.specs.Prelude.{Some};
ghost use Rattle.tpm_device.specs.Stored.{Holds};

use std::alloc::Global;
use tpm_device::{BeginError, ExecError, SoftTpm, Tpm};
use tpm_model::{Command, Response};

/// A TPM in memory, and the names of the commands that it was asked.
#[derive(Debug, Drop)]
pub(crate) struct NotingTpm {
    tpm: SoftTpm,
    noted: Vec<&'static str>,
}

/// The name of a command, as TPM 2.0 Library Part 3 has it.
fn name_of(command: &Command) -> &'static str {
    match command {
        Command::Restart { .. } => "Startup",
        Command::PcrExtend { .. } => "PCR_Extend",
        Command::PcrRead { .. } => "PCR_Read",
        Command::StartSession { .. } => "StartAuthSession",
        Command::PolicyPcr { .. } => "PolicyPCR",
        Command::PolicyOr { .. } => "PolicyOR",
        Command::PolicyAuthorizeNv { .. } => "PolicyAuthorizeNV",
        Command::PolicyGetDigest { .. } => "PolicyGetDigest",
        Command::FlushSession { .. } => "FlushContext",
        Command::NvDefine { .. } => "NV_DefineSpace",
        Command::NvUndefine { .. } => "NV_UndefineSpace",
        Command::NvWrite { .. } => "NV_Write",
        Command::NvRead { .. } => "NV_Read",
        Command::NvReadPublic { .. } => "NV_ReadPublic",
        Command::Seal { .. } => "Create",
        Command::Evict { .. } => "EvictControl",
        Command::Unseal { .. } => "Unseal",
    }
}

impl NotingTpm {
    /// A TPM that has noted nothing yet.
    pub(crate) fn new(alloc: Global, tpm: SoftTpm) -> NotingTpm {
        NotingTpm {
            tpm,
            noted: Vec::new(alloc),
        }
    }

    /// The names of the commands, in the order in which they were asked.
    pub(crate) fn noted(&self) -> &[&'static str] {
        self.noted.as_slice()
    }
}

impl Tpm for NotingTpm {
    ghost live = { λ a. Some a.tpm.state };

    ghost stored = { λ a. Some (Holds a.tpm.state) };

    ghost ready = { λ a. a.tpm.ready };

    ghost faults = { λ a. a.tpm.calls.faults };

    fn begin(&mut self, alloc: Global) -> Result<(), BeginError> {
        self.tpm.begin(alloc)
    }

    fn is_ready(&self) -> bool {
        self.tpm.is_ready()
    }

    fn execute(&mut self, alloc: Global, command: &Command) -> Result<Response, ExecError> {
        let _ready = self.tpm.is_ready(); // tells that the state has its rules
        if self.noted.push(name_of(command)).is_err() {
            return Err(ExecError::Memory);
        }
        self.tpm.execute(alloc, command)
    }
}
