//! The one place that goes by the kind of a request.
ghost use Rattle.std.specs.Prelude.{◌≡◌, ℕ, Some, Option, List as Sequence, IfOk, IfErr, IfSome};
ghost use Rattle.pcrlock_line.specs.Machine.{Machine, Tells};
ghost use Rattle.pcrlock_line.specs.Outcome.{Gives};
ghost use Rattle.pcrlock_line.specs.Stopped.{StandsAmong};
ghost use Rattle.pcrlock_line.specs.Causes.{HasCauses};
ghost use Rattle.std.specs.Option.{unwrap_or};
ghost use Rattle.pcrlock_words.specs.ProperRequest.{IsIndex, IsProperRequest, IsPcr};
ghost use Rattle.pcrlock_run.specs.Script.{command_line, enroll_outcome, line as line_outcome};
ghost use Rattle.pcrlock_run.specs.Leaves.{Safe};
ghost use Rattle.pcrlock_run.specs.Setting.{setting_of};

use crate::setting::Setting;
use hash_bank::Bank;
use pcrlock_broker::broker;
use pcrlock_exec::tpm_exec;
use pcrlock_line::{Reply, Stop};
use pcrlock_lock::{FirmwareKind, lock_firmware, lock_raw, unlock_firmware};
use pcrlock_open::unseal;
use pcrlock_policy::{Asked as Protected, Target, make_policy};
use pcrlock_predict::{log, predict};
use pcrlock_proofs::{Asked, check_proof, prove};
use pcrlock_read::{cel, list_components};
use pcrlock_seal::{enroll, enroll_bound};
use pcrlock_tpm::{tpm_boot, tpm_extend};
use pcrlock_update::remove_policy;
use pcrlock_words::{Answer, Request, WordsError, read_words};
use pl_base::{Entropy, Files, Name, Small};
use std::alloc::Global;
use tpm_device::Tpm;

/// Enrolls under the present value of a PCR, or else under the policy.
#[tactic(auto, unfolding(crate::specs::Script::enroll_outcome))]
fn enroll_key<F: Files, T: Tpm, E: Entropy>(
    alloc: Global,
    state: &Name,
    files: &mut F,
    tpm: &mut T,
    entropy: &mut E,
    token: &Name,
    policy: &Name,
    key: &Option<Small>,
    literal: Option<u8>,
    bank: Bank,
) -> Result<Reply, Stop>
    requires { IfSome literal IsPcr }
    ensures causes { HasCauses (F.faults files.old, E.faults entropy.old, T.faults tpm.old, 0) (F.faults files.new, E.faults entropy.new, T.faults tpm.new, 0) result }
    ensures told { (m : Machine) → Tells (F.held files.old) (T.stored tpm.old) (E.draws entropy.old) m
        → IfOk result (λ reply. Gives (F.held files.new) (T.stored tpm.new) (E.draws entropy.new) reply (enroll_outcome state.now token.now policy.now key.now literal bank m)) }
    ensures stops { (m : Machine) → Tells (F.held files.old) (T.stored tpm.old) (E.draws entropy.old) m
        → IfErr result (λ _. StandsAmong (F.held files.new) (T.stored tpm.new) (enroll_outcome state.now token.now policy.now key.now literal bank m).stops) }
{
    match literal {
        Some(pcr) => enroll(alloc, files, tpm, entropy, state, token, *key, pcr, bank),
        None => enroll_bound(alloc, files, tpm, entropy, state, token, policy, *key),
    }
}

/// The handle of the index for a new policy: the one that the words name, else the one for words that name none.
fn index_for(setting: &Setting<'_>, named: Option<u32>) -> u32
    requires { IfSome named IsIndex }
    ensures value { result ≡ unwrap_or named setting.now.index }
    ensures proper { IsIndex result }
{
    match named {
        Some(index) => index,
        None => setting.index,
    }
}

/// Runs the command of a request. A script is no command of a script.
#[tactic(auto, unfolding(crate::specs::Script::command_line))]
pub fn command<F: Files, T: Tpm, E: Entropy>(
    alloc: Global,
    setting: &Setting<'_>,
    request: &Request,
    files: &mut F,
    tpm: &mut T,
    entropy: &mut E,
) -> Result<Reply, Stop>
    requires { IsProperRequest request.now }
    ensures causes { HasCauses (F.faults files.old, E.faults entropy.old, T.faults tpm.old, 0) (F.faults files.new, E.faults entropy.new, T.faults tpm.new, 0) result }
    ensures told { (m : Machine) → Tells (F.held files.old) (T.stored tpm.old) (E.draws entropy.old) m
        → Safe (command_line (setting_of setting.now) request.now m).hashed
        → IfOk result (λ reply. Gives (F.held files.new) (T.stored tpm.new) (E.draws entropy.new) reply (command_line (setting_of setting.now) request.now m)) }
    ensures stops { (m : Machine) → Tells (F.held files.old) (T.stored tpm.old) (E.draws entropy.old) m
        → Safe (command_line (setting_of setting.now) request.now m).hashed
        → IfErr result (λ _. StandsAmong (F.held files.new) (T.stored tpm.new) (command_line (setting_of setting.now) request.now m).stops) }
{
    match request {
        Request::TpmExtend { pcr, bytes } => {
            tpm_extend(alloc, tpm, setting.state, *pcr, bytes.as_slice())
        }
        Request::Enroll {
            token,
            policy,
            key,
            literal,
            bank,
        } => enroll_key(
            alloc,
            setting.state,
            files,
            tpm,
            entropy,
            token,
            policy,
            key,
            *literal,
            *bank,
        ),
        Request::Unseal { token, policy } => {
            unseal(alloc, files, tpm, setting.state, token, policy)
        }
        Request::Cel {
            firmware_log,
            userspace_log,
        } => cel(alloc, files, firmware_log.as_ref(), userspace_log.as_ref()),
        Request::ListComponents { components } => list_components(
            alloc,
            files,
            components.as_slice(),
        ),
        Request::TpmBoot {
            firmware_log,
            userspace_log,
            locality,
            banks,
        } => tpm_boot(
            alloc,
            files,
            tpm,
            setting.state,
            firmware_log.as_ref(),
            userspace_log.as_ref(),
            *locality,
            *banks,
        ),
        Request::Log {
            firmware_log,
            userspace_log,
            components,
            bank,
        } => log(
            alloc,
            files,
            tpm,
            setting.state,
            firmware_log.as_ref(),
            userspace_log.as_ref(),
            components.as_slice(),
            *bank,
        ),
        Request::Predict {
            firmware_log,
            userspace_log,
            components,
            location,
            pcr,
            bank,
            joint,
        } => predict(
            alloc,
            files,
            tpm,
            setting.state,
            firmware_log.as_ref(),
            userspace_log.as_ref(),
            components.as_slice(),
            location,
            *pcr,
            *bank,
            *joint,
        ),
        Request::TpmExec { commands } => tpm_exec(alloc, files, tpm, setting.state, commands),
        Request::LockFirmwareCode {
            firmware_log,
            folder,
            variant,
        } => lock_firmware(
            alloc,
            files,
            FirmwareKind::Code,
            firmware_log.as_ref(),
            folder,
            variant,
        ),
        Request::LockFirmwareConfig {
            firmware_log,
            folder,
            variant,
        } => lock_firmware(
            alloc,
            files,
            FirmwareKind::Config,
            firmware_log.as_ref(),
            folder,
            variant,
        ),
        Request::UnlockFirmwareCode { folder, variant } => {
            unlock_firmware(alloc, files, FirmwareKind::Code, folder, variant)
        }
        Request::UnlockFirmwareConfig { folder, variant } => {
            unlock_firmware(alloc, files, FirmwareKind::Config, folder, variant)
        }
        Request::LockRaw { file, pcr, output } => lock_raw(alloc, files, file, *pcr, output),
        Request::Prove {
            output,
            components,
            location,
            pcr,
            bank,
            locality,
            joint,
        } => prove(
            alloc,
            files,
            output,
            components.as_slice(),
            location,
            Asked {
                pcrs: *pcr,
                bank: *bank,
                locality: *locality,
                joint: *joint,
            },
        ),
        Request::CheckProof {
            proof,
            components,
            location,
        } => check_proof(alloc, files, proof, components.as_slice(), location),
        Request::MakePolicy {
            firmware_log,
            userspace_log,
            components,
            location,
            pcr,
            bank,
            policy,
            index,
            pin,
            force,
            joint,
        } => {
            let protected = Protected {
                firmware: firmware_log.as_ref(),
                user: userspace_log.as_ref(),
                folders: components.as_slice(),
                location,
                pcrs: *pcr,
                bank: *bank,
                joint: *joint,
            };
            let target = Target {
                path: policy,
                index: index_for(setting, *index),
                pin: pin.as_ref(),
                force: *force,
            };
            make_policy(
                alloc,
                files,
                tpm,
                entropy,
                setting.state,
                &protected,
                &target,
            )
        }
        Request::RemovePolicy { policy } => remove_policy(alloc, files, tpm, setting.state, policy),
        Request::Broker { commands, clients } => {
            broker(alloc, files, tpm, setting.state, commands, *clients)
        }
        // No command of a script, and what can't be called yet.
        Request::Script { .. } | Request::Race { .. } | Request::Gen { .. } => {
            Ok(Reply::Refused(Answer::BadWords))
        }
    }
}

/// Runs a line of a script.
#[tactic(auto, unfolding(crate::specs::Script::line))]
pub fn line<F: Files, T: Tpm, E: Entropy>(
    alloc: Global,
    setting: &Setting<'_>,
    words: &[Name],
    files: &mut F,
    tpm: &mut T,
    entropy: &mut E,
) -> Result<Reply, Stop>
    ensures causes { HasCauses (F.faults files.old, E.faults entropy.old, T.faults tpm.old, 0) (F.faults files.new, E.faults entropy.new, T.faults tpm.new, 0) result }
    ensures told { (m : Machine) → Tells (F.held files.old) (T.stored tpm.old) (E.draws entropy.old) m
        → Safe (line_outcome (setting_of setting.now) words.now m).hashed
        → IfOk result (λ reply. Gives (F.held files.new) (T.stored tpm.new) (E.draws entropy.new) reply (line_outcome (setting_of setting.now) words.now m)) }
    ensures stops { (m : Machine) → Tells (F.held files.old) (T.stored tpm.old) (E.draws entropy.old) m
        → Safe (line_outcome (setting_of setting.now) words.now m).hashed
        → IfErr result (λ _. StandsAmong (F.held files.new) (T.stored tpm.new) (line_outcome (setting_of setting.now) words.now m).stops) }
{
    match read_words(alloc, words, setting.policy) {
        Ok(request) => command(alloc, setting, &request, files, tpm, entropy),
        Err(WordsError::BadWords) => Ok(Reply::Refused(Answer::BadWords)),
        Err(WordsError::Memory) => Err(Stop::Memory),
    }
}
