//! The request of each command with its options.

ghost use Rattle.std.specs.Prelude.{option_copied};
ghost use Rattle.pcrlock_words.specs.Readings.{Gives};
ghost use Rattle.pcrlock_words.specs.Requests.{broker_request, cel_request, check_proof_request, enroll_request, gen_request, list_components_request, lock_firmware_code_request, lock_firmware_config_request, lock_raw_request, log_request, make_policy_request, predict_request, prove_request, race_request, remove_policy_request, script_request, tpm_boot_request, tpm_exec_request, tpm_extend_request, unlock_firmware_code_request, unlock_firmware_config_request, unseal_request};

use crate::error::WordsError;
use crate::fields;
use crate::options::Options;
use crate::request::Request;
use component_make::FirmwareKind;
use pl_base::Name;
use std::alloc::Global;

/// The request of `script` with these options.
pub(crate) fn script(alloc: Global, options: &Options<'_>) -> Result<Request, WordsError>
    ensures { Gives result (script_request options.now) }
{
    let file = fields::path(alloc, options, "file")?;
    let policy = fields::policy(alloc, options, None)?;
    let index = fields::index(options)?;
    Ok(Request::Script {
        file,
        policy,
        index,
    })
}

/// The request of `log` with these options.
pub(crate) fn log(alloc: Global, options: &Options<'_>) -> Result<Request, WordsError>
    ensures { Gives result (log_request options.now) }
{
    let firmware_log = fields::firmware_log(alloc, options)?;
    let userspace_log = fields::userspace_log(alloc, options)?;
    let components = fields::components(alloc, options)?;
    let bank = fields::bank(options)?;
    Ok(Request::Log {
        firmware_log,
        userspace_log,
        components,
        bank,
    })
}

/// The request of `cel` with these options.
pub(crate) fn cel(alloc: Global, options: &Options<'_>) -> Result<Request, WordsError>
    ensures { Gives result (cel_request options.now) }
{
    let firmware_log = fields::firmware_log(alloc, options)?;
    let userspace_log = fields::userspace_log(alloc, options)?;
    Ok(Request::Cel {
        firmware_log,
        userspace_log,
    })
}

/// The request of `list-components` with these options.
pub(crate) fn list_components(alloc: Global, options: &Options<'_>) -> Result<Request, WordsError>
    ensures { Gives result (list_components_request options.now) }
{
    let components = fields::components(alloc, options)?;
    Ok(Request::ListComponents { components })
}

/// The request of `predict` with these options.
pub(crate) fn predict(alloc: Global, options: &Options<'_>) -> Result<Request, WordsError>
    ensures { Gives result (predict_request options.now) }
{
    let firmware_log = fields::firmware_log(alloc, options)?;
    let userspace_log = fields::userspace_log(alloc, options)?;
    let components = fields::components(alloc, options)?;
    let location = fields::location(alloc, options)?;
    let pcr = fields::pcrs(options)?;
    let bank = fields::bank(options)?;
    let joint = options.has("joint");
    Ok(Request::Predict {
        firmware_log,
        userspace_log,
        components,
        location,
        pcr,
        bank,
        joint,
    })
}

/// The request of `make-policy` with these options.
pub(crate) fn make_policy(
    alloc: Global,
    options: &Options<'_>,
    script_policy: Option<&Name>,
) -> Result<Request, WordsError>
    ensures { Gives result (make_policy_request (option_copied script_policy.entry) options.now) }
{
    let firmware_log = fields::firmware_log(alloc, options)?;
    let userspace_log = fields::userspace_log(alloc, options)?;
    let components = fields::components(alloc, options)?;
    let location = fields::location(alloc, options)?;
    let pcr = fields::pcrs(options)?;
    let bank = fields::bank(options)?;
    let policy = fields::policy(alloc, options, script_policy)?;
    let index = fields::optional_index(options)?;
    let pin = fields::pin(options)?;
    let force = options.has("force");
    let joint = options.has("joint");
    Ok(Request::MakePolicy {
        firmware_log,
        userspace_log,
        components,
        location,
        pcr,
        bank,
        policy,
        index,
        pin,
        force,
        joint,
    })
}

/// The request of `remove-policy` with these options.
pub(crate) fn remove_policy(
    alloc: Global,
    options: &Options<'_>,
    script_policy: Option<&Name>,
) -> Result<Request, WordsError>
    ensures { Gives result (remove_policy_request (option_copied script_policy.entry) options.now) }
{
    let policy = fields::policy(alloc, options, script_policy)?;
    Ok(Request::RemovePolicy { policy })
}

/// The request of `enroll` with these options.
pub(crate) fn enroll(
    alloc: Global,
    options: &Options<'_>,
    script_policy: Option<&Name>,
) -> Result<Request, WordsError>
    ensures { Gives result (enroll_request (option_copied script_policy.entry) options.now) }
{
    let policy = fields::policy(alloc, options, script_policy)?;
    let token = fields::path_beside(alloc, options, "token", &policy)?;
    let key = fields::key(alloc, options)?;
    let literal = fields::literal(options)?;
    let bank = fields::literal_bank(options, literal)?;
    Ok(Request::Enroll {
        token,
        policy,
        key,
        literal,
        bank,
    })
}

/// The request of `unseal` with these options.
pub(crate) fn unseal(
    alloc: Global,
    options: &Options<'_>,
    script_policy: Option<&Name>,
) -> Result<Request, WordsError>
    ensures { Gives result (unseal_request (option_copied script_policy.entry) options.now) }
{
    let policy = fields::policy(alloc, options, script_policy)?;
    let token = fields::path_beside(alloc, options, "token", &policy)?;
    Ok(Request::Unseal { token, policy })
}

/// The request of `tpm-boot` with these options.
pub(crate) fn tpm_boot(alloc: Global, options: &Options<'_>) -> Result<Request, WordsError>
    ensures { Gives result (tpm_boot_request options.now) }
{
    let firmware_log = fields::firmware_log(alloc, options)?;
    let userspace_log = fields::userspace_log(alloc, options)?;
    let locality = fields::optional_locality(options)?;
    let banks = fields::banks(options)?;
    Ok(Request::TpmBoot {
        firmware_log,
        userspace_log,
        locality,
        banks,
    })
}

/// The request of `tpm-extend` with these options.
pub(crate) fn tpm_extend(alloc: Global, options: &Options<'_>) -> Result<Request, WordsError>
    ensures { Gives result (tpm_extend_request options.now) }
{
    let pcr = fields::pcr(options)?;
    let bytes = fields::extended(alloc, options.value("text"), options.value("hex"))?;
    Ok(Request::TpmExtend { pcr, bytes })
}

/// The request of `tpm-exec` with these options.
pub(crate) fn tpm_exec(alloc: Global, options: &Options<'_>) -> Result<Request, WordsError>
    ensures { Gives result (tpm_exec_request options.now) }
{
    let commands = fields::path(alloc, options, "commands")?;
    Ok(Request::TpmExec { commands })
}

/// The request of `race` with these options.
pub(crate) fn race(
    alloc: Global,
    options: &Options<'_>,
    script_policy: Option<&Name>,
) -> Result<Request, WordsError>
    ensures { Gives result (race_request (option_copied script_policy.entry) options.now) }
{
    let policy = fields::policy(alloc, options, script_policy)?;
    let token = fields::path_beside(alloc, options, "token", &policy)?;
    let events = fields::path(alloc, options, "events")?;
    let broker = options.has("broker");
    let clients = fields::clients(options, broker)?;
    Ok(Request::Race {
        events,
        token,
        clients,
        policy,
        broker,
    })
}

/// The request of `gen` with these options.
pub(crate) fn generate(options: &Options<'_>) -> Result<Request, WordsError>
    ensures { Gives result (gen_request options.now) }
{
    let number = fields::number(options)?;
    Ok(Request::Gen { number })
}

/// The request of `lock-firmware-code` with these options.
pub(crate) fn lock_firmware_code(
    alloc: Global,
    options: &Options<'_>,
    script_policy: Option<&Name>,
) -> Result<Request, WordsError>
    ensures { Gives result (lock_firmware_code_request (option_copied script_policy.entry) options.now) }
{
    let firmware_log = fields::firmware_log(alloc, options)?;
    let policy = fields::standing_policy(alloc, script_policy)?;
    let made = fields::made_beside(alloc, options, FirmwareKind::Code, &policy)?;
    Ok(Request::LockFirmwareCode {
        firmware_log,
        folder: made.folder,
        variant: made.variant,
    })
}

/// The request of `lock-firmware-config` with these options.
pub(crate) fn lock_firmware_config(
    alloc: Global,
    options: &Options<'_>,
    script_policy: Option<&Name>,
) -> Result<Request, WordsError>
    ensures { Gives result (lock_firmware_config_request (option_copied script_policy.entry) options.now) }
{
    let firmware_log = fields::firmware_log(alloc, options)?;
    let policy = fields::standing_policy(alloc, script_policy)?;
    let made = fields::made_beside(alloc, options, FirmwareKind::Config, &policy)?;
    Ok(Request::LockFirmwareConfig {
        firmware_log,
        folder: made.folder,
        variant: made.variant,
    })
}

/// The request of `unlock-firmware-code` with these options.
pub(crate) fn unlock_firmware_code(
    alloc: Global,
    options: &Options<'_>,
    script_policy: Option<&Name>,
) -> Result<Request, WordsError>
    ensures { Gives result (unlock_firmware_code_request (option_copied script_policy.entry) options.now) }
{
    let policy = fields::standing_policy(alloc, script_policy)?;
    let made = fields::made_beside(alloc, options, FirmwareKind::Code, &policy)?;
    Ok(Request::UnlockFirmwareCode {
        folder: made.folder,
        variant: made.variant,
    })
}

/// The request of `unlock-firmware-config` with these options.
pub(crate) fn unlock_firmware_config(
    alloc: Global,
    options: &Options<'_>,
    script_policy: Option<&Name>,
) -> Result<Request, WordsError>
    ensures { Gives result (unlock_firmware_config_request (option_copied script_policy.entry) options.now) }
{
    let policy = fields::standing_policy(alloc, script_policy)?;
    let made = fields::made_beside(alloc, options, FirmwareKind::Config, &policy)?;
    Ok(Request::UnlockFirmwareConfig {
        folder: made.folder,
        variant: made.variant,
    })
}

/// The request of `lock-raw` with these options.
pub(crate) fn lock_raw(
    alloc: Global,
    options: &Options<'_>,
    script_policy: Option<&Name>,
) -> Result<Request, WordsError>
    ensures { Gives result (lock_raw_request (option_copied script_policy.entry) options.now) }
{
    let file = fields::path(alloc, options, "file")?;
    let pcr = fields::pcr(options)?;
    let policy = fields::standing_policy(alloc, script_policy)?;
    let output = fields::path_beside(alloc, options, "output", &policy)?;
    Ok(Request::LockRaw { file, pcr, output })
}

/// The request of `broker` with these options.
pub(crate) fn broker(alloc: Global, options: &Options<'_>) -> Result<Request, WordsError>
    ensures { Gives result (broker_request options.now) }
{
    let commands = fields::path(alloc, options, "commands")?;
    let clients = fields::clients(options, false)?;
    Ok(Request::Broker { commands, clients })
}

/// The request of `prove` with these options.
pub(crate) fn prove(
    alloc: Global,
    options: &Options<'_>,
    script_policy: Option<&Name>,
) -> Result<Request, WordsError>
    ensures { Gives result (prove_request (option_copied script_policy.entry) options.now) }
{
    let policy = fields::standing_policy(alloc, script_policy)?;
    let output = fields::path_beside(alloc, options, "output", &policy)?;
    let components = fields::components(alloc, options)?;
    let location = fields::location(alloc, options)?;
    let pcr = fields::pcrs(options)?;
    let bank = fields::bank(options)?;
    let locality = fields::locality(options)?;
    let joint = options.has("joint");
    Ok(Request::Prove {
        output,
        components,
        location,
        pcr,
        bank,
        locality,
        joint,
    })
}

/// The request of `check-proof` with these options.
pub(crate) fn check_proof(alloc: Global, options: &Options<'_>) -> Result<Request, WordsError>
    ensures { Gives result (check_proof_request options.now) }
{
    let proof = fields::path(alloc, options, "proof")?;
    let components = fields::components(alloc, options)?;
    let location = fields::location(alloc, options)?;
    Ok(Request::CheckProof {
        proof,
        components,
        location,
    })
}
