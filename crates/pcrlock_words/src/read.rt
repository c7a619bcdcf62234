ghost use Rattle.std.specs.Prelude.{IfOk, option_copied};
ghost use Rattle.pcrlock_words.specs.Fields.{standing_policy};
ghost use Rattle.pcrlock_words.specs.ProperRequest.{IsProperRequest, SparesPolicy};
ghost use Rattle.pcrlock_words.specs.Readings.{Gives};
ghost use Rattle.pcrlock_words.specs.Requests.{command_request, line_request, options_request, request_of};

use crate::command::Command;
use crate::error::WordsError;
use crate::options::{Options, texts};
use crate::request::Request;
use crate::requests;
use pl_base::Name;
use std::alloc::Global;

/// Reads a list of words as a request.
///
/// Outside a script, where `script_policy` is `None`, the first word is the path of the state file, of
/// at least one byte. A command's name follows, and then the command's options, each at most once and
/// in any order, as `--name value` or `--name=value`. Inside a script the words begin with the
/// command's name, and `script_policy` is the path of the script's policy file, which then holds. The
/// flags `--joint`, `--force` and `--broker` have no value.
///
/// | Command | Options |
/// |---|---|
/// | `script` | `--file`, and at will `--policy`, `--index` |
/// | `log` | at will `--firmware-log`, `--userspace-log`, `--components`, `--bank` |
/// | `cel` | at will `--firmware-log`, `--userspace-log` |
/// | `list-components` | at will `--components` |
/// | `predict` | those of `log`, and at will `--location`, `--pcr`, `--joint` |
/// | `make-policy` | those of `predict`, and at will `--policy`, `--index`, `--pin`, `--force` |
/// | `remove-policy` | at will `--policy` |
/// | `enroll` | `--token`, and at will `--policy`, `--key`, `--literal`, with which `--bank` |
/// | `unseal` | `--token`, and at will `--policy` |
/// | `tpm-boot` | at will `--firmware-log`, `--userspace-log`, `--locality`, `--banks` |
/// | `tpm-extend` | `--pcr`, and one of `--text` and `--hex` |
/// | `tpm-exec` | `--commands` |
/// | `race` | `--events`, `--token`, `--clients`, and at will `--policy`, `--broker` |
/// | `gen` | `--number` |
/// | `lock-firmware-code`, `lock-firmware-config` | `--folder`, and at will `--firmware-log`, `--variant` |
/// | `unlock-firmware-code`, `unlock-firmware-config` | `--folder`, and at will `--variant` |
/// | `lock-raw` | `--file`, `--pcr`, `--output` |
/// | `broker` | `--commands`, `--clients` |
/// | `prove` | `--output`, and at will `--components`, `--location`, `--pcr`, `--bank`, `--locality`, `--joint` |
/// | `check-proof` | `--proof`, and at will `--components`, `--location` |
///
/// `BadWords` comes exactly where the words are none of these, a value is none of its option's, a token path, an
/// output or a file that a lock makes or an unlock takes out is the policy path in force, `race --broker` has more
/// than 15 clients, or a line of a script has the command `script` or the option `--policy` or `--index`. `Memory`
/// has no cause that is named.
///
/// What is read is proper: each number is within the bounds of its option, and no file that it makes is the policy
/// file.
pub fn read_words(
    alloc: Global,
    words: &[Name],
    script_policy: Option<&Name>,
) -> Result<Request, WordsError>
    ensures spelled { Gives result (request_of words.now (option_copied script_policy.entry)) }
    ensures proper { IfOk result IsProperRequest }
    ensures spares { IfOk result (SparesPolicy (standing_policy (option_copied script_policy.entry))) }
{
    read_request(alloc, words, script_policy)
}

// The request that words spell.
#[tactic(auto, unfolding(crate::specs::Requests::request_of))]
fn read_request(
    alloc: Global,
    words: &[Name],
    script_policy: Option<&Name>,
) -> Result<Request, WordsError>
    ensures { Gives result (request_of words.now (option_copied script_policy.entry)) }
{
    if script_policy.is_some() {
        return read_line(alloc, words, script_policy);
    }
    match words.split_first() {
        Some((state, words)) if !state.text().is_empty() => read_line(alloc, words, script_policy),
        _ => Err(WordsError::BadWords),
    }
}

// The request of a command's name and the words behind it.
fn read_line(
    alloc: Global,
    words: &[Name],
    script_policy: Option<&Name>,
) -> Result<Request, WordsError>
    ensures { Gives result (line_request (option_copied script_policy.entry) words.now) }
{
    let Some((name, words)) = words.split_first() else {
        return Err(WordsError::BadWords);
    };
    let Some(command) = Command::from_name(script_policy.is_some(), name.text()) else {
        return Err(WordsError::BadWords);
    };
    read_options(alloc, command, words, script_policy)
}

// The request of a command and the words behind its name.
fn read_options(
    alloc: Global,
    command: Command,
    words: &[Name],
    script_policy: Option<&Name>,
) -> Result<Request, WordsError>
    ensures { Gives result (options_request (option_copied script_policy.entry) command words.now) }
{
    let texts = texts(alloc, words)?;
    let options = Options::read(alloc, command, script_policy.is_some(), texts.as_slice())?;
    read_command(alloc, command, &options, script_policy)
}

// The request of a command with these options.
fn read_command(
    alloc: Global,
    command: Command,
    options: &Options<'_>,
    script_policy: Option<&Name>,
) -> Result<Request, WordsError>
    ensures { Gives result (command_request (option_copied script_policy.entry) command options.now) }
{
    match command {
        Command::Script => requests::script(alloc, options),
        Command::Log => requests::log(alloc, options),
        Command::Cel => requests::cel(alloc, options),
        Command::ListComponents => requests::list_components(alloc, options),
        Command::Predict => requests::predict(alloc, options),
        Command::MakePolicy => requests::make_policy(alloc, options, script_policy),
        Command::RemovePolicy => requests::remove_policy(alloc, options, script_policy),
        Command::Enroll => requests::enroll(alloc, options, script_policy),
        Command::Unseal => requests::unseal(alloc, options, script_policy),
        Command::TpmBoot => requests::tpm_boot(alloc, options),
        Command::TpmExtend => requests::tpm_extend(alloc, options),
        Command::TpmExec => requests::tpm_exec(alloc, options),
        Command::Race => requests::race(alloc, options, script_policy),
        Command::Gen => requests::generate(options),
        Command::LockFirmwareCode => requests::lock_firmware_code(alloc, options, script_policy),
        Command::LockFirmwareConfig => {
            requests::lock_firmware_config(alloc, options, script_policy)
        }
        Command::UnlockFirmwareCode => {
            requests::unlock_firmware_code(alloc, options, script_policy)
        }
        Command::UnlockFirmwareConfig => {
            requests::unlock_firmware_config(alloc, options, script_policy)
        }
        Command::LockRaw => requests::lock_raw(alloc, options, script_policy),
        Command::Broker => requests::broker(alloc, options),
        Command::Prove => requests::prove(alloc, options, script_policy),
        Command::CheckProof => requests::check_proof(alloc, options),
    }
}
