//! The top call.
ghost use Rattle.std.specs.Prelude.{◌≡◌, ◌≢◌, ◌⊎◌, ◌≤◌, [], ℕ, List as Sequence, Some, Option, None, IfOk, IfErr};
ghost use Rattle.std.specs.FinMap.{get};
ghost use Rattle.pl_base.specs.FileMap.{FileMap};
ghost use Rattle.hash_bank.specs.declared.banks.Banks.{Banks};
ghost use Rattle.tpm_model.specs.Events.{Clean};
ghost use Rattle.tpm_model.specs.Fresh.{fresh_parts};
ghost use Rattle.tpm_model.specs.Pcrs.{bank_count};
ghost use Rattle.tpm_device.specs.Stored.{Holds};
ghost use Rattle.tpm_worlds.specs.FreshWorld.{fresh_world};
ghost use Rattle.pl_base.specs.Faults.{Rose};
ghost use Rattle.pcrlock_line.specs.Machine.{Machine, Tells};
ghost use Rattle.pcrlock_line.specs.Causes.{HasCauses};
ghost use Rattle.pcrlock_run.specs.Status.{number_of, stop_number as number_of_stop, stop_answer};
ghost use Rattle.tpm_model.specs.World.{World, AreHashed};
ghost use Rattle.pcrlock_words.specs.Requests.{request_of};
ghost use Rattle.pcrlock_words.specs.ProperRequest.{IsProperRequest};
ghost use Rattle.pcrlock_line.specs.Stopped.{StandsAt, StandsAmong};
ghost use Rattle.pcrlock_line.specs.Worlds.{IsTied};
ghost use Rattle.pcrlock_run.specs.Script.{command_line};
ghost use Rattle.pcrlock_run.specs.Whole.{alone, script_in, run_script as script_run, run_request as request_run, run_spelled as spelled_run, run_line};
ghost use Rattle.pcrlock_run.specs.Says.{Says};
ghost use Rattle.pcrlock_run.specs.Leaves.{Safe, Leaves, IsNoScript};
ghost use Rattle.pcrlock_deeds.specs.Resumed.{StandsKept};
ghost use Rattle.pcrlock_run.specs.Stages.{run_stages};
ghost use Rattle.pcrlock_run.specs.Worlds.{lines_read, run_world};
ghost use Rattle.pcrlock_run.specs.Unseals.{UnsealsOpen};
ghost use Rattle.pcrlock_run.specs.Under.{IsKeptAt, IsOwnKeptAt, IsUnder};
ghost use Rattle.pcrlock_run.specs.EachRequest.{RunHas};
ghost use Rattle.pcrlock_run.specs.Foretelling.{CallIsForetold, MakesTheForetold, UnsealIsForetold};
ghost use Rattle.pcrlock_run.specs.Headline.{CallIsExact, CallOpensBound, UnsealIsExact, token_spelled};
ghost use Rattle.pcrlock_run.specs.Setting.{outside, setting_of};
ghost use Rattle.pcrlock_run.specs.ScriptText.{script_text};
ghost use Rattle.pcrlock_run.specs.Fronts.{CommandHalts, Halted, TellsStop};
ghost use Rattle.pcrlock_run.specs.Halts.{HasPrinted, LinesHalt, RequestHalts, RunHalts, SpelledHalts};

use crate::command::command;
use crate::file::read_script;
use crate::script::script;
use crate::scripted::script_of;
use crate::setting::{DEFAULT_INDEX, Setting};
use crate::show::{refuse, show_alone, tell};
use crate::status::{Status, stop_number};
use pcrlock_line::Stop;
use pcrlock_words::{Answer, Request, WordsError, read_words};
use pl_base::{Entropy, Files, Memory, Name, Sink};
use std::alloc::Global;
use tpm_device::Tpm;

/// Runs the command of a request that is no script.
fn run_alone<F: Files, T: Tpm, E: Entropy, O: Sink, R: Sink>(
    alloc: Global,
    setting: &Setting<'_>,
    request: &Request,
    files: &mut F,
    tpm: &mut T,
    entropy: &mut E,
    out: &mut O,
    err: &mut R,
) -> Result<Status, Stop>
    requires { IsProperRequest request.now }
    ensures causes { HasCauses (F.faults files.old, E.faults entropy.old, T.faults tpm.old, O.faults out.old) (F.faults files.new, E.faults entropy.new, T.faults tpm.new, O.faults out.new) result }
    ensures told { (m : Machine) → Tells (F.held files.old) (T.stored tpm.old) (E.draws entropy.old) m → Safe (alone (command_line (setting_of setting.now) request.now m)).hashed
        → IfOk result (λ status. Leaves (F.held files.new) (T.stored tpm.new) (E.draws entropy.new) (O.written out.old) (O.written out.new) (R.faults err.old) (R.written err.old) (R.faults err.new) (R.written err.new) (number_of status) (alone (command_line (setting_of setting.now) request.now m))) }
    ensures stops { (m : Machine) → Tells (F.held files.old) (T.stored tpm.old) (E.draws entropy.old) m → Safe (alone (command_line (setting_of setting.now) request.now m)).hashed
        → IfErr result (λ _. StandsAmong (F.held files.new) (T.stored tpm.new) (alone (command_line (setting_of setting.now) request.now m)).stops) }
    ensures halts { (m : Machine) → Tells (F.held files.old) (T.stored tpm.old) (E.draws entropy.old) m → Safe (alone (command_line (setting_of setting.now) request.now m)).hashed
        → IfErr result (λ _. Halted (CommandHalts (F.held files.new) (T.stored tpm.new) (O.faults out.old) (O.faults out.new) (command_line (setting_of setting.now) request.now m)) (O.written out.old) (O.written out.new) (R.faults err.old) (R.written err.old) (R.faults err.new) (R.written err.new)) }
    // After a fault of the output alone the command has done all its changes.
    ensures done { (m : Machine) → Tells (F.held files.old) (T.stored tpm.old) (E.draws entropy.old) m → Safe (alone (command_line (setting_of setting.now) request.now m)).hashed
        → IfErr result (λ stop. number_of_stop stop ≡ 5 → ¬ Rose (F.faults files.old) (F.faults files.new) → ¬ Rose (E.faults entropy.old) (E.faults entropy.new) → ¬ Rose (T.faults tpm.old) (T.faults tpm.new)
        → StandsAt (F.held files.new) (T.stored tpm.new) (alone (command_line (setting_of setting.now) request.now m)).after) }
{
    match command(alloc, setting, request, files, tpm, entropy) {
        Ok(reply) => show_alone(alloc, &reply, out, err),
        Err(stop) => Err(stop),
    }
}

/// Runs the script in a file.
fn run_script<F: Files, T: Tpm, E: Entropy, O: Sink, R: Sink>(
    alloc: Global,
    setting: &Setting<'_>,
    file: &Name,
    files: &mut F,
    tpm: &mut T,
    entropy: &mut E,
    out: &mut O,
    err: &mut R,
) -> Result<Status, Stop>
    ensures causes { HasCauses (F.faults files.old, E.faults entropy.old, T.faults tpm.old, O.faults out.old) (F.faults files.new, E.faults entropy.new, T.faults tpm.new, O.faults out.new) result }
    ensures told { (m : Machine) → Tells (F.held files.old) (T.stored tpm.old) (E.draws entropy.old) m → Safe (script_run (setting_of setting.now) file.now m).hashed
        → IfOk result (λ status. Leaves (F.held files.new) (T.stored tpm.new) (E.draws entropy.new) (O.written out.old) (O.written out.new) (R.faults err.old) (R.written err.old) (R.faults err.new) (R.written err.new) (number_of status) (script_run (setting_of setting.now) file.now m)) }
    ensures stops { (m : Machine) → Tells (F.held files.old) (T.stored tpm.old) (E.draws entropy.old) m → Safe (script_run (setting_of setting.now) file.now m).hashed
        → IfErr result (λ _. StandsAmong (F.held files.new) (T.stored tpm.new) (script_run (setting_of setting.now) file.now m).stops) }
    ensures halts { (m : Machine) → Tells (F.held files.old) (T.stored tpm.old) (E.draws entropy.old) m → Safe (script_run (setting_of setting.now) file.now m).hashed
        → IfErr result (λ _. Halted (LinesHalt (F.held files.new) (T.stored tpm.new) (O.faults out.old) (O.faults out.new) (setting_of setting.now) (lines_read (script_text m.files file.now)) m) (O.written out.old) (O.written out.new) (R.faults err.old) (R.written err.old) (R.faults err.new) (R.written err.new)) }
{
    match read_script(alloc, files, file) {
        Ok(Ok(text)) => script(alloc, setting, text.as_str(), files, tpm, entropy, out, err),
        Ok(Err(answer)) => refuse(alloc, &answer, err),
        Err(stop) => Err(stop),
    }
}

/// Runs a request.
fn run_request<F: Files, T: Tpm, E: Entropy, O: Sink, R: Sink>(
    alloc: Global,
    setting: &Setting<'_>,
    request: &Request,
    files: &mut F,
    tpm: &mut T,
    entropy: &mut E,
    out: &mut O,
    err: &mut R,
) -> Result<Status, Stop>
    requires { IsProperRequest request.now }
    ensures causes { HasCauses (F.faults files.old, E.faults entropy.old, T.faults tpm.old, O.faults out.old) (F.faults files.new, E.faults entropy.new, T.faults tpm.new, O.faults out.new) result }
    ensures told { (m : Machine) → Tells (F.held files.old) (T.stored tpm.old) (E.draws entropy.old) m → Safe (request_run (setting_of setting.now) request.now m).hashed
        → IfOk result (λ status. Leaves (F.held files.new) (T.stored tpm.new) (E.draws entropy.new) (O.written out.old) (O.written out.new) (R.faults err.old) (R.written err.old) (R.faults err.new) (R.written err.new) (number_of status) (request_run (setting_of setting.now) request.now m)) }
    ensures stops { (m : Machine) → Tells (F.held files.old) (T.stored tpm.old) (E.draws entropy.old) m → Safe (request_run (setting_of setting.now) request.now m).hashed
        → IfErr result (λ _. StandsAmong (F.held files.new) (T.stored tpm.new) (request_run (setting_of setting.now) request.now m).stops) }
    ensures halts { (m : Machine) → Tells (F.held files.old) (T.stored tpm.old) (E.draws entropy.old) m → Safe (request_run (setting_of setting.now) request.now m).hashed
        → IfErr result (λ _. Halted (RequestHalts (F.held files.new) (T.stored tpm.new) (O.faults out.old) (O.faults out.new) (setting_of setting.now) (script_in request.now) request.now m) (O.written out.old) (O.written out.new) (R.faults err.old) (R.written err.old) (R.faults err.new) (R.written err.new)) }
    ensures done { (m : Machine) → Tells (F.held files.old) (T.stored tpm.old) (E.draws entropy.old) m → Safe (request_run (setting_of setting.now) request.now m).hashed → IsNoScript (Some request.now)
        → IfErr result (λ stop. number_of_stop stop ≡ 5 → ¬ Rose (F.faults files.old) (F.faults files.new) → ¬ Rose (E.faults entropy.old) (E.faults entropy.new) → ¬ Rose (T.faults tpm.old) (T.faults tpm.new)
        → StandsAt (F.held files.new) (T.stored tpm.new) (request_run (setting_of setting.now) request.now m).after) }
{
    match script_of(request) {
        Some(scripted) => {
            let inside = Setting {
                state: setting.state,
                policy: Some(scripted.policy),
                index: scripted.index,
            };
            run_script(alloc, &inside, scripted.file, files, tpm, entropy, out, err)
        }
        None => run_alone(alloc, setting, request, files, tpm, entropy, out, err),
    }
}

/// Runs words behind the path of the TPM's state, which is the first of them.
fn run_spelled<F: Files, T: Tpm, E: Entropy, O: Sink, R: Sink>(
    alloc: Global,
    state: &Name,
    words: &[Name],
    files: &mut F,
    tpm: &mut T,
    entropy: &mut E,
    out: &mut O,
    err: &mut R,
) -> Result<Status, Stop>
    ensures causes { HasCauses (F.faults files.old, E.faults entropy.old, T.faults tpm.old, O.faults out.old) (F.faults files.new, E.faults entropy.new, T.faults tpm.new, O.faults out.new) result }
    ensures told { (m : Machine) → Tells (F.held files.old) (T.stored tpm.old) (E.draws entropy.old) m → Safe (spelled_run (outside state.now) (request_of words.now None) m).hashed
        → IfOk result (λ status. Leaves (F.held files.new) (T.stored tpm.new) (E.draws entropy.new) (O.written out.old) (O.written out.new) (R.faults err.old) (R.written err.old) (R.faults err.new) (R.written err.new) (number_of status) (spelled_run (outside state.now) (request_of words.now None) m)) }
    ensures stops { (m : Machine) → Tells (F.held files.old) (T.stored tpm.old) (E.draws entropy.old) m → Safe (spelled_run (outside state.now) (request_of words.now None) m).hashed
        → IfErr result (λ _. StandsAmong (F.held files.new) (T.stored tpm.new) (spelled_run (outside state.now) (request_of words.now None) m).stops) }
    ensures halts { (m : Machine) → Tells (F.held files.old) (T.stored tpm.old) (E.draws entropy.old) m → Safe (spelled_run (outside state.now) (request_of words.now None) m).hashed
        → IfErr result (λ _. Halted (SpelledHalts (F.held files.new) (T.stored tpm.new) (O.faults out.old) (O.faults out.new) (outside state.now) (request_of words.now None) m) (O.written out.old) (O.written out.new) (R.faults err.old) (R.written err.old) (R.faults err.new) (R.written err.new)) }
    ensures done { (m : Machine) → Tells (F.held files.old) (T.stored tpm.old) (E.draws entropy.old) m → Safe (spelled_run (outside state.now) (request_of words.now None) m).hashed → IsNoScript (request_of words.now None)
        → IfErr result (λ stop. number_of_stop stop ≡ 5 → ¬ Rose (F.faults files.old) (F.faults files.new) → ¬ Rose (E.faults entropy.old) (E.faults entropy.new) → ¬ Rose (T.faults tpm.old) (T.faults tpm.new)
        → StandsAt (F.held files.new) (T.stored tpm.new) (spelled_run (outside state.now) (request_of words.now None) m).after) }
{
    match read_words(alloc, words, None) {
        Ok(request) => {
            let outside = Setting {
                state,
                policy: None,
                index: DEFAULT_INDEX,
            };
            run_request(alloc, &outside, &request, files, tpm, entropy, out, err)
        }
        Err(WordsError::BadWords) => refuse(alloc, &Answer::BadWords, err),
        Err(WordsError::Memory) => Err(Stop::Memory),
    }
}

/// Runs words.
#[tactic(auto, unfolding(crate::specs::Whole::run_line))]
fn run_words<F: Files, T: Tpm, E: Entropy, O: Sink, R: Sink>(
    alloc: Global,
    words: &[Name],
    files: &mut F,
    tpm: &mut T,
    entropy: &mut E,
    out: &mut O,
    err: &mut R,
) -> Result<Status, Stop>
    ensures causes { HasCauses (F.faults files.old, E.faults entropy.old, T.faults tpm.old, O.faults out.old) (F.faults files.new, E.faults entropy.new, T.faults tpm.new, O.faults out.new) result }
    ensures told { (m : Machine) → Tells (F.held files.old) (T.stored tpm.old) (E.draws entropy.old) m → Safe (run_line words.now m).hashed
        → IfOk result (λ status. Leaves (F.held files.new) (T.stored tpm.new) (E.draws entropy.new) (O.written out.old) (O.written out.new) (R.faults err.old) (R.written err.old) (R.faults err.new) (R.written err.new) (number_of status) (run_line words.now m)) }
    ensures stops { (m : Machine) → Tells (F.held files.old) (T.stored tpm.old) (E.draws entropy.old) m → Safe (run_line words.now m).hashed
        → IfErr result (λ _. StandsAmong (F.held files.new) (T.stored tpm.new) (run_line words.now m).stops) }
    ensures halts { (m : Machine) → Tells (F.held files.old) (T.stored tpm.old) (E.draws entropy.old) m → Safe (run_line words.now m).hashed
        → IfErr result (λ _. Halted (RunHalts (F.held files.new) (T.stored tpm.new) (O.faults out.old) (O.faults out.new) words.now m) (O.written out.old) (O.written out.new) (R.faults err.old) (R.written err.old) (R.faults err.new) (R.written err.new)) }
    ensures done { (m : Machine) → Tells (F.held files.old) (T.stored tpm.old) (E.draws entropy.old) m → Safe (run_line words.now m).hashed → IsNoScript (request_of words.now None)
        → IfErr result (λ stop. number_of_stop stop ≡ 5 → ¬ Rose (F.faults files.old) (F.faults files.new) → ¬ Rose (E.faults entropy.old) (E.faults entropy.new) → ¬ Rose (T.faults tpm.old) (T.faults tpm.new)
        → StandsAt (F.held files.new) (T.stored tpm.new) (run_line words.now m).after) }
{
    match words.first() {
        Some(state) => run_spelled(alloc, state, words, files, tpm, entropy, out, err),
        None => refuse(alloc, &Answer::BadWords, err),
    }
}

/// The answer that tells a stop.
fn answer_of(stop: Stop) -> Answer
    ensures told { result ≡ stop_answer stop }
{
    match stop {
        Stop::ReadFault => Answer::ReadFault,
        Stop::WriteFault => Answer::WriteFault,
        Stop::EntropyFault => Answer::EntropyFault,
        Stop::TpmFault => Answer::TpmFault,
        Stop::Memory => Answer::Memory,
    }
}

/// Tells a stop, and gives its status, which is that of want of memory where there is none to tell it.
fn stopped<R: Sink>(alloc: Global, stop: Stop, err: &mut R) -> u8
    ensures status { (result ≡ number_of_stop stop) ⊎ (result ≡ 6) }
    ensures told { TellsStop stop result [] (R.faults err.old) (R.written err.old) (R.faults err.new) (R.written err.new) }
{
    match tell(alloc, err, &answer_of(stop)) {
        Ok(()) => stop_number(stop),
        Err(Memory) => 6,
    }
}

/// Runs the program with its words, the first of which is the path of the TPM's state and is passed
/// over, and gives the exit status of the process:
///
/// | Status | Meaning |
/// |---|---|
/// | 0 | the command did its work, or the last line of the script did |
/// | 1 | a PCR doesn't hold the value to which a key is bound |
/// | 2 | the words are outside the set of command lines |
/// | 3 | a file is missing or malformed |
/// | 4 | a limit is passed, or a counter of the TPM is at its end |
/// | 5 | the files, the TPM, the random words or standard output failed |
/// | 6 | memory ran out |
/// | 7 | any other answer |
///
/// A command writes its text on `out`, or one line on `err` where it didn't do its work. After each line
/// of a script its status follows on `out`, as `= 0`; a line of status 5 or 6 ends the script.
pub fn run<F: Files, T: Tpm, E: Entropy, O: Sink, R: Sink>(
    alloc: Global,
    words: &[Name],
    files: &mut F,
    tpm: &mut T,
    entropy: &mut E,
    out: &mut O,
    err: &mut R,
) -> u8
    ensures faults { result ≡ 5 → Rose (F.faults files.old) (F.faults files.new) ⊎ (Rose (E.faults entropy.old) (E.faults entropy.new) ⊎ (Rose (T.faults tpm.old) (T.faults tpm.new) ⊎ Rose (O.faults out.old) (O.faults out.new))) }
    // The bytes on both outputs (on `err` where its count of faults didn't rise), the status, the files,
    // the stored state and the random words left are those of the definition.
    ensures told { (m : Machine) → Tells (F.held files.old) (T.stored tpm.old) (E.draws entropy.old) m → Safe (run_line words.now m).hashed → result ≢ 5 → result ≢ 6
        → Leaves (F.held files.new) (T.stored tpm.new) (E.draws entropy.new) (O.written out.old) (O.written out.new) (R.faults err.old) (R.written err.old) (R.faults err.new) (R.written err.new) result (run_line words.now m) }
    // After a fault or want of memory files and stored state are those after some of the changes.
    ensures stops { (m : Machine) → Tells (F.held files.old) (T.stored tpm.old) (E.draws entropy.old) m → Safe (run_line words.now m).hashed → (result ≡ 5) ⊎ (result ≡ 6)
        → StandsAmong (F.held files.new) (T.stored tpm.new) (run_line words.now m).stops }
    // A stopped run has printed a front of what the whole run prints: of a script each line that was done, with its mark, and
    // of the line that stopped at most its text, once all changes of that line are done (where writing failed, a front of
    // text and mark). No line runs behind it. On `err` stand the answers of the lines that were done, and one line, which
    // tells a stop that has its cause, by whose status the run ends; where memory is short for it the status is 6.
    ensures printed { (m : Machine) → Tells (F.held files.old) (T.stored tpm.old) (E.draws entropy.old) m → Safe (run_line words.now m).hashed → (result ≡ 5) ⊎ (result ≡ 6)
        → HasPrinted (F.held files.new) (T.stored tpm.new) (F.faults files.old, E.faults entropy.old, T.faults tpm.old, O.faults out.old) (F.faults files.new, E.faults entropy.new, T.faults tpm.new, O.faults out.new) (O.written out.old) (O.written out.new) (R.faults err.old) (R.written err.old) (R.faults err.new) (R.written err.new) words.now m result }
    // All that is kept is kept by what they are then, in the world of one of the run's stages: with it the clauses
    // here hold of the next run, whatever sessions a walk left open as it was stopped.
    ensures stopped { (m : Machine) (w : World) (path : Sequence ℕ) → Tells (F.held files.old) (T.stored tpm.old) (E.draws entropy.old) m → IsUnder words.now path → IsOwnKeptAt path m w
        → Clean (run_world words.now m w) → Safe (run_world words.now m w).hashed → (result ≡ 5) ⊎ (result ≡ 6)
        → StandsKept path (F.held files.new) (T.stored tpm.new) (run_stages words.now m w) }
    // After a fault of the output alone a command other than a script has done all its changes.
    ensures done { (m : Machine) → Tells (F.held files.old) (T.stored tpm.old) (E.draws entropy.old) m → Safe (run_line words.now m).hashed → IsNoScript (request_of words.now None) → result ≡ 5
        → ¬ Rose (F.faults files.old) (F.faults files.new) → ¬ Rose (E.faults entropy.old) (E.faults entropy.new) → ¬ Rose (T.faults tpm.old) (T.faults tpm.new)
        → StandsAt (F.held files.new) (T.stored tpm.new) (run_line words.now m).after }
    // The strings that the definition hashes stand among those of the world after the run.
    ensures premise { (m : Machine) (w : World) → AreHashed (run_world words.now m w) (run_line words.now m).hashed }
    // A TPM that was never used, and no file at the path, are kept.
    ensures fresh { (path : Sequence ℕ) (banks : Banks) (held : FileMap) (draws : Sequence (Sequence ℕ)) → 1 ≤ bank_count banks → get held path ≡ None
        → IsKeptAt path (record { files = held; device = Holds (fresh_parts banks); draws = draws }) (fresh_world banks) }
    // What is kept where the policy file stands at the path in force is kept again: the banks and their values, the
    // indices with their newest tables, each object that was enrolled, and what the policy file states.
    ensures kept { (m : Machine) (w : World) (path : Sequence ℕ) → IsUnder words.now path → IsOwnKeptAt path m w → Clean (run_world words.now m w) → Safe (run_world words.now m w).hashed
        → IsOwnKeptAt path (run_line words.now m).after (run_world words.now m w) }
    // And so are what sessions saw and read.
    ensures trails { (m : Machine) (w : World) (path : Sequence ℕ) → IsUnder words.now path → IsKeptAt path m w → Clean (run_world words.now m w) → Safe (run_world words.now m w).hashed
        → IsKeptAt path (run_line words.now m).after (run_world words.now m w) }
    // Each `unseal` prints the key of an object of the world exactly where the PCR holds the value that the key was
    // sealed to; or, where it is bound to the policy's index, exactly where the newest table of the index is open: its
    // bank is present, and each of its rows lists what the row's PCRs hold.
    ensures headline { (m : Machine) (w : World) (path : Sequence ℕ) → IsUnder words.now path → IsOwnKeptAt path m w → Clean (run_world words.now m w) → Safe (run_world words.now m w).hashed
        → RunHas UnsealIsExact words.now m w }
    // Each Unseal among the TPM commands of a file, whoever sent them, gives the bytes of an object of the world
    // only by what it is bound to: while the PCR holds the value, or to a session that walked a table that the
    // program wrote into the index, and then read that very write, while the table is open.
    ensures unseals { (m : Machine) (w : World) (path : Sequence ℕ) → IsUnder words.now path → IsKeptAt path m w → Clean (run_world words.now m w) → Safe (run_world words.now m w).hashed
        → RunHas UnsealsOpen words.now m w }
    // A call of `unseal` gives 0 and prints the key exactly where the PCR holds the value that the key was
    // sealed to, and else prints nothing.
    ensures opens { (m : Machine) (w : World) → Tells (F.held files.old) (T.stored tpm.old) (E.draws entropy.old) m → IsTied m.device w → Safe (run_world words.now m w).hashed → result ≢ 5 → result ≢ 6
        → CallIsExact (token_spelled (request_of words.now None)) m w result (O.written out.old) (O.written out.new) }
    // And for an object that is bound to the policy's index, exactly where the newest table of the index is open.
    ensures unlocks { (m : Machine) (w : World) (path : Sequence ℕ) → Tells (F.held files.old) (T.stored tpm.old) (E.draws entropy.old) m → IsUnder words.now path → IsOwnKeptAt path m w
        → Safe (run_world words.now m w).hashed → result ≢ 5 → result ≢ 6
        → CallOpensBound (token_spelled (request_of words.now None)) m w result (O.written out.old) (O.written out.new) }
    // Each `make-policy` that comes to a good end has put in force the table of the forecast of what it read: of the
    // components, the window, the logs and the PCR values. A PCR that was asked for is protected exactly where its replay
    // is the value that it holds, each record is recognised and no component is missing.
    ensures makes { (m : Machine) (w : World) (path : Sequence ℕ) → IsUnder words.now path → IsOwnKeptAt path m w → Clean (run_world words.now m w) → Safe (run_world words.now m w).hashed
        → RunHas MakesTheForetold words.now m w }
    // And each `unseal` by a policy opens exactly where each protected PCR holds a value that some choice of variants, at
    // some cut of the window, measures; for PCRs that are taken together, where one choice at one cut measures them all.
    ensures foretold { (m : Machine) (w : World) (path : Sequence ℕ) → IsUnder words.now path → IsOwnKeptAt path m w → Clean (run_world words.now m w) → Safe (run_world words.now m w).hashed
        → RunHas UnsealIsForetold words.now m w }
    // So a call of `unseal` gives 0 and prints the key exactly there.
    ensures comes { (m : Machine) (w : World) (path : Sequence ℕ) → Tells (F.held files.old) (T.stored tpm.old) (E.draws entropy.old) m → IsUnder words.now path → IsOwnKeptAt path m w
        → Safe (run_world words.now m w).hashed → result ≢ 5 → result ≢ 6
        → CallIsForetold (token_spelled (request_of words.now None)) m w result (O.written out.old) (O.written out.new) }
    ensures bounded { result ≤ 7 }
{
    match run_words(alloc, words, files, tpm, entropy, out, err) {
        Ok(status) => status.number(),
        Err(stop) => stopped(alloc, stop, err),
    }
}
