//! A script, line by line.
ghost use Rattle.std.specs.Prelude.{◌≡◌, ◌++◌, [], ◌∷◌, ℕ, Some, Option, List as Sequence, IfOk, IfErr};
ghost use Rattle.pcrlock_line.specs.Machine.{Machine, Tells};
ghost use Rattle.pcrlock_line.specs.Stopped.{StandsAmong};
ghost use Rattle.pcrlock_line.specs.Causes.{HasCauses};
ghost use Rattle.pcrlock_run.specs.Status.{number_of};
ghost use Rattle.pcrlock_run.specs.Lines.{lines_among, lines_of};
ghost use Rattle.pcrlock_run.specs.Script.{line as line_outcome, marked, script_from, script as whole_script};
ghost use Rattle.pcrlock_run.specs.Leaves.{Safe, Leaves};
ghost use Rattle.pcrlock_run.specs.Setting.{setting_of};
ghost use Rattle.pcrlock_run.specs.Fronts.{Halted, LineHalts};
ghost use Rattle.pcrlock_run.specs.Halts.{LinesHalt};

use crate::command::line;
use crate::next::{is_passed_over, next_line};
use crate::setting::Setting;
use crate::show::show_marked;
use crate::status::Status;
use pcrlock_line::Stop;
use pcrlock_words::split_line;
use pl_base::{Entropy, Files, Name, Sink};
use std::alloc::Global;
use tpm_device::Tpm;

/// Runs a line of these words, and writes what it says and its mark.
fn marked_line<F: Files, T: Tpm, E: Entropy, O: Sink, R: Sink>(
    alloc: Global,
    setting: &Setting<'_>,
    words: &[Name],
    files: &mut F,
    tpm: &mut T,
    entropy: &mut E,
    out: &mut O,
    err: &mut R,
) -> Result<Status, Stop>
    ensures causes { HasCauses (F.faults files.old, E.faults entropy.old, T.faults tpm.old, O.faults out.old) (F.faults files.new, E.faults entropy.new, T.faults tpm.new, O.faults out.new) result }
    ensures told { (m : Machine) → Tells (F.held files.old) (T.stored tpm.old) (E.draws entropy.old) m → Safe (marked m (line_outcome (setting_of setting.now) words.now m)).hashed
        → IfOk result (λ status. Leaves (F.held files.new) (T.stored tpm.new) (E.draws entropy.new) (O.written out.old) (O.written out.new) (R.faults err.old) (R.written err.old) (R.faults err.new) (R.written err.new) (number_of status) (marked m (line_outcome (setting_of setting.now) words.now m))) }
    ensures stops { (m : Machine) → Tells (F.held files.old) (T.stored tpm.old) (E.draws entropy.old) m → Safe (marked m (line_outcome (setting_of setting.now) words.now m)).hashed
        → IfErr result (λ _. StandsAmong (F.held files.new) (T.stored tpm.new) (marked m (line_outcome (setting_of setting.now) words.now m)).stops) }
    ensures halts { (m : Machine) → Tells (F.held files.old) (T.stored tpm.old) (E.draws entropy.old) m → Safe (marked m (line_outcome (setting_of setting.now) words.now m)).hashed
        → IfErr result (λ _. Halted (LineHalts (F.held files.new) (T.stored tpm.new) (O.faults out.old) (O.faults out.new) (line_outcome (setting_of setting.now) words.now m)) (O.written out.old) (O.written out.new) (R.faults err.old) (R.written err.old) (R.faults err.new) (R.written err.new)) }
{
    match line(alloc, setting, words, files, tpm, entropy) {
        Ok(reply) => show_marked(alloc, &reply, out, err),
        Err(stop) => Err(stop),
    }
}

/// Runs a line of a script behind one of this status, unless it is passed over.
fn step<F: Files, T: Tpm, E: Entropy, O: Sink, R: Sink>(
    alloc: Global,
    setting: &Setting<'_>,
    text: &str,
    status: Status,
    files: &mut F,
    tpm: &mut T,
    entropy: &mut E,
    out: &mut O,
    err: &mut R,
) -> Result<Status, Stop>
    ensures causes { HasCauses (F.faults files.old, E.faults entropy.old, T.faults tpm.old, O.faults out.old) (F.faults files.new, E.faults entropy.new, T.faults tpm.new, O.faults out.new) result }
    ensures told { (m : Machine) → Tells (F.held files.old) (T.stored tpm.old) (E.draws entropy.old) m → Safe (script_from (setting_of setting.now) (lines_among (text.now ∷ [])) (number_of status) m).hashed
        → IfOk result (λ next. Leaves (F.held files.new) (T.stored tpm.new) (E.draws entropy.new) (O.written out.old) (O.written out.new) (R.faults err.old) (R.written err.old) (R.faults err.new) (R.written err.new) (number_of next) (script_from (setting_of setting.now) (lines_among (text.now ∷ [])) (number_of status) m)) }
    ensures stops { (m : Machine) → Tells (F.held files.old) (T.stored tpm.old) (E.draws entropy.old) m → Safe (script_from (setting_of setting.now) (lines_among (text.now ∷ [])) (number_of status) m).hashed
        → IfErr result (λ _. StandsAmong (F.held files.new) (T.stored tpm.new) (script_from (setting_of setting.now) (lines_among (text.now ∷ [])) (number_of status) m).stops) }
    ensures halts { (m : Machine) → Tells (F.held files.old) (T.stored tpm.old) (E.draws entropy.old) m → Safe (script_from (setting_of setting.now) (lines_among (text.now ∷ [])) (number_of status) m).hashed
        → IfErr result (λ _. Halted (LinesHalt (F.held files.new) (T.stored tpm.new) (O.faults out.old) (O.faults out.new) (setting_of setting.now) (lines_among (text.now ∷ [])) m) (O.written out.old) (O.written out.new) (R.faults err.old) (R.written err.old) (R.faults err.new) (R.written err.new)) }
{
    let Ok(words) = split_line(alloc, text) else {
        return Err(Stop::Memory);
    };
    if is_passed_over(words.as_slice()) {
        return Ok(status);
    }
    marked_line(
        alloc,
        setting,
        words.as_slice(),
        files,
        tpm,
        entropy,
        out,
        err,
    )
}

/// Runs the lines of a script.
pub fn script<F: Files, T: Tpm, E: Entropy, O: Sink, R: Sink>(
    alloc: Global,
    setting: &Setting<'_>,
    text: &str,
    files: &mut F,
    tpm: &mut T,
    entropy: &mut E,
    out: &mut O,
    err: &mut R,
) -> Result<Status, Stop>
    ensures causes { HasCauses (F.faults files.old, E.faults entropy.old, T.faults tpm.old, O.faults out.old) (F.faults files.new, E.faults entropy.new, T.faults tpm.new, O.faults out.new) result }
    ensures told { (m : Machine) → Tells (F.held files.old) (T.stored tpm.old) (E.draws entropy.old) m → Safe (whole_script (setting_of setting.now) (lines_of text.now) m).hashed
        → IfOk result (λ status. Leaves (F.held files.new) (T.stored tpm.new) (E.draws entropy.new) (O.written out.old) (O.written out.new) (R.faults err.old) (R.written err.old) (R.faults err.new) (R.written err.new) (number_of status) (whole_script (setting_of setting.now) (lines_of text.now) m)) }
    ensures stops { (m : Machine) → Tells (F.held files.old) (T.stored tpm.old) (E.draws entropy.old) m → Safe (whole_script (setting_of setting.now) (lines_of text.now) m).hashed
        → IfErr result (λ _. StandsAmong (F.held files.new) (T.stored tpm.new) (whole_script (setting_of setting.now) (lines_of text.now) m).stops) }
    ensures halts { (m : Machine) → Tells (F.held files.old) (T.stored tpm.old) (E.draws entropy.old) m → Safe (whole_script (setting_of setting.now) (lines_of text.now) m).hashed
        → IfErr result (λ _. Halted (LinesHalt (F.held files.new) (T.stored tpm.new) (O.faults out.old) (O.faults out.new) (setting_of setting.now) (lines_of text.now) m) (O.written out.old) (O.written out.new) (R.faults err.old) (R.written err.old) (R.faults err.new) (R.written err.new)) }
{
    let mut rest = text;
    let mut status = Status::Fine;
    'lines: while !rest.is_empty() {
        let (first, behind) = next_line(rest);
        status = step(alloc, setting, first, status, files, tpm, entropy, out, err)?;
        rest = behind;
    }
    Ok(status)
}
