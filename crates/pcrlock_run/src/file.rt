//! The file of a script.
ghost use Rattle.std.specs.Prelude.{◌≡◌, Some, IfOk};
ghost use Rattle.std.specs.String.{string_bytes};
ghost use Rattle.pl_base.specs.FileMap.{FileMap};
ghost use Rattle.pcrlock_line.specs.Causes.{HasCauses};
ghost use Rattle.pcrlock_run.specs.ScriptText.{few_lines as few_lines_of, script_text, text_from as text_of_bytes, text_read};

use crate::next::line_count;
use pcrlock_answer::{Answer, Place, limit, malformed, no_such_file};
use pcrlock_line::{Found, Stop, read_file};
use pl_base::{Files, Memory, Name};
use std::alloc::Global;

/// The most bytes of a script.
const SCRIPT_BYTES: u64 = 4_194_304;

/// The most lines of a script.
const SCRIPT_LINES: usize = 65_536;

/// One line more than a script may have.
const LINES_PAST: u64 = 65_537;

/// The text, unless it has too many lines.
fn few_lines(alloc: Global, text: String) -> Result<Result<String, Answer>, Memory>
    ensures { IfOk result (λ read. text_read read ≡ few_lines_of (string_bytes text)) }
{
    if line_count(text.as_bytes()) > SCRIPT_LINES {
        return Ok(Err(limit(alloc, "lines", LINES_PAST)?));
    }
    Ok(Ok(text))
}

/// The text of the file's bytes, unless they are no UTF-8 or too many lines.
fn text_from(alloc: Global, file: &Name, bytes: Vec<u8>) -> Result<Result<String, Answer>, Memory>
    ensures { IfOk result (λ read. text_read read ≡ text_of_bytes file.now bytes.items) }
{
    match String::from_utf8(bytes) {
        Ok(text) => few_lines(alloc, text),
        Err(error) => {
            let place = Place::At(error.utf8_error().valid_up_to() as u64);
            Ok(Err(malformed(alloc, file.text(), place)?))
        }
    }
}

/// The text of the script in the file, or the answer for which there is none: `NoSuchFile`; `Limit`,
/// `script-bytes`, with its length above 4,194,304; `Malformed` at the first byte that is no UTF-8; or
/// `Limit`, `lines`. The files stay as they are.
#[tactic(auto, unfolding(crate::specs::ScriptText::script_text))]
pub fn read_script<F: Files>(
    alloc: Global,
    files: &mut F,
    file: &Name,
) -> Result<Result<String, Answer>, Stop>
    ensures causes { HasCauses (F.faults files.old, 0, 0, 0) (F.faults files.new, 0, 0, 0) result }
    ensures told { (held : FileMap) → F.held files.old ≡ Some held → IfOk result (λ read. text_read read ≡ script_text held file.now) }
    ensures same { F.held files.new ≡ F.held files.old }
{
    match read_file(alloc, files, file.text(), SCRIPT_BYTES) {
        Ok(Found::Missing) => Ok(Err(no_such_file(alloc, file.text())?)),
        Ok(Found::TooLarge(size)) => Ok(Err(limit(alloc, "script-bytes", size)?)),
        Ok(Found::Bytes(bytes)) => Ok(text_from(alloc, file, bytes)?),
        Err(stop) => Err(stop),
    }
}
