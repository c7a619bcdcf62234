//! What these commands, and that which makes a policy, read from files.
ghost use Rattle.std.specs.Prelude.{◌≡◌, option_copied, Some, Err, IfOk};
ghost use Rattle.pl_base.specs.Faults.{HasCause};
ghost use Rattle.pl_base.specs.FileMap.{FileMap};
ghost use Rattle.pcrlock_input.specs.Answering.{Answers};
ghost use Rattle.pcrlock_input.specs.Logs.{AreRead};
ghost use Rattle.pcrlock_predict.specs.Inputs.{plain_inputs, inputs_of};

use component_tree::Tree;
use pcrlock_input::{InputError, Logs, read_components, read_logs};
use pl_base::{Files, Name};
use std::alloc::Global;

/// What was measured, and what a boot may measure.
#[derive(Debug, Drop)]
pub struct Inputs {
    /// Both logs of the boot.
    pub logs: Logs,
    /// The components.
    pub tree: Tree,
}

/// The logs at the paths that are named, or at the usual ones, and then the components in the folders.
/// The files stay as they are.
///
/// # Errors
///
/// Those of `read_logs` and then of `read_components` of `pcrlock_input`: the first answer for an input that can't be
/// read, a failure of the files, or want of memory.
pub fn read_inputs<F: Files>(
    alloc: Global,
    files: &mut F,
    firmware: Option<&Name>,
    user: Option<&Name>,
    folders: &[Name],
) -> Result<Inputs, InputError>
    ensures cause { HasCause (F.faults files.old) (F.faults files.new) (result ≡ Err InputError.Failed) }
    ensures told { (held : FileMap) → F.held files.old ≡ Some held
        → Answers plain_inputs result (inputs_of held (option_copied firmware.entry) (option_copied user.entry) folders.now) }
    ensures read { IfOk result (λ inputs. AreRead inputs.logs) }
    ensures same { F.held files.new ≡ F.held files.old }
{
    let logs = read_logs(alloc, files, firmware, user)?;
    let tree = read_components(alloc, files, folders)?;
    Ok(Inputs { logs, tree })
}
