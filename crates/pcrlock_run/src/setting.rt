//! What is in force where a command runs.
ghost use Rattle.pcrlock_words.specs.ProperRequest.{IsIndex};

use pl_base::Name;

/// The NV index for a command whose words name none, outside a script.
pub const DEFAULT_INDEX: u32 = 0x0180_0100;

/// What is in force where a command runs.
#[derive(Drop)]
pub struct Setting<'a> {
    /// The path of the TPM's state.
    pub state: &'a Name,
    /// The policy path of the script whose line runs. Outside a script the words give the path.
    pub policy: Option<&'a Name>,
    /// The handle of the NV index for a command whose words name none.
    pub index: u32,
    ghost proper: { IsIndex index },
}

/// The script that a request runs.
#[derive(Drop)]
pub struct Script<'a> {
    /// The path of its text.
    pub file: &'a Name,
    /// The policy path for its lines.
    pub policy: &'a Name,
    /// The handle of the NV index for its lines.
    pub index: u32,
}
