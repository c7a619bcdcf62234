//! A state beside its text, so that a command encodes one state alone.
ghost use Rattle.std.specs.Prelude.{◌≡◌, ◌↔◌, ◌≤◌, true, Some, Ok, IfOk, length};
ghost use Rattle.tpm_model.specs.declared.parts.Parts.{Parts};
ghost use Rattle.tpm_model.specs.Fits.{fits};
ghost use Rattle.tpm_model.specs.Respond.{respond};
ghost use Rattle.tpm_model.specs.Rules.{HasRules};
ghost use Rattle.tpm_device.specs.Stored.{Holds};
ghost use Rattle.tpm_state.specs.declared.version.Version.TheVariants.{One, Two};
ghost use Rattle.tpm_state.specs.Decoding.{state_of};
ghost use Rattle.tpm_state.specs.Layout.{text_of};
ghost use Rattle.tpm_state.specs.Looking.{looks_only};
ghost use Rattle.tpm_state.specs.Spelling.{IsSpelled};
ghost use Rattle.tpm_state.specs.Storing.{most_bytes, stored_by};

use crate::encode;
use pl_base::Memory;
use std::alloc::Global;
use std::marker::Model;
use std::mem;
use tpm_model::{Command, Response, State, step};

/// A state, and its text in version 2 of the layout. Contracts see the state's parts. The state has some 7,000 bytes,
/// so it stands behind a pointer and isn't moved.
#[derive(Debug, Drop)]
pub(crate) struct Kept {
    state: Box<State>,
    text: Vec<u8>,
}

impl Model for Kept {
    ghost use Rattle.std.specs.Prelude.{◌≡◌};
    ghost use Rattle.tpm_model.specs.declared.parts.Parts.{Parts};
    ghost use Rattle.tpm_model.specs.Rules.{HasRules};
    ghost use Rattle.tpm_state.specs.declared.version.Version.TheVariants.{Two};
    ghost use Rattle.tpm_state.specs.Layout.{text_of};
    ghost use Rattle.tpm_state.specs.Storing.{stored_by};
    ghost use Rattle.tpm_device.specs.Stored.{Holds};
    ghost use Rattle.std.specs.Prelude.{Some};

    ghost Value = { Parts };

    ghost view = { λ kept. kept.state.value };

    ghost invariant = { λ kept. (kept.text.items ≡ text_of Two kept.state.value) × (stored_by (Some kept.text.items) ≡ Holds kept.state.value) × HasRules kept.state.value };
}

// Whether a state file's bytes are of version 2 of the layout, by the last byte of the magic.
fn is_of_version_two(bytes: &[u8]) -> bool
    ensures { result ≡ true → (s : Parts) → ¬ (bytes.now ≡ text_of One s) }
{
    bytes.get(7) == Some(&2)
}

impl Kept {
    /// The state beside its text.
    pub(crate) fn new(alloc: Global, state: State) -> Result<Kept, Memory>
        ensures { IfOk result (λ kept. kept ≡ state) }
    {
        let text = encode(alloc, &state)?;
        let _values = state.pcrs(); // tells that the state has its rules
        let state = Box::new(alloc, state)?;
        Ok(Kept { state, text })
    }

    /// The state that bytes spell, beside its text: the bytes themselves where they are of version 2.
    pub(crate) fn read(alloc: Global, bytes: Vec<u8>, state: State) -> Result<Kept, Memory>
        requires spelled { IsSpelled bytes.items state }
        requires short { length bytes.items ≤ most_bytes }
        requires read { state_of bytes.items ≡ Ok state }
        ensures { IfOk result (λ kept. kept ≡ state) }
    {
        let _values = state.pcrs(); // tells that the state has its rules
        if is_of_version_two(bytes.as_slice()) {
            let state = Box::new(alloc, state)?;
            Ok(Kept { state, text: bytes })
        } else {
            Kept::new(alloc, state)
        }
    }

    /// The state, which has its rules.
    pub(crate) fn state(&self) -> &State
        ensures value { result.now ≡ self.now }
        ensures rules { HasRules self.now }
    {
        &self.state
    }

    /// The state's text.
    pub(crate) fn text(&self) -> &[u8]
        ensures value { result.now ≡ text_of Two self.now }
        ensures stored { stored_by (Some result.now) ≡ Holds self.now }
    {
        self.text.as_slice()
    }

    /// The answer to a command that only looks at the state. Nothing is copied.
    pub(crate) fn look(&mut self, alloc: Global, command: &Command) -> Result<Response, Memory>
        requires { looks_only command.now ≡ true }
        ensures answered { IfOk result (λ answer. answer ≡ (respond command.now self.old).0) }
        ensures fitting { IfOk result (λ answer. fits command.now answer ≡ true) }
        ensures same { self.new ≡ self.old }
        ensures rules { HasRules self.old }
    {
        step(alloc, &mut self.state, command)
    }

    /// Whether a state of this text is the same, which is so exactly where both have one text.
    pub(crate) fn is_same(&self, next: &State, text: &[u8]) -> bool
        requires text { text.now ≡ text_of Two next.now }
        requires stored { stored_by (Some text.now) ≡ Holds next.now }
        ensures { result ≡ true ↔ (self.now ≡ next.now) }
    {
        self.text() == text
    }

    /// Takes the next state, with its text, and gives its own state for it.
    pub(crate) fn take_over(&mut self, next: &mut Box<State>, text: Vec<u8>)
        requires text { text.items ≡ text_of Two next.old.value }
        requires stored { stored_by (Some text.items) ≡ Holds next.old.value }
        ensures { self.new ≡ next.old.value }
    {
        let _values = next.pcrs(); // tells that the state has its rules
        mem::swap(&mut self.state, next);
        self.text = text;
    }
}
