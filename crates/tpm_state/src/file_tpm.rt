//! A TPM that is kept in a file.
ghost use Rattle.std.specs.Prelude.{◌≡◌, ◌≢◌, ◌⊎◌, ◌≤◌, ◌↔◌, ℕ, Bool, true, false, Option, None, Some, is_some, is_ok, Ok, Err, IfOk, IfErr, IfSome, OnErr, length, MatchOption};
ghost use Rattle.std.specs.FinMap.{get, insert};
ghost use Rattle.pl_base.specs.Faults.{HasCause};
ghost use Rattle.pl_base.specs.FileAnswers.{ReplaceLeaves};
ghost use Rattle.pl_base.specs.FileMap.{FileMap};
ghost use Rattle.tpm_model.specs.declared.parts.Parts.{Parts};
ghost use Rattle.tpm_model.specs.Fits.{fits};
ghost use Rattle.tpm_model.specs.Fresh.{fresh_parts};
ghost use Rattle.tpm_model.specs.Respond.{respond};
ghost use Rattle.tpm_model.specs.Rules.{HasRules};
ghost use Rattle.tpm_device.specs.Stored.{Stored, Holds, BeginGives, ExecuteGives, ExecuteStores, stays_ready};
ghost use Rattle.tpm_state.specs.declared.version.Version.TheVariants.{Two};
ghost use Rattle.tpm_state.specs.Layout.{text_of};
ghost use Rattle.tpm_state.specs.Decoding.{state_of};
ghost use Rattle.tpm_state.specs.Looking.{looks_only};
ghost use Rattle.tpm_state.specs.Spelling.{IsSpelled};
ghost use Rattle.tpm_state.specs.Storing.{all_banks, most_bytes, stored_as, stored_by, stored_in, StateGives, StoreLeaves, StoresText};

use crate::kept::Kept;
use crate::{DecodeError, decode, encode};
use hash_bank::Banks;
use pl_base::{Files, Memory, Name, ReadError, ReplaceError};
use std::alloc::Global;
use tpm_device::{BeginError, ExecError, Tpm};
use tpm_model::{Command, Response, State, step};

/// The most bytes of a state file.
const LIMIT: u64 = 16_777_216;

/// A TPM whose state is kept in a file, and that has none of its own until it is made ready.
#[derive(Debug, Drop)]
pub struct FileTpm<F: Files> {
    files: F,
    path: Name,
    live: Option<Kept>,
    // room for the next state
    spare: Option<Box<State>>,
}

impl<F: Files> FileTpm<F> {
    /// The TPM that is kept at the path. It isn't ready yet, and nothing is read.
    pub fn new(files: F, path: Name) -> FileTpm<F>
        ensures { result ≡ record { files = files; path = path; live = None; spare = None } }
    {
        FileTpm {
            files,
            path,
            live: None,
            spare: None,
        }
    }

    /// The files, as they are.
    pub fn into_files(self) -> F
        ensures { result ≡ self.files }
    {
        let FileTpm { files, .. } = self;
        files
    }
}

/// A TPM that was never used, with all banks.
fn fresh_state(alloc: Global) -> State
    ensures { result ≡ fresh_parts all_banks }
{
    State::fresh(alloc, Banks::all())
}

/// The state that a file's bytes hold, beside its text.
fn state_in(alloc: Global, bytes: Vec<u8>) -> Result<Kept, BeginError>
    requires short { length bytes.items ≤ most_bytes }
    ensures told { StateGives (stored_as (state_of bytes.items)) result }
    ensures fine { result ≢ Err BeginError.Failed }
{
    match decode(alloc, bytes.as_slice()) {
        Ok(state) => as_read(alloc, bytes, state),
        Err(DecodeError::Malformed(place)) => Err(BeginError::Malformed(place)),
        Err(DecodeError::BadRule(rule)) => Err(BeginError::BadRule(rule)),
        Err(DecodeError::Memory) => Err(BeginError::Memory),
    }
}

/// The state that bytes spell, beside its text.
fn as_read(alloc: Global, bytes: Vec<u8>, state: State) -> Result<Kept, BeginError>
    requires spelled { IsSpelled bytes.items state }
    requires short { length bytes.items ≤ most_bytes }
    requires read { state_of bytes.items ≡ Ok state }
    ensures told { IfOk result (λ kept. kept ≡ state) }
    ensures fine { IfErr result (λ error. error ≡ BeginError.Memory) }
{
    match Kept::read(alloc, bytes, state) {
        Ok(kept) => Ok(kept),
        Err(_) => Err(BeginError::Memory),
    }
}

/// The state beside its text.
fn with_text(alloc: Global, state: State) -> Result<Kept, BeginError>
    ensures told { IfOk result (λ kept. kept ≡ state) }
    ensures fine { IfErr result (λ error. error ≡ BeginError.Memory) }
{
    match Kept::new(alloc, state) {
        Ok(kept) => Ok(kept),
        Err(_) => Err(BeginError::Memory),
    }
}

/// The state that the file at the path stores, beside its text.
fn stored_state<F: Files>(files: &mut F, alloc: Global, path: &str) -> Result<Kept, BeginError>
    ensures cause { HasCause (F.faults files.old) (F.faults files.new) (result ≡ Err BeginError.Failed) }
    ensures told { (map : FileMap) → F.held files.old ≡ Some map → StateGives (stored_by (get map path.now)) result }
    ensures same { F.held files.new ≡ F.held files.old }
{
    match files.read(alloc, path, LIMIT) {
        Ok(bytes) => state_in(alloc, bytes),
        Err(ReadError::Missing) => with_text(alloc, fresh_state(alloc)),
        Err(ReadError::TooLarge(size)) => Err(BeginError::TooLarge(size)),
        Err(ReadError::Failed) => Err(BeginError::Failed),
        Err(ReadError::Memory) => Err(BeginError::Memory),
    }
}

/// Another place with an equal state.
fn copied(alloc: Global, live: &State) -> Result<Box<State>, Memory>
    ensures { IfOk result (λ next. next.value ≡ live.now) }
{
    let state = live.copy(alloc)?;
    Ok(Box::new(alloc, state)?)
}

/// Makes the spare state equal to the live one. Where there is none yet, it is made.
fn fill(alloc: Global, spare: &mut Option<Box<State>>, live: &State) -> Result<(), Memory>
    ensures { IfOk result (λ _. IfSome spare.new (λ next. next.value ≡ live.now) × (is_some spare.new ≡ true)) }
{
    match spare {
        Some(next) => next.copy_from(alloc, live),
        None => match copied(alloc, live) {
            Ok(next) => {
                *spare = Some(next);
                Ok(())
            }
            Err(_) => Err(Memory),
        },
    }
}

/// One step on a state that is equal to the live one: the answer and the text of the next state.
fn stepped(
    alloc: Global,
    next: &mut State,
    command: &Command,
) -> Result<(Response, Vec<u8>), Memory>
    ensures value { IfOk result (λ done. (done.0, next.new) ≡ respond command.now next.old) }
    ensures fitting { IfOk result (λ done. fits command.now done.0 ≡ true) }
    ensures text { IfOk result (λ done. done.1.items ≡ text_of Two next.new) }
    ensures stored { IfOk result (λ done. stored_by (Some done.1.items) ≡ Holds next.new) }
    ensures rules { HasRules next.old × HasRules next.new }
{
    match step(alloc, next, command) {
        Ok(response) => match encode(alloc, next) {
            Ok(text) => Ok((response, text)),
            Err(_) => Err(Memory),
        },
        Err(_) => Err(Memory),
    }
}

/// Stores the text of a state at the path.
fn store<F: Files>(
    files: &mut F,
    alloc: Global,
    path: &str,
    next: &State,
    text: &[u8],
) -> Result<(), ReplaceError>
    requires text { text.now ≡ text_of Two next.now }
    requires stored { stored_by (Some text.now) ≡ Holds next.now }
    ensures cause { HasCause (F.faults files.old) (F.faults files.new) (result ≡ Err ReplaceError.Failed) }
    ensures stored { (kept : Stored) → stored_in (F.held files.old) path.now ≡ Some kept → StoreLeaves kept (Holds next.now) result (stored_in (F.held files.new) path.now) }
    ensures files { (map : FileMap) → F.held files.old ≡ Some map → ReplaceLeaves map (insert map path.now (text_of Two next.now)) result (F.held files.new) }
{
    files.replace(alloc, path, text)
}

/// One step on a spare state that is equal to the live one. Where it leads to another state, that is stored at the path,
/// and the live one takes it over.
fn advance<F: Files>(
    files: &mut F,
    alloc: Global,
    path: &str,
    live: &mut Kept,
    next: &mut Box<State>,
    command: &Command,
) -> Result<Response, ExecError>
    requires { next.old.value ≡ live.old }
    ensures cause { HasCause (F.faults files.old) (F.faults files.new) (result ≡ Err ExecError.Failed) }
    ensures value { IfOk result (λ answer. (answer, live.new) ≡ respond command.now live.old) }
    ensures fitting { IfOk result (λ answer. fits command.now answer ≡ true) }
    ensures err { OnErr result (live.new ≡ live.old) }
    ensures stored { stored_in (F.held files.old) path.now ≡ Some (Holds live.old) → ExecuteStores command.now live.old result (stored_in (F.held files.new) path.now) }
    ensures quiet { (respond command.now live.old).1 ≡ live.old → F.held files.new ≡ F.held files.old }
    ensures files { (map : FileMap) → F.held files.old ≡ Some map → StoresText map path.now live.old (respond command.now live.old).1 result (F.held files.new) }
{
    let Ok((response, text)) = stepped(alloc, next, command) else {
        return Err(ExecError::Memory);
    };
    if live.is_same(next, text.as_slice()) {
        return Ok(response);
    }
    match store(files, alloc, path, next, text.as_slice()) {
        Ok(()) => {
            live.take_over(next, text);
            Ok(response)
        }
        Err(ReplaceError::Failed) => Err(ExecError::Failed),
        Err(ReplaceError::Memory) => Err(ExecError::Memory),
    }
}

/// Whether a command only looks at the state.
fn is_look(command: &Command) -> bool
    ensures { result ≡ looks_only command.now }
{
    matches!(
        command,
        Command::PcrRead { .. }
            | Command::PolicyGetDigest { .. }
            | Command::NvRead { .. }
            | Command::NvReadPublic { .. }
            | Command::Unseal { .. }
    )
}

impl<F: Files> FileTpm<F> {
    /// Executes a command that only looks at the live state. No file is touched.
    fn look(&mut self, alloc: Global, command: &Command) -> Result<Response, ExecError>
        requires ready { is_some self.old.live ≡ true }
        requires look { looks_only command.now ≡ true }
        ensures answered { (s : Parts) → self.old.live ≡ Some s → IfOk result (λ answer. answer ≡ (respond command.now s).0) }
        ensures fitting { IfOk result (λ answer. fits command.now answer ≡ true) }
        ensures memory { IfErr result (λ error. error ≡ ExecError.Memory) }
        ensures live { self.new.live ≡ self.old.live }
        ensures rules { (s : Parts) → self.old.live ≡ Some s → HasRules s }
        ensures next { (s : Parts) → self.new.live ≡ Some s → HasRules s }
        ensures files { self.new.files ≡ self.old.files }
        ensures path { self.new.path ≡ self.old.path }
    {
        let Some(live) = &mut self.live else {
            unreachable!()
        };
        match live.look(alloc, command) {
            Ok(response) => Ok(response),
            Err(_) => Err(ExecError::Memory),
        }
    }

    /// Executes a command on a copy of the live state, and stores the next state where it is another.
    fn change(&mut self, alloc: Global, command: &Command) -> Result<Response, ExecError>
        requires { is_some self.old.live ≡ true }
        ensures cause { HasCause (F.faults self.old.files) (F.faults self.new.files) (result ≡ Err ExecError.Failed) }
        ensures fitting { IfOk result (λ answer. fits command.now answer ≡ true) }
        ensures readiness { is_some self.new.live ≡ stays_ready result }
        ensures told { (s : Parts) → self.old.live ≡ Some s → ExecuteGives command.now s result (is_some self.new.live) self.new.live }
        ensures rules { (s : Parts) → self.old.live ≡ Some s → HasRules s }
        ensures next { (s : Parts) → self.new.live ≡ Some s → HasRules s }
        ensures stored { (s : Parts) → self.old.live ≡ Some s → stored_in (F.held self.old.files) self.old.path ≡ Some (Holds s) → ExecuteStores command.now s result (stored_in (F.held self.new.files) self.new.path) }
        // A command that leaves an equal state writes nothing, and the TPM stays in its file.
        ensures quiet { (s : Parts) → self.old.live ≡ Some s → (respond command.now s).1 ≡ s → F.held self.new.files ≡ F.held self.old.files }
        // Else the file holds the text of the next state in version 2; no other file changes.
        ensures files { (s : Parts) (map : FileMap) → self.old.live ≡ Some s → F.held self.old.files ≡ Some map → StoresText map self.old.path s (respond command.now s).1 result (F.held self.new.files) }
        ensures path { self.new.path ≡ self.old.path }
    {
        let Some(live) = &mut self.live else {
            unreachable!()
        };
        let Ok(()) = fill(alloc, &mut self.spare, live.state()) else {
            return Err(ExecError::Memory);
        };
        let Some(next) = &mut self.spare else {
            unreachable!()
        };
        match advance(
            &mut self.files,
            alloc,
            self.path.text(),
            live,
            next,
            command,
        ) {
            Ok(response) => {
                let _state = live.state(); // tells that the state has its rules
                Ok(response)
            }
            Err(ExecError::Failed) => {
                self.live = None;
                Err(ExecError::Failed)
            }
            Err(ExecError::Memory) => Err(ExecError::Memory),
        }
    }
}

impl<F: Files> Tpm for FileTpm<F> {
    ghost live = { λ tpm. tpm.live };

    ghost stored = { λ tpm. stored_in (F.held tpm.files) tpm.path };

    ghost ready = { λ tpm. is_some tpm.live };

    ghost faults = { λ tpm. F.faults tpm.files };

    fn begin(&mut self, alloc: Global) -> Result<(), BeginError>
        ensures cause { HasCause (F.faults self.old.files) (F.faults self.new.files) (result ≡ Err BeginError.Failed) }
        ensures readiness { is_some self.new.live ≡ is_ok result }
        ensures told { (kept : Stored) → stored_in (F.held self.old.files) self.old.path ≡ Some kept → BeginGives kept result self.new.live }
        ensures same { stored_in (F.held self.new.files) self.new.path ≡ stored_in (F.held self.old.files) self.old.path }
        ensures live { IfOk result (λ _. is_some self.new.live ≡ true) }
        ensures rules { (s : Parts) → self.new.live ≡ Some s → HasRules s }
        // Nothing is written, and the TPM stays in its file.
        ensures quiet { F.held self.new.files ≡ F.held self.old.files }
        ensures path { self.new.path ≡ self.old.path }
    {
        self.live = None; // until a state is read
        match stored_state(&mut self.files, alloc, self.path.text()) {
            Ok(kept) => {
                let _state = kept.state(); // tells that the state has its rules
                self.live = Some(kept);
                Ok(())
            }
            Err(error) => Err(error),
        }
    }

    fn is_ready(&self) -> bool {
        match &self.live {
            Some(live) => {
                let _state = live.state(); // tells that the state has its rules
                true
            }
            None => false,
        }
    }

    fn execute(&mut self, alloc: Global, command: &Command) -> Result<Response, ExecError>
        requires { is_some self.old.live ≡ true }
        ensures cause { HasCause (F.faults self.old.files) (F.faults self.new.files) (result ≡ Err ExecError.Failed) }
        ensures fitting { IfOk result (λ answer. fits command.now answer ≡ true) }
        ensures readiness { is_some self.new.live ≡ stays_ready result }
        ensures told { (s : Parts) → self.old.live ≡ Some s → ExecuteGives command.now s result (is_some self.new.live) self.new.live }
        ensures live { is_some self.old.live ≡ true }
        ensures rules { (s : Parts) → self.old.live ≡ Some s → HasRules s }
        ensures next { (s : Parts) → self.new.live ≡ Some s → HasRules s }
        ensures stored { (s : Parts) → self.old.live ≡ Some s → stored_in (F.held self.old.files) self.old.path ≡ Some (Holds s) → ExecuteStores command.now s result (stored_in (F.held self.new.files) self.new.path) }
        // A command that leaves an equal state writes nothing, and the TPM stays in its file.
        ensures quiet { (s : Parts) → self.old.live ≡ Some s → (respond command.now s).1 ≡ s → F.held self.new.files ≡ F.held self.old.files }
        // Else the file holds the text of the next state in version 2; no other file changes.
        ensures files { (s : Parts) (map : FileMap) → self.old.live ≡ Some s → F.held self.old.files ≡ Some map → StoresText map self.old.path s (respond command.now s).1 result (F.held self.new.files) }
        ensures path { self.new.path ≡ self.old.path }
    {
        if is_look(command) {
            self.look(alloc, command)
        } else {
            self.change(alloc, command)
        }
    }
}
