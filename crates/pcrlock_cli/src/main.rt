//! The program `pcrlock`: the words of the process are run over the files of the system, its random
//! words and its standard output and error, and the status is the exit status of the process. The TPM
//! is kept in the state file, whose path is the first word. One process at a time works on the state
//! files of a folder, and what the words name to be written or removed is never the state file.
#![tactic(auto)]

ghost use Rattle.std.specs.Prelude.{◌≡◌, IfOk};
ghost use Rattle.pcrlock_cli.specs.declared.Refusal.TheVariants.{Memory as NoMemory};
ghost use Rattle.pcrlock_cli.specs.Process.{refusal_line, refusal_status, state_path_of};

use pcrlock_files::{ApartFiles, StateFiles, lock_folder_of};
use pcrlock_run::run;
use pl_base::{Files, List, Memory, Name, RealEntropy, RealFiles, RealSink, Sink, sync_folder_of};
use std::alloc::Global;
use std::fs::File;
use std::process::ExitCode;
use std::{env, io};
use tpm_state::FileTpm;

/// Why the words of the process can't be run.
#[derive(Drop)]
enum Refusal {
    /// A word isn't UTF-8.
    BadWords,
    /// Memory ran out.
    Memory,
    /// The system couldn't store where the TPM's file is, so a power cut may undo its changes.
    Unstored,
}

impl From<Memory> for Refusal {
    ghost from_gives = { λ _ refusal. refusal ≡ NoMemory };

    fn from(_error: Memory) -> Refusal {
        Refusal::Memory
    }
}

impl Refusal {
    /// The line on standard error.
    fn line(&self) -> &'static [u8]
        ensures { result.now ≡ refusal_line self.now }
    {
        match self {
            Refusal::BadWords => b"bad words\n",
            Refusal::Memory => b"no memory\n",
            Refusal::Unstored => b"tpm fault\n",
        }
    }

    /// The exit status.
    fn status(&self) -> u8
        ensures { result ≡ refusal_status self.now }
    {
        match self {
            Refusal::BadWords => 2,
            Refusal::Memory => 6,
            Refusal::Unstored => 5,
        }
    }
}

/// The words of the process behind the program's name.
fn words(rt: &HostRuntime) -> Result<List<Name>, Refusal> {
    let mut args = match env::args(rt) {
        Ok(args) => args,
        Err(error) => {
            return Err(if error.kind() == io::ErrorKind::OutOfMemory {
                Refusal::Memory
            } else {
                Refusal::BadWords
            });
        }
    };
    let _program = args.next();
    let alloc = rt.alloc();
    let mut words = List::new(alloc);
    for arg in args {
        words.push(Name::from_text(alloc, arg.as_str())?)?;
    }
    Ok(words)
}

/// The path of the state file: the first word, or an empty one where there is none.
fn state_path(alloc: Global, words: &[Name]) -> Result<Name, Memory>
    ensures { IfOk result (λ path. path ≡ state_path_of words.now) }
{
    match words.first() {
        Some(path) => path.copy(alloc),
        None => Name::from_text(alloc, ""),
    }
}

/// Takes the lock on the folder of the state file, where the words name one. The file that is given
/// holds it as long as it is there.
fn lock(rt: &HostRuntime, path: &Name) -> Option<File> {
    if path.text().is_empty() {
        return None;
    }
    lock_folder_of(rt, path.text())
}

/// Has the system store what the TPM's file became.
fn store<F: Files>(rt: &HostRuntime, path: &Name, state: &StateFiles<F>) -> Result<(), Refusal> {
    if state.is_changed() && sync_folder_of(rt, path.text()).is_err() {
        return Err(Refusal::Unstored);
    }
    Ok(())
}

/// Runs the words of the process under the lock, and gives its exit status.
fn run_process<O: Sink, R: Sink>(
    rt: &HostRuntime,
    out: &mut O,
    err: &mut R,
) -> Result<u8, Refusal> {
    let alloc = rt.alloc();
    let words = words(rt)?;
    let path = state_path(alloc, words.as_slice())?;
    let lock = lock(rt, &path); // until all is stored
    let state = StateFiles::new(RealFiles::new(rt), lock.is_some());
    let mut tpm = FileTpm::new(state, path.copy(alloc)?);
    let mut files = ApartFiles::new(alloc, rt, RealFiles::new(rt), path.copy(alloc)?)?;
    let mut entropy = RealEntropy::new(rt);
    let status = run(
        alloc,
        words.as_slice(),
        &mut files,
        &mut tpm,
        &mut entropy,
        out,
        err,
    );
    store(rt, &path, &tpm.into_files())?;
    drop(lock);
    Ok(status)
}

/// Tells a refusal, and gives the exit status.
fn refuse<R: Sink>(alloc: Global, refusal: &Refusal, err: &mut R) -> u8
    ensures { result ≡ refusal_status refusal.now }
{
    let _told = err.write_all(alloc, refusal.line());
    refusal.status()
}

fn main(rt: HostRuntime) -> ExitCode {
    let mut out = RealSink::new(rt.stdout());
    let mut err = RealSink::new(rt.stderr());
    let status = match run_process(&rt, &mut out, &mut err) {
        Ok(status) => status,
        Err(refusal) => refuse(rt.alloc(), &refusal, &mut err),
    };
    ExitCode::from(status)
}
