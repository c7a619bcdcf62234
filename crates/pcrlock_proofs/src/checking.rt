//! `check-proof`: each proof of a file is tried over the components.
ghost use Rattle.std.specs.Prelude.{◌≡◌, ◌≢◌, ◌≤◌, ℕ, length, List as Sequence, Option as Maybe, Some, Err, IfOk, IfErr};
ghost use Rattle.std.specs.List.{All};
ghost use Rattle.pl_base.specs.Faults.{HasCause};
ghost use Rattle.pl_base.specs.FileMap.{FileMap};
ghost use Rattle.component_tree.specs.PlainTree.{plain};
ghost use Rattle.tpm_device.specs.Stored.{Stored};
ghost use Rattle.predict_proof.specs.Fault.{first_fault};
ghost use Rattle.predict_proof.specs.Proved.{HasShape};
ghost use Rattle.predict_proof.specs.ProofsIn.{proofs_in};
ghost use Rattle.pcrlock_line.specs.Causes.{HasCauses};
ghost use Rattle.pcrlock_line.specs.Machine.{Machine, Tells};
ghost use Rattle.pcrlock_line.specs.Outcome.{Gives};
ghost use Rattle.pcrlock_input.specs.Answering.{Answers};
ghost use Rattle.pcrlock_proofs.specs.CheckProof.{text_read, file_of, verdict_by, checked_of, check_proof_line};

use component_tree::Tree;
use pcrlock_answer::{Answer, checked_line, limit, malformed_at, no_such_file};
use pcrlock_input::{InputError, read_components};
use pcrlock_line::{Reply, Stop};
use pl_base::{Files, Name, ReadError};
use predict_proof::{ProofError, ProofFile, check, read_proofs};
use predictor::Window;
use std::alloc::Global;

/// The most bytes of a proof file.
const BYTE_LIMIT: u64 = 16_777_216;

/// The proof file that the bytes at the path spell.
fn read_text(alloc: Global, path: &Name, bytes: &[u8]) -> Result<ProofFile, InputError>
    ensures told { Answers (λ file. file) result (text_read path.now (proofs_in bytes.now)) }
    ensures fine { result ≢ Err InputError.Failed }
    ensures few { IfOk result (λ file. length file.proofs ≤ 12288) }
    ensures shaped { IfOk result (λ file. All (HasShape file.bank) file.proofs) }
{
    match read_proofs(alloc, bytes) {
        Ok(file) => Ok(file),
        Err(ProofError::BadLine(line)) => {
            Err(InputError::Refused(malformed_at(alloc, path.text(), line)?))
        }
        Err(ProofError::TooMany) => Err(InputError::Refused(limit(alloc, "proof-lines", 12_289)?)),
        Err(ProofError::Memory) => Err(InputError::Memory),
    }
}

/// The proof file at the path. The files stay as they are.
fn read_proof_file<F: Files>(
    alloc: Global,
    files: &mut F,
    path: &Name,
) -> Result<ProofFile, InputError>
    ensures cause { HasCause (F.faults files.old) (F.faults files.new) (result ≡ Err InputError.Failed) }
    ensures told { (held : FileMap) → F.held files.old ≡ Some held → Answers (λ file. file) result (file_of held path.now) }
    ensures few { IfOk result (λ file. length file.proofs ≤ 12288) }
    ensures shaped { IfOk result (λ file. All (HasShape file.bank) file.proofs) }
    ensures same { F.held files.new ≡ F.held files.old }
{
    match files.read(alloc, path.text(), BYTE_LIMIT) {
        Ok(bytes) => read_text(alloc, path, bytes.as_slice()),
        Err(ReadError::Missing) => Err(InputError::Refused(no_such_file(alloc, path.text())?)),
        Err(ReadError::TooLarge(size)) => {
            Err(InputError::Refused(limit(alloc, "proof-bytes", size)?))
        }
        Err(ReadError::Failed) => Err(InputError::Failed),
        Err(ReadError::Memory) => Err(InputError::Memory),
    }
}

/// The line that counts the proofs of the file, where each of them is proved.
fn verdict(
    alloc: Global,
    file: &ProofFile,
    tree: &Tree,
    location: &Window,
) -> Result<Vec<u8>, InputError>
    requires few { length file.now.proofs ≤ 12288 }
    requires shaped { All (HasShape file.now.bank) file.now.proofs }
    ensures told { Answers (λ text. text.items) result (verdict_by (length file.now.proofs) (first_fault file.now.bank file.now.locality location.now (plain tree.now.components) file.now.proofs)) }
    ensures fine { result ≢ Err InputError.Failed }
{
    let proofs = file.proofs.as_slice();
    match check(tree, location, file.bank, file.locality, proofs) {
        Ok(()) => Ok(checked_line(alloc, proofs.len() as u32)?),
        Err(error) => Err(InputError::Refused(Answer::NotProved(error.number() + 1))),
    }
}

/// The line that counts the proofs of the file at the path, where each of them is proved over the
/// components in the folders.
fn checked<F: Files>(
    alloc: Global,
    files: &mut F,
    proof: &Name,
    folders: &[Name],
    location: &Window,
) -> Result<Vec<u8>, InputError>
    ensures cause { HasCause (F.faults files.old) (F.faults files.new) (result ≡ Err InputError.Failed) }
    ensures told { (held : FileMap) → F.held files.old ≡ Some held → Answers (λ text. text.items) result (checked_of held proof.now folders.now location.now) }
    ensures same { F.held files.new ≡ F.held files.old }
{
    let file = read_proof_file(alloc, files, proof)?;
    let tree = read_components(alloc, files, folders)?;
    verdict(alloc, &file, &tree, location)
}

/// Tries each proof of the file `proof` over the components in the folders, of which the first hides
/// what stands under the same names in those behind it: its cut is one of those of the window
/// `location`, and its choice of variants before the cut leads to its values, from a restart at the
/// file's locality on, in the file's bank. It prints `checked` and the number of the proofs.
///
/// The answers for which it prints nothing, the first whose cause holds, first for the proof file, then
/// for the components and then for the proofs:
///
/// | Answer | Cause |
/// |---|---|
/// | `NoSuchFile` | the proof file isn't there |
/// | `Limit`, `proof-bytes` | it has this many bytes, more than 16,777,216 |
/// | `Malformed` | this line of it is bad; its first line has the number 0 |
/// | `Limit`, `proof-lines` 12289 | it has more than 12,288 lines behind the first |
/// | `Limit`, `entries` 4097 | a folder of components has more than 4,096 entries |
/// | `Malformed` at `name` | an entry gives a component or variant a bad name |
/// | `Limit`, `component-bytes` | a component file has this many bytes, more than 1,048,576 |
/// | `Malformed` at `json`, `records` or a number | it is no list of records |
/// | `Limit`, `records` 257 | it has more than 256 records |
/// | `Limit`, `variants` 65, `components` 257, `total` 65537 | there are more than 64, 256 or 65,536 records in all |
/// | `NotProved` | the proof on this line is the first that isn't proved |
///
/// The files stay as they are. It stops with `ReadFault` or `Memory`.
pub fn check_proof<F: Files>(
    alloc: Global,
    files: &mut F,
    proof: &Name,
    folders: &[Name],
    location: &Window,
) -> Result<Reply, Stop>
    ensures causes { HasCauses (F.faults files.old, 0, 0, 0) (F.faults files.new, 0, 0, 0) result }
    ensures told { (stored : Maybe Stored) (words : Maybe (Sequence (Sequence ℕ))) (m : Machine) → Tells (F.held files.old) stored words m
        → IfOk result (λ reply. Gives (F.held files.new) stored words reply (check_proof_line proof.now folders.now location.now m)) }
    ensures stops { (stored : Maybe Stored) (words : Maybe (Sequence (Sequence ℕ))) (m : Machine) → Tells (F.held files.old) stored words m
        → IfErr result (λ _. Tells (F.held files.new) stored words m) }
    ensures same { F.held files.new ≡ F.held files.old }
{
    match checked(alloc, files, proof, folders, location) {
        Ok(text) => Ok(Reply::Fine(text)),
        Err(InputError::Refused(answer)) => Ok(Reply::Refused(answer)),
        Err(InputError::Failed) => Err(Stop::ReadFault),
        Err(InputError::Memory) => Err(Stop::Memory),
    }
}
