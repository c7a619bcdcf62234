//! `unlock-firmware-code` and `unlock-firmware-config`: the files of a lock are taken out.
ghost use Rattle.std.specs.Prelude.{◌≡◌, ◌∷◌, [], ℕ, length, List as Sequence, Option as Maybe, Some, Ok, IfOk, IfErr};
ghost use Rattle.pl_base.specs.FileMap.{FileMap};
ghost use Rattle.tpm_device.specs.Stored.{Stored};
ghost use Rattle.pcrlock_line.specs.Causes.{HasCauses};
ghost use Rattle.pcrlock_line.specs.Machine.{Machine, Tells};
ghost use Rattle.pcrlock_line.specs.Outcome.{Gives};
ghost use Rattle.pcrlock_line.specs.Stopped.{StandsAmong};
ghost use Rattle.pcrlock_deeds.specs.Acts.{files_then, files_between};
ghost use Rattle.pcrlock_lock.specs.Between.{HoldsOneOf};
ghost use Rattle.pcrlock_lock.specs.Changing.{IsDone, changes_in};
ghost use Rattle.pcrlock_lock.specs.UnlockFirmware.{counted, removals, removed, unlock_firmware_line};

use component_make::{FirmwareKind, early_path, late_path};
use pcrlock_answer::unlocked_line;
use pcrlock_line::{Reply, Stop, remove_file};
use pl_base::{Files, Name};
use std::alloc::Global;

/// How many of the two there were.
fn count(first: bool, second: bool) -> u32
    ensures { result ≡ counted first second }
{
    u32::from(first) + u32::from(second)
}

/// Takes the files at both paths out, one after the other, and gives how many there were.
fn remove_both<F: Files>(
    alloc: Global,
    files: &mut F,
    first: &str,
    second: &str,
) -> Result<u32, Stop>
    ensures causes { HasCauses (F.faults files.old, 0, 0, 0) (F.faults files.new, 0, 0, 0) result }
    ensures number { (held : FileMap) → F.held files.old ≡ Some held
        → IfOk result (λ number. number ≡ length (removals (first.now ∷ second.now ∷ []) held)) }
    ensures told { (held : FileMap) → F.held files.old ≡ Some held
        → IfOk result (λ _. F.held files.new ≡ Some (files_then (removals (first.now ∷ second.now ∷ []) held) held)) }
    ensures stops { (held : FileMap) → F.held files.old ≡ Some held
        → IfErr result (λ _. HoldsOneOf (F.held files.new) (files_between (removals (first.now ∷ second.now ∷ []) held) held)) }
{
    match remove_file(alloc, files, first) {
        Ok(was) => match remove_file(alloc, files, second) {
            Ok(other) => Ok(count(was, other)),
            Err(stop) => Err(stop),
        },
        Err(stop) => Err(stop),
    }
}

/// Takes the files at both paths out, and gives the line that counts them.
fn unlock_paths<F: Files>(
    alloc: Global,
    files: &mut F,
    first: &str,
    second: &str,
) -> Result<Reply, Stop>
    ensures causes { HasCauses (F.faults files.old, 0, 0, 0) (F.faults files.new, 0, 0, 0) result }
    ensures told { (held : FileMap) → F.held files.old ≡ Some held
        → IfOk result (λ reply. IsDone held (F.held files.new) reply (Ok (removed (first.now ∷ second.now ∷ []) held))) }
    ensures stops { (held : FileMap) → F.held files.old ≡ Some held
        → IfErr result (λ _. HoldsOneOf (F.held files.new) (files_between (changes_in (Ok (removed (first.now ∷ second.now ∷ []) held))) held)) }
{
    match remove_both(alloc, files, first, second) {
        Ok(number) => match unlocked_line(alloc, number) {
            Ok(line) => Ok(Reply::Fine(line)),
            Err(_) => Err(Stop::Memory),
        },
        Err(stop) => Err(stop),
    }
}

/// Takes out the two files that [`lock_firmware`](crate::lock_firmware) writes for this variant in
/// this folder, the early one first; one that isn't there is passed over. It prints `unlocked` and the
/// number of files that it took out.
///
/// It stops with `WriteFault` or `Memory`. After a stop none of the files is taken out, the early one
/// alone, or both.
pub fn unlock_firmware<F: Files>(
    alloc: Global,
    files: &mut F,
    kind: FirmwareKind,
    folder: &Name,
    variant: &Name,
) -> Result<Reply, Stop>
    ensures causes { HasCauses (F.faults files.old, 0, 0, 0) (F.faults files.new, 0, 0, 0) result }
    ensures told { (stored : Maybe Stored) (words : Maybe (Sequence (Sequence ℕ))) (m : Machine) → Tells (F.held files.old) stored words m
        → IfOk result (λ reply. Gives (F.held files.new) stored words reply (unlock_firmware_line kind folder.now variant.now m)) }
    ensures stops { (stored : Maybe Stored) (words : Maybe (Sequence (Sequence ℕ))) (m : Machine) → Tells (F.held files.old) stored words m
        → IfErr result (λ _. StandsAmong (F.held files.new) stored (unlock_firmware_line kind folder.now variant.now m).stops) }
{
    let Ok(first) = early_path(alloc, kind, folder, variant) else {
        return Err(Stop::Memory);
    };
    let Ok(second) = late_path(alloc, kind, folder, variant) else {
        return Err(Stop::Memory);
    };
    unlock_paths(alloc, files, first.text(), second.text())
}
