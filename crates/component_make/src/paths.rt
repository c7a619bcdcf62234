//! The paths of the two files of a lock of the firmware.
ghost use Rattle.std.specs.Prelude.{◌≡◌, IfOk, string_bytes};
ghost use Rattle.component_make.specs.FirmwareFiles.{variant_path as path_of_variant, early_path as path_of_early, late_path as path_of_late};

use crate::kind::FirmwareKind;
use pl_base::{Memory, Name};
use std::alloc::Global;

/// The text of such a path.
#[tactic(auto, unfolding(crate::specs::FirmwareFiles::variant_path))]
fn path_text(alloc: Global, folder: &str, component: &str, variant: &str) -> Result<String, Memory>
    ensures { IfOk result (λ text. string_bytes text ≡ path_of_variant folder.now component.now variant.now) }
{
    Ok(format!(in alloc; "{folder}/{component}.pcrlock.d/{variant}.pcrlock")?)
}

/// The path of a component's variant in a folder (systemd.pcrlock(5)).
fn variant_path(
    alloc: Global,
    folder: &Name,
    component: &str,
    variant: &Name,
) -> Result<Name, Memory>
    ensures { IfOk result (λ path. path ≡ path_of_variant folder.now component.now variant.now) }
{
    let path = path_text(alloc, folder.text(), component, variant.text())?;
    Name::from_text(alloc, path.as_str())
}

/// The path of the file of what was measured before the separators: in the folder the variant of the component
/// `250-firmware-code-early`, or of the one with `config` for `code`.
pub fn early_path(
    alloc: Global,
    kind: FirmwareKind,
    folder: &Name,
    variant: &Name,
) -> Result<Name, Memory>
    ensures { IfOk result (λ path. path ≡ path_of_early kind folder.now variant.now) }
{
    variant_path(alloc, folder, kind.early_component(), variant)
}

/// The path of the file of what was measured behind them: in the folder the variant of the component
/// `550-firmware-code-late`, or of the one with `config` for `code`.
pub fn late_path(
    alloc: Global,
    kind: FirmwareKind,
    folder: &Name,
    variant: &Name,
) -> Result<Name, Memory>
    ensures { IfOk result (λ path. path ≡ path_of_late kind folder.now variant.now) }
{
    variant_path(alloc, folder, kind.late_component(), variant)
}
