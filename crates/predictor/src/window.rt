//! The window of a prediction.
ghost use Rattle.std.specs.Prelude.{◌≡◌, ◌≤◌, false, length};
ghost use Rattle.predictor.specs.Ends.{is_greater};

use pl_base::Name;

/// Where the boots that are foreseen stand: after all components up to the start, and at most up to
/// the end, by the bytes of their ids (`--location` of systemd-pcrlock(8)).
#[derive(Debug, Drop)]
pub struct Window {
    /// All components up to this id have been measured.
    pub start: Name,
    /// No component behind this id has been.
    pub end: Name,
    ghost some_start: { 1 ≤ length start },
    ghost some_end: { 1 ≤ length end },
    ghost in_order: { is_greater start end ≡ false },
}
