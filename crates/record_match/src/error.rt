ghost use Rattle.std.specs.Prelude.{◌≡◌};
ghost use Rattle.record_match.specs.declared.error.MatchError.TheVariants as errors;

use pl_base::Memory;

/// Why no choice of variants explains a list of digests.
#[derive(Clone, Copy, Debug, PartialEq, Eq)]
pub enum MatchError {
    /// A record of the PCR lacks the bank, and this is the first one, in the order of components, of
    /// their variants and of the variants' records.
    NoDigest {
        /// The component's number, from 0 on.
        component: u32,
        /// The variant's number in its component, from 0 on.
        variant: u32,
        /// The record's number among all records of the variant, from 0 on.
        place: u32,
    },
    /// No choice of variants of the components up to this number, counted from 0, has its digests in
    /// order among the list's, and the number is the least such one.
    MissingComponent(u32),
    /// No choice explains the list, and no component is missing.
    Unrecognised,
    /// Memory ran out.
    Memory,
}

impl From<Memory> for MatchError {
    ghost from_gives = { λ _ error. error ≡ errors.Memory };

    fn from(_memory: Memory) -> MatchError {
        MatchError::Memory
    }
}
