//! What happens in a race.
use hash_bank::Digest;
use policy_digest::Table;
use tpm_model::Command;

/// One event of a race: one command of the TPM.
#[derive(Debug, Drop)]
pub enum Event {
    /// The client of this number takes its next step.
    Step(u32),
    /// Anyone gives a command.
    Stranger(Command),
    /// The index is written anew: with the root of this table, under its pin.
    Update {
        /// The pin by which the index is written.
        pin: [u8; 32],
        /// The table that is published once the index was written.
        table: Table,
        /// The table's root.
        root: Digest,
    },
}
