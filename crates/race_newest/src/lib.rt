//! In every interleaving of clients, updates of the index and commands of anyone, an object that is bound to the
//! newest policy of an index opens only by the table that was the newest as the session was authorised. The calls do
//! nothing; they tell the laws.
#![tactic(auto)]

mod laws;
mod playing;

pub use crate::laws::{each_unseal_names_its_event, keys_come_rightly, names_are_strict};
pub use crate::playing::play_rightly;
