//! The digests that one PolicyOR joins.
ghost use Rattle.std.specs.Prelude.{◌≡◌, ℕ, ◌<◌, ◌≤◌, ◌++◌, List, length, take, MatchOption};
ghost use Rattle.policy_digest.specs.Room.{filled_up};

use hash_bank::{Bank, Digest};
use std::marker::Model;

// The most digests that one PolicyOR takes (TPM 2.0 Library Part 2, TPML_DIGEST).
const MOST: usize = 8;

/// At most 8 digests, as one PolicyOR joins them. Contracts see the list of them.
#[derive(Clone, Copy, Debug, PartialEq, Eq)]
pub struct Group {
    room: [Digest; 8],
    len: usize,
}

impl Model for Group {
    ghost use Rattle.std.specs.Prelude.{◌≡◌, ℕ, ◌≤◌, List, length, take};
    ghost use Rattle.std.proofs.Common.{sym, length-take-le};
    ghost use Rattle.policy_digest.specs.Room.{filled_up};

    ghost Value = { List (List ℕ) };

    ghost view = { λ g. take g.len g.room };

    ghost invariant = { λ g. (g.len ≤ 8) × (g.len ≤ length g.room) × (g.room ≡ filled_up (take g.len g.room)) };

    ghost inverse = { λ list. record { room = filled_up list; len = length list } };

    ghost inverse_ok = { λ g h i. record {
      room = sym h.2 i;
      len = length-take-le g.len g.room h.1 i;
    } };
}

// These digests, with the rest of the room filled up.
fn room_of(list: &[Digest]) -> [Digest; 8]
    requires { length list.now ≤ 8 }
    ensures { result ≡ filled_up list.now }
{
    let mut room = [Digest::zeros(Bank::Sha1); MOST];
    room[..list.len()].copy_from_slice(list);
    room
}

impl Group {
    /// The group of these digests, or None where there are more than 8.
    pub fn from_slice(list: &[Digest]) -> Option<Group>
        ensures { MatchOption result (8 < length list.now) (λ group. (length list.now ≤ 8) × (group ≡ list.now)) }
    {
        if list.len() > MOST {
            return None;
        }
        Some(Group {
            room: room_of(list),
            len: list.len(),
        })
    }

    /// The digests in order, of which there are at most 8.
    pub fn as_slice(&self) -> &[Digest]
        ensures value { result.now ≡ self.now }
        ensures bound { length self.now ≤ 8 }
    {
        &self.room[..self.len]
    }
}
