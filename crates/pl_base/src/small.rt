ghost use Rattle.std.specs.Prelude.{◌≡◌, ◌<◌, ◌≤◌, MatchOption, length};
ghost use Rattle.pl_base.specs.Padded.{padded};

use std::marker::Model;

/// The most bytes that a `Small` holds.
const ROOM: usize = 128;

/// At most 128 bytes in place, as the content of an NV index or the secret of a sealed object.
#[derive(Clone, Copy, Debug, PartialEq, Eq)]
pub struct Small {
    room: [u8; 128],
    len: usize,
}

impl Model for Small {
    ghost use Rattle.std.specs.Prelude.{◌≡◌, ℕ, ◌≤◌, ◌-◌, ◌++◌, List, length, take, replicate};
    ghost use Rattle.pl_base.specs.Padded.{padded};

    ghost Value = { List ℕ };

    ghost view = { λ a. take a.len a.room };

    ghost invariant = { λ a. (a.len ≤ 128) × (a.len ≤ length a.room) × (a.room ≡ padded 128 (take a.len a.room)) };

    ghost inverse = { λ bytes. record { room = padded 128 bytes; len = length bytes } };
}

/// The bytes at the front of a room of zeros.
fn room_of(bytes: &[u8]) -> [u8; 128]
    requires { length bytes.now ≤ 128 }
    ensures { result ≡ padded 128 bytes.now }
{
    let mut room = [0; 128];
    room[..bytes.len()].copy_from_slice(bytes);
    room
}

impl Small {
    /// The bytes, or None where there are more than 128.
    pub fn from_slice(bytes: &[u8]) -> Option<Small>
        ensures { MatchOption result (128 < length bytes.now) (λ small. (length bytes.now ≤ 128) × (small ≡ bytes.now)) }
    {
        if bytes.len() > ROOM {
            return None;
        }
        Some(Small {
            room: room_of(bytes),
            len: bytes.len(),
        })
    }

    /// The bytes.
    pub fn as_slice(&self) -> &[u8]
        ensures value { result.now ≡ self.now }
        ensures bound { length self.now ≤ 128 }
    {
        &self.room[..self.len]
    }
}
