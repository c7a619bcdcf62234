ghost use Rattle.std.specs.Prelude.{◌≡◌, ℕ, Option, None, Some, List, Err, IsErr};
ghost use Rattle.pl_base.specs.Draw.{DrawLeaves};
ghost use Rattle.pl_base.specs.Faults.{HasCause};

use crate::fault_count::FaultCount;
use crate::{Entropy, Failed};
use std::io::Read;
use std::{fs, io, rt};

/// Where the system gives random bytes (random(4)).
const RANDOM_DEVICE: &str = "/dev/urandom";

/// The random words of the system. It tells nothing of them.
#[derive(Drop)]
pub struct RealEntropy<R> {
    files: R,
    faults: FaultCount,
}

/// Reads one word, in as many reads as it takes.
fn random_word<R: rt::Files>(files: &R) -> io::Result<[u8; 32]> {
    let mut word = [0; 32];
    fs::open(files, RANDOM_DEVICE)?.read_exact(&mut word)?;
    Ok(word)
}

impl<R: rt::Files> RealEntropy<R> {
    /// The source, which opens the device through the runtime at each word.
    pub fn new(files: R) -> RealEntropy<R> {
        RealEntropy {
            files,
            faults: FaultCount::new(),
        }
    }
}

impl<R: rt::Files> Entropy for RealEntropy<R> {
    ghost draws = { λ _. None };

    ghost faults = { λ source. source.faults };

    fn fill32(&mut self) -> Result<[u8; 32], Failed>
        ensures cause { HasCause self.old.faults self.new.faults (result ≡ Err record {}) }
        ensures counts { HasCause self.old.faults self.new.faults (IsErr result) }
        ensures told { (before : List (List ℕ)) → None ≡ Some before → DrawLeaves before result None }
    {
        let outcome = random_word(&self.files).map_err(|_| Failed);
        self.faults.counted(outcome)
    }
}

#[cfg(test)]
mod tests {
    use super::*;
    use std::test::Fail;

    #[test]
    fn gives_a_new_word_each_time(rt: HostRuntime) -> Result<(), Fail> {
        let mut source = RealEntropy::new(&rt);
        let first = source.fill32()?;
        let second = source.fill32()?;
        assert_ne!(rt; first, second);
        Ok(())
    }
}
