ghost use Rattle.std.specs.Prelude.{◌≡◌, ◌⊎◌, ◌<◌, ◌+◌, ◌-◌, ◌^◌, min, ℕ, Option, Some, None, IsSome, MatchOption, option_to_list, List as Sequence, [], ◌++◌, length, Result, Err, IsOk};
ghost use Rattle.pl_base.specs.Calls.{planned, FollowsPlan};
ghost use Rattle.pl_base.specs.Draw.{DrawLeaves};
ghost use Rattle.pl_base.specs.Faults.{HasCause};

use crate::schedule::Schedule;
use crate::{Entropy, Fail, Failed, List};
use std::alloc::Global;
use std::marker::Model;
use std::vec::IntoIter;

/// A source of words that are known before, and told. Once they are drawn, each call fails.
#[derive(Debug, Drop)]
pub struct ListEntropy {
    words: IntoIter<[u8; 32], Global>,
    schedule: Schedule,
}

impl Model for ListEntropy {
    ghost use Rattle.std.specs.Vec.Iter.{into_iter_items};
    ghost use Rattle.pl_base.specs.MemoryWords.{MemoryWords};

    ghost Value = { MemoryWords };

    ghost view = { λ a. record { words = into_iter_items a.words; calls = a.schedule } };
}

impl ListEntropy {
    /// A source of these words, the first of them first, that fails at these calls of `fill32`.
    pub fn new(words: List<[u8; 32]>, fails: List<Fail>) -> ListEntropy
        ensures { result ≡ record { words = words; calls = record { fails = fails; made = 0; faults = 0 } } }
    {
        ListEntropy {
            words: words.into_vec().into_iter(),
            schedule: Schedule::new(fails),
        }
    }

    /// The next word, if there is one and the call is not to fail. The call is counted, and no fault.
    fn draw(&mut self) -> Option<[u8; 32]>
        ensures calls { self.new.calls ≡ record self.old.calls { made = min (self.old.calls.made + 1) (2 ^ 64 - 1) } }
        ensures words { MatchOption result (IsSome (planned self.old.calls) ⊎ (self.old.words ≡ [])) (λ _. planned self.old.calls ≡ None) }
        ensures rest { self.old.words ≡ option_to_list result ++ self.new.words }
    {
        match self.schedule.next_call() {
            None => self.words.next(),
            Some(_) => None,
        }
    }
}

impl Entropy for ListEntropy {
    ghost draws = { λ source. Some source.words };

    ghost faults = { λ source. source.calls.faults };

    fn fill32(&mut self) -> Result<[u8; 32], Failed>
        ensures cause { HasCause self.old.calls.faults self.new.calls.faults (result ≡ Err record {}) }
        ensures told { (before : Sequence (Sequence ℕ)) → Some self.old.words ≡ Some before → DrawLeaves before result (Some self.new.words) }
        ensures plan { FollowsPlan self.old.calls self.new.calls ((result ≡ Err record {}) × (0 < length self.old.words)) (IsOk result) }
        ensures still { IsOk result → self.new.calls.faults ≡ self.old.calls.faults }
        ensures each { IsSome (planned self.old.calls) → result ≡ Err record {} }
    {
        match self.draw() {
            Some(word) => Ok(word),
            None => {
                self.schedule.fault();
                Err(Failed)
            }
        }
    }
}

#[cfg(test)]
mod tests {
    use super::*;
    use std::test::Fail as TestFail;

    /// Words come in order. The failing call takes none, and each call past the end fails.
    #[test]
    fn gives_words_in_order(rt: HostRuntime) -> Result<(), TestFail> {
        let alloc = rt.alloc();
        let mut words = List::new(alloc);
        words.push([7; 32])?;
        words.push([9; 32])?;
        let mut fails = List::new(alloc);
        fails.push(Fail {
            call: 1,
            done: true,
        })?;
        let mut source = ListEntropy::new(words, fails);
        assert_eq!(rt; source.fill32(), Ok([7; 32]));
        assert_eq!(rt; source.fill32(), Err(Failed));
        assert_eq!(rt; source.fill32(), Ok([9; 32]));
        assert_eq!(rt; source.fill32(), Err(Failed));
        assert_eq!(rt; source.fill32(), Err(Failed));
        Ok(())
    }
}
