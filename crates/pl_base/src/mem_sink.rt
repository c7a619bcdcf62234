ghost use Rattle.std.specs.Prelude.{◌≡◌, ◌⊎◌, IsSome, ℕ, Option, Some, List as Sequence, [], ◌++◌, Err, IsOk, IfSome, MatchResult, if◌then◌else◌};
ghost use Rattle.pl_base.specs.Calls.{planned, FollowsPlan};
ghost use Rattle.pl_base.specs.Faults.{HasCause};
ghost use Rattle.pl_base.specs.Written.{WriteLeaves};

use crate::schedule::Schedule;
use crate::{Fail, List, Sink, SinkError};
use std::alloc::Global;
use std::marker::Model;

/// A sink that keeps all bytes in memory, and tells them.
#[derive(Debug, Drop)]
pub struct MemSink {
    bytes: Vec<u8>,
    schedule: Schedule,
}

impl Model for MemSink {
    ghost use Rattle.pl_base.specs.MemorySink.{MemorySink};

    ghost Value = { MemorySink };

    ghost view = { λ a. record { written = a.bytes.items; calls = a.schedule } };
}

impl MemSink {
    /// A sink that holds nothing, and fails at these calls of `write_all`.
    pub fn new(alloc: Global, fails: List<Fail>) -> MemSink
        ensures { result ≡ record { written = []; calls = record { fails = fails; made = 0; faults = 0 } } }
    {
        MemSink {
            bytes: Vec::new(alloc),
            schedule: Schedule::new(fails),
        }
    }

    /// All bytes written.
    pub fn bytes(&self) -> &[u8]
        ensures { result.now ≡ self.now.written }
    {
        self.bytes.as_slice()
    }

    /// Appends the bytes, or leaves those before where memory runs out.
    fn append(&mut self, bytes: &[u8]) -> Result<(), SinkError>
        ensures { MatchResult result (λ _. self.new ≡ record self.old { written = self.old.written ++ bytes.now }) (λ error. (error ≡ SinkError.Memory) × (self.new ≡ self.old)) }
    {
        match self.bytes.extend_from_slice(bytes) {
            Ok(()) => Ok(()),
            Err(_) => Err(SinkError::Memory),
        }
    }
}

impl Sink for MemSink {
    ghost written = { λ sink. Some sink.written };

    ghost faults = { λ sink. sink.calls.faults };

    fn write_all(&mut self, _alloc: Global, bytes: &[u8]) -> Result<(), SinkError>
        ensures cause { HasCause self.old.calls.faults self.new.calls.faults (result ≡ Err SinkError.Failed) }
        ensures told { (before : Sequence ℕ) → Some self.old.written ≡ Some before → WriteLeaves before bytes.now result (Some self.new.written) }
        ensures plan { FollowsPlan self.old.calls self.new.calls (result ≡ Err SinkError.Failed) (IsOk result) }
        ensures still { ¬ (result ≡ Err SinkError.Failed) → self.new.calls.faults ≡ self.old.calls.faults }
        ensures each { IsSome (planned self.old.calls) → (result ≡ Err SinkError.Failed) ⊎ (result ≡ Err SinkError.Memory) }
        ensures done { IfSome (planned self.old.calls) (λ fail. result ≡ Err SinkError.Failed → self.new.written ≡ (if fail.done then self.old.written ++ bytes.now else self.old.written)) }
    {
        match self.schedule.next_call() {
            None => self.append(bytes),
            Some(fail) => {
                if fail.done {
                    self.append(bytes)?;
                }
                self.schedule.fault();
                Err(SinkError::Failed)
            }
        }
    }
}

#[cfg(test)]
mod tests {
    use super::*;
    use std::test::Fail as TestFail;

    /// Three writes, of which the one of a number fails, before or after it took effect.
    #[test]
    fn keeps_what_was_written(rt: HostRuntime) -> Result<(), TestFail> {
        let alloc = rt.alloc();
        let cases = [
            (9, false, "abc"),
            (0, false, "c"),
            (0, true, "abc"),
            (1, true, "abc"),
            (2, false, "ab"),
            (2, true, "abc"),
        ];
        for (call, done, expected) in cases {
            let mut fails = List::new(alloc);
            fails.push(Fail { call, done })?;
            let mut sink = MemSink::new(alloc, fails);
            for (number, text) in [(0, "ab"), (1, ""), (2, "c")] {
                let outcome = sink.write_all(alloc, text.as_bytes());
                let failed = outcome == Err(SinkError::Failed);
                assert_eq!(rt; failed, number == call);
            }
            assert_eq!(rt; sink.bytes(), expected.as_bytes());
        }
        Ok(())
    }
}
