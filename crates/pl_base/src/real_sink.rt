ghost use Rattle.std.specs.Prelude.{◌≡◌, ℕ, Option, None, Some, List, Err, IsErr};
ghost use Rattle.pl_base.specs.Faults.{HasCause};
ghost use Rattle.pl_base.specs.Written.{WriteLeaves};

use crate::fault_count::FaultCount;
use crate::{Sink, SinkError};
use std::alloc::Global;
use std::io;

/// A sink that hands its bytes to a writer of the system, as standard output or standard error. It
/// tells nothing of them.
#[derive(Drop)]
pub struct RealSink<W> {
    writer: W,
    faults: FaultCount,
}

impl<W: io::Write> RealSink<W> {
    /// The sink over the writer.
    pub fn new(writer: W) -> RealSink<W> {
        RealSink {
            writer,
            faults: FaultCount::new(),
        }
    }
}

impl<W: io::Write> Sink for RealSink<W> {
    ghost written = { λ _. None };

    ghost faults = { λ sink. sink.faults };

    fn write_all(&mut self, _alloc: Global, bytes: &[u8]) -> Result<(), SinkError>
        ensures cause { HasCause self.old.faults self.new.faults (result ≡ Err SinkError.Failed) }
        ensures counts { HasCause self.old.faults self.new.faults (IsErr result) }
        ensures told { (before : List ℕ) → None ≡ Some before → WriteLeaves before bytes.now result None }
    {
        let outcome = self.writer.write_all(bytes).map_err(|_| SinkError::Failed);
        self.faults.counted(outcome)
    }
}

#[cfg(test)]
mod tests {
    use super::*;
    use std::fs;
    use std::test::Fail;

    /// A file that is open for writing, and one that is not.
    #[test]
    fn writes_to_the_system(rt: HostRuntime) -> Result<(), Fail> {
        let alloc = rt.alloc();
        let path = "real_sink_test";
        let mut sink = RealSink::new(fs::create(&rt, path)?);
        sink.write_all(alloc, b"first ")?;
        sink.write_all(alloc, b"second")?;
        assert_eq!(rt; fs::read_to_string(&rt, path)?.as_str(), "first second");

        let mut closed = RealSink::new(fs::open(&rt, path)?);
        assert_eq!(rt; closed.write_all(alloc, b"x"), Err(SinkError::Failed));
        fs::remove_file(&rt, path)?;
        Ok(())
    }
}
