//! What a command says: its text on standard output, or its answer on standard error.
ghost use Rattle.std.specs.Prelude.{◌≡◌, ◌≤◌, ◌++◌, [], ℕ, Some, Option, List as Sequence, OnOk};
ghost use Rattle.pl_base.specs.Faults.{Rose};
ghost use Rattle.pcrlock_answer.specs.Texts.{answer_text};
ghost use Rattle.pcrlock_line.specs.Causes.{HasCauses};
ghost use Rattle.pcrlock_line.specs.Outcome.{ending_of};
ghost use Rattle.pcrlock_answer.specs.Texts.{status_text};
ghost use Rattle.std.specs.Prelude.{IfOk, IfErr};
ghost use Rattle.pcrlock_line.specs.declared.stop.Stop.TheVariants.{Memory as OutOfMemory};
ghost use Rattle.pcrlock_run.specs.Status.{out_of, err_of, number_of, status_of, refusal_status};
ghost use Rattle.pcrlock_run.specs.Says.{Says};
ghost use Rattle.pcrlock_run.specs.Fronts.{Gains, Halted, IsShowing, IsWriting};

use crate::status::Status;
use pcrlock_line::{Reply, Stop};
use pcrlock_words::{Answer, answer_line, status_line};
use pl_base::{Memory, Sink, SinkError};
use std::alloc::Global;

/// Writes the bytes on standard output, in one write.
pub fn write<O: Sink>(alloc: Global, out: &mut O, bytes: &[u8]) -> Result<(), Stop>
    ensures causes { HasCauses (0, 0, 0, O.faults out.old) (0, 0, 0, O.faults out.new) result }
    ensures told { (before : Sequence ℕ) → O.written out.old ≡ Some before → OnOk result (O.written out.new ≡ Some (before ++ bytes.now)) }
    ensures front { IfErr result (λ _. Gains (O.faults out.old) (O.faults out.new) (O.written out.old) (O.written out.new) bytes.now) }
{
    match out.write_all(alloc, bytes) {
        Ok(()) => Ok(()),
        Err(SinkError::Failed) => Err(Stop::WriteFault),
        Err(SinkError::Memory) => Err(Stop::Memory),
    }
}

/// Writes the answer's line on standard error. A failing write changes nothing else.
pub fn tell<R: Sink>(alloc: Global, err: &mut R, answer: &Answer) -> Result<(), Memory>
    ensures later { R.faults err.old ≤ R.faults err.new }
    ensures told { (before : Sequence ℕ) → R.written err.old ≡ Some before → ¬ Rose (R.faults err.old) (R.faults err.new)
        → OnOk result (R.written err.new ≡ Some (before ++ answer_text answer.now)) }
    ensures unsaid { IfErr result (λ _. Says (R.faults err.old) (R.written err.old) (R.faults err.new) (R.written err.new) []) }
{
    let line = answer_line(alloc, answer)?;
    match err.write_all(alloc, line.as_slice()) {
        Ok(()) => Ok(()),
        Err(SinkError::Failed) => Ok(()),
        Err(SinkError::Memory) => Err(Memory),
    }
}

/// Writes the text of a reply on standard output, or its answer on standard error.
pub fn show<O: Sink, R: Sink>(
    alloc: Global,
    reply: &Reply,
    out: &mut O,
    err: &mut R,
) -> Result<(), Stop>
    ensures causes { HasCauses (0, 0, 0, O.faults out.old) (0, 0, 0, O.faults out.new) result }
    ensures told { (before : Sequence ℕ) → O.written out.old ≡ Some before → OnOk result (O.written out.new ≡ Some (before ++ out_of (ending_of reply.now))) }
    ensures later { R.faults err.old ≤ R.faults err.new }
    ensures said { (before : Sequence ℕ) → R.written err.old ≡ Some before → ¬ Rose (R.faults err.old) (R.faults err.new)
        → OnOk result (R.written err.new ≡ Some (before ++ err_of (ending_of reply.now))) }
    ensures halts { IfErr result (λ _. Halted (IsWriting (O.faults out.old) (O.faults out.new) (ending_of reply.now)) (O.written out.old) (O.written out.new) (R.faults err.old) (R.written err.old) (R.faults err.new) (R.written err.new)) }
{
    match reply {
        Reply::Fine(text) => write(alloc, out, text.as_slice()),
        Reply::Refused(answer) => {
            tell(alloc, err, answer)?;
            Ok(())
        }
    }
}

/// Tells the answer of a command that didn't do its work.
pub fn refuse<R: Sink>(alloc: Global, answer: &Answer, err: &mut R) -> Result<Status, Stop>
    ensures told { IfOk result (λ status. number_of status ≡ refusal_status answer.now) }
    ensures said { IfOk result (λ _. Says (R.faults err.old) (R.written err.old) (R.faults err.new) (R.written err.new) (answer_text answer.now)) }
    ensures cause { IfErr result (λ stop. stop ≡ OutOfMemory) }
    ensures unsaid { IfErr result (λ _. Says (R.faults err.old) (R.written err.old) (R.faults err.new) (R.written err.new) []) }
{
    match tell(alloc, err, answer) {
        Ok(()) => Ok(Status::of_answer(answer)),
        Err(Memory) => Err(Stop::Memory),
    }
}

/// Writes what a command says, and gives its status.
pub fn show_alone<O: Sink, R: Sink>(
    alloc: Global,
    reply: &Reply,
    out: &mut O,
    err: &mut R,
) -> Result<Status, Stop>
    ensures causes { HasCauses (0, 0, 0, O.faults out.old) (0, 0, 0, O.faults out.new) result }
    ensures status { IfOk result (λ status. number_of status ≡ status_of (ending_of reply.now)) }
    ensures told { (before : Sequence ℕ) → O.written out.old ≡ Some before → IfOk result (λ _. O.written out.new ≡ Some (before ++ out_of (ending_of reply.now))) }
    ensures said { IfOk result (λ _. Says (R.faults err.old) (R.written err.old) (R.faults err.new) (R.written err.new) (err_of (ending_of reply.now))) }
    ensures halts { IfErr result (λ _. Halted (IsWriting (O.faults out.old) (O.faults out.new) (ending_of reply.now)) (O.written out.old) (O.written out.new) (R.faults err.old) (R.written err.old) (R.faults err.new) (R.written err.new)) }
{
    match show(alloc, reply, out, err) {
        Ok(()) => Ok(Status::of_reply(reply)),
        Err(stop) => Err(stop),
    }
}

/// Writes the mark of a line of this status.
fn mark<O: Sink>(alloc: Global, status: Status, out: &mut O) -> Result<(), Stop>
    ensures causes { HasCauses (0, 0, 0, O.faults out.old) (0, 0, 0, O.faults out.new) result }
    ensures told { (before : Sequence ℕ) → O.written out.old ≡ Some before → OnOk result (O.written out.new ≡ Some (before ++ status_text (number_of status))) }
    ensures front { IfErr result (λ _. Gains (O.faults out.old) (O.faults out.new) (O.written out.old) (O.written out.new) (status_text (number_of status))) }
{
    let text = status_line(alloc, status.number())?;
    write(alloc, out, text.as_slice())
}

/// Writes what a line of a script says and its mark, and gives its status.
pub fn show_marked<O: Sink, R: Sink>(
    alloc: Global,
    reply: &Reply,
    out: &mut O,
    err: &mut R,
) -> Result<Status, Stop>
    ensures causes { HasCauses (0, 0, 0, O.faults out.old) (0, 0, 0, O.faults out.new) result }
    ensures status { IfOk result (λ status. number_of status ≡ status_of (ending_of reply.now)) }
    ensures told { (before : Sequence ℕ) → O.written out.old ≡ Some before
        → IfOk result (λ status. O.written out.new ≡ Some ((before ++ out_of (ending_of reply.now)) ++ status_text (number_of status))) }
    ensures said { IfOk result (λ _. Says (R.faults err.old) (R.written err.old) (R.faults err.new) (R.written err.new) (err_of (ending_of reply.now))) }
    ensures halts { IfErr result (λ _. Halted (IsShowing (O.faults out.old) (O.faults out.new) (ending_of reply.now)) (O.written out.old) (O.written out.new) (R.faults err.old) (R.written err.old) (R.faults err.new) (R.written err.new)) }
{
    match show_alone(alloc, reply, out, err) {
        Ok(status) => match mark(alloc, status, out) {
            Ok(()) => Ok(status),
            Err(stop) => Err(stop),
        },
        Err(stop) => Err(stop),
    }
}
