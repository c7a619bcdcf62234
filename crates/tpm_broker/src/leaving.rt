//! The end of a client's sessions.
ghost use Rattle.std.specs.Prelude.{◌≡◌, ℕ, ◌<◌, ◌≤◌, true, [], length, slice_get, Some, Ok, Err, IfOk, IfSome, OnOk, OnErr};
ghost use Rattle.pl_base.specs.Faults.{HasCause};
ghost use Rattle.tpm_model.specs.declared.parts.Parts.{Parts};
ghost use Rattle.tpm_model.specs.Rules.{HasRules};
ghost use Rattle.tpm_device.specs.Stored.{Holds};
ghost use Rattle.tpm_broker.specs.Clients.{without_all, without_first};
ghost use Rattle.tpm_broker.specs.Leaving.{FlushGives, FlushStores, LeaveGives, LeaveStores};
ghost use Rattle.tpm_broker.specs.Served.{still_ready};

use crate::rows::Rows;
use std::alloc::Global;
use tpm_device::{ExecError, Tpm};
use tpm_model::Command;

/// Ends the client's first session.
fn flush_first<T: Tpm>(alloc: Global, rows: &mut Rows, tpm: &mut T) -> Result<(), ExecError>
    requires readiness { T.ready tpm.old ≡ true }
    requires one { 0 < length rows.old.sessions }
    ensures cause { HasCause (T.faults tpm.old) (T.faults tpm.new) (result ≡ Err ExecError.Failed) }
    ensures readiness { T.ready tpm.new ≡ still_ready result }
    ensures left { OnOk result (rows.new ≡ without_first 1 rows.old) }
    ensures stopped { OnErr result (rows.new ≡ rows.old) }
    ensures told { (s : Parts) → T.live tpm.old ≡ Some s → FlushGives (slice_get rows.old.sessions 0) s result (T.live tpm.new) }
    ensures rules { (s : Parts) → T.live tpm.old ≡ Some s → HasRules s → IfSome (T.live tpm.new) HasRules }
    ensures stored { (s : Parts) → T.live tpm.old ≡ Some s → T.stored tpm.old ≡ Some (Holds s) → FlushStores (slice_get rows.old.sessions 0) s result (T.stored tpm.new) }
{
    let Some(session) = rows.first() else {
        unreachable!()
    };
    match tpm.execute(alloc, &Command::FlushSession { session }) {
        Ok(_) => {
            rows.end_first();
            Ok(())
        }
        Err(stop) => Err(stop),
    }
}

/// Ends the client's sessions in order, and gives their number.
pub(crate) fn flush_all<T: Tpm>(
    alloc: Global,
    rows: &mut Rows,
    tpm: &mut T,
) -> Result<u32, ExecError>
    requires { T.ready tpm.old ≡ true }
    ensures cause { HasCause (T.faults tpm.old) (T.faults tpm.new) (result ≡ Err ExecError.Failed) }
    ensures readiness { T.ready tpm.new ≡ still_ready result }
    ensures count { IfOk result (λ count. count ≡ length rows.old.sessions) }
    ensures left { OnOk result (rows.new ≡ without_all rows.old) }
    ensures untouched { rows.old.sessions ≡ [] → (result ≡ Ok 0) × (tpm.new ≡ tpm.old) }
    ensures told { (n : ℕ) × (n ≤ length rows.old.sessions) × (rows.new ≡ without_first n rows.old)
        × ((s : Parts) → T.live tpm.old ≡ Some s → LeaveGives rows.old.sessions n s result (T.live tpm.new)) }
    ensures rules { (s : Parts) → T.live tpm.old ≡ Some s → HasRules s → IfSome (T.live tpm.new) HasRules }
    ensures stored { (s : Parts) → T.live tpm.old ≡ Some s → T.stored tpm.old ≡ Some (Holds s) → LeaveStores rows.old.sessions s result (T.stored tpm.new) }
{
    let count = rows.count();
    for _ in 0..count {
        match flush_first(alloc, rows, tpm) {
            Ok(()) => {}
            Err(stop) => return Err(stop),
        }
    }
    Ok(count as u32)
}
