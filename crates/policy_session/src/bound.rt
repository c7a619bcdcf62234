//! Opening an object that is bound to an index.
ghost use Rattle.std.specs.Prelude.{◌≡◌, ◌≢◌, ℕ, Bool, true, List, Contains, Option, Some, Ok, Err, IfOk, IfErr, IfSome};
ghost use Rattle.pl_base.specs.Faults.{HasCause};
ghost use Rattle.hash_bank.specs.Banks.{has_bank};
ghost use Rattle.hash_bank.specs.HashedString.{HashedString, NoClash};
ghost use Rattle.hash_bank.specs.declared.bank.Bank.TheVariants.{Sha256};
ghost use Rattle.nv_index.specs.IndexName.{index_name_of};
ghost use Rattle.nv_index.specs.Table.{index_at};
ghost use Rattle.nv_index.specs.declared.index.NvPublic.{NvPublic};
ghost use Rattle.nv_index.specs.declared.index.Written.{Written};
ghost use Rattle.policy_digest.specs.declared.table.Table.{Table};
ghost use Rattle.policy_digest.specs.Plain.{plain_table};
ghost use Rattle.policy_digest.specs.Policies.{policy_authorize_nv_of};
ghost use Rattle.policy_digest.specs.TableStrings.{table_strings};
ghost use Rattle.policy_file.specs.TokenText.{IsObject};
ghost use Rattle.policy_walk.specs.Choosing.{content_of};
ghost use Rattle.policy_walk.specs.Walking.{walk_command, walked_by};
ghost use Rattle.tpm_model.specs.declared.parts.Parts.{Parts};
ghost use Rattle.tpm_model.specs.declared.response.Response.{Response as Answer};
ghost use Rattle.tpm_model.specs.declared.sessions.Session.{Session};
ghost use Rattle.tpm_model.specs.Respond.{respond};
ghost use Rattle.tpm_model.specs.Rules.{HasRules};
ghost use Rattle.tpm_model.specs.Sessions.{object_at};
ghost use Rattle.policy_session.specs.Answers.{is_answer as answers};
ghost use Rattle.policy_session.specs.BoundUnseal.{AreAmong, IsNeverLiteral, IsPrepared, bound_end, bound_strings, foreseen_end, kept_for as kept_for_of, refused_for as refused_for_of, secret_or as secret_or_of, opened_bound, opened_from, stopped_with, unmet_in, walk_from};
ghost use Rattle.policy_session.specs.Kept.{IsKept};
ghost use Rattle.policy_session.specs.LiteralUnseal.{after_unseal, opened_by};
ghost use Rattle.policy_session.specs.OpenSession.{IsOpen, closed, start_answer, start_leaves, with_open};
ghost use Rattle.policy_session.specs.Responses.{done};
ghost use Rattle.policy_session.specs.Ran.{Gives, Ran};
ghost use Rattle.tpm_device.specs.Running.{IsLive};
ghost use Rattle.policy_session.specs.Standing.{IsAuthorised, IsOut, StandsAt, StandsPast, comes_to};

use crate::UnsealError;
use crate::present::read_present;
use crate::steps::ask;
use hash_bank::Bank;
use pl_base::Small;
use policy_walk::{
    Authorised, Branched, Finished, Prepared, StartRefusal, Started, Stopped, Walk, Why,
};
use std::alloc::Global;
use tpm_device::Tpm;
use tpm_model::Response;

/// Gives a walk's next command, and spends the walk with its answer.
fn advance<T: Tpm>(
    alloc: Global,
    tpm: &mut T,
    started: Started,
) -> Result<Result<Walk, Stopped>, UnsealError>
    requires { T.ready tpm.old ≡ true }
    ensures cause { HasCause (T.faults tpm.old) (T.faults tpm.new) (result ≡ Err UnsealError.Failed) }
    ensures never { IfErr result IsNeverLiteral }
    ensures readiness { answers result ≡ true → T.ready tpm.new ≡ true }
    ensures answer { IfOk result (λ walk. (response : Answer) × (walk ≡ walked_by started response)) }
    ensures ran { (base s : Parts) (keeps : Bool) → IsLive keeps s (T.live tpm.old) (T.stored tpm.old)
        → IsKept base s → IsKept base (respond (walk_command started) s).1
        → Ran base keeps (λ walk after. (walk ≡ Ok (walked_by started (respond (walk_command started) s).0)) × (after ≡ (respond (walk_command started) s).1))
        result (T.ready tpm.new) (T.live tpm.new) (T.stored tpm.new) }
{
    match ask(alloc, tpm, &started.command()) {
        Ok(response) => Ok(started.take(&response)),
        Err(error) => Err(error),
    }
}

/// Walks over the rows of a table that are left.
fn walk_rows<T: Tpm>(
    alloc: Global,
    tpm: &mut T,
    started: Started,
) -> Result<Result<Branched, Stopped>, UnsealError>
    requires { T.ready tpm.old ≡ true }
    ensures cause { HasCause (T.faults tpm.old) (T.faults tpm.new) (result ≡ Err UnsealError.Failed) }
    ensures never { IfErr result IsNeverLiteral }
    ensures readiness { answers result ≡ true → T.ready tpm.new ≡ true }
    ensures ran { (s : Parts) (x : Session) (keeps : Bool) → IsLive keeps (with_open x s) (T.live tpm.old) (T.stored tpm.old) → StandsAt started x s
        → Ran s keeps (IsOut started.plan started.index started.session s (comes_to started.plan s x.digest started.row started.step))
        result (T.ready tpm.new) (T.live tpm.new) (T.stored tpm.new) }
{
    let mut walk = started;
    'rows: loop {
        match advance(alloc, tpm, walk) {
            Ok(Ok(Walk::Started(next))) => walk = next,
            Ok(Ok(Walk::Branched(branched))) => return Ok(Ok(branched)),
            Ok(Err(stopped)) => return Ok(Err(stopped)),
            Err(error) => return Err(error),
        }
    }
}

/// PolicyAuthorizeNV of a session that is past all rows.
fn authorise<T: Tpm>(
    alloc: Global,
    tpm: &mut T,
    branched: Branched,
) -> Result<Result<Authorised, Stopped>, UnsealError>
    requires { T.ready tpm.old ≡ true }
    ensures cause { HasCause (T.faults tpm.old) (T.faults tpm.new) (result ≡ Err UnsealError.Failed) }
    ensures never { IfErr result IsNeverLiteral }
    ensures readiness { answers result ≡ true → T.ready tpm.new ≡ true }
    ensures ran { (s : Parts) (x : Session) (keeps : Bool) (public : NvPublic) (written : Written) → IsLive keeps (with_open x s) (T.live tpm.old) (T.stored tpm.old)
        → StandsPast branched x s → index_at branched.index s.indices ≡ Some (record { public = public; written = Some written }) → written.value ≡ content_of x.digest
        → Ran s keeps (IsAuthorised branched public s) result (T.ready tpm.new) (T.live tpm.new) (T.stored tpm.new) }
{
    match ask(alloc, tpm, &branched.command()) {
        Ok(response) => Ok(branched.take(&response)),
        Err(error) => Err(error),
    }
}

/// Whether a session was ended.
fn is_done(response: &Response) -> bool
    ensures { result ≡ done response.now }
{
    matches!(response, Response::Done)
}

/// Ends a walk's session, and gives what the walk came to.
fn close<T: Tpm>(
    alloc: Global,
    tpm: &mut T,
    stopped: Stopped,
    answer: Result<Small, UnsealError>,
) -> Result<Small, UnsealError>
    requires readiness { T.ready tpm.old ≡ true }
    requires answer { answer ≢ Err UnsealError.Failed }
    requires never { IfErr answer IsNeverLiteral }
    ensures cause { HasCause (T.faults tpm.old) (T.faults tpm.new) (result ≡ Err UnsealError.Failed) }
    ensures never { IfErr result IsNeverLiteral }
    ensures readiness { answers result ≡ true → T.ready tpm.new ≡ true }
    ensures ran { (s : Parts) (x : Session) (keeps : Bool) → IsLive keeps (with_open x s) (T.live tpm.old) (T.stored tpm.old) → IsOpen stopped.session x s
        → Ran s keeps (Gives answer (closed s)) result (T.ready tpm.new) (T.live tpm.new) (T.stored tpm.new) }
{
    match ask(alloc, tpm, &stopped.command()) {
        Ok(response) => {
            let ended = is_done(&response);
            stopped.flush(&response);
            if ended {
                answer
            } else {
                Err(UnsealError::Memory)
            }
        }
        Err(error) => {
            stopped.give_up();
            Err(error)
        }
    }
}

/// The secret, or why the object kept it.
fn secret_or(secret: Option<Small>, why: Option<Why>) -> Result<Small, UnsealError>
    ensures value { result ≡ secret_or_of secret why }
    ensures cause { result ≢ Err UnsealError.Failed }
    ensures never { IfErr result IsNeverLiteral }
{
    match secret {
        Some(secret) => Ok(secret),
        None => Err(kept_for(&why)),
    }
}

/// Why an object kept its secret.
fn kept_for(why: &Option<Why>) -> UnsealError
    ensures value { result ≡ kept_for_of why.now }
    ensures cause { result ≢ UnsealError.Failed }
    ensures never { IsNeverLiteral result }
{
    match why {
        Some(Why::WrongBinding { session, object }) => UnsealError::WrongBinding {
            session: *session,
            object: *object,
        },
        Some(Why::NoObject(object)) => UnsealError::NoObject(*object),
        _ => UnsealError::Memory,
    }
}

/// Unseals the object on a session that the index authorised, and ends the session.
fn finish<T: Tpm>(
    alloc: Global,
    tpm: &mut T,
    authorised: Authorised,
    object: u32,
) -> Result<Small, UnsealError>
    requires readiness { T.ready tpm.old ≡ true }
    requires object { IsObject object }
    ensures cause { HasCause (T.faults tpm.old) (T.faults tpm.new) (result ≡ Err UnsealError.Failed) }
    ensures never { IfErr result IsNeverLiteral }
    ensures readiness { answers result ≡ true → T.ready tpm.new ≡ true }
    ensures ran { (s : Parts) (x : Session) (keeps : Bool) → IsLive keeps (with_open x s) (T.live tpm.old) (T.stored tpm.old) → IsOpen authorised.session x s → x.noted ≡ Some s.update_counter
        → Ran s keeps (Gives (opened_by x.digest object (object_at object s.objects)) (closed s)) result (T.ready tpm.new) (T.live tpm.new) (T.stored tpm.new) }
{
    match ask(alloc, tpm, &authorised.command(object)) {
        Ok(response) => {
            let Finished { secret, stopped } = authorised.take(object, &response);
            let answer = secret_or(secret, stopped.why());
            close(alloc, tpm, stopped, answer)
        }
        Err(error) => Err(error),
    }
}

/// Opens the object on a session that is past all rows, and ends the session.
fn open<T: Tpm>(
    alloc: Global,
    tpm: &mut T,
    branched: Branched,
    object: u32,
) -> Result<Small, UnsealError>
    requires readiness { T.ready tpm.old ≡ true }
    requires object { IsObject object }
    ensures cause { HasCause (T.faults tpm.old) (T.faults tpm.new) (result ≡ Err UnsealError.Failed) }
    ensures never { IfErr result IsNeverLiteral }
    ensures readiness { answers result ≡ true → T.ready tpm.new ≡ true }
    ensures ran { (s : Parts) (x : Session) (keeps : Bool) (public : NvPublic) (written : Written) → IsLive keeps (with_open x s) (T.live tpm.old) (T.stored tpm.old)
        → StandsPast branched x s → index_at branched.index s.indices ≡ Some (record { public = public; written = Some written }) → written.value ≡ content_of x.digest
        → Ran s keeps (Gives (opened_by (policy_authorize_nv_of Sha256 (index_name_of public)) object (object_at object s.objects)) (closed s)) result (T.ready tpm.new) (T.live tpm.new) (T.stored tpm.new) }
{
    match authorise(alloc, tpm, branched) {
        Ok(Ok(authorised)) => finish(alloc, tpm, authorised, object),
        Ok(Err(stopped)) => close(alloc, tpm, stopped, Err(UnsealError::Memory)),
        Err(error) => Err(error),
    }
}

/// The mask of a row that isn't met, where that is why a walk stopped.
fn unmet(why: &Option<Why>) -> Option<u32>
    ensures { result ≡ unmet_in why.now }
{
    match why {
        Some(Why::NotForeseen(pcrs)) => Some(*pcrs),
        _ => None,
    }
}

/// The answer where a walk stopped for another reason.
fn refused_for(why: &Option<Why>) -> UnsealError
    ensures value { result ≡ refused_for_of why.now }
    ensures cause { result ≢ UnsealError.Failed }
    ensures never { IsNeverLiteral result }
{
    match why {
        Some(Why::BankAbsent(bank)) => UnsealError::BankAbsent(*bank),
        _ => UnsealError::Memory,
    }
}

/// Ends the session of a walk that stopped at a row, and tells why; the values of a row that isn't met are read first.
fn refuse<T: Tpm>(
    alloc: Global,
    tpm: &mut T,
    bank: Bank,
    stopped: Stopped,
) -> Result<Small, UnsealError>
    requires { T.ready tpm.old ≡ true }
    ensures cause { HasCause (T.faults tpm.old) (T.faults tpm.new) (result ≡ Err UnsealError.Failed) }
    ensures never { IfErr result IsNeverLiteral }
    ensures readiness { answers result ≡ true → T.ready tpm.new ≡ true }
    ensures ran { (s : Parts) (x : Session) (keeps : Bool) → IsLive keeps (with_open x s) (T.live tpm.old) (T.stored tpm.old) → IsOpen stopped.session x s
        → IfSome (unmet_in stopped.why) (λ _. has_bank s.banks bank ≡ true)
        → Ran s keeps (Gives (Err (stopped_with bank s stopped.why (unmet_in stopped.why))) (closed s)) result (T.ready tpm.new) (T.live tpm.new) (T.stored tpm.new) }
{
    let why = stopped.why();
    match unmet(&why) {
        Some(pcrs) => match read_present(alloc, tpm, bank, pcrs) {
            Ok(now) => close(
                alloc,
                tpm,
                stopped,
                Err(UnsealError::NotForeseen { pcrs, now }),
            ),
            Err(error) => {
                stopped.give_up();
                Err(error)
            }
        },
        None => close(alloc, tpm, stopped, Err(refused_for(&why))),
    }
}

/// Walks over the rows that are left, and opens the object behind them; the session is ended either way.
fn walk<T: Tpm>(
    alloc: Global,
    tpm: &mut T,
    bank: Bank,
    started: Started,
    object: u32,
) -> Result<Small, UnsealError>
    requires readiness { T.ready tpm.old ≡ true }
    requires bank { bank ≡ started.plan.bank }
    requires object { IsObject object }
    ensures cause { HasCause (T.faults tpm.old) (T.faults tpm.new) (result ≡ Err UnsealError.Failed) }
    ensures never { IfErr result IsNeverLiteral }
    ensures readiness { answers result ≡ true → T.ready tpm.new ≡ true }
    ensures ran { (s : Parts) (x : Session) (keeps : Bool) (public : NvPublic) (written : Written) → IsLive keeps (with_open x s) (T.live tpm.old) (T.stored tpm.old)
        → StandsAt started x s → index_at started.index s.indices ≡ Some (record { public = public; written = Some written })
        → IfOk (comes_to started.plan s x.digest started.row started.step) (λ digest. written.value ≡ content_of digest)
        → Ran s keeps (Gives (opened_from started.plan.bank public object s (comes_to started.plan s x.digest started.row started.step)) (closed s)) result (T.ready tpm.new) (T.live tpm.new) (T.stored tpm.new) }
{
    match walk_rows(alloc, tpm, started) {
        Ok(Ok(branched)) => open(alloc, tpm, branched, object),
        Ok(Err(stopped)) => refuse(alloc, tpm, bank, stopped),
        Err(error) => Err(error),
    }
}

/// Starts the session of a walk.
fn start_walk<T: Tpm>(
    alloc: Global,
    tpm: &mut T,
    prepared: Prepared,
) -> Result<Started, UnsealError>
    requires { T.ready tpm.old ≡ true }
    ensures cause { HasCause (T.faults tpm.old) (T.faults tpm.new) (result ≡ Err UnsealError.Failed) }
    ensures never { IfErr result IsNeverLiteral }
    ensures readiness { answers result ≡ true → T.ready tpm.new ≡ true }
    ensures bank { IfOk result (λ started. started.plan.bank ≡ prepared.plan.bank) }
    ensures rules { (s : Parts) → T.live tpm.old ≡ Some s → HasRules s }
    ensures ran { (s : Parts) (keeps : Bool) → IsLive keeps s (T.live tpm.old) (T.stored tpm.old)
        → Ran s keeps (Gives (walk_from prepared (start_answer s)) (start_leaves Sha256 s)) result (T.ready tpm.new) (T.live tpm.new) (T.stored tpm.new) }
{
    match ask(alloc, tpm, &prepared.command()) {
        Ok(response) => match prepared.take(&response) {
            Ok(started) => Ok(started),
            Err(StartRefusal::SessionsFull) => Err(UnsealError::SessionsFull),
            Err(StartRefusal::HandlesEnd) => Err(UnsealError::HandlesEnd),
        },
        Err(error) => Err(error),
    }
}

/// Opens an object that is bound to an index, by a walk that was prepared for what the index holds (TPM 2.0 Library
/// Part 1, "Policy Sessions"): starts a session of SHA-256, goes over the rows of the table, has the index authorise
/// the session, and asks for the object's secret. The session's digest is compared with the leaves of each row, and
/// never a PCR's value.
///
/// The refusals are, in this order: `SessionsFull`, `HandlesEnd`, `BankAbsent`, `NotForeseen`, `NoObject` and
/// `WrongBinding`; `NotLiteral` never comes. `NotForeseen` has the mask of the first row that isn't met, and the value
/// of its PCR, or for several PCRs the digest of their values. After the secret or a refusal the open sessions are
/// those from before. After `Failed` and `Memory` the session may stay open; nothing else has changed. The object's
/// handle is from 0x81000000 to 0x817fffff.
pub fn unseal_bound<T: Tpm>(
    alloc: Global,
    tpm: &mut T,
    prepared: Prepared,
    object: u32,
) -> Result<Small, UnsealError>
    requires readiness { T.ready tpm.old ≡ true }
    requires object { IsObject object }
    ensures cause { HasCause (T.faults tpm.old) (T.faults tpm.new) (result ≡ Err UnsealError.Failed) }
    ensures never { IfErr result IsNeverLiteral }
    ensures readiness { answers result ≡ true → T.ready tpm.new ≡ true }
    ensures ran { (s : Parts) (table : Table) (public : NvPublic) (keeps : Bool) → IsLive keeps s (T.live tpm.old) (T.stored tpm.old) → IsPrepared prepared table public s
        → Ran s keeps (Gives (opened_bound table.bank public object (bound_end (plain_table table) s) s) (after_unseal s)) result (T.ready tpm.new) (T.live tpm.new) (T.stored tpm.new) }
    ensures rules { (s : Parts) → T.live tpm.old ≡ Some s → HasRules (after_unseal s) }
    // by the values of the PCRs, where none of the strings of the table and of the walk clash
    ensures foreseen { (s : Parts) (table : Table) (public : NvPublic) (hashed : List HashedString) → IsPrepared prepared table public s → NoClash (Contains hashed)
        → AreAmong hashed (table_strings (plain_table table)) → AreAmong hashed (bound_strings (plain_table table) s)
        → bound_end (plain_table table) s ≡ foreseen_end (plain_table table) s }
{
    let bank = prepared.bank();
    match start_walk(alloc, tpm, prepared) {
        Ok(started) => walk(alloc, tpm, bank, started, object),
        Err(error) => Err(error),
    }
}
