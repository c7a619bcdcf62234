//! The table is put in force, under a new index or a written one, on a device that is ready.
ghost use Rattle.std.specs.Prelude.{◌≡◌, ◌++◌, ℕ, true, List as Sequence, option_copied, Option as Maybe, Some, Ok, IfOk, IfErr, IfSome};
ghost use Rattle.std.specs.List.{Contains};
ghost use Rattle.hash_bank.specs.HashedString.{NoClash};
ghost use Rattle.policy_digest.specs.Table.{valid_table};
ghost use Rattle.policy_file.specs.PolicyText.{IsIndex, IsPolicy};
ghost use Rattle.pcrlock_line.specs.Causes.{HasCauses};
ghost use Rattle.pcrlock_line.specs.Machine.{Live, Tells, machine};
ghost use Rattle.pcrlock_line.specs.Outcome.{Fine, Gives, ending_of};
ghost use Rattle.pcrlock_line.specs.Stopped.{StandsAmong};
ghost use Rattle.pcrlock_update.specs.Update.{pinned_line};
ghost use Rattle.pcrlock_policy.specs.Asked.{target_of};
ghost use Rattle.pcrlock_policy.specs.Foreseen.{foreseen_of};
ghost use Rattle.pcrlock_policy.specs.MakePolicy.{fresh_line, handle_for as handle_of_policy, force_line, replaced_line, unchanged_text as text_of_unchanged, unsealing_line, written_line};

use crate::asked::Target;
use crate::foreseeing::Foreseen;
use crate::looking::{IndexState, look_up};
use crate::pin::unseal_pin;
use nv_index::{NvPublic, index_name};
use pcrlock_answer::Answer;
use pcrlock_line::{Reply, Stop};
use pcrlock_update::{
    Given, make_new_policy, pin_in, test_standing, update_policy, update_with_pin,
};
use pl_base::{Entropy, Files, Memory, Small};
use policy_file::Policy;
use std::alloc::Global;
use tpm_device::Tpm;

/// The handle of the policy file's index, where one is there, else that for a policy that no file names.
pub(crate) fn handle_for(target: &Target<'_>, found: Option<&Policy>) -> u32
    requires index { IsIndex target.now.index }
    requires found { IfSome (option_copied found) IsPolicy }
    ensures value { result ≡ handle_of_policy (target_of target.now) (option_copied found.entry) }
    ensures index { IsIndex result }
{
    match found {
        Some(policy) => policy.handle,
        None => target.index,
    }
}

/// A text with `unchanged` behind it.
#[tactic(auto, unfolding(crate::specs::MakePolicy::unchanged_text))]
fn with_unchanged(text: Vec<u8>) -> Result<Vec<u8>, Memory>
    ensures { IfOk result (λ whole. whole.items ≡ text.items ++ text_of_unchanged) }
{
    let mut text = text;
    text.extend_from_slice(b"unchanged\n")?;
    Ok(text)
}

/// Puts a new policy in force, in place of an unwritten index where one stands.
fn make_fresh<F: Files, T: Tpm, E: Entropy>(
    alloc: Global,
    files: &mut F,
    tpm: &mut T,
    entropy: &mut E,
    target: &Target<'_>,
    found: Option<&Policy>,
    stands: bool,
    foreseen: Foreseen,
) -> Result<Reply, Stop>
    requires readiness { T.ready tpm.old ≡ true }
    requires index { IsIndex target.now.index }
    requires found { IfSome (option_copied found) IsPolicy }
    requires table { valid_table foreseen.table ≡ true }
    ensures causes { HasCauses (F.faults files.old, E.faults entropy.old, T.faults tpm.old, 0) (F.faults files.new, E.faults entropy.new, T.faults tpm.new, 0) result }
    ensures told { (m : Live) → Tells (F.held files.old) (T.stored tpm.old) (E.draws entropy.old) (machine m) → T.live tpm.old ≡ Some m.state
        → IfOk result (λ reply. Gives (F.held files.new) (T.stored tpm.new) (E.draws entropy.new) reply (fresh_line (target_of target.now) (option_copied found.entry) stands (foreseen_of foreseen) m)) }
    ensures stops { (m : Live) → Tells (F.held files.old) (T.stored tpm.old) (E.draws entropy.old) (machine m) → T.live tpm.old ≡ Some m.state
        → IfErr result (λ _. StandsAmong (F.held files.new) (T.stored tpm.new) (fresh_line (target_of target.now) (option_copied found.entry) stands (foreseen_of foreseen) m).stops) }
{
    let Foreseen { table, text } = foreseen;
    let given = Given {
        path: target.path,
        index: handle_for(target, found),
        table: &table,
    };
    make_new_policy(
        alloc,
        files,
        tpm,
        entropy,
        &given,
        pin_in(found),
        stands,
        target.pin,
        text,
    )
}

/// Puts the table in force under the policy's index with the pin that the policy's object holds.
fn update_unsealed<F: Files, T: Tpm>(
    alloc: Global,
    files: &mut F,
    tpm: &mut T,
    target: &Target<'_>,
    policy: &Policy,
    foreseen: Foreseen,
    public: &NvPublic,
    content: &Small,
) -> Result<Reply, Stop>
    requires readiness { T.ready tpm.old ≡ true }
    requires policy { IsPolicy policy.now }
    requires table { valid_table foreseen.table ≡ true }
    ensures causes { HasCauses (F.faults files.old, 0, T.faults tpm.old, 0) (F.faults files.new, 0, T.faults tpm.new, 0) result }
    ensures told { (words : Maybe (Sequence (Sequence ℕ))) (m : Live) → Tells (F.held files.old) (T.stored tpm.old) words (machine m) → T.live tpm.old ≡ Some m.state
        → NoClash (Contains (unsealing_line (target_of target.now) policy.now (foreseen_of foreseen) public.now content.now m).hashed)
        → IfOk result (λ reply. Gives (F.held files.new) (T.stored tpm.new) words reply (unsealing_line (target_of target.now) policy.now (foreseen_of foreseen) public.now content.now m)) }
    ensures stops { (words : Maybe (Sequence (Sequence ℕ))) (m : Live) → Tells (F.held files.old) (T.stored tpm.old) words (machine m) → T.live tpm.old ≡ Some m.state
        → NoClash (Contains (unsealing_line (target_of target.now) policy.now (foreseen_of foreseen) public.now content.now m).hashed)
        → IfErr result (λ _. StandsAmong (F.held files.new) (T.stored tpm.new) (unsealing_line (target_of target.now) policy.now (foreseen_of foreseen) public.now content.now m).stops) }
{
    match unseal_pin(alloc, tpm, target.path, policy, public) {
        Ok(Ok(pin)) => {
            let Foreseen { table, text } = foreseen;
            update_policy(
                alloc,
                files,
                tpm,
                target.path,
                policy,
                &pin,
                content,
                &table,
                text,
            )
        }
        Ok(Err(answer)) => Ok(Reply::Refused(answer)),
        Err(stop) => Err(stop),
    }
}

/// Puts the table in force under a written index with the pin that was given.
fn update_given<F: Files, T: Tpm>(
    alloc: Global,
    files: &mut F,
    tpm: &mut T,
    target: &Target<'_>,
    pin: &[u8; 32],
    found: Option<&Policy>,
    foreseen: Foreseen,
    content: &Small,
) -> Result<Reply, Stop>
    requires readiness { T.ready tpm.old ≡ true }
    requires index { IsIndex target.now.index }
    requires found { IfSome (option_copied found) IsPolicy }
    requires table { valid_table foreseen.table ≡ true }
    ensures causes { HasCauses (F.faults files.old, 0, T.faults tpm.old, 0) (F.faults files.new, 0, T.faults tpm.new, 0) result }
    ensures told { (words : Maybe (Sequence (Sequence ℕ))) (m : Live) → Tells (F.held files.old) (T.stored tpm.old) words (machine m) → T.live tpm.old ≡ Some m.state
        → IfOk result (λ reply. Gives (F.held files.new) (T.stored tpm.new) words reply (pinned_line (foreseen_of foreseen).text target.now.path.now (option_copied found.entry) (handle_of_policy (target_of target.now) (option_copied found.entry)) pin.now content.now (foreseen_of foreseen).table m)) }
    ensures stops { (words : Maybe (Sequence (Sequence ℕ))) (m : Live) → Tells (F.held files.old) (T.stored tpm.old) words (machine m) → T.live tpm.old ≡ Some m.state
        → IfErr result (λ _. StandsAmong (F.held files.new) (T.stored tpm.new) (pinned_line (foreseen_of foreseen).text target.now.path.now (option_copied found.entry) (handle_of_policy (target_of target.now) (option_copied found.entry)) pin.now content.now (foreseen_of foreseen).table m).stops) }
{
    let Foreseen { table, text } = foreseen;
    let given = Given {
        path: target.path,
        index: handle_for(target, found),
        table: &table,
    };
    update_with_pin(alloc, files, tpm, &given, found, pin, content, text)
}

/// Puts the table in force under a written index that passed the tests.
fn replace<F: Files, T: Tpm>(
    alloc: Global,
    files: &mut F,
    tpm: &mut T,
    target: &Target<'_>,
    found: Option<&Policy>,
    foreseen: Foreseen,
    public: &NvPublic,
    content: &Small,
) -> Result<Reply, Stop>
    requires readiness { T.ready tpm.old ≡ true }
    requires index { IsIndex target.now.index }
    requires found { IfSome (option_copied found) IsPolicy }
    requires table { valid_table foreseen.table ≡ true }
    ensures causes { HasCauses (F.faults files.old, 0, T.faults tpm.old, 0) (F.faults files.new, 0, T.faults tpm.new, 0) result }
    ensures told { (words : Maybe (Sequence (Sequence ℕ))) (m : Live) → Tells (F.held files.old) (T.stored tpm.old) words (machine m) → T.live tpm.old ≡ Some m.state
        → NoClash (Contains (replaced_line (target_of target.now) (option_copied target.now.pin) (option_copied found.entry) (foreseen_of foreseen) public.now content.now m).hashed)
        → IfOk result (λ reply. Gives (F.held files.new) (T.stored tpm.new) words reply (replaced_line (target_of target.now) (option_copied target.now.pin) (option_copied found.entry) (foreseen_of foreseen) public.now content.now m)) }
    ensures stops { (words : Maybe (Sequence (Sequence ℕ))) (m : Live) → Tells (F.held files.old) (T.stored tpm.old) words (machine m) → T.live tpm.old ≡ Some m.state
        → NoClash (Contains (replaced_line (target_of target.now) (option_copied target.now.pin) (option_copied found.entry) (foreseen_of foreseen) public.now content.now m).hashed)
        → IfErr result (λ _. StandsAmong (F.held files.new) (T.stored tpm.new) (replaced_line (target_of target.now) (option_copied target.now.pin) (option_copied found.entry) (foreseen_of foreseen) public.now content.now m).stops) }
{
    match (target.pin, found) {
        (Some(pin), _) => update_given(alloc, files, tpm, target, pin, found, foreseen, content),
        (None, Some(policy)) => update_unsealed(
            alloc, files, tpm, target, policy, foreseen, public, content,
        ),
        (None, None) => Ok(Reply::Refused(Answer::IndexTaken {
            handle: public.handle,
            name: index_name(public),
        })),
    }
}

/// Says that nothing has to be changed.
fn unchanged(foreseen: Foreseen) -> Result<Reply, Stop>
    ensures told { IfOk result (λ reply. ending_of reply ≡ Fine ((foreseen_of foreseen).text ++ text_of_unchanged)) }
    ensures cause { IfErr result (λ stop. stop ≡ Stop.Memory) }
{
    match with_unchanged(foreseen.text) {
        Ok(text) => Ok(Reply::Fine(text)),
        Err(_) => Err(Stop::Memory),
    }
}

/// Tests a written index, and puts the table in force under it where something has to be changed.
fn put_over_written<F: Files, T: Tpm>(
    alloc: Global,
    files: &mut F,
    tpm: &mut T,
    target: &Target<'_>,
    found: Option<&Policy>,
    foreseen: Foreseen,
    public: &NvPublic,
    content: &Small,
) -> Result<Reply, Stop>
    requires readiness { T.ready tpm.old ≡ true }
    requires index { IsIndex target.now.index }
    requires found { IfSome (option_copied found) IsPolicy }
    requires table { valid_table foreseen.table ≡ true }
    ensures causes { HasCauses (F.faults files.old, 0, T.faults tpm.old, 0) (F.faults files.new, 0, T.faults tpm.new, 0) result }
    ensures told { (words : Maybe (Sequence (Sequence ℕ))) (m : Live) → Tells (F.held files.old) (T.stored tpm.old) words (machine m) → T.live tpm.old ≡ Some m.state
        → NoClash (Contains (written_line (target_of target.now) (option_copied found.entry) (foreseen_of foreseen) public.now content.now m).hashed)
        → IfOk result (λ reply. Gives (F.held files.new) (T.stored tpm.new) words reply (written_line (target_of target.now) (option_copied found.entry) (foreseen_of foreseen) public.now content.now m)) }
    ensures stops { (words : Maybe (Sequence (Sequence ℕ))) (m : Live) → Tells (F.held files.old) (T.stored tpm.old) words (machine m) → T.live tpm.old ≡ Some m.state
        → NoClash (Contains (written_line (target_of target.now) (option_copied found.entry) (foreseen_of foreseen) public.now content.now m).hashed)
        → IfErr result (λ _. StandsAmong (F.held files.new) (T.stored tpm.new) (written_line (target_of target.now) (option_copied found.entry) (foreseen_of foreseen) public.now content.now m).stops) }
{
    match test_standing(
        alloc,
        found,
        target.pin,
        target.force,
        public,
        content,
        &foreseen.table,
    ) {
        Ok(Ok(true)) => unchanged(foreseen),
        Ok(Ok(false)) => replace(alloc, files, tpm, target, found, foreseen, public, content),
        Ok(Err(answer)) => Ok(Reply::Refused(answer)),
        Err(_) => Err(Stop::Memory),
    }
}

/// Puts the table in force under the handle of the policy file's index, where one is there, else under the target's:
/// in place of what stands there.
pub(crate) fn put_in_force<F: Files, T: Tpm, E: Entropy>(
    alloc: Global,
    files: &mut F,
    tpm: &mut T,
    entropy: &mut E,
    target: &Target<'_>,
    found: Option<&Policy>,
    foreseen: Foreseen,
) -> Result<Reply, Stop>
    requires readiness { T.ready tpm.old ≡ true }
    requires index { IsIndex target.now.index }
    requires found { IfSome (option_copied found) IsPolicy }
    requires table { valid_table foreseen.table ≡ true }
    ensures causes { HasCauses (F.faults files.old, E.faults entropy.old, T.faults tpm.old, 0) (F.faults files.new, E.faults entropy.new, T.faults tpm.new, 0) result }
    ensures told { (m : Live) → Tells (F.held files.old) (T.stored tpm.old) (E.draws entropy.old) (machine m) → T.live tpm.old ≡ Some m.state
        → NoClash (Contains (force_line (target_of target.now) (option_copied found.entry) (Ok (foreseen_of foreseen)) m).hashed)
        → IfOk result (λ reply. Gives (F.held files.new) (T.stored tpm.new) (E.draws entropy.new) reply (force_line (target_of target.now) (option_copied found.entry) (Ok (foreseen_of foreseen)) m)) }
    ensures stops { (m : Live) → Tells (F.held files.old) (T.stored tpm.old) (E.draws entropy.old) (machine m) → T.live tpm.old ≡ Some m.state
        → NoClash (Contains (force_line (target_of target.now) (option_copied found.entry) (Ok (foreseen_of foreseen)) m).hashed)
        → IfErr result (λ _. StandsAmong (F.held files.new) (T.stored tpm.new) (force_line (target_of target.now) (option_copied found.entry) (Ok (foreseen_of foreseen)) m).stops) }
{
    match look_up(alloc, tpm, handle_for(target, found)) {
        Ok(IndexState::Missing) => make_fresh(
            alloc, files, tpm, entropy, target, found, false, foreseen,
        ),
        Ok(IndexState::Unwritten) => make_fresh(
            alloc, files, tpm, entropy, target, found, true, foreseen,
        ),
        Ok(IndexState::Written { public, content }) => put_over_written(
            alloc, files, tpm, target, found, foreseen, &public, &content,
        ),
        Err(stop) => Err(stop),
    }
}
