//! The pin that the policy file's object holds.
ghost use Rattle.std.specs.Prelude.{◌≡◌, ◌≢◌, true, length, MatchOption, IfOk};
ghost use Rattle.std.specs.List.{Contains};
ghost use Rattle.std.specs.Str.{bytes_eq};
ghost use Rattle.hash_bank.specs.HashedString.{NoClash};
ghost use Rattle.policy_digest.specs.Pin.{pin_policy_of};
ghost use Rattle.policy_file.specs.PolicyText.{IsPolicy};
ghost use Rattle.policy_session.specs.Kept.{Kept};
ghost use Rattle.tpm_model.specs.declared.parts.Parts.{Parts};
ghost use Rattle.pcrlock_line.specs.Causes.{HasCauses};
ghost use Rattle.pcrlock_line.specs.Running.{Runs};
ghost use Rattle.pcrlock_open.specs.Bound.{held_after, held_by, held_opened, held_strings};
ghost use Rattle.pcrlock_open.specs.BoundEndings.{IsOpenedSo};
ghost use Rattle.pcrlock_policy.specs.MakePolicy.{pin_by, pin_or_malformed};

use nv_index::NvPublic;
use pcrlock_answer::{Answer, malformed_at};
use pcrlock_line::Stop;
use pcrlock_open::open_secret;
use pl_base::{Memory, Name, Small};
use policy_digest::pin_policy;
use policy_file::Policy;
use std::alloc::Global;
use tpm_device::Tpm;

/// The place of the pin object's handle in a policy file.
const PIN_OBJECT_PLACE: u32 = 44;

/// The bytes as 32 bytes, if they are so many.
fn thirty_two(bytes: &[u8]) -> Option<[u8; 32]>
    ensures { MatchOption result (length bytes.now ≢ 32) (λ word. (length bytes.now ≡ 32) × (word ≡ bytes.now)) }
{
    if bytes.len() != 32 {
        return None;
    }
    let mut word = [0; 32];
    word.copy_from_slice(bytes);
    Some(word)
}

/// Whether the index is written with the pin.
fn is_pin_of(pin: &[u8; 32], public: &NvPublic) -> bool
    ensures { result ≡ bytes_eq (pin_policy_of pin.now) public.now.policy }
{
    pin_policy(pin).as_slice() == public.policy.as_slice()
}

/// The bytes that were unsealed, if they are the pin of the index; else the policy file at the path is malformed where
/// the object's handle stands.
fn pin_in(
    alloc: Global,
    path: &Name,
    public: &NvPublic,
    bytes: &Small,
) -> Result<Result<[u8; 32], Answer>, Memory>
    ensures { IfOk result (λ pin. pin ≡ pin_or_malformed path.now public.now bytes.now) }
{
    match thirty_two(bytes.as_slice()) {
        Some(pin) if is_pin_of(&pin, public) => Ok(Ok(pin)),
        _ => Ok(Err(malformed_at(alloc, path.text(), PIN_OBJECT_PLACE)?)),
    }
}

/// Unseals the pin from the object that the policy file at the path names, on the ready device, as a key is unsealed.
/// But for sessions the state stays as it is, and the device goes on.
pub(crate) fn unseal_pin<T: Tpm>(
    alloc: Global,
    tpm: &mut T,
    path: &Name,
    policy: &Policy,
    public: &NvPublic,
) -> Result<Result<[u8; 32], Answer>, Stop>
    requires readiness { T.ready tpm.old ≡ true }
    requires policy { IsPolicy policy.now }
    ensures causes { HasCauses (0, 0, T.faults tpm.old, 0) (0, 0, T.faults tpm.new, 0) result }
    ensures readiness { IfOk result (λ _. T.ready tpm.new ≡ true) }
    ensures told { (s : Parts) → Runs (T.live tpm.old) (T.stored tpm.old) s → NoClash (Contains (held_strings policy.now s (held_by policy.now s)))
        → IfOk result (λ pin. IsOpenedSo (pin_by path.now public.now (held_opened policy.now policy.now.pin_object s)) (held_after policy.now s (held_by policy.now s)) pin (T.ready tpm.new) (T.live tpm.new) (T.stored tpm.new)) }
    ensures kept { (s : Parts) → Runs (T.live tpm.old) (T.stored tpm.old) s → Kept s (T.stored tpm.new) }
{
    match open_secret(alloc, tpm, policy, policy.pin_object) {
        Ok(Ok(secret)) => match pin_in(alloc, path, public, &secret) {
            Ok(pin) => Ok(pin),
            Err(_) => Err(Stop::Memory),
        },
        Ok(Err(answer)) => Ok(Err(answer)),
        Err(stop) => Err(stop),
    }
}
