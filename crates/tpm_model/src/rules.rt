//! The rules that every state keeps, and the first that a state from outside breaks.
ghost use Rattle.std.specs.Prelude.{◌≡◌, nat_le};
ghost use Rattle.tpm_model.specs.Rules.{broken_rule as first_broken, keeps_counters as counters_kept};
ghost use Rattle.tpm_model.specs.Pcrs.{bank_count as bank_count_of};
ghost use Rattle.tpm_model.specs.Shape.{HasShape};

use crate::Parts;
use crate::index_rules::{keeps_index_attributes, keeps_index_order};
use crate::object_rules::{keeps_object_order, keeps_secret};
use crate::pcrs::bank_count;
use crate::session_rules::{
    keeps_fold, keeps_noted, keeps_nv_now, keeps_or_member, keeps_pcr_now, keeps_session_order,
};
use hash_bank::Banks;

/// A rule that every state keeps. A state from outside is tested by the rules in the order Banks,
/// Counters, SessionOrder, Fold, OrMember, Noted, PcrNow, NvNow, IndexOrder, IndexAttributes,
/// ObjectOrder, Secret.
#[derive(Clone, Copy, Debug, PartialEq, Eq)]
pub enum StateRule {
    /// At least one bank is present, and no other than the four.
    Banks,
    /// The numbers of the next session and of the next object are within their range.
    Counters,
    /// The sessions' handles ascend, below the next.
    SessionOrder,
    /// A session's digest is the fold of its trail, under its hash.
    Fold,
    /// Each list of PolicyOR holds the digest before it.
    OrMember,
    /// A session that looked at PCRs at the present counter saw their present values.
    PcrNow,
    /// A session that read an index read what it held then.
    NvNow,
    /// A counter is noted exactly where the session looked at PCRs.
    Noted,
    /// The indices' handles ascend, and their writes have numbers of their own.
    IndexOrder,
    /// An index has the allowed attributes and size.
    IndexAttributes,
    /// The objects' handles ascend, below the next.
    ObjectOrder,
    /// A secret has 1 to 128 bytes.
    Secret,
}

/// Whether a bank is present.
fn keeps_banks(banks: Banks) -> bool
    ensures { result ≡ nat_le 1 (bank_count_of banks) }
{
    bank_count(banks) >= 1
}

/// Whether the numbers of the next session and object are at most those at which handles end.
fn keeps_counters(parts: &Parts) -> bool
    ensures { result ≡ counters_kept parts.now }
{
    parts.next_session <= 0x0100_0000 && parts.next_object <= 0x0080_0000
}

/// The first rule that is broken, in the order in which they are tested.
pub(crate) fn broken_rule(parts: &Parts) -> Option<StateRule>
    requires { HasShape parts.now }
    ensures { result ≡ first_broken parts.now }
{
    if !keeps_banks(parts.banks) {
        return Some(StateRule::Banks);
    }
    if !keeps_counters(parts) {
        return Some(StateRule::Counters);
    }
    if !keeps_session_order(parts) {
        return Some(StateRule::SessionOrder);
    }
    if !keeps_fold(parts) {
        return Some(StateRule::Fold);
    }
    if !keeps_or_member(parts) {
        return Some(StateRule::OrMember);
    }
    if !keeps_noted(parts) {
        return Some(StateRule::Noted);
    }
    if !keeps_pcr_now(parts) {
        return Some(StateRule::PcrNow);
    }
    if !keeps_nv_now(parts) {
        return Some(StateRule::NvNow);
    }
    if !keeps_index_order(parts) {
        return Some(StateRule::IndexOrder);
    }
    if !keeps_index_attributes(parts) {
        return Some(StateRule::IndexAttributes);
    }
    if !keeps_object_order(parts) {
        return Some(StateRule::ObjectOrder);
    }
    if !keeps_secret(parts) {
        return Some(StateRule::Secret);
    }
    None
}
