//! Under what a key is sealed.
ghost use Rattle.std.specs.Prelude.{◌≡◌, ◌≤◌, ◌^◌, ◌<◌};
ghost use Rattle.policy_file.specs.TokenText.{IsLiteral};
ghost use Rattle.tpm_model.specs.Binding.{literal_policy};
ghost use Rattle.pcrlock_seal.specs.Condition.{IsCondition, condition_policy, condition_token, index_condition};

use hash_bank::Digest;
use nv_index::{CONTENT_SIZE, NvPublic, WRITTEN_ATTRIBUTES, index_name};
use policy_digest::{mask_of_pcr, policy_authorize_nv, policy_pcr_in, values_digest_in};
use policy_file::{Literal, Policy, Token};

/// Under what an object opens.
#[derive(Clone, Copy, Debug)]
pub(crate) enum Condition {
    /// One value of one PCR.
    Value(Literal),
    /// What the index's content names (TPM 2.0 Library Part 3, TPM2_PolicyAuthorizeNV), once the index is written.
    Index {
        /// The index's handle, 0x01000000 to 0x01ffffff.
        handle: u32,
        /// The policy by which the index is written, of 32 bytes.
        policy: Digest,
    },
}

/// The policy of a literal.
#[tactic(auto, using(policy_session::proofs::OneValue::one_value))]
fn policy_of_literal(literal: &Literal) -> Digest
    requires { IsLiteral literal.now }
    ensures { result ≡ literal_policy literal.now.hash literal.now.bank literal.now.pcr literal.now.value }
{
    let values = values_digest_in(literal.hash, &[literal.value]);
    policy_pcr_in(
        literal.hash,
        &Digest::zeros(literal.hash),
        literal.bank,
        mask_of_pcr(literal.pcr),
        &values,
    )
}

/// The policy of what the content of a written index names.
fn policy_of_index(handle: u32, policy: &Digest) -> Digest
    ensures { result ≡ condition_policy (Condition.Index handle policy.now) }
{
    let public = NvPublic {
        handle,
        attributes: WRITTEN_ATTRIBUTES,
        policy: *policy,
        size: CONTENT_SIZE,
    };
    policy_authorize_nv(&index_name(&public))
}

impl Condition {
    /// What opens objects that are bound to the policy's index.
    pub(crate) fn of_policy(policy: &Policy) -> Condition
        ensures { result ≡ index_condition policy.now }
    {
        Condition::Index {
            handle: policy.handle,
            policy: policy.index_policy,
        }
    }

    /// The policy of an object that opens so.
    pub(crate) fn policy(&self) -> Digest
        requires { IsCondition self.now }
        ensures { result ≡ condition_policy self.now }
    {
        match self {
            Condition::Value(literal) => policy_of_literal(literal),
            Condition::Index { handle, policy } => policy_of_index(*handle, policy),
        }
    }

    /// The token of an object that opens so.
    pub(crate) fn token(&self, object: u32) -> Token
        ensures { result ≡ condition_token self.now object }
    {
        match self {
            Condition::Value(literal) => Token::Literal {
                object,
                literal: *literal,
            },
            Condition::Index { .. } => Token::Bound { object },
        }
    }
}
