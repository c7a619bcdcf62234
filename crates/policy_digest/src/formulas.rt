//! The digests of policies, each as the hash of one string.
ghost use Rattle.std.specs.Prelude.{◌≡◌, ℕ, ◌*◌, ◌^◌, ◌<◌, ◌≤◌, List, length};
ghost use Rattle.hash_bank.specs.declared.bank.Bank.TheVariants.{Sha256};
ghost use Rattle.hash_bank.specs.Hash.{size_in};
ghost use Rattle.policy_digest.specs.Strings.{selection_of};
ghost use Rattle.policy_digest.specs.Policies.{IsPolicyHash, policy_authorize_nv_of, policy_or_of, policy_pcr_of, values_digest_of};
ghost use Rattle.policy_digest.specs.Pin.{pin_policy_of, policy_signed_of};

use crate::Group;
use hash_bank::{Bank, Digest, Hasher, hash};

// Command codes (TPM 2.0 Library Part 2, TPM_CC).
const POLICY_SIGNED: u32 = 0x0000_0160;

const POLICY_OR: u32 = 0x0000_0171;

const POLICY_PCR: u32 = 0x0000_017F;

const POLICY_AUTHORIZE_NV: u32 = 0x0000_0192;

// The selection of one bank's PCRs, of which bit i of `pcrs` selects PCR i.
fn selection(bank: Bank, pcrs: u32) -> [u8; 10]
    requires { pcrs < 2 ^ 24 }
    ensures { result ≡ selection_of bank pcrs }
{
    let [high, low] = bank.algorithm().to_be_bytes();
    let first = (pcrs % 256) as u8;
    let second = (pcrs / 256 % 256) as u8;
    let third = (pcrs / 65536) as u8;
    [0, 0, 0, 1, high, low, 3, first, second, third]
}

/// The digest of the values of the selected PCRs, in ascending order of the PCRs, as PolicyPCR
/// takes it (TPM 2.0 Library Part 3, TPM2_PolicyPCR). The hash is SHA-256 or SHA-384.
pub fn values_digest_in(hash: Bank, values: &[Digest]) -> Digest
    requires { IsPolicyHash hash }
    ensures value { result ≡ values_digest_of hash values.now }
    ensures size { length result ≡ size_in hash }
{
    let mut hasher = Hasher::new(hash);
    hasher.update_digests(values);
    hasher.finish()
}

/// A policy digest after PolicyPCR, which binds it to values of PCRs (TPM 2.0 Library Part 3,
/// TPM2_PolicyPCR): `old` is the digest before it, bit i of `pcrs` selects PCR i of the bank, and
/// `values` is the digest that `values_digest_in` gives. The hash is SHA-256 or SHA-384.
#[tactic(auto, unfolding(crate::specs::Strings::pcr_string_in))]
pub fn policy_pcr_in(hash: Bank, old: &Digest, bank: Bank, pcrs: u32, values: &Digest) -> Digest
    requires policy_hash { IsPolicyHash hash }
    requires old_fits { length old.now ≡ size_in hash }
    requires pcrs_fit { pcrs < 2 ^ 24 }
    ensures value { result ≡ policy_pcr_of hash old.now bank pcrs values.now }
    ensures size { length result ≡ size_in hash }
{
    let mut hasher = Hasher::new(hash);
    hasher.update_parts(&[
        old.as_slice(),
        &POLICY_PCR.to_be_bytes(),
        &selection(bank, pcrs),
        values.as_slice(),
    ]);
    hasher.finish()
}

/// A policy digest after PolicyOR of 2 to 8 digests, whatever it was before (TPM 2.0 Library Part
/// 3, TPM2_PolicyOR). The hash is SHA-256 or SHA-384.
#[tactic(auto, unfolding(crate::specs::Strings::or_string_in))]
pub fn policy_or_in(hash: Bank, list: &Group) -> Digest
    requires policy_hash { IsPolicyHash hash }
    requires several { 2 ≤ length list.now }
    ensures value { result ≡ policy_or_of hash list.now }
    ensures size { length result ≡ size_in hash }
{
    let mut hasher = Hasher::new(hash);
    hasher.update_parts(&[Digest::zeros(hash).as_slice(), &POLICY_OR.to_be_bytes()]);
    hasher.update_digests(list.as_slice());
    hasher.finish()
}

/// A policy digest after PolicyAuthorizeNV by an index whose content is the digest before it
/// (TPM 2.0 Library Part 3, TPM2_PolicyAuthorizeNV): `name` is the digest in the index's Name. The
/// hash is SHA-256 or SHA-384.
#[tactic(auto, unfolding(crate::specs::Strings::nv_string_in))]
pub fn policy_authorize_nv_in(hash: Bank, name: &Digest) -> Digest
    requires { IsPolicyHash hash }
    ensures value { result ≡ policy_authorize_nv_of hash name.now }
    ensures size { length result ≡ size_in hash }
{
    let mut hasher = Hasher::new(hash);
    hasher.update_parts(&[
        Digest::zeros(hash).as_slice(),
        &POLICY_AUTHORIZE_NV.to_be_bytes(),
        &Bank::Sha256.algorithm().to_be_bytes(),
        name.as_slice(),
    ]);
    hasher.finish()
}

/// `values_digest_in` with SHA-256.
pub fn values_digest(values: &[Digest]) -> Digest
    ensures value { result ≡ values_digest_of Sha256 values.now }
    ensures size { length result ≡ 32 }
{
    values_digest_in(Bank::Sha256, values)
}

/// `policy_pcr_in` with SHA-256.
pub fn policy_pcr(old: &Digest, bank: Bank, pcrs: u32, values: &Digest) -> Digest
    requires old_fits { length old.now ≡ 32 }
    requires pcrs_fit { pcrs < 2 ^ 24 }
    ensures value { result ≡ policy_pcr_of Sha256 old.now bank pcrs values.now }
    ensures size { length result ≡ 32 }
{
    policy_pcr_in(Bank::Sha256, old, bank, pcrs, values)
}

/// `policy_or_in` with SHA-256.
pub fn policy_or(list: &Group) -> Digest
    requires { 2 ≤ length list.now }
    ensures value { result ≡ policy_or_of Sha256 list.now }
    ensures size { length result ≡ 32 }
{
    policy_or_in(Bank::Sha256, list)
}

/// `policy_authorize_nv_in` with SHA-256.
pub fn policy_authorize_nv(name: &Digest) -> Digest
    ensures value { result ≡ policy_authorize_nv_of Sha256 name.now }
    ensures size { length result ≡ 32 }
{
    policy_authorize_nv_in(Bank::Sha256, name)
}

// The digest inside that of a pin's policy: PolicySigned by a key whose Name is the pin's hash.
#[tactic(auto, unfolding(crate::specs::Pin::signed_string))]
fn policy_signed(pin: &[u8; 32]) -> Digest
    ensures { result ≡ policy_signed_of pin.now }
{
    let key = hash(Bank::Sha256, pin);
    let mut hasher = Hasher::new(Bank::Sha256);
    hasher.update_parts(&[
        Digest::zeros(Bank::Sha256).as_slice(),
        &POLICY_SIGNED.to_be_bytes(),
        &Bank::Sha256.algorithm().to_be_bytes(),
        key.as_slice(),
    ]);
    hasher.finish()
}

/// The policy of an index that is written with this pin: the digest that PolicySigned leaves, with
/// no policyRef, by a key whose Name holds the pin's hash (TPM 2.0 Library Part 3,
/// TPM2_PolicySigned; Part 1, "PolicyUpdate"). SHA-256 throughout.
pub fn pin_policy(pin: &[u8; 32]) -> Digest
    ensures value { result ≡ pin_policy_of pin.now }
    ensures size { length result ≡ 32 }
{
    hash(Bank::Sha256, policy_signed(pin).as_slice())
}
