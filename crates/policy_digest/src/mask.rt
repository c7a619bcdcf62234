//! Masks of PCRs, of which bit i stands for PCR i.
ghost use Rattle.std.specs.Prelude.{◌≡◌, ◌<◌, ◌≤◌, ◌^◌, length, IfOk};
ghost use Rattle.std.specs.List.{All};
ghost use Rattle.policy_digest.specs.Mask.{has_pcr, pcrs_of};

use pl_base::{List, Memory};
use std::alloc::Global;

/// The number of PCRs of a TPM (TCG PC Client Platform TPM Profile).
const PCR_COUNT: u8 = 24;

/// Whether the PCR, one of 0 to 23, is in the mask.
#[tactic(auto, using(std::proofs::lemmas::Nat::Bits::shr_and_one))]
pub fn is_in_mask(mask: u32, pcr: u8) -> bool
    requires { pcr ≤ 23 }
    ensures { result ≡ has_pcr mask pcr }
{
    mask >> pcr & 1 == 1
}

/// The mask of one PCR, which is one of 0 to 23.
#[tactic(auto, using(std::proofs::lemmas::Nat::pow_below, std::proofs::lemmas::Nat::pow_pos))]
pub fn mask_of_pcr(pcr: u8) -> u32
    requires { pcr ≤ 23 }
    ensures value { result ≡ 2 ^ pcr }
    ensures some { 0 < result }
    ensures below { result < 2 ^ 24 }
{
    1 << pcr
}

/// How many PCRs are in the mask.
pub fn pcr_count(mask: u32) -> usize
    ensures { result ≡ length (pcrs_of mask) }
{
    let mut count = 0;
    for pcr in 0..PCR_COUNT {
        if is_in_mask(mask, pcr) {
            count += 1;
        }
    }
    count
}

/// The PCRs of the mask, ascending.
///
/// # Errors
///
/// `Memory` where memory runs out.
pub fn pcrs_in(alloc: Global, mask: u32) -> Result<List<u8>, Memory>
    ensures value { IfOk result (λ pcrs. pcrs ≡ pcrs_of mask) }
    ensures few { IfOk result (λ pcrs. length pcrs ≤ 24) }
    ensures in_range { IfOk result (λ pcrs. All (λ p. p ≤ 23) pcrs) }
{
    let mut pcrs = List::new(alloc);
    for pcr in 0..PCR_COUNT {
        if is_in_mask(mask, pcr) {
            pcrs.push(pcr)?;
        }
    }
    Ok(pcrs)
}
