ghost use Rattle.std.specs.Prelude.{◌≡◌, ◌≤◌, IfSome, IsTrue};
ghost use Rattle.tcg_log.specs.Allowed.{size_fits as size_fits_number, AreSized, is_named, size_named};

use crate::spec_id::Algorithm;
use hash_bank::Bank;

/// Whether the algorithm's digests may have this size.
pub fn size_fits(number: u16, size: u16) -> bool
    ensures value { result ≡ size_fits_number number size }
    ensures range { IsTrue result → (1 ≤ size) × (size ≤ 64) }
{
    match Bank::from_algorithm(number) {
        Some(bank) => size as usize == bank.size(),
        None => 1 <= size && size <= 64,
    }
}

/// Whether the number is that of one of the algorithms.
pub fn has_number(algorithms: &[Algorithm], number: u16) -> bool
    ensures { result ≡ is_named algorithms.now number }
{
    algorithms.iter().any(|a| a.number == number)
}

/// The size that the algorithms give a number.
pub fn size_of_number(algorithms: &[Algorithm], number: u16) -> Option<u16>
    ensures value { result ≡ size_named algorithms.now number }
    ensures range { AreSized algorithms.now → IfSome result (λ size. (1 ≤ size) × (size ≤ 64)) }
{
    algorithms
        .iter()
        .find(|a| a.number == number)
        .map(|a| a.size)
}
