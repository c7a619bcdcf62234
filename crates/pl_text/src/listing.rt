//! Numbers with commas between.
ghost use Rattle.std.specs.Prelude.{◌≡◌, ◌++◌, flat_map, map, codes, OnOk, string_bytes};
ghost use Rattle.std.specs.Fmt.{decimal};
ghost use Rattle.pl_text.specs.Texts.{with_commas};

use pl_base::Memory;
use std::fmt::Write;

// Writes further numbers, each behind a comma.
fn write_more_numbers(text: &mut String, numbers: &[u8]) -> Result<(), Memory>
    ensures { OnOk result (string_bytes text.new ≡ string_bytes text.old ++ flat_map (λ number. codes "," ++ decimal number) numbers.now) }
{
    for number in numbers {
        write!(text, ",{number}")?;
    }
    Ok(())
}

/// Writes numbers in decimal digits, as those of PCRs, with commas between.
///
/// # Errors
///
/// `Memory` where memory runs out.
pub fn write_numbers(text: &mut String, numbers: &[u8]) -> Result<(), Memory>
    ensures { OnOk result (string_bytes text.new ≡ string_bytes text.old ++ with_commas (map decimal numbers.now)) }
{
    let Some((first, others)) = numbers.split_first() else {
        return Ok(());
    };
    write!(text, "{first}")?;
    write_more_numbers(text, others)?;
    Ok(())
}
