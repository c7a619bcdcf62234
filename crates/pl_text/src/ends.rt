//! Texts that grow at their ends.
ghost use Rattle.std.specs.Prelude.{◌≡◌, ◌≤◌, ◌++◌, length, OnOk};
ghost use Rattle.std.specs.Fmt.{decimal};
ghost use Rattle.hex.specs.Hex.{encode_lower};
ghost use Rattle.pl_text.specs.Texts.{handle_text, mask_text};

use crate::write_numbers;
use pl_base::Memory;
use policy_digest::pcrs_in;
use std::alloc::Global;

// The most bytes whose digits are put at once.
const ROOM: usize = 128;

/// Puts bytes at the end of a text.
///
/// # Errors
///
/// `Memory` where memory runs out.
pub fn push(text: &mut Vec<u8>, bytes: &[u8]) -> Result<(), Memory>
    ensures { OnOk result (text.new.items ≡ text.old.items ++ bytes.now) }
{
    text.extend_from_slice(bytes)?;
    Ok(())
}

/// Puts bytes at the end of a text, each as two hexadecimal digits of lower case. There may be at most 128.
///
/// # Errors
///
/// `Memory` where memory runs out.
pub fn push_hex(text: &mut Vec<u8>, bytes: &[u8]) -> Result<(), Memory>
    requires { length bytes.now ≤ 128 }
    ensures { OnOk result (text.new.items ≡ text.old.items ++ encode_lower bytes.now) }
{
    let mut room = [0u8; 2 * ROOM];
    let digits = &mut room[..2 * bytes.len()];
    let Ok(()) = hex::encode_to_slice(bytes, digits) else {
        unreachable!();
    };
    push(text, digits)
}

/// Puts a handle, or attributes, at the end of a text, as eight hexadecimal digits of lower case.
///
/// # Errors
///
/// `Memory` where memory runs out.
pub fn push_handle(text: &mut Vec<u8>, handle: u32) -> Result<(), Memory>
    ensures { OnOk result (text.new.items ≡ text.old.items ++ handle_text handle) }
{
    push_hex(text, &handle.to_be_bytes())
}

/// Puts the decimal digits of a number at the end of a text.
///
/// # Errors
///
/// `Memory` where memory runs out.
pub fn push_number(alloc: Global, text: &mut Vec<u8>, number: u32) -> Result<(), Memory>
    ensures { OnOk result (text.new.items ≡ text.old.items ++ decimal number) }
{
    let digits = format!(in alloc; "{number}")?;
    push(text, digits.as_bytes())
}

/// Puts the PCRs of a mask at the end of a text, ascending, with commas between.
///
/// # Errors
///
/// `Memory` where memory runs out.
pub fn push_mask(alloc: Global, text: &mut Vec<u8>, mask: u32) -> Result<(), Memory>
    ensures { OnOk result (text.new.items ≡ text.old.items ++ mask_text mask) }
{
    let pcrs = pcrs_in(alloc, mask)?;
    let mut numbers = String::new(alloc);
    write_numbers(&mut numbers, pcrs.as_slice())?;
    push(text, numbers.as_bytes())
}
