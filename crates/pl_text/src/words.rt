//! The parts of a text where there has to be a fixed number of them, as the words behind a verb.
ghost use Rattle.std.specs.Prelude.{◌≡◌, option_map};
ghost use Rattle.pl_text.specs.Parts.{parts_behind, one_of, two_of, three_of, four_of};

use crate::cut;

/// The one part of a text that is parted at each place of the byte, where there is exactly one; nothing of no text.
pub fn one_part(parts: Option<&[u8]>, byte: u8) -> Option<&[u8]>
    ensures { option_map (λ part. part.now) result ≡ one_of (parts_behind byte parts.entry) }
{
    match parts {
        None => None,
        Some(text) => match cut(text, byte) {
            (part, None) => Some(part),
            (_, Some(_)) => None,
        },
    }
}

/// Both parts, where there are exactly two; nothing of no text.
pub fn two_parts(parts: Option<&[u8]>, byte: u8) -> Option<(&[u8], &[u8])>
    ensures { option_map (λ part. (part.0.now, part.1.now)) result ≡ two_of (parts_behind byte parts.entry) }
{
    let (first, behind) = cut(parts?, byte);
    let second = one_part(behind, byte)?;
    Some((first, second))
}

/// All parts, where there are exactly three; nothing of no text.
pub fn three_parts(parts: Option<&[u8]>, byte: u8) -> Option<(&[u8], &[u8], &[u8])>
    ensures { option_map (λ part. (part.0.now, part.1.now, part.2.now)) result ≡ three_of (parts_behind byte parts.entry) }
{
    let (first, behind) = cut(parts?, byte);
    let (second, third) = two_parts(behind, byte)?;
    Some((first, second, third))
}

/// All parts, where there are exactly four; nothing of no text.
pub fn four_parts(parts: Option<&[u8]>, byte: u8) -> Option<(&[u8], &[u8], &[u8], &[u8])>
    ensures { option_map (λ part. (part.0.now, part.1.now, part.2.now, part.3.now)) result ≡ four_of (parts_behind byte parts.entry) }
{
    let (first, behind) = cut(parts?, byte);
    let (second, third, fourth) = three_parts(behind, byte)?;
    Some((first, second, third, fourth))
}
