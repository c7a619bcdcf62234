//! The lines of `gen`.

ghost use Rattle.std.specs.Prelude.{◌≡◌, ◌<◌, ◌++◌, length, IfOk, OnOk, string_bytes};
ghost use Rattle.pcrlock_words.specs.GenText.{end_at, end_text, gen_text as text_of, made_text};

use hash_bank::Digest;
use pl_base::Memory;
use std::alloc::Global;
use std::fmt::Write;

// Writes how the key was opened after a start.
fn write_end(text: &mut String, name: &str, end: Option<u8>) -> Result<(), Memory>
    ensures { OnOk result (string_bytes text.new ≡ string_bytes text.old ++ end_text name.now end) }
{
    match end {
        None => writeln!(text, "{name} key")?,
        Some(pcr) => writeln!(text, "{name} refused {pcr}")?,
    }
    Ok(())
}

// Writes how it was after the start at a place.
fn write_end_at(
    text: &mut String,
    ends: &[Option<u8>],
    place: usize,
    name: &str,
) -> Result<(), Memory>
    requires { place < length ends.now }
    ensures { OnOk result (string_bytes text.new ≡ string_bytes text.old ++ end_at ends.now place name.now) }
{
    let end = ends[place];
    write_end(text, name, end)
}

// The lines of the made machine's policy.
#[tactic(auto, unfolding(crate::specs::GenText::made_text))]
fn policy_lines(alloc: Global, four: u32, eleven: u32, root: &Digest) -> Result<String, Memory>
    ensures { IfOk result (λ text. string_bytes text ≡ made_text four eleven root.now) }
{
    Ok(format!(in alloc; "values 4 {four}\nvalues 11 {eleven}\nroot {root}\n")?)
}

/// The lines of `gen`: how many values PCR 4 and PCR 11 have in the table of the made machine's policy, the root of
/// the table, and for each of its three starts `key` where the key was opened, or the PCR that refused it.
#[tactic(auto, unfolding(crate::specs::GenText::gen_text))]
pub fn gen_text(
    alloc: Global,
    four: u32,
    eleven: u32,
    root: &Digest,
    ends: &[Option<u8>],
) -> Result<Vec<u8>, Memory>
    requires { length ends.now ≡ 3 }
    ensures { IfOk result (λ text. text.items ≡ text_of four eleven root.now ends.now) }
{
    let mut text = policy_lines(alloc, four, eleven, root)?;
    write_end_at(&mut text, ends, 0, "first")?;
    write_end_at(&mut text, ends, 1, "last")?;
    write_end_at(&mut text, ends, 2, "other")?;
    Ok(text.into_bytes())
}
