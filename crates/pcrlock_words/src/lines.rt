ghost use Rattle.std.specs.Prelude.{◌≡◌, [], ◌∷◌, ◌++◌, IfOk, OnOk};
ghost use Rattle.pcrlock_words.specs.Lines.{is_blank, words_among, words_of};

use pl_base::{List, Memory, Name};
use std::alloc::Global;

/// The words of a script's line, which one or more spaces or tabs part. A carriage return is part of a
/// word.
pub fn split_line(alloc: Global, line: &str) -> Result<List<Name>, Memory>
    ensures { IfOk result (λ words. words ≡ words_of line.now) }
{
    let mut words = List::new(alloc);
    let mut start = 0;
    for (end, byte) in line.as_bytes().iter().enumerate() {
        if is_blank(*byte) {
            push_word(alloc, &mut words, &line[start..end])?;
            start = end + 1;
        }
    }
    push_word(alloc, &mut words, &line[start..])?;
    Ok(words)
}

// Whether a byte parts words.
fn is_blank(byte: u8) -> bool
    ensures { result ≡ is_blank byte }
{
    byte == b' ' || byte == b'\t'
}

// Puts a part of a line at the end of the words, unless it is empty.
fn push_word(alloc: Global, words: &mut List<Name>, part: &str) -> Result<(), Memory>
    ensures { OnOk result (words.new ≡ words.old ++ words_among (part.now ∷ [])) }
{
    if !part.is_empty() {
        words.push(Name::from_text(alloc, part)?)?;
    }
    Ok(())
}
