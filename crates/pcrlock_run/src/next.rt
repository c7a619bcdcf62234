//! The lines of a script's text.
ghost use Rattle.std.specs.Prelude.{◌≡◌, ◌<◌, ◌++◌, [], ◌∷◌, length};
ghost use Rattle.pcrlock_run.specs.Lines.{is_passed_over, lines_among, lines_of, line_count};

use pl_base::Name;

/// The first line of a text, and the text behind it.
#[tactic(auto, unfolding(crate::specs::Lines::lines_of))]
pub fn next_line(text: &str) -> (&str, &str)
    ensures split { lines_of text.now ≡ lines_among (result.0.now ∷ []) ++ lines_of result.1.now }
    ensures shorter { 0 < length text.now → length result.1.now < length text.now }
{
    match text.split_once('\n') {
        Some((line, rest)) => (line, rest),
        None => (text, ""),
    }
}

/// Whether a line of these words is passed over.
pub fn is_passed_over(words: &[Name]) -> bool
    ensures { result ≡ is_passed_over words.now }
{
    match words.first() {
        None => true,
        Some(word) => word.text().as_bytes().first() == Some(&b'#'),
    }
}

/// How many lines the text has, those that are passed over among them.
#[tactic(auto, unfolding(crate::specs::Lines::line_count))]
pub fn line_count(text: &[u8]) -> usize
    ensures { result ≡ line_count text.now }
{
    let feeds = text.iter().filter(|byte| **byte == b'\n').count();
    match text.last() {
        None | Some(b'\n') => feeds,
        Some(_) => feeds + 1,
    }
}
