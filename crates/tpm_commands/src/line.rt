//! The lines of a file of commands.
ghost use Rattle.std.specs.Prelude.{◌≡◌, ◌<◌, ◌∷◌, length};
ghost use Rattle.tpm_commands.specs.File.{is_passed_over, lines_of};

use pl_text::cut;

/// The first line of a text, without its line feed, and the text behind it. The last line may lack its
/// line feed.
pub fn next_line(text: &[u8]) -> (&[u8], &[u8])
    requires { 0 < length text.now }
    ensures lines { lines_of text.now ≡ result.0.now ∷ lines_of result.1.now }
    ensures shorter { length result.1.now < length text.now }
{
    let (line, behind) = cut(text, b'\n');
    match behind {
        Some(behind) => (line, behind),
        None => (line, &[]),
    }
}

/// Whether a line is passed over: it is empty, or begins with `#`.
pub fn passes_over(line: &[u8]) -> bool
    ensures { result ≡ is_passed_over line.now }
{
    match line {
        [] => true,
        [first, ..] => *first == b'#',
    }
}
