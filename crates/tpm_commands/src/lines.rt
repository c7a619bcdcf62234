//! A file of lines, each of which is passed over or spells something.
ghost use Rattle.std.specs.Prelude.{◌≡◌, [], OnOk};
ghost use Rattle.tpm_commands.specs.Answers.{Gives};
ghost use Rattle.tpm_commands.specs.File.{items_of, line_of, lines_of, spelled};
ghost use Rattle.tpm_commands.specs.Walk.{behind_line, items_from, lines_by, taken};

use crate::grammar::Grammar;
use crate::{CommandsError, next_line, passes_over};
use pl_base::List;
use std::alloc::Global;
use std::str;

// How many lines a file may have.
const LINE_LIMIT: u32 = 65_536;

// Puts what a line spells at the end; the line has this place in the file.
fn take_item<T: Drop>(
    items: &mut List<T>,
    place: u32,
    found: Option<T>,
) -> Result<(), CommandsError>
    ensures { Gives (λ _. items.new) result (taken place items.old (spelled found)) }
{
    match found {
        Some(item) => Ok(items.push(item)?),
        None => Err(CommandsError::BadLine(place)),
    }
}

// Puts what a line spells at the end, if it isn't passed over; it has this place in the file.
#[tactic(auto, unfolding(crate::specs::File::line_of))]
fn take_line<G: Grammar>(
    alloc: Global,
    grammar: &mut G,
    items: &mut List<G::Item>,
    place: u32,
    line: &[u8],
) -> Result<(), CommandsError>
    ensures items { Gives (λ _. items.new) result (taken place items.old (line_of (G.spells grammar.old) line.now)) }
    ensures behind { OnOk result (grammar.new ≡ behind_line G.behind grammar.old line.now) }
{
    if passes_over(line) {
        return match str::from_utf8(line) {
            Ok(_) => Ok(()),
            Err(_) => Err(CommandsError::BadLine(place)),
        };
    }
    let found = grammar.read(alloc, line)?;
    take_item(items, place, found)
}

// What a text's lines spell, of which there may be this many.
fn read_some<G: Grammar>(
    alloc: Global,
    grammar: &mut G,
    text: &[u8],
    limit: u32,
) -> Result<List<G::Item>, CommandsError>
    ensures { Gives (λ items. items) result (items_from 0 limit [] (lines_by G.spells G.behind grammar.old (lines_of text.now))) }
{
    let mut items = List::new(alloc);
    let mut rest = text;
    for place in 0..limit {
        if rest.is_empty() {
            return Ok(items);
        }
        let (line, behind) = next_line(rest);
        match take_line(alloc, grammar, &mut items, place, line) {
            Ok(()) => rest = behind,
            Err(error) => return Err(error),
        }
    }
    if rest.is_empty() {
        Ok(items)
    } else {
        Err(CommandsError::TooMany)
    }
}

/// What the lines of a text spell by a grammar: the items of the lines that aren't passed over, the first
/// bad line among the first 65,536, or that there are more lines.
#[tactic(auto, using(crate::proofs::Walks::walk_whole))]
pub(crate) fn read_lines<G: Grammar>(
    alloc: Global,
    grammar: &mut G,
    text: &[u8],
) -> Result<List<G::Item>, CommandsError>
    ensures { Gives (λ items. items) result (items_of (lines_by G.spells G.behind grammar.old (lines_of text.now))) }
{
    read_some(alloc, grammar, text, LINE_LIMIT)
}
