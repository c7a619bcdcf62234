ghost use Rattle.std.specs.Prelude.{◌≡◌, IfOk, map, option_copied};
ghost use Rattle.std.specs.List.{list_any};
ghost use Rattle.pcrlock_words.specs.Commands.{options_for};
ghost use Rattle.pcrlock_words.specs.Options.{is_dashed, is_given, undashed, value_of};
ghost use Rattle.pcrlock_words.specs.Parser.{is_of_words, is_stray};
ghost use Rattle.pcrlock_words.specs.Readings.{Gives};

use crate::command::Command;
use crate::error::WordsError;
use clap::ArgMatches;
use clap::parser::ValueSource;
use pl_base::{Memory, Name};
use std::alloc::Global;
use std::marker::Model;

/// The options of one command, each of them the command's and given once.
#[derive(Drop)]
pub(crate) struct Options<'a> {
    matches: ArgMatches<'a>,
}

impl<'a> Model for Options<'a> {
    ghost use Rattle.std.specs.Prelude.{ℕ, List};
    ghost use Rattle.pcrlock_words.specs.Parser.{HasOptions, options_in};

    ghost Value = { List (List ℕ × List ℕ) };

    ghost view = { λ options. options_in options.matches };

    ghost invariant = { λ options. HasOptions options.matches };
}

impl<'a> Options<'a> {
    /// The options that the words behind the command's name give, inside a script or outside.
    ///
    /// The command's parser reads them. Words that begin with a dash and spell no option are tested
    /// besides, since the parser takes `-` as a value and `--` as a mark before values.
    pub(crate) fn read(
        alloc: Global,
        command: Command,
        within: bool,
        words: &'a [&'a str],
    ) -> Result<Options<'a>, WordsError>
        ensures { Gives result (options_for within command (map (λ word. word.now) words.now)) }
    {
        if has_stray(words) {
            return Err(WordsError::BadWords);
        }
        let parser = command.parser(alloc, within)?;
        let matches = parser.try_get_matches_from(words)?;
        Ok(Options { matches })
    }

    /// Whether the option or the flag of this name is given.
    pub(crate) fn has(&self, name: &str) -> bool
        ensures { result ≡ is_given name.now self.now }
    {
        is_of_words(self.matches.value_source(name))
    }

    /// The value of the option of this name.
    pub(crate) fn value(&self, name: &str) -> Option<&'a str>
        ensures { option_copied result ≡ value_of name.now self.now }
    {
        if self.has(name) {
            self.matches.get_str(name)
        } else {
            None
        }
    }
}

// Whether a value comes from the words, and not from a default.
fn is_of_words(source: Option<ValueSource>) -> bool
    ensures { result ≡ is_of_words source }
{
    match source {
        Some(ValueSource::CommandLine) => true,
        Some(ValueSource::DefaultValue) => false,
        None => false,
    }
}

// Whether one of the words begins with a dash and spells no option.
fn has_stray(words: &[&str]) -> bool
    ensures { result ≡ list_any (λ word. is_stray word.now) words.now }
{
    words.iter().any(|word| is_stray(word))
}

// Whether a word begins with a dash and spells no option.
fn is_stray(word: &str) -> bool
    ensures { result ≡ is_stray word.now }
{
    match undashed(word) {
        Some(name) => name.is_empty(),
        None => is_dashed(word),
    }
}

// What stands behind the two dashes at the front of a word.
fn undashed(word: &str) -> Option<&str>
    ensures { option_copied result ≡ undashed word.now }
{
    word.strip_prefix("--")
}

// Whether a word begins with a dash.
fn is_dashed(word: &str) -> bool
    ensures { result ≡ is_dashed word.now }
{
    word.starts_with('-')
}

/// The texts of some words.
pub(crate) fn texts(alloc: Global, words: &[Name]) -> Result<Vec<&str>, Memory>
    ensures { IfOk result (λ texts. map (λ text. text.now) texts.items ≡ words.now) }
{
    let mut texts = Vec::with_capacity(alloc, words.len())?;
    for word in words {
        texts.push(word.text())?;
    }
    Ok(texts)
}
