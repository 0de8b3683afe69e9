// Lines, comments, white space and words.
ghost use Rattle.std.specs.Prelude.{◌≡◌, ℕ, ◌+◌, ◌<◌, ◌≤◌, List, length, IfSome, MatchOption, position, ◌==◌};
ghost use Rattle.std.specs.List.{prefix_len, suffix_len};
ghost use Rattle.std.specs.Option.{option_map};
ghost use Rattle.std.specs.Str.{IsUtf8};
ghost use Rattle.std.specs.Iterator.{YieldsFirstRef, at_most, item_count};
ghost use Rattle.script.specs.Laws.{ScriptLaws, Examples};
ghost use Rattle.script.specs.Text.{before, after, white, GivesLine, words_of, words_left, trimmed_front, trimmed_end, cleaned_text, first_word};

use std::marker::Model;

const NEWLINE: u8 = b'\n';

const SPACE: u8 = b' ';

const COMMENT: u8 = b'#';

// Where the first such byte stands.
fn place(text: &[u8], byte: u8) -> Option<usize>
    ensures is { result ≡ position (λ x. x == byte) text.now }
    ensures within { IfSome result (λ at. at < length text.now) }
{
    text.iter().position(|b| *b == byte)
}

// What stands before the first such byte, and what follows it.
fn cut(text: &[u8], byte: u8) -> (&[u8], Option<&[u8]>)
    ensures before { result.0.now ≡ before byte text.now }
    ensures after { option_map (λ x. x.now) result.1 ≡ after byte text.now }
{
    match place(text, byte) {
        Some(at) => (&text[..at], Some(&text[at + 1..])),
        None => (text, None),
    }
}

// Whether a byte is white space. The library's `trim_ascii` leaves the vertical tab, byte 11, where it stands.
fn is_white(byte: u8) -> bool
    ensures { result ≡ white byte }
{
    matches!(byte, b'\t'..=b'\r' | SPACE)
}

// How many bytes of white space stand at the front.
fn blanks_before(text: &[u8]) -> usize
    ensures is { result ≡ prefix_len white text.now }
    ensures within { result ≤ length text.now }
{
    text.iter().take_while(|b| is_white(**b)).count()
}

// How many bytes of white space stand at the end.
fn blanks_after(text: &[u8]) -> usize
    ensures is { result ≡ suffix_len white text.now }
    ensures within { result ≤ length text.now }
{
    text.iter().rev().take_while(|b| is_white(**b)).count()
}

// Without the white space at the ends.
fn trimmed(text: &[u8]) -> &[u8]
    ensures { result.now ≡ trimmed_end (trimmed_front text.now) }
{
    let text = &text[blanks_before(text)..];
    &text[..text.len() - blanks_after(text)]
}

/// A line without its comment and without white space at the ends.
pub fn cleaned(line: &[u8]) -> &[u8]
    ensures { result.now ≡ cleaned_text line.now }
{
    let (text, _) = cut(line, COMMENT);
    trimmed(text)
}

/// The first word of a line, as it stands.
pub fn name(line: &[u8]) -> &[u8]
    ensures { result.now ≡ first_word line.now }
{
    cut(line, SPACE).0
}

// A word as text, if it is text at all.
pub(crate) fn as_text(word: &[u8]) -> Option<&str>
    ensures { MatchOption result (¬ (IsUtf8 word.now)) (λ text. text.now ≡ word.now) }
{
    str::from_utf8(word).ok()
}

/// What is left of a script, line by line: a line end ends each, and the last may lack it.
#[derive(Drop)]
pub struct Lines<'a> {
    rest: &'a [u8],
}

impl<'a> Model for Lines<'a> {
    ghost Value = { List ℕ };

    ghost view = { λ s. s.rest.now };
}

impl<'a> Lines<'a> {
    /// The lines of a script. An empty script has none.
    pub fn of(script: &'a [u8]) -> Lines<'a>
        ensures script { result ≡ script.now }
        ensures laws { ScriptLaws }
        ensures examples { Examples }
    {
        Lines { rest: script }
    }
}

impl<'a> Iterator for Lines<'a> {
    type Item = &'a [u8];

    ghost next_gives = { GivesLine };

    ghost remaining = { λ s. at_most (length s) };

    fn next(&mut self) -> Option<&'a [u8]> {
        if self.rest.is_empty() {
            return None;
        }
        let (line, rest) = cut(self.rest, NEWLINE);
        self.rest = rest.unwrap_or_default();
        Some(line)
    }
}

// The words of a line that are left: a space stands between each and the next. It is no `split` of the library, so that a
// clause of a function that takes the words can name them: they are what the type means.
#[derive(Drop)]
pub(crate) struct Words<'a> {
    rest: Option<&'a [u8]>,
}

impl<'a> Model for Words<'a> {
    ghost Value = { List (List ℕ) };

    ghost view = { λ s. words_left (option_map (λ x. x.now) s.rest) };
}

impl<'a> Words<'a> {
    // The words of a line.
    pub(crate) fn of(line: &'a [u8]) -> Words<'a>
        ensures { result ≡ words_of line.now }
    {
        Words { rest: Some(line) }
    }
}

impl<'a> Iterator for Words<'a> {
    type Item = &'a [u8];

    ghost next_gives = { YieldsFirstRef (λ s. s) };

    ghost remaining = { item_count (λ s. s) };

    fn next(&mut self) -> Option<&'a [u8]> {
        let (word, rest) = cut(self.rest?, SPACE);
        self.rest = rest;
        Some(word)
    }
}
