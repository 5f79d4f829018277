//! The lines of a text, the words of a line, and numbers.
ghost use Rattle.std.specs.Prelude.{◌≡◌, ◌≤◌, ◌==◌, ◌∷◌, [], length, is_some, IfSome, MatchOption};
ghost use Rattle.std.specs.List.{list_all, position_or_len, prefix_len};
ghost use Rattle.text_lines.specs.Text.{lines, words, number, value, is_digit, without_return};

use std::marker::Model;

/// The greatest number of a script.
pub const MOST_NUMBER: u64 = 9_223_372_036_854_775_807;

/// The most digits of a number.
pub const MOST_DIGITS: usize = 19;

/// The lines of a text that are left.
#[derive(Drop)]
pub struct Lines<'a> {
    text: &'a [u8],
}

impl<'a> Model for Lines<'a> {
    ghost use Rattle.std.specs.Prelude.{List, ℕ};
    ghost use Rattle.text_lines.specs.Text.{lines};

    ghost Value = { List (List ℕ) };

    ghost view = { λ l. lines l.text.now };
}

impl<'a> Lines<'a> {
    pub fn new(text: &'a [u8]) -> Lines<'a>
        ensures lines { result ≡ lines text.entry.now }
        ensures count { length result ≤ length text.entry.now }
    {
        Lines { text }
    }

    /// Takes the next line, without its end.
    pub fn next(&mut self) -> Option<&'a [u8]>
        ensures { MatchOption result (self.old ≡ []) (λ line. self.old ≡ line.now ∷ self.new) }
    {
        let (line, rest) = self.text.split_at(bytes_before(self.text, b'\n'));
        match rest {
            [_newline, after @ ..] => {
                self.text = after;
                Some(without_return(line))
            }
            [] => {
                self.text = rest;
                if line.is_empty() { None } else { Some(line) }
            }
        }
    }
}

// A line without a carriage return at its end.
fn without_return(line: &[u8]) -> &[u8]
    ensures { result.now ≡ without_return line.now }
{
    match line.split_last() {
        Some((last, front)) if *last == b'\r' => front,
        _ => line,
    }
}

/// The words of a line that are left.
#[derive(Drop)]
pub struct Words<'a> {
    text: &'a [u8],
}

impl<'a> Model for Words<'a> {
    ghost use Rattle.std.specs.Prelude.{List, ℕ};
    ghost use Rattle.text_lines.specs.Text.{words};

    ghost Value = { List (List ℕ) };

    ghost view = { λ w. words w.text.now };
}

impl<'a> Words<'a> {
    pub fn new(text: &'a [u8]) -> Words<'a>
        ensures { result ≡ words text.entry.now }
    {
        Words { text }
    }

    /// Takes the next word.
    pub fn next(&mut self) -> Option<&'a [u8]>
        ensures { MatchOption result (self.old ≡ []) (λ word. self.old ≡ word.now ∷ self.new) }
    {
        let (_, text) = self.text.split_at(spaces(self.text));
        let (word, rest) = text.split_at(bytes_before(text, b' '));
        self.text = rest;
        if word.is_empty() { None } else { Some(word) }
    }
}

// How many bytes stand before the first that is this one.
fn bytes_before(text: &[u8], byte: u8) -> usize
    ensures exact { result ≡ position_or_len (λ other. other == byte) text.now }
    ensures within { result ≤ length text.now }
{
    text.iter().take_while(|other| **other != byte).count()
}

// How many spaces stand at the front.
fn spaces(text: &[u8]) -> usize
    ensures exact { result ≡ prefix_len (λ byte. byte == 32) text.now }
    ensures within { result ≤ length text.now }
{
    text.iter().take_while(|byte| **byte == b' ').count()
}

/// The number that a word is: so many digits at most, and a value that isn't too great.
#[inline]
#[tactic(auto, unfolding(crate::specs::Text::number))]
pub fn number(word: &[u8]) -> Option<u64>
    ensures exact { result ≡ number word.now }
    ensures bound { IfSome result (λ n. n ≤ MOST_NUMBER) }
{
    if word.is_empty() || word.len() > MOST_DIGITS {
        return None;
    }
    match value(word) {
        Some(value) if value <= MOST_NUMBER => Some(value),
        _ => None,
    }
}

// What a word is worth, if it has digits alone.
#[inline]
fn value(word: &[u8]) -> Option<u64>
    requires few { length word.now ≤ MOST_DIGITS }
    ensures decimal { is_some result ≡ list_all is_digit word.now }
    ensures worth { IfSome result (λ n. n ≡ value word.now) }
{
    let mut value = 0;
    for byte in word {
        if !byte.is_ascii_digit() {
            return None;
        }
        value = value * 10 + u64::from(*byte - b'0');
    }
    Some(value)
}
