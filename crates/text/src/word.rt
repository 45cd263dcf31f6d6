// Lines of a text and words of a line, as parts of the bytes that hold them.
// A line ends at a line feed or at the end of the text. Words are parted by blanks, and `#` begins
// a comment, which has no words.
ghost use Rattle.std.specs.Prelude.{◌≡◌, ◌≤◌, length};
ghost use Rattle.std.specs.List.{prefix_len};
ghost use Rattle.std.specs.Str.{bytes_eq};
ghost use Rattle.text.specs.Taking.{TakesWord, TakesLine, to_come};
ghost use Rattle.text.specs.Words.{blank, in_word, in_line};
ghost use Rattle.std.specs.Iterator.{at_most};

fn is_blank(byte: u8) -> bool
    ensures { result ≡ blank byte }
{
    matches!(byte, b' ' | b'\t' | b'\r')
}

fn is_in_word(byte: u8) -> bool
    ensures { result ≡ in_word byte }
{
    // nearly every byte of a word stands above the comment's mark
    byte > b'#' || (byte != b'#' && !is_blank(byte))
}

// Of the three lengths each is one call of std: a shared function would take the test as a closure,
// and its contract would be longer than the three.

// How many blanks a text begins with.
fn blanks_length(text: &[u8]) -> usize
    ensures value { result ≡ prefix_len blank text.now }
    ensures within { result ≤ length text.now }
{
    text.iter().take_while(|byte| is_blank(**byte)).count()
}

// How long the word is that a text begins with.
fn word_length(text: &[u8]) -> usize
    ensures value { result ≡ prefix_len in_word text.now }
    ensures within { result ≤ length text.now }
{
    text.iter().take_while(|byte| is_in_word(**byte)).count()
}

// How long the line is that a text begins with, without its line feed.
fn line_length(text: &[u8]) -> usize
    ensures value { result ≡ prefix_len in_line text.now }
    ensures within { result ≤ length text.now }
{
    text.iter().take_while(|byte| **byte != b'\n').count()
}

// Whether a word is spelt so.
pub fn is_spelt(word: &[u8], text: &str) -> bool
    ensures { result ≡ bytes_eq word.now text.now }
{
    word == text.as_bytes()
}

// The words of one line that are still to come.
// No chain of std's `split` stands here: callers' contracts speak of the bytes to come, which it hides.
#[derive(Clone, Copy)]
pub struct Words<'a> {
    rest: &'a [u8],
}

impl<'a> Words<'a> {
    pub fn of(line: &'a [u8]) -> Words<'a>
        ensures { to_come result ≡ line.now }
    {
        Words { rest: line }
    }
}

impl<'a> Iterator for Words<'a> {
    type Item = &'a [u8];

    ghost next_gives = { TakesWord };

    ghost remaining = { λ s. at_most (length s.rest.now) };

    fn next(&mut self) -> Option<&'a [u8]> {
        let text = &self.rest[blanks_length(self.rest)..];
        let (word, rest) = text.split_at(word_length(text));
        self.rest = rest;
        if word.is_empty() { None } else { Some(word) }
    }
}

// A line of a text, and its number from 1 on.
#[derive(Clone, Copy)]
pub struct Line<'a> {
    pub number: u64,
    pub text: &'a [u8],
}

// The lines of a text that are still to come.
#[derive(Clone, Copy)]
pub struct Lines<'a> {
    rest: &'a [u8],
    passed: u64,
}

impl<'a> Lines<'a> {
    pub fn of(text: &'a [u8]) -> Lines<'a>
        ensures { (result.rest.now ≡ text.now) × (result.passed ≡ 0) }
    {
        Lines {
            rest: text,
            passed: 0,
        }
    }
}

impl<'a> Iterator for Lines<'a> {
    type Item = Line<'a>;

    ghost next_gives = { TakesLine };

    ghost remaining = { λ s. at_most (length s.rest.now) };

    fn next(&mut self) -> Option<Line<'a>> {
        if self.rest.is_empty() {
            return None;
        }
        let (text, rest) = self.rest.split_at(line_length(self.rest));
        self.rest = rest.get(1..).unwrap_or_default();
        // `enumerate` would count from 0, and leave the number beside the line
        self.passed = self.passed.saturating_add(1);
        Some(Line {
            number: self.passed,
            text,
        })
    }
}
