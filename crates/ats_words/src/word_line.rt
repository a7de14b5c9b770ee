//! A line and its words.

ghost use Rattle.std.specs.Prelude.{◌≡◌, ◌≢◌, ◌<◌, ◌≤◌, ◌∷◌, ◌==◌, length, drop, slice_index, slice_range};
ghost use Rattle.ats_io.specs.Text.{words_of};
ghost use Rattle.ats_words.specs.Words.{word, is_skipped};

use std::marker::Model;

/// How many words of a line are kept: one more than any line has that says something.
pub const KEPT_WORDS: usize = 11;

/// A line of a file, cut into its words once. Words are separated by one or more spaces; spaces at
/// either end are passed over. Contracts see the bytes of the line.
#[derive(Drop)]
pub struct WordLine<'a> {
    text: &'a [u8],
    spans: [Span; KEPT_WORDS],
    count: usize,
}

// Where a word begins in its line, and where it ends.
#[derive(Clone, Copy)]
struct Span {
    begin: usize,
    end: usize,
}

impl<'a> Model for WordLine<'a> {
    ghost use Rattle.std.specs.Prelude.{List, ℕ};
    ghost use Rattle.ats_words.specs.Spans.{AreSpans};

    ghost Value = { List ℕ };

    ghost view = { λ l. l.text.now };

    ghost invariant = { λ l. AreSpans l.text.now l.spans l.count };
}

impl<'a> WordLine<'a> {
    /// A line, which ends before its LF.
    pub fn new(text: &'a [u8]) -> Self
        ensures { result ≡ text.now }
    {
        let mut spans = [Span { begin: 0, end: 0 }; KEPT_WORDS];
        let mut at = word_begin(text, 0);
        for count in 0..KEPT_WORDS {
            if at == text.len() {
                return WordLine { text, spans, count };
            }
            let end = word_end(text, at);
            spans[count] = Span { begin: at, end };
            at = word_begin(text, end);
        }
        WordLine {
            text,
            spans,
            count: KEPT_WORDS,
        }
    }

    /// Whether the line has no words or is a comment.
    pub fn is_skipped(&self) -> bool
        ensures { result ≡ is_skipped self.now }
    {
        self.text.first() == Some(&b'#') || self.count == 0
    }

    /// The word at a place, counted from 0; empty where there is none.
    pub fn word(&self, place: usize) -> &[u8]
        requires { place < KEPT_WORDS }
        ensures { result.now ≡ word (words_of self.now) place }
    {
        if place >= self.count {
            return &[];
        }
        let span = self.spans[place];
        &self.text[span.begin..span.end]
    }

    /// Whether the line has exactly so many words.
    pub fn has_words(&self, count: usize) -> bool
        requires { count < KEPT_WORDS }
        ensures { result ≡ (length (words_of self.now) == count) }
    {
        self.count == count
    }
}

// The place where the next word begins, at this place or behind it; the end of the line where none does.
fn word_begin(text: &[u8], from: usize) -> usize
    requires { from ≤ length text.now }
    ensures rest { words_of (drop from text.now) ≡ words_of (drop result text.now) }
    ensures from { from ≤ result }
    ensures within { result ≤ length text.now }
    ensures begins { result < length text.now → slice_index text.now result ≢ 32 }
{
    let mut at = from;
    while at < text.len() {
        if text[at] != b' ' {
            return at;
        }
        at += 1;
    }
    at
}

// The place where the word ends that begins at this place.
fn word_end(text: &[u8], begin: usize) -> usize
    requires within { begin < length text.now }
    requires begins { slice_index text.now begin ≢ 32 }
    ensures word { words_of (drop begin text.now)
        ≡ slice_range text.now begin result ∷ words_of (drop result text.now) }
    ensures some { begin < result }
    ensures within { result ≤ length text.now }
{
    let mut at = begin + 1;
    while at < text.len() {
        if text[at] == b' ' {
            return at;
        }
        at += 1;
    }
    at
}
