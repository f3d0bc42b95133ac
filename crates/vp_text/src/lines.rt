//! The lines of a text that have words, and the words of a line.

ghost use Rattle.std.specs.Prelude.{◌≡◌, ◌+◌, ◌<◌, ◌≤◌, true, false, [], ◌∷◌, length, Some, MatchOption, IfOk, IfErr};
ghost use Rattle.vp_text.specs.Lines.{lines_in, words_in, feed_of, at_end, rest_of};
ghost use Rattle.vp_text.specs.Numbers.{number_of};
ghost use Rattle.vp_text.specs.Pieces.{none_left, one_word};
ghost use Rattle.vp_text.specs.Reading.{next_is, only_is};
ghost use Rattle.vp_text.specs.Written.{IsPlainWord};

use crate::Refused;
use crate::cutting::{cut_key, cut_line, cut_two, cut_word, from_word, what_is_said};
use crate::numerals::cut_number;
use std::marker::Model;

/// The words of one line that are left, from left to right.
#[derive(Drop)]
pub struct Words<'a> {
    line: u32,
    rest: &'a [u8],
}

impl<'a> Model for Words<'a> {
    ghost use Rattle.vp_text.specs.Lines.{WordLine, words_in};

    ghost Value = { WordLine };

    ghost view = { λ w. record { line = w.line; words = words_in w.rest.now } };
}

/// The lines of a text that are left. Lines are counted from 1, also those without words.
#[derive(Drop)]
pub struct Lines<'a> {
    text: &'a [u8],
    rest: &'a [u8],
    count: u32,
    last: u32,
}

impl<'a> Model for Lines<'a> {
    ghost use Rattle.std.specs.Prelude.{◌+◌, ◌≤◌, length};
    ghost use Rattle.vp_text.specs.Lines.{Feed, lines_in, numbered, IsReading};

    ghost Value = { Feed };

    ghost view = { λ l. record {
      lines = numbered (l.count + 1) (lines_in l.rest.now);
      past = record { line = length (lines_in l.rest.now) + l.count + 1; bytes = l.text.now };
      last = l.last;
    } };

    ghost invariant = { λ l. IsReading l.count l.last l.text.now l.rest.now };
}

impl<'a> Words<'a> {
    /// The number of the line in the text.
    pub fn line(&self) -> u32
        ensures { result ≡ self.now.line }
    {
        self.line
    }

    /// The next word of the line.
    pub fn next(&mut self) -> Option<&'a [u8]>
        ensures line { self.new.line ≡ self.old.line }
        // Exactly where no word is left there is none, and nothing changes.
        ensures next { MatchOption result ((self.old.words ≡ []) × (self.new ≡ self.old)) (λ word. self.old.words ≡ word.now ∷ self.new.words) }
    {
        if let Some((word, rest)) = cut_two(self.rest) {
            self.rest = rest;
            return Some(word);
        }
        let text = from_word(self.rest);
        if text.is_empty() {
            return None;
        }
        let (word, rest) = cut_word(text);
        self.rest = rest;
        Some(word)
    }

    /// Passes the next word where it is seen at once to be this one, and tells whether it was; else nothing changes.
    pub(crate) fn pass(&mut self, word: &[u8]) -> bool
        requires { IsPlainWord word.now }
        ensures line { self.new.line ≡ self.old.line }
        ensures passed { result ≡ true → self.old.words ≡ word.now ∷ self.new.words }
        ensures kept { result ≡ false → self.new ≡ self.old }
    {
        match cut_key(self.rest, word) {
            Some(rest) => {
                self.rest = rest;
                true
            }
            None => false,
        }
    }

    /// Takes the next word where it is seen at once to be a number; else nothing changes.
    pub(crate) fn pass_number(&mut self) -> Option<u64>
        ensures line { self.new.line ≡ self.old.line }
        ensures number { MatchOption result (self.new ≡ self.old)
            (λ n. one_word number_of self.old.words ≡ Some (n, self.new.words)) }
    {
        let (value, rest) = cut_number(self.rest)?;
        self.rest = rest;
        Some(value)
    }

    /// A reader of the same words, to look ahead with.
    fn again(&self) -> Words<'a>
        ensures { result ≡ self.now }
    {
        Words {
            line: self.line,
            rest: self.rest,
        }
    }

    /// Looks ahead: no word is left.
    pub fn is_empty(&self) -> bool
        ensures { result ≡ none_left self.now.words }
    {
        self.again().next().is_none()
    }

    /// Nothing more may stand on this line: `None` where a word does.
    pub fn end(&self) -> Option<()>
        ensures { MatchOption result (none_left self.now.words ≡ false) (λ u. none_left self.now.words ≡ true) }
    {
        if self.is_empty() { Some(()) } else { None }
    }

    /// Looks ahead: the next word is this one.
    pub fn next_is(&self, word: &[u8]) -> bool
        ensures { result ≡ next_is word.now self.now.words }
    {
        let mut ahead = self.again();
        match ahead.next() {
            Some(next) => next == word,
            None => false,
        }
    }

    /// Looks ahead: this word is the only one that is left.
    pub fn only_is(&self, word: &[u8]) -> bool
        ensures { result ≡ only_is word.now self.now.words }
    {
        let mut ahead = self.again();
        match ahead.next() {
            Some(next) => next == word && ahead.next().is_none(),
            None => false,
        }
    }
}

impl<'a> Lines<'a> {
    /// The lines of a text of at most 64 MiB: they end at line feeds, `#` begins a comment, and words stand between
    /// spaces and tabs.
    #[tactic(auto, unfolding(crate::specs::Lines::behind_line))]
    pub fn new(bytes: &'a [u8]) -> Lines<'a>
        requires { length bytes.now ≤ 67108864 }
        ensures { result ≡ feed_of bytes.now }
    {
        Lines {
            text: bytes,
            rest: bytes,
            count: 0,
            last: 0,
        }
    }

    /// The next line that has words.
    #[tactic(auto, using(crate::proofs::Rests::behind_next, crate::proofs::Rests::behind_none), unfolding(crate::specs::Lines::behind_line))]
    pub fn next(&mut self) -> Option<Words<'a>>
        ensures past { self.new.past.line ≡ self.old.past.line }
        // Exactly where no line with words is left there is none, and no byte is told from then on.
        ensures next { MatchOption result ((self.old.lines ≡ []) × (self.new ≡ at_end self.old))
            (λ words. (self.old.lines ≡ words ∷ self.new.lines) × (self.new.last ≡ words.line) × (self.new.past ≡ self.old.past)) }
    {
        'lines: while !self.rest.is_empty() {
            let (line, rest) = cut_line(self.rest);
            let text = from_word(what_is_said(line));
            self.rest = rest;
            self.count += 1;
            if !text.is_empty() {
                self.last = self.count;
                return Some(Words {
                    line: self.count,
                    rest: text,
                });
            }
        }
        self.text = self.rest;
        None
    }

    /// The next line that has words, where one is wanted. `Refused` is the line past the end, where none is left.
    pub fn next_wanted(&mut self) -> Result<Words<'a>, Refused>
        ensures past { self.new.past.line ≡ self.old.past.line }
        ensures next { IfOk result (λ words. (self.old.lines ≡ words ∷ self.new.lines) × (self.new.last ≡ words.line) × (self.new.past ≡ self.old.past)) }
        // No byte is told from then on where no line is left.
        ensures none { IfErr result (λ e. (self.old.lines ≡ []) × (self.new ≡ at_end self.old) × (e.line ≡ self.old.past.line)) }
    {
        match self.next() {
            Some(words) => Ok(words),
            None => Err(Refused { line: self.past() }),
        }
    }

    /// One more than the number of lines of the text. It walks the lines that are left.
    pub fn past(&self) -> u32
        ensures { result ≡ self.now.past.line }
    {
        let mut rest = self.rest;
        let mut count = self.count;
        while !rest.is_empty() {
            rest = cut_line(rest).1;
            count += 1;
        }
        count + 1
    }

    /// The number of the line that was given last, and 0 before the first.
    pub fn last(&self) -> u32
        ensures { result ≡ self.now.last }
    {
        self.last
    }

    /// The bytes behind the line feed of the line that was given last: all before the first is given, and none where
    /// that line has no line feed or where no line was left.
    pub fn rest(&self) -> &'a [u8]
        ensures { result.now ≡ rest_of self.now }
    {
        self.rest
    }

    /// There are at most as many lines as a text has bytes.
    #[tactic(auto, using(crate::proofs::Few::few_lines, crate::proofs::Few::few_numbered))]
    pub fn are_few(&self)
        ensures { length self.now.lines ≤ 67108864 }
    {
        let _ = &self.rest;
    }

    /// A reader of the same lines, to look ahead with.
    pub fn again(&self) -> Lines<'a>
        ensures { result ≡ self.now }
    {
        Lines {
            text: self.text,
            rest: self.rest,
            count: self.count,
            last: self.last,
        }
    }
}
