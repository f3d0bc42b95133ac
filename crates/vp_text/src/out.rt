//! The line that is being written.

ghost use Rattle.std.specs.Prelude.{◌≡◌, ◌+◌, ◌<◌, ◌≤◌, [], ◌∷◌, ◌++◌, false, cond, length, decimal};
ghost use Rattle.vp_text.specs.Written.{with_word};

use arrayvec::ArrayVec;
use itoa::Buffer;
use std::marker::Model;

/// A line of at most 512 bytes with its line feed, seen as the bytes of the words so far.
#[derive(Drop)]
pub struct Out {
    line: ArrayVec<u8, 512>,
    ended: bool,
}

impl Model for Out {
    ghost use Rattle.std.specs.Prelude.{◌<◌, ℕ, List, [], cond, length};

    ghost Value = { List ℕ };

    ghost view = { λ o. cond o.ended [] o.line.items };

    ghost invariant = { λ o. length (cond o.ended [] o.line.items) < 512 };
}

/// A line that was ended is empty again.
fn open(line: &mut ArrayVec<u8, 512>, ended: &mut bool)
    ensures open { ended.new ≡ false }
    ensures line { line.new.items ≡ cond ended.old [] line.old.items }
{
    if *ended {
        line.clear();
        *ended = false;
    }
}

impl Out {
    ghost use Rattle.std.specs.Borrow.{sem};
    ghost use Rattle.std.specs.Io.BufRead.{Rests};
    ghost use Rattle.vp_text.specs.contracts.out.Out.{the_row};

    /// An empty line.
    pub fn new() -> Out
        ensures { result ≡ [] }
    {
        Out {
            line: ArrayVec::new(),
            ended: false,
        }
    }

    /// Appends a word, behind one space unless it is the first of the line.
    #[tactic(auto, using(crate::proofs::Room::length_with_word))]
    pub fn word(&mut self, text: &[u8])
        requires { length (with_word self.old text.now) < 512 }
        ensures word { self.new ≡ with_word self.old text.now }
        ensures room { length self.new ≤ length self.old + length text.now + 1 }
    {
        open(&mut self.line, &mut self.ended);
        if !self.line.is_empty() {
            self.line.push(b' ');
        }
        self.line.try_extend_from_slice(text).unwrap();
    }

    /// Appends a number in decimal digits, as a word.
    #[tactic(auto, using(crate::proofs::Room::length_with_word, crate::proofs::Room::length_decimal))]
    pub fn number(&mut self, value: u128)
        requires { length (with_word self.old (decimal value)) < 512 }
        ensures number { self.new ≡ with_word self.old (decimal value) }
        ensures room { length self.new ≤ length self.old + 40 }
    {
        let mut buffer = Buffer::new();
        self.word(buffer.format(value).as_bytes());
    }

    /// The line with its line feed. The next word begins an empty line.
    pub fn line(&mut self) -> &[u8]
        ensures line { result.now ≡ self.old ++ 10 ∷ [] }
        // Once the line is put, nothing is in it.
        ensures* after { sem 𝓛 (Rests the_row self.entry (λ now. now ≡ [])) }
    {
        open(&mut self.line, &mut self.ended);
        self.line.push(b'\n');
        self.ended = true;
        self.line.as_slice()
    }
}
