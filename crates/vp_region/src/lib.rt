//! Words of memory that are lent, carved into disjoint slices, and one block of such words on the heap.
#![tactic(auto)]

ghost use Rattle.std.specs.Prelude.{◌≡◌, ◌+◌, ◌-◌, ◌<◌, ℕ, length, replicate, IfOk, IfSome, IfNone, IsNone, ◌↔◌};
ghost use Rattle.std.specs.Borrow.{Lends, Array, sem, u64 as word};
ghost use Rattle.vp_region.specs.contracts.Region.{the_row};

use std::alloc::{AllocError, Global};
use std::marker::Model;
use std::mem;

/// One block of words of 64 bits, seen as their number.
#[derive(Drop)]
pub struct Region {
    words: Vec<u64>,
}

impl Model for Region {
    ghost use Rattle.std.specs.Prelude.{ℕ, length};

    ghost Value = { ℕ };

    ghost view = { λ r. length r.words.items };
}

/// What is left of the words that were lent, while they are carved.
#[derive(Drop)]
pub struct Carver<'a> {
    rest: &'a mut [u64],
}

impl Region {
    /// A block of so many words. The error is want of memory alone.
    pub fn open(alloc: Global, words: usize) -> Result<Region, AllocError>
        ensures { IfOk result (λ region. region ≡ words) }
    {
        let words = vec![in alloc; 0u64; words]?;
        Ok(Region { words })
    }

    /// No words. It asks for no memory.
    pub fn none(alloc: Global) -> Region
        ensures { result ≡ 0 }
    {
        Region {
            words: Vec::new(alloc),
        }
    }

    /// The whole block, to be lent.
    pub fn words(&mut self) -> &mut [u64]
        ensures* back { sem 𝓛 (Lends the_row (Array word 0) self.entry result (λ _. self.old)) }
        ensures size { length result.now ≡ self.old }
    {
        &mut self.words
    }

    /// Starts over at the whole block; the loans of an earlier carving have ended.
    pub fn carve(&mut self) -> Carver<'_>
        ensures* back { sem 𝓛 (Lends the_row (Array word 0) self.entry result.rest (λ _. self.old)) }
        ensures size { length result.rest.now ≡ self.old }
    {
        Carver {
            rest: &mut self.words,
        }
    }
}

impl<'a> Carver<'a> {
    /// Carves all of these words, which may hold any numbers.
    pub fn over(words: &'a mut [u64]) -> Carver<'a>
        ensures { length result.rest.now ≡ length words.old }
    {
        Carver { rest: words }
    }

    /// The words not yet handed out.
    pub fn rest(&self) -> usize
        ensures { result ≡ length self.now.rest.now }
    {
        self.rest.len()
    }

    /// A slice of so many zeros, or `None` exactly where fewer words are left.
    pub fn take(&mut self, words: usize) -> Option<&'a mut [u64]>
        ensures none { IsNone result ↔ (length self.old.rest.now < words) }
        ensures some { IfSome result (λ part. part.now ≡ replicate words 0) }
        ensures rest { IfSome result (λ part. length self.new.rest.now + words ≡ length self.old.rest.now) }
        ensures same { IfNone result (self.new ≡ self.old) }
    {
        let Some(part) = self.take_as_it_is(words) else {
            return None;
        };
        part.fill(0);
        Some(part)
    }

    /// A slice of so many words, which hold any numbers, or `None` exactly where fewer words are left. It is for who
    /// writes every word before reading one.
    pub fn take_as_it_is(&mut self, words: usize) -> Option<&'a mut [u64]>
        ensures none { IsNone result ↔ (length self.old.rest.now < words) }
        ensures some { IfSome result (λ part. length part.now ≡ words) }
        ensures rest { IfSome result (λ part. length self.new.rest.now + words ≡ length self.old.rest.now) }
        ensures same { IfNone result (self.new ≡ self.old) }
    {
        if self.rest.len() < words {
            return None;
        }
        let (part, rest) = mem::take(&mut self.rest).split_at_mut(words);
        self.rest = rest;
        Some(part)
    }
}
