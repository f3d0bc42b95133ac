//! A set of ranks.

ghost use Rattle.std.specs.Prelude.{◌≡◌, ℕ, ◌<◌, ◌≤◌, true, Some, IfSome, IsTrue, length};
ghost use Rattle.vp_card.specs.Cards.{has, is_rank_set, held};
ghost use Rattle.vp_card.specs.Texts.{rank_letters, any_text, rank_set_text};
ghost use Rattle.vp_card.specs.Reading.{bits_of, begins, rank_set_of};

use crate::ranks::rank_letters;
use arrayvec::ArrayVec;
use std::marker::Model;

/// A set of ranks that isn't empty.
#[derive(Clone, Copy, Debug, PartialEq, Eq, PartialOrd, Ord)]
pub struct RankSet(u16);

impl Model for RankSet {
    ghost use Rattle.std.specs.Prelude.{◌≡◌, ℕ, true};
    ghost use Rattle.vp_card.specs.Cards.{is_rank_set};

    ghost Value = { ℕ };

    ghost view = { λ s. s.0 };

    ghost invariant = { λ s. is_rank_set s.0 ≡ true };

    ghost inverse = { λ n. record { 0 = n } };
}

impl RankSet {
    /// The set with this text: `any` for all thirteen ranks, else 1 to 12 of the letters `23456789TJQKA`
    /// in this order, none of them twice.
    pub fn read(text: &[u8]) -> Option<RankSet>
        // What is read has that text.
        ensures found { IfSome result (λ set. rank_set_text set ≡ text.now) }
        // Each set is read from its text.
        ensures only { (set : ℕ) → is_rank_set set ≡ true → rank_set_text set ≡ text.now → result ≡ Some set }
        ensures exact { result ≡ rank_set_of text.now }
    {
        rank_set_of(text)
    }

    /// The set's text.
    #[tactic(auto, unfolding(crate::specs::Texts::rank_set_text, crate::specs::Texts::any_text))]
    pub fn text(self) -> ArrayVec<u8, 13>
        ensures { result.items ≡ rank_set_text self }
    {
        if self.0 == 8191 {
            return any();
        }
        letters(self.0)
    }

    /// Whether the set has the rank, 0 to 12.
    pub fn has(self, rank: u8) -> bool
        ensures value { result ≡ has self rank }
        ensures set { is_rank_set self ≡ true }
    {
        rank < 13 && (self.0 >> rank) & 1 == 1
    }
}

#[tactic(auto, unfolding(crate::specs::Texts::any_text))]
fn any() -> ArrayVec<u8, 13>
    ensures { result.items ≡ any_text }
{
    let mut text = ArrayVec::new();
    text.push(b'a');
    text.push(b'n');
    text.push(b'y');
    text
}

fn letters(set: u16) -> ArrayVec<u8, 13>
    ensures { result.items ≡ held set rank_letters }
{
    let mut text = ArrayVec::new();
    let mut bits = set;
    for letter in rank_letters() {
        if bits % 2 == 1 {
            text.push(*letter);
        }
        bits /= 2;
    }
    text
}

#[tactic(auto, unfolding(crate::specs::Reading::rank_set_of, crate::specs::Texts::any_text))]
fn rank_set_of(text: &[u8]) -> Option<RankSet>
    ensures { result ≡ rank_set_of text.now }
{
    if text == b"any".as_slice() {
        return Some(RankSet(8191));
    }
    let bits = bits_of(text)?;
    if bits == 0 || bits == 8191 {
        None
    } else {
        Some(RankSet(bits))
    }
}

fn bits_of(text: &[u8]) -> Option<u16>
    ensures value { result ≡ bits_of rank_letters text.now }
    ensures below { IfSome result (λ bits. bits < 8192) }
{
    let mut bits = 0u16;
    let mut bit = 1u16;
    let mut rest = text;
    for letter in rank_letters() {
        if begins(*letter, rest) {
            bits += bit;
            rest = rest.split_at(1).1;
        }
        bit *= 2;
    }
    rest.is_empty().then_some(bits)
}

fn begins(letter: u8, text: &[u8]) -> bool
    ensures value { result ≡ begins letter text.now }
    ensures some { IsTrue result → 1 ≤ length text.now }
{
    match text {
        [] => false,
        [first, ..] => letter == *first,
    }
}

/// Two sets of ranks with one text are one set.
pub fn rank_set_texts_differ()
    ensures { (a b : ℕ) → is_rank_set a ≡ true → is_rank_set b ≡ true → rank_set_text a ≡ rank_set_text b → a ≡ b }
{}
