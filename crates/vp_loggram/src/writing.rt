//! Games, written line by line.

ghost use Rattle.std.specs.Prelude.{◌≡◌, ◌+◌, ◌<◌, ◌≤◌, [], ◌∷◌, ◌++◌, codes, length, OnOk, OnErr};
ghost use Rattle.vp_text.specs.Written.{line_of, with_words};
ghost use Rattle.vp_loggram.specs.Spelling.{event_words, key_cards, key_number};

use crate::Event;
use std::alloc::AllocError;
use vp_card::Card;
use vp_lines::add_cards;
use vp_text::Out;

#[tactic(auto, using(vp_text::proofs::WithWords::with_words_append, vp_text::proofs::Room::length_with_word))]
fn add_key_cards(out: &mut Out, key: &[u8], cards: &[Card])
    requires few { length cards.now ≤ 5 }
    requires key { length key.now ≤ 8 }
    requires room { length out.old + 30 < 512 }
    ensures words { out.new ≡ with_words out.old (key_cards key.now cards.now) }
    ensures room { length out.new ≤ length out.old + 24 }
{
    out.word(key);
    add_cards(out, cards);
}

#[tactic(auto, using(vp_text::proofs::Room::length_with_word, vp_text::proofs::Room::length_decimal))]
fn add_key_number(out: &mut Out, key: &[u8], number: u64)
    requires key { length key.now ≤ 8 }
    requires room { length out.old + 60 < 512 }
    ensures words { out.new ≡ with_words out.old (key_number key.now number) }
    ensures room { length out.new ≤ length out.old + 49 }
{
    out.word(key);
    out.number(number as u128);
}

/// The words of a game, in an empty line.
#[tactic(auto, using(vp_text::proofs::WithWords::with_words_append), unfolding(crate::specs::Spelling::event_words))]
fn add_event(out: &mut Out, event: &Event)
    requires { out.old ≡ [] }
    ensures { out.new ≡ with_words [] (event_words event.now) }
{
    add_key_number(out, b"game", event.bet);
    add_key_cards(out, b"deal", &event.deal);
    add_key_cards(out, b"hold", &event.hold);
    add_key_cards(out, b"draw", &event.draw);
    add_key_number(out, b"pay", event.pay);
    add_key_number(out, b"credits", event.credits);
}

impl Event {
    /// Appends the line of the game, with its line feed, as a log has it. Where memory is wanted and there is none, the
    /// text stays as it was.
    #[tactic(auto, using(crate::proofs::Event_lines::event_line))]
    pub fn append(&self, text: &mut Vec<u8>) -> Result<(), AllocError>
        // The line of the game stands behind the text.
        ensures line { OnOk result (text.new.items ≡ text.old.items ++ line_of (event_words self.now)) }
        // Where there is no memory the text is as it was.
        ensures kept { OnErr result (text.new.items ≡ text.old.items) }
    {
        let mut out = Out::new();
        add_event(&mut out, self);
        text.extend_from_slice(out.line())
    }
}

/// Appends the first line of a log, with its line feed. Where memory is wanted and there is none, the text stays as it was.
#[tactic(auto, using(crate::proofs::Event_lines::first_line, vp_text::proofs::Room::length_with_word, vp_text::proofs::Room::length_decimal))]
pub fn append_start(text: &mut Vec<u8>, start: u64) -> Result<(), AllocError>
    ensures line { OnOk result (text.new.items ≡ text.old.items ++ line_of (key_number (codes "log") start)) }
    ensures kept { OnErr result (text.new.items ≡ text.old.items) }
{
    let mut out = Out::new();
    out.word(b"log");
    out.number(start as u128);
    text.extend_from_slice(out.line())
}

/// Appends the last line of a log, with its line feed. Where memory is wanted and there is none, the text stays as it was.
pub fn append_end(text: &mut Vec<u8>) -> Result<(), AllocError>
    ensures line { OnOk result (text.new.items ≡ text.old.items ++ line_of (codes "end" ∷ [])) }
    ensures kept { OnErr result (text.new.items ≡ text.old.items) }
{
    text.extend_from_slice(b"end\n")
}
