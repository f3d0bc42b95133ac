//! Sessions, while their records are read.

ghost use Rattle.std.specs.Prelude.{◌≡◌, ◌<◌, ◌^◌, ◌∷◌, [], length, map, bytes_eq, OnOk, IfOk};
ghost use Rattle.std.specs.List.{position};
ghost use Rattle.vp_text.specs.Written.{line_of};
ghost use Rattle.vp_loggram.specs.Spelling.{event_words};
ghost use Rattle.vp_csv.specs.Kept.{closed, has_name, mark_of, start_line, with_text, with_text_at};

use std::alloc::{AllocError, Global};
use std::marker::Model;
use vp_loggram::{Event, append_end, append_start};
use vp_pay::Name;

/// A number below 2^32 that two names seldom share.
#[tactic(auto, using(crate::proofs::Marks::no_byte, crate::proofs::Marks::next_byte))]
fn mark_of(name: &[u8]) -> u64
    ensures value { result ≡ mark_of name.now }
    ensures below { result < 2 ^ 32 }
{
    let mut mark: u64 = 0;
    let mut left = name.len();
    'bytes: while left > 0 {
        left -= 1;
        mark = (mark * 31 + u64::from(name[left])) % 4294967296;
    }
    mark
}

/// A name that is sought, with its mark.
#[derive(Drop)]
struct Sought<'a> {
    name: &'a [u8],
    mark: u64,
}

impl<'a> Model for Sought<'a> {
    ghost use Rattle.std.specs.Prelude.{◌≡◌};
    ghost use Rattle.vp_text.specs.Lines.{Word};
    ghost use Rattle.vp_csv.specs.Kept.{mark_of};

    ghost Value = { Word };

    ghost view = { λ s. s.name.now };

    ghost invariant = { λ s. s.mark ≡ mark_of s.name.now };
}

impl<'a> Sought<'a> {
    fn new(name: &'a [u8]) -> Sought<'a>
        ensures { result ≡ name.now }
    {
        Sought {
            name,
            mark: mark_of(name),
        }
    }
}

/// A session: its name with its mark, and the text of its log.
#[derive(Drop)]
pub(crate) struct Kept {
    name: Name,
    mark: u64,
    text: Vec<u8>,
}

impl Model for Kept {
    ghost use Rattle.std.specs.Prelude.{◌≡◌};
    ghost use Rattle.vp_csv.specs.Kept.{Kept, mark_of};

    ghost Value = { Kept };

    ghost view = { λ k. record { name = k.name; text = k.text.items } };

    ghost invariant = { λ k. k.mark ≡ mark_of k.name };
}

impl Kept {
    /// A session that starts with so many credits.
    #[tactic(auto, unfolding(crate::specs::Kept::start_line))]
    pub(crate) fn open(alloc: Global, name: Name, start: u64) -> Result<Kept, AllocError>
        ensures { IfOk result (λ k. k ≡ record { name = name; text = start_line start }) }
    {
        let mut text = Vec::new(alloc);
        append_start(&mut text, start)?;
        let mark = mark_of(name.text());
        Ok(Kept { name, mark, text })
    }

    pub(crate) fn name(&self) -> &Name
        ensures { result.now ≡ self.now.name }
    {
        &self.name
    }

    pub(crate) fn text(&self) -> &[u8]
        ensures { result.now ≡ self.now.text }
    {
        self.text.as_slice()
    }

    /// Names are compared where their marks agree alone.
    #[tactic(auto, using(crate::proofs::Marks::differ))]
    fn has_name(&self, sought: &Sought) -> bool
        ensures { result ≡ bytes_eq self.now.name sought.now }
    {
        self.mark == sought.mark && self.name.text() == sought.name
    }

    /// Appends a game.
    fn append(&mut self, event: &Event) -> Result<(), AllocError>
        ensures { OnOk result (self.new ≡ with_text (line_of (event_words event.now)) self.old) }
    {
        event.append(&mut self.text)
    }

    /// Ends the log.
    fn close(&mut self) -> Result<(), AllocError>
        ensures { OnOk result (self.new ≡ closed self.old) }
    {
        append_end(&mut self.text)
    }
}

/// The place of the session with this name.
pub(crate) fn place_of(sessions: &[Kept], name: &[u8]) -> Option<usize>
    ensures { result ≡ position (has_name name.now) sessions.now }
{
    let sought = Sought::new(name);
    sessions
        .iter()
        .position(|session| session.has_name(&sought))
}

/// Appends a game to the session at a place.
pub(crate) fn append(sessions: &mut [Kept], place: usize, event: &Event) -> Result<(), AllocError>
    requires { place < length sessions.old }
    ensures { OnOk result
        (sessions.new ≡ with_text_at place (line_of (event_words event.now)) sessions.old) }
{
    sessions[place].append(event)
}

/// Ends the logs.
pub(crate) fn close_all(sessions: &mut [Kept]) -> Result<(), AllocError>
    ensures { OnOk result (sessions.new ≡ map closed sessions.old) }
{
    for session in sessions.iter_mut() {
        session.close()?;
    }
    Ok(())
}
