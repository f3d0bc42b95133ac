//! Sessions that were read.

ghost use Rattle.std.specs.Prelude.{◌≡◌, ◌<◌, ◌≤◌, None, length, IfErr, IfOk, OnOk};
ghost use Rattle.vp_card.specs.Cards.{IsDeck};
ghost use Rattle.vp_pay.specs.Written.{StandsIn};
ghost use Rattle.vp_text.specs.Written.{written};
ghost use Rattle.vp_loggram.specs.Logs.{IsLog};
ghost use Rattle.vp_loggram.specs.Spelling.{log_text};
ghost use Rattle.vp_csv.specs.Rules.{IsStop, refused_record};
ghost use Rattle.vp_csv.specs.Sessions.{session_at, sessions_of};

use crate::CsvStop;
use crate::kept::Kept;
use crate::reading::{close, read_kept};
use std::alloc::Global;
use std::marker::Model;
use vp_pay::Name;

/// The sessions of a CSV text, in the order of the records that open them: the name of each, and its log.
#[derive(Drop)]
pub struct Sessions {
    kept: Vec<Kept>,
    deck: u8,
}

impl Model for Sessions {
    ghost use Rattle.vp_csv.specs.Kept.{AreKept, sorted_of};
    ghost use Rattle.vp_csv.specs.Sessions.{Sorted};

    ghost Value = { Sorted };

    ghost view = { λ s. sorted_of s.deck s.kept.items };

    ghost invariant = { λ s. AreKept s.deck s.kept.items };
}

impl Sessions {
    /// Reads a CSV text of many sessions, with cards of a deck of so many.
    ///
    /// Its first record has the names of the fields, `session,bet,deal,hold,draw,pay,credits`. A record whose name no
    /// record before has opens a session: its last field is the number of credits at the start, 0 to 1000000000000, and
    /// the fields between are empty. Each other one is a game, its cards being written with one space between. There are
    /// at most 400000 records behind the first, of at most 1000 sessions.
    #[tactic(auto, unfolding(crate::specs::Rules::refused_record, crate::specs::Sessions::sessions_of))]
    pub fn read(alloc: Global, bytes: &[u8], deck: u8) -> Result<Sessions, CsvStop>
        requires { IsDeck deck }
        // Where sessions are read, each record keeps its rule, and they are the sessions of the records.
        ensures kept { OnOk result (refused_record deck bytes.now ≡ None) }
        ensures read { IfOk result
            (λ s. s ≡ record { deck = deck; sessions = sessions_of deck bytes.now }) }
        // The first record that breaks its rule is refused; want of memory is free.
        ensures refused { IfErr result (λ e. IsStop e (refused_record deck bytes.now)) }
    {
        let mut kept = read_kept(alloc, bytes, deck)?;
        let Ok(()) = close(&mut kept) else {
            return Err(CsvStop::NoMemory);
        };
        Ok(Sessions { kept, deck })
    }

    /// The number of sessions, at most 1000.
    pub fn count(&self) -> u32
        ensures value { result ≡ length self.now.sessions }
        ensures few { result ≤ 1000 }
    {
        self.kept.len() as u32
    }

    /// The name of the session at a place, from 0.
    pub fn name(&self, place: u32) -> &Name
        requires { place < length self.now.sessions }
        ensures { result.now ≡ (session_at self.now place).name }
    {
        self.kept[place as usize].name()
    }

    /// The log of the session at a place, from 0: the bytes of a log section.
    pub fn log(&self, place: u32) -> &[u8]
        requires { place < length self.now.sessions }
        // The log is in the grammar, and the bytes are its spelling, so it is read from them.
        ensures log { IsLog self.now.deck (session_at self.now place).log }
        ensures spelled { result.now ≡ written (log_text (session_at self.now place).log) }
        ensures stands { StandsIn log_text (session_at self.now place).log result.now }
        // They are few enough to be read as lines.
        ensures short { length result.now < 67108864 }
    {
        self.kept[place as usize].text()
    }
}
