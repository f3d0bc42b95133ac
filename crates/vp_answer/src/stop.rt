//! Where an input is stopped at.

ghost use Rattle.std.specs.Prelude.{◌≡◌};
ghost use Rattle.vp_io.specs.Puts.{Puts};
ghost use Rattle.vp_answer.specs.Answers.{finding, record_refusal, refusal};

use crate::{Rule, Status};
use vp_io::{Sink, WriteFault};
use vp_lines::{Word, put_words};
use vp_text::Refused;

/// Where an input is stopped at.
#[derive(Clone, Copy, Debug, PartialEq, Eq)]
pub enum Stop {
    /// It is not in the grammar of the command, or does not fit it.
    Refused {
        line: u32,
    },
    /// A record of its CSV text, counted from 1, breaks the rule of a record.
    Record {
        place: u32,
    },
    /// It breaks a rule: the line or the game where, the rule, the number that stands there, and the number due.
    Finding {
        at: u32,
        rule: Rule,
        said: u128,
        due: u128,
    },
}

impl Stop {
    ghost use Rattle.std.specs.Prelude.{◌≡◌};
    ghost use Rattle.vp_io.specs.Puts.{Puts};
    ghost use Rattle.vp_answer.specs.Answers.{stop_answer};

    /// The status that the program ends with.
    pub fn status(self) -> Status
        ensures { result ≡ (stop_answer self).status }
    {
        match self {
            Stop::Refused { .. } | Stop::Record { .. } => Status::Refused,
            Stop::Finding { .. } => Status::Finding,
        }
    }

    /// Puts its line: `refused LINE`, `refused record PLACE`, or `finding AT RULE SAID DUE`.
    pub fn put<K: Sink>(self, sink: &mut K) -> Result<(), WriteFault>
        ensures { Puts (K.told sink.old) (K.told sink.new) result (stop_answer self).text }
    {
        match self {
            Stop::Refused { line } => put_refusal(line, sink),
            Stop::Record { place } => put_record_refusal(place, sink),
            Stop::Finding {
                at,
                rule,
                said,
                due,
            } => put_finding(at, rule, said, due, sink),
        }
    }
}

impl From<Refused> for Stop {
    ghost use Rattle.std.specs.Prelude.{◌≡◌};
    ghost use Rattle.vp_answer.specs.declared.stop.Stop.TheVariants.{Refused as RefusedAt};

    ghost from_gives = { λ refused stop. stop ≡ RefusedAt refused.line };

    fn from(refused: Refused) -> Stop {
        Stop::Refused { line: refused.line }
    }
}

/// Puts the line of an input that is refused at a line.
fn put_refusal<K: Sink>(line: u32, sink: &mut K) -> Result<(), WriteFault>
    ensures { Puts (K.told sink.old) (K.told sink.new) result (refusal line).text }
{
    put_words(&[Word::Text(b"refused"), Word::Number(line as u128)], sink)
}

/// Puts the line of an input that is refused at a record.
fn put_record_refusal<K: Sink>(place: u32, sink: &mut K) -> Result<(), WriteFault>
    ensures { Puts (K.told sink.old) (K.told sink.new) result (record_refusal place).text }
{
    let words = [
        Word::Text(b"refused"),
        Word::Text(b"record"),
        Word::Number(place as u128),
    ];
    put_words(&words, sink)
}

/// Puts the line of a broken rule.
#[tactic(auto, unfolding(crate::specs::Answers::finding_words))]
fn put_finding<K: Sink>(
    at: u32,
    rule: Rule,
    said: u128,
    due: u128,
    sink: &mut K,
) -> Result<(), WriteFault>
    ensures { Puts (K.told sink.old) (K.told sink.new) result (finding at rule said due).text }
{
    let words = [
        Word::Text(b"finding"),
        Word::Number(at as u128),
        Word::Text(rule.word()),
        Word::Number(said),
        Word::Number(due),
    ];
    put_words(&words, sink)
}
