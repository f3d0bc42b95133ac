//! The lines of a certificate behind its pay table, each put as it comes.

ghost use Rattle.std.specs.Prelude.{[], ◌∷◌, codes};
ghost use Rattle.std.specs.Fmt.{decimal};
ghost use Rattle.vp_text.specs.Written.{line_of, written};
ghost use Rattle.vp_check.specs.Spelling.{class_words, return_words};
ghost use Rattle.vp_io.specs.Puts.{Puts};

use vp_check::ClassLine;
use vp_io::{Sink, WriteFault};
use vp_lines::{Word, put_lines, put_words};

/// Puts the line of the bet.
pub(crate) fn put_bet<K: Sink>(coin: u8, sink: &mut K) -> Result<(), WriteFault>
    ensures { Puts (K.told sink.old) (K.told sink.new) result (line_of (codes "cert" ∷ decimal coin ∷ [])) }
{
    put_words(&[Word::Text(b"cert"), Word::Number(coin as u128)], sink)
}

/// Puts a class line.
#[tactic(auto, unfolding(vp_check::specs::Spelling::class_words))]
pub(crate) fn put_class<K: Sink>(line: &ClassLine, sink: &mut K) -> Result<(), WriteFault>
    ensures { Puts (K.told sink.old) (K.told sink.new) result (line_of (class_words line.now)) }
{
    let words = [
        Word::Text(b"class"),
        Word::Hand(&line.hand),
        Word::Number(line.weight as u128),
        Word::Number(line.mask as u128),
        Word::Number(line.value as u128),
    ];
    put_words(&words, sink)
}

/// Puts the line of the return, and the last line.
#[tactic(auto, unfolding(vp_check::specs::Spelling::return_words))]
pub(crate) fn put_return<K: Sink>(
    sum: u128,
    denominator: u64,
    sink: &mut K,
) -> Result<(), WriteFault>
    ensures { Puts (K.told sink.old) (K.told sink.new) result
        (written (return_words sum denominator ∷ (codes "end" ∷ []) ∷ [])) }
{
    let fraction = [
        Word::Text(b"return"),
        Word::Fraction(sum, denominator as u128),
    ];
    put_lines(&[&fraction, &[Word::Text(b"end")]], sink)
}
