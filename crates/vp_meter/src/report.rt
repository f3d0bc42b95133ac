//! The whole meter, put line by line.

ghost use Rattle.std.specs.Prelude.{◌≡◌, ℕ, ◌+◌, ◌-◌, ◌*◌, ◌^◌, ◌≤◌, ◌<◌, ◌++◌, ◌∷◌, [], length, map, flat_map, slice_index, IfOk, OnOk};
ghost use Rattle.vp_text.specs.Written.{line_of, written};
ghost use Rattle.vp_io.specs.Puts.{Puts};
ghost use Rattle.vp_suit.specs.Classes.{representatives};
ghost use Rattle.vp_meter.specs.Metered.{IsMetering};
ghost use Rattle.vp_meter.specs.Tallies.{AreTallied, turns_of};
ghost use Rattle.vp_meter.specs.Pieces.{first_piece};
ghost use Rattle.vp_meter.specs.Spelling.{body_text, class_text, class_words, graphs_of, head_words, meter_text, segment_words};

use crate::piece::Piece;
use crate::pieces::{put_later_pieces, put_piece};
use crate::tallies::tally_class;
use crate::{Metered, Segment, segments};
use vp_io::{Sink, WriteFault};
use vp_lines::{Word, put_words};
use vp_suit::{Class, Classes};

/// Writes the meter for the payments from `lo` to `hi`: its first line, the classes with their segments, the pieces, and
/// `end`. `counts` has four words for each payment, all 0; nothing is said of them afterwards.
pub fn meter<K: Sink>(
    m: &Metered,
    lo: u32,
    hi: u32,
    counts: &mut [u64],
    sink: &mut K,
) -> Result<(), WriteFault>
    requires order { lo ≤ hi }
    requires most { hi ≤ 500000 }
    requires long { length counts.old ≡ 4 * (hi - lo + 1) }
    requires zeros { (i : ℕ) → slice_index counts.old i ≡ 0 }
    // All lines are put; or a proper beginning of them, and a fault is counted.
    ensures { Puts (K.told sink.old) (K.told sink.new) result (written (meter_text m.now lo hi)) }
{
    put_head(m, lo, hi, sink)?;
    put_body(m, lo, hi, counts, sink)
}

/// Puts the first line.
#[tactic(auto, unfolding(crate::specs::Spelling::head_words))]
fn put_head<K: Sink>(m: &Metered, lo: u32, hi: u32, sink: &mut K) -> Result<(), WriteFault>
    ensures { Puts (K.told sink.old) (K.told sink.new) result (line_of (head_words m.now lo hi)) }
{
    let name = m.name();
    let words = [
        Word::Text(b"meter"),
        Word::Number(m.coin() as u128),
        Word::Text(name),
        Word::Number(lo as u128),
        Word::Number(hi as u128),
    ];
    put_words(&words, sink)
}

/// Puts what stands behind the first line.
fn put_body<K: Sink>(
    m: &Metered,
    lo: u32,
    hi: u32,
    counts: &mut [u64],
    sink: &mut K,
) -> Result<(), WriteFault>
    requires order { lo ≤ hi }
    requires most { hi ≤ 500000 }
    requires long { length counts.old ≡ 4 * (hi - lo + 1) }
    requires zeros { (i : ℕ) → slice_index counts.old i ≡ 0 }
    ensures { Puts (K.told sink.old) (K.told sink.new) result (written (body_text m.now lo hi)) }
{
    let first = put_classes(m, lo, hi, counts, sink)?;
    put_piece(&first, sink)?;
    put_later_pieces(lo, hi, &first, counts, sink)?;
    put_words(&[Word::Text(b"end")], sink)
}

/// Puts each class with its segments, by rising index, tallies where they begin, and answers the sums at `lo`.
fn put_classes<K: Sink>(
    m: &Metered,
    lo: u32,
    hi: u32,
    counts: &mut [u64],
    sink: &mut K,
) -> Result<Piece, WriteFault>
    requires order { lo ≤ hi }
    requires most { hi ≤ 500000 }
    requires long { length counts.old ≡ 4 * (hi - lo + 1) }
    requires zeros { (i : ℕ) → slice_index counts.old i ≡ 0 }
    ensures puts { Puts (K.told sink.old) (K.told sink.new) result
        (written (flat_map (class_text m.now lo hi) (representatives m.now.table.deck))) }
    ensures first { IfOk result (λ first. first ≡ first_piece lo (graphs_of m.now lo hi)) }
    ensures tallied { OnOk result (AreTallied lo (flat_map turns_of (graphs_of m.now lo hi)) counts.new) }
    ensures long { length counts.new ≡ length counts.old }
    ensures metering { IsMetering m.now }
{
    let mut classes = Classes::new(m.table().deck);
    let mut first = Piece {
        from: lo,
        classes: 0,
        deals: 0,
        base: 0,
        slope: 0,
    };
    while let Some(class) = classes.next() {
        let found = segments(m, &class.hand, lo, hi);
        let segments = found.as_slice();
        put_class(&class, segments, sink)?;
        tally_class(counts, lo, class.weight, segments);
        first = added(first, class.weight, &segments[0]);
    }
    Ok(first)
}

/// The sums with those of one more class.
fn added(first: Piece, weight: u8, segment: &Segment) -> Piece
    requires base { first.base + weight * segment.now.base < 2 ^ 64 }
    requires slope { first.slope + weight * segment.now.slope < 2 ^ 64 }
    ensures { result ≡ record first {
      base = first.base + weight * segment.now.base;
      slope = first.slope + weight * segment.now.slope;
    } }
{
    Piece {
        base: first.base + u64::from(weight) * segment.base,
        slope: first.slope + u128::from(weight) * u128::from(segment.slope),
        ..first
    }
}

/// Puts the line of a class, and those of its segments.
fn put_class<K: Sink>(class: &Class, segments: &[Segment], sink: &mut K) -> Result<(), WriteFault>
    ensures { Puts (K.told sink.old) (K.told sink.new) result
        (line_of (class_words class.now.hand class.now.weight) ++ written (map segment_words segments.now)) }
{
    put_class_line(class, sink)?;
    put_segments(segments, sink)
}

/// Puts the line of a class.
#[tactic(auto, unfolding(crate::specs::Spelling::class_words))]
fn put_class_line<K: Sink>(class: &Class, sink: &mut K) -> Result<(), WriteFault>
    ensures { Puts (K.told sink.old) (K.told sink.new) result (line_of (class_words class.now.hand class.now.weight)) }
{
    let words = [
        Word::Text(b"class"),
        Word::Hand(&class.hand),
        Word::Number(class.weight as u128),
    ];
    put_words(&words, sink)
}

/// Puts the lines of segments.
fn put_segments<K: Sink>(segments: &[Segment], sink: &mut K) -> Result<(), WriteFault>
    ensures { Puts (K.told sink.old) (K.told sink.new) result (written (map segment_words segments.now)) }
{
    for segment in segments {
        put_segment(segment, sink)?;
    }
    Ok(())
}

/// Puts the line of a segment.
#[tactic(auto, unfolding(crate::specs::Spelling::segment_words))]
fn put_segment<K: Sink>(segment: &Segment, sink: &mut K) -> Result<(), WriteFault>
    ensures { Puts (K.told sink.old) (K.told sink.new) result (line_of (segment_words segment.now)) }
{
    let words = [
        Word::Text(b"seg"),
        Word::Number(segment.from as u128),
        Word::Number(segment.mask as u128),
        Word::Number(segment.base as u128),
        Word::Number(segment.slope as u128),
    ];
    put_words(&words, sink)
}
