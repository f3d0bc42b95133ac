//! The lines of the pieces, read off the words of all payments.

ghost use Rattle.std.specs.Prelude.{◌≡◌, ◌+◌, ◌-◌, ◌*◌, ◌<◌, ◌≤◌, ◌^◌, length, map};
ghost use Rattle.vp_text.specs.Written.{line_of, written};
ghost use Rattle.vp_io.specs.Puts.{Puts};
ghost use Rattle.vp_meter.specs.Pieces.{piece_words};
ghost use Rattle.vp_meter.specs.Tallies.{next_piece, told};

use crate::piece::Piece;
use vp_io::{Sink, WriteFault};
use vp_lines::{Word, put_words};

/// Puts a piece for each payment above `lo` at which some class has a segment that begins.
pub(crate) fn put_later_pieces<K: Sink>(
    lo: u32,
    hi: u32,
    first: &Piece,
    counts: &[u64],
    sink: &mut K,
) -> Result<(), WriteFault>
    requires order { lo ≤ hi }
    requires long { length counts.now ≡ 4 * (hi - lo + 1) }
    requires most { hi ≤ 500000 }
    requires small { first.now.slope < 2 ^ 64 }
    ensures { Puts (K.told sink.old) (K.told sink.new) result
        (written (map piece_words (told lo counts.now 0 first.now.base first.now.slope (hi - lo)))) }
{
    let mut base = first.base;
    let mut slope = first.slope;
    for i in 0..hi - lo {
        let piece = next_piece(lo, i, base, slope, counts);
        base = piece.base;
        slope = piece.slope;
        if piece.classes > 0 {
            put_piece(&piece, sink)?;
        }
    }
    Ok(())
}

/// The piece that begins behind place `i`, where these are the sums before.
fn next_piece(lo: u32, i: u32, base: u64, slope: u128, counts: &[u64]) -> Piece
    requires place { 4 * (i + 1) + 3 < length counts.now }
    requires most { lo + i < 500000 }
    requires small { slope ≤ (i + 1) * 2 ^ 64 }
    ensures piece { result ≡ next_piece lo counts.now i base slope }
    ensures small { result.slope ≤ (i + 2) * 2 ^ 64 }
{
    let first = 4 * (i as usize + 1);
    Piece {
        from: lo + i + 1,
        classes: counts[first],
        deals: counts[first + 1],
        base: base.saturating_sub(counts[first + 2]),
        slope: slope + u128::from(counts[first + 3]),
    }
}

/// Puts the line of a piece.
#[tactic(auto, unfolding(crate::specs::Pieces::piece_words))]
pub(crate) fn put_piece<K: Sink>(piece: &Piece, sink: &mut K) -> Result<(), WriteFault>
    ensures { Puts (K.told sink.old) (K.told sink.new) result (line_of (piece_words piece.now)) }
{
    let words = [
        Word::Text(b"piece"),
        Word::Number(piece.from as u128),
        Word::Number(piece.classes as u128),
        Word::Number(piece.deals as u128),
        Word::Number(piece.base as u128),
        Word::Number(piece.slope),
    ];
    put_words(&words, sink)
}
