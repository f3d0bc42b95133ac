//! The words of each payment: how many classes and deals have a segment that begins there, what is lost of the bases, and
//! what is gained in slope.

ghost use Rattle.std.specs.Prelude.{◌≡◌, ◌+◌, ◌-◌, ◌*◌, ◌<◌, ◌≤◌, ◌^◌, [], ◌∷◌, length, slice_index, true};
ghost use Rattle.std.specs.List.{All};
ghost use Rattle.vp_meter.specs.Pieces.{climbing};
ghost use Rattle.vp_meter.specs.Tallies.{change, Added, HasRoom, turns_in};

use crate::Segment;

/// At `from` a segment begins, in a class of this many deals; by so much its base times weight falls, and its slope times
/// weight rises.
#[derive(Clone, Copy, Debug, PartialEq, Eq)]
pub(crate) struct Turn {
    pub from: u32,
    pub weight: u8,
    pub lost: u64,
    pub gained: u64,
}

/// Adds a turn to the four words of its payment.
fn tally(counts: &mut [u64], lo: u32, turn: &Turn)
    requires from { lo ≤ turn.now.from }
    requires inside { 4 * (turn.now.from - lo) + 3 < length counts.old }
    requires classes { slice_index counts.old (4 * (turn.now.from - lo)) + 1 < 2 ^ 64 }
    requires deals { slice_index counts.old (4 * (turn.now.from - lo) + 1) + turn.now.weight < 2 ^ 64 }
    requires lost { slice_index counts.old (4 * (turn.now.from - lo) + 2) + turn.now.lost < 2 ^ 64 }
    requires gained { slice_index counts.old (4 * (turn.now.from - lo) + 3) + turn.now.gained < 2 ^ 64 }
    ensures { Added lo (turn.now ∷ []) counts.old counts.new }
{
    let first = 4 * (turn.from - lo) as usize;
    counts[first] += 1;
    counts[first + 1] += u64::from(turn.weight);
    counts[first + 2] += turn.lost;
    counts[first + 3] += turn.gained;
}

/// Adds the turns of a class from segment to segment.
pub(crate) fn tally_class(counts: &mut [u64], lo: u32, weight: u8, segments: &[Segment])
    requires inside { All (λ s. (lo ≤ s.from) × (4 * (s.from - lo) + 3 < length counts.old)) segments.now }
    requires climbing { climbing segments.now ≡ true }
    requires room { HasRoom lo (turns_in weight segments.now) counts.old }
    ensures { Added lo (turns_in weight segments.now) counts.old counts.new }
{
    for i in 1..segments.len() {
        let turn = turn_between(weight, &segments[i - 1], &segments[i]);
        tally(counts, lo, &turn);
    }
}

/// What changes from one segment to the next.
fn turn_between(weight: u8, before: &Segment, next: &Segment) -> Turn
    requires base { next.now.base ≤ before.now.base }
    requires slope { before.now.slope ≤ next.now.slope }
    requires lost { weight * (before.now.base - next.now.base) < 2 ^ 64 }
    requires gained { weight * (next.now.slope - before.now.slope) < 2 ^ 64 }
    ensures { result ≡ change weight before.now next.now }
{
    Turn {
        from: next.from,
        weight,
        lost: u64::from(weight) * (before.base - next.base),
        gained: u64::from(weight) * (next.slope - before.slope),
    }
}
