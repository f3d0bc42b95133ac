//! The lines of all holds of a hand, and which of them is highest.

ghost use Rattle.std.specs.Prelude.{◌≡◌, ℕ, ◌+◌, ◌*◌, ◌<◌, ◌≤◌};
ghost use Rattle.vp_meter.specs.LinesOfHolds.{AreLines, IsTop, StaysTo, height, line_at, own_height};
ghost use Rattle.vp_meter.specs.Segments.{segment_at, segments};

use crate::Segment;
use arrayvec::ArrayVec;

/// With `x` in the metered line the hold `mask` is worth `bases[mask] + slopes[mask] * x`.
#[derive(Clone, Copy, Debug, PartialEq, Eq)]
pub(crate) struct HoldLines {
    pub bases: [u64; 32],
    pub slopes: [u64; 32],
}

/// The segments from `lo` to `hi`: each jumps to the first payment at which a hold is worth more.
pub(crate) fn segments_of(lines: &HoldLines, lo: u32, hi: u32) -> ArrayVec<Segment, 32>
    requires { lo ≤ hi }
    ensures { (w : ℕ → ℕ → ℕ) → AreLines w lines.now → result.items ≡ segments w lo hi }
{
    let mut found = ArrayVec::new();
    let mut last = choice_at(lines, lo);
    let mut end = stays_to(lines, &last, hi);
    found.push(last);
    while end < hi {
        last = choice_at(lines, end + 1);
        end = stays_to(lines, &last, hi);
        found.push(last);
    }
    found
}

/// The segment that begins at `x`: the steepest of the holds that are worth most there, and of those the least.
fn choice_at(lines: &HoldLines, x: u32) -> Segment
    ensures from { result.from ≡ x }
    ensures top { IsTop lines.now result }
    ensures choice { (w : ℕ → ℕ → ℕ) → AreLines w lines.now → result ≡ segment_at w x }
{
    let mut best = line_of(lines, x, 0);
    for mask in 1..32u8 {
        let next = line_of(lines, x, mask);
        best = better(best, next);
    }
    best
}

/// The line of a hold, from `x` on.
fn line_of(lines: &HoldLines, x: u32, mask: u8) -> Segment
    requires { mask < 32 }
    ensures { result ≡ line_at lines.now x mask }
{
    Segment {
        from: x,
        mask,
        base: lines.bases[mask as usize],
        slope: lines.slopes[mask as usize],
    }
}

/// What a segment is worth where it begins.
fn worth(segment: &Segment) -> u128
    ensures { result ≡ own_height segment.now }
{
    u128::from(segment.base) + u128::from(segment.from) * u128::from(segment.slope)
}

/// The next line where it is worth more, or as much and is steeper.
fn better(best: Segment, next: Segment) -> Segment
    ensures more { own_height best < own_height next → result ≡ next }
    ensures steeper { own_height best ≡ own_height next → best.slope < next.slope → result ≡ next }
    ensures same { own_height best ≡ own_height next → next.slope ≤ best.slope → result ≡ best }
    ensures less { own_height next < own_height best → result ≡ best }
{
    let now = worth(&best);
    let then_worth = worth(&next);
    if now < then_worth || (now == then_worth && best.slope < next.slope) {
        next
    } else {
        best
    }
}

/// The last payment up to `hi` at which no hold is worth more than the segment.
fn stays_to(lines: &HoldLines, segment: &Segment, hi: u32) -> u32
    requires top { IsTop lines.now segment.now }
    requires from { segment.now.from ≤ hi }
    ensures { StaysTo lines.now segment.now hi result }
{
    let mut end = hi;
    for mask in 0..32usize {
        end = stays_below(segment, lines.bases[mask], lines.slopes[mask], end);
    }
    end
}

/// The last payment up to `hi` at which the other line is not above the segment.
fn stays_below(segment: &Segment, base: u64, slope: u64, hi: u32) -> u32
    requires from { segment.now.from ≤ hi }
    requires below { base + segment.now.from * slope ≤ own_height segment.now }
    ensures from { segment.now.from ≤ result }
    ensures to { result ≤ hi }
    ensures stays { (x : ℕ) → segment.now.from ≤ x → x ≤ result
        → base + x * slope ≤ height segment.now x }
    ensures ends { result < hi → height segment.now (result + 1) < base + (result + 1) * slope }
{
    if slope <= segment.slope {
        return hi;
    }
    let last = (segment.base - base) / (slope - segment.slope);
    if last < u64::from(hi) {
        last as u32
    } else {
        hi
    }
}
