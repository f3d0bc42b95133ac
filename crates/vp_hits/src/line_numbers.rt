//! The numbers of the pay lines whose hits are counted.

ghost use Rattle.std.specs.Prelude.{◌<◌, IfSome};
ghost use Rattle.vp_hits.specs.Hits.{mark};
ghost use Rattle.vp_hits.specs.Numbers.{two_marks};
ghost use Rattle.vp_hold.specs.Numbers.{AreNumbers};

use vp_hold::place_of;

/// What a hit of the second of two lines counts, where one of the first counts 1. No chance is so large, over the common
/// denominator of any deck.
pub(crate) const SECOND: u64 = 16_777_216;

/// 1 for the hands of a line, or of none, and 0 for all others.
pub(crate) fn marks_of(line: Option<u8>) -> [u64; 33]
    requires { IfSome line (λ place. place < 32) }
    ensures { AreNumbers (mark line) result }
{
    let mut numbers = [0; 33];
    numbers[place_of(line)] = 1;
    numbers
}

/// The same for two lines at once.
pub(crate) fn two_marks_of(first: Option<u8>, second: Option<u8>) -> [u64; 33]
    requires first { IfSome first (λ place. place < 32) }
    requires second { IfSome second (λ place. place < 32) }
    ensures { AreNumbers (two_marks first second) result }
{
    let mut numbers = marks_of(first);
    numbers[place_of(second)] += SECOND;
    numbers
}
