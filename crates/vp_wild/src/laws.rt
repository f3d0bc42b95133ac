//! Laws of matches and payments, each the contract of a function that does nothing.

ghost use Rattle.std.specs.Prelude.{◌≡◌, ℕ, ◌-◌, ◌<◌, Bool, List, Option, None, Some, length, map, slice_index, slice_index_or, true};
ghost use Rattle.std.specs.Bool.{Decides};
ghost use Rattle.std.specs.List.Sorted.{IsPermutation};
ghost use Rattle.vp_pay.specs.declared.pattern.Pattern.{Pattern};
ghost use Rattle.vp_pay.specs.declared.table.PayLine.{PayLine};
ghost use Rattle.vp_pay.specs.declared.table.PayTable.{PayTable};
ghost use Rattle.vp_rank.specs.Counts.{one_suit, ranked};
ghost use Rattle.vp_rank.specs.Wilds.{naturals, wilds};
ghost use Rattle.vp_suit.specs.Classes.{IsDeal, IsKept};
ghost use Rattle.vp_suit.specs.Turns.{turn};
ghost use Rattle.vp_wild.specs.Alike.{Alike, ExchangesSuits};
ghost use Rattle.vp_wild.specs.ByCounts.{matches_by_counts};
ghost use Rattle.vp_wild.specs.Faces.{AreFaces, some_faces};
ghost use Rattle.vp_wild.specs.Patterns.{matches};
ghost use Rattle.vp_wild.specs.Payment.{line, pay};

/// The test that tries all faces tells whether a hand may have faces that pass.
pub fn faces_are_tried()
    ensures { (wild : Option ℕ) (hand : List ℕ) (test : List ℕ → Bool) →
        Decides (some_faces wild hand test) ((faces : List ℕ) × AreFaces wild hand faces × (test faces ≡ true)) }
{}

/// A hand of five cards matches a pattern exactly where the numbers of its wild cards and of its other cards of
/// each rank, and whether the others have at most one suit, say so.
pub fn counts_tell_matches()
    ensures { (pattern : Pattern) (wild : Option ℕ) (hand : List ℕ) → length hand ≡ 5 →
        matches pattern wild hand
        ≡ matches_by_counts pattern (wilds wild hand) (λ r. ranked r (naturals wild hand)) (one_suit (naturals wild hand)) }
{}

/// Hands that are alike have the same pay line and the same payment.
pub fn alike_hands_are_paid_alike()
    ensures line { (table : PayTable) (one two : List ℕ) → length one ≡ 5 → length two ≡ 5 → Alike table.wild one two →
        line table one ≡ line table two }
    ensures payment { (table : PayTable) (coin : ℕ) (one two : List ℕ) → length one ≡ 5 → length two ≡ 5 → Alike table.wild one two →
        pay table coin one ≡ pay table coin two }
{}

/// The order of the cards plays no part.
pub fn order_plays_no_part()
    ensures alike { (wild : Option ℕ) (hand moved : List ℕ) → IsPermutation hand moved → Alike wild hand moved }
    ensures line { (table : PayTable) (hand moved : List ℕ) → length hand ≡ 5 → IsPermutation hand moved →
        line table hand ≡ line table moved }
    ensures payment { (table : PayTable) (coin : ℕ) (hand moved : List ℕ) → length hand ≡ 5 → IsPermutation hand moved →
        pay table coin hand ≡ pay table coin moved }
{}

/// Which suit is which plays no part.
pub fn suits_can_be_exchanged()
    ensures { (wild : Option ℕ) (f to from : ℕ → ℕ) → ExchangesSuits wild f to from → (hand : List ℕ) →
        Alike wild hand (map f hand) }
{}

/// A hand is paid the number of its line in the column of the bet, and 0 where it hits no line.
pub fn hands_are_paid_by_their_line()
    // The place is one of the table's, so that the other line is never taken.
    ensures paid { (table : PayTable) (coin : ℕ) (hand : List ℕ) (place : ℕ) (other : PayLine) → line table hand ≡ Some place →
        pay table coin hand ≡ slice_index (slice_index_or table.lines.items place other).pays (coin - 1) }
    ensures unpaid { (table : PayTable) (coin : ℕ) (hand : List ℕ) → line table hand ≡ None → pay table coin hand ≡ 0 }
{}

/// A deal and the deals that the 24 turns of the suits make of it have the same pay line and the same payment.
pub fn turned_hands_are_paid_alike()
    ensures line { (n t : ℕ) (table : PayTable) (cards : List ℕ) → t < 24 → IsDeal n cards → line table (turn t cards) ≡ line table cards }
    ensures payment { (n coin : ℕ) (table : PayTable) → IsKept n (pay table coin) }
{}
