//! Laws of turns and classes, for proofs.

ghost use Rattle.std.specs.Prelude.{◌≡◌, ℕ, ◌<◌, ◌≤◌, List, length, sum, sum_by, true};
ghost use Rattle.std.specs.List.{Contains};
ghost use Rattle.vp_card.specs.Cards.{held};
ghost use Rattle.vp_sets.specs.Draws.{discarded};
ghost use Rattle.vp_sets.specs.Sets.{choose};
ghost use Rattle.vp_suit.specs.Turns.{carried, turn};
ghost use Rattle.vp_suit.specs.Classes.{IsDeal, IsKept, is_representative, listed, representative, representatives, weight};
ghost use Rattle.vp_suit.specs.Laws.{AreRepresentatives, DrawsAreKept, OfEachTurn, RiseByIndex, TurnsAlong, TurnsBack, deals, deals_like, sum_by_weight, weights};

/// A law, for proofs: for each function of a deal that turns keep, the sum over the classes of weight times the
/// function is the sum over all deals.
#[tactic(auto, using(crate::proofs::Deals::sum_by_classes))]
pub fn sum_by_classes()
    ensures { (n : ℕ) (f : List ℕ → ℕ) → 52 ≤ n → IsKept n f → sum_by_weight n f ≡ sum_by f (deals n) }
{}

/// A law, for proofs: a list of one number for each deal, by index, that has equal numbers at all deals of a class sums to
/// what its numbers at the representatives sum to, each taken as often as its class weighs.
#[tactic(auto, using(crate::proofs::Deals::sum_of_list))]
pub fn list_sums_by_classes()
    ensures { (n : ℕ) (w : List ℕ) → 52 ≤ n → length w ≡ choose n 5 → IsKept n (listed w)
        → sum_by_weight n (listed w) ≡ sum w }
{}

/// A law, for proofs: the representatives of a deck's deals.
pub fn representative_laws()
    // All of them are there, and nothing else.
    ensures all { (n : ℕ) (cards : List ℕ) → 52 ≤ n → IsDeal n cards
        → Contains (representatives n) (representative cards) }
    ensures only { (n : ℕ) → AreRepresentatives n (representatives n) }
    // They rise by index, so each is there once.
    ensures rising { (n : ℕ) → RiseByIndex (representatives n) }
    // Together they weigh as much as there are deals, and representatives that do so are all of them.
    ensures whole { (n : ℕ) → 52 ≤ n → weights (representatives n) ≡ choose n 5 }
    ensures cover { (n : ℕ) (some : List (List ℕ)) → 52 ≤ n → AreRepresentatives n some → RiseByIndex some
        → weights some ≡ choose n 5 → some ≡ representatives n }
    // A representative stands for itself.
    ensures own { (n : ℕ) (cards : List ℕ) → 52 ≤ n → IsDeal n cards → is_representative cards ≡ true
        → representative cards ≡ cards }
    // A representative stands for as many deals as it weighs.
    ensures weight { (n : ℕ) (cards : List ℕ) → 52 ≤ n → IsDeal n cards → is_representative cards ≡ true
        → deals_like n cards ≡ weight cards }
    // These are at least one, and at most one for each turn.
    ensures weighs { (cards : List ℕ) → (1 ≤ weight cards) × (weight cards ≤ 24) }
{}

/// A law, for proofs: a turned deal is a deal of the same class.
pub fn turn_laws()
    ensures deal { OfEachTurn (λ n t cards. IsDeal n (turn t cards)) }
    // Turn 0 changes nothing, and each turn is turned back by one.
    ensures first { (n : ℕ) (cards : List ℕ) → IsDeal n cards → turn 0 cards ≡ cards }
    ensures back { (t : ℕ) → t < 24 → (u : ℕ) × (u < 24) × TurnsBack t u }
    ensures representative { OfEachTurn (λ n t cards. representative (turn t cards) ≡ representative cards) }
    ensures weight { OfEachTurn (λ n t cards. weight (turn t cards) ≡ weight cards) }
{}

/// A law, for proofs: masks that are carried along with a turned deal.
pub fn carry_laws()
    ensures mask { (n t mask : ℕ) (cards : List ℕ) → IsDeal n cards → carried t cards mask < 32 }
    // What is held of the turned deal are the turned held cards, and likewise for the discards.
    ensures held { TurnsAlong held }
    ensures discarded { TurnsAlong discarded }
    // The sum over the draws of a function that turns keep is the same.
    ensures draws { DrawsAreKept }
{}
