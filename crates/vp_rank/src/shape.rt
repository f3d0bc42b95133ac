//! The shape of a set of cards.

ghost use Rattle.std.specs.Prelude.{◌≡◌, ℕ, ◌+◌, ◌/◌, ◌<◌, ◌≤◌, Contains, All, length, ◌==◌, slice_index, slice_set, if◌then◌else◌};
ghost use Rattle.std.specs.Int.{bit_at};
ghost use Rattle.vp_card.specs.Cards.{rank, suit};
ghost use Rattle.vp_rank.specs.Counts.{fits_window, in_window};
ghost use Rattle.vp_rank.specs.Shapes.{IsShape, bit_of, count_of};
ghost use Rattle.vp_rank.specs.Wilds.{is_wild};

use vp_card::Card;

/// How many cards are wild, how many others have each rank, and which suits the others have.
#[derive(Clone, Copy, Debug, PartialEq, Eq)]
pub struct Shape {
    pub wilds: u8,
    /// By rank, from twos to aces.
    pub counts: [u8; 13],
    /// Bit `s` is set where some card that isn't wild has suit `s`.
    pub suits: u8,
}

impl Shape {
    /// The shape of at most five cards. Besides the jokers the cards of the wild rank are wild, 0 for twos to 12 for aces.
    pub fn of(cards: &[Card], wild: Option<u8>) -> Shape
        requires { length cards.now ≤ 5 }
        ensures { IsShape wild cards.now result }
    {
        let mut shape = Shape {
            wilds: 0,
            counts: [0; 13],
            suits: 0,
        };
        for card in cards {
            if is_wild_card(*card, wild) {
                shape.wilds += 1;
            } else {
                shape.add_natural(*card);
            }
        }
        shape
    }

    fn add_natural(&mut self, card: Card)
        requires natural { card < 52 }
        requires room { slice_index self.old.counts (rank card) < 255 }
        ensures wilds { self.new.wilds ≡ self.old.wilds }
        ensures counts { self.new.counts ≡ slice_set self.old.counts (rank card) (slice_index self.old.counts (rank card) + 1) }
        ensures below { self.old.suits < 16 → self.new.suits < 16 }
        ensures suits { (s : ℕ) → s < 4 → bit_at self.new.suits s ≡ (if s == suit card then 1 else bit_at self.old.suits s) }
    {
        let number = card.number();
        self.counts[usize::from(number / 4)] += 1;
        self.suits |= 1 << (number % 4);
    }

    /// The windows that the cards fit: bit `w` is set exactly where they fit window `w`.
    pub fn windows(&self) -> u16
        ensures below { result < 1024 }
        ensures bits { (k : ℕ) → k < 10 → bit_at result k ≡ bit_of (fits_window k (count_of self.now)) }
    {
        let mut windows = 0;
        for window in 0..10u8 {
            if self.fits(window) {
                windows |= 1u16 << window;
            }
        }
        windows
    }

    /// Whether no rank of the cards that are not wild repeats, and the window has all of these ranks. A window is five ranks
    /// in a row: window 0 is A2345, window 1 is 23456, and so on to window 9, which is TJQKA.
    #[tactic(auto, unfolding(crate::specs::Bounded::all_below, crate::specs::Counts::fits_window))]
    pub fn fits(&self, window: u8) -> bool
        requires { window < 10 }
        ensures { result ≡ fits_window window (count_of self.now) }
    {
        (0..13u8).all(|rank| {
            let count = self.counts[usize::from(rank)];
            count == 0 || count == 1 && in_a_window(window, rank)
        })
    }

    /// The greatest of the counts: of how many cards that are not wild the most frequent rank is.
    pub fn greatest(&self) -> u8
        ensures bound { All (λ x. x ≤ result) self.now.counts }
        ensures reached { Contains self.now.counts result }
    {
        self.counts.iter().copied().max().unwrap_or(0)
    }
}

/// Whether a card is wild: a joker, or a card of the wild rank where there is one, 0 for twos to 12 for aces.
pub fn is_wild_card(card: Card, wild: Option<u8>) -> bool
    ensures { result ≡ is_wild wild card }
{
    is_wild(card.number(), wild)
}

/// The same of the card with this number.
#[tactic(auto, unfolding(crate::specs::Wilds::is_wild))]
pub fn is_wild(number: u8, wild: Option<u8>) -> bool
    ensures { result ≡ is_wild wild number }
{
    number >= 52 || wild == Some(number / 4)
}

#[tactic(auto, unfolding(crate::specs::Counts::in_window))]
fn in_a_window(window: u8, rank: u8) -> bool
    requires windows { window < 10 }
    requires ranks { rank < 13 }
    ensures { result ≡ in_window window rank }
{
    if window == 0 {
        rank == 12 || rank < 4
    } else {
        window - 1 <= rank && rank < window + 4
    }
}
