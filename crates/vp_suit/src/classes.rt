//! The classes of all deals from a deck, by their representatives.

ghost use Rattle.std.specs.Prelude.{◌≡◌, ◌++◌, [], length, IfSome, IfNone, option_map, option_to_list};
ghost use Rattle.vp_card.specs.Cards.{IsDeck};
ghost use Rattle.vp_suit.specs.Classes.{representatives, weight};

use crate::Class;
use crate::walk::Deals;
use std::marker::Model;
use vp_sets::hand_of;

/// The classes of the deals from a deck that were not given yet.
#[derive(Drop)]
pub struct Classes {
    deals: Deals,
}

impl Model for Classes {
    ghost use Rattle.std.specs.Prelude.{List, ℕ, filter};
    ghost use Rattle.vp_suit.specs.Classes.{is_representative};

    ghost Value = { List (List ℕ) };

    ghost view = { λ c. filter (λ cards. is_representative cards) c.deals };
}

impl Classes {
    /// All classes of the deals from a deck of `n` cards.
    pub fn new(n: u8) -> Classes
        requires { IsDeck n }
        ensures { result ≡ representatives n }
    {
        Classes {
            deals: Deals::new(n),
        }
    }

    /// The class whose representative has the next index; None after the last.
    pub fn next(&mut self) -> Option<Class>
        ensures given { self.old ≡ option_to_list (option_map (λ class. class.hand) result) ++ self.new }
        ensures end { IfNone result (self.old ≡ []) }
        ensures weight { IfSome result (λ class. class.weight ≡ weight class.hand) }
    {
        while let Some(deal) = self.deals.next() {
            if deal.stands() {
                return Some(Class {
                    hand: hand_of(&deal.cards),
                    weight: deal.weight(),
                });
            }
        }
        None
    }
}

/// The number of classes of the deals from a deck of `n` cards.
pub fn class_count(n: u8) -> u32
    requires { IsDeck n }
    ensures { result ≡ length (representatives n) }
{
    let mut classes = Classes::new(n);
    let mut count = 0;
    while let Some(_) = classes.next() {
        count += 1;
    }
    count
}
