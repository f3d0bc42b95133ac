//! What the holds that are printed for one pay table cost on another, summed over all deals class by class.

ghost use Rattle.std.specs.Prelude.{◌≡◌, ◌+◌, ◌^◌, ◌<◌, ◌≤◌, if◌then◌else◌, nat_lt, Some};
ghost use Rattle.vp_draws.specs.Draws.{sum_of_best};
ghost use Rattle.vp_cross.specs.Crossings.{costly_classes, costly_deals, sum_of_crossed, worst};
ghost use Rattle.vp_cross.specs.Later.{later};

use vp_card::Hand;
use vp_hold::Game;
use vp_suit::Classes;

/// The class that costs most.
#[derive(Clone, Copy, Debug, PartialEq, Eq)]
pub struct Worst {
    /// The representative of the class.
    pub hand: Hand,
    /// The mask that is held: the first table's least best one.
    pub mask: u8,
    /// The second table's least best mask.
    pub best: u8,
    /// By how much the best value on the second table exceeds that of the held mask there, over the common denominator.
    pub cost: u64,
}

/// What one table's best play is worth on another. The sums are over all deals from the deck, and stand over the number of
/// deals times the common denominator of the deck, times the bet where they are returns.
#[derive(Clone, Copy, Debug, PartialEq, Eq)]
pub struct Crossed {
    /// The sum of the best values on the second table.
    pub optimum: u128,
    /// The sum of what the first table's printed holds are worth on the second.
    pub value: u128,
    /// How many classes cost something: the held mask is not worth the best value on the second table.
    pub classes: u32,
    /// How many deals these classes have.
    pub deals: u32,
    /// The class that costs most, of equal ones that of least index; None exactly where none costs anything.
    pub worst: Option<Worst>,
}

/// What the holds that are printed for the game that is played are worth in the game that prices them, a game of the same
/// deck and the same number of coins. The printed holds of a deal are the least best mask of its class's representative,
/// carried back by a turn of the suits.
pub fn cross(played: &Game, priced: &Game) -> Crossed
    requires deck { played.now.table.deck ≡ priced.now.table.deck }
    requires coin { played.now.coin ≡ priced.now.coin }
    ensures optimum { result.optimum ≡ sum_of_best priced.now.table priced.now.coin }
    ensures value { result.value ≡ sum_of_crossed played.now.table priced.now.table priced.now.coin }
    ensures classes { result.classes ≡ costly_classes played.now.table priced.now.table priced.now.coin }
    ensures deals { result.deals ≡ costly_deals played.now.table priced.now.table priced.now.coin }
    ensures worst { result.worst ≡ worst played.now.table priced.now.table priced.now.coin }
    ensures most { result.value ≤ result.optimum }
{
    let mut classes = Classes::new(priced.table().deck);
    let mut crossed = Crossed {
        optimum: 0,
        value: 0,
        classes: 0,
        deals: 0,
        worst: None,
    };
    while let Some(class) = classes.next() {
        let held = played.best(&class.hand);
        let best = priced.best(&class.hand);
        let value = priced.value(&class.hand, held.mask);
        let weight = u128::from(class.weight);
        crossed.optimum += weight * u128::from(best.value);
        crossed.value += weight * u128::from(value);
        let priced_class = Worst {
            hand: class.hand,
            mask: held.mask,
            best: best.mask,
            cost: best.value - value,
        };
        count(&mut crossed, class.weight, &priced_class);
    }
    crossed
}

/// Counts one class more, with its deals, where it costs something, and keeps the class that costs most.
fn count(crossed: &mut Crossed, weight: u8, class: &Worst)
    requires classes { crossed.old.classes + 1 < 2 ^ 32 }
    requires deals { crossed.old.deals + weight < 2 ^ 32 }
    ensures optimum { crossed.new.optimum ≡ crossed.old.optimum }
    ensures value { crossed.new.value ≡ crossed.old.value }
    ensures classes { crossed.new.classes ≡ crossed.old.classes + (if nat_lt 0 class.now.cost then 1 else 0) }
    ensures deals { crossed.new.deals ≡ crossed.old.deals + (if nat_lt 0 class.now.cost then weight else 0) }
    ensures worst { crossed.new.worst ≡ later crossed.old.worst class.now }
{
    if class.cost == 0 {
        return;
    }
    crossed.classes += 1;
    crossed.deals += u32::from(weight);
    crossed.worst = match crossed.worst {
        Some(worst) if class.cost <= worst.cost => Some(worst),
        _ => Some(*class),
    };
}
