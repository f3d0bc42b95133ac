//! The four built-in pay tables, each as its text.

ghost use Rattle.std.specs.Prelude.{◌≡◌, IfSome};
ghost use Rattle.vp_pay.specs.BuiltIn.{built_in};
ghost use Rattle.vp_pay.specs.Table.{IsTable};

use crate::PayTable;

/// Jacks or better, nine for a full house and six for a flush.
const JACKS: &[u8] = b"table jacks-9-6
deck 52
wild none
coins 5
line royal royal either 250 500 750 1000 4000
line straight-flush straight-flush either 50 100 150 200 250
line quads quads any either 25 50 75 100 125
line full-house full-house either 9 18 27 36 45
line flush flush either 6 12 18 24 30
line straight straight either 4 8 12 16 20
line trips trips either 3 6 9 12 15
line two-pair two-pair either 2 4 6 8 10
line high-pair pair JQKA either 1 2 3 4 5
end
";

/// Four of a kind pays by its rank.
const BONUS: &[u8] = b"table bonus-8-5
deck 52
wild none
coins 5
line royal royal either 250 500 750 1000 4000
line straight-flush straight-flush either 50 100 150 200 250
line quad-aces quads A either 80 160 240 320 400
line quad-low quads 234 either 40 80 120 160 200
line quads quads 56789TJQK either 25 50 75 100 125
line full-house full-house either 8 16 24 32 40
line flush flush either 5 10 15 20 25
line straight straight either 4 8 12 16 20
line trips trips either 3 6 9 12 15
line two-pair two-pair either 2 4 6 8 10
line high-pair pair JQKA either 1 2 3 4 5
end
";

/// Twos are wild.
const DEUCES: &[u8] = b"table deuces-full
deck 52
wild 2
coins 5
line natural-royal royal natural 250 500 750 1000 4000
line four-deuces wilds 4 either 200 400 600 800 1000
line wild-royal royal wild 25 50 75 100 125
line five-kind five-kind any either 15 30 45 60 75
line straight-flush straight-flush either 9 18 27 36 45
line quads quads any either 5 10 15 20 25
line full-house full-house either 3 6 9 12 15
line flush flush either 2 4 6 8 10
line straight straight either 2 4 6 8 10
line trips trips either 1 2 3 4 5
end
";

/// A joker, and kings or better.
const KINGS: &[u8] = b"table joker-kings
deck 53
wild none
coins 5
line natural-royal royal natural 250 500 750 1000 4000
line five-kind five-kind any either 200 400 600 800 1000
line wild-royal royal wild 100 200 300 400 500
line straight-flush straight-flush either 50 100 150 200 250
line quads quads any either 20 40 60 80 100
line full-house full-house either 7 14 21 28 35
line flush flush either 5 10 15 20 25
line straight straight either 3 6 9 12 15
line trips trips either 2 4 6 8 10
line two-pair two-pair either 1 2 3 4 5
line high-pair pair KA either 1 2 3 4 5
end
";

impl PayTable {
    /// The built-in tables 0 to 3: jacks or better, bonus, deuces wild, joker with kings or better.
    #[tactic(auto, using(crate::proofs::BuiltIns::jacks_read, crate::proofs::BuiltIns::bonus_read, crate::proofs::BuiltIns::deuces_read, crate::proofs::BuiltIns::kings_read))]
    pub fn built_in(i: u8) -> Option<PayTable>
        ensures table { result ≡ built_in i }
        ensures valid { IfSome result (λ t. IsTable t) }
    {
        match i {
            0 => PayTable::in_text(JACKS),
            1 => PayTable::in_text(BONUS),
            2 => PayTable::in_text(DEUCES),
            3 => PayTable::in_text(KINGS),
            _ => None,
        }
    }
}
