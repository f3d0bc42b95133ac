//! The letters of ranks and suits.

ghost use Rattle.std.specs.Prelude.{◌≡◌, ◌<◌, slice_index, IfSome};
ghost use Rattle.vp_card.specs.Texts.{rank_letters, suit_letters};
ghost use Rattle.vp_card.specs.Reading.{number_of, rank_of, suit_of};

#[tactic(auto, unfolding(crate::specs::Texts::rank_letters))]
pub(crate) fn rank_letters() -> &'static [u8; 13]
    ensures { result.now ≡ rank_letters }
{
    b"23456789TJQKA"
}

#[tactic(auto, unfolding(crate::specs::Texts::suit_letters))]
pub(crate) fn suit_letters() -> &'static [u8; 4]
    ensures { result.now ≡ suit_letters }
{
    b"cdhs"
}

/// For each byte a letter, counted from `a`: that of the rank whose letter the byte is; or a dot.
static RANKS: [u8; 256] = *b"\
    ................................\
    ..................abcdefgh......\
    .m........jl.....k..i...........\
    ................................\
    ................................\
    ................................\
    ................................\
    ................................";

/// The same for suits.
static SUITS: [u8; 256] = *b"\
    ................................\
    ................................\
    ................................\
    ...ab...c..........d............\
    ................................\
    ................................\
    ................................\
    ................................";

/// The number of a letter, counted from `a`; None for a byte below it.
fn number_of(letter: u8) -> Option<u8>
    ensures { result ≡ number_of letter }
{
    if letter < b'a' {
        None
    } else {
        Some(letter - b'a')
    }
}

/// The rank with this letter, one of `23456789TJQKA`; None for any other byte.
#[tactic(auto, using(crate::proofs::Tables::ranks_table))]
pub fn rank_of(letter: u8) -> Option<u8>
    ensures value { result ≡ rank_of letter }
    ensures below { IfSome result (λ rank. rank < 13) }
{
    number_of(RANKS[letter as usize])
}

#[tactic(auto, using(crate::proofs::Tables::suits_table))]
pub(crate) fn suit_of(letter: u8) -> Option<u8>
    ensures value { result ≡ suit_of letter }
    ensures below { IfSome result (λ suit. suit < 4) }
{
    number_of(SUITS[letter as usize])
}

/// The letter of a rank, which `rank_of` takes.
pub fn rank_letter(rank: u8) -> u8
    requires { rank < 13 }
    ensures { result ≡ slice_index rank_letters rank }
{
    rank_letters()[rank as usize]
}

pub(crate) fn suit_letter(suit: u8) -> u8
    requires { suit < 4 }
    ensures { result ≡ slice_index suit_letters suit }
{
    suit_letters()[suit as usize]
}
