//! The commands, as the words of the command line spell them.

ghost use Rattle.std.specs.Prelude.{◌≡◌, ◌≤◌, ℕ, map, option_map, IfSome};
ghost use Rattle.vp_command.specs.Commands.{AreInRange, InRange, alone, bet, check, coin_of, command_of, lines_of, task_of, meter, meter_of, hands_of, multi, play, play_of, compile, compile_of};
ghost use Rattle.vp_command.specs.declared.command.Task.{Task};
ghost use Rattle.vp_text.specs.Numbers.{number_within};

use vp_pay::Name;
use vp_text::number;

/// A command that reads an input, with its numbers.
#[derive(Debug, PartialEq, Eq, Drop)]
pub enum Task {
    /// `deal COIN`: the best hold of one deal, for a bet of 1 to 5 coins.
    Deal(u8),
    /// `holds COIN`: all 32 holds of one deal, for a bet of 1 to 5 coins.
    Holds(u8),
    /// `certify COIN`: the certificate of a pay table, for a bet of 1 to 5 coins.
    Certify(u8),
    /// `audit COIN`: what a strategy list loses, for a bet of 1 to 5 coins.
    Audit(u8),
    /// `cross COIN`: what one pay table's best play costs on another, for a bet of 1 to 5 coins.
    Cross(u8),
    /// `check FROM COUNT`: what is wrong with a certificate. The values of COUNT class lines from the place FROM on,
    /// counted from 1, are reckoned again by walking all draws.
    Check {
        from: u32,
        count: u32,
    },
    /// `replay`: the first broken law of a log of games, or what its holds cost.
    Replay,
    /// `sessions`: the lines of `replay` for each of the logs that a CSV text has, by session.
    Sessions,
    /// `meter COIN LINE LO HI`: which holds are best from which payment on, where the payment of the line with this name
    /// goes from LO to HI, for a bet of 1 to 5 coins.
    Meter {
        coin: u8,
        line: Name,
        lo: u32,
        hi: u32,
    },
    /// `multi COIN HANDS`: the moments of the total payment of 1 to 100 hands that are drawn from one deal, for a bet of 1
    /// to 5 coins.
    Multi {
        coin: u8,
        hands: u8,
    },
    /// `hits COIN`: how often each pay line comes under the printed holds, for a bet of 1 to 5 coins.
    Hits(u8),
    /// `play COIN SEED GAMES`: the numbers of a log of 1 to 100000 games that is made from a seed, for a bet of 1 to 5
    /// coins.
    Play {
        coin: u8,
        seed: u64,
        games: u32,
    },
    /// `compile COIN MILLIONTHS`: a strategy list out of a pool, which loses at most so many millionths, 0 to 1000000, of
    /// the denominator of the return, for a bet of 1 to 5 coins.
    Compile {
        coin: u8,
        millionths: u32,
    },
}

/// A command.
#[derive(Debug, PartialEq, Eq, Drop)]
pub enum Command {
    /// `tables`: the built-in pay tables. It reads no input.
    Tables,
    /// A command that reads an input.
    Over(Task),
}

/// The command that the words are.
#[tactic(auto, unfolding(crate::specs::Commands::command_of))]
pub fn command_of(words: &[&str]) -> Option<Command>
    ensures is { result ≡ command_of (map (λ w. w.now) words.now) }
    ensures range { IfSome result AreInRange }
{
    match words {
        [word] => alone(word),
        [word, numbers @ ..] if !numbers.is_empty() => task_of(word, numbers).map(Command::Over),
        _ => None,
    }
}

/// The command that a word alone is.
fn alone(word: &str) -> Option<Command>
    ensures is { result ≡ alone word.now }
    ensures range { IfSome result AreInRange }
{
    match word {
        "tables" => Some(Command::Tables),
        "replay" => Some(Command::Over(Task::Replay)),
        "sessions" => Some(Command::Over(Task::Sessions)),
        _ => None,
    }
}

/// The task that a word and its numbers are.
#[tactic(auto, unfolding(crate::specs::Commands::task_of))]
fn task_of(word: &str, numbers: &[&str]) -> Option<Task>
    ensures is { result ≡ task_of word.now (map (λ w. w.now) numbers.now) }
    ensures range { IfSome result InRange }
{
    match word {
        "deal" => bet(numbers).map(Task::Deal),
        "holds" => bet(numbers).map(Task::Holds),
        "certify" => bet(numbers).map(Task::Certify),
        "audit" => bet(numbers).map(Task::Audit),
        "cross" => bet(numbers).map(Task::Cross),
        "check" => lines(numbers),
        "meter" => meter(numbers),
        "multi" => hands(numbers),
        "hits" => bet(numbers).map(Task::Hits),
        "play" => play(numbers),
        "compile" => compile(numbers),
        _ => None,
    }
}

/// A bet.
fn bet(numbers: &[&str]) -> Option<u8>
    ensures is { (task : ℕ → Task) → option_map task result ≡ bet task (map (λ w. w.now) numbers.now) }
    ensures range { IfSome result (λ coin. (1 ≤ coin) × (coin ≤ 5)) }
{
    match numbers {
        [number] => coin_of(number.as_bytes()),
        _ => None,
    }
}

/// The bet that a word spells.
#[tactic(auto, unfolding(crate::specs::Commands::coin_of))]
fn coin_of(word: &[u8]) -> Option<u8>
    ensures is { result ≡ coin_of word.now }
    ensures range { IfSome result (λ coin. (1 ≤ coin) × (coin ≤ 5)) }
{
    let coin = number_within(1, 5, word)?;
    Some(coin as u8)
}

/// Class lines that are walked.
fn lines(numbers: &[&str]) -> Option<Task>
    ensures is { result ≡ check (map (λ w. w.now) numbers.now) }
    ensures range { IfSome result InRange }
{
    match numbers {
        [first, second] => lines_of(first.as_bytes(), second.as_bytes()),
        _ => None,
    }
}

/// The class lines that two words spell.
fn lines_of(first: &[u8], second: &[u8]) -> Option<Task>
    ensures is { result ≡ lines_of first.now second.now }
    ensures range { IfSome result InRange }
{
    let from = number_within(1, 200_000, first)?;
    let count = number_within(0, 200_000, second)?;
    Some(Task::Check { from, count })
}

/// A bet, the name of a line, and the least and the greatest payment.
fn meter(words: &[&str]) -> Option<Task>
    ensures is { result ≡ meter (map (λ w. w.now) words.now) }
    ensures range { IfSome result InRange }
{
    match words {
        [coin, line, lo, hi] => meter_of(
            coin.as_bytes(),
            line.as_bytes(),
            lo.as_bytes(),
            hi.as_bytes(),
        ),
        _ => None,
    }
}

/// The meter that four words spell.
fn meter_of(bet: &[u8], line: &[u8], least: &[u8], greatest: &[u8]) -> Option<Task>
    ensures is { result ≡ meter_of bet.now line.now least.now greatest.now }
    ensures range { IfSome result InRange }
{
    let coin = coin_of(bet)?;
    let line = Name::read(line)?;
    let hi = number_within(0, 500_000, greatest)?;
    let lo = number_within(0, hi, least)?;
    Some(Task::Meter { coin, line, lo, hi })
}

/// Hands that are drawn from one deal.
fn hands(numbers: &[&str]) -> Option<Task>
    ensures is { result ≡ multi (map (λ w. w.now) numbers.now) }
    ensures range { IfSome result InRange }
{
    match numbers {
        [coin, hands] => hands_of(coin.as_bytes(), hands.as_bytes()),
        _ => None,
    }
}

/// The bet and the number of hands that two words spell.
fn hands_of(coin: &[u8], hands: &[u8]) -> Option<Task>
    ensures is { result ≡ hands_of coin.now hands.now }
    ensures range { IfSome result InRange }
{
    let coin = coin_of(coin)?;
    let hands = number_within(1, 100, hands)?;
    Some(Task::Multi {
        coin,
        hands: hands as u8,
    })
}

/// A bet, the seed of a log, and its number of games.
fn play(numbers: &[&str]) -> Option<Task>
    ensures is { result ≡ play (map (λ w. w.now) numbers.now) }
    ensures range { IfSome result InRange }
{
    match numbers {
        [coin, seed, games] => play_of(coin.as_bytes(), seed.as_bytes(), games.as_bytes()),
        _ => None,
    }
}

/// The made log that three words spell.
fn play_of(coin: &[u8], seed: &[u8], games: &[u8]) -> Option<Task>
    ensures is { result ≡ play_of coin.now seed.now games.now }
    ensures range { IfSome result InRange }
{
    let coin = coin_of(coin)?;
    let seed = number(seed)?;
    let games = number_within(1, 100_000, games)?;
    Some(Task::Play { coin, seed, games })
}

/// A bet, and how much may be lost.
fn compile(numbers: &[&str]) -> Option<Task>
    ensures is { result ≡ compile (map (λ w. w.now) numbers.now) }
    ensures range { IfSome result InRange }
{
    match numbers {
        [coin, millionths] => compile_of(coin.as_bytes(), millionths.as_bytes()),
        _ => None,
    }
}

/// The bet and the millionths that two words spell.
fn compile_of(coin: &[u8], millionths: &[u8]) -> Option<Task>
    ensures is { result ≡ compile_of coin.now millionths.now }
    ensures range { IfSome result InRange }
{
    let coin = coin_of(coin)?;
    let millionths = number_within(0, 1_000_000, millionths)?;
    Some(Task::Compile { coin, millionths })
}

/// The number from `least` to `most` that a word spells in its decimal digits.
#[tactic(auto, unfolding(vp_text::specs::Numbers::number_within))]
fn number_within(least: u32, most: u32, word: &[u8]) -> Option<u32>
    ensures is { result ≡ number_within least most word.now }
    ensures within { IfSome result (λ n. (least ≤ n) × (n ≤ most)) }
{
    let value = number(word)?;
    if u64::from(least) <= value && value <= u64::from(most) {
        Some(value as u32)
    } else {
        None
    }
}
