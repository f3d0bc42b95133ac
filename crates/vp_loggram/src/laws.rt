// Laws of logs.
ghost use Rattle.std.specs.Prelude.{ℕ, List};
ghost use Rattle.vp_card.specs.Cards.{IsDeck};
ghost use Rattle.vp_pay.specs.Written.{IsReadAgain, SpellingsDiffer};
ghost use Rattle.vp_loggram.specs.Logs.{IsLog, LogValue};
ghost use Rattle.vp_loggram.specs.Spelling.{log_text};

/// Different logs have different spellings, and no spelling begins another one.
pub fn log_spellings_differ()
    ensures { (n : ℕ) → IsDeck n → SpellingsDiffer log_text (IsLog n) }
{}

/// A log that was written is read again, whatever follows, and what follows is left.
pub fn written_logs_are_read()
    ensures { (n : ℕ) (log : LogValue) (more : List ℕ) → IsDeck n → IsLog n log → IsReadAgain log_text log more }
{}
