// Laws of logs of many sessions.
ghost use Rattle.std.specs.Prelude.{◌≡◌, ◌↔◌, ◌≤◌, ◌∷◌, ℕ, List, None, Some, true};
ghost use Rattle.vp_card.specs.Cards.{IsDeck};
ghost use Rattle.vp_text.specs.Lines.{Word};
ghost use Rattle.vp_loggram.specs.Logs.{IsEvent};
ghost use Rattle.vp_loggram.specs.declared.event.Event.{Event};
ghost use Rattle.vp_csv.specs.Naming.{AreNames};
ghost use Rattle.vp_csv.specs.Records.{Field, Record};
ghost use Rattle.vp_csv.specs.Rules.{BreaksFirst, KeepRules, first_break, game_of, is_header, names_of, start_of};
ghost use Rattle.vp_csv.specs.Sessions.{AreAlike, own, session_at, session_of, sorted};
ghost use Rattle.vp_csv.specs.Spelling.{game_fields, header, opening_fields};

/// A session is told by its own records alone: whatever the other sessions' records are, and wherever they stand.
pub fn sessions_are_apart()
    ensures texts { (n : ℕ) (a b : List ℕ) (i j : ℕ) → AreAlike n a b i j
        → session_at (sorted n a) i ≡ session_at (sorted n b) j }
    ensures records { (n : ℕ) (a b : List Record) (name : Word) → own name a ≡ own name b
        → session_of n a name ≡ session_of n b name }
{}

/// A record is the header, opens a session or is a game exactly where its fields are spelled so.
pub fn records_are_spelled()
    ensures header { (r : Record) → is_header r ≡ true ↔ (r ≡ header) }
    ensures opening { (name : Word) (fields : List Field) (start : ℕ)
        → start_of (name ∷ fields) ≡ Some start
        ↔ ((start ≤ 1000000000000) × (fields ≡ opening_fields start)) }
    ensures game { (n : ℕ) (name : Word) (fields : List Field) (e : Event) → IsDeck n
        → game_of n (name ∷ fields) ≡ Some e ↔ (IsEvent n e × (fields ≡ game_fields e)) }
{}

/// A record is refused exactly where it is the first that breaks its rule, and none is where all keep their rules.
pub fn first_breaks_are_refused()
    ensures none { (n : ℕ) (all : List Record) → first_break n all ≡ None ↔ KeepRules n all }
    ensures first { (n : ℕ) (all : List Record) (place : ℕ)
        → first_break n all ≡ Some place ↔ BreaksFirst n all place }
{}

/// What the names of sessions are: each stands once; that of each record is among them; and of two names the one whose
/// first record comes earlier stands first.
pub fn names_stand_in_order()
    ensures { (rs : List Record) → AreNames rs (names_of rs) }
{}
