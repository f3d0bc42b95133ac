//! The laws of sections and of what is written. Each is the contract of a function that does nothing.
//! In a law, which values are valid is told by a test.

ghost use Rattle.std.specs.Prelude.{◌≡◌, ◌≢◌, ◌<◌, ◌≤◌, ◌^◌, ℕ, Bool, true, IsTrue, map, flat_map, List, [], ◌∷◌, ◌++◌, length, decimal, Option, Some, None, Ok, Err, ◌⊎◌, ◌↔◌};
ghost use Rattle.std.specs.List.{AllByRecursion};
ghost use Rattle.vp_text.specs.Lines.{Word, Feed, feed_of};
ghost use Rattle.vp_text.specs.Sections.{Starts, Text, text_of, both_text, AreBoth, IsWhole, Passes, PassesBehind, RefusedLine, RefusedInput, AcceptedInput};
ghost use Rattle.vp_text.specs.ExactReaders.{Reader, Exact, Seen, Keeps, Closes, closed_text, AreClosed, on_item, Finish, rows_text, AreRows, ExactText};
ghost use Rattle.vp_text.specs.Reading.{one_line, both, rows, closed, mapped, fitting, whole};
ghost use Rattle.vp_text.specs.Numbers.{number_of, number_within};
ghost use Rattle.vp_text.specs.Pieces.{Piece, ExactPiece, AreUpTo, ahead, by_first, key_word, one_word, up_to, up_to_end};
ghost use Rattle.vp_text.specs.Streams.{always, any_behind, folded, following, front_items, kind_in_front, skipped_items, stated, MayFollow, ReadAgain, StandsFor};
ghost use Rattle.vp_text.specs.Written.{with_word, spaced, written, IsPlainText};

/// A text that begins with valid spellings begins with one: different values have different spellings,
/// and no spelling begins another.
pub fn spelling_unique<A>()
    ensures { (spell : A → Text) (valid : A → Bool) (read : Reader A) → Exact spell (Passes valid) read
        → (a b : A) (x y : Text) → IsTrue (valid a) → IsTrue (valid b) → spell a ++ x ≡ spell b ++ y → (a ≡ b) × (x ≡ y) }
{}

/// A section of one line is read exactly where its line is.
pub fn one_line_exact<A>()
    ensures { (line : A → List Word) (valid : A → Bool) (value_of : List Word → Option A)
        → ExactText line (Passes valid) value_of
        → (some : A) → IsTrue (valid some) → Exact (λ a. line a ∷ []) (Passes valid) (one_line value_of) }
{}

/// A section and one that depends on its value are read exactly where both are.
pub fn both_exact<A, B>()
    ensures { (spell : A → Text) (valid : A → Bool) (first : Reader A)
        (spell2 : A → B → Text) (valid2 : A → B → Bool) (second : A → Reader B)
        → Exact spell (Passes valid) first
        → ((a : A) → IsTrue (valid a) → Exact (spell2 a) (PassesBehind valid2 a) (second a))
        → Exact (both_text spell spell2) (AreBoth (Passes valid) (PassesBehind valid2)) (both first second) }
{}

/// Items up to a closing line are read exactly where each line is, and where every line that keeps its
/// rule can be continued to a section.
pub fn rows_exact<I, Z>()
    ensures { (line : I ⊎ Z → List Word) (rule : List I → I ⊎ Z → Bool)
        (row_of : List I → List Word → Option (I ⊎ Z))
        → ((front : List I) → ExactText line (PassesBehind rule front) (row_of front))
        → ((front : List I) → Keeps (on_item (PassesBehind rule)) [] front
        → Finish (PassesBehind rule) front)
        → Exact (rows_text line) (AreRows (PassesBehind rule)) (rows row_of) }
{}

/// The same for items that a word alone closes.
pub fn closed_exact<I>()
    ensures { (word : Word) (may_close : List I → Bool) (line : I → List Word)
        (allows : List I → I → Bool) (item_of : List I → List Word → Option I)
        → ((front : List I) → ExactText line (PassesBehind allows front) (item_of front))
        → ((front : List I) (item : I) → IsTrue (allows front item) → line item ≡ word ∷ [] → ⊥)
        → ((front : List I) → Keeps (PassesBehind allows) [] front
        → Closes may_close (PassesBehind allows) front)
        → Exact (closed_text word line) (AreClosed may_close (PassesBehind allows)) (closed word may_close item_of) }
{}

/// A value that is seen otherwise is read exactly where the value is.
pub fn mapped_exact<A, B>()
    ensures { (spell : A → Text) (valid : A → Bool) (read : Reader A)
        (spell2 : B → Text) (valid2 : B → Bool) (see : A → B) (back : B → A)
        → Exact spell (Passes valid) read
        → Seen spell (Passes valid) spell2 (Passes valid2) see back
        → Exact spell2 (Passes valid2) (mapped see read) }
{}

/// A whole input is answered by its value exactly where it is the spelling of a valid value, and else
/// by its refused line, which is one.
pub fn whole_exact<A>()
    ensures value { (spell : A → Text) (valid : A → Bool) (read : Reader A) → Exact spell (Passes valid) read
        → (feed : Feed) (a : A) → whole read feed ≡ Ok a ↔ IsTrue (valid a) × IsWhole spell feed a }
    ensures refused { (spell : A → Text) (valid : A → Bool) (read : Reader A) → Exact spell (Passes valid) read
        → (feed : Feed) (line : ℕ) → whole read feed ≡ Err line ↔ RefusedLine spell (Passes valid) feed line }
    ensures one { (spell : A → Text) (valid : A → Bool) (feed : Feed) (m n : ℕ)
        → RefusedLine spell (Passes valid) feed m
        → RefusedLine spell (Passes valid) feed n → m ≡ n }
{}

/// The same for two sections, the first of which has to fit before the second is read.
pub fn fitting_exact<A, B>()
    ensures value { (spell : A → Text) (valid : A → Bool) (fits : A → Bool) (first : Reader A)
        (spell2 : A → B → Text) (valid2 : A → B → Bool) (second : A → Reader B)
        → Exact spell (Passes valid) first
        → ((a : A) → IsTrue (valid a) → Exact (spell2 a) (PassesBehind valid2 a) (second a))
        → (feed : Feed) (value : A × B) → whole (fitting fits first second) feed ≡ Ok value
        ↔ AcceptedInput spell (Passes valid) fits spell2 (PassesBehind valid2) feed value }
    ensures refused { (spell : A → Text) (valid : A → Bool) (fits : A → Bool) (first : Reader A)
        (spell2 : A → B → Text) (valid2 : A → B → Bool) (second : A → Reader B)
        → Exact spell (Passes valid) first
        → ((a : A) → IsTrue (valid a) → Exact (spell2 a) (PassesBehind valid2 a) (second a))
        → (feed : Feed) (line : ℕ) → whole (fitting fits first second) feed ≡ Err line
        ↔ RefusedInput spell (Passes valid) fits spell2 (PassesBehind valid2) feed line }
{}

/// What is written in plain words is read as these words again, whatever follows.
pub fn written_read()
    ensures { (text : Text) (more : List ℕ) → IsPlainText text
        → text_of (feed_of (written text ++ more)).lines ≡ text ++ text_of (feed_of more).lines }
{}

/// A value whose spelling is written in plain words stands at the front of this text, and what follows is left.
pub fn written_stands<A>()
    ensures { (spell : A → Text) (value : A) (more : List ℕ) → IsPlainText (spell value)
        → (left : Feed) × Starts spell (feed_of (written (spell value) ++ more)) value left
        × (text_of left.lines ≡ text_of (feed_of more).lines) }
{}

/// A valid value whose spelling is written in plain words is read again, and what follows is left.
pub fn written_again<A>()
    ensures { (spell : A → Text) (valid : A → Bool) (read : Reader A) → Exact spell (Passes valid) read
        → (value : A) (more : List ℕ) → IsTrue (valid value) → IsPlainText (spell value)
        → (left : Feed) × (read (feed_of (written (spell value) ++ more)) ≡ Ok (value, left))
        × (text_of left.lines ≡ text_of (feed_of more).lines) }
{}

/// A comment says nothing: a line that begins with `#` is read as if it were not there.
pub fn comments_are_nothing()
    ensures { (text more : List ℕ) → AllByRecursion (λ byte. byte ≢ 10) text
        → text_of (feed_of (35 ∷ text ++ 10 ∷ more)).lines ≡ text_of (feed_of more).lines }
{}

/// A text has at most as many lines with words as bytes.
pub fn few_lines()
    ensures { (bytes : List ℕ) → length (feed_of bytes).lines ≤ length bytes }
{}

/// A word is taken from a line exactly where it is the next.
pub fn key_words_are_taken()
    ensures { (key : Word) (words left : List Word)
        → key_word key words ≡ Some (tt, left) ↔ (words ≡ key ∷ left) }
{}

/// A number below 2^64 is taken from a line exactly where its decimal digits are the next word, and a number between
/// bounds where it is between them, too.
pub fn numbers_are_taken()
    ensures any { (n : ℕ) (words left : List Word)
        → one_word number_of words ≡ Some (n, left) ↔ ((n < 2 ^ 64) × (words ≡ decimal n ∷ left)) }
    ensures within { (least most n : ℕ) (words left : List Word) → most < 2 ^ 64
        → one_word (number_within least most) words ≡ Some (n, left) ↔ (((least ≤ n) × (n ≤ most)) × (words ≡ decimal n ∷ left)) }
{}

/// A number below 2^64 has at most 20 digits.
pub fn numbers_are_short()
    ensures { (n : ℕ) → n < 2 ^ 64 → length (decimal n) ≤ 20 }
{}

/// A word is a number between bounds exactly where it is the decimal digits of this number.
pub fn numbers_are_spelled()
    ensures { (least most n : ℕ) (word : Word) → most < 2 ^ 64
        → number_within least most word ≡ Some n ↔ ((least ≤ n) × (n ≤ most) × (word ≡ decimal n)) }
{}

/// Words that are appended one by one stand in the line with one space between, where none of them is empty.
pub fn words_spaced()
    ensures { (words : List Word) (word : Word) → AllByRecursion (λ w. 0 < length w) words
        → with_word (spaced words) word ≡ spaced (words ++ word ∷ []) }
{}

/// What is read with a state is the state of what is read, where the state tells as much of each line as the items do.
pub fn states_stand_for_items<I, S, Z>()
    ensures { (row_of : List I → List Word → Option (I ⊎ Z))
        (step_of : S → List Word → Option (S ⊎ Z)) (state : List I → S) → StandsFor row_of step_of state
        → (feed : Feed) → folded step_of (state []) feed ≡ stated state (rows row_of feed) }
{}

/// The items of one kind that stand in front of all others are read again from the lines, each by itself.
pub fn kinds_are_read_again<I, K, Z>()
    ensures { (row_of : List I → List Word → Option (I ⊎ Z))
        (kind : I → Option K) (again : List Word → Option K) → ReadAgain row_of kind again
        → (feed left : Feed) (items : List I) (z : Z) → rows row_of feed ≡ Ok ((items, z), left)
        → front_items again feed.lines ≡ kind_in_front kind items }
{}

/// Items that are skipped, and then read again from the front, are the items that are read, if the closing word alone is no item.
pub fn items_are_read_again<I>()
    ensures { (word : Word) (item_of : List Word → Option I) → item_of (word ∷ []) ≡ None
        → (feed : Feed) → closed word always (any_behind item_of) feed ≡ skipped_items word item_of feed }
{}

/// A line is an item that may follow exactly where it is an item, and this one may follow.
pub fn following_exact<S, I>()
    ensures { (line : I → List Word) (valid : I → Bool) (may : S → I → Bool)
        (item_of : List Word → Option I) (state : S) → ExactText line (Passes valid) item_of
        → ExactText line (MayFollow (Passes valid) may state) (following may item_of state) }
{}

/// At most so many values of one word each, up to a word that is no value's, are read exactly where they stand.
pub fn up_to_exact<A>()
    ensures { (word : A → Word) (valid : A → Bool) (read : Word → Option A)
        (most : ℕ) (key : Word) → ExactText word (Passes valid) read
        → ((a : A) → IsTrue (valid a) → word a ≡ key → ⊥)
        → ExactPiece (λ values. map word values ++ key ∷ []) (AreUpTo (Passes valid) most) (λ rest. true) (up_to read most key []) }
{}

/// At most so many values up to the end of a line are read exactly where they stand, if each is, whatever follows it.
pub fn up_to_end_exact<A>()
    ensures { (say : A → List Word) (valid : A → Bool) (behind : Word → Piece A) (most : ℕ)
        → ExactPiece say (Passes valid) (λ rest. true) (by_first behind)
        → ExactText (flat_map say) (AreUpTo (Passes valid) most) (up_to_end most behind) }
{}

/// Values up to the end of a line, of which some were read: one more is read, or there is no room, or the word begins none, or no word is left.
pub fn values_are_read_in_turn<A>()
    ensures more { (most : ℕ) (behind : Word → Piece A) (front : List A) (word : Word)
        (words left : List Word) (value : A)
        → length front < most → behind word words ≡ Some (value, left)
        → ahead most behind front (word ∷ words) ≡ ahead most behind (front ++ value ∷ []) left }
    ensures full { (most : ℕ) (behind : Word → Piece A) (front : List A) (word : Word) (words : List Word)
        → length front ≡ most → ahead most behind front (word ∷ words) ≡ None }
    ensures none { (most : ℕ) (behind : Word → Piece A) (front : List A) (word : Word) (words : List Word)
        → length front < most → behind word words ≡ None → ahead most behind front (word ∷ words) ≡ None }
    ensures end { (most : ℕ) (behind : Word → Piece A) (front : List A) → ahead most behind front [] ≡ Some front }
{}
