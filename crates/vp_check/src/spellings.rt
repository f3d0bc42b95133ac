//! Laws of the spelling of certificates, each the contract of a function that does nothing.

ghost use Rattle.std.specs.Prelude.{◌≡◌, ◌≤◌, ◌↔◌, ◌+◌, ℕ, List, ◌∷◌, ◌++◌, length, Ok, Err};
ghost use Rattle.vp_text.specs.Lines.{Feed, feed_of};
ghost use Rattle.vp_text.specs.Sections.{text_of};
ghost use Rattle.vp_text.specs.Written.{written};
ghost use Rattle.vp_pay.specs.Written.{SpellingsDiffer};
ghost use Rattle.vp_check.specs.Certificates.{Certificate, IsCertificate};
ghost use Rattle.vp_check.specs.Checking.{Stands, certificate_of, line_number};
ghost use Rattle.vp_check.specs.Reading.{certificate_at};
ghost use Rattle.vp_check.specs.Spelling.{RefusesCertificate, SpellsCertificate, certificate_text, class_words, return_words};
ghost use Rattle.vp_check.specs.declared.class_line.ClassLine.{ClassLine};

/// Different certificates have different spellings, and no spelling begins another one.
pub fn certificate_spellings_differ()
    ensures { SpellingsDiffer certificate_text IsCertificate }
{}

/// What a text says.
pub fn certificates_are_spelled()
    // A text says a certificate where its lines are the spelling of this certificate, and nothing else.
    ensures says { (bytes : List ℕ) (c : Certificate) → certificate_of bytes ≡ Ok c ↔ SpellsCertificate bytes c }
    // It is refused at the first line with which the lines so far begin no certificate, or at the one past the end.
    ensures refused { (bytes : List ℕ) (line : ℕ) → certificate_of bytes ≡ Err line ↔ RefusesCertificate bytes line }
{}

/// The number that a place has is that of the line that says what stands at this place.
pub fn lines_have_numbers()
    // The class lines stand at the places from 1 on.
    ensures classes { (bytes : List ℕ) (c : Certificate) (front back : List ClassLine) (line : ClassLine)
        → certificate_of bytes ≡ Ok c → c.classes ≡ front ++ line ∷ back
        → Stands (feed_of bytes) (line_number c (feed_of bytes) (length front + 1)) (class_words line) }
    // The return stands behind the last class line.
    ensures last { (bytes : List ℕ) (c : Certificate) → certificate_of bytes ≡ Ok c
        → Stands (feed_of bytes) (line_number c (feed_of bytes) (length c.classes + 1)) (return_words c.sum c.denominator) }
{}

/// A certificate that was written is read again.
#[tactic(auto, using(crate::proofs::PlainCertificates::written_certificate, crate::proofs::PlainCertificates::written_whole, crate::proofs::ShortTexts::short_certificate))]
pub fn written_certificates_are_read()
    // The lines behind it are left.
    ensures again { (c : Certificate) (more : List ℕ) → IsCertificate c
        → (left : Feed) × (certificate_at (feed_of (written (certificate_text c) ++ more)) ≡ Ok (c, left))
        × (text_of left.lines ≡ text_of (feed_of more).lines) }
    // Where nothing is behind it, it is what the text says.
    ensures whole { (c : Certificate) → IsCertificate c → certificate_of (written (certificate_text c)) ≡ Ok c }
    // It is no longer than a text that the check takes.
    ensures short { (c : Certificate) → IsCertificate c → length (written (certificate_text c)) ≤ 67108864 }
{}
