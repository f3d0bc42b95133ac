//! A name of a pay table or of a pay line.

ghost use Rattle.std.specs.Prelude.{◌≡◌, ◌≤◌, length, Some, None, if◌then◌else◌, true, codes};
ghost use Rattle.std.specs.List.{list_all};
ghost use Rattle.vp_pay.specs.Names.{is_letter, is_name_byte, is_name};

use arrayvec::ArrayVec;
use std::marker::Model;

/// A name: a lower-case letter and up to 23 lower-case letters, digits and `-`.
#[derive(Debug, PartialEq, Eq, Drop)]
pub struct Name {
    bytes: ArrayVec<u8, 24>,
}

impl Model for Name {
    ghost use Rattle.std.specs.Prelude.{◌≡◌, List, ℕ, true};

    ghost Value = { List ℕ };

    ghost use Rattle.vp_pay.specs.Names.{is_name};

    ghost view = { λ n. n.bytes.items };

    ghost invariant = { λ n. is_name n.bytes.items ≡ true };

    ghost inverse = { λ text. record { bytes = record { items = text } } };
}

impl Name {
    /// The name with these bytes; None where they are no name.
    pub fn read(text: &[u8]) -> Option<Name>
        ensures { result ≡ (if is_name text.now then Some text.now else None) }
    {
        if !is_name(text) {
            return None;
        }
        let Ok(bytes) = ArrayVec::try_from(text) else {
            return None;
        };
        Some(Name { bytes })
    }

    /// The bytes of the name.
    pub fn text(&self) -> &[u8]
        ensures value { result.now ≡ self.now }
        ensures name { is_name self.now ≡ true }
        ensures short { length self.now ≤ 24 }
    {
        &self.bytes
    }
}

impl Default for Name {
    /// The name `a`.
    fn default() -> Name
        ensures { result ≡ codes "a" }
    {
        let mut bytes = ArrayVec::new();
        bytes.push(b'a');
        Name { bytes }
    }
}

fn is_letter(byte: u8) -> bool
    ensures { result ≡ is_letter byte }
{
    byte >= b'a' && byte <= b'z'
}

fn is_name_byte(byte: u8) -> bool
    ensures { result ≡ is_name_byte byte }
{
    is_letter(byte) || (byte >= b'0' && byte <= b'9') || byte == b'-'
}

fn are_name_bytes(bytes: &[u8]) -> bool
    ensures { result ≡ list_all is_name_byte bytes.now }
{
    bytes.iter().all(|byte| is_name_byte(*byte))
}

fn is_name(text: &[u8]) -> bool
    ensures { result ≡ is_name text.now }
{
    let [first, rest @ ..] = text else {
        return false;
    };
    if !is_letter(*first) || !are_name_bytes(rest) {
        return false;
    }
    rest.len() <= 23
}
