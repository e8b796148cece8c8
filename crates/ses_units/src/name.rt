//! A name of a source or a route: a short text that keeps one rule, copied without memory.
ghost use Rattle.std.specs.Prelude.{◌≡◌, ℕ, ◌↔◌, List, IsTrue, IfOk, IsOk};
ghost use Rattle.std.specs.List.{list_all};
ghost use Rattle.std.specs.Str.{bytes_eq};
ghost use Rattle.std.specs.Cmp.Rules.{comparing};
ghost use Rattle.std.proofs.Common.{rules};
ghost use Rattle.ses_units.specs.Name.{is_name, is_name_byte, is_letter};

use std::marker::Model;
use std::str;
use thiserror::Error;

/// 1 to 24 bytes of a-z, 0-9 and _, of which the first is a letter (own).
#[derive(Clone, Copy, Debug)]
pub struct Name {
    bytes: [u8; 24],
    size: u8,
}

/// A text that breaks the rule of names.
#[derive(Clone, Copy, Debug, PartialEq, Eq, Error)]
#[error("a name is 1 to 24 of a-z, 0-9 and _, and begins with a letter")]
pub struct NotName;

impl Model for Name {
    ghost use Rattle.std.specs.Prelude.{List, ℕ, take, length};
    ghost use Rattle.std.proofs.Common.{ap, sym, ◌∙◌};
    ghost use Rattle.ses_units.specs.Name.{HoldsName, padded};

    ghost Value = { List ℕ };

    ghost view = { λ n. take n.size n.bytes };

    ghost invariant = { λ n. HoldsName n.bytes n.size };

    ghost inverse = { λ text. record { bytes = padded text; size = length text } };

    ghost inverse_ok = { λ n h. let made : List ℕ → ℕ → Inside =
        λ b k. record { bytes = b; size = k } in
        let sized = λ (b : List ℕ). made b (length (take n.size n.bytes)) in
        ap sized (sym h.full) ∙ ap (made n.bytes) h.long };
}

/// Two names are equal where their bytes are.
impl PartialEq for Name {
    ghost eq = { bytes_eq };

    ghost laws = { Prim.search (comparing, rules) };

    fn eq(&self, other: &Name) -> bool
        ensures value { result ≡ bytes_eq self.now other.now }
        ensures same { IsTrue result ↔ (self.now ≡ other.now) }
    {
        self.as_bytes() == other.as_bytes()
    }
}

impl Eq for Name {
    ghost laws = { Prim.search (comparing, rules) };
}

fn is_letter(b: u8) -> bool
    ensures { result ≡ is_letter b }
{
    b'a' <= b && b <= b'z'
}

fn is_name_byte(b: u8) -> bool
    ensures { result ≡ is_name_byte b }
{
    is_letter(b) || (b'0' <= b && b <= b'9') || b == b'_'
}

fn are_name_bytes(bytes: &[u8]) -> bool
    ensures { result ≡ list_all is_name_byte bytes.now }
{
    bytes.iter().all(|b| is_name_byte(*b))
}

fn is_name(bytes: &[u8]) -> bool
    ensures { result ≡ is_name bytes.now }
{
    if bytes.is_empty() || bytes.len() > 24 {
        return false;
    }
    is_letter(bytes[0]) && are_name_bytes(bytes)
}

impl Name {
    /// The name that a text is, if it is one.
    pub fn new(text: &str) -> Result<Name, NotName>
        ensures bytes { IfOk result (λ name. name ≡ text.now) }
        ensures judged { IsOk result ↔ IsTrue (is_name text.now) }
    {
        let text = text.as_bytes();
        if !is_name(text) {
            return Err(NotName);
        }
        let mut bytes = [0; 24];
        bytes[..text.len()].copy_from_slice(text);
        Ok(Name {
            bytes,
            size: text.len() as u8,
        })
    }

    /// The text of the name.
    pub fn as_str(&self) -> &str
        ensures bytes { result.now ≡ self.now }
        ensures rule { IsTrue (is_name self.now) }
    {
        str::from_utf8(self.as_bytes()).unwrap()
    }

    fn as_bytes(&self) -> &[u8]
        ensures bytes { result.now ≡ self.now }
        ensures rule { IsTrue (is_name self.now) }
    {
        &self.bytes[..self.size as usize]
    }
}
