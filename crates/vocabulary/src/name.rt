//! Names of projects.
ghost use Rattle.std.specs.Prelude.{◌≡◌, ℕ, ◌↔◌, ◌<◌, IfOk, IsOk, IsTrue, Some, refl};
ghost use Rattle.std.specs.Cmp.{partial_equiv_from_equiv};
ghost use Rattle.std.specs.Cmp.Lexicographic.{pointwise, nat_list_eq_equiv, nat_list_cmp_total, texts_po};
ghost use Rattle.std.specs.Cmp.Lexicographic.{texts_ties};
ghost use Rattle.std.specs.Prelude.{nat_eq};
ghost use Rattle.std.specs.Cmp.Rules.{hashing};
ghost use Rattle.std.specs.Hash as fed;
ghost use Rattle.std.proofs.Common.{rules};
ghost use Rattle.vocabulary.specs.Names.{IsName, IsNameByte, name_cmp};

use arrayvec::ArrayString;
use std::cmp::Ordering;
use std::hash::{Hash, Hasher};
use std::marker::Model;

/// The name of a project: 1 to 32 bytes of `a` to `z`, `0` to `9`, `_` and `-`. Names are compared
/// by their bytes.
#[derive(Debug, Drop)]
pub struct Name {
    text: ArrayString<32>,
}

impl Model for Name {
    ghost use Rattle.std.specs.Prelude.{List, ℕ};
    ghost use Rattle.vocabulary.specs.Names.{IsName};

    ghost Value = { List ℕ };

    ghost view = { λ s. s.text.bytes };

    ghost invariant = { λ s. IsName s.text.bytes };
}

/// The bytes are not those of a name.
#[derive(Clone, Copy, Debug, PartialEq, Eq)]
pub struct NotName;

impl Name {
    /// The name with these bytes. It takes no memory.
    ///
    /// # Errors
    ///
    /// `NotName` where there are none or more than 32, or one of them may not stand in a name.
    pub fn new(bytes: &[u8]) -> Result<Name, NotName>
        ensures ok { IfOk result (λ name. name ≡ bytes.now) }
        ensures exactly { IsOk result ↔ IsName bytes.now }
    {
        if bytes.is_empty() || bytes.len() > 32 {
            return Err(NotName);
        }
        let mut text = ArrayString::new();
        for byte in bytes {
            if !is_name_byte(*byte) {
                return Err(NotName);
            }
            text.push(char::from(*byte));
        }
        Ok(Name { text })
    }

    /// The text of the name.
    pub fn text(&self) -> &str
        ensures text { result.now ≡ self.now }
        ensures name { IsName self.now }
    {
        self.text.as_str()
    }

    /// An equal name. It takes no memory.
    pub fn copy(&self) -> Name
        ensures same { result ≡ self.now }
        ensures name { IsName self.now }
    {
        Name { text: self.text }
    }
}

impl PartialEq for Name {
    ghost eq = { pointwise nat_eq };

    ghost laws = { partial_equiv_from_equiv nat_list_eq_equiv };

    fn eq(&self, other: &Name) -> bool {
        self.text == other.text
    }
}

impl Eq for Name {
    ghost laws = { nat_list_eq_equiv };
}

impl PartialOrd for Name {
    ghost partial_cmp = { λ s t. Some (name_cmp s t) };

    ghost laws = { texts_po };

    fn partial_cmp(&self, other: &Name) -> Option<Ordering> {
        Some(self.cmp(other))
    }
}

impl Ord for Name {
    ghost cmp = { name_cmp };

    ghost total = { nat_list_cmp_total };

    ghost matches_partial_cmp = { λ s t. refl };

    ghost matches_eq = { texts_ties };

    fn cmp(&self, other: &Name) -> Ordering {
        self.text.cmp(&other.text)
    }
}

impl Hash for Name {
    ghost hash_input = { fed.str };

    ghost respects_eq = { Prim.search (hashing, rules) };

    fn hash<H: Hasher>(&self, state: &mut H) {
        self.text.hash(state);
    }
}

/// Whether a byte may stand in a name.
fn is_name_byte(byte: u8) -> bool
    ensures { IsTrue result ↔ IsNameByte byte }
{
    byte.is_ascii_lowercase() || byte.is_ascii_digit() || byte == b'_' || byte == b'-'
}
