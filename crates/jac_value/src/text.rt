ghost use Rattle.std.specs.Prelude.{◌≡◌, ℕ, [], IfOk, IsErrOf};
ghost use Rattle.std.specs.Option.{option_copied};
ghost use Rattle.std.specs.String.{string_bytes};
ghost use Rattle.std.specs.Str.{IsUtf8, IsValidUpTo};
ghost use Rattle.std.proofs.Common.{rules};
ghost use Rattle.std.specs.Prelude.{◌==◌};
ghost use Rattle.std.specs.Cmp.Lexicographic.{pointwise, slice_cmp};
ghost use Rattle.std.specs.Cmp.Rules.{comparing};
ghost use Rattle.std.specs.Ordering.{nat_cmp, as_partial_cmp};

use crate::Memory;
use std::alloc::Global;
use std::cmp::Ordering;
use std::marker::Model;

// Up to this many bytes are compared one by one.
const FEW: usize = 16;

/// Text in UTF-8 (RFC 3629), ordered by its bytes.
#[derive(Debug, Drop)]
pub struct Txt {
    text: String,
}

/// Why no text was made of bytes.
#[derive(Clone, Copy, Debug, PartialEq, Eq)]
pub enum TxtFault {
    /// The bytes aren't UTF-8. Their longest prefix that is UTF-8 has this length.
    NotUtf8(u64),
    Memory,
}

impl Model for Txt {
    ghost use Rattle.std.specs.Prelude.{List, ℕ};
    ghost use Rattle.std.specs.String.{string_bytes};

    ghost Value = { List ℕ };

    ghost view = { λ t. string_bytes t.text };
}

impl Txt {
    pub fn empty(alloc: Global) -> Txt
        ensures { result ≡ [] }
    {
        Txt {
            text: String::new(alloc),
        }
    }

    pub fn from_string(text: String) -> Txt
        ensures { result ≡ string_bytes text }
    {
        Txt { text }
    }

    pub fn from_str(alloc: Global, text: &str) -> Result<Txt, Memory>
        ensures { IfOk result (λ t. t ≡ text.now) }
    {
        let text = String::from_str(alloc, text)?;
        Ok(Txt { text })
    }

    pub fn into_string(self) -> String
        ensures { string_bytes result ≡ self }
    {
        self.text
    }

    pub fn as_str(&self) -> &str
        ensures { result.now ≡ self.now }
    {
        self.text.as_str()
    }

    pub fn as_bytes(&self) -> &[u8]
        ensures { result.now ≡ self.now }
    {
        self.text.as_bytes()
    }

    pub fn copy(&self, alloc: Global) -> Result<Txt, Memory>
        ensures { IfOk result (λ t. t ≡ self.now) }
    {
        let text = String::from_str(alloc, self.text.as_str())?;
        Ok(Txt { text })
    }

    /// The bytes as a text, if they are UTF-8.
    pub fn from_bytes(alloc: Global, bytes: &[u8]) -> Result<Txt, TxtFault>
        ensures text { IfOk result (λ t. (t ≡ bytes.now) × IsUtf8 bytes.now) }
        ensures not_utf8 { (at : ℕ) → IsErrOf result (TxtFault.NotUtf8 at) → (¬ (IsUtf8 bytes.now))
            × IsValidUpTo bytes.now at }
    {
        let text = match std::str::from_utf8(bytes) {
            Ok(text) => text,
            Err(fault) => return Err(TxtFault::NotUtf8(fault.valid_up_to() as u64)),
        };
        match String::from_str(alloc, text) {
            Ok(text) => Ok(Txt { text }),
            Err(_) => Err(TxtFault::Memory),
        }
    }
}

impl PartialEq for Txt {
    ghost eq = { pointwise ◌==◌ };

    ghost laws = { Prim.search (comparing, rules) };

    fn eq(&self, other: &Txt) -> bool {
        same_bytes(self.as_bytes(), other.as_bytes())
    }
}

impl Eq for Txt {
    ghost laws = { Prim.search (comparing, rules) };
}

impl PartialOrd for Txt {
    ghost partial_cmp = { as_partial_cmp (slice_cmp nat_cmp) };

    ghost laws = { Prim.search (comparing, rules) };

    fn partial_cmp(&self, other: &Txt) -> Option<Ordering> {
        Some(self.cmp(other))
    }
}

impl Ord for Txt {
    ghost cmp = { slice_cmp nat_cmp };

    ghost total = { Prim.search (comparing, rules) };

    ghost matches_partial_cmp = { Prim.search (comparing, rules) };

    ghost matches_eq = { Prim.search (comparing, rules) };

    fn cmp(&self, other: &Txt) -> Ordering {
        self.as_bytes().cmp(&other.as_bytes())
    }
}

// Whether the bytes are the same. Up to `FEW` bytes are compared one by one, which takes less time
// than a comparison of slices.
fn same_bytes(one: &[u8], other: &[u8]) -> bool
    ensures { result ≡ pointwise ◌==◌ one.now other.now }
{
    if one.len() != other.len() {
        return false;
    }
    if one.len() > FEW {
        return one == other;
    }
    same_few(one, other)
}

fn same_few(one: &[u8], other: &[u8]) -> bool
    ensures { result ≡ pointwise ◌==◌ one.now other.now }
{
    let mut left = other;
    'bytes: for byte in one {
        let Some((first, rest)) = left.split_first() else {
            return false;
        };
        if byte != first {
            return false;
        }
        left = rest;
    }
    left.is_empty()
}

/// A copy of the name, if there is one.
pub fn copy_name(alloc: Global, name: Option<&Txt>) -> Result<Option<Txt>, Memory>
    ensures { IfOk result (λ copy. copy ≡ option_copied name.entry) }
{
    match name {
        None => Ok(None),
        Some(name) => {
            let copy = name.copy(alloc)?;
            Ok(Some(copy))
        }
    }
}
