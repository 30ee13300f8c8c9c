ghost use Rattle.std.specs.Prelude.{◌≡◌, ◌++◌, IfOk, OnOk};
ghost use Rattle.std.specs.Option.{option_copied};
ghost use Rattle.jac_route.specs.Pairs.{pairs_in, value_of_name};

use form_urlencoded::parse;
use jac_value::{List, Memory, TryClone, Txt};
use std::alloc::Global;

/// A name and its value, decoded. Bytes that are not UTF-8 become U+FFFD.
#[derive(Drop)]
pub struct Pair {
    pub name: Txt,
    pub value: Txt,
}

/// Pairs, in order.
pub type Pairs = List<Pair>;

impl Pair {
    pub fn copy(&self, alloc: Global) -> Result<Pair, Memory>
        ensures { IfOk result (λ p. p ≡ self.now) }
    {
        let name = self.name.copy(alloc)?;
        let value = self.value.copy(alloc)?;
        Ok(Pair { name, value })
    }
}

impl TryClone for Pair {
    fn try_clone(&self, alloc: Global) -> Result<Pair, Memory> {
        let copy = self.copy(alloc)?;
        Ok(copy)
    }
}

/// The pairs of the query, then those of the form body (URL Standard, section 5.1).
pub fn pairs_of(alloc: Global, query: &[u8], body: &[u8]) -> Result<Pairs, Memory>
    ensures { IfOk result (λ ps. ps ≡ pairs_in query.now ++ pairs_in body.now) }
{
    let mut pairs = Vec::new(alloc);
    add_pairs(alloc, query, &mut pairs)?;
    add_pairs(alloc, body, &mut pairs)?;
    Ok(Pairs::from_vec(pairs))
}

// Adds the pairs that the bytes encode.
fn add_pairs(alloc: Global, bytes: &[u8], pairs: &mut Vec<Pair>) -> Result<(), Memory>
    ensures { OnOk result (pairs.new.items ≡ pairs.old.items ++ pairs_in bytes.now) }
{
    'items: for item in parse(alloc, bytes) {
        let (name, value) = item?;
        let name = Txt::from_string(name.into_owned(alloc)?);
        let value = Txt::from_string(value.into_owned(alloc)?);
        pairs.push(Pair { name, value })?;
    }
    Ok(())
}

// The value of the first pair with this name.
pub(crate) fn find_value<'p>(pairs: &'p [Pair], name: &Txt) -> Option<&'p Txt>
    ensures { option_copied result ≡ value_of_name name.now pairs.now }
{
    let mut rest = pairs;
    'pairs: while let Some((pair, more)) = rest.split_first() {
        if pair.name == *name {
            return Some(&pair.value);
        }
        rest = more;
    }
    None
}
