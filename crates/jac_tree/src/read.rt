ghost use Rattle.std.specs.Prelude.{◌≡◌, ◌≢◌, List, false, OnOk, ◌+◌, ◌^◌, ◌<◌, ◌≤◌, ◌↔◌, ◌⊎◌, ℕ, [], ◌∷◌, ◌++◌, length, IfOk, IsErrOf, MatchResult, IsUtf8, encode_utf8, string_bytes};
ghost use Rattle.std.specs.Str.{IsValidUpTo};
ghost use Rattle.jac_tree.specs.declared.fault.TreeFault.{TreeFault as AnyFault};
ghost use Rattle.jac_tree.specs.Faults.{IsFaultOf, IsShortText};
ghost use Rattle.jac_tree.specs.Grammar.{Accepted, Spells, IsStrayAt, IsDeepAt, IsUnclosedAt, is_white, escape_meaning};
ghost use Rattle.jac_value.specs.Names.{is_atom_byte};
ghost use Rattle.jac_tree.specs.Mirror.{plain};
ghost use Rattle.jac_tree.specs.Plain.{PlainTree, PlainTrees, nesting, widest};
ghost use Rattle.jac_tree.specs.Reading.{open_lists, StepsReader, Goes, Settles, FinishesTree, ReadsTree, AreShallow, IsShallowPlace, IsShallow};

use crate::{Tree, TreeFault, Trees};
use jac_value::{Memory, Txt};
use std::alloc::Global;

// The largest number of bytes that are read.
const LENGTH_LIMIT: usize = 1_048_576;

// The largest number of lists that are open at once.
const NESTING_LIMIT: usize = 64;

// The state of a reader outside of atoms and texts.
#[derive(Drop)]
enum Place {
    // A tree may begin here, or the innermost open list may end.
    Open,
    // The document's tree was read.
    Complete(Tree),
}

// The state of a reader between two characters.
#[derive(Drop)]
enum Mode {
    Outside(Place),
    InAtom(String),
    InText(String),
    // After a backslash in a text.
    InEscape(String),
}

/// The tree that the bytes spell.
pub fn read_tree(alloc: Global, bytes: &[u8]) -> Result<Tree, TreeFault>
    ensures tree { IfOk result (λ t. Accepted bytes.now (plain t)) }

    ensures short_lists { IfOk result (λ t. widest (plain t) < 2 ^ 32) }

    // Each tree that the bytes spell is read, unless memory runs out.
    ensures only { (t : PlainTree) → Accepted bytes.now t → MatchResult result (λ u. plain u ≡ t)
        (λ e. e ≡ TreeFault.Memory) }

    // The length is tested first, and then the encoding, and neither takes memory.
    ensures long { IsErrOf result TreeFault.Long ↔ (1048576 < length bytes.now) }
    ensures not_utf8 { (at : ℕ) → IsErrOf result (TreeFault.NotUtf8 at)
        → (length bytes.now ≤ 1048576) × ¬ (IsUtf8 bytes.now) × IsValidUpTo bytes.now at }
    ensures no_text { length bytes.now ≤ 1048576 → ¬ (IsUtf8 bytes.now) → (at : ℕ)
        × IsErrOf result (TreeFault.NotUtf8 at) }

    // `Stray` has the place of the first byte with which no document continues, and `Deep` that of
    // the first byte with which no document of at most 64 levels continues.
    ensures stray { (at : ℕ) → IsErrOf result (TreeFault.Stray at) → IsStrayAt bytes.now at }
    ensures deep { (at : ℕ) → IsErrOf result (TreeFault.Deep at) → IsDeepAt bytes.now at }
    ensures unclosed { (at : ℕ) → IsErrOf result (TreeFault.Unclosed at)
        → IsUnclosedAt bytes.now at }

    // If the bytes have a fault, it is returned, unless memory runs out.
    ensures faults { (fault : AnyFault) → IsFaultOf bytes.now fault
        → MatchResult result (λ _. ⊥) (λ e. (e ≡ fault) ⊎ (e ≡ TreeFault.Memory)) }
{
    if bytes.len() > LENGTH_LIMIT {
        return Err(TreeFault::Long);
    }
    let text = match std::str::from_utf8(bytes) {
        Ok(text) => text,
        Err(fault) => return Err(TreeFault::NotUtf8(fault.valid_up_to() as u64)),
    };
    let tree = read_str(alloc, text)?;
    Ok(tree)
}

/// A law: bytes spell at most one tree.
pub fn spells_one_tree()
    ensures { (bytes : List ℕ) (t : PlainTree) (u : PlainTree) → Spells bytes t → Spells bytes u
        → t ≡ u }
{}

/// A law: at most 1,048,576 bytes that are UTF-8 are accepted as a tree, or have a fault. So the
/// result of `read_tree` is determined, unless memory runs out.
pub fn each_text_is_read()
    ensures { (bytes : List ℕ) → IsShortText bytes → ((t : PlainTree) × Accepted bytes t)
        ⊎ ((fault : AnyFault) × IsFaultOf bytes fault) }
{}

/// The tree that the text spells. The text may have any length.
pub fn read_text(alloc: Global, text: &Txt) -> Result<Tree, TreeFault>
    ensures reads { ReadsTree text.now result }
    ensures wide { IfOk result (λ t. widest (plain t) ≤ length text.now) }
{
    let tree = read_str(alloc, text.as_str())?;
    Ok(tree)
}

fn read_str(alloc: Global, text: &str) -> Result<Tree, TreeFault>
    ensures { ReadsTree text.now result }
{
    let mut stack = Vec::new(alloc);
    let mut mode = Mode::Outside(Place::Open);
    let mut at: u64 = 0;
    'characters: for c in text.chars() {
        mode = step(alloc, &mut stack, mode, c, at)?;
        at += c.len_utf8() as u64;
    }
    let tree = finish(mode, stack.as_slice(), at)?;
    Ok(tree)
}

// Reads the character `c`, which begins at the byte `at`. After a fault, the reader isn't used
// again.
fn step(
    alloc: Global,
    stack: &mut Vec<Trees>,
    mode: Mode,
    c: char,
    at: u64,
) -> Result<Mode, TreeFault>
    ensures steps { Goes (open_lists stack.old.items) mode (encode_utf8 c) at
        (open_lists stack.new.items) result }
    ensures shallow { IfOk result (λ next. IsShallow (open_lists stack.old.items) mode
        → IsShallow (open_lists stack.new.items) next) }
{
    match mode {
        Mode::Outside(place) => {
            let next = outside(alloc, stack, place, c, at)?;
            Ok(next)
        }
        Mode::InAtom(atom) => {
            let next = in_atom(alloc, stack, atom, c, at)?;
            Ok(next)
        }
        Mode::InText(text) => {
            let next = in_text(alloc, stack, text, c)?;
            Ok(next)
        }
        Mode::InEscape(text) => {
            let next = in_escape(text, c, at)?;
            Ok(next)
        }
    }
}

fn outside(
    alloc: Global,
    stack: &mut Vec<Trees>,
    place: Place,
    c: char,
    at: u64,
) -> Result<Mode, TreeFault>
    ensures steps { Goes (open_lists stack.old.items) (Mode.Outside place) (encode_utf8 c) at
        (open_lists stack.new.items) result }
    ensures shallow { IfOk result (λ next. IsShallow (open_lists stack.old.items)
        (Mode.Outside place) → IsShallow (open_lists stack.new.items) next) }
{
    match place {
        Place::Open => {
            let next = between(alloc, stack, c, at)?;
            Ok(next)
        }
        Place::Complete(tree) => {
            if is_white(c) {
                Ok(Mode::Outside(Place::Complete(tree)))
            } else {
                Err(TreeFault::Stray(at))
            }
        }
    }
}

// Reads a character with which a tree may begin, or the innermost list may end.
fn between(alloc: Global, stack: &mut Vec<Trees>, c: char, at: u64) -> Result<Mode, TreeFault>
    ensures steps { Goes (open_lists stack.old.items) (Mode.Outside Place.Open) (encode_utf8 c) at
        (open_lists stack.new.items) result }
    ensures shallow { IfOk result (λ next. IsShallow (open_lists stack.old.items)
        (Mode.Outside Place.Open) → IsShallow (open_lists stack.new.items) next) }
{
    if is_white(c) {
        return Ok(Mode::Outside(Place::Open));
    }
    match c {
        ')' => {
            let next = close_list(alloc, stack, at)?;
            Ok(next)
        }
        '(' => {
            let next = open_list(stack, at)?;
            Ok(next)
        }
        '"' => Ok(Mode::InText(String::new(alloc))),
        _ => {
            let next = begin_atom(alloc, c, at)?;
            Ok(next)
        }
    }
}

// Reads a character with which only an atom may begin.
fn begin_atom(alloc: Global, c: char, at: u64) -> Result<Mode, TreeFault>
    requires no_white { is_white c ≡ false }
    requires no_quote { c ≢ 34 }
    requires no_opening { c ≢ 40 }
    requires no_closing { c ≢ 41 }
    ensures steps { (gs : List PlainTrees) → Goes gs (Mode.Outside Place.Open) (encode_utf8 c) at gs
        result }
    ensures shallow { (gs : List PlainTrees) → AreShallow gs
        → IfOk result (λ next. IsShallow gs next) }
{
    if is_atom_char(c) {
        let atom = pushed(String::new(alloc), c)?;
        Ok(Mode::InAtom(atom))
    } else {
        Err(TreeFault::Stray(at))
    }
}

fn open_list(stack: &mut Vec<Trees>, at: u64) -> Result<Mode, TreeFault>
    ensures steps { Goes (open_lists stack.old.items) (Mode.Outside Place.Open) (40 ∷ []) at
        (open_lists stack.new.items) result }
    ensures shallow { IfOk result (λ next. IsShallow (open_lists stack.old.items)
        (Mode.Outside Place.Open) → IsShallow (open_lists stack.new.items) next) }
{
    if stack.len() >= NESTING_LIMIT {
        return Err(TreeFault::Deep(at));
    }
    add_list(stack)?;
    Ok(Mode::Outside(Place::Open))
}

fn add_list(stack: &mut Vec<Trees>) -> Result<(), Memory>
    ensures { OnOk result (open_lists stack.new.items ≡ PlainTrees.none ∷ open_lists
        stack.old.items) }
{
    stack.push(Trees::End)?;
    Ok(())
}

fn close_list(alloc: Global, stack: &mut Vec<Trees>, at: u64) -> Result<Mode, TreeFault>
    ensures steps { Goes (open_lists stack.old.items) (Mode.Outside Place.Open) (41 ∷ []) at
        (open_lists stack.new.items) result }
    ensures shallow { IfOk result (λ next. IsShallow (open_lists stack.old.items)
        (Mode.Outside Place.Open) → IsShallow (open_lists stack.new.items) next) }
{
    match stack.pop() {
        None => Err(TreeFault::Stray(at)),
        Some(items) => {
            let place = settle(alloc, stack, Tree::List(items.before(Trees::End)))?;
            Ok(Mode::Outside(place))
        }
    }
}

// Appends a tree that was read to the innermost open list.
fn settle(alloc: Global, stack: &mut Vec<Trees>, tree: Tree) -> Result<Place, Memory>
    ensures settles { IfOk result (λ place. Settles (open_lists stack.old.items) (plain tree)
        (open_lists stack.new.items) place) }
    ensures shallow { IfOk result (λ place. AreShallow (open_lists stack.old.items)
        → nesting (plain tree) + length (open_lists stack.old.items) ≤ 64
        → AreShallow (open_lists stack.new.items) × IsShallowPlace place) }
{
    match stack.pop() {
        None => Ok(Place::Complete(tree)),
        Some(items) => {
            let first = Box::new(alloc, tree)?;
            let rest = Box::new(alloc, items)?;
            stack.push(Trees::More(first, rest))?;
            Ok(Place::Open)
        }
    }
}

fn in_atom(
    alloc: Global,
    stack: &mut Vec<Trees>,
    atom: String,
    c: char,
    at: u64,
) -> Result<Mode, TreeFault>
    ensures steps { Goes (open_lists stack.old.items) (Mode.InAtom atom) (encode_utf8 c) at
        (open_lists stack.new.items) result }
    ensures shallow { IfOk result (λ next. IsShallow (open_lists stack.old.items) (Mode.InAtom atom)
        → IsShallow (open_lists stack.new.items) next) }
{
    if is_atom_char(c) {
        let atom = pushed(atom, c)?;
        Ok(Mode::InAtom(atom))
    } else {
        let place = settle(alloc, stack, Tree::Atom(Txt::from_string(atom)))?;
        let next = outside(alloc, stack, place, c, at)?;
        Ok(next)
    }
}

fn in_text(alloc: Global, stack: &mut Vec<Trees>, text: String, c: char) -> Result<Mode, Memory>
    ensures steps { IfOk result (λ next. StepsReader (open_lists stack.old.items) (Mode.InText text)
        (encode_utf8 c) (open_lists stack.new.items) next) }
    ensures shallow { IfOk result (λ next. IsShallow (open_lists stack.old.items) (Mode.InText text)
        → IsShallow (open_lists stack.new.items) next) }
{
    match c {
        '"' => {
            let place = settle(alloc, stack, Tree::Text(Txt::from_string(text)))?;
            Ok(Mode::Outside(place))
        }
        '\\' => Ok(Mode::InEscape(text)),
        _ => {
            let text = pushed(text, c)?;
            Ok(Mode::InText(text))
        }
    }
}

fn in_escape(text: String, c: char, at: u64) -> Result<Mode, TreeFault>
    ensures steps { (gs : List PlainTrees) → Goes gs (Mode.InEscape text) (encode_utf8 c) at gs
        result }
    ensures shallow { (gs : List PlainTrees) → AreShallow gs
        → IfOk result (λ next. IsShallow gs next) }
{
    match unescaped(c) {
        Some(piece) => {
            let text = pushed(text, piece)?;
            Ok(Mode::InText(text))
        }
        None => Err(TreeFault::Stray(at)),
    }
}

fn finish(mode: Mode, stack: &[Trees], at: u64) -> Result<Tree, TreeFault>
    ensures finishes { FinishesTree (open_lists stack.now) mode at result }
    ensures shallow { IfOk result (λ tree. IsShallow (open_lists stack.now) mode
        → nesting (plain tree) ≤ 64) }
{
    match mode {
        Mode::Outside(Place::Complete(tree)) => Ok(tree),
        Mode::Outside(Place::Open) => Err(TreeFault::Unclosed(at)),
        Mode::InAtom(atom) => {
            let tree = finish_atom(atom, stack, at)?;
            Ok(tree)
        }
        Mode::InText(_) => Err(TreeFault::Unclosed(at)),
        Mode::InEscape(_) => Err(TreeFault::Unclosed(at)),
    }
}

fn finish_atom(atom: String, stack: &[Trees], at: u64) -> Result<Tree, TreeFault>
    ensures finishes { FinishesTree (open_lists stack.now) (Mode.InAtom atom) at result }
    ensures shallow { IfOk result (λ tree. nesting (plain tree) ≤ 64) }
{
    if stack.is_empty() {
        Ok(Tree::Atom(Txt::from_string(atom)))
    } else {
        Err(TreeFault::Unclosed(at))
    }
}

fn pushed(text: String, c: char) -> Result<String, Memory>
    ensures { IfOk result (λ longer. string_bytes longer ≡ string_bytes text ++ encode_utf8 c) }
{
    let mut longer = text;
    longer.push(c)?;
    Ok(longer)
}

// The character that an escape means, by the character after the backslash.
fn unescaped(c: char) -> Option<char>
    ensures { result ≡ escape_meaning c }
{
    match c {
        'n' => Some('\n'),
        'r' => Some('\r'),
        't' => Some('\t'),
        '\\' => Some('\\'),
        '"' => Some('"'),
        _ => None,
    }
}

fn is_white(c: char) -> bool
    ensures { result ≡ is_white c }
{
    matches!(c, ' ' | '\t' | '\n' | '\r')
}

fn is_atom_char(c: char) -> bool
    ensures { result ≡ is_atom_byte c }
{
    c.is_ascii_alphanumeric() || c == '_' || c == '-'
}
