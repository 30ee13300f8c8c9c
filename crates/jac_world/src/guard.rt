ghost use Rattle.std.specs.Prelude.{◌≡◌, ℕ, Bool, ◌+◌, ◌&&◌, ◌∷◌, [], not, true, if◌then◌else◌, IfOk, IfSome, OnOk, IsNone, IsTrue, ◌↔◌};
ghost use Rattle.jac_world.specs.World.{shown_by, holds, holding, both, IsMeet, IsRising, contradict, guard_wants, ArePairwiseApart, FollowCut};
ghost use Rattle.jac_world.specs.CutOff.{AddsMeet, IsCutOff};

use crate::{Assignment, Guards, Label};
use jac_value::Memory;
use std::alloc::Global;
use std::marker::Model;
use std::rc::Rc;

/// A path condition: labels with signs. It holds if each label with sign true is shown and each
/// label with sign false is hidden. Copies share their pairs.
#[derive(Debug, Drop)]
pub struct Guard {
    pairs: PairList,
}

// The pairs that one guard owns, or those that copies of a guard share.
#[derive(Debug)]
enum PairList {
    Own(Vec<(Label, bool)>),
    Shared(Rc<Vec<(Label, bool)>>),
}

// A drop is one step, whichever variant is dropped.
impl Drop for PairList {
    fn drop(self) {
        match self {
            PairList::Own(_) => {}
            PairList::Shared(_) => {}
        }
    }
}

impl Model for Guard {
    ghost use Rattle.std.specs.Prelude.{List, ℕ, Bool};
    ghost use Rattle.jac_world.specs.World.{IsRising};
    ghost use Rattle.jac_world.specs.PairLists.{listed_pairs};

    ghost Value = { List (ℕ × Bool) };

    ghost view = { λ g. listed_pairs g.pairs };

    ghost invariant = { λ g. IsRising (listed_pairs g.pairs) };
}

impl Guard {
    /// The guard that always holds.
    pub fn empty(alloc: Global) -> Guard
        ensures { result ≡ [] }
    {
        Guard {
            pairs: PairList::Own(Vec::new(alloc)),
        }
    }

    pub fn one(alloc: Global, label: Label, sign: bool) -> Result<Guard, Memory>
        ensures { IfOk result (λ g. g ≡ (label, sign) ∷ []) }
    {
        let mut pairs = Vec::new(alloc);
        pairs.push((label, sign))?;
        Ok(Guard {
            pairs: PairList::Own(pairs),
        })
    }

    /// The guard of these labels with their signs.
    pub fn from_pairs(pairs: Vec<(Label, bool)>) -> Guard
        requires { IsRising pairs.items }
        ensures { result ≡ pairs.items }
    {
        Guard {
            pairs: PairList::Own(pairs),
        }
    }

    pub fn holds(&self, assignment: &Assignment) -> bool
        ensures { result ≡ holds (shown_by assignment.now) self.now }
    {
        self.list()
            .iter()
            .all(|pair| pair.1 == assignment.shows(pair.0))
    }

    /// The labels with their signs, in rising order of the labels.
    pub fn pairs(&self) -> &[(Label, bool)]
        ensures pairs { result.now ≡ self.now }
        ensures rising { IsRising self.now }
        ensures can_be_met { holds (guard_wants self.now) self.now ≡ true }
    {
        self.list()
    }

    /// Whether both guards hold under the same assignments.
    pub fn is_same(&self, other: &Guard) -> bool
        ensures equal { IsTrue result ↔ self.now ≡ other.now }
        ensures alike { IsTrue result ↔ ((w : ℕ → Bool) → holds w self.now ≡ holds w other.now) }
    {
        self.pairs() == other.pairs()
    }

    /// The guard that holds if both hold, or none if some label has opposite signs in them.
    pub fn meet(&self, alloc: Global, other: &Guard) -> Result<Option<Guard>, Memory>
        ensures exact { IfOk result (IsMeet self.now other.now) }
        ensures none { IfOk result (λ r. IsNone r ↔ IsTrue (contradict self.now other.now)) }
    {
        match merge(alloc, self.list(), other.list())? {
            Some(pairs) => Ok(Some(Guard {
                pairs: PairList::Own(pairs),
            })),
            None => Ok(None),
        }
    }

    /// Guards for the assignments that meet this one and break the cut. Under each of these,
    /// exactly one of the guards holds, and under any other assignment none. They are in the order
    /// of the labels at which they break the cut.
    pub fn less(&self, alloc: Global, cut: &Guard) -> Result<Guards, Memory>
        ensures exact { IfOk result (λ gs. (w : ℕ → Bool)
            → holding w gs ≡ (if holds w self.now && not (holds w cut.now) then 1 else 0)) }
        ensures apart { IfOk result ArePairwiseApart }
        ensures order { IfOk result (FollowCut cut.now) }
    {
        let guards = self.cut_off(alloc, cut)?;
        Ok(guards)
    }

    /// The same guard. If this guard is a copy itself, no pair is copied.
    pub fn copy(&self, alloc: Global) -> Result<Guard, Memory>
        ensures { IfOk result (λ g. g ≡ self.now) }
    {
        if self.list().is_empty() {
            return Ok(Guard::empty(alloc));
        }
        let pairs = self.shared(alloc)?;
        Ok(Guard {
            pairs: PairList::Shared(pairs),
        })
    }

    fn list(&self) -> &[(Label, bool)]
        ensures list { result.now ≡ self.now }
        ensures rising { IsRising self.now }
    {
        match &self.pairs {
            PairList::Own(pairs) => pairs.as_slice(),
            PairList::Shared(pairs) => pairs.as_ref().as_slice(),
        }
    }

    fn shared(&self, alloc: Global) -> Result<Rc<Vec<(Label, bool)>>, Memory>
        ensures { IfOk result (λ rc. rc.value.items ≡ self.now) }
    {
        match &self.pairs {
            PairList::Own(pairs) => {
                let pairs = Vec::from_slice(alloc, pairs.as_slice())?;
                Ok(Rc::new(alloc, pairs)?)
            }
            PairList::Shared(pairs) => Ok(pairs.clone()?),
        }
    }

    fn cut_off(&self, alloc: Global, cut: &Guard) -> Result<Guards, Memory>
        ensures { IfOk result (IsCutOff self.now cut.now) }
    {
        let mut items = Vec::new(alloc);
        let mut prefix = self.copy(alloc)?;
        let mut rest = cut.list();
        'cut: while let Some((pair, more)) = rest.split_first() {
            let turned = Guard::one(alloc, pair.0, !pair.1)?;
            add_meet(alloc, &mut items, &prefix, &turned)?;
            let straight = Guard::one(alloc, pair.0, pair.1)?;
            match prefix.meet(alloc, &straight)? {
                Some(next) => prefix = next,
                None => return Ok(Guards::from_vec(items)),
            }
            rest = more;
        }
        Ok(Guards::from_vec(items))
    }
}

// Appends the conjunction of both guards, if they can hold together.
fn add_meet(
    alloc: Global,
    items: &mut Vec<Guard>,
    first: &Guard,
    second: &Guard,
) -> Result<(), Memory>
    ensures { OnOk result (AddsMeet first.now second.now items.old.items items.new.items) }
{
    match first.meet(alloc, second)? {
        Some(both) => {
            items.push(both)?;
            Ok(())
        }
        None => Ok(()),
    }
}

// The pairs of both lists in rising order of the labels, or none if some label has opposite signs
// in them.
fn merge(
    alloc: Global,
    first: &[(Label, bool)],
    second: &[(Label, bool)],
) -> Result<Option<Vec<(Label, bool)>>, Memory>
    requires first { IsRising first.now }
    requires second { IsRising second.now }
    ensures rising { IfOk result (λ r. IfSome r (λ v. IsRising v.items)) }
    ensures both { IfOk result (λ r. IfSome r (λ v. (w : ℕ → Bool)
        → holds w v.items ≡ both w first.now second.now)) }
    ensures none { IfOk result (λ r. IsNone r ↔ IsTrue (contradict first.now second.now)) }
{
    let mut out = Vec::new(alloc);
    let mut left = first;
    let mut right = second;
    'pairs: while let (Some((x, xs)), Some((y, ys))) = (left.split_first(), right.split_first()) {
        if x.0 < y.0 {
            out.push(*x)?;
            left = xs;
        } else if y.0 < x.0 {
            out.push(*y)?;
            right = ys;
        } else if x.1 == y.1 {
            out.push(*x)?;
            left = xs;
            right = ys;
        } else {
            return Ok(None);
        }
    }
    out.extend_from_slice(left)?;
    out.extend_from_slice(right)?;
    Ok(Some(out))
}
