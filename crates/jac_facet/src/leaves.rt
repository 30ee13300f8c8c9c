ghost use Rattle.std.specs.Prelude.{◌≡◌, ℕ, Bool, true, ◌&&◌, ◌||◌, ◌++◌, [], ◌∷◌, if◌then◌else◌, IfOk, OnOk};
ghost use mathlib.Core.Bool.{beq};
ghost use Rattle.jac_world.specs.World.{holds, contradict};
ghost use Rattle.jac_facet.specs.Shape.{at, higher};
ghost use Rattle.jac_facet.specs.Leaves.{leaves_seen, leaves_of, with_pair, guard_where, meets, is_shown_before, order_after, IsWhere};

use crate::facet::Node;
use crate::{Facet, Leaf, Leaves};
use jac_value::Memory;
use jac_world::{Guard, Label};
use std::alloc::Global;

impl<T: Leaf> Facet<T> {
    /// The leaves that the facet can reach if the guard holds, high sides first. Each has its value
    /// and the guard under which the facet has it. At most one of these guards holds under each
    /// assignment.
    pub fn leaves_under(&self, alloc: Global, guard: &Guard) -> Result<Leaves<T>, Memory>
        ensures exact { IfOk result (λ ps. ps ≡ leaves_of guard.now self.now) }
        ensures seen { IfOk result (λ ps. (w : ℕ → Bool) → leaves_seen w ps ≡ (if holds w guard.now
            then at w self.now ∷ [] else [])) }
        ensures order { IfOk result (λ ps. (v w : ℕ → Bool) → holds v guard.now ≡ true
            → holds w guard.now ≡ true → is_shown_before v w ps ≡ higher v w self.now) }
    {
        let mut out = Vec::new(alloc);
        self.add_leaves(alloc, guard, &mut out)?;
        Ok(Leaves::from_vec(out))
    }

    #[cycle(leaves)]
    fn add_leaves(
        &self,
        alloc: Global,
        guard: &Guard,
        out: &mut Vec<(Guard, T)>,
    ) -> Result<(), Memory>
        ensures exact { OnOk result (out.new.items ≡ out.old.items
            ++ leaves_of guard.now self.now) }
        ensures seen { OnOk result ((w : ℕ → Bool) → leaves_seen w out.new.items
            ≡ leaves_seen w out.old.items
            ++ (if holds w guard.now then at w self.now ∷ [] else [])) }
        ensures meets { OnOk result ((w : ℕ → Bool)
            → meets w out.new.items ≡ (meets w out.old.items || holds w guard.now)) }
        ensures order { OnOk result ((v w : ℕ → Bool) → is_shown_before v w out.new.items
            ≡ order_after
            (meets v out.old.items) (meets w out.old.items) (holds v guard.now) (holds w guard.now)
            (is_shown_before v w out.old.items) (higher v w self.now)) }
    {
        match &self.node {
            Node::Leaf(value) => {
                push_leaf(alloc, guard, value, out)?;
                Ok(())
            }
            Node::Split(label, high, low) => {
                high.add_leaves_where(alloc, guard, *label, true, out)?;
                low.add_leaves_where(alloc, guard, *label, false, out)?;
                Ok(())
            }
        }
    }

    // Appends the leaves for the assignments that meet the guard and give the label this sign.
    #[cycle(leaves)]
    fn add_leaves_where(
        &self,
        alloc: Global,
        guard: &Guard,
        label: Label,
        sign: bool,
        out: &mut Vec<(Guard, T)>,
    ) -> Result<(), Memory>
        ensures exact { OnOk result (out.new.items ≡ out.old.items
            ++ (if contradict guard.now ((label, sign) ∷ []) then []
            else leaves_of (with_pair label sign guard.now) self.now)) }
        ensures seen { OnOk result ((w : ℕ → Bool) → leaves_seen w out.new.items
            ≡ leaves_seen w out.old.items
            ++ (if holds w guard.now && beq sign (w label) then at w self.now ∷ [] else [])) }
        ensures meets { OnOk result ((w : ℕ → Bool)
            → meets w out.new.items
            ≡ (meets w out.old.items || (holds w guard.now && beq sign (w label)))) }
        ensures order { OnOk result ((v w : ℕ → Bool) → is_shown_before v w out.new.items
            ≡ order_after
            (meets v out.old.items) (meets w out.old.items) (holds v guard.now && beq sign
            (v label)) (holds w guard.now && beq sign (w label)) (is_shown_before v w out.old.items)
            (higher v w self.now)) }
    {
        match guard_where(alloc, guard, label, sign)? {
            Some(both) => {
                self.add_leaves(alloc, &both, out)?;
                Ok(())
            }
            None => Ok(()),
        }
    }
}

// The guard that holds if this one does and the label has the sign, or none if they never hold
// together.
fn guard_where(
    alloc: Global,
    guard: &Guard,
    label: Label,
    sign: bool,
) -> Result<Option<Guard>, Memory>
    ensures exact { IfOk result (λ r. r ≡ guard_where guard.now label sign) }
    ensures holds { IfOk result (IsWhere guard.now label sign) }
{
    let one = Guard::one(alloc, label, sign)?;
    let _ = guard.pairs();
    match guard.meet(alloc, &one)? {
        Some(both) => {
            let _ = both.pairs();
            Ok(Some(both))
        }
        None => Ok(None),
    }
}

fn push_leaf<T: Leaf>(
    alloc: Global,
    guard: &Guard,
    value: &T,
    out: &mut Vec<(Guard, T)>,
) -> Result<(), Memory>
    ensures { OnOk result (out.new.items ≡ out.old.items ++ (guard.now, value.now) ∷ []) }
{
    let guard = guard.copy(alloc)?;
    let value = value.copy(alloc)?;
    out.push((guard, value))?;
    Ok(())
}
