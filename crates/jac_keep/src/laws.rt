ghost use Rattle.std.specs.Prelude.{◌≡◌, ◌≤◌, ◌^◌, ℕ, List, length, unwrap_or};
ghost use Rattle.jac_value.specs.Ids.{model_of_id};
ghost use Rattle.jac_rows.specs.Good.{ModelShape, IsGoodByGuards, IsSound};
ghost use Rattle.jac_rows.specs.Tables.{rows_of};
ghost use Rattle.jac_rows.specs.declared.state.State.{State};
ghost use Rattle.jac_keep.specs.declared.alteration.Change.{Change as Changed};
ghost use Rattle.jac_keep.specs.Records.{alternatives};
ghost use Rattle.jac_keep.specs.Alterations.{AreApart, ArePlaced, alternatives_named};
ghost use Rattle.jac_keep.specs.ChangedState.{changed_state};
ghost use Rattle.jac_keep.specs.Sound.{AllStand};

/// A law: a state that is good by its guards is sound.
pub fn sound_if_good()
    ensures { (shapes : List ModelShape) (s : State) → IsGoodByGuards shapes s → IsSound s }
{}

/// A law: a sound state stays sound after a change, if the new alternatives are allowed and the
/// number doesn't fall.
pub fn sound_after_change()
    ensures { (c : Changed) (s : State) → IsSound s → s.number ≤ c.number → c.number ≤ 2 ^ 40
        → AllStand c.number c.changed → IsSound (changed_state c s) }
{}

/// A law: after a change, a record has its new alternatives if it was changed. Otherwise it has its
/// old ones.
pub fn record_after_change()
    ensures { (c : Changed) (s : State) (id : ℕ) → AreApart c.changed
        → ArePlaced c.changed (length s.tables)
        → alternatives id (rows_of (changed_state c s).tables (model_of_id id)) ≡ unwrap_or
        (alternatives_named id c.changed) (alternatives id (rows_of s.tables (model_of_id id))) }
{}
