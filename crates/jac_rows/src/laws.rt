ghost use Rattle.std.specs.Prelude.{List};
ghost use Rattle.jac_rows.specs.Good.{ModelShape, IsGood, IsGoodByGuards};
ghost use Rattle.jac_rows.specs.declared.state.State.{State};

/// A law: if a state is good by its guards, its projection under every assignment is good.
pub fn good_by_guards()
    ensures { (shapes : List ModelShape) (s : State) → IsGoodByGuards shapes s → IsGood shapes s }
{}
