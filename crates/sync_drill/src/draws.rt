//! The numbers that are drawn.

ghost use Rattle.std.specs.Prelude.{◌≡◌, ◌<◌, ◌^◌};
ghost use Rattle.sync_drill.specs.Draws.{drawn, next_state, state_after, step_draws};

/// The numbers of one step: the root, the depth below it, the child, the grandchild, and the value.
#[derive(Clone, Copy, Debug)]
pub(crate) struct StepDraws {
    pub root: u64,
    pub depth: u64,
    pub child: u64,
    pub grandchild: u64,
    pub value: u64,
}

/// The next number below a bound. The state goes on first.
fn draw(state: &mut u64, bound: u64) -> u64
    requires state { state.old < 2 ^ 31 }
    requires bound { 0 < bound }
    ensures state { state.new ≡ next_state state.old }
    ensures below { state.new < 2 ^ 31 }
    ensures number { result ≡ drawn state.new bound }
{
    *state = (*state * 1103515245 + 12345) % 2147483648;
    *state / 65536 % bound
}

/// The numbers of the next step.
pub(crate) fn draw_step(state: &mut u64) -> StepDraws
    requires { state.old < 2 ^ 31 }
    ensures state { state.new ≡ state_after 5 state.old }
    ensures below { state.new < 2 ^ 31 }
    ensures draws { result ≡ step_draws state.old }
{
    let root = draw(state, 64);
    let depth = draw(state, 3);
    let child = draw(state, 16);
    let grandchild = draw(state, 16);
    let value = draw(state, 4);
    StepDraws {
        root,
        depth,
        child,
        grandchild,
        value,
    }
}
