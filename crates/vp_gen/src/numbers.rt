//! Numbers out of a state of 64 bits.

ghost use Rattle.std.specs.Prelude.{◌≡◌, ◌<◌};
ghost use Rattle.vp_gen.specs.Generator.{next_state, pick};

/// The state behind this one.
#[tactic(auto, unfolding(crate::specs::Generator::next_state))]
fn next_state(state: u64) -> u64
    ensures { result ≡ next_state state }
{
    ((6364136223846793005 * state as u128 + 1442695040888963407) % 18446744073709551616) as u64
}

/// A number below `limit`; the state goes on.
#[tactic(auto, unfolding(crate::specs::Generator::pick))]
pub(crate) fn pick(state: &mut u64, limit: u64) -> u64
    requires { 0 < limit }
    ensures pick { result ≡ pick limit state.old }
    ensures state { state.new ≡ next_state state.old }
    ensures below { result < limit }
{
    *state = next_state(*state);
    *state / 4294967296 % limit
}
