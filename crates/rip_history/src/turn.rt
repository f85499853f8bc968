ghost use Rattle.std.specs.Prelude.{◌≡◌, ◌<◌, ◌^◌};
ghost use Rattle.rip_history.specs.Turns.{turn_at};

/// How many units a busy session gets in a turn.
pub const SLICE: u64 = 1_000;

/// The turn in which a batch that was admitted in this turn has spent this cost. A cost is counted in units, from 1.
pub fn turn_of_cost(admitted: u64, cost: u64) -> u64
    requires { turn_at admitted cost < 2 ^ 64 }
    ensures { result ≡ turn_at admitted cost }
{
    admitted + cost.saturating_sub(1) / SLICE
}
