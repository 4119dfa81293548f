// The columns of a drawing of calls.
ghost use Rattle.std.specs.Prelude.{◌≡◌, ◌<◌, ◌^◌};
ghost use Rattle.heap_history.specs.Columns.{x_of};

/// The left edge of the column of a call, in pixels, in a drawing of `calls` calls. That of call `calls` is the right
/// edge.
pub fn x_of(call: u64, calls: u64) -> u128
    ensures is { result ≡ x_of call calls }
    ensures small { result < 2 ^ 80 }
{
    if calls == 0 {
        return 144;
    }
    144 + u128::from(call) * 1024 / u128::from(calls)
}
