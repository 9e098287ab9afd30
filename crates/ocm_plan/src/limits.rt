ghost use Rattle.std.specs.Prelude.{◌≡◌, ◌+◌, nat_lt};

/// Whether one more would pass the limit.
pub fn is_full(count: u32, most: u32) -> bool
    ensures { result ≡ nat_lt most (count + 1) }
{
    count >= most
}
