ghost use Rattle.std.specs.Prelude.{◌≡◌, Ok, Err, IfOk, IfErr};

/// The first value together with what the next call gave, or the fault of that call.
///
/// Where a `?` leaves a function that holds a value, the end of that value is proved once more for each such
/// place. With this function it is proved once.
pub fn and<A: Drop, B, E>(first: A, next: Result<B, E>) -> Result<(A, B), E>
    ensures ok { IfOk result (λ both. (both.0 ≡ first) × (next ≡ Ok both.1)) }
    ensures err { IfErr result (λ fault. next ≡ Err fault) }
{
    match next {
        Ok(second) => Ok((first, second)),
        Err(fault) => Err(fault),
    }
}
