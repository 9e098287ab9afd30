//! Bytes that are cut at a byte.
ghost use Rattle.std.specs.Prelude.{◌≡◌, ◌++◌, ◌∷◌, MatchOption};
ghost use Rattle.ocm_access_log.specs.Cuts.{Lacks};

/// What stands before the first such byte, and what follows it. None where there is no such byte.
pub fn cut(separator: u8, bytes: &[u8]) -> Option<(&[u8], &[u8])>
    ensures { MatchOption result
        (Lacks separator bytes.now)
        (λ parts. Lacks separator parts.0.now × (bytes.now ≡ parts.0.now ++ separator ∷ parts.1.now)) }
{
    match bytes.iter().position(|byte| *byte == separator) {
        Some(place) => Some((&bytes[..place], &bytes[place + 1..])),
        None => None,
    }
}
