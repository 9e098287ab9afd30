//! The clock that only goes forward.

use std::time;

/// Milliseconds since some start, 0 where the clock cannot be read.
pub fn millis<R: time::Clock>(rt: &R) -> u64 {
    match rt.monotonic() {
        Ok(time) => time
            .as_secs()
            .saturating_mul(1000)
            .saturating_add(u64::from(time.subsec_millis())),
        Err(_) => 0,
    }
}
