use ocm_base::{Clock, StdClock};
use std::alloc::Global;
use std::time;

/// The first second of the year 2020.
const YEAR_2020: u64 = 1_577_836_800;

/// What two looks at the system's clock tell.
pub fn clock_told<R: time::Clock>(rt: &R, alloc: Global) -> Option<String> {
    let mut clock = StdClock::new(rt);
    let first = clock.now();
    let second = clock.now();
    let told = if first <= YEAR_2020 {
        "before 2020"
    } else if second < first {
        "went back"
    } else {
        "past 2020, and not back"
    };
    String::from_str(alloc, told).ok()
}
