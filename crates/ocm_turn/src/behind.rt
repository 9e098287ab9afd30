ghost use Rattle.std.specs.Prelude.{◌≡◌};

/// What stands behind a turnstile: the value, and how many calls it has answered.
pub struct Behind<T> {
    pub value: T,
    pub calls: u64,
}

impl<T: Drop> Drop for Behind<T> {
    fn drop(self) {
        let Behind { value: _, calls: _ } = self;
    }
}

impl<T> Behind<T> {
    /// A value that has answered no call.
    pub fn new(value: T) -> Behind<T>
        ensures { (result.value ≡ value) × (result.calls ≡ 0) }
    {
        Behind { value, calls: 0 }
    }

    /// The value, and how many calls it has answered.
    pub fn into_parts(self) -> (T, u64)
        ensures { (result.0 ≡ self.value) × (result.1 ≡ self.calls) }
    {
        let Behind { value, calls } = self;
        (value, calls)
    }
}
