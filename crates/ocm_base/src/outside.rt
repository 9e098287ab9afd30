ghost use Rattle.std.specs.Prelude.{◌≡◌, ℕ, ◌<◌, ◌≤◌, List, [], ◌++◌, length, take, Option, Some, IfOk, IfSome, OnErr};
ghost use Rattle.ocm_base.specs.Outside.{Rose, Appends, Takes};

use ocm_texts::Failed;

/// Where bytes come from.
pub trait Source: Drop {
    /// The bytes that it has left, where it knows them.
    ghost left: { Self → Option (List ℕ) };

    /// The bytes that it gave so far, where it knows them. One that cannot tell what will come can tell this.
    ghost received: { Self → Option (List ℕ) };

    /// How many faults it has had.
    ghost faults: { Self → ℕ };

    /// Reads into the front of the buffer, and answers how many bytes. No bytes are the end of the input, and a
    /// source that knows what it has left answers so exactly where nothing is left.
    fn read(&mut self, buf: &mut [u8]) -> Result<usize, Failed>
        requires { 0 < length buf.old }
        ensures within { IfOk result (λ n. n ≤ length buf.old) }
        ensures taken { IfOk result (λ n. Takes (left self.old) (left self.new) (take n buf.new)) }
        ensures received { IfOk result (λ n. Appends (received self.old) (received self.new) (take n buf.new)) }
        ensures ended { IfOk result (λ n. n ≡ 0 → IfSome (left self.new) (λ rest. rest ≡ [])) }
        ensures empty { IfOk result (λ n. IfSome (left self.old) (λ rest. rest ≡ [] → n ≡ 0)) }
        ensures err { OnErr result (left self.new ≡ left self.old) }
        ensures none_received { OnErr result (received self.new ≡ received self.old) }
        ensures rose { OnErr result (Rose (faults self.old) (faults self.new)) }
        ensures never_falls { faults self.old ≤ faults self.new };
}

/// Where bytes go.
pub trait Sink: Drop {
    /// The bytes that it has taken, where it knows them.
    ghost taken: { Self → Option (List ℕ) };

    /// How many faults it has had.
    ghost faults: { Self → ℕ };

    /// Takes some bytes from the front of the piece, at least one, and answers how many.
    fn write(&mut self, piece: &[u8]) -> Result<usize, Failed>
        requires { 0 < length piece.now }
        ensures some { IfOk result (λ n. 0 < n) }
        ensures within { IfOk result (λ n. n ≤ length piece.now) }
        ensures ok { IfOk result (λ n. Appends (taken self.old) (taken self.new) (take n piece.now)) }
        ensures err { OnErr result (taken self.new ≡ taken self.old) }
        ensures rose { OnErr result (Rose (faults self.old) (faults self.new)) }
        ensures never_falls { faults self.old ≤ faults self.new };

    /// Takes some bytes from the front of two pieces, the second behind the first, at least one, and answers how
    /// many.
    fn write_two(&mut self, first: &[u8], second: &[u8]) -> Result<usize, Failed>
        requires { 0 < length (first.now ++ second.now) }
        ensures some { IfOk result (λ n. 0 < n) }
        ensures within { IfOk result (λ n. n ≤ length (first.now ++ second.now)) }
        ensures ok { IfOk result (λ n. Appends (taken self.old) (taken self.new) (take n (first.now ++ second.now))) }
        ensures err { OnErr result (taken self.new ≡ taken self.old) }
        ensures rose { OnErr result (Rose (faults self.old) (faults self.new)) }
        ensures never_falls { faults self.old ≤ faults self.new }
    {
        if first.is_empty() {
            return self.write(second);
        }
        self.write(first)
    }
}
