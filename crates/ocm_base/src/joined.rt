ghost use Rattle.std.specs.Prelude.{◌≡◌, ◌≤◌, ◌<◌, ◌++◌, length, drop, IfOk, OnOk, OnErr};
ghost use Rattle.ocm_base.specs.Outside.{Rose, Appends, AppendsPart};

use crate::outside::Sink;
use ocm_texts::{Bytes, Failed, NoMemory};
use std::alloc::Global;
use std::marker::Model;

/// Bytes in two parts, of which the second may be shared and is not copied. Contracts see them as one list.
#[derive(Debug)]
pub struct Joined {
    front: Bytes,
    back: Bytes,
}

impl Drop for Joined {
    fn drop(self) {
        let Joined { front: _, back: _ } = self;
    }
}

impl Model for Joined {
    ghost use Rattle.std.specs.Prelude.{List, ℕ, ◌++◌};

    ghost Value = { List ℕ };

    ghost view = { λ j. j.front ++ j.back };
}

impl Joined {
    /// The bytes of both, one behind the other.
    pub fn of(front: Bytes, back: Bytes) -> Joined
        ensures { result ≡ front ++ back }
    {
        Joined { front, back }
    }

    /// Both parts.
    pub fn parts(&self) -> (&[u8], &[u8])
        ensures { self.now ≡ result.0.now ++ result.1.now }
    {
        (self.front.as_slice(), self.back.as_slice())
    }

    /// How many bytes there are.
    pub fn len(&self) -> usize
        ensures { result ≡ length self.now }
    {
        let (front, back) = self.parts();
        front.len() + back.len()
    }

    /// A copy of all bytes in one part.
    pub fn whole(&self, alloc: Global) -> Result<Bytes, NoMemory>
        ensures { IfOk result (λ b. b ≡ self.now) }
    {
        let (front, back) = self.parts();
        let mut whole = Vec::with_capacity(alloc, front.len() + back.len())?;
        whole.extend_from_slice(front)?;
        whole.extend_from_slice(back)?;
        Ok(Bytes::from_vec(whole))
    }

    /// Writes all bytes, where they lie. Where the sink fails, a front of them was taken. It takes no memory.
    pub fn write_to<K: Sink>(&self, sink: &mut K) -> Result<(), Failed>
        ensures ok { OnOk result (Appends (K.taken sink.old) (K.taken sink.new) self.now) }
        ensures err { OnErr result (AppendsPart (K.taken sink.old) (K.taken sink.new) self.now) }
        ensures rose { OnErr result (Rose (K.faults sink.old) (K.faults sink.new)) }
        ensures never_falls { K.faults sink.old ≤ K.faults sink.new }
    {
        let (front, back) = self.parts();
        write_parts(sink, front, back)
    }
}

/// What two pieces have behind their first bytes.
fn behind<'a>(first: &'a [u8], second: &'a [u8], n: usize) -> (&'a [u8], &'a [u8])
    requires { n ≤ length (first.now ++ second.now) }
    ensures { result.0.now ++ result.1.now ≡ drop n (first.now ++ second.now) }
{
    if n < first.len() {
        (&first[n..], second)
    } else {
        (&[], &second[n - first.len()..])
    }
}

/// Writes two pieces, one behind the other. Where the sink fails, a front of both was taken.
fn write_parts<K: Sink>(sink: &mut K, first: &[u8], second: &[u8]) -> Result<(), Failed>
    ensures ok { OnOk result (Appends (K.taken sink.old) (K.taken sink.new) (first.now ++ second.now)) }
    ensures err { OnErr result (AppendsPart (K.taken sink.old) (K.taken sink.new) (first.now ++ second.now)) }
    ensures rose { OnErr result (Rose (K.faults sink.old) (K.faults sink.new)) }
    ensures never_falls { K.faults sink.old ≤ K.faults sink.new }
{
    let mut done = 0;
    while done < first.len() + second.len() {
        let (front, back) = behind(first, second, done);
        done += sink.write_two(front, back)?;
    }
    Ok(())
}
