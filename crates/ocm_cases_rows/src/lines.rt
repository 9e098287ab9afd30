//! Standard input, a row a line.
use ocm_base::{Bytes, Sink, StdSink, StdSource, read_whole, write_all};
use std::alloc::Global;
use std::io;
use std::io::{ErrorKind, Input, Print};

/// The most bytes of standard input.
const INPUT: u64 = 1_048_576;

/// Writes what each line of standard input tells. An error where one tells nothing.
pub fn tell_lines<R: Input + Print, F: FnMut(&str) -> Option<String>>(
    rt: &R,
    alloc: Global,
    told: F,
) -> io::Result<()>
    requires { F.IsAlwaysCallable told }
{
    let mut source = StdSource::new(rt.reader());
    let mut sink = StdSink::new(io::writer(rt));
    let Ok(input) = read_whole(alloc, &mut source, INPUT) else {
        return Err(io::Error::from(ErrorKind::InvalidInput));
    };
    match tell_each(&mut sink, &input, told) {
        Some(()) => Ok(()),
        None => Err(io::Error::from(ErrorKind::InvalidData)),
    }
}

fn tell_each<K: Sink, F: FnMut(&str) -> Option<String>>(
    sink: &mut K,
    input: &Bytes,
    mut told: F,
) -> Option<()>
    requires { F.IsAlwaysCallable told }
{
    let text = str::from_utf8(input.as_slice()).ok()?;
    for line in text.lines() {
        write_told(sink, told(line))?;
    }
    Some(())
}

fn write_told<K: Sink>(sink: &mut K, told: Option<String>) -> Option<()> {
    let told = told?;
    let written = write_all(sink, told.as_bytes());
    drop(told);
    written.ok()
}
