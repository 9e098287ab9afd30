//! Bytes in place of others.

ghost use Rattle.std.specs.Prelude.{◌≡◌, ◌≤◌, ◌+◌, ◌++◌, length, take, drop, vec_capacity};

/// Writes bytes over what is there, and past the end.
pub(crate) fn overwrite(all: &mut Vec<u8>, place: usize, bytes: &[u8])
    requires place { place ≤ length all.old.items }
    requires room { place + length bytes.now ≤ vec_capacity all.old }
    ensures items { all.new.items ≡ take place all.old.items ++ bytes.now ++ drop (place + length bytes.now) all.old.items }
    ensures capacity { vec_capacity all.old ≤ vec_capacity all.new }
{
    let inside = bytes.len().min(all.len() - place);
    all[place..place + inside].copy_from_slice(&bytes[..inside]);
    match all.extend_from_slice(&bytes[inside..]) {
        Ok(()) => {}
        Err(_) => unreachable!(),
    }
}
