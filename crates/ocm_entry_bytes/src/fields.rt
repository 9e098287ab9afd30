//! The fields of an ask in its bytes: each function takes one from the front and gives the bytes
//! after it.

ghost use Rattle.std.specs.Prelude.{◌≡◌, ◌<◌, length, IfOk, IfSome, IsTrue};
ghost use Rattle.std.specs.Option.{ForSome};
ghost use Rattle.ocm_types.specs.Rights.{is_any};
ghost use Rattle.ocm_entry_bytes.specs.Reading as reading;
ghost use Rattle.ocm_entry_bytes.specs.Reading.{Gives};

use crate::entry_faults::EntryFault;
use ocm_base::Bytes;
use ocm_path::Path;
use ocm_types::{Address, Name, Perms, ProviderId, Rights, Secret, SenderId, ShareName, TextFault};
use std::alloc::Global;

/// A byte.
#[tactic(auto, unfolding(crate::specs::Reading::byte_at))]
pub fn byte_at(bytes: &[u8]) -> Result<(u8, &[u8]), EntryFault>
    ensures { Gives (λ x. (x.0, x.1.now)) result (reading.byte_at bytes.now) }
{
    match bytes {
        [byte, rest @ ..] => Ok((*byte, rest)),
        [] => Err(EntryFault::Length),
    }
}

/// That many bytes.
#[tactic(auto, unfolding(crate::specs::Reading::bytes_at))]
fn bytes_at(count: usize, bytes: &[u8]) -> Result<(&[u8], &[u8]), EntryFault>
    ensures value { Gives (λ x. (x.0.now, x.1.now)) result (reading.bytes_at count bytes.now) }
    ensures len { IfOk result (λ x. length x.0.now ≡ count) }
{
    if bytes.len() < count {
        return Err(EntryFault::Length);
    }
    Ok(bytes.split_at(count))
}

/// A big-endian number of two bytes.
#[tactic(auto, unfolding(crate::specs::Reading::two_bytes_at))]
pub fn two_bytes_at(bytes: &[u8]) -> Result<(u16, &[u8]), EntryFault>
    ensures { Gives (λ x. (x.0, x.1.now)) result (reading.two_bytes_at bytes.now) }
{
    let (front, rest) = bytes_at(2, bytes)?;
    Ok((u16::from_be_bytes([front[0], front[1]]), rest))
}

/// A big-endian number of four bytes.
#[tactic(auto, unfolding(crate::specs::Reading::four_bytes_at))]
pub fn four_bytes_at(bytes: &[u8]) -> Result<(u32, &[u8]), EntryFault>
    ensures { Gives (λ x. (x.0, x.1.now)) result (reading.four_bytes_at bytes.now) }
{
    let (front, rest) = bytes_at(4, bytes)?;
    let number = u32::from_be_bytes([front[0], front[1], front[2], front[3]]);
    Ok((number, rest))
}

/// A big-endian number of eight bytes.
#[tactic(auto, unfolding(crate::specs::Reading::eight_bytes_at))]
pub fn eight_bytes_at(bytes: &[u8]) -> Result<(u64, &[u8]), EntryFault>
    ensures { Gives (λ x. (x.0, x.1.now)) result (reading.eight_bytes_at bytes.now) }
{
    let (front, rest) = bytes_at(8, bytes)?;
    let number = u64::from_be_bytes([
        front[0], front[1], front[2], front[3], front[4], front[5], front[6], front[7],
    ]);
    Ok((number, rest))
}

/// The 16 drawn bytes.
#[tactic(auto, unfolding(crate::specs::Reading::fresh_at))]
pub fn drawn_at(bytes: &[u8]) -> Result<([u8; 16], &[u8]), EntryFault>
    ensures { Gives (λ x. (x.0, x.1.now)) result (reading.fresh_at bytes.now) }
{
    let (front, rest) = bytes_at(16, bytes)?;
    let mut drawn = [0u8; 16];
    drawn.copy_from_slice(front);
    Ok((drawn, rest))
}

/// Two bytes of length, and a text.
#[tactic(auto, unfolding(crate::specs::Reading::text_at))]
fn text_at(bytes: &[u8]) -> Result<(&str, &[u8]), EntryFault>
    ensures { Gives (λ x. (x.0.now, x.1.now)) result (reading.text_at bytes.now) }
{
    let (len, rest) = two_bytes_at(bytes)?;
    let (text, rest) = bytes_at(len as usize, rest)?;
    match str::from_utf8(text) {
        Ok(text) => Ok((text, rest)),
        Err(_) => Err(EntryFault::Value),
    }
}

/// A user's name.
#[tactic(auto, unfolding(crate::specs::Reading::name_at))]
pub fn name_at(alloc: Global, bytes: &[u8]) -> Result<(Name, &[u8]), EntryFault>
    ensures { Gives (λ x. (x.0, x.1.now)) result (reading.name_at bytes.now) }
{
    let (text, rest) = text_at(bytes)?;
    match Name::read(alloc, text) {
        Ok(name) => Ok((name, rest)),
        Err(TextFault::NoMemory) => Err(EntryFault::NoMemory),
        Err(_) => Err(EntryFault::Value),
    }
}

/// A share's name.
#[tactic(auto, unfolding(crate::specs::Reading::share_name_at))]
pub fn share_name_at(alloc: Global, bytes: &[u8]) -> Result<(ShareName, &[u8]), EntryFault>
    ensures { Gives (λ x. (x.0, x.1.now)) result (reading.share_name_at bytes.now) }
{
    let (text, rest) = text_at(bytes)?;
    match ShareName::read(alloc, text) {
        Ok(name) => Ok((name, rest)),
        Err(TextFault::NoMemory) => Err(EntryFault::NoMemory),
        Err(_) => Err(EntryFault::Value),
    }
}

/// The owner's mark of a share.
#[tactic(auto, unfolding(crate::specs::Reading::provider_id_at))]
pub fn provider_id_at(alloc: Global, bytes: &[u8]) -> Result<(ProviderId, &[u8]), EntryFault>
    ensures { Gives (λ x. (x.0, x.1.now)) result (reading.provider_id_at bytes.now) }
{
    let (text, rest) = text_at(bytes)?;
    match ProviderId::read(alloc, text) {
        Ok(id) => Ok((id, rest)),
        Err(TextFault::NoMemory) => Err(EntryFault::NoMemory),
        Err(_) => Err(EntryFault::Value),
    }
}

/// The recipient's mark of a request.
#[tactic(auto, unfolding(crate::specs::Reading::sender_id_at))]
pub fn sender_id_at(alloc: Global, bytes: &[u8]) -> Result<(SenderId, &[u8]), EntryFault>
    ensures { Gives (λ x. (x.0, x.1.now)) result (reading.sender_id_at bytes.now) }
{
    let (text, rest) = text_at(bytes)?;
    match SenderId::read(alloc, text) {
        Ok(id) => Ok((id, rest)),
        Err(TextFault::NoMemory) => Err(EntryFault::NoMemory),
        Err(_) => Err(EntryFault::Value),
    }
}

/// A secret.
#[tactic(auto, unfolding(crate::specs::Reading::secret_at))]
pub fn secret_at(alloc: Global, bytes: &[u8]) -> Result<(Secret, &[u8]), EntryFault>
    ensures { Gives (λ x. (x.0, x.1.now)) result (reading.secret_at bytes.now) }
{
    let (text, rest) = text_at(bytes)?;
    match Secret::read(alloc, text) {
        Ok(secret) => Ok((secret, rest)),
        Err(TextFault::NoMemory) => Err(EntryFault::NoMemory),
        Err(_) => Err(EntryFault::Value),
    }
}

/// An address by its own text.
#[tactic(auto, unfolding(crate::specs::Reading::address_at))]
pub fn address_at(alloc: Global, bytes: &[u8]) -> Result<(Address, &[u8]), EntryFault>
    ensures { Gives (λ x. (x.0, x.1.now)) result (reading.address_at bytes.now) }
{
    let (text, rest) = text_at(bytes)?;
    match Address::read_canonical(alloc, text)? {
        Some(address) => Ok((address, rest)),
        None => Err(EntryFault::Value),
    }
}

/// A path by its own text, of at most 1,024 bytes.
#[tactic(auto, unfolding(crate::specs::Reading::path_at))]
pub fn path_at(alloc: Global, bytes: &[u8]) -> Result<(Path, &[u8]), EntryFault>
    ensures { Gives (λ x. (x.0, x.1.now)) result (reading.path_at bytes.now) }
{
    let (text, rest) = text_at(bytes)?;
    match Path::of_text(alloc, text)? {
        Some(path) => Ok((path, rest)),
        None => Err(EntryFault::Value),
    }
}

/// Four bytes of length, and a body of at most so many bytes.
#[tactic(auto, unfolding(crate::specs::Reading::body_at))]
pub fn body_at(alloc: Global, most: u32, bytes: &[u8]) -> Result<(Bytes, &[u8]), EntryFault>
    ensures { Gives (λ x. (x.0, x.1.now)) result (reading.body_at most bytes.now) }
{
    let (len, rest) = four_bytes_at(bytes)?;
    let (body, rest) = bytes_at(len as usize, rest)?;
    if most < len {
        return Err(EntryFault::Value);
    }
    let body = Bytes::of(alloc, body)?;
    Ok((body, rest))
}

fn has_bit(bit: u8, number: u8) -> bool
    requires { 0 < bit }
    ensures { result ≡ reading.has_bit bit number }
{
    number / bit % 2 == 1
}

fn rights_of_number(number: u8) -> Option<Rights>
    ensures value { result ≡ reading.perms_of_number number }
    ensures any { IfSome result (λ rights. IsTrue (is_any rights)) }
{
    if number > 7 {
        return None;
    }
    let perms = Perms::of(Rights {
        read: has_bit(1, number),
        write: has_bit(2, number),
        share: has_bit(4, number),
    })?;
    Some(perms.rights())
}

/// The rights of permissions, so that one is held: read is 1, write is 2, share is 4, added.
#[tactic(auto, unfolding(crate::specs::Reading::perms_at))]
pub fn rights_at(bytes: &[u8]) -> Result<(Rights, &[u8]), EntryFault>
    ensures value { Gives (λ x. (x.0, x.1.now)) result (reading.perms_at bytes.now) }
    ensures any { IfOk result (λ x. IsTrue (is_any x.0)) }
{
    let (number, rest) = byte_at(bytes)?;
    match rights_of_number(number) {
        Some(rights) => Ok((rights, rest)),
        None => Err(EntryFault::Value),
    }
}

/// The permissions of rights of which one is held.
pub fn perms(rights: Rights) -> Perms
    requires { IsTrue (is_any rights) }
    ensures { result ≡ rights }
{
    Perms::of(rights).unwrap()
}

/// Whether a value follows.
#[tactic(auto, unfolding(crate::specs::Reading::flag_at))]
fn flag_at(bytes: &[u8]) -> Result<(bool, &[u8]), EntryFault>
    ensures { Gives (λ x. (x.0, x.1.now)) result (reading.flag_at bytes.now) }
{
    let (byte, rest) = byte_at(bytes)?;
    match byte {
        0 => Ok((false, rest)),
        1 => Ok((true, rest)),
        _ => Err(EntryFault::Value),
    }
}

/// The owner's mark of a share, or none.
#[tactic(auto, unfolding(crate::specs::Reading::optional_at))]
pub fn optional_id_at(
    alloc: Global,
    bytes: &[u8],
) -> Result<(Option<ProviderId>, &[u8]), EntryFault>
    ensures { Gives (λ x. (x.0, x.1.now)) result
        (reading.optional_at reading.provider_id_at bytes.now) }
{
    let (some, rest) = flag_at(bytes)?;
    if some {
        let (id, rest) = provider_id_at(alloc, rest)?;
        Ok((Some(id), rest))
    } else {
        Ok((None, rest))
    }
}

/// An address, or none.
#[tactic(auto, unfolding(crate::specs::Reading::optional_at))]
pub fn optional_address_at(
    alloc: Global,
    bytes: &[u8],
) -> Result<(Option<Address>, &[u8]), EntryFault>
    ensures { Gives (λ x. (x.0, x.1.now)) result (reading.optional_at reading.address_at bytes.now) }
{
    let (some, rest) = flag_at(bytes)?;
    if some {
        let (address, rest) = address_at(alloc, rest)?;
        Ok((Some(address), rest))
    } else {
        Ok((None, rest))
    }
}

/// The rights of permissions, or none.
#[tactic(auto, unfolding(crate::specs::Reading::optional_at))]
pub fn optional_rights_at(bytes: &[u8]) -> Result<(Option<Rights>, &[u8]), EntryFault>
    ensures value { Gives (λ x. (x.0, x.1.now)) result
        (reading.optional_at reading.perms_at bytes.now) }
    ensures any { IfOk result (λ x. IfSome x.0 (λ rights. IsTrue (is_any rights))) }
{
    let (some, rest) = flag_at(bytes)?;
    if some {
        let (rights, rest) = rights_at(rest)?;
        Ok((Some(rights), rest))
    } else {
        Ok((None, rest))
    }
}

/// The permissions of rights of which one is held, where there are any.
pub fn optional_perms(rights: Option<Rights>) -> Option<Perms>
    requires { ForSome rights (λ r. IsTrue (is_any r)) }
    ensures { result ≡ rights }
{
    match rights {
        Some(rights) => Some(perms(rights)),
        None => None,
    }
}

/// Whether something is moved, which is 1, and whether it may overwrite, which is 2, added.
#[tactic(auto, unfolding(crate::specs::Reading::carry_byte_at))]
pub fn carry_byte_at(bytes: &[u8]) -> Result<((bool, bool), &[u8]), EntryFault>
    ensures { Gives (λ x. (x.0, x.1.now)) result (reading.carry_byte_at bytes.now) }
{
    let (number, rest) = byte_at(bytes)?;
    if number > 3 {
        return Err(EntryFault::Value);
    }
    Ok(((has_bit(1, number), has_bit(2, number)), rest))
}
