//! The fields of an ask as its bytes have them: each function adds one at the end.

ghost use Rattle.std.specs.Prelude.{◌≡◌, ◌<◌, ◌≤◌, ◌^◌, ◌++◌, length, true, IsTrue, OnOk, IfSome, if◌then◌else◌};
ghost use Rattle.std.specs.Str.{is_utf8};
ghost use Rattle.ocm_types.specs.Addresses.{address_text};
ghost use Rattle.ocm_path.specs.Paths.{path_text};
ghost use Rattle.ocm_entry.specs.Proper as proper;
ghost use Rattle.ocm_entry_bytes.specs.Spells as spells;

use crate::laws::short_path_reads_its_text;
use ocm_base::{Bytes, NoMemory};
use ocm_path::Path;
use ocm_types::laws::address_reads_its_text;
use ocm_types::{Address, Fresh, Name, Perms, ProviderId, Secret, SenderId, ShareName};
use std::alloc::Global;

/// A big-endian number of two bytes.
#[tactic(auto, unfolding(crate::specs::Spells::two_bytes))]
pub fn add_two_bytes(out: &mut Bytes, number: u16) -> Result<(), NoMemory>
    ensures { OnOk result (out.new ≡ out.old ++ spells.two_bytes number) }
{
    out.add(&number.to_be_bytes())
}

/// A big-endian number of four bytes.
#[tactic(auto, unfolding(crate::specs::Spells::four_bytes))]
pub fn add_four_bytes(out: &mut Bytes, number: u32) -> Result<(), NoMemory>
    ensures { OnOk result (out.new ≡ out.old ++ spells.four_bytes number) }
{
    out.add(&number.to_be_bytes())
}

/// A big-endian number of eight bytes.
#[tactic(auto, unfolding(crate::specs::Spells::eight_bytes))]
pub fn add_eight_bytes(out: &mut Bytes, number: u64) -> Result<(), NoMemory>
    ensures { OnOk result (out.new ≡ out.old ++ spells.eight_bytes number) }
{
    out.add(&number.to_be_bytes())
}

/// Two bytes of length and the text.
#[tactic(auto, unfolding(crate::specs::Spells::text))]
fn add_text(out: &mut Bytes, s: &str) -> Result<(), NoMemory>
    requires { length s.now < 2 ^ 16 }
    ensures ok { OnOk result (out.new ≡ out.old ++ spells.text s.now) }
    ensures utf8 { OnOk result (is_utf8 s.now ≡ true) }
{
    add_two_bytes(out, s.len() as u16)?;
    out.add(s.as_bytes())?;
    Ok(())
}

/// Four bytes of length and the body.
#[tactic(auto, unfolding(crate::specs::Spells::counted))]
pub fn add_body(out: &mut Bytes, body: &Bytes) -> Result<(), NoMemory>
    requires { length body.now < 2 ^ 32 }
    ensures { OnOk result (out.new ≡ out.old ++ spells.counted body.now) }
{
    add_four_bytes(out, body.len() as u32)?;
    out.add(body.as_slice())?;
    Ok(())
}

/// The 16 drawn bytes.
pub fn add_fresh(out: &mut Bytes, fresh: &Fresh) -> Result<(), NoMemory>
    ensures ok { OnOk result (out.new ≡ out.old ++ fresh.now) }
    ensures is { OnOk result (spells.IsFresh fresh.now) }
{
    out.add(&fresh.bytes())
}

/// A user's name, as a text.
#[tactic(auto, using(crate::proofs::OwnTexts::name_short, crate::proofs::OwnTexts::name_own))]
pub fn add_name(out: &mut Bytes, name: &Name) -> Result<(), NoMemory>
    ensures ok { OnOk result (out.new ≡ out.old ++ spells.text name.now) }
    ensures is { OnOk result (spells.IsName name.now) }
{
    add_text(out, name.as_str())
}

/// A share's name, as a text.
#[tactic(auto, using(crate::proofs::OwnTexts::share_name_short, crate::proofs::OwnTexts::share_name_own))]
pub fn add_share_name(out: &mut Bytes, name: &ShareName) -> Result<(), NoMemory>
    ensures ok { OnOk result (out.new ≡ out.old ++ spells.text name.now) }
    ensures is { OnOk result (spells.IsShareName name.now) }
{
    add_text(out, name.as_str())
}

/// The owner's mark of a share, as a text.
#[tactic(auto, using(crate::proofs::OwnTexts::provider_id_short, crate::proofs::OwnTexts::provider_id_own))]
pub fn add_provider_id(out: &mut Bytes, id: &ProviderId) -> Result<(), NoMemory>
    ensures ok { OnOk result (out.new ≡ out.old ++ spells.text id.now) }
    ensures is { OnOk result (spells.IsProviderId id.now) }
{
    add_text(out, id.as_str())
}

/// The recipient's mark of a request, as a text.
#[tactic(auto, using(crate::proofs::OwnTexts::sender_id_short, crate::proofs::OwnTexts::sender_id_own))]
pub fn add_sender_id(out: &mut Bytes, id: &SenderId) -> Result<(), NoMemory>
    ensures ok { OnOk result (out.new ≡ out.old ++ spells.text id.now) }
    ensures is { OnOk result (spells.IsSenderId id.now) }
{
    add_text(out, id.as_str())
}

/// A secret, as a text.
#[tactic(auto, using(crate::proofs::OwnTexts::secret_short, crate::proofs::OwnTexts::secret_own))]
pub fn add_secret(out: &mut Bytes, secret: &Secret) -> Result<(), NoMemory>
    ensures ok { OnOk result (out.new ≡ out.old ++ spells.text secret.now) }
    ensures is { OnOk result (spells.IsSecret secret.now) }
{
    add_text(out, secret.as_str())
}

/// The text of an address.
#[tactic(auto, using(crate::proofs::OwnTexts::address_short, crate::proofs::OwnTexts::address_own))]
pub fn add_address(alloc: Global, out: &mut Bytes, address: &Address) -> Result<(), NoMemory>
    ensures ok { OnOk result (out.new ≡ out.old ++ spells.text (address_text address.now)) }
    ensures is { OnOk result (spells.IsAddress address.now) }
{
    address_reads_its_text(address);
    let text = address.text(alloc)?;
    add_text(out, text.as_str())?;
    Ok(())
}

/// The text of a path.
#[tactic(auto, using(crate::proofs::OwnTexts::path_short, crate::proofs::OwnTexts::path_own))]
pub fn add_path(out: &mut Bytes, path: &Path) -> Result<(), NoMemory>
    requires { IsTrue (proper.is_short path.now) }
    ensures ok { OnOk result (out.new ≡ out.old ++ spells.text (path_text path.now)) }
    ensures is { OnOk result (spells.IsShortPath path.now) }
{
    short_path_reads_its_text(path);
    let text = path.text()?;
    add_text(out, text.as_str())?;
    Ok(())
}

fn number_if(number: u8, held: bool) -> u8
    ensures value { result ≡ (if held then number else 0) }
    ensures most { result ≤ number }
{
    if held { number } else { 0 }
}

/// One byte: read is 1, write is 2, share is 4, added.
#[tactic(auto, unfolding(crate::specs::Spells::rights))]
pub fn add_perms(out: &mut Bytes, perms: &Perms) -> Result<(), NoMemory>
    ensures ok { OnOk result (out.new ≡ out.old ++ spells.rights perms.now) }
    ensures is { OnOk result (spells.IsPerms perms.now) }
{
    let rights = perms.rights();
    let number = number_if(1, rights.read)
        + number_if(2, rights.write)
        + number_if(4, rights.share);
    out.add(&[number])?;
    Ok(())
}

/// One byte: moving is 1, overwriting is 2, added.
#[tactic(auto, unfolding(crate::specs::Spells::carry_byte))]
pub fn add_carry_byte(out: &mut Bytes, moving: bool, overwrite: bool) -> Result<(), NoMemory>
    ensures { OnOk result (out.new ≡ out.old ++ spells.carry_byte moving overwrite) }
{
    out.add(&[number_if(1, moving) + number_if(2, overwrite)])?;
    Ok(())
}

/// The byte 0, or the byte 1 and the permissions.
#[tactic(auto, unfolding(crate::specs::Spells::optional))]
pub fn add_optional_perms(out: &mut Bytes, perms: &Option<Perms>) -> Result<(), NoMemory>
    ensures ok { OnOk result (out.new ≡ out.old ++ spells.optional spells.rights perms.now) }
    ensures is { OnOk result (IfSome perms.now spells.IsPerms) }
{
    match perms {
        Some(perms) => {
            out.add(&[1])?;
            add_perms(out, perms)?;
            Ok(())
        }
        None => {
            out.add(&[0])?;
            Ok(())
        }
    }
}

/// The byte 0, or the byte 1 and the mark.
#[tactic(auto, unfolding(crate::specs::Spells::optional))]
pub fn add_optional_id(out: &mut Bytes, id: &Option<ProviderId>) -> Result<(), NoMemory>
    ensures ok { OnOk result (out.new ≡ out.old ++ spells.optional spells.text id.now) }
    ensures is { OnOk result (IfSome id.now spells.IsProviderId) }
{
    match id {
        Some(id) => {
            out.add(&[1])?;
            add_provider_id(out, id)?;
            Ok(())
        }
        None => {
            out.add(&[0])?;
            Ok(())
        }
    }
}

/// The byte 0, or the byte 1 and the address.
#[tactic(auto, unfolding(crate::specs::Spells::optional))]
pub fn add_optional_address(
    alloc: Global,
    out: &mut Bytes,
    address: &Option<Address>,
) -> Result<(), NoMemory>
    ensures ok { OnOk result (out.new
        ≡ out.old ++ spells.optional (λ a. spells.text (address_text a)) address.now) }
    ensures is { OnOk result (IfSome address.now spells.IsAddress) }
{
    match address {
        Some(address) => {
            out.add(&[1])?;
            add_address(alloc, out, address)?;
            Ok(())
        }
        None => {
            out.add(&[0])?;
            Ok(())
        }
    }
}
