ghost use Rattle.std.specs.Prelude.{◌≡◌, IfOk, IfSome, IsTrue, option_copied};
ghost use Rattle.std.specs.Fmt.{decimal};
ghost use Rattle.ocm_path.specs.Paths.{last};
ghost use Rattle.ocm_types.specs.Texts.{is_provider_id, is_sender_id, is_share_name};
ghost use Rattle.ocm_rules.specs.Shares.{named};
ghost use Rattle.ocm_letters.specs.Letters.{share_name_from};

use ocm_base::{NoMemory, Text, decimal_read};
use ocm_path::Path;
use ocm_types::{Name, ProviderId, SenderId, ShareName, TextFault};
use std::alloc::Global;

/// The owner's mark of the share of this number: its decimal text.
pub fn provider_id(alloc: Global, number: u32) -> Result<ProviderId, NoMemory>
    ensures { IfOk result (λ id. id ≡ decimal number) }
{
    let digits = decimal_text(alloc, number)?;
    match ProviderId::read(alloc, digits.as_str()) {
        Ok(id) => Ok(id),
        Err(TextFault::NoMemory) => Err(NoMemory),
        Err(TextFault::Length | TextFault::Char) => unreachable!(),
    }
}

/// The recipient's mark of the request of this number: its decimal text.
pub fn sender_id(alloc: Global, number: u32) -> Result<SenderId, NoMemory>
    ensures { IfOk result (λ id. id ≡ decimal number) }
{
    let digits = decimal_text(alloc, number)?;
    match SenderId::read(alloc, digits.as_str()) {
        Ok(id) => Ok(id),
        Err(TextFault::NoMemory) => Err(NoMemory),
        Err(TextFault::Length | TextFault::Char) => unreachable!(),
    }
}

/// The decimal text of a number, which can be an id.
#[tactic(auto, using(crate::proofs::TextRules::id_rules))]
fn decimal_text(alloc: Global, number: u32) -> Result<Text, NoMemory>
    ensures value { IfOk result (λ text. text ≡ decimal number) }
    ensures provider { IfOk result (λ text. IsTrue (is_provider_id text)) }
    ensures sender { IfOk result (λ text. IsTrue (is_sender_id text)) }
{
    let digits = number.to_string(alloc)?;
    Ok(Text::from_string(digits))
}

/// The number of the share that an owner's mark names: none where the mark is no decimal text of a
/// number below 2^64.
pub fn named(id: &ProviderId) -> Option<u64>
    ensures { result ≡ named id.now }
{
    decimal_read(id.as_str())
}

/// What the owner calls a share: the last segment of its root, or the owner's name where the root is
/// the owner's own.
pub fn share_name(alloc: Global, owner: &Name, root: &Path) -> Result<ShareName, NoMemory>
    ensures { IfOk result (λ name. name ≡ share_name_from owner.now root.now) }
{
    match last_segment(root) {
        Some(segment) => read_share_name(alloc, segment),
        None => read_share_name(alloc, name_text(owner)),
    }
}

/// The last segment, which can be a share's name.
#[tactic(auto, using(crate::proofs::TextRules::share_name_last))]
fn last_segment(root: &Path) -> Option<&str>
    ensures value { option_copied result ≡ last root.now }
    ensures is { IfSome result (λ segment. IsTrue (is_share_name segment.now)) }
{
    let segment = root.segments().last()?;
    Some(segment.as_str())
}

/// A user's name, which can be a share's name.
#[tactic(auto, using(crate::proofs::TextRules::share_name_name))]
fn name_text(name: &Name) -> &str
    ensures value { result.now ≡ name.now }
    ensures is { IsTrue (is_share_name result.now) }
{
    name.as_str()
}

fn read_share_name(alloc: Global, text: &str) -> Result<ShareName, NoMemory>
    requires { IsTrue (is_share_name text.now) }
    ensures { IfOk result (λ name. name ≡ text.now) }
{
    match ShareName::read(alloc, text) {
        Ok(name) => Ok(name),
        Err(TextFault::NoMemory) => Err(NoMemory),
        Err(TextFault::Length | TextFault::Char) => unreachable!(),
    }
}
