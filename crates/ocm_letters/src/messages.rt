ghost use Rattle.std.specs.Prelude.{◌≡◌, IfOk};

use ocm_base::{NoMemory, and};
use ocm_rules::{Message, Subject};
use ocm_types::{Host, Letter, Shared};
use std::alloc::Global;

/// The message of these parts. Its host and its letter are held so that copies share them.
pub fn message(
    alloc: Global,
    subject: Subject,
    to: Host,
    letter: Letter,
) -> Result<Message, NoMemory>
    ensures { IfOk result (λ message. message ≡ record { subject = subject; to = to; letter = letter }) }
{
    let letter = Shared::new(alloc, letter)?;
    let (letter, to) = and(letter, Shared::new(alloc, to))?;
    Ok(Message {
        subject,
        to,
        letter,
    })
}
