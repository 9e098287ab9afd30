//! Whose a message is.

use crate::policy::MOST_KEPT;
use ocm_base::{NoMemory, Text};
use ocm_types::{Address, Letter, Notice};
use std::alloc::Global;
use std::collections::HashMap;

/// The number of the owner of all messages that are nobody's.
const NOBODY: usize = 0;

/// The numbers of those who write to other servers.
#[derive(Drop)]
pub struct Owners {
    numbers: HashMap<String, usize>,
}

/// Who wrote a letter: the sender of an offer, or the user who takes a share.
fn writer(letter: &Letter) -> Option<&Address> {
    match letter {
        Letter::Offer(offer) => Some(&offer.sender),
        Letter::Notice(
            Notice::Accepted {
                id: _,
                secret: _,
                owner: _,
                with,
                perms: _,
            },
        ) => with.as_ref(),
        Letter::Notice(_) => None,
    }
}

impl Owners {
    /// Nobody wrote so far.
    pub fn new(alloc: Global) -> Owners {
        Owners {
            numbers: HashMap::new(alloc),
        }
    }

    /// The number of the owner of a letter.
    pub fn number(&mut self, alloc: Global, letter: &Letter) -> Result<usize, NoMemory> {
        match writer(letter) {
            Some(writer) => self.number_of(alloc, writer.text(alloc)?),
            None => Ok(NOBODY),
        }
    }

    /// The number of a writer, which is new where there is room for one more.
    fn number_of(&mut self, alloc: Global, writer: Text) -> Result<usize, NoMemory> {
        if let Some(number) = self.numbers.get(writer.as_str()) {
            return Ok(*number);
        }
        let number = self.numbers.len().saturating_add(1);
        if number > MOST_KEPT {
            return Ok(NOBODY);
        }
        let text = String::from_str(alloc, writer.as_str())?;
        match self.numbers.insert(text, number) {
            Ok(_) => Ok(number),
            Err(_) => Err(NoMemory),
        }
    }
}
