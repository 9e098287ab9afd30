ghost use Rattle.std.specs.Prelude.{◌≡◌, IfOk};

use crate::byte_lists::Bytes;
use crate::failures::NoMemory;
use crate::lists::List;
use crate::text_lists::Text;

/// A value that can be copied, where there is memory for the copy.
pub trait Copied: Drop {
    /// Another value that is the same. It keeps the allocator.
    fn copied(&self) -> Result<Self, NoMemory>
        ensures { IfOk result (λ c. c ≡ self.now) };
}

impl Copied for Text {
    fn copied(&self) -> Result<Text, NoMemory> {
        self.copy()
    }
}

impl Copied for Bytes {
    fn copied(&self) -> Result<Bytes, NoMemory> {
        self.copy()
    }
}

impl<T: Copied> Copied for List<T> {
    fn copied(&self) -> Result<List<T>, NoMemory> {
        self.copy()
    }
}

impl<T: Copied> List<T> {
    /// Another list with a copy of each element.
    pub fn copy(&self) -> Result<List<T>, NoMemory>
        ensures { IfOk result (λ l. l ≡ self.now) }
    {
        let mut made = List::new(self.allocator());
        for item in self.as_slice() {
            made.push(item.copied()?)?;
        }
        Ok(made)
    }
}
