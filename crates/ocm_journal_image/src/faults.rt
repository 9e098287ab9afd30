use ocm_texts::NoMemory;

/// Bytes are no image: the place of the first byte that can't stand in one, or at which bytes are wanting.
#[derive(Clone, Copy, Debug, PartialEq, Eq)]
pub struct NotImage(pub u64);

/// Why bytes are no journal.
#[derive(Clone, Copy, Debug, PartialEq, Eq)]
pub enum ImageFault {
    /// They are no image: the place of the first byte that can't stand in one, or at which bytes are wanting.
    NotJournal(u64),
    /// There was no memory to read them.
    NoMemory,
}

impl From<NoMemory> for ImageFault {
    ghost use Rattle.std.specs.Prelude.{◌≡◌};
    ghost use Rattle.ocm_journal_image.specs.declared.faults.ImageFault.TheVariants.{NoMemory};

    ghost from_gives = { λ _ fault. fault ≡ NoMemory };

    fn from(_error: NoMemory) -> ImageFault {
        ImageFault::NoMemory
    }
}

impl From<NotImage> for ImageFault {
    ghost use Rattle.std.specs.Prelude.{◌≡◌};
    ghost use Rattle.ocm_journal_image.specs.declared.faults.ImageFault.TheVariants.{NotJournal};

    ghost from_gives = { λ place fault. fault ≡ NotJournal place.0 };

    fn from(error: NotImage) -> ImageFault {
        ImageFault::NotJournal(error.0)
    }
}
