ghost use Rattle.std.specs.Prelude.{◌≡◌, ◌↔◌, Some};
ghost use Rattle.ocm_commands_dav.specs.Words.{verb_word};

/// What is asked of a server.
#[derive(Clone, Copy)]
pub enum Verb {
    /// `get`: the bytes of a file.
    Get,
    /// `put`: a file with these bytes.
    Put,
    /// `delete`: what stands there is removed.
    Delete,
    /// `mkcol`: a collection is made.
    MakeCollection,
    /// `list`: what stands in a collection.
    List,
}

impl Verb {
    /// The verb of this word, none where it is no verb's.
    pub fn read(word: &str) -> Option<Verb>
        ensures { (verb : Verb) → (result ≡ Some verb) ↔ (word.now ≡ verb_word verb) }
    {
        match word {
            "get" => Some(Verb::Get),
            "put" => Some(Verb::Put),
            "delete" => Some(Verb::Delete),
            "mkcol" => Some(Verb::MakeCollection),
            "list" => Some(Verb::List),
            _ => None,
        }
    }
}
