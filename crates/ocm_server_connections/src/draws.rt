ghost use Rattle.std.specs.Prelude.{◌≡◌};
ghost use Rattle.rand_chacha.specs.ChaCha.{key_of};
ghost use Rattle.ocm_server_connections.specs.Drawing.{value_of, moved};

use ocm_types::Fresh;
use rand_chacha::ChaCha20Rng;
use rand_core::SeedableRng;
use rand_core::utils::NextWord;
use std::marker::Model;

/// A stream of drawn values, one for each message.
#[derive(Drop)]
pub struct Draw {
    words: ChaCha20Rng,
}

impl Model for Draw {
    ghost use Rattle.rand_chacha.specs.ChaCha.{ChaCha};

    ghost Value = { ChaCha };

    ghost view = { λ d. d.words };
}

impl Draw {
    /// The stream of this number under a key, at its start.
    pub fn new(key: [u8; 32], stream: u64) -> Draw
        ensures { result ≡ record { key = key_of key; stream = stream; word_pos = 0 } }
    {
        let mut words = ChaCha20Rng::from_seed(key);
        words.set_stream(stream);
        Draw { words }
    }

    /// The next value.
    #[tactic(auto, unfolding(crate::specs::Drawing::value_of, crate::specs::Drawing::moved))]
    pub fn next(&mut self) -> Fresh
        ensures value { result ≡ value_of self.old }
        ensures place { self.new ≡ moved self.old }
    {
        let a = self.words.next_word().to_le_bytes();
        let b = self.words.next_word().to_le_bytes();
        let c = self.words.next_word().to_le_bytes();
        let d = self.words.next_word().to_le_bytes();
        Fresh::new([
            a[0], a[1], a[2], a[3], b[0], b[1], b[2], b[3], c[0], c[1], c[2], c[3], d[0], d[1],
            d[2], d[3],
        ])
    }
}
