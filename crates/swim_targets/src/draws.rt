//! A chooser that draws from a stream of random words.

ghost use Rattle.std.specs.Prelude.{◌≡◌};
ghost use Rattle.rand_chacha.specs.ChaCha.{ChaCha, of_seed};
ghost use Rattle.swim_targets.specs.Draws.{DrawsOrder, DrawsPlace};

use crate::Chooser;
use rand::RngExt;
use rand::seq::SliceRandom;
use rand_chacha::ChaCha20Rng;
use rand_core::SeedableRng;
use std::marker::Model;
use swim_wire::Id;

/// Shuffles and draws with the words of a ChaCha20 generator. Two of one key, asked the same, choose
/// the same.
#[derive(Drop)]
pub struct Seeded {
    rng: ChaCha20Rng,
}

impl Model for Seeded {
    ghost Value = { ChaCha };

    ghost view = { λ chooser. chooser.rng };
}

impl Seeded {
    /// The chooser of that key at the start of its stream 0.
    pub fn new(key: [u8; 32]) -> Seeded
        ensures { result ≡ of_seed key }
    {
        Seeded::life(key, 0)
    }

    /// The chooser of that key at the start of that stream. A detector that begins anew, with the same key, takes the
    /// next stream for each life, and so draws other words than in the lives before.
    pub fn life(key: [u8; 32], stream: u64) -> Seeded
        ensures { result ≡ record (of_seed key) { stream = stream } }
    {
        let mut rng = ChaCha20Rng::from_seed(key);
        rng.set_stream(stream);
        Seeded { rng }
    }
}

impl Chooser for Seeded {
    ghost orders = { DrawsOrder };

    ghost places = { DrawsPlace };

    fn order(&mut self, ids: &mut [Id]) {
        ids.shuffle(&mut self.rng);
    }

    fn place(&mut self, upto: u32) -> u32 {
        self.rng.random_range(0..=upto)
    }
}
