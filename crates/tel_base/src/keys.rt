//! Keys of hash tables.
ghost use Rattle.std.specs.Prelude.{◌≡◌};
ghost use Rattle.tel_base.specs.Keys.{hasher_of};

use crate::texts::Text;
use std::hash::{BuildHasher, DefaultHasher, Hash, Hasher};

/// The key of a hash table: its hashes begin with a digest of texts. A table whose names come from
/// these texts has this key, so names that collide can't be chosen without changing the key with
/// them. What a table holds doesn't depend on it.
#[derive(Clone, Copy)]
pub struct HashKey {
    started: DefaultHasher,
}

impl HashKey {
    /// The key of these texts.
    pub fn of(texts: &[Text]) -> HashKey
        ensures { result.started ≡ hasher_of texts.now }
    {
        let mut digest = DefaultHasher::new();
        texts.hash(&mut digest);
        let mut started = DefaultHasher::new();
        started.write_u64(digest.finish());
        HashKey { started }
    }
}

impl BuildHasher for HashKey {
    type Hasher = DefaultHasher;

    ghost build_hasher = { λ key. key.started };

    fn build_hasher(&self) -> DefaultHasher {
        self.started
    }
}
