//! Targets of the bytes of a file: its two sums, and its signature.

ghost use Rattle.std.specs.Prelude.{false};
ghost use Rattle.dexcanon.specs.Sums.{Hashed, hashed_nothing, hashed_both, Summed, summed_nothing, summed_both};

use dexhead::{Adler, DeviceFault};
use dexout::Target;
use sha1::Sha1;

/// What the two sums of a file are made of: the message of the signature, and the checksum of the same bytes.
#[derive(Drop)]
pub(crate) struct Sums {
    pub(crate) message: Sha1,
    pub(crate) checksum: Adler,
}

impl Target for Sums {
    ghost gives = { λ x a b. Hashed x a.message b.message × Summed x a.checksum b.checksum };

    ghost gives_prefix = { λ _ _ _. Unit {0} };

    ghost has_failed = { λ _. false };

    fn write(&mut self, bytes: &[u8]) -> Result<(), DeviceFault> {
        self.message.update(bytes);
        self.checksum.update(bytes);
        Ok(())
    }

    ghost nothing = { λ a. (hashed_nothing a.message, summed_nothing a.checksum) };

    ghost both = { λ x y a b c h g. (hashed_both x y a.message b.message c.message h.0 g.0, summed_both x y a.checksum b.checksum c.checksum h.1 g.1) };

    ghost whole = { λ _ _ _ _. tt };

    ghost more = { λ _ _ _ _ _. tt };

    ghost after = { λ _ _ _ _ _ _ _. tt };
}

/// The message of a signature.
#[derive(Drop)]
pub(crate) struct Message {
    pub(crate) hash: Sha1,
}

impl Target for Message {
    ghost gives = { λ x a b. Hashed x a.hash b.hash };

    ghost gives_prefix = { λ _ _ _. Unit {0} };

    ghost has_failed = { λ _. false };

    fn write(&mut self, bytes: &[u8]) -> Result<(), DeviceFault> {
        self.hash.update(bytes);
        Ok(())
    }

    ghost nothing = { λ a. hashed_nothing a.hash };

    ghost both = { λ x y a b c. hashed_both x y a.hash b.hash c.hash };

    ghost whole = { λ _ _ _ _. tt };

    ghost more = { λ _ _ _ _ _. tt };

    ghost after = { λ _ _ _ _ _ _ _. tt };
}
