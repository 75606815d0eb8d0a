//! A writer as the target of an output.

use crate::output::Target;
use dexio::{DeviceFault, Sink, write_whole};

/// A writer. Once it has failed it is left alone.
#[derive(Drop)]
pub struct Writer<'w, W> {
    pub sink: &'w mut W,
}

impl<W: Sink> Target for Writer<'_, W> {
    ghost use Rattle.dexout.specs.Took.{Took, TookPrefix, took_nothing, took_both, took_whole, took_more, took_after};

    ghost gives = { λ x a b. Took W.reports W.taken x a b };

    ghost gives_prefix = { λ x a b. TookPrefix W.reports W.taken x a b };

    ghost has_failed = { λ w. W.has_failed w.sink.now };

    fn write(&mut self, bytes: &[u8]) -> Result<(), DeviceFault> {
        if self.sink.failed() {
            return Err(DeviceFault);
        }
        write_whole(self.sink, bytes)
    }

    ghost nothing = { λ a. took_nothing W.reports W.taken a };

    ghost both = { λ x y a b c. took_both W.reports W.taken x y a b c };

    ghost whole = { λ x a b. took_whole W.reports W.taken x a b };

    ghost more = { λ x y a b. took_more W.reports W.taken x y a b };

    ghost after = { λ x y a b c. took_after W.reports W.taken x y a b c };
}
