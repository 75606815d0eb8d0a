//! What a file is made of, and lists of its items that are not aligned.

ghost use Rattle.std.specs.Prelude.{◌≡◌, ℕ, ◌<◌, List, length, slice_index_or, []};
ghost use Rattle.std.specs.List.{concat};
ghost use Rattle.dexspec.specs.Canonical.{canonical, with_sums, unsigned_file};
ghost use Rattle.dexlayout.specs.Laid.{IsWritable, IsLayoutOf};
ghost use Rattle.dexcanon.specs.declared.contents.Contents.{Contents};
ghost use Rattle.dexcanon.specs.internal.Ready.{CanBeMade, ordered_in};

use dexclass::{Class, Program};
use dexhead::Output;
use dexlayout::Layout;
use dexpool::Numbering;

/// What a file is made of: its classes by number, and the offsets of everything.
#[derive(Clone, Copy)]
pub(crate) struct Contents<'a, 'n, 'c> {
    pub(crate) numbering: &'a Numbering<'n>,
    pub(crate) classes: &'a [Class<'c>],
    pub(crate) layout: &'a Layout,
}

impl<'a, 'p> Contents<'a, 'p, 'p> {
    /// What the canonical file of a program is made of, with the program's layout.
    pub(crate) fn of(program: &'a Program<'p>, layout: &'a Layout) -> Contents<'a, 'p, 'p>
        requires laid { IsLayoutOf program.now layout.now }
        requires writable { IsWritable program.now }
        ensures ready { CanBeMade result }
        ensures whole { with_sums (unsigned_file (ordered_in result)) ≡ canonical program.now }
    {
        Contents {
            numbering: program.numbering(),
            classes: program.classes(),
            layout,
        }
    }
}

/// A list of items of a file, one after the other without alignment.
pub(crate) trait ItemList {
    // the bytes of each item
    ghost items: { Contents → List (List ℕ) };

    /// Writes the item at a place.
    fn encode_item<O: Output>(contents: &Contents<'_, '_, '_>, i: usize, out: &mut O)
        requires ready { CanBeMade contents.now }
        requires within { i < length (items contents.now) }
        ensures { O.gives (slice_index_or (items contents.now) i []) out.old out.new };

    /// Writes the items, of which there are `count`.
    fn encode<O: Output>(contents: &Contents<'_, '_, '_>, count: usize, out: &mut O)
        requires ready { CanBeMade contents.now }
        requires all { count ≡ length (items contents.now) }
        ensures { O.gives (concat (items contents.now)) out.old out.new }
    {
        for i in 0..count {
            Self::encode_item(contents, i, out);
        }
    }
}
