//! Classes whose numbers are mapped to those of another numbering.

ghost use Rattle.std.specs.Prelude.{◌≡◌, map, unwrap_or, OnOk, OnErr};
ghost use Rattle.std.specs.Option.{option_map};
ghost use Rattle.dexclass.specs.Renumbering.{image_or_same, renumbered_class, ClassHasPlaces};

use crate::classes::Class;
use crate::interface_lists::Interfaces;
use dexmembers::RemappedMembers;
use dexpool::{Remap, SymbolKind};
use std::alloc::AllocError;

/// The image of the number of a type, or the number itself if it has none.
pub(crate) fn type_number(remap: &Remap, i: usize) -> usize
    ensures { result ≡ image_or_same remap.now.types i }
{
    remap.or_same(SymbolKind::Typ, i)
}

// The image of the number of a text, or the number itself if it has none.
fn text_number(remap: &Remap, i: usize) -> usize
    ensures { result ≡ image_or_same remap.now.texts i }
{
    remap.or_same(SymbolKind::Text, i)
}

/// What [`type_number`] returns for a number, if there is one.
pub(crate) fn optional_type_number(remap: &Remap, i: Option<usize>) -> Option<usize>
    ensures { result ≡ option_map (image_or_same remap.now.types) i }
{
    i.map(|i| type_number(remap, i))
}

/// What `text_number` returns for a number, if there is one.
pub(crate) fn optional_text_number(remap: &Remap, i: Option<usize>) -> Option<usize>
    ensures { result ≡ option_map (image_or_same remap.now.texts) i }
{
    i.map(|i| text_number(remap, i))
}

impl<'a> Class<'a> {
    /// Remaps each number of the class. A number of a type of its own, of its text, of a member, of a value or of an
    /// annotation that has no image stays.
    ///
    /// Condition: each number in what the class declares maps to one that fits its place, as
    /// [`dexmembers::Members::renumber`] asks. Error: an allocation failed; the class is as it was.
    pub fn renumber(&mut self, remap: &Remap) -> Result<(), AllocError>
        requires { ClassHasPlaces remap.now self.old }
        ensures renumbered { OnOk result (self.new ≡ renumbered_class remap.now self.old) }
        ensures unchanged { OnErr result (self.new ≡ self.old) }
    {
        let interfaces = self.interfaces.renumbered(remap)?;
        let mut items = RemappedMembers::of(self.interfaces.allocator(), remap);
        self.renumber_with(&mut items, interfaces)
    }

    /// As [`Class::renumber`], with the interfaces remapped already, or `None` if they stay.
    pub(crate) fn renumber_with(
        &mut self,
        items: &mut RemappedMembers<'_, 'a>,
        interfaces: Option<Interfaces<'a>>,
    ) -> Result<(), AllocError>
        requires places { ClassHasPlaces items.old self.old }
        requires interfaces { unwrap_or interfaces self.old.interfaces
            ≡ map (image_or_same items.old.types) self.old.interfaces }
        ensures items { items.new ≡ items.old }
        ensures renumbered { OnOk result (self.new ≡ renumbered_class items.old self.old) }
        ensures unchanged { OnErr result (self.new ≡ self.old) }
    {
        let remap = items.remap();
        self.members.renumber(items)?;
        self.name = type_number(remap, self.name);
        self.superclass = optional_type_number(remap, self.superclass);
        self.interfaces.replace(interfaces);
        self.source = optional_text_number(remap, self.source);
        Ok(())
    }
}

/// The same as [`Class::renumber`].
pub fn renumber(class: &mut Class<'_>, remap: &Remap) -> Result<(), AllocError>
    requires { ClassHasPlaces remap.now class.old }
    ensures renumbered { OnOk result (class.new ≡ renumbered_class remap.now class.old) }
    ensures unchanged { OnErr result (class.new ≡ class.old) }
{
    class.renumber(remap)
}
