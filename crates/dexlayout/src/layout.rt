//! Layouts of canonical files.

ghost use Rattle.std.specs.Prelude.{◌≡◌, ◌≤◌, IfOk, length};
ghost use Rattle.dexspec.specs.Canonical.{canonical, code_section, ref_list_section, type_list_section};
ghost use Rattle.dexspec.specs.Mentions.{Mentions};
ghost use Rattle.dexspec.specs.Placing.{section_bytes};
ghost use Rattle.dexlayout.specs.Laid.{AreWritable, IsLaid, IsWritable, IsLayoutOf, ordered_of};
ghost use Rattle.dexlayout.specs.internal.Placing.{StatesParts};

use crate::codes::{Codes, encode_codes};
use crate::data::{Data, place_data};
use crate::directories::encode_ref_lists;
use crate::items::{Items, SharedItems, SharedOffsets};
use crate::map_entries::place_map;
use crate::offsets::Offsets;
use crate::sets::Sets;
use crate::tables::Tables;
use crate::type_lists::encode_type_lists;
use dexclass::{Class, Program};
use dexhead::{Head, Output};
use dexlaws::size::fitting_size_law;
use dexpool::Numbering;
use std::alloc::{AllocError, Global};
use std::marker::Model;

/// The offset of each item of the canonical file of a program, and the length of the file. Equal type lists, debug
/// programs and annotation sets are one item, at the first use.
///
/// Source: "Overall file layout"; the order of the items in each section is this project's rule.
pub struct Layout {
    pub(crate) head: Head,
    pub(crate) placed: Data,
    pub(crate) map: Items,
}

// So that a layout is dropped by one call, in the crates above too.
impl Drop for Layout {
    fn drop(self) {
        let Layout {
            head: _,
            placed: _,
            map: _,
        } = self;
    }
}

impl Model for Layout {
    ghost use Rattle.std.specs.Coded.{codes};
    ghost use Rattle.dexval.specs.Stored.{elements_code};
    ghost use Rattle.dexlayout.specs.Places.{Places};

    ghost Value = { Places };

    ghost coded = { Prim.hlevel (codes, elements_code) };

    ghost view = { λ l. record { head = l.head; type_lists = l.placed.first_sections.type_lists; annotations = l.placed.first_sections.annotations; static_values = l.placed.first_sections.static_values; strings = l.placed.first_sections.strings; debugs = l.placed.bodies.debugs; codes = l.placed.bodies.codes; class_data = l.placed.bodies.class_data; sets = l.placed.back.sets; ref_lists = l.placed.back.ref_lists; directories = l.placed.back.directories; map = l.map } };
}

// The header of a file with these tables and this map, at its end. Its sums are 0.
fn head_of(tables: &Tables, map: &Items) -> Head
    requires one { length map.now.places.offsets ≡ 1 }
    requires following { tables.now.end ≤ map.now.places.end }
    ensures reports { StatesParts tables.now map.now result }
    ensures signature { length result.signature ≡ 20 }
{
    let file_size = map.places().end();
    Head {
        checksum: 0,
        signature: [0; 20],
        file_size,
        map_off: map.places().offsets()[0],
        tables: tables.rows(),
        data_size: file_size - tables.end,
        data_off: tables.end,
    }
}

// The layout of the file of classes.
fn build_layout<'p, 'a>(
    alloc: Global,
    numbering: &'p Numbering<'a>,
    classes: &'p [Class<'a>],
) -> Result<Layout, AllocError>
    requires { AreWritable numbering.now classes.now }
    ensures { IfOk result (IsLaid numbering.now classes.now) }
{
    let tables = Tables::of(numbering, classes);
    let placed = place_data(alloc, numbering, classes, tables.end)?;
    let sections = placed.entries(numbering, tables.end);
    let data_end = placed.back.directories.places().end();
    let map = place_map(alloc, &tables.entries(), &sections, data_end)?;
    let head = head_of(&tables, &map);
    Ok(Layout { head, placed, map })
}

impl Layout {
    /// The layout of a program's canonical file. Time is linear in what is written, memory some 8 bytes for each
    /// use and item, where equal lists of sets count once, some 30 for each list, and the bytes of all items but
    /// texts, type lists, lists of sets, and code of more than 8 MB.
    pub fn of(alloc: Global, program: &Program<'_>) -> Result<Layout, AllocError>
        ensures laid { IfOk result (IsLayoutOf program.now) }
        ensures writable { IsWritable program.now }
        ensures len { IfOk result (λ layout.
            layout.head.file_size ≡ length (canonical program.now)) }
    {
        program.is_good();
        let numbering = program.numbering();
        numbering.is_numbering();
        fitting_size_law();
        let layout = build_layout(alloc, numbering, program.classes())?;
        Ok(layout)
    }

    /// The header, with sums of 0.
    pub fn head(&self) -> Head
        ensures { result ≡ self.now.head }
    {
        self.head
    }

    /// The length of the file, in bytes.
    pub fn len(&self) -> u32
        ensures { result ≡ self.now.head.file_size }
    {
        self.head.file_size
    }

    /// The offsets of the type lists: for each proto, and then for each class.
    pub fn type_lists(&self) -> &SharedOffsets
        ensures { result.now ≡ self.now.type_lists }
    {
        &self.placed.first_sections.type_lists
    }

    /// Writes the type lists: those of the protos of the numbering, and then those of the classes, each at its first use.
    ///
    /// Condition: the layout is that of the file of these classes.
    ///
    /// Source: "type_list".
    pub fn encode_type_lists<O: Output>(
        &self,
        numbering: &Numbering<'_>,
        classes: &[Class<'_>],
        out: &mut O,
    )
        requires writable { AreWritable numbering.now classes.now }
        requires laid { IsLaid numbering.now classes.now self.now }
        ensures { O.gives (section_bytes (type_list_section (ordered_of numbering.now classes.now)))
            out.old out.new }
    {
        let offsets = self.type_lists().places().offsets();
        encode_type_lists(numbering, classes, offsets, self.head.data_off, out);
    }

    /// The annotations of the sets that are written, encoded, and the offset of each.
    pub fn annotations(&self) -> &Items
        ensures { result.now ≡ self.now.annotations }
    {
        &self.placed.first_sections.annotations
    }

    /// The static values, encoded, and their offsets: for each class.
    pub fn static_values(&self) -> &Items
        ensures { result.now ≡ self.now.static_values }
    {
        &self.placed.first_sections.static_values
    }

    /// The offset of each text.
    pub fn strings(&self) -> &Offsets
        ensures { result.now ≡ self.now.strings }
    {
        &self.placed.first_sections.strings
    }

    /// The debug programs, encoded, and their offsets: for each method.
    pub fn debugs(&self) -> &SharedItems
        ensures { result.now ≡ self.now.debugs }
    {
        &self.placed.bodies.debugs
    }

    /// The code, encoded unless its bytes are too many to be kept, and its offsets: for each method.
    pub fn codes(&self) -> &Codes
        ensures { result.now ≡ self.now.codes }
    {
        &self.placed.bodies.codes
    }

    /// Writes the code of each method of each class, the direct ones first, with the zeros that align it.
    ///
    /// Condition: the layout is that of the file of these classes.
    ///
    /// Source: "code_item".
    pub fn encode_codes<O: Output>(&self, classes: &[Class<'_>], out: &mut O)
        requires { (m : Mentions) × AreWritable m classes.now × IsLaid m classes.now self.now }
        ensures { (m : Mentions) → AreWritable m classes.now → IsLaid m classes.now self.now
            → O.gives (section_bytes (code_section (ordered_of m classes.now))) out.old out.new }
    {
        match self.codes().bytes() {
            Some(bytes) => out.bytes(bytes),
            None => encode_codes(classes, self.debugs().places(), out),
        }
    }

    /// The class data, encoded, and their offsets: for each class.
    pub fn class_data(&self) -> &Items
        ensures { result.now ≡ self.now.class_data }
    {
        &self.placed.bodies.class_data
    }

    /// The annotation sets that are written, encoded, and their offsets.
    pub fn sets(&self) -> &Sets
        ensures { result.now ≡ self.now.sets }
    {
        &self.placed.back.sets
    }

    /// The offset of the list of the sets of the parameters of each method, or 0 where it has none.
    pub fn ref_lists(&self) -> &Offsets
        ensures { result.now ≡ self.now.ref_lists }
    {
        &self.placed.back.ref_lists
    }

    /// Writes the lists of the sets of the parameters of each method of each class, the direct ones first.
    ///
    /// Condition: the layout is that of the file of these classes.
    ///
    /// Source: "annotation_set_ref_list".
    pub fn encode_ref_lists<O: Output>(&self, classes: &[Class<'_>], out: &mut O)
        requires { (m : Mentions) × AreWritable m classes.now × IsLaid m classes.now self.now }
        ensures { (m : Mentions) → AreWritable m classes.now → IsLaid m classes.now self.now
            → O.gives (section_bytes (ref_list_section (ordered_of m classes.now)))
            out.old out.new }
    {
        encode_ref_lists(classes, self.sets(), out);
    }

    /// The annotations directories, encoded, and their offsets: for each class.
    pub fn directories(&self) -> &Items
        ensures { result.now ≡ self.now.directories }
    {
        &self.placed.back.directories
    }

    /// The map, encoded, and its offset. Its end is the end of the file.
    pub fn map(&self) -> &Items
        ensures { result.now ≡ self.now.map }
    {
        &self.map
    }
}
