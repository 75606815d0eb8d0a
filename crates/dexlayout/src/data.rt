//! The sections of the data, one after the other.

ghost use Rattle.std.specs.Prelude.{◌≡◌, ◌^◌, ◌≤◌, IfOk, map};
ghost use Rattle.dexspec.specs.Mentions.{Mentions};
ghost use Rattle.dexspec.specs.Texts.{string_data};
ghost use Rattle.dexspec.specs.Placing.{end, end_from};
ghost use Rattle.dexspec.specs.Canonical.{data_start, string_section};
ghost use Rattle.dexlayout.specs.Laid.{AreWritable, ordered_of};
ghost use Rattle.dexlayout.specs.internal.Parts.{AreData, AreFirstSections};
ghost use Rattle.dexlayout.specs.internal.Placing.{AreStringsFrom, CanPlaceRefLists, PlacedBack, AreWrittenSets, AreKnownSets, IsDataFrom, AreEntriesOf};

use crate::bodies::{Bodies, place_bodies};
use crate::directories::{place_directories, place_ref_lists};
use crate::input::Input;
use crate::items::{Items, SharedOffsets};
use crate::map_entries::count_placed;
use crate::offsets::{Offsets, round_up};
use crate::sets::{Sets, place_sets, share_sets};
use crate::tables::entry;
use crate::type_lists::place_type_lists;
use crate::values::{place_annotations, place_static_values};
use dexclass::Class;
use dexhead::{MapEntry, Section};
use dexpool::{Numbering, SymbolKind};
use std::alloc::{AllocError, Global};

/// The offsets of the items of each section of the data, in the order of the file.
#[derive(Drop)]
pub(crate) struct Data {
    pub(crate) first_sections: FirstSections,
    pub(crate) bodies: Bodies,
    pub(crate) back: Back,
}

/// The offsets of the items of the first sections.
#[derive(Drop)]
pub(crate) struct FirstSections {
    pub(crate) type_lists: SharedOffsets,
    pub(crate) annotations: Items,
    pub(crate) static_values: Items,
    pub(crate) strings: Offsets,
}

/// The offsets of the items of the last sections: annotation sets, lists of sets, and annotations directories.
#[derive(Drop)]
pub(crate) struct Back {
    pub(crate) sets: Sets,
    pub(crate) ref_lists: Offsets,
    pub(crate) directories: Items,
}

// The offsets of the texts, from an offset on, one after the other.
//
// Source: "string_data_item".
fn place_strings(alloc: Global, numbering: &Numbering<'_>, from: u32) -> Result<Offsets, AllocError>
    requires { end_from 1 from (map string_data numbering.now.texts) ≤ 2 ^ 30 }
    ensures { IfOk result (AreStringsFrom from numbering.now) }
{
    let count = numbering.count(SymbolKind::Text);
    let mut places = Offsets::starting_at(alloc, from, count)?;
    for i in 0..count {
        places.put_next(numbering.string(i).item_len())?;
    }
    Ok(places)
}

// Lays out the sections up to the string data, after the tables.
fn place_first_sections(input: &Input<'_, '_>, from: u32) -> Result<FirstSections, AllocError>
    requires classes { AreWritable input.now.numbering.now input.now.classes.now }
    requires written { AreWrittenSets input.now.numbering.now input.now.classes.now
        input.now.written.now }
    requires known { AreKnownSets input.now.numbering.now input.now.written.now }
    requires from { from ≡ data_start (ordered_of input.now.numbering.now input.now.classes.now) }
    ensures { IfOk result (AreFirstSections input.now.numbering.now input.now.classes.now) }
{
    let type_lists = place_type_lists(input, from)?;
    let annotations = place_annotations(input, type_lists.places().end())?;
    let static_values = place_static_values(input, annotations.places().end())?;
    let strings = place_strings(input.alloc, input.numbering, static_values.places().end())?;
    Ok(FirstSections {
        type_lists,
        annotations,
        static_values,
        strings,
    })
}

// Lays out the lists of sets and the directories, after the sets.
fn place_back(alloc: Global, classes: &[Class<'_>], sets: Sets) -> Result<Back, AllocError>
    requires { CanPlaceRefLists classes.now sets }
    ensures { IfOk result (PlacedBack classes.now sets) }
{
    let ref_lists = place_ref_lists(alloc, classes, &sets)?;
    let directories = place_directories(alloc, classes, &sets, &ref_lists)?;
    Ok(Back {
        sets,
        ref_lists,
        directories,
    })
}

/// Lays out the sections of the data, after the tables.
pub(crate) fn place_data<'p, 'a>(
    alloc: Global,
    numbering: &'p Numbering<'a>,
    classes: &'p [Class<'a>],
    from: u32,
) -> Result<Data, AllocError>
    requires classes { AreWritable numbering.now classes.now }
    requires from { from ≡ data_start (ordered_of numbering.now classes.now) }
    ensures { IfOk result (AreData numbering.now classes.now) }
{
    let shared = share_sets(alloc, classes)?;
    let input = Input {
        alloc,
        numbering,
        classes,
        written: &shared.written,
        numbers: &shared.numbers,
    };
    let first_sections = place_first_sections(&input, from)?;
    let bodies = place_bodies(&input, first_sections.strings.end())?;
    let end = bodies.class_data.places().end();
    let sets = place_sets(&input, &first_sections.annotations, end)?;
    // The numbers of the uses are not needed any more.
    drop(shared);
    let back = place_back(alloc, classes, sets)?;
    Ok(Data {
        first_sections,
        bodies,
        back,
    })
}

impl Data {
    /// The sections as parts of the map, from the end of the tables on.
    pub(crate) fn entries(&self, numbering: &Numbering<'_>, from: u32) -> [MapEntry; 10]
        requires { IsDataFrom numbering.now self.now from }
        ensures { AreEntriesOf numbering.now self.now from result }
    {
        let first = &self.first_sections;
        let lists = first.type_lists.count() as u32;
        let annotations = first.annotations.places().offsets().len() as u32;
        let arrays = count_placed(first.static_values.places().offsets()) as u32;
        let texts = numbering.count(SymbolKind::Text) as u32;
        let bodies = &self.bodies;
        let debugs = bodies.debugs.count() as u32;
        let codes = count_placed(bodies.codes.places().offsets()) as u32;
        let class_data = count_placed(bodies.class_data.places().offsets()) as u32;
        let back = &self.back;
        let sets = back.sets.written().places().offsets().len() as u32;
        let ref_lists = count_placed(back.ref_lists.offsets()) as u32;
        let directories = count_placed(back.directories.places().offsets()) as u32;
        let lists_end = first.type_lists.places().end();
        let annotations_end = first.annotations.places().end();
        let arrays_end = first.static_values.places().end();
        let texts_end = first.strings.end();
        let debugs_end = round_up(bodies.debugs.places().end());
        let codes_end = bodies.codes.places().end();
        let class_data_end = round_up(bodies.class_data.places().end());
        let sets_end = round_up(back.sets.written().places().end());
        let ref_lists_end = round_up(back.ref_lists.end());
        [
            entry(Section::TypeLists, lists, round_up(from)),
            entry(Section::AnnotationItems, annotations, lists_end),
            entry(Section::EncodedArrayItems, arrays, annotations_end),
            entry(Section::StringDataItems, texts, arrays_end),
            entry(Section::DebugInfoItems, debugs, texts_end),
            entry(Section::CodeItems, codes, debugs_end),
            entry(Section::ClassDataItems, class_data, codes_end),
            entry(Section::AnnotationSets, sets, class_data_end),
            entry(Section::AnnotationSetRefLists, ref_lists, sets_end),
            entry(Section::AnnotationsDirectories, directories, ref_lists_end),
        ]
    }
}
