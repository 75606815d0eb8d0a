//! Numberings cut down to their marked rows: each table is cut in place, and the rows that are left are renumbered by the
//! places of the rows below them.

ghost use Rattle.std.specs.Prelude.{◌≡◌, ◌+◌, ◌≤◌, [], length, vec_len, vec_capacity, IfOk, ◌≢◌, IfSome, IfNone};
ghost use Rattle.dexpool.specs.declared.numbering.Tables.{Tables};
ghost use Rattle.dexpool.specs.Cut.{kept};
ghost use Rattle.dexpool.specs.Numberings.{AreMarksOf, marked, AllMapTo};
ghost use Rattle.dexpool.specs.Stored.{symbols_in, AreTables};
ghost use Rattle.dexpool.specs.internal.Closing.{AreClosed, AreMarkedRows, AreKept};
ghost use Rattle.dexspec.specs.Mentions.{closed};
ghost use Rattle.dexpool.specs.Orderly.{MapsDown};
ghost use Rattle.dexpool.specs.Uses.{MapsMarked};

use crate::closing::closed;
use crate::marks::Marks;
use crate::numbering::{Numbering, Tables};
use crate::remap::{Images, Remap};
use crate::renumbering::{renumbered_numbers, renumbered_protos, renumbered_rows, sorted_law};
use dexids::Parameters;
use dexrows::{FieldRow, LowerPlaces, MethodRow, ProtoRow, Row, TypeRow};
use std::alloc::{AllocError, Global};

impl<'a> Numbering<'a> {
    /// Keeps the symbols that are marked, and those that they name. Returns them with the map of the numbers: a number
    /// has an image exactly if its symbol is kept, as each marked one is, and no image is greater than its number.
    ///
    /// Condition: there is a mark for each symbol.
    ///
    /// Source: this project's rule, that a file has the symbols that its classes mention and no others.
    pub fn keep(&self, alloc: Global, marks: &Marks) -> Result<(Numbering<'a>, Remap), AllocError>
        requires { AreMarksOf self.now marks.now }
        ensures kept { IfOk result (λ cut. cut.0 ≡ closed (marked self.now marks.now)) }
        ensures map { IfOk result (λ cut. AllMapTo self.now cut.0 cut.1) }
        ensures marked { IfOk result (λ cut. MapsMarked marks.now cut.1) }
        ensures down { IfOk result (λ cut. MapsDown cut.1) }
    {
        let tables = self.tables();
        let marks = closed(tables, marks)?;
        let rows = marked_copies(alloc, tables, &marks)?;
        let (tables, remap) = renumbered(alloc, rows, marks)?;
        Ok((Numbering { tables }, remap))
    }

    /// Keeps what [`keep`](Numbering::keep) keeps of a numbering that is given up. Where that is every symbol, the
    /// numbering is returned as it is, with no map, since no number changes.
    ///
    /// Condition: there is a mark for each symbol.
    ///
    /// Source: this project's rule, that a file has the symbols that its classes mention and no others.
    pub fn into_kept(
        self,
        alloc: Global,
        marks: &Marks,
    ) -> Result<(Numbering<'a>, Option<Remap>), AllocError>
        requires { AreMarksOf self marks.now }
        ensures kept { IfOk result (λ cut. cut.0 ≡ closed (marked self.entry marks.now)) }
        ensures whole { IfOk result (λ cut. IfNone cut.1 (cut.0 ≡ self.entry)) }
        ensures less { IfOk result (λ cut. IfSome cut.1 (λ remap. cut.0 ≢ self.entry)) }
        ensures map { IfOk result (λ cut. IfSome cut.1 (AllMapTo self.entry cut.0)) }
        ensures marked { IfOk result (λ cut. IfSome cut.1 (MapsMarked marks.now)) }
        ensures down { IfOk result (λ cut. IfSome cut.1 MapsDown) }
    {
        let tables = self.into_tables();
        let closed = closed(&tables, marks)?;
        if closed.are_all() {
            return Ok((Numbering { tables }, None));
        }
        let rows = marked_rows(tables, &closed);
        let (tables, remap) = renumbered(alloc, rows, closed)?;
        Ok((Numbering { tables }, Some(remap)))
    }
}

/// The marked rows by their old numbers, where what a marked row names is marked.
pub(crate) fn marked_rows<'a>(tables: Tables<'a>, marks: &Marks) -> Tables<'a>
    requires tables { AreTables tables }
    requires marks { AreMarksOf (symbols_in tables) marks.now }
    requires closed { AreClosed tables marks.now }
    ensures { AreMarkedRows tables.entry marks.now result }
{
    Tables {
        strings: marked(tables.strings, &marks.strings),
        types: marked(tables.types, &marks.types),
        protos: marked(tables.protos, &marks.protos),
        parameters: tables.parameters,
        fields: marked(tables.fields, &marks.fields),
        methods: marked(tables.methods, &marks.methods),
    }
}

/// Copies of the [`marked_rows`], one table after the other.
///
/// Error: the memory for the copies was refused.
pub(crate) fn marked_copies<'a>(
    alloc: Global,
    tables: &Tables<'a>,
    marks: &Marks,
) -> Result<Tables<'a>, AllocError>
    requires tables { AreTables tables.now }
    requires marks { AreMarksOf (symbols_in tables.now) marks.now }
    requires closed { AreClosed tables.now marks.now }
    ensures { IfOk result (AreMarkedRows tables.now marks.now) }
{
    Ok(Tables {
        strings: marked_copy(alloc, &tables.strings, &marks.strings)?,
        types: marked(Vec::from_slice(alloc, &tables.types)?, &marks.types),
        protos: marked(Vec::from_slice(alloc, &tables.protos)?, &marks.protos),
        parameters: tables.parameters.copy()?,
        fields: marked_copy(alloc, &tables.fields, &marks.fields)?,
        methods: marked_copy(alloc, &tables.methods, &marks.methods)?,
    })
}

// An empty vector with room for a place for each mark.
fn room_for(alloc: Global, marks: &[bool]) -> Result<Vec<u32>, AllocError>
    ensures empty { IfOk result (λ room. room.items ≡ []) }
    ensures room { IfOk result (λ room. vec_len room + length marks.now ≤ vec_capacity room) }
{
    Vec::with_capacity(alloc, marks.len())
}

/// The tables of the marked rows, by their new numbers; and where each number leads.
///
/// Condition: these are the marked rows of some tables. Error: the memory for the map and the parameters was refused.
pub(crate) fn renumbered<'a>(
    alloc: Global,
    rows: Tables<'a>,
    marks: Marks,
) -> Result<(Tables<'a>, Remap), AllocError>
    requires { (t : Tables) × AreMarkedRows t marks rows }
    ensures { IfOk result (λ cut. (t : Tables)
        → AreMarkedRows t marks rows.entry → AreKept t marks cut.0 cut.1) }
{
    sorted_law::<TypeRow>();
    sorted_law::<ProtoRow<'_>>();
    sorted_law::<FieldRow>();
    sorted_law::<MethodRow>();
    let remap = Remap {
        strings: Images::places(&marks.strings, room_for(alloc, &marks.strings)?)?,
        types: Images::places(&marks.types, room_for(alloc, &marks.types)?)?,
        protos: Images::places(&marks.protos, room_for(alloc, &marks.protos)?)?,
        fields: Images::places(&marks.fields, room_for(alloc, &marks.fields)?)?,
        methods: Images::places(&marks.methods, room_for(alloc, &marks.methods)?)?,
    };
    let lower = LowerPlaces {
        strings: remap.strings.numbers(),
        types: remap.types.numbers(),
        protos: remap.protos.numbers(),
    };
    let protos = renumbered_protos(rows.protos, &rows.parameters, lower)?;
    let kept = Tables {
        strings: rows.strings,
        types: renumbered_numbers(rows.types, lower.strings),
        protos: protos.rows,
        parameters: Parameters::own(protos.parameters),
        fields: renumbered_rows(rows.fields, lower),
        methods: renumbered_rows(rows.methods, lower),
    };
    Ok((kept, remap))
}

// The rows that are marked, moved to the places before the others of their table.
fn marked<T: Drop>(mut rows: Vec<T>, marks: &[bool]) -> Vec<T>
    requires { length marks.now ≡ length rows.items }
    ensures { result.items ≡ kept marks.now rows.items }
{
    let mut count = 0;
    for i in 0..rows.len() {
        if marks[i] {
            rows.swap(count, i);
            count += 1;
        }
    }
    rows.truncate(count);
    rows.shrink_to_fit();
    rows
}

// Copies of the rows that are marked.
fn marked_copy<R: Row>(alloc: Global, rows: &[R], marks: &[bool]) -> Result<Vec<R>, AllocError>
    requires { length marks.now ≡ length rows.now }
    ensures { IfOk result (λ copy. copy.items ≡ kept marks.now rows.now) }
{
    let count = marks.iter().filter(|is_marked| **is_marked).count();
    let mut copy = Vec::with_capacity(alloc, count)?;
    for i in 0..rows.len() {
        if marks[i] {
            copy.push(rows[i].copied())?;
        }
    }
    Ok(copy)
}
