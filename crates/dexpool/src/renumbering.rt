//! Rows whose numbers are replaced by those of the same symbols in other tables. Lists of parameters that rows share or
//! that overlap are renumbered all at once.

ghost use Rattle.std.specs.Prelude.{◌≡◌, ◌<◌, ◌+◌, ◌++◌, ◌^◌, length, map, All, IfOk, OnOk, slice_index, ℕ, List};
ghost use Rattle.dexrows.specs.Numbers.{among_of, lower_of};
ghost use Rattle.dexpool.specs.internal.Renumbering.{StaySorted, moved_type, IsEntryWithin, HasSpans, numbers_in, AreMovedProtos};
ghost use Rattle.dexids.specs.Reading.{HasSpan};
ghost use Rattle.dexpool.specs.internal.SharedLists.{Covers, IsPlaceWithin, ArePlaced, HaveParameters, AreTablesJoined};

use dexids::{Parameters, ProtoEntry, Span};
use dexrows::{Joined, LowerPlaces, ProtoRow, Row, TypeNumbers, TypeRow};
use std::alloc::{AllocError, Global};

/// The protos by row, and the types of their parameters, each as its number.
#[derive(Drop)]
pub(crate) struct Protos {
    pub(crate) rows: Vec<ProtoEntry>,
    pub(crate) parameters: Vec<usize>,
}

/// The rows of types, by the images of their texts.
pub(crate) fn renumbered_types(
    alloc: Global,
    types: &[usize],
    strings: &[u32],
) -> Result<Vec<TypeRow>, AllocError>
    requires { All (λ n. n < length strings.now) types.now }
    ensures { IfOk result (λ rows. rows.items ≡ map (moved_type strings.now) types.now) }
{
    types
        .iter()
        .map(|n| TypeRow {
            descriptor: strings[*n] as usize,
        })
        .collect(alloc)
}

/// The numbers, by their images.
pub(crate) fn renumbered_numbers(mut numbers: Vec<usize>, images: &[u32]) -> Vec<usize>
    requires { All (λ n. n < length images.now) numbers.items }
    ensures { result.items ≡ map (slice_index images.now) numbers.items }
{
    for i in 0..numbers.len() {
        numbers[i] = images[numbers[i]] as usize;
    }
    numbers
}

/// The number of the text of each row of types.
pub(crate) fn descriptors(alloc: Global, rows: &[TypeRow]) -> Result<Vec<usize>, AllocError>
    ensures { IfOk result (λ numbers. numbers.items ≡ map (λ row. row.descriptor) rows.now) }
{
    rows.iter().map(|row| row.descriptor).collect(alloc)
}

// Appends the images of numbers, and 0 for those that have none.
fn push_images(
    numbers: &TypeNumbers<'_>,
    images: &[u32],
    to: &mut Vec<usize>,
) -> Result<(), AllocError>
    ensures { OnOk result (to.new.items ≡ to.old.items
        ++ map (slice_index images.now) numbers.now) }
{
    for i in 0..numbers.len() {
        let image = images.get(numbers.at(i)).copied().unwrap_or(0);
        to.push(image as usize)?;
    }
    Ok(())
}

/// The protos, by the images of their texts and types. The numbers of all rows' parameters are not more than those
/// from the first that one of them has up to the last: where rows share parameters, so do their images.
///
/// Error: the memory for the parameters was refused.
pub(crate) fn renumbered_protos(
    mut rows: Vec<ProtoEntry>,
    parameters: &Parameters<'_>,
    lower: LowerPlaces<'_>,
) -> Result<Protos, AllocError>
    requires { All
        (IsEntryWithin (length lower.strings.now) (length lower.types.now) parameters.now)
        rows.items }
    ensures spans { IfOk result HasSpans }
    ensures rows { IfOk result
        (AreMovedProtos lower.entry.strings.now lower.entry.types.now
        parameters.now rows.items) }
{
    let range = covering(&rows);
    let count = listed(&rows);
    if count > range.len() {
        return renumbered_together(rows, parameters, range, lower);
    }
    let mut moved = Vec::with_capacity(*rows.allocator(), count)?;
    for i in 0..rows.len() {
        let entry = rows[i];
        let start = moved.len();
        push_images(&parameters.part(entry.parameters), lower.types, &mut moved)?;
        let end = moved.len();
        rows[i] = entry.renumbered(lower, Span { start, end });
    }
    Ok(Protos {
        rows,
        parameters: moved,
    })
}

/// The rows of a table of protos, whose parameters are borrowed.
pub(crate) fn proto_rows(alloc: Global, protos: &Protos) -> Result<Vec<ProtoRow<'_>>, AllocError>
    requires { HasSpans protos.now }
    ensures { IfOk result (λ rows. rows.items ≡ numbers_in protos.now) }
{
    let mut rows = Vec::with_capacity(alloc, protos.rows.len())?;
    for entry in &protos.rows {
        let parameters = entry.parameters.of(&protos.parameters);
        rows.push(ProtoRow::new(entry.shorty, entry.return_type, parameters))?;
    }
    Ok(rows)
}

// Appends numbers.
fn push_numbers(numbers: &TypeNumbers<'_>, to: &mut Vec<usize>) -> Result<(), AllocError>
    ensures { OnOk result (to.new.items ≡ to.old.items ++ numbers.now) }
{
    to.reserve(numbers.len())?;
    for i in 0..numbers.len() {
        to.push(numbers.at(i))?;
    }
    Ok(())
}

/// A table of protos with these rows.
pub(crate) fn stored(alloc: Global, protos: &[ProtoRow<'_>]) -> Result<Protos, AllocError>
    ensures spans { IfOk result HasSpans }
    ensures rows { IfOk result (λ table. numbers_in table ≡ protos.now) }
{
    let mut rows = Vec::with_capacity(alloc, protos.len())?;
    let mut parameters = Vec::new(alloc);
    for proto in protos {
        let start = parameters.len();
        push_numbers(&proto.parameters(), &mut parameters)?;
        let end = parameters.len();
        rows.push(ProtoEntry {
            shorty: proto.shorty(),
            return_type: proto.return_type(),
            parameters: Span { start, end },
        })?;
    }
    Ok(Protos { rows, parameters })
}

// Where the parameters of rows are, in a list that has those of their table from `base` on: each at the image of its row.
fn place_rows(places: &mut Vec<Span>, rows: &[ProtoEntry], images: &[u32], base: usize)
    requires count { length images.now ≡ length rows.now }
    requires within { All (λ k. k < length places.old.items) images.now }
    requires fits { All
        (λ p. (base + p.parameters.start < 2 ^ 64) × (base + p.parameters.end < 2 ^ 64)) rows.now }
    ensures { ArePlaced base rows.now images.now places.old.items places.new.items }
{
    for i in 0..rows.len() {
        let Span { start, end } = rows[i].parameters;
        places[images[i] as usize] = Span {
            start: base + start,
            end: base + end,
        };
    }
}

// The rows as a table, with these parameters, which are at these places.
fn placed(
    protos: &[ProtoRow<'_>],
    parameters: Vec<usize>,
    places: &[Span],
) -> Result<Protos, AllocError>
    requires count { length places.now ≡ length protos.now }
    requires places { HaveParameters parameters.items protos.now places.now }
    ensures spans { IfOk result HasSpans }
    ensures rows { IfOk result (λ table. numbers_in table ≡ protos.now) }
{
    let mut rows = Vec::with_capacity(*parameters.allocator(), protos.len())?;
    for i in 0..protos.len() {
        rows.push(ProtoEntry {
            shorty: protos[i].shorty(),
            return_type: protos[i].return_type(),
            parameters: places[i],
        })?;
    }
    Ok(Protos { rows, parameters })
}

/// A table of protos with the rows of tables, which are joined. Its parameters are not more than those of all these
/// tables: where rows of a table share parameters, they do so still.
///
/// Error: the memory for the table was refused.
pub(crate) fn stored_together(
    alloc: Global,
    tables: &[Protos],
    joined: &Joined<ProtoRow<'_>>,
) -> Result<Protos, AllocError>
    requires spans { All HasSpans tables.now }
    requires joined { AreTablesJoined tables.now joined.now }
    ensures spans { IfOk result HasSpans }
    ensures rows { IfOk result (λ table. numbers_in table ≡ joined.now.rows.items) }
{
    let mut parameters = Vec::new(alloc);
    let mut places = vec![in alloc; Span { start: 0, end: 0 }; joined.rows.len()]?;
    for i in 0..tables.len() {
        let base = parameters.len();
        parameters.extend_from_slice(&tables[i].parameters)?;
        place_rows(&mut places, &tables[i].rows, &joined.images[i], base);
    }
    placed(&joined.rows, parameters, &places)
}

/// The rows, by the images of the rows of lower tables that they name.
pub(crate) fn renumbered_rows<R: Row<List = ()>>(mut rows: Vec<R>, lower: LowerPlaces<'_>) -> Vec<R>
    requires within { All (R.numbers_in (among_of lower)) rows.items }
    requires list { All (λ row. R.can_move lower row tt) rows.items }
    ensures { result.items ≡ map (R.mapped (lower_of lower.entry)) rows.items }
{
    for i in 0..rows.len() {
        rows[i] = rows[i].renumbered(lower, ());
    }
    rows
}

/// Sorted rows stay sorted where the numbers that they name are replaced in the order of these.
pub(crate) fn sorted_law<R: Row>()
    ensures { StaySorted R.key_of R.numbers_in R.mapped }
{}

/// How many parameters the rows have together.
pub(crate) fn listed(protos: &[ProtoEntry]) -> usize {
    protos.iter().fold(0, |count: usize, proto| {
        count.saturating_add(proto.parameters.len())
    })
}

// The least part that has the numbers of both.
fn both(left: Span, right: Span) -> Span
    ensures left { Covers result left }
    ensures right { Covers result right }
    ensures within { (ps : List ℕ) → HasSpan ps left → HasSpan ps right → HasSpan ps result }
{
    if left.start >= left.end {
        return right;
    }
    if right.start >= right.end {
        return left;
    }
    Span {
        start: left.start.min(right.start),
        end: left.end.max(right.end),
    }
}

/// The least part that has the parameters of all rows.
pub(crate) fn covering(protos: &[ProtoEntry]) -> Span
    ensures covers { All (λ p. Covers result p.parameters) protos.now }
    ensures within { (ps : List ℕ) → All (λ p. HasSpan ps p.parameters) protos.now
        → HasSpan ps result }
{
    let mut range = Span { start: 0, end: 0 };
    for entry in protos {
        range = both(range, entry.parameters);
    }
    range
}

// The place of a part in a list that has the numbers of `range` only, which covers the part.
#[tactic(auto, using(crate::proofs::SharedLists::place_in))]
fn place_within(range: Span, part: Span) -> Span
    requires { Covers range part }
    ensures { IsPlaceWithin range part result }
{
    if part.start >= part.end {
        return Span { start: 0, end: 0 };
    }
    Span {
        start: part.start - range.start,
        end: part.end - range.start,
    }
}

/// The protos, by the images of their texts and types. Their parameters are parts of one list, which has an image for
/// each number of the range.
///
/// Condition: the range has the parameters of each row. Error: the memory for the parameters was refused.
pub(crate) fn renumbered_together(
    mut rows: Vec<ProtoEntry>,
    parameters: &Parameters<'_>,
    range: Span,
    lower: LowerPlaces<'_>,
) -> Result<Protos, AllocError>
    requires protos { All
        (IsEntryWithin (length lower.strings.now) (length lower.types.now) parameters.now)
        rows.items }
    requires range { HasSpan parameters.now range }
    requires covers { All (λ p. Covers range p.parameters) rows.items }
    ensures spans { IfOk result HasSpans }
    ensures rows { IfOk result
        (AreMovedProtos lower.entry.strings.now lower.entry.types.now
        parameters.now rows.items) }
{
    let mut moved = Vec::with_capacity(*rows.allocator(), range.len())?;
    push_images(&parameters.part(range), lower.types, &mut moved)?;
    for i in 0..rows.len() {
        let entry = rows[i];
        let place = place_within(range, entry.parameters);
        rows[i] = entry.renumbered(lower, place);
    }
    Ok(Protos {
        rows,
        parameters: moved,
    })
}
