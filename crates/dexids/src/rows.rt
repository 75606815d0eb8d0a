//! The rows of protos as a table keeps them. Those of fields and methods are `dexrows`', and a row of types is
//! the number of its text.

ghost use Rattle.std.specs.Prelude.{◌≡◌, ◌⊎◌, ◌-◌, ◌<◌, ◌≤◌, length, take, drop, slice_index, IsTrue};

use dexrows::LowerPlaces;

/// A row of protos.
///
/// Source: "proto_id_item".
#[derive(Clone, Copy)]
pub struct ProtoEntry {
    /// The text of the shorty.
    pub shorty: usize,
    /// The type that is returned.
    pub return_type: usize,
    /// Where the numbers of the types of the parameters are.
    pub parameters: Span,
}

impl ProtoEntry {
    /// The row, by the images of its text and its type, with its parameters in another place.
    pub fn renumbered(self, lower: LowerPlaces<'_>, parameters: Span) -> ProtoEntry
        requires shorty { self.shorty < length lower.strings.now }
        requires return_type { self.return_type < length lower.types.now }
        ensures { result ≡ record {
          shorty = slice_index lower.entry.strings.now self.shorty;
          return_type = slice_index lower.entry.types.now self.return_type;
          parameters = parameters;
        } }
    {
        ProtoEntry {
            shorty: lower.strings[self.shorty] as usize,
            return_type: lower.types[self.return_type] as usize,
            parameters,
        }
    }
}

/// A part of a list that rows share: from `start` on, up to `end`.
#[derive(Clone, Copy)]
pub struct Span {
    /// The place of its first number.
    pub start: usize,
    /// The place after its last number.
    pub end: usize,
}

impl Span {
    /// How many items it spans.
    pub fn len(self) -> usize
        ensures { result ≡ self.end - self.start }
    {
        self.end.saturating_sub(self.start)
    }

    /// Returns whether it is that part.
    pub fn is(self, other: Span) -> bool
        ensures { IsTrue result → self ≡ other }
    {
        self.start == other.start && self.end == other.end
    }

    /// The longer of the two.
    pub fn longer(self, other: Span) -> Span
        ensures { (result ≡ self) ⊎ (result ≡ other) }
    {
        if self.len() < other.len() {
            other
        } else {
            self
        }
    }

    /// This part of a list.
    pub fn of<T>(self, items: &[T]) -> &[T]
        requires ordered { self.start ≤ self.end }
        requires within { self.end ≤ length items.now }
        ensures { result.now ≡ take (self.end - self.start) (drop self.start items.now) }
    {
        let (_, rest) = items.split_at(self.start);
        let (part, _) = rest.split_at(self.end - self.start);
        part
    }
}
