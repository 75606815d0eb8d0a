//! Static values with their weights.

ghost use Rattle.std.specs.Prelude.{◌≡◌, ◌-◌, ◌^◌, [], All, false, min, IfErr, IfOk, IfSome};
ghost use Rattle.dexspec.specs.Mentions.{Mentions};
ghost use Rattle.dexspec.specs.Weight.{static_values_weight};
ghost use Rattle.dexspec.specs.internal.Writing.{Puts};
ghost use Rattle.dexpool.specs.Pools.{ArePools};
ghost use Rattle.dexpool.specs.Uses.{HasMark, AreMarkedToo};
ghost use Rattle.dexval.specs.Code.{values_of};
ghost use Rattle.dexval.specs.FewSymbols.{HaveSameUses, uses_of};
ghost use Rattle.dexval.specs.Numbered.{NoValue, values_in};
ghost use Rattle.dexval.specs.Reading.{AreStaticsAt, IsStaticsFault};
ghost use Rattle.dexval.specs.Renumbering.{renumbered_values, HavePlaces};
ghost use Rattle.dexval.specs.SharedForms.{IsFormOf};
ghost use Rattle.dexval.specs.Spelled.{numbered_array_bytes};
ghost use Rattle.dexval.specs.Uses.{values_uses};
ghost use Rattle.dexval.specs.Writing.{PutsValues};

use crate::encoding::ArrayItem;
use crate::few_symbols::FewSymbols;
use crate::renumbered_copies::renumbered_copies;
use crate::value_reading::tallied_statics;
use crate::{Value, copied_values, renumber_values, visit_values};
use dexhead::{Frame, put_encoded};
use dexpool::{ItemFault, Marks, Numbering, Pools, Remap, Symbols, Visitor, mark};
use std::alloc::{AllocError, Global};
use std::marker::Model;

/// The initial values of static fields with their weight, so that they are weighed once, and with whether they name a
/// symbol, so that what concerns symbols passes over values that name none. Values that classes share are encoded once,
/// and visited once for their symbols, if these are few. Contracts see the values.
///
/// Source: "encoded_array format".
#[derive(Drop)]
pub struct WeighedValues {
    values: Vec<Value>,
    weight: u64,
    names_symbols: bool,
    // For values that several classes share.
    shared: Option<SharedForm>,
}

// What values that several classes share are put and marked by.
#[derive(Drop)]
struct SharedForm {
    // The encoded_array.
    encoded: Vec<u8>,
    // The symbols that occur in the values, if they are few.
    symbols: Option<FewSymbols>,
}

impl Model for WeighedValues {
    ghost use Rattle.std.specs.Prelude.{◌≡◌, ◌-◌, ◌^◌, [], IfSome, false, min};
    ghost use Rattle.std.specs.Coded.{codes};
    ghost use Rattle.dexval.specs.Code.{values_of};
    ghost use Rattle.dexval.specs.Numbered.{NumberedValues};
    ghost use Rattle.dexval.specs.SharedForms.{IsFormOf};
    ghost use Rattle.dexval.specs.Spelled.{numbered_statics_weight};
    ghost use Rattle.dexval.specs.Stored.{values_code};
    ghost use Rattle.dexval.specs.Uses.{values_uses};

    ghost Value = { NumberedValues };

    ghost coded = { Prim.hlevel (codes, values_code) };

    ghost view = { λ w. values_of w.values.items };

    ghost invariant = { λ w. (w.weight ≡ min (2 ^ 64 - 1) (numbered_statics_weight (values_of w.values.items)))
        × (w.names_symbols ≡ false → values_uses (values_of w.values.items) ≡ [])
        × IfSome w.shared (IsFormOf (values_of w.values.items)) };
}

// The symbols that occur in values, each once, if they are few.
fn few_symbols(values: &Vec<Value>) -> Option<FewSymbols>
    ensures { IfSome result (λ few.
        HaveSameUses (uses_of few.symbols.items) (values_uses (values_of values.now.items))) }
{
    let mut few = FewSymbols::none(*values.allocator());
    visit_values(values, &mut few);
    if few.are_all() { Some(few) } else { None }
}

// What values are put and marked by. Error: an allocation failed.
fn shared_form(values: &Vec<Value>) -> Result<SharedForm, AllocError>
    ensures { IfOk result (IsFormOf (values_of values.now.items)) }
{
    let mut encoded = Vec::new(*values.allocator());
    put_encoded(&ArrayItem(values), &mut encoded)?;
    Ok(SharedForm {
        encoded,
        symbols: few_symbols(values),
    })
}

impl WeighedValues {
    /// No values.
    pub fn none(alloc: Global) -> WeighedValues
        ensures { result ≡ NoValue }
    {
        WeighedValues {
            values: Vec::new(alloc),
            weight: 0,
            names_symbols: false,
            shared: None,
        }
    }

    /// The values of the encoded_array_item at an offset, read as by [`read_statics`](crate::read_statics), which are
    /// weighed as they are read.
    ///
    /// Errors: as of [`read_statics`](crate::read_statics).
    ///
    /// Source: "encoded_array_item".
    pub fn read(
        alloc: Global,
        frame: &Frame<'_>,
        pools: &Pools<'_>,
        off: u32,
    ) -> Result<WeighedValues, ItemFault>
        ensures values { ArePools frame.now pools.now
            → IfOk result (AreStaticsAt frame.now off pools.now) }
        ensures refused { ArePools frame.now pools.now
            → IfErr result (IsStaticsFault frame.now off) }
    {
        let (values, tally) = tallied_statics(alloc, frame, pools, off)?;
        let weight = if values.is_empty() {
            0
        } else {
            tally.weight.saturating_add(6)
        };
        Ok(WeighedValues {
            values,
            weight,
            names_symbols: tally.names_symbols,
            shared: None,
        })
    }

    /// The same values, with what they are put and marked by beside them: their encoding, and their symbols if these
    /// are few.
    ///
    /// Error: an allocation failed.
    pub(crate) fn with_shared_form(self) -> Result<WeighedValues, AllocError>
        ensures { IfOk result (λ values. values ≡ self) }
    {
        let form = shared_form(&self.values)?;
        let mut values = self;
        values.shared = Some(form);
        Ok(values)
    }

    // Appends the encoded_array: a copy of it where it is kept.
    fn put_array(&self, out: &mut Vec<u8>) -> Result<(), AllocError>
        ensures { Puts (numbered_array_bytes self.now) out.old out.new result }
    {
        match &self.shared {
            Some(form) => out.extend_from_slice(&form.encoded),
            None => put_encoded(&ArrayItem(&self.values), out),
        }
    }

    /// Appends the values, as [`put_statics`](crate::put_statics) does.
    ///
    /// On error the vector is unchanged.
    ///
    /// Source: "encoded_array_item" and "encoded_array format".
    pub fn put(&self, numbering: &Numbering<'_>, out: &mut Vec<u8>) -> Result<(), AllocError>
        ensures bytes { Puts (numbered_array_bytes self.now) out.old out.new result }
        ensures symbolic { PutsValues numbering.now self.now out.old out.new result }
    {
        numbering.is_numbering();
        self.put_array(out)
    }

    /// The values.
    pub fn values(&self) -> &Vec<Value>
        ensures { values_of result.now.items ≡ self.now }
    {
        &self.values
    }

    /// The weight of the values, or 2^64 - 1 if they weigh more: their [`statics_weight`](crate::statics_weight).
    pub fn weight(&self) -> u64
        ensures { (m : Mentions)
            → result ≡ min (2 ^ 64 - 1) (static_values_weight (values_in m self.now)) }
    {
        self.weight
    }

    /// Returns `false` only if no symbol occurs in the values.
    pub(crate) fn names_symbols(&self) -> bool
        ensures { result ≡ false → values_uses self.now ≡ [] }
    {
        self.names_symbols
    }

    // The symbols that occur in the values, if they are kept.
    fn kept_symbols(&self) -> Option<&FewSymbols>
        ensures { IfSome result (λ few.
            HaveSameUses (uses_of few.now.symbols.items) (values_uses self.now)) }
    {
        self.shared.as_ref()?.symbols.as_ref()
    }

    /// The same values, with copies of all contents, as [`copied_values`] makes them.
    ///
    /// Error: an allocation failed.
    pub fn copy(&self) -> Result<WeighedValues, AllocError>
        ensures { IfOk result (λ copy. copy ≡ self.now) }
    {
        Ok(WeighedValues {
            values: copied_values(&self.values)?,
            weight: self.weight,
            names_symbols: self.names_symbols,
            shared: None,
        })
    }

    /// A copy of the values with each number of a symbol replaced by the one that it maps to.
    ///
    /// Condition: each number maps to a number below 2^32. Error: an allocation failed.
    pub(crate) fn renumbered_copy(&self, remap: &Remap) -> Result<WeighedValues, AllocError>
        requires { HavePlaces remap.now self.now }
        ensures { IfOk result (λ copy. copy ≡ renumbered_values remap.now self.now) }
    {
        Ok(WeighedValues {
            values: renumbered_copies(&self.values, remap)?,
            weight: self.weight,
            names_symbols: self.names_symbols,
            shared: None,
        })
    }

    /// Marks each symbol that occurs in the values.
    ///
    /// Condition: there is a mark for each of them.
    pub fn mark(&self, marks: &mut Marks)
        requires { All (HasMark marks.old) (values_uses self.now) }
        ensures { AreMarkedToo (values_uses self.now) marks.old marks.new }
    {
        match self.kept_symbols() {
            Some(few) => mark(few, marks),
            None => mark(self, marks),
        }
    }

    /// Replaces each number of a symbol in the values by the one that it maps to, as [`renumber_values`] does.
    ///
    /// Condition: each number maps to a number below 2^32.
    pub fn renumber(&mut self, remap: &Remap)
        requires { HavePlaces remap.now self.old }
        ensures { self.new ≡ renumbered_values remap.now self.old }
    {
        if self.names_symbols {
            self.shared = None;
            renumber_values(&mut self.values, remap);
        }
    }
}

/// The symbols that occur in the values. Values that name none are passed over.
impl Symbols for WeighedValues {
    ghost uses = { values_uses };

    fn visit<V: Visitor>(&self, visitor: &mut V) {
        if self.names_symbols {
            visit_values(&self.values, visitor);
        }
    }
}
