//! Marks on the symbols of a numbering.

ghost use Rattle.std.specs.Prelude.{◌≡◌, ◌↔◌, ◌∷◌, All, IfOk, IsTrue, []};
ghost use Rattle.dexpool.specs.Numberings.{AreMarksOf, marked};
ghost use Rattle.dexpool.specs.Uses.{HasMark, AreMarkedToo};
ghost use Rattle.dexpool.specs.internal.Marking.{HaveAllMarks};

use crate::numbering::Numbering;
use crate::symbols::SymbolKind;
use std::alloc::{AllocError, Global};

/// A mark for each symbol of a numbering, by its number, which says whether the symbol is to be kept.
pub struct Marks {
    /// For each text by its number, whether it is marked.
    pub strings: Vec<bool>,
    /// For each type.
    pub types: Vec<bool>,
    /// For each proto.
    pub protos: Vec<bool>,
    /// For each field.
    pub fields: Vec<bool>,
    /// For each method.
    pub methods: Vec<bool>,
}

// One call drops the marks.
impl Drop for Marks {
    fn drop(self) {
        let Marks {
            strings: _,
            types: _,
            protos: _,
            fields: _,
            methods: _,
        } = self;
    }
}

impl Marks {
    /// No symbol is marked.
    pub fn none(alloc: Global, numbering: &Numbering<'_>) -> Result<Marks, AllocError>
        ensures marks { IfOk result (AreMarksOf numbering.now) }
        ensures none { IfOk result (λ marks. marked numbering.now marks ≡ []) }
    {
        Ok(Marks {
            strings: vec![in alloc; false; numbering.count(SymbolKind::Text)]?,
            types: vec![in alloc; false; numbering.count(SymbolKind::Typ)]?,
            protos: vec![in alloc; false; numbering.count(SymbolKind::Proto)]?,
            fields: vec![in alloc; false; numbering.count(SymbolKind::Field)]?,
            methods: vec![in alloc; false; numbering.count(SymbolKind::Method)]?,
        })
    }

    /// Marks the symbol of a kind and a number.
    ///
    /// Condition: there is a mark for it.
    pub fn mark(&mut self, kind: SymbolKind, number: usize)
        requires { HasMark self.old (record { kind = kind; number = number }) }
        ensures { AreMarkedToo (record { kind = kind; number = number } ∷ []) self.old self.new }
    {
        match kind {
            SymbolKind::Text => self.strings[number] = true,
            SymbolKind::Typ => self.types[number] = true,
            SymbolKind::Proto => self.protos[number] = true,
            SymbolKind::Field => self.fields[number] = true,
            SymbolKind::Method => self.methods[number] = true,
        }
    }

    // Returns whether every symbol is marked.
    pub(crate) fn are_all(&self) -> bool
        ensures { IsTrue result ↔ HaveAllMarks self.now }
    {
        are_set(&self.strings)
            && are_set(&self.types)
            && are_set(&self.protos)
            && are_set(&self.fields)
            && are_set(&self.methods)
    }
}

// Returns whether each of the marks is set.
fn are_set(marks: &[bool]) -> bool
    ensures { IsTrue result ↔ All IsTrue marks.now }
{
    marks.iter().all(|&is_marked| is_marked)
}
