//! Checks of class rows: condition 16.

ghost use Rattle.std.specs.Prelude.{◌≡◌, ◌≢◌, ◌↔◌, ◌+◌, ◌*◌, ◌<◌, ◌≤◌, IsTrue, IfOk, IfErr, OnOk, length, List, ℕ};
ghost use Rattle.dexspec.specs.Header.{ClassDefs, TypeIds, table_size};
ghost use Rattle.dexspec.specs.Accepted.{HasClass, HoldBelow, IsDefinedBefore};
ghost use Rattle.dexpool.specs.Pools.{ArePools};
ghost use Rattle.dexmembers.specs.ClassDefs.{IsClassDef};
ghost use Rattle.dexclass.specs.internal.Rows.{IsKnown, IsClassFault, AreDefinedMarks, IsClassIndex, IsParentIndex, IsSourceIndex, HasInterfaces};
ghost use Rattle.dexclass.specs.internal.Checked.{AreSeen, IsInterface, AreInterfacesIn, AreCheckedLists, IsParentBefore};

use crate::checked_lists::{CheckedLists, Range16};
use crate::class_types::{defined, is_class, mark, no_marks};
use crate::classes::NO_INDEX;
use crate::reading::at_row;
use dexhead::{Condition, Frame, Table, u16_at};
use dexmembers::ClassDef;
use dexpool::{ItemFault, Pools, ReadFault, SymbolKind, type_list_len};
use std::alloc::{AllocError, Global};

// A list of at least this many numbers is remembered once it is checked. Pieces of this length are checked at a time.
const LONG_LIST: usize = 1024;

/// What is known of a file before one of its class rows is checked.
#[derive(Clone, Copy)]
pub(crate) struct KnownFile<'j, 'a> {
    pub(crate) frame: &'j Frame<'a>,
    pub(crate) pools: &'j Pools<'a>,
    /// For each type whether a class row is of it.
    pub(crate) defined: &'j [bool],
    /// For each type whether a class row before the one that is checked is of it.
    pub(crate) seen: &'j [bool],
}

impl<'j, 'a> KnownFile<'j, 'a> {
    // Returns whether the index is that of a class.
    fn is_class(&self, index: u32) -> bool
        requires { IsKnown self.now.frame.now self.now.pools.now self.now.defined.now }
        ensures { IsTrue result ↔ IsClassIndex self.now.frame.now index }
    {
        self.pools.numbering().is_numbering();
        (index as usize) < self.pools.len(SymbolKind::Typ) && is_class(self.pools.typ(index))
    }

    // Returns whether the index of a source name is none or that of a text.
    fn is_source(&self, index: u32) -> bool
        requires { IsKnown self.now.frame.now self.now.pools.now self.now.defined.now }
        ensures { IsTrue result ↔ IsSourceIndex self.now.frame.now index }
    {
        index == NO_INDEX || (index as usize) < self.pools.len(SymbolKind::Text)
    }

    // Returns whether a type that the file defines is defined before row `r`.
    fn is_before(&self, index: u32) -> bool
        requires known { IsKnown self.now.frame.now self.now.pools.now self.now.defined.now }
        requires index { index < table_size self.now.frame.now TypeIds }
        requires seen { (r : ℕ) × AreDefinedMarks self.now.frame.now r self.now.seen.now }
        ensures { (r : ℕ) → AreSeen self.now r self.now.seen.now
            → IsTrue result ↔ IsDefinedBefore self.now.frame.now r index }
    {
        !self.defined[index as usize] || self.seen[index as usize]
    }

    // Returns whether the index is that of a class, which is defined before row `r` if the file defines it.
    fn is_class_before(&self, index: u32) -> bool
        requires known { IsKnown self.now.frame.now self.now.pools.now self.now.defined.now }
        requires seen { (r : ℕ) × AreDefinedMarks self.now.frame.now r self.now.seen.now }
        ensures { (r : ℕ) → AreSeen self.now r self.now.seen.now
            → IsTrue result ↔ IsInterface self.now r index }
    {
        self.is_class(index) && self.is_before(index)
    }

    // Returns whether each number of two bytes in a range of the file is the index of a class, which is defined before
    // row `r` if the file defines it.
    fn are_interfaces(&self, range: Range16) -> bool
        requires known { IsKnown self.now.frame.now self.now.pools.now self.now.defined.now }
        requires seen { (r : ℕ) × AreDefinedMarks self.now.frame.now r self.now.seen.now }
        requires within { 2 * range.end ≤ length self.now.frame.now }
        ensures { (r : ℕ) → AreSeen self.now r self.now.seen.now
            → IsTrue result ↔ AreInterfacesIn self.now.frame.now r range.start range.end }
    {
        let bytes = self.frame.bytes();
        for i in range.start..range.end {
            let index = u32::from(u16_at(bytes, 2 * i));
            if !self.is_class_before(index) {
                return false;
            }
        }
        true
    }

    // Returns whether each number of a list is so. Where class rows share long lists, or these overlap, what was
    // checked of them for one row is not read again for the next: a class that is defined before a row is so before the
    // rows after it.
    fn is_class_list(&self, checked: &mut CheckedLists, list: Range16) -> Result<bool, AllocError>
        requires known { IsKnown self.now.frame.now self.now.pools.now self.now.defined.now }
        requires seen { (r : ℕ) × AreDefinedMarks self.now.frame.now r self.now.seen.now }
        requires within { 2 * list.end ≤ length self.now.frame.now }
        ensures list { IfOk result (λ are. (r : ℕ) → AreSeen self.now r self.now.seen.now
            → AreCheckedLists self.now.frame.now r checked.old
            → IsTrue are ↔ AreInterfacesIn self.now.frame.now r list.start list.end) }
        ensures checked { OnOk result ((r : ℕ) → AreSeen self.now r self.now.seen.now
            → AreCheckedLists self.now.frame.now r checked.old
            → AreCheckedLists self.now.frame.now r checked.new) }
    {
        if list.end.saturating_sub(list.start) < LONG_LIST {
            return Ok(self.are_interfaces(list));
        }
        let mut start = checked.end_from(list.start);
        while start < list.end {
            let end = list.end.min(start + LONG_LIST);
            if !self.are_interfaces(Range16 { start, end }) {
                return Ok(false);
            }
            start = checked.end_from(end);
        }
        checked.add(list)?;
        Ok(true)
    }

    // Returns whether the offset is 0 or that of a list of interfaces.
    fn has_interfaces(&self, checked: &mut CheckedLists, off: u32) -> Result<bool, AllocError>
        requires known { IsKnown self.now.frame.now self.now.pools.now self.now.defined.now }
        requires seen { (r : ℕ) × AreDefinedMarks self.now.frame.now r self.now.seen.now }
        ensures list { IfOk result (λ has. (r : ℕ) → AreSeen self.now r self.now.seen.now
            → AreCheckedLists self.now.frame.now r checked.old
            → IsTrue has ↔ HasInterfaces self.now.frame.now r off) }
        ensures checked { OnOk result ((r : ℕ) → AreSeen self.now r self.now.seen.now
            → AreCheckedLists self.now.frame.now r checked.old
            → AreCheckedLists self.now.frame.now r checked.new) }
    {
        if off == 0 {
            return Ok(true);
        }
        let Some(count) = type_list_len(self.frame, off) else {
            return Ok(false);
        };
        let start = off as usize / 2 + 2;
        let end = start + count as usize;
        self.is_class_list(checked, Range16 { start, end })
    }

    // Returns whether the index of a superclass is none or that of a class, which is defined before row `r` if the file
    // defines it.
    fn is_parent(&self, index: u32) -> bool
        requires known { IsKnown self.now.frame.now self.now.pools.now self.now.defined.now }
        requires seen { (r : ℕ) × AreDefinedMarks self.now.frame.now r self.now.seen.now }
        ensures { (r : ℕ) → AreSeen self.now r self.now.seen.now → IsTrue result
            ↔ (IsParentIndex self.now.frame.now index × IsParentBefore self.now r index) }
    {
        index == NO_INDEX || self.is_class_before(index)
    }

    // Returns whether the class row meets condition 16, where the types of the rows before it are seen.
    fn holds(&self, checked: &mut CheckedLists, row: &ClassDef) -> Result<bool, AllocError>
        requires known { IsKnown self.now.frame.now self.now.pools.now self.now.defined.now }
        requires seen { (r : ℕ) × AreDefinedMarks self.now.frame.now r self.now.seen.now }
        ensures holds { IfOk result (λ holds. (r : ℕ) → AreSeen self.now r self.now.seen.now
            → AreCheckedLists self.now.frame.now r checked.old
            → IsClassDef self.now.frame.now r row.now
            → IsTrue holds ↔ HasClass self.now.frame.now r) }
        ensures checked { OnOk result ((r : ℕ) → AreSeen self.now r self.now.seen.now
            → AreCheckedLists self.now.frame.now r checked.old
            → AreCheckedLists self.now.frame.now r checked.new) }
    {
        if !self.is_class(row.class_idx) {
            return Ok(false);
        }
        if self.seen[row.class_idx as usize] {
            return Ok(false);
        }
        if !self.is_parent(row.superclass_idx) {
            return Ok(false);
        }
        if !self.is_source(row.source_file_idx) {
            return Ok(false);
        }
        self.has_interfaces(checked, row.interfaces_off)
    }
}

/// Checks condition 16 at each class row, from row 0 on.
///
/// Error: `Refused` with the least row that does not meet it; `Memory` if an allocation failed.
///
/// Source: "class_def_item".
pub(crate) fn check_classes(
    alloc: Global,
    frame: &Frame<'_>,
    pools: &Pools<'_>,
) -> Result<(), ReadFault>
    requires pools { ArePools frame.now pools.now }
    requires before { HoldBelow 16 frame.now }
    ensures accepted { OnOk result (HoldBelow 17 frame.now) }
    ensures refused { IfErr result (IsClassFault frame.now) }
{
    let defined = defined(alloc, frame)?;
    let mut seen = no_marks(alloc, frame)?;
    let mut checked = CheckedLists::none(alloc);
    for r in 0..frame.size(Table::ClassDefs) {
        let row = ClassDef::at(frame, r);
        let known_file = KnownFile {
            frame,
            pools,
            defined: &defined,
            seen: &seen,
        };
        if !known_file.holds(&mut checked, &row)? {
            return Err(at_row(ItemFault::Refused(Condition::Classes as u8), r));
        }
        mark(row.class_idx, &mut seen);
    }
    Ok(())
}
