//! The copies of classes in several files, by the names of the classes.

ghost use Rattle.std.specs.Prelude.{◌≡◌, ◌++◌, ◌∷◌, [], OnOk, IfOk};
ghost use Rattle.std.proofs.Common.{rules};
ghost use Rattle.std.specs.Cmp.{partial_order_from_own_ties};
ghost use Rattle.std.specs.Cmp.Rules.{comparing};
ghost use Rattle.dexspec.specs.Texts.{Text as Units, text_cmp, same_text};
ghost use Rattle.std.specs.Ordering.{as_partial_cmp};
ghost use Rattle.std.specs.BTreeMap.{IsOrdered};
ghost use Rattle.dexruns.specs.Comparisons.{differ, has_old, has_new};
ghost use Rattle.dexruns.specs.internal.CopyTables.{copies_at, copies_list, added};

use dexstr::{Name, Text};
use std::alloc::{AllocError, Global};
use std::cmp::Ordering;
use std::collections::BTreeMap;
use std::marker::Model;

// The name of a class as a key, in the order of its units.
#[derive(Drop)]
pub(crate) struct ClassName {
    name: Name,
}

impl Model for ClassName {
    ghost use Rattle.std.specs.Prelude.{ℕ, List};

    ghost Value = { List ℕ };

    ghost view = { λ key. key.name };
}

impl ClassName {
    /// The name as a text.
    pub(crate) fn text(&self) -> Text<'_>
        ensures { result ≡ self.now }
    {
        self.name.text()
    }
}

impl PartialEq for ClassName {
    ghost eq = { same_text };

    ghost laws = { Prim.search (comparing, rules) };

    fn eq(&self, other: &Self) -> bool {
        self.text() == other.text()
    }
}

impl Eq for ClassName {
    ghost laws = { Prim.search (comparing, rules) };
}

impl Ord for ClassName {
    ghost cmp = { text_cmp };

    ghost total = { Prim.search (comparing, rules) };

    ghost matches_partial_cmp = { Prim.search (comparing, rules) };

    ghost matches_eq = { Prim.search (comparing, rules) };

    fn cmp(&self, other: &Self) -> Ordering {
        self.text().cmp(&other.text())
    }
}

impl PartialOrd for ClassName {
    ghost partial_cmp = { as_partial_cmp text_cmp };

    ghost laws = { partial_order_from_own_ties (Prim.search (comparing, rules)) (Prim.search (comparing, rules)) };

    fn partial_cmp(&self, other: &Self) -> Option<Ordering> {
        Some(self.cmp(other))
    }
}

/// A copy of a class.
#[derive(Clone, Copy, Debug, PartialEq, Eq)]
pub(crate) struct ClassCopy {
    /// The number of the file that has it.
    pub(crate) file: usize,
    /// Its digest.
    pub(crate) digest: [u8; 20],
}

/// The copies of a class in files, in the order of the files.
#[derive(Drop)]
pub(crate) struct Copies {
    pub(crate) first: ClassCopy,
    pub(crate) others: Vec<ClassCopy>,
}

// Returns whether some of the copies is in one of the first files, of which there are `old`.
fn some_old(copies: &[ClassCopy], old: usize) -> bool
    ensures { result ≡ has_old old copies.now }
{
    copies.iter().any(|copy| copy.file < old)
}

// Returns whether some of the copies is in none of the first files, of which there are `old`.
fn some_new(copies: &[ClassCopy], old: usize) -> bool
    ensures { result ≡ has_new old copies.now }
{
    copies.iter().any(|copy| copy.file >= old)
}

impl Copies {
    /// Returns whether some copy has another digest than the first.
    pub(crate) fn differ(&self) -> bool
        ensures { result ≡ differ (copies_list self.now) }
    {
        let first = self.first.digest;
        self.others.iter().any(|copy| copy.digest != first)
    }

    /// Returns whether some copy is in one of the first files, of which there are `old`.
    pub(crate) fn has_old(&self, old: usize) -> bool
        ensures { result ≡ has_old old (copies_list self.now) }
    {
        self.first.file < old || some_old(self.others.as_slice(), old)
    }

    /// Returns whether some copy is in none of the first files, of which there are `old`.
    pub(crate) fn has_new(&self, old: usize) -> bool
        ensures { result ≡ has_new old (copies_list self.now) }
    {
        self.first.file >= old || some_new(self.others.as_slice(), old)
    }
}

/// The copies of each class in files.
#[derive(Drop)]
pub(crate) struct CopyTable {
    pub(crate) classes: BTreeMap<ClassName, Copies>,
}

impl CopyTable {
    /// A table without classes.
    pub(crate) fn new(alloc: Global) -> CopyTable
        ensures { (name : Units) → copies_at result.classes name ≡ [] }
    {
        CopyTable {
            classes: BTreeMap::new(alloc),
        }
    }

    /// Adds a copy of the class of a name, after those that there are.
    ///
    /// Error: an allocation failed.
    pub(crate) fn add(
        &mut self,
        alloc: Global,
        name: &Text<'_>,
        copy: ClassCopy,
    ) -> Result<(), AllocError>
        ensures { OnOk result
            ((n : Units) → copies_at self.new.classes n ≡ copies_at self.old.classes n
            ++ added name.now copy n) }
    {
        let key = ClassName {
            name: Name::of(alloc, name)?,
        };
        if let Some(copies) = self.classes.get_mut(&key) {
            copies.others.push(copy)?;
            return Ok(());
        }
        let copies = Copies {
            first: copy,
            others: Vec::new(alloc),
        };
        self.classes.insert(key, copies)?;
        Ok(())
    }
}
