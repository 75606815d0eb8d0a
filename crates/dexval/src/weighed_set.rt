//! Sets of annotations with their weights.

ghost use Rattle.std.specs.Prelude.{◌≡◌, ◌-◌, ◌^◌, min, IfOk};
ghost use Rattle.dexspec.specs.Mentions.{Mentions};
ghost use Rattle.dexval.specs.Code.{set_of};
ghost use Rattle.dexval.specs.Directories.{set_weight_in};
ghost use Rattle.dexval.specs.Tables.{IsRemappedSet};

use crate::AnnotationSet;
use dexpool::Remap;
use std::alloc::AllocError;
use std::marker::Model;

/// A set that several tables have, with its weight, so that it is weighed once. Contracts see the set.
#[derive(Drop)]
pub(crate) struct WeighedSet {
    set: AnnotationSet,
    weight: u64,
}

impl Model for WeighedSet {
    ghost use Rattle.std.specs.Prelude.{◌≡◌, ◌-◌, ◌^◌, min};
    ghost use Rattle.std.specs.Coded.{codes};
    ghost use Rattle.dexval.specs.Code.{set_of};
    ghost use Rattle.dexval.specs.Numbered.{NumberedSet};
    ghost use Rattle.dexval.specs.Spelled.{numbered_set_weight};
    ghost use Rattle.dexval.specs.Stored.{elements_code};

    ghost Value = { NumberedSet };

    ghost coded = { Prim.hlevel (codes, elements_code) };

    ghost view = { λ w. set_of w.set };

    ghost invariant = { λ w. w.weight ≡ min (2 ^ 64 - 1) (numbered_set_weight (set_of w.set)) };
}

impl WeighedSet {
    /// A set with its weight.
    pub(crate) fn of(set: AnnotationSet) -> WeighedSet
        ensures { result ≡ set_of set }
    {
        let weight = set.weight();
        WeighedSet { set, weight }
    }

    /// The set.
    pub(crate) fn set(&self) -> &AnnotationSet
        ensures { set_of result.now ≡ self.now }
    {
        &self.set
    }

    /// The weight of the set, or 2^64 - 1 if it weighs more.
    pub(crate) fn weight(&self) -> u64
        ensures { (m : Mentions) → result ≡ min (2 ^ 64 - 1) (set_weight_in m self.now) }
    {
        self.weight
    }

    /// A copy of the set with each number of a symbol replaced by the one that it maps to, if each has an image below
    /// 2^32. Error: an allocation failed.
    pub(crate) fn remapped_copy(&self, remap: &Remap) -> Result<WeighedSet, AllocError>
        ensures { IfOk result (λ copy. IsRemappedSet remap.now self.now copy) }
    {
        Ok(WeighedSet {
            set: self.set.remapped_copy(remap)?,
            weight: self.weight,
        })
    }
}
