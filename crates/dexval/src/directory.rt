//! The annotations of a class and its members.

ghost use Rattle.std.specs.Prelude.{◌≡◌, All, IfOk, Some};
ghost use Rattle.dexval.specs.Code.{set_of, directory_of, member_sets};
ghost use Rattle.dexval.specs.Shared.{sets_of_members, shared_directory_of, HoldsItsPlaces};
ghost use Rattle.dexval.specs.Tables.{IsPlaceIn, set_at};

use crate::{AnnotationSet, SetTable};
use std::alloc::{AllocError, Global};

/// The annotations of a class, and for each annotated member a pair of its number and its annotations, in the order
/// of the numbers.
///
/// Source: "annotations_directory_item".
#[derive(Debug, Drop)]
pub struct Directory {
    /// The annotations of the class itself.
    pub own: AnnotationSet,
    /// The annotations of fields.
    pub fields: Vec<(u32, AnnotationSet)>,
    /// The annotations of methods.
    pub methods: Vec<(u32, AnnotationSet)>,
    /// The annotations of the parameters of methods, a set for each parameter.
    pub parameters: Vec<(u32, Vec<AnnotationSet>)>,
}

/// The annotations of a class, and for each annotated member a pair of its number and the place of its annotations, in
/// the order of the numbers. A set or a list that several members share is kept once.
///
/// Source: "annotations_directory_item".
#[derive(Drop)]
pub struct SharedDirectory {
    /// The sets, and the lists of sets.
    pub table: SetTable,
    /// The place of the class's own set, or `None` if it has no annotation.
    pub own: Option<u32>,
    /// The places of the sets of fields.
    pub fields: Vec<(u32, u32)>,
    /// The places of the sets of methods.
    pub methods: Vec<(u32, u32)>,
    /// The places of the lists of the parameters of methods, a set for each parameter.
    pub parameters: Vec<(u32, u32)>,
}

/// How many members of each kind a directory annotates.
///
/// Source: "annotations_directory_item".
#[derive(Clone, Copy, Debug)]
pub struct MemberCounts {
    /// Fields.
    pub fields: u32,
    /// Methods.
    pub methods: u32,
    /// Methods with annotated parameters.
    pub parameters: u32,
}

// The number of each member, and an item of it.
type Members<T> = Vec<(u32, T)>;

impl SetTable {
    // The set at a place, with annotations of its own.
    fn copied_set(&self, alloc: Global, place: Option<u32>) -> Result<AnnotationSet, AllocError>
        requires { IsPlaceIn self.now.sets place }
        ensures { IfOk result (λ set. set_of set ≡ set_at self.now.sets place) }
    {
        self.set(place)
            .map_or_else(|| Ok(AnnotationSet::empty(alloc)), |set| set.copy())
    }

    // Members with their sets instead of the places.
    fn copied_sets(&self, members: &Members<u32>) -> Result<Members<AnnotationSet>, AllocError>
        requires { All (λ e. IsPlaceIn self.now.sets (Some e.1)) members.now.items }
        ensures { IfOk result (λ copies. sets_of_members self.now members.now.items
            ≡ member_sets copies.items) }
    {
        let alloc = *members.allocator();
        let mut copies = Vec::with_capacity(alloc, members.len())?;
        for member in members {
            let set = self.copied_set(alloc, Some(member.1))?;
            copies.push((member.0, set))?;
        }
        Ok(copies)
    }
}

impl SharedDirectory {
    /// The same directory, with sets of its own for each member.
    ///
    /// Condition: each place is one of the table's.
    pub(crate) fn unshared(&self) -> Result<Directory, AllocError>
        requires { HoldsItsPlaces self.now }
        ensures { IfOk result (λ directory. directory_of directory ≡ shared_directory_of self.now) }
    {
        let alloc = *self.parameters.allocator();
        let mut parameters = Vec::with_capacity(alloc, self.parameters.len())?;
        for member in &self.parameters {
            let places = self.table.list(Some(member.1));
            let mut sets = Vec::with_capacity(alloc, places.len())?;
            for place in places {
                sets.push(self.table.copied_set(alloc, *place)?)?;
            }
            parameters.push((member.0, sets))?;
        }
        Ok(Directory {
            own: self.table.copied_set(alloc, self.own)?,
            fields: self.table.copied_sets(&self.fields)?,
            methods: self.table.copied_sets(&self.methods)?,
            parameters,
        })
    }
}
