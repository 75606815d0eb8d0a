//! The parts of class rows beside their class data, read or only checked: annotations, code and static values.

ghost use Rattle.std.specs.Prelude.{◌≡◌, ◌≢◌, [], length, IfErr, IfOk, OnOk};
ghost use Rattle.dexpool.specs.declared.faults.ItemFault.TheVariants.{Refused};
ghost use Rattle.dexval.specs.CheckedSets.{AreChecked};
ghost use Rattle.dexval.specs.CheckedStatics.{AreCheckedStatics};
ghost use Rattle.dexval.specs.Reading.{AreStaticsAt, IsStaticsFault};
ghost use Rattle.dexval.specs.Results.{HasStaticsShape};
ghost use Rattle.dexval.specs.Shared.{shared_directory_of};
ghost use Rattle.dexval.specs.SharedItems.{AreSharedIn};
ghost use Rattle.dexmembers.specs.Contents.{AreHeld};
ghost use Rattle.dexmembers.specs.SharedMembers.{AreSharedMembers};
ghost use Rattle.dexmembers.specs.internal.RowReaders.{IsFile};
ghost use Rattle.dexmembers.specs.Checking.{WeighsAnnotations, WeighsValues};
ghost use Rattle.dexmembers.specs.TooHeavy.{IfTooHeavy};
ghost use Rattle.dexmembers.specs.internal.RowParts.{AreEntered, IsHeldDirectory, ReadsAnnotations, RefusesAnnotations, RefusesAnnotationsWithin, IsLight, ReadsContents, RefusesParts};
ghost use Rattle.dexmembers.specs.internal.StaticValues.{ReadsValues, RefusesValues, RefusesValuesWithin};
ghost use Rattle.dexmembers.specs.StaticValues.{values_in};

use crate::attaching::attach_fields;
use crate::class_data::ClassData;
use crate::class_def::ClassDef;
use crate::members::Contents;
use crate::naming::names_declared;
use crate::shared_members::SharedMembers;
use crate::static_values::StaticValues;
use dexhead::{Condition, Frame};
use dexinsn::Scratch;
use dexpool::{ItemFault, Pools};
use dexval::{
    CheckedSets, CheckedStatics, SetTable, SharedDirectory, SharedItems, StaticsShape,
    WeighedValues, check_directory, checked_statics_at, item_key, read_shared_directory_with,
    shared_statics_at,
};
use std::alloc::Global;

/// The fault of a row, or of a part of it, that weighs more than it may.
pub(crate) fn too_heavy() -> ItemFault
    ensures { result ≡ Refused 23 }
{
    ItemFault::Refused(Condition::Weight as u8)
}

/// Reads or checks the parts of a class row of a file. It has the file's frame and pools, the members that the row
/// declares, the allocator for what is read, and the most that a part that is read may weigh.
#[derive(Clone, Copy)]
pub(crate) struct RowReader<'s, 'f, 'p> {
    pub(crate) alloc: Global,
    pub(crate) frame: &'s Frame<'f>,
    pub(crate) pools: &'s Pools<'p>,
    pub(crate) row: &'s ClassDef,
    pub(crate) declared: &'s ClassData,
    pub(crate) most: u64,
}

// The directory of a row that has none.
fn no_directory(alloc: Global) -> SharedDirectory
    ensures none { shared_directory_of result
        ≡ record { own = []; fields = []; methods = []; parameters = [] } }
    ensures entered { AreEntered result }
    ensures held { IsHeldDirectory result }
{
    SharedDirectory {
        table: SetTable::empty(alloc),
        own: None,
        fields: Vec::new(alloc),
        methods: Vec::new(alloc),
        parameters: Vec::new(alloc),
    }
}

impl<'f> RowReader<'_, 'f, '_> {
    /// Checks the annotations of the class and of its members, and returns what their sets weigh, or 2^64 - 1 where that
    /// is more: 0 where the row's offset is 0. What is checked already is not checked again.
    ///
    /// Condition: the row declares the members; what is checked already is of this file. Error: `Refused(22)` exactly
    /// where no annotations_directory_item is there, or it names a member that is not declared; `Memory` where an
    /// allocation failed.
    ///
    /// Source: "class_def_item", the field `annotations_off`, and "annotations_directory_item".
    pub(crate) fn check_annotations(&self, checked: &mut CheckedSets) -> Result<u64, ItemFault>
        requires checked { IsFile self.now
            → AreChecked self.now.frame.now self.now.pools.now checked.old }
        ensures checked { IsFile self.now
            → OnOk result (AreChecked self.now.frame.now self.now.pools.now checked.new) }
        ensures weight { WeighsAnnotations self.now.frame.now self.now.pools.now
            self.now.row.now.annotations_off self.now.declared.now result }
        ensures refused { RefusesAnnotations self.now.frame.now self.now.pools.now
            self.now.row.now.annotations_off self.now.declared.now result }
    {
        self.pools.numbering().is_numbering();
        let off = self.row.annotations_off;
        if off == 0 {
            return Ok(0);
        }
        let shape = check_directory(self.frame, self.pools, off, checked)?;
        if !names_declared(self.frame, off, self.declared) {
            return Err(ItemFault::Refused(Condition::Annotations as u8));
        }
        Ok(shape.weight)
    }

    /// Reads the annotations of the class and of its members, or none where the row's offset is 0. Their sets are shared,
    /// if items are.
    ///
    /// Condition: the row declares the members; the items are of this file. Error: `Refused(22)` if no
    /// annotations_directory_item is there, or it names a member that is not declared; `Refused(23)` if its sets weigh
    /// more than `most`, and what comes after the set by which they do is not looked at; `Memory` where an allocation
    /// failed.
    ///
    /// Source: "class_def_item", the field `annotations_off`, and "annotations_directory_item".
    fn read_annotations(
        &self,
        items: &mut Option<SharedItems>,
    ) -> Result<SharedDirectory, ItemFault>
        requires { IsFile self.now
            → AreSharedIn self.now.frame.now self.now.pools.now items.old }
        ensures items { IsFile self.now
            → OnOk result (AreSharedIn self.now.frame.now self.now.pools.now items.new) }
        ensures read { ReadsAnnotations self.now
            self.now.row.now.annotations_off self.now.declared.now result }
        ensures within { IsFile self.now → IfOk result (IsLight self.now) }
        ensures held { IfOk result IsHeldDirectory }
        ensures refused { RefusesAnnotationsWithin self.now
            self.now.row.now.annotations_off self.now.declared.now result }
    {
        self.pools.numbering().is_numbering();
        let off = self.row.annotations_off;
        if off == 0 {
            return Ok(no_directory(self.alloc));
        }
        let directory = read_shared_directory_with(
            self.alloc, self.frame, self.pools, off, self.most, items,
        )?;
        if !names_declared(self.frame, off, self.declared) {
            return Err(ItemFault::Refused(Condition::Annotations as u8));
        }
        Ok(directory)
    }

    // What static values of a shape weigh. Error: there are more than the row declares static fields.
    fn weight_of_values(&self, shape: StaticsShape) -> Result<u64, ItemFault>
        requires { self.now.row.now.static_values_off ≢ 0 }
        ensures weight { HasStaticsShape self.now.frame.now self.now.row.now.static_values_off
            self.now.pools.now shape → WeighsValues self.now.frame.now self.now.pools.now
            self.now.row.now.static_values_off
            (length self.now.declared.now.static_fields.items) result }
        ensures refused { HasStaticsShape self.now.frame.now self.now.row.now.static_values_off
            self.now.pools.now shape → RefusesValues self.now.frame.now self.now.pools.now
            self.now.row.now.static_values_off
            (length self.now.declared.now.static_fields.items) result }
    {
        if shape.count as usize > self.declared.static_fields.len() {
            return Err(ItemFault::Refused(Condition::Values as u8));
        }
        Ok(shape.weight)
    }

    /// Checks the values that the static fields of the class begin with, and returns what they weigh: 0 where the row's
    /// offset is 0. What is checked already is not checked again.
    ///
    /// Condition: what is checked already is of this file. Error: `Refused(21)` exactly where no encoded_array_item is
    /// there, or it has more values than the row declares static fields; `Memory` where an allocation failed.
    ///
    /// Source: "class_def_item", the field `static_values_off`, and "encoded_array_item".
    pub(crate) fn check_static_values(&self, checked: &mut CheckedStatics) -> Result<u64, ItemFault>
        requires { IsFile self.now
            → AreCheckedStatics self.now.frame.now self.now.pools.now checked.old }
        ensures checked { IsFile self.now
            → OnOk result (AreCheckedStatics self.now.frame.now self.now.pools.now checked.new) }
        ensures weight { WeighsValues self.now.frame.now self.now.pools.now
            self.now.row.now.static_values_off
            (length self.now.declared.now.static_fields.items) result }
        ensures refused { RefusesValues self.now.frame.now self.now.pools.now
            self.now.row.now.static_values_off
            (length self.now.declared.now.static_fields.items) result }
    {
        let off = self.row.static_values_off;
        if off == 0 {
            return Ok(0);
        }
        let shape = checked_statics_at(self.frame, self.pools, off, checked)?;
        self.weight_of_values(shape)
    }

    // The static values at an offset: in memory of their own, or in that of the shared items, if there are some.
    fn values_at(
        &self,
        off: u32,
        items: &mut Option<SharedItems>,
    ) -> Result<StaticValues, ItemFault>
        requires { IsFile self.now
            → AreSharedIn self.now.frame.now self.now.pools.now items.old }
        ensures items { IsFile self.now
            → OnOk result (AreSharedIn self.now.frame.now self.now.pools.now items.new) }
        ensures values { IsFile self.now → IfOk result
            (λ values. AreStaticsAt self.now.frame.now off self.now.pools.now (values_in values)) }
        ensures refused { IsFile self.now → IfErr result (IsStaticsFault self.now.frame.now off) }
    {
        let key = item_key(self.frame, off);
        match items {
            Some(items) => {
                let values = shared_statics_at(self.frame, self.pools, off, items)?;
                Ok(StaticValues::shared_by_classes(key, values))
            }
            None => {
                let values = WeighedValues::read(self.alloc, self.frame, self.pools, off)?;
                Ok(StaticValues::own(key, values))
            }
        }
    }

    /// Reads the values that the static fields of the class begin with, or none where the row's offset is 0. They are
    /// shared, if items are. What is checked already is not checked again.
    ///
    /// Condition: the items and the values that are checked already are of this file. After success and after
    /// `Refused(23)` those that are checked then are too. Error: `Refused(21)` exactly where no encoded_array_item is
    /// there, or it has more values than the row declares static fields; `Refused(23)` exactly where they weigh more than
    /// `most`; `Memory` where an allocation failed.
    ///
    /// Source: "class_def_item", the field `static_values_off`, and "encoded_array_item".
    fn read_static_values(
        &self,
        items: &mut Option<SharedItems>,
        checked: &mut CheckedStatics,
    ) -> Result<StaticValues, ItemFault>
        requires items { IsFile self.now
            → AreSharedIn self.now.frame.now self.now.pools.now items.old }
        requires checked { IsFile self.now
            → AreCheckedStatics self.now.frame.now self.now.pools.now checked.old }
        ensures items { IsFile self.now
            → OnOk result (AreSharedIn self.now.frame.now self.now.pools.now items.new) }
        ensures checked { IsFile self.now
            → OnOk result (AreCheckedStatics self.now.frame.now self.now.pools.now checked.new) }
        ensures heavy { IsFile self.now → IfErr result (IfTooHeavy
            (AreCheckedStatics self.now.frame.now self.now.pools.now checked.new)) }
        ensures read { ReadsValues self.now self.now.row.now.static_values_off
            (length self.now.declared.now.static_fields.items) result }
        ensures refused { RefusesValuesWithin self.now self.now.row.now.static_values_off
            (length self.now.declared.now.static_fields.items) result }
    {
        let off = self.row.static_values_off;
        if off == 0 {
            return Ok(StaticValues::own(0, WeighedValues::none(self.alloc)));
        }
        let shape = checked_statics_at(self.frame, self.pools, off, checked)?;
        let weight = self.weight_of_values(shape)?;
        if weight > self.most {
            return Err(too_heavy());
        }
        self.values_at(off, items)
    }

    /// Reads what the class row declares: the members of its class data, with what is at the row beside it. Returns it
    /// with the weight of the code, or 2^64 - 1 where that is more.
    ///
    /// Condition: the row declares the members; what classes share and the static values that are checked already are of
    /// this file. After success and after `Refused(23)` those that are checked then are too. Error: `Refused` with a
    /// number from 18 to 22, a condition that fails at the row; `Refused(23)` at the part that weighs more than `most`,
    /// and what comes after it is not looked at; `Memory` where an allocation failed.
    ///
    /// Source: "class_def_item", the fields `annotations_off` and `static_values_off`, and "encoded_method format", the
    /// field `code_off`.
    pub(crate) fn read_contents(
        &self,
        shared: &mut SharedMembers<'f>,
        checked: &mut CheckedStatics,
    ) -> Result<(Contents<'f>, u64), ItemFault>
        requires shared { IsFile self.now
            → AreSharedMembers self.now.frame.now self.now.pools.now shared.old }
        requires checked { IsFile self.now
            → AreCheckedStatics self.now.frame.now self.now.pools.now checked.old }
        ensures shared { IsFile self.now
            → OnOk result (AreSharedMembers self.now.frame.now self.now.pools.now shared.new) }
        ensures checked { IsFile self.now
            → OnOk result (AreCheckedStatics self.now.frame.now self.now.pools.now checked.new) }
        ensures heavy { IsFile self.now → IfErr result (IfTooHeavy
            (AreCheckedStatics self.now.frame.now self.now.pools.now checked.new)) }
        ensures read { ReadsContents self.now self.now.row.now self.now.declared.now result }
        ensures held { IfOk result (λ x. AreHeld x.0) }
        ensures refused { RefusesParts self.now self.now.row.now self.now.declared.now result }
    {
        self.pools.numbering().is_numbering();
        let (alloc, declared) = (self.alloc, self.declared);
        let mut scratch = Scratch::new(alloc);
        let directory = self.read_annotations(&mut shared.items)?;
        let (sets, lists) = (&directory.methods, &directory.parameters);
        let (direct_methods, direct_weight) = self.read_methods(
            &declared.direct_methods,
            sets,
            lists,
            &mut scratch,
            &mut shared.codes,
        )?;
        let (virtual_methods, virtual_weight) = self.read_methods(
            &declared.virtual_methods,
            sets,
            lists,
            &mut scratch,
            &mut shared.codes,
        )?;
        let static_values = self.read_static_values(&mut shared.items, checked)?;
        let sets = &directory.fields;
        let contents = Contents {
            static_fields: attach_fields(alloc, &declared.static_fields, sets)?,
            instance_fields: attach_fields(alloc, &declared.instance_fields, sets)?,
            table: directory.table,
            set: directory.own,
            direct_methods,
            virtual_methods,
            static_values,
        };
        Ok((contents, direct_weight.saturating_add(virtual_weight)))
    }
}
