//! Annotation sets, of which equal ones are written once.

ghost use Rattle.std.specs.Prelude.{◌≡◌, ◌+◌, ◌^◌, ◌≤◌, length, drop, slice_index, take, IfOk, OnOk};
ghost use Rattle.std.specs.List.{flat_map};
ghost use Rattle.dexmembers.specs.Numbered.{methods_of, AreKnownMembers, IsKnownMethod};
ghost use Rattle.dexlayout.specs.internal.Encoding.{encode_uses, no_items_from};
ghost use Rattle.dexlayout.specs.internal.Collecting.{sets_of_method, sets_of_class, parts_of_methods, parts_of_class, collect_own, collect_method, collect_methods, collect_class};
ghost use Rattle.dexlayout.specs.Laid.{AreSets};
ghost use Rattle.dexlayout.specs.internal.OffsetLists.{annotation_counts, offset_lists, set_item, total};
ghost use Rattle.dexlayout.specs.internal.Placing.{CanPlaceSets, AreSharedBy, HaveSets, PlacedSets, no_sets, HaveKnownSets};
ghost use Rattle.dexlayout.specs.internal.SharedUses.{field_uses, members_uses, method_uses, methods_uses};
ghost use Rattle.dexlayout.specs.internal.Adding.{AddsSet, AddsSets, AreKnownParameters, set_uses, AreKnownFields, AreKnownMethods};

use crate::input::{Input, method_at};
use crate::items::Items;
use crate::list_sharing::{ListShared, ListSharing};
use crate::runs::{Runs, RunsLeft};
use crate::use_numbers::UseOffsets;
use dexclass::Class;
use dexmembers::{Fields, Members, Method, Methods, ParameterSets};
use dexval::AnnotationSet;
use std::alloc::{AllocError, Global};
use std::marker::Model;

/// The annotation sets that are written, encoded, and the offset of each; and the offsets of the sets of classes, in
/// bytes from the start of the file, and 0 where a set is empty: the own set of each class, those of its fields, the
/// static ones first, those of its methods, the direct ones first, and those of the parameters of each method.
///
/// Source: "annotation_set_item".
#[derive(Drop)]
pub struct Sets {
    pub(crate) own: Vec<u32>,
    pub(crate) fields: Vec<u32>,
    pub(crate) methods: Vec<u32>,
    pub(crate) parameters: Runs,
    pub(crate) written: Items,
}

impl Model for Sets {
    ghost use Rattle.dexlayout.specs.Places.{SetPlaces};

    ghost Value = { SetPlaces };

    ghost view = { λ s. record { own = s.own.items; fields = s.fields.items; methods = s.methods.items; parameters = s.parameters; written = s.written } };
}

impl Sets {
    /// The offset of the own set of each class, or 0.
    pub fn own(&self) -> &[u32]
        ensures { result.now ≡ self.now.own }
    {
        &self.own
    }

    /// The offset of the set of each field of each class, the static ones first, or 0.
    pub fn fields(&self) -> &[u32]
        ensures { result.now ≡ self.now.fields }
    {
        &self.fields
    }

    /// The offset of the set of each method of each class, the direct ones first, or 0.
    pub fn methods(&self) -> &[u32]
        ensures { result.now ≡ self.now.methods }
    {
        &self.methods
    }

    /// The offset of each set of the parameters of each method of each class, or 0.
    pub(crate) fn parameters(&self) -> RunsLeft<'_>
        ensures { result ≡ self.now.parameters }
    {
        self.parameters.numbers()
    }

    /// The sets that are written, encoded, and the offset of each.
    pub fn written(&self) -> &Items
        ensures { result.now ≡ self.now.written }
    {
        &self.written
    }
}

impl Sets {
    // No offsets yet, and memory for the own sets of `classes` classes, beside the sets that are written.
    fn none(alloc: Global, classes: usize, written: Items) -> Result<Sets, AllocError>
        ensures { IfOk result (λ sets. sets ≡ no_sets written) }
    {
        Ok(Sets {
            own: Vec::with_capacity(alloc, classes)?,
            fields: Vec::new(alloc),
            methods: Vec::new(alloc),
            parameters: Runs::none(alloc),
            written,
        })
    }

    // Adds the next offsets, which are those of a class's own set and of the sets of its `fields` fields.
    fn collect_own(&mut self, fields: usize, offs: &mut UseOffsets<'_>) -> Result<(), AllocError>
        requires { 1 + fields ≤ length offs.old }
        ensures collected { OnOk result (self.new
            ≡ collect_own self.old (slice_index offs.old 0) (take fields (drop 1 offs.old))) }
        ensures left { OnOk result (offs.new ≡ drop (1 + fields) offs.old) }
    {
        self.own.push(offs.next())?;
        offs.append_to(fields, &mut self.fields)
    }

    // Adds the next offsets, which are those of a method's own set and of those of its `parameters` parameters.
    fn collect_method(
        &mut self,
        parameters: usize,
        offs: &mut UseOffsets<'_>,
    ) -> Result<(), AllocError>
        requires { 1 + parameters ≤ length offs.old }
        ensures collected { OnOk result (self.new
            ≡ collect_method self.old (take (1 + parameters) offs.old)) }
        ensures left { OnOk result (offs.new ≡ drop (1 + parameters) offs.old) }
    {
        self.methods.push(offs.next())?;
        offs.append_run_to(parameters, &mut self.parameters)
    }

    // Adds the next offsets, which are those of the sets of the methods of a class.
    fn collect_methods(
        &mut self,
        members: &Members<'_>,
        offs: &mut UseOffsets<'_>,
    ) -> Result<(), AllocError>
        requires { length (flat_map sets_of_method (methods_of members.now)) ≤ length offs.old }
        ensures collected { OnOk result (self.new
            ≡ collect_methods self.old (parts_of_methods (methods_of members.now) offs.old)) }
        ensures left { OnOk result (offs.new
            ≡ drop (length (flat_map sets_of_method (methods_of members.now))) offs.old) }
    {
        for i in 0..members.method_count() {
            let parameters = method_at(members, i).parameter_annotations();
            self.collect_method(parameters.len(), offs)?;
        }
        Ok(())
    }

    // Adds the next offsets, which are those of the sets of a class.
    fn collect_class(
        &mut self,
        class: &Class<'_>,
        offs: &mut UseOffsets<'_>,
    ) -> Result<(), AllocError>
        requires { length (sets_of_class class.now) ≤ length offs.old }
        ensures collected { OnOk result (self.new
            ≡ collect_class self.old (parts_of_class class.now offs.old)) }
        ensures left { OnOk result (offs.new
            ≡ drop (length (sets_of_class class.now)) offs.old) }
    {
        let members = class.members();
        self.collect_own(members.field_count(), offs)?;
        self.collect_methods(members, offs)
    }
}

// Encodes the sets that are written, from the offsets of all their annotations.
fn encode_written(input: &Input<'_, '_>, offs: &[u32], from: u32) -> Result<Items, AllocError>
    requires enough { total (annotation_counts input.now.written.now) ≤ length offs.now }
    requires fits { (encode_uses 4 (no_items_from from)
        (offset_lists set_item (annotation_counts input.now.written.now) offs.now)).places.end
        ≤ 2 ^ 30 }
    ensures { IfOk result (λ items. items ≡ encode_uses 4 (no_items_from from)
        (offset_lists set_item (annotation_counts input.now.written.now) offs.now)) }
{
    let mut items = Items::starting_at(input.alloc, from, input.written.len())?;
    let mut rest = offs;
    for set in input.written {
        let (own, others) = rest.split_at(set.annotations().len());
        items.put_offsets(own)?;
        rest = others;
    }
    Ok(items)
}

/// The annotation sets, which are after the class data, and the offsets of those of classes.
pub(crate) fn place_sets(
    input: &Input<'_, '_>,
    annotations: &Items,
    from: u32,
) -> Result<Sets, AllocError>
    requires place { CanPlaceSets input.now.classes.now annotations.now from }
    requires shared { AreSharedBy input.now.classes.now input.now.written.now
        input.now.numbers.now }
    ensures { IfOk result (PlacedSets AreSets input.now.classes.now annotations.now from) }
{
    let written = encode_written(input, annotations.places().offsets(), from)?;
    let offsets = Vec::from_slice(input.alloc, written.places().offsets())?;
    let mut sets = Sets::none(input.alloc, input.classes.len(), written)?;
    let mut rest = UseOffsets::of(input.numbers, &offsets);
    for class in input.classes {
        sets.collect_class(class, &mut rest)?;
    }
    Ok(sets)
}

impl<'p> ListSharing<&'p AnnotationSet> {
    // Adds a use of a set, which has no item where there is none or it is empty.
    fn add_set(&mut self, set: Option<&'p AnnotationSet>) -> Result<(), AllocError>
        ensures { AddsSet result self.old self.new set.entry }
    {
        match set {
            Some(set) if !set.is_empty() => self.add(Some(set)),
            _ => self.add(None),
        }
    }

    // Adds the uses of the sets of a method's parameters.
    fn add_sets(&mut self, sets: &ParameterSets<'p>) -> Result<(), AllocError>
        ensures { AddsSets result self.old self.new AreKnownParameters set_uses
            sets.now }
    {
        for i in 0..sets.len() {
            self.add_set(sets.get(i))?;
        }
        Ok(())
    }

    // Adds the uses of the sets of a method's parameters, as a list of their own if there are any.
    fn add_list(&mut self, sets: &ParameterSets<'p>) -> Result<(), AllocError>
        ensures { AddsSets result self.old self.new AreKnownParameters set_uses sets.now }
    {
        if sets.is_empty() {
            return Ok(());
        }
        self.end_list()?;
        self.add_sets(sets)?;
        self.end_list()
    }

    // Adds the uses of the sets of fields.
    fn add_fields(&mut self, fields: &Fields<'p>) -> Result<(), AllocError>
        ensures { AddsSets result self.old self.new AreKnownFields field_uses
            fields.now }
    {
        for i in 0..fields.len() {
            self.add_set(fields.get(i).annotations())?;
        }
        Ok(())
    }

    // Adds the uses of a method's own set and of those of its parameters.
    fn add_method(&mut self, method: &Method<'p, '_>) -> Result<(), AllocError>
        ensures { AddsSets result self.old self.new IsKnownMethod method_uses
            method.now }
    {
        self.add_set(method.annotations())?;
        self.add_list(&method.parameter_annotations())
    }

    // Adds the uses of the sets of methods.
    fn add_methods(&mut self, methods: &Methods<'p, '_>) -> Result<(), AllocError>
        ensures { AddsSets result self.old self.new AreKnownMethods methods_uses
            methods.now }
    {
        for i in 0..methods.len() {
            self.add_method(&methods.get(i))?;
        }
        Ok(())
    }

    // Adds the uses of the sets of what a class declares, its own first.
    fn add_members(&mut self, members: &'p Members<'_>) -> Result<(), AllocError>
        ensures { AddsSets result self.old self.new AreKnownMembers members_uses
            members.now }
    {
        self.add_set(members.annotations())?;
        self.add_fields(&members.static_fields())?;
        self.add_fields(&members.instance_fields())?;
        self.add_methods(&members.direct_methods())?;
        self.add_methods(&members.virtual_methods())
    }
}

/// The sets that are written, each once, in the order of their first use, and for each use the number of its set, if it
/// has annotations. The uses are, class by class, the class's own set, those of its fields, and for each method its own
/// and those of its parameters.
pub(crate) fn share_sets<'p>(
    alloc: Global,
    classes: &'p [Class<'_>],
) -> Result<ListShared<&'p AnnotationSet>, AllocError>
    ensures shared { IfOk result (HaveSets classes.now) }
    ensures known { IfOk result (HaveKnownSets classes.now) }
{
    let mut sharing = ListSharing::none(alloc);
    for i in 0..classes.len() {
        sharing.add_members(classes[i].members())?;
    }
    sharing.finish(alloc)
}
