//! The weight of members of classes.

ghost use Rattle.std.specs.Prelude.{◌≡◌, ◌+◌, ◌-◌, ◌^◌, min, sum_by};
ghost use Rattle.dexval.specs.Spelled.{numbered_set_weight};
ghost use Rattle.dexmembers.specs.Weight.{ForKnown, weight_in};
ghost use Rattle.dexmembers.specs.Contents.{contents_in, AreHeld};
ghost use Rattle.dexmembers.specs.Weighing.{numbered_field_weight, numbered_members_weight, method_code_weight, own_method_weight, own_members_weight};
ghost use Rattle.dexmembers.specs.Borrowed.{ForSet};
ghost use Rattle.dexmembers.specs.Laws.{MembersWeightIsDenoted};

use crate::members::Contents;
use crate::{Fields, Members, Method, Methods};
use dexcode::{code_meaning_law, code_weight_law, debug_meaning_law, debug_unindexed_law};
use dexval::AnnotationSet;

// Returns the weight of a set, if there is one, or 2^64 - 1 where that is more.
fn optional_weight(set: Option<&AnnotationSet>) -> u64
    ensures { ForSet set.entry (λ weighed.
        result ≡ min (2 ^ 64 - 1) (numbered_set_weight weighed)) }
{
    match set {
        Some(set) => set.weight(),
        None => 0,
    }
}

// Returns the weight of fields.
fn fields_weight(fields: &Fields<'_>) -> u64
    ensures { result ≡ min (2 ^ 64 - 1) (sum_by numbered_field_weight fields.now) }
{
    let mut weight: u64 = 0;
    for i in 0..fields.len() {
        let annotations = optional_weight(fields.get(i).annotations());
        weight = weight.saturating_add(18).saturating_add(annotations);
    }
    weight
}

// Returns the weight of methods without their code.
fn methods_weight(methods: &Methods<'_, '_>) -> u64
    ensures { result ≡ min (2 ^ 64 - 1) (sum_by own_method_weight methods.now) }
{
    let mut weight: u64 = 0;
    for i in 0..methods.len() {
        let method = methods.get(i);
        weight = weight
            .saturating_add(31)
            .saturating_add(optional_weight(method.annotations()))
            .saturating_add(method.parameters_weight());
    }
    weight
}

// Returns the weight of the code of methods.
fn codes_weight(methods: &Methods<'_, '_>) -> u64
    ensures { result ≡ min (2 ^ 64 - 1) (sum_by method_code_weight methods.now) }
{
    let mut weight: u64 = 0;
    for i in 0..methods.len() {
        weight = weight.saturating_add(methods.get(i).code_weight());
    }
    weight
}

impl Method<'_, '_> {
    // Returns the weight of the method's code with its debug program.
    fn code_weight(&self) -> u64
        ensures { result ≡ min (2 ^ 64 - 1) (method_code_weight self.now) }
    {
        let Some(code) = self.code() else {
            return 0;
        };
        match code.debug() {
            Some(debug) => code.weight().saturating_add(debug.weight()),
            None => code.weight(),
        }
    }
}

impl<'a> Members<'a> {
    /// Returns the weight of all members, in bytes, or 2^64 - 1 where that is more: a class without its row and its
    /// interfaces.
    ///
    /// Source: "class_data_item", "annotations_directory_item", "code_item" and "encoded_array_item", the sizes of
    /// their fields; the weight is this project's rule.
    pub fn weight(&self) -> u64
        ensures numbered { result ≡ min (2 ^ 64 - 1) (numbered_members_weight self.now) }
        ensures symbolic { ForKnown self.now (λ m.
            result ≡ min (2 ^ 64 - 1) (weight_in m self.now)) }
    {
        members_weight_law();
        let direct = codes_weight(&self.direct_methods());
        let virtuals = codes_weight(&self.virtual_methods());
        self.contents.weight_with(direct.saturating_add(virtuals))
    }
}

/// The weight of members by their numbers is that of what they denote. The call does nothing: its contract is the law,
/// for the callers that cite it.
pub fn members_weight_law()
    ensures { MembersWeightIsDenoted }
{
    code_weight_law();
    code_meaning_law();
    debug_unindexed_law();
    debug_meaning_law();
}

impl Contents<'_> {
    /// Returns the weight of all that is declared, in bytes, or 2^64 - 1 where that is more. The code of the methods
    /// weighs `codes`, and is not weighed again.
    ///
    /// Condition: the places are the table's.
    pub(crate) fn weight_with(&self, codes: u64) -> u64
        requires { AreHeld self.now }
        ensures { result ≡ min (2 ^ 64 - 1) (codes + own_members_weight (contents_in self.now)) }
    {
        codes
            .saturating_add(self.table.set_weight(self.set))
            .saturating_add(fields_weight(&Fields::of(&self.table, &self.static_fields)))
            .saturating_add(fields_weight(&Fields::of(&self.table, &self.instance_fields)))
            .saturating_add(methods_weight(&Methods::of(&self.table, &self.direct_methods)))
            .saturating_add(methods_weight(&Methods::of(&self.table, &self.virtual_methods)))
            .saturating_add(self.static_values.weight())
    }
}
