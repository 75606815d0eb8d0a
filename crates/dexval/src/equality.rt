//! Sets of annotations that are the same are equal by `==`, and have equal hash input.

ghost use Rattle.std.specs.Cmp.{partial_equiv_from_equiv};
ghost use Rattle.dexval.specs.Equality.{equal_sets, equal_sets_equiv, set_input, equal_sets_agree, IsSetEquality, DependsOnSet, value_input, elements_input, annotation_input};
ghost use Rattle.std.specs.Prelude.{◌≡◌, ◌↔◌, IsTrue, fold, map};
ghost use Rattle.std.specs.Hash as fed;
ghost use Rattle.dexval.specs.Code.{value_of, values_of, element_of, elements_of, encoded_of, annotation_of, set_from};
ghost use Rattle.dexval.specs.Numbered.{elements_of_list};
ghost use Rattle.dexval.specs.internal.Heads.{no_images};

use crate::same::{Unchanged, is_same_set};
use crate::{Annotation, AnnotationSet, Element, Value};
use dexpool::Remap;
use std::hash::{Hash, Hasher};

impl PartialEq for AnnotationSet {
    ghost eq = { equal_sets };

    ghost laws = { partial_equiv_from_equiv equal_sets_equiv };

    fn eq(&self, other: &AnnotationSet) -> bool {
        is_same_set(&Unchanged, self, &Unchanged, other)
    }
}

impl Eq for AnnotationSet {
    ghost laws = { equal_sets_equiv };
}

impl Hash for AnnotationSet {
    ghost hash_input = { set_input };

    ghost respects_eq = { equal_sets_agree };

    fn hash<H: Hasher>(&self, state: &mut H) {
        let nowhere = Remap::none(*self.annotations.allocator());
        hash_annotations(self.annotations(), &nowhere, state);
    }
}

/// Sets are equal exactly if their annotations are the same, one for one: visibilities, types, names and values. Equal
/// sets have equal hash input.
#[tactic(auto, using(crate::specs::Equality::set_decides))]
pub fn set_equality_law()
    ensures equal { IsSetEquality ⟦<AnnotationSet as PartialEq>⟧.eq }
    ensures hashed { DependsOnSet ⟦<AnnotationSet as Hash>⟧.hash_input }
{}

// Feeds a value: its head, and then its contents. Its numbers are not remapped.
#[cycle(hashing)]
fn hash_value<H: Hasher>(value: &Value, nowhere: &Remap, state: &mut H)
    requires { nowhere.now ≡ no_images }
    ensures { state.new ≡ fold H.write state.old (value_input (value_of value.now)) }
{
    value.head(nowhere).hash(state);
    for held in value.held_values() {
        hash_value(held, nowhere, state);
    }
    hash_elements(value.held_elements(), nowhere, state);
}

// Feeds elements.
#[cycle(hashing)]
fn hash_elements<H: Hasher>(elements: &[Element], nowhere: &Remap, state: &mut H)
    requires { nowhere.now ≡ no_images }
    ensures { state.new
        ≡ fold H.write state.old (elements_input (elements_of_list (map element_of elements.now))) }
{
    for element in elements {
        element.name.hash(state);
        hash_value(&element.value, nowhere, state);
    }
}

// Feeds annotations, after their count.
fn hash_annotations<H: Hasher>(annotations: &[Annotation], nowhere: &Remap, state: &mut H)
    requires { nowhere.now ≡ no_images }
    ensures { state.new
        ≡ fold H.write state.old (fed.slice annotation_input (set_from annotations.now)) }
{
    annotations.len().hash(state);
    for annotation in annotations {
        state.write_u8(annotation.visibility.number());
        annotation.annotation.typ.hash(state);
        hash_elements(&annotation.annotation.elements, nowhere, state);
    }
}
