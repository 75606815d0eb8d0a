//! The weights of values and annotations.

ghost use Rattle.std.specs.Prelude.{◌≡◌, ◌<◌, ◌+◌, ◌-◌, ◌^◌, ℕ, length, min, map, sum_by};
ghost use Rattle.std.specs.Fn.{FnReturnsAt};
ghost use Rattle.dexspec.specs.Mentions.{Mentions};
ghost use Rattle.dexspec.specs.Weight.{value_weight, set_weight};
ghost use Rattle.dexval.specs.Code.{value_of, encoded_of, set_of};
ghost use Rattle.dexval.specs.Numbered.{value_in, set_in, values_of_list};
ghost use Rattle.dexval.specs.Spelled.{numbered_weight, numbered_values_weight};
ghost use Rattle.dexval.specs.Writing.{weight_of_statics, weight_of_sets};

use crate::{AnnotationSet, EncodedAnnotation, Value};

// The weight of values together.
#[cycle(weighing)]
fn values_weight(values: &[Value]) -> u64
    ensures { result
        ≡ min (2 ^ 64 - 1) (numbered_values_weight (values_of_list (map value_of values.now))) }
{
    let mut weight: u64 = 0;
    for value in values {
        weight = weight.saturating_add(value.weight());
    }
    weight
}

// The weight of an annotation, whatever its visibility.
#[cycle(weighing)]
fn annotation_weight(annotation: &EncodedAnnotation) -> u64
    ensures { result ≡ min (2 ^ 64 - 1) (numbered_weight (encoded_of annotation.now)) }
{
    let mut weight: u64 = 12;
    for element in &annotation.elements {
        let value = element.value.weight();
        weight = weight.saturating_add(5).saturating_add(value);
    }
    weight
}

/// The weight of items in a list: 8, and for each item its weight and 4 for its offset, or 2^64 - 1 if that is more. An
/// empty list weighs nothing.
pub(crate) fn listed_weight<T, F: Fn(&T) -> u64>(items: &[T], weight_of: F) -> u64
    requires { F.IsAlwaysCallable weight_of }
    ensures none { length items.now ≡ 0 → result ≡ 0 }
    ensures some { 0 < length items.now → (weighs : T → ℕ) → ((item : T) (weight : ℕ)
        → FnReturnsAt F.Fn weight_of item weight → weight ≡ min (2 ^ 64 - 1) (weighs item))
        → result ≡ min (2 ^ 64 - 1) (8 + sum_by (λ item. 4 + weighs item) items.now) }
{
    if items.is_empty() {
        return 0;
    }
    let mut weight: u64 = 8;
    for item in items {
        weight = weight.saturating_add(4).saturating_add(weight_of(item));
    }
    weight
}

impl Value {
    /// The weight of the value, or 2^64 - 1 if it weighs more. It is at least the size of its shortest encoding.
    #[cycle(weighing)]
    #[tactic(auto, using(crate::proofs::Weights::weight_is))]
    pub fn weight(&self) -> u64
        ensures { (m : Mentions)
            → result ≡ min (2 ^ 64 - 1) (value_weight (value_in m (value_of self.now))) }
    {
        match self {
            Value::Array(values) => 6u64.saturating_add(values_weight(values)),
            Value::Annotation(annotation) => annotation_weight(annotation),
            _ => 9,
        }
    }
}

impl AnnotationSet {
    /// The weight of the set, or 2^64 - 1 if it weighs more. It is at least the size of its item and of its
    /// annotations. An empty set weighs nothing.
    pub fn weight(&self) -> u64
        ensures { (m : Mentions)
            → result ≡ min (2 ^ 64 - 1) (set_weight (set_in m (set_of self.now))) }
    {
        listed_weight(
            &self.annotations,
            |item| annotation_weight(&item.annotation),
        )
    }
}

/// The weight of the sets of a method's parameters, with the list of them, or 2^64 - 1 if they weigh more. An empty
/// list weighs nothing.
pub fn parameter_sets_weight(sets: &[AnnotationSet]) -> u64
    ensures { (m : Mentions) → result ≡ min (2 ^ 64 - 1) (weight_of_sets m sets.now) }
{
    listed_weight(sets, |set| set.weight())
}

/// The weight of the initial values of static fields, or 2^64 - 1 if they weigh more. An empty list weighs nothing.
#[tactic(auto, using(crate::proofs::Weights::statics_weight_is))]
pub fn statics_weight(values: &[Value]) -> u64
    ensures { (m : Mentions) → result ≡ min (2 ^ 64 - 1) (weight_of_statics m values.now) }
{
    if values.is_empty() {
        return 0;
    }
    6u64.saturating_add(values_weight(values))
}
