//! Classes that name their parents by types, and the parents that are classes among them.

ghost use Rattle.std.specs.Prelude.{◌≡◌, ◌<◌, ℕ, List, Option, None, All, IfOk, MatchOption, length, map, slice_index_or};
ghost use Rattle.dexorder.specs.Parents.{AreByType, HasNoClassFrom, IsFirstClassFrom};

use std::alloc::{AllocError, Global};

/// An interface of a class whose type is that of a class.
#[derive(Clone, Copy)]
pub struct InterfaceClass {
    /// How many interfaces there are up to it, itself among them.
    pub passed: usize,
    /// The number of its type.
    pub typ: usize,
    /// The class.
    pub class: usize,
}

/// A class that has a type as its name, and types as its superclass and interfaces. Types are numbers.
///
/// Source: "class_def_item", `class_idx`, `superclass_idx` and `interfaces_off`.
pub trait HasParents {
    ghost name_of: { Self → ℕ };

    ghost superclass_of: { Self → Option ℕ };

    ghost interfaces_of: { Self → List ℕ };

    /// The number of its type.
    fn name(&self) -> usize
        ensures { result ≡ name_of self.now };

    /// The number of the superclass's type, if there is one.
    fn superclass(&self) -> Option<usize>
        ensures { result ≡ superclass_of self.now };

    /// The first interface after the first `passed` of them whose type is that of a class in the result of
    /// [`classes_by_type`], or `None` if there is none.
    fn next_class(&self, by_type: &[Option<usize>], passed: usize) -> Option<InterfaceClass>
        ensures { MatchOption result (HasNoClassFrom by_type.now (interfaces_of self.now) passed)
            (IsFirstClassFrom by_type.now (interfaces_of self.now) passed) };
}

/// For each type the number of a class that has it as its name, or none.
///
/// Condition: the name of each class is below `types`, the number of types. The time is linear in the number of types
/// and classes.
pub fn classes_by_type<C: HasParents>(
    alloc: Global,
    classes: &[C],
    types: usize,
) -> Result<Vec<Option<usize>>, AllocError>
    requires { All (λ c. C.name_of c < types) classes.now }
    ensures count { IfOk result (λ by_type. length by_type.items ≡ types) }
    ensures classes { IfOk result (λ by_type. AreByType (map C.name_of classes.now) by_type.items) }
{
    let mut by_type = vec![in alloc; None; types]?;
    for i in 0..classes.len() {
        by_type[classes[i].name()] = Some(i);
    }
    Ok(by_type)
}

/// The class of a type in the result of [`classes_by_type`], if it has one.
pub fn class_of_type(by_type: &[Option<usize>], typ: usize) -> Option<usize>
    ensures { result ≡ slice_index_or by_type.now typ None }
{
    *by_type.get(typ)?
}
