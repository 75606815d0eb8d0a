//! What classes are put in order by: their depths, and the numbers of their names.

ghost use Rattle.std.specs.Prelude.{◌≡◌, ◌<◌, All, length, map, IfOk};
ghost use Rattle.dexclass.specs.internal.Ordered.{depths_by_name};

use crate::classes::Class;
use std::alloc::{AllocError, Global};

/// The numbers of the classes' names.
pub(crate) fn names(alloc: Global, classes: &[Class<'_>]) -> Result<Vec<usize>, AllocError>
    ensures { IfOk result (λ names. names.items ≡ map (λ c. c.name) classes.now) }
{
    let mut names = Vec::with_capacity(alloc, classes.len())?;
    for i in 0..classes.len() {
        names.push(classes[i].name())?;
    }
    Ok(names)
}

/// The depths of the classes, from depths at the numbers of their names.
///
/// Condition: the name of each class has a place.
pub(crate) fn known_depths(
    alloc: Global,
    classes: &[Class<'_>],
    by_name: &[Option<usize>],
) -> Result<Vec<Option<usize>>, AllocError>
    requires { All (λ c. c.name < length by_name.now) classes.now }
    ensures { IfOk result (λ depths. depths.items ≡ depths_by_name by_name.now classes.now) }
{
    let mut depths = Vec::with_capacity(alloc, classes.len())?;
    for i in 0..classes.len() {
        depths.push(by_name[classes[i].name()])?;
    }
    Ok(depths)
}
