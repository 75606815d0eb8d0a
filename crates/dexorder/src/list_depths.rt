//! The depths below interfaces that several classes share.

ghost use Rattle.std.specs.Prelude.{◌≡◌, ◌<◌, ℕ, List, Option, length, map, IfOk, IfSome};
ghost use Rattle.dexspec.specs.Lists.{present};
ghost use Rattle.dexorder.specs.internal.Searching.{AreBelow, AreKnownDepths, AreListDepths, AreParentsWithin, HaveEqualParents, IsDepthBelow, interface_parents, parents_of_all};

use crate::depths::{Reached, Visit, continued};
use crate::parents::{HasParents, InterfaceClass};
use std::alloc::{AllocError, Global};

/// The interfaces of a class, as those of a class without a superclass.
#[derive(Drop)]
struct InterfacesOf<'c, C> {
    class: &'c C,
}

impl<'c, C: HasParents> HasParents for InterfacesOf<'c, C> {
    ghost use Rattle.std.specs.Prelude.{None};

    ghost name_of = { λ c. C.name_of c.class.now };

    ghost superclass_of = { λ _. None };

    ghost interfaces_of = { λ c. C.interfaces_of c.class.now };

    fn name(&self) -> usize {
        self.class.name()
    }

    fn superclass(&self) -> Option<usize> {
        None
    }

    fn next_class(&self, by_type: &[Option<usize>], passed: usize) -> Option<InterfaceClass> {
        self.class.next_class(by_type, passed)
    }
}

/// The depths below interfaces that several classes share: one more than the greatest depth of these interfaces, or 0 if
/// none of them is a class.
#[derive(Drop)]
pub(crate) struct ListDepths<'f> {
    /// For each class one with the same interfaces: the class itself, or one before it.
    firsts: &'f [usize],
    /// For each class the depth below its interfaces, if it is known.
    depths: Vec<Option<usize>>,
}

impl<'f> ListDepths<'f> {
    /// No depth is known yet, of this number of classes.
    pub(crate) fn none(
        alloc: Global,
        firsts: &'f [usize],
        classes: usize,
    ) -> Result<ListDepths<'f>, AllocError>
        ensures { IfOk result (λ lists. (parents : List (List (Option ℕ)))
            → length parents ≡ classes → HaveEqualParents parents firsts.now
            → AreListDepths parents lists) }
    {
        Ok(ListDepths {
            firsts,
            depths: vec![in alloc; None; classes]?,
        })
    }

    /// The depth below the interfaces of a class, if it is known.
    pub(crate) fn depth(&self, class: usize) -> Option<usize>
        ensures { IfSome result (λ depth. (parents : List (List (Option ℕ)))
            → class < length parents → AreListDepths parents self.now
            → IsDepthBelow (map present parents)
            (present (interface_parents parents class)) depth) }
    {
        let first = *self.firsts.get(class)?;
        *self.depths.get(first)?
    }

    /// Adds the depth below the interfaces of a class that shares them with one before it. The depths of all classes that
    /// are above this one are known.
    pub(crate) fn add<C: HasParents>(
        &mut self,
        by_type: &[Option<usize>],
        depths: &[Option<usize>],
        classes: &[C],
        class: usize,
    )
        requires class { class < length classes.now }
        requires within { AreParentsWithin by_type.now (length depths.now) }
        requires below { AreBelow (length depths.now) depths.now }
        requires known { AreKnownDepths
            (map present (parents_of_all by_type.now C.superclass_of C.interfaces_of classes.now))
            depths.now }
        requires lists { AreListDepths
            (parents_of_all by_type.now C.superclass_of C.interfaces_of classes.now) self.old }
        ensures { AreListDepths
            (parents_of_all by_type.now C.superclass_of C.interfaces_of classes.now) self.new }
    {
        let Some(first) = self.firsts.get(class) else {
            return;
        };
        let first = *first;
        if first < class && self.depths[first].is_none() {
            let interfaces = InterfacesOf {
                class: &classes[class],
            };
            if let Reached::Depth(depth) = continued(
                by_type,
                depths,
                &interfaces,
                Visit::of(class),
            ) {
                self.depths[first] = Some(depth);
            }
        }
    }
}
