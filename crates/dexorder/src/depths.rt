//! The depths of classes: a search along the parents of each class, which visits each class once. Interfaces that several
//! classes share are gone over only until the depth below them is known.

ghost use Rattle.std.specs.Prelude.{◌≡◌, ◌≤◌, ◌<◌, ◌+◌, ◌++◌, [], ◌∷◌, ℕ, length, slice_index_or, All, IfOk, OnOk, MatchOption};
ghost use Rattle.dexorder.specs.EqualLists.{AreFirstEqual};
ghost use Rattle.dexorder.specs.Parents.{AllHaveDepths, AreDepthsOfClasses, IsFirstWithout};
ghost use Rattle.dexorder.specs.internal.Searching.{AreBelow, AreListDepths, AreStillSeen, FindsParentFrom, HasReached, HasReachedIn, HasReachedWith, IsBegun, IsNearerFrom, IsSearch, AreParentsWithin, parents_in, parents_of_all};

use crate::list_depths::ListDepths;
use crate::parents::{HasParents, class_of_type, classes_by_type};
use std::alloc::{AllocError, Global};

/// The visit of a class. It waits for the depth of each parent in turn: of its superclass, then of its interfaces.
#[derive(Clone, Copy)]
pub(crate) struct Visit {
    class: usize,
    /// The number of parents that it waits for no longer.
    passed: usize,
    /// One more than the greatest depth of these parents, or 0 if none of them is a class.
    depth: usize,
}

impl Visit {
    /// The visit of a class as it begins.
    pub(crate) fn of(class: usize) -> Visit
        ensures { result ≡ record { class = class; passed = 0; depth = 0 } }
    {
        Visit {
            class,
            passed: 0,
            depth: 0,
        }
    }
}

/// What a visit comes to.
#[derive(Clone, Copy)]
pub(crate) enum Reached {
    /// The depth of its class.
    Depth(usize),
    /// A parent whose depth is not known, for which the visit waits.
    Waiting(Visit, usize),
}

/// The state of a search.
#[derive(Drop)]
struct Search {
    /// The depths that are known.
    depths: Vec<Option<usize>>,
    /// The classes whose visit began.
    is_seen: Vec<bool>,
    /// The visits that are not over. Each visit but the last waits for the class of the next.
    path: Vec<Visit>,
}

// The superclass of a class, if it is a class.
fn superclass<C: HasParents>(by_type: &[Option<usize>], class: &C) -> Option<usize>
    ensures { result ≡ slice_index_or
        (parents_in by_type.now (C.superclass_of class.now) (C.interfaces_of class.now)) 0 None }
{
    class_of_type(by_type, class.superclass()?)
}

// The first parent after a place that is a class, with its place: the superclass has place 0.
fn next_parent<C: HasParents>(
    by_type: &[Option<usize>],
    class: &C,
    place: usize,
) -> Option<(usize, usize)>
    ensures { FindsParentFrom
        (parents_in by_type.now (C.superclass_of class.now) (C.interfaces_of class.now))
        (place + 1) result }
{
    let found = class.next_class(by_type, place)?;
    Some((found.passed, found.class))
}

// The first parent from a place on that is a class, with its place.
fn first_parent<C: HasParents>(
    by_type: &[Option<usize>],
    class: &C,
    place: usize,
) -> Option<(usize, usize)>
    ensures { FindsParentFrom
        (parents_in by_type.now (C.superclass_of class.now) (C.interfaces_of class.now))
        place result }
{
    if let Some(before) = place.checked_sub(1) {
        return next_parent(by_type, class, before);
    }
    match superclass(by_type, class) {
        Some(parent) => Some((0, parent)),
        None => next_parent(by_type, class, 0),
    }
}

/// What the visit of a class comes to by the depths that are known.
pub(crate) fn continued<C: HasParents>(
    by_type: &[Option<usize>],
    depths: &[Option<usize>],
    class: &C,
    visit: Visit,
) -> Reached
    requires passed { visit.passed ≤ length (C.interfaces_of class.now) }
    requires within { AreParentsWithin by_type.now (length depths.now) }
    requires below { AreBelow (length depths.now) depths.now }
    ensures { HasReached
        (parents_in by_type.now (C.superclass_of class.now) (C.interfaces_of class.now))
        depths.now visit result }
{
    let mut depth = visit.depth;
    let mut next = first_parent(by_type, class, visit.passed);
    while let Some((passed, parent)) = next {
        let Some(above) = depths[parent] else {
            return Reached::Waiting(
                Visit {
                    passed,
                    depth,
                    ..visit
                },
                parent,
            );
        };
        depth = depth.max(above + 1);
        next = next_parent(by_type, class, passed);
    }
    Reached::Depth(depth)
}

// What the visit of a class comes to by the depths that are known, of which `list` is that below its interfaces alone.
fn continued_with<C: HasParents>(
    by_type: &[Option<usize>],
    depths: &[Option<usize>],
    class: &C,
    list: usize,
    visit: Visit,
) -> Reached
    requires within { AreParentsWithin by_type.now (length depths.now) }
    requires below { AreBelow (length depths.now) depths.now }
    ensures { HasReachedWith
        (parents_in by_type.now (C.superclass_of class.now) (C.interfaces_of class.now))
        depths.now list visit result }
{
    let depth = visit.depth.max(list);
    if visit.passed > 0 {
        return Reached::Depth(depth);
    }
    let Some(parent) = superclass(by_type, class) else {
        return Reached::Depth(depth);
    };
    match depths[parent] {
        Some(above) => Reached::Depth(depth.max(above + 1)),
        None => Reached::Waiting(visit, parent),
    }
}

impl Search {
    /// Begins the visit of a class.
    fn begin(&mut self, class: usize) -> Result<(), AllocError>
        requires { class < length self.old.is_seen.items }
        ensures { OnOk result (IsBegun self.old class self.new) }
    {
        self.is_seen[class] = true;
        self.path.push(Visit::of(class))?;
        Ok(())
    }

    /// What a visit comes to by the depths that are known.
    fn reached<C: HasParents>(
        &self,
        by_type: &[Option<usize>],
        classes: &[C],
        lists: &ListDepths<'_>,
        visit: Visit,
    ) -> Reached
        requires within { AreParentsWithin by_type.now (length classes.now) }
        requires search { IsSearch
            (parents_of_all by_type.now C.superclass_of C.interfaces_of classes.now) self.now
            (self.now.path.items ++ visit ∷ []) }
        requires lists { AreListDepths
            (parents_of_all by_type.now C.superclass_of C.interfaces_of classes.now) lists.now }
        ensures { HasReachedIn
            (parents_of_all by_type.now C.superclass_of C.interfaces_of classes.now)
            self.now.depths.items visit result }
    {
        let class = &classes[visit.class];
        match lists.depth(visit.class) {
            Some(list) => continued_with(by_type, &self.depths, class, list, visit),
            None => continued(by_type, &self.depths, class, visit),
        }
    }

    /// Continues the last visit of the path. The visit is over if all its parents have a depth: its class then has one
    /// too. It is also over if it waits for a class that was seen and has no depth: its class is then above itself, or
    /// below a class that is.
    fn step<C: HasParents>(
        &mut self,
        by_type: &[Option<usize>],
        classes: &[C],
        lists: &mut ListDepths<'_>,
        visit: Visit,
    ) -> Result<(), AllocError>
        requires within { AreParentsWithin by_type.now (length classes.now) }
        requires search { IsSearch
            (parents_of_all by_type.now C.superclass_of C.interfaces_of classes.now) self.old
            (self.old.path.items ++ visit ∷ []) }
        requires lists { AreListDepths
            (parents_of_all by_type.now C.superclass_of C.interfaces_of classes.now) lists.old }
        ensures lists { AreListDepths
            (parents_of_all by_type.now C.superclass_of C.interfaces_of classes.now) lists.new }
        ensures search { OnOk result (IsSearch
            (parents_of_all by_type.now C.superclass_of C.interfaces_of classes.now) self.new
            self.new.path.items) }
        ensures seen { OnOk result (AreStillSeen self.old self.new) }
        ensures nearer { OnOk result (IsNearerFrom
            (parents_of_all by_type.now C.superclass_of C.interfaces_of classes.now) visit
            self.old self.new) }
    {
        match self.reached(by_type, classes, lists, visit) {
            Reached::Depth(depth) => {
                self.depths[visit.class] = Some(depth);
                lists.add(by_type, &self.depths, classes, visit.class);
            }
            Reached::Waiting(visit, parent) => {
                if !self.is_seen[parent] {
                    self.path.push(visit)?;
                    self.begin(parent)?;
                }
            }
        }
        Ok(())
    }
}

/// The depth of each class, or none if the class is above itself or below a class that is. A class without parents
/// among the classes has depth 0. The depth of another class is one more than the greatest depth of its parents.
///
/// Each of `firsts` is a class with the same interfaces: the class itself, or one before it. The interfaces of classes
/// that share theirs are gone over three times, however many classes they are, if all that are classes have a depth.
///
/// Condition: the name of each class is below `types`, the number of types. The time is linear in the number of types,
/// classes and parents; no parents are copied. Error: an allocation failed.
///
/// Source: "class_defs", a superclass and interfaces come before the class.
pub fn depths_with_firsts<C: HasParents>(
    alloc: Global,
    classes: &[C],
    types: usize,
    firsts: &[usize],
) -> Result<Vec<Option<usize>>, AllocError>
    requires names { All (λ c. C.name_of c < types) classes.now }
    requires firsts { AreFirstEqual C.interfaces_of classes.now firsts.now }
    ensures { IfOk result (λ depths.
        AreDepthsOfClasses C.name_of C.superclass_of C.interfaces_of classes.now depths.items) }
{
    let by_type = classes_by_type(alloc, classes, types)?;
    let count = classes.len();
    let mut lists = ListDepths::none(alloc, firsts, count)?;
    let mut search = Search {
        depths: vec![in alloc; None; count]?,
        is_seen: vec![in alloc; false; count]?,
        path: Vec::new(alloc),
    };
    for class in 0..count {
        if !search.is_seen[class] {
            search.begin(class)?;
            while let Some(visit) = search.path.pop() {
                search.step(&by_type, classes, &mut lists, visit)?;
            }
        }
    }
    Ok(search.depths)
}

/// The first class without a depth in the result of [`depths_with_firsts`], if there is one.
pub fn first_without_depth(depths: &[Option<usize>]) -> Option<usize>
    ensures { MatchOption result (AllHaveDepths depths.now) (IsFirstWithout depths.now) }
{
    depths.iter().position(|depth| depth.is_none())
}
