//! What depths and order of numbered classes mean for class definitions. Each function does nothing: its contract is
//! the law, for the callers that cite it.

ghost use Rattle.std.specs.Prelude.{◌≡◌, ℕ, suc, List, Option};
ghost use Rattle.dexspec.specs.Classes.{Definition};
ghost use Rattle.dexorder.specs.Depths.{IsDepth, IsDeeperThan, HasParentAt, PassesOnNone, AreDepthsBounded};
ghost use Rattle.dexorder.specs.Definitions.{AreNumberedByParents, ClassesHaveDepths, ClassesHaveCycles, OnDepths};
ghost use Rattle.dexorder.specs.Definitions.{AreCyclesFound, KnownAreAcyclic, KnownAreOwn, AcyclicAreKnown};
ghost use Rattle.dexorder.specs.Definitions.{AreNumbersDistinct, IsClassOrder};

/// The depth of a class is greater than the depths of its parents, which all have one. If it is not 0, it is one more
/// than the depth of some parent. A class has at most one depth, and it is less than the number of classes.
pub fn depths_of_classes()
    ensures parents { (classes : List (List ℕ)) (i p d : ℕ) → IsDepth classes i d
        → IsDeeperThan classes i p d }
    ensures greatest { (classes : List (List ℕ)) (i d : ℕ) → IsDepth classes i (suc d)
        → HasParentAt classes i d }
    ensures none { (classes : List (List ℕ)) (i p : ℕ) → PassesOnNone classes i p }
    ensures one { (classes : List (List ℕ)) (i d e : ℕ) → IsDepth classes i d → IsDepth classes i e
        → d ≡ e }
    ensures bound { (classes : List (List ℕ)) → AreDepthsBounded classes }
{}

/// Definitions of different names are numbered by classes if the parents of each class are the numbers of its defined
/// superclass and interfaces, in their order.
pub fn classes_of_definitions()
    ensures { (definitions : List Definition) → AreNumberedByParents definitions }
{}

/// Numbered classes have the depths of the definitions that they number. A class without a depth is a definition whose
/// name is on or below a cycle, and each such definition is a class without a depth. So if all classes have depths,
/// there is no cycle and the depths are those of the definitions; if there is no cycle, all classes have depths.
pub fn depths_of_definitions()
    ensures depth { (definitions : List Definition) → ClassesHaveDepths definitions }
    ensures cycle { (definitions : List Definition) → ClassesHaveCycles definitions }
    ensures class { (definitions : List Definition)
        → OnDepths definitions (AreCyclesFound definitions) }
    ensures acyclic { (definitions : List Definition)
        → OnDepths definitions (KnownAreAcyclic definitions) }
    ensures own { (definitions : List Definition) → OnDepths definitions (KnownAreOwn definitions) }
    ensures known { (definitions : List Definition)
        → OnDepths definitions (AcyclicAreKnown definitions) }
{}

/// The definitions in the order of their classes are the definitions in class order, and the numbers of different
/// names are different.
pub fn order_of_definitions()
    ensures names { (definitions : List Definition) (names : List ℕ)
        → AreNumbersDistinct definitions names }
    ensures order { (definitions : List Definition) (depths : List (Option ℕ))
        → IsClassOrder definitions depths }
{}
