//! Why 16-bit code units are not split.

ghost use Rattle.std.specs.Prelude.{◌≤◌};

/// Why units are not split: the first of these that is so.
#[derive(Clone, Copy, Debug, PartialEq, Eq)]
pub struct CodeFault {
    /// 1 where there are no units; 2 where the units before `unit` are cut, and no instruction or payload begins at it;
    /// 3 where all units are cut, and the instruction at `unit` has a wrong target, the ones before it right ones; 4
    /// where an allocation failed.
    pub kind: u8,
    /// The unit at which the fault is found; 0 where `kind` is 1 or 4.
    pub unit: usize,
    pub ghost least: { 1 ≤ kind },
    pub ghost most: { kind ≤ 4 },
}
