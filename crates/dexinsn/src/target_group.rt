ghost use Rattle.std.specs.Prelude.{◌≡◌};
ghost use Rattle.std.specs.Int.{bit_at};

/// Targets that lie near one another: the least, and for each of the 64 numbers from it on a bit that says whether
/// it is a target.
#[derive(Clone, Copy)]
pub(crate) struct TargetGroup {
    pub(crate) first: i32,
    pub(crate) bits: u64,
    ghost has_first: { bit_at bits 0 ≡ 1 },
}
