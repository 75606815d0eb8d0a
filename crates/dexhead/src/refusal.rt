//! Why a file is refused.

/// The condition that a file does not meet, and where.
///
/// `number` is the number of the condition, from 1 on. `place` is 0 for the conditions on the whole
/// file, but for 3, the version, where it is the three digits as a number; for the others it is the
/// row at which the condition fails.
#[derive(Clone, Copy, Debug, PartialEq, Eq)]
pub struct Refusal {
    /// The number of the condition: [`Condition::number`](crate::Condition::number).
    pub number: u8,
    /// 0, the version, or the row at which the condition fails, counted from 0.
    pub place: u32,
}
