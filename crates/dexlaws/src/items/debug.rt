//! Debug programs at an offset: the bytes determine the operations.
ghost use Rattle.dexspec.specs.Debug.{OptionalTextAt, OptionalTypeAt, OperationAt, DebugAt};
ghost use Rattle.dexlaws.specs.Items.{IsDetermined, IsOne};

/// There is at most one operation of a debug program at an offset, in one size, and at most one
/// optional text or type.
pub fn operation_is_determined()
    ensures operation { IsDetermined OperationAt }
    ensures text { IsDetermined OptionalTextAt }
    ensures descriptor { IsDetermined OptionalTypeAt }
{}

/// There is at most one debug program at an offset.
pub fn debug_is_determined()
    ensures { IsOne DebugAt }
{}
