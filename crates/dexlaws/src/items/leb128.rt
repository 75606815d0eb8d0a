//! LEB128 numbers at an offset: the bytes there determine the number and its size.
ghost use Rattle.dexspec.specs.Numbers.{Uleb128At, Sleb128At, Uleb128p1At};
ghost use Rattle.dexlaws.specs.Items.{IsDetermined};

/// There is at most one number of each of the three kinds at an offset, in one size.
pub fn number_is_determined()
    ensures unsigned { IsDetermined Uleb128At }
    ensures signed { IsDetermined Sleb128At }
    ensures one_more { IsDetermined Uleb128p1At }
{}
