/// How an instruction is laid out in its 16-bit units. A format is named as the Android page "Dalvik
/// executable instruction formats" names it: the number of units, the number of registers, and a
/// letter for what else there is.
#[derive(Clone, Copy, Debug, PartialEq, Eq)]
pub enum Format {
    Format10x,
    Format12x,
    Format11n,
    Format11x,
    Format10t,
    Format20t,
    Format22x,
    Format21t,
    Format21s,
    Format21h,
    Format21c,
    Format23x,
    Format22b,
    Format22s,
    Format22t,
    Format22c,
    Format30t,
    Format32x,
    Format31i,
    Format31t,
    Format31c,
    Format35c,
    Format3rc,
    Format51l,
}
