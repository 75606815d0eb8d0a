ghost use Rattle.std.specs.Prelude.{◌≡◌, ◌↔◌, ◌≤◌, ℕ, List, length, drop, IfOk, IfErr, OnErr, IsTrue};
ghost use Rattle.dexspec.specs.Numbers.{BeginsWith, IsUleb128};
ghost use Rattle.dexspec.specs.Texts.{IsStringData, StringDataAt};
ghost use Rattle.dexstr.specs.Faults.{IsFault, LooksCutOff};
ghost use Rattle.dexstr.specs.Units.{AfterUnits};

use crate::texts::Text;
use crate::units::skip_units;
use dexleb::{LebFault, read_u};

/// Why no text is read.
#[derive(Clone, Copy, Debug, PartialEq, Eq)]
pub enum TextFault {
    /// The bytes end within the count or within a unit, or before the zero byte.
    Short,
    /// There is no count where one should be, or neither a unit nor the zero byte.
    Bad,
    /// The zero byte follows other than as many units as the count says.
    Count,
}

impl<'a> Text<'a> {
    /// Reads the string_data_item that begins at byte `at`: the text, of the bytes that spell it, and how many bytes
    /// the item takes. The count of units may be spelled longer than it has to be.
    ///
    /// The count is read first, and then units up to the zero byte. It fails with [`TextFault::Short`] where the bytes
    /// end and the count, a unit's spelling or the zero byte may go on after them, with [`TextFault::Bad`] where
    /// otherwise no count begins, or no unit and no zero byte, and with [`TextFault::Count`] where the zero byte
    /// follows other than as many units as the count says.
    ///
    /// Source: the headings "string_data_item" and "MUTF-8 (Modified UTF-8) encoding" of the Android page
    /// "Dalvik Executable format".
    pub fn read(b: &'a [u8], at: usize) -> Result<(Text<'a>, usize), TextFault>
        requires { at ≤ length b.now }
        ensures found { IfOk result (λ x. StringDataAt b.now at x.0 x.1) }
        ensures only { (s : List ℕ) (n : ℕ) → StringDataAt b.now at s n → result ≡ Ok (s, n) }
        ensures none { OnErr result ((s : List ℕ) (n : ℕ) → ¬ StringDataAt b.now at s n) }
        ensures fault { (e : TextFault) → (result ≡ Err e) ↔ IsFault e (drop at b.now) }
    {
        read_first(&b[at..])
    }
}

/// The text whose string_data_item comes first, and how many bytes that takes.
fn read_first(bytes: &[u8]) -> Result<(Text<'_>, usize), TextFault>
    ensures found { IfOk result (λ x. BeginsWith IsStringData bytes.now x.0 x.1) }
    ensures fault { IfErr result (λ e. IsFault e bytes.now) }
{
    let (count, len) = first_count(bytes)?;
    let (units, rest) = skip_units(&bytes[len..]);
    first_text(bytes, count, len, units, rest)
}

/// The number of units that comes first, and how many bytes it takes.
pub(crate) fn first_count(bytes: &[u8]) -> Result<(u32, usize), TextFault>
    ensures found { IfOk result (λ x. BeginsWith IsUleb128 bytes.now x.0 x.1) }
    ensures fault { IfErr result (λ e. IsFault e bytes.now) }
{
    read_u(bytes, 0).map_err(|fault| match fault {
        LebFault::Short => TextFault::Short,
        LebFault::Range => TextFault::Bad,
    })
}

/// The text of a string_data_item, and how many bytes that takes, from its count and the units that follow it.
pub(crate) fn first_text<'a>(
    bytes: &'a [u8],
    count: u32,
    len: usize,
    units: usize,
    rest: &[u8],
) -> Result<(Text<'a>, usize), TextFault>
    requires count { BeginsWith IsUleb128 bytes.now count len }
    requires units { AfterUnits (drop len bytes.now) units rest.now }
    ensures found { IfOk result (λ x. BeginsWith IsStringData bytes.now x.0 x.1) }
    ensures fault { IfErr result (λ e. IsFault e bytes.now) }
{
    let body = &bytes[len..];
    match rest {
        [0, ..] if units == count as usize => {
            let spelled = &body[..body.len() - rest.len()];
            Ok((Text::of_spelling(spelled, count), len + spelled.len() + 1))
        }
        [0, ..] => Err(TextFault::Count),
        _ if looks_cut_off(rest) => Err(TextFault::Short),
        _ => Err(TextFault::Bad),
    }
}

/// Returns whether a unit's spelling, or the zero byte, may begin with these bytes and go on.
fn looks_cut_off(bytes: &[u8]) -> bool
    ensures { IsTrue result ↔ LooksCutOff bytes.now }
{
    match bytes {
        [] | [0xc0] | [0xc2..=0xdf] | [0xe0..=0xef] => true,
        [0xe0, 0xa0..=0xbf] | [0xe1..=0xef, 0x80..=0xbf] => true,
        _ => false,
    }
}
