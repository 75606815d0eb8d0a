//! The names of members, in the two forms that listings have.

ghost use Rattle.std.specs.Prelude.{◌≡◌};
ghost use Rattle.dexlisting.specs.FullListing.{is_plain, plain_unit, plain};
ghost use Rattle.dexlisting.specs.internal.Known.{name_text};

use dexhead::Output;
use dexout::encode_text;
use dexstr::{Text, escaped};

/// The form in which the names of members are written.
#[derive(Clone, Copy)]
pub(crate) enum Names {
    /// As texts are.
    Shown,
    /// Each unit by its number but for letters, digits and `$` `-` `<` `>` `_`.
    Plain,
}

// Returns whether a unit is a letter or a digit of ASCII, or one of `$` `-` `<` `>` `_`.
fn is_plain(unit: u16) -> bool
    ensures { result ≡ is_plain unit }
{
    let letters = (0x61..=0x7a).contains(&unit) || (0x41..=0x5a).contains(&unit);
    let digits = (0x30..=0x39).contains(&unit);
    letters || digits || matches!(unit, 0x24 | 0x2d | 0x3c | 0x3e | 0x5f)
}

// Writes a unit of a name, by its number unless it is plain.
fn encode_plain_unit<O: Output>(unit: u16, out: &mut O)
    ensures { O.gives (plain_unit unit) out.old out.new }
{
    if is_plain(unit) {
        out.byte(unit as u8);
    } else {
        out.bytes(&escaped(unit));
    }
}

// Writes a name, each unit that is not plain by its number.
fn encode_plain<O: Output>(name: &Text<'_>, out: &mut O)
    ensures { O.gives (plain name.now) out.old out.new }
{
    for unit in name.units() {
        encode_plain_unit(unit, out);
    }
}

/// Writes the name of a member.
pub(crate) fn encode_name<O: Output>(names: Names, name: &Text<'_>, out: &mut O)
    ensures { O.gives (name_text names name.now) out.old out.new }
{
    match names {
        Names::Shown => encode_text(name, out),
        Names::Plain => encode_plain(name, out),
    }
}
