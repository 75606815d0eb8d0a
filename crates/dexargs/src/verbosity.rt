//! Whether arguments ask for more on each fault.

ghost use Rattle.std.specs.Prelude.{◌≡◌, map, string_bytes};
ghost use Rattle.dexargs.specs.Verbosity.{is_verbose};

use crate::lists::is_separator;

/// Returns whether `--verbose` is one of the arguments, before `--`. Where the arguments are a command's, that is how
/// [`read_words`](crate::read_words) takes them too: no option has it as its value.
pub fn is_verbose(arguments: &[String]) -> bool
    ensures { result ≡ is_verbose (map string_bytes arguments.now) }
{
    for argument in arguments {
        let text = argument.as_str();
        if is_separator(text) {
            return false;
        }
        if text == "--verbose" {
            return true;
        }
    }
    false
}
