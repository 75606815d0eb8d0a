//! The names of conditions.

ghost use Rattle.std.specs.Prelude.{◌≡◌, ◌⊎◌, ◌<◌};
ghost use Rattle.dexkit_c.specs.Calls.{IsNameOf};

use crate::faults::{Bytes, DONE, USAGE};
use dexhead::Condition;

/// Hands out the name of the condition with a number, as refusals print it; its bytes are the library's, and are not to
/// be freed. Returns 0 then, and 2 if no condition has the number.
///
/// Source: this project's rule.
#[unsafe(no_mangle)]
pub extern "C" fn dexkit_c_condition<'a>(number: u32, name: &mut Bytes<'a>) -> u32
    ensures named { result ≡ 0 → IsNameOf number name.new.bytes.now }
    ensures unknown { result ≡ 2 → (number ≡ 0) ⊎ (23 < number) }
    ensures no_other { (result ≡ 0) ⊎ (result ≡ 2) }
    ensures left { (result ≡ 0) ⊎ (name.new ≡ name.old) }
{
    let number = match u8::try_from(number) {
        Ok(number) => number,
        Err(_) => return USAGE,
    };
    match Condition::of(number) {
        Some(condition) => {
            name.bytes = condition.name().as_bytes();
            DONE
        }
        None => USAGE,
    }
}
