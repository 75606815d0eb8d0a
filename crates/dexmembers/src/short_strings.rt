//! Texts that a const-string names in the code of what classes declare, and numbers that fit their places.

ghost use Rattle.std.specs.Prelude.{All};
ghost use Rattle.std.specs.List.{flat_map};
ghost use Rattle.dexinsn.specs.Fitting.{IsGreatest};
ghost use Rattle.dexmembers.specs.Fitting.{MethodFits, NumbersFit, method_short_strings, members_short_strings};

use crate::{Members, Method, Methods};

// The greatest such number in the code of methods.
fn greatest_of_methods(methods: &Methods<'_, '_>) -> Option<u32>
    ensures { IsGreatest (flat_map method_short_strings methods.now) result }
{
    let mut greatest = None;
    for i in 0..methods.len() {
        greatest = greatest.max(methods.get(i).greatest_short_string());
    }
    greatest
}

// Each number in the code of methods fits its place.
fn methods_fit_now(methods: &Methods<'_, '_>)
    ensures { All MethodFits methods.now }
{
    for i in 0..methods.len() {
        if let Some(code) = methods.get(i).code() {
            code.numbers_fit();
        }
    }
}

impl Method<'_, '_> {
    // The greatest such number in the method's code.
    fn greatest_short_string(&self) -> Option<u32>
        ensures { IsGreatest (method_short_strings self.now) result }
    {
        self.code()?.greatest_short_string()
    }
}

impl Members<'_> {
    /// The greatest number of a text that a const-string names in the code of the methods, not counting
    /// const-string/jumbo, or `None` where there is no const-string.
    ///
    /// Source: "code_item", the field `insns`.
    pub fn greatest_short_string(&self) -> Option<u32>
        ensures { IsGreatest (members_short_strings self.now) result }
    {
        greatest_of_methods(&self.direct_methods()).max(greatest_of_methods(
            &self.virtual_methods(),
        ))
    }

    /// Each number in the code of the methods fits its place: it is below 2^16 in an instruction but for
    /// const-string/jumbo, below 2^32 for a type that is caught, and below 2^32 - 1 in a debug program. The call
    /// changes nothing: its contract states what holds of the numbers of all members, for the proofs of callers.
    pub fn numbers_fit(&self)
        ensures { NumbersFit self.now }
    {
        methods_fit_now(&self.direct_methods());
        methods_fit_now(&self.virtual_methods());
    }
}
