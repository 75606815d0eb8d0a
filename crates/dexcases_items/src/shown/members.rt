//! Members, as a listing has them.

use crate::shown::code::print_lines;
use crate::shown::symbols::{Naming, print_field, print_method};
use dexcases::Printed;
use dexmembers::{Fields, Members, Method, Methods};
use dexpool::Numbering;

// The access flags of fields and of methods, from the lowest bit. Two bits have other names for methods.
const FLAGS: [(u32, &str, &str); 17] = [
    (0x1, "public", "public"),
    (0x2, "private", "private"),
    (0x4, "protected", "protected"),
    (0x8, "static", "static"),
    (0x10, "final", "final"),
    (0x20, "synchronized", "synchronized"),
    (0x40, "volatile", "bridge"),
    (0x80, "transient", "varargs"),
    (0x100, "native", "native"),
    (0x200, "interface", "interface"),
    (0x400, "abstract", "abstract"),
    (0x800, "strict", "strict"),
    (0x1000, "synthetic", "synthetic"),
    (0x2000, "annotation", "annotation"),
    (0x4000, "enum", "enum"),
    (0x1_0000, "constructor", "constructor"),
    (0x2_0000, "declared-synchronized", "declared-synchronized"),
];

// Prints flags: ` flags=0xNUMBER(NAME,NAME)`.
fn print_flags(flags: u32, is_method: bool, out: &mut Printed) {
    out.add(" flags=0x");
    out.add_hex(u64::from(flags), 1);
    out.add("(");
    let mut is_first = true;
    for (bit, of_field, of_method) in &FLAGS {
        if flags & *bit != 0 {
            out.add(if is_first { "" } else { "," });
            out.add(if is_method { of_method } else { of_field });
            is_first = false;
        }
    }
    out.add(")");
}

// Prints fields of a kind, with a separator before the first unless `are_first`.
fn print_fields(
    are_first: bool,
    kind: &str,
    fields: &Fields<'_>,
    numbering: &Numbering<'_>,
    out: &mut Printed,
) {
    let mut mark = if are_first { "" } else { " / " };
    for i in 0..fields.len() {
        let field = fields.get(i);
        out.add(mark);
        out.add(kind);
        print_field(Naming::Alone, numbering, field.number() as usize, out);
        print_flags(field.flags().bits(), false, out);
        mark = " / ";
    }
}

// Prints a method with the lines of its code.
fn print_coded(method: &Method<'_, '_>, numbering: &Numbering<'_>, out: &mut Printed) {
    print_method(Naming::Alone, numbering, method.number() as usize, out);
    print_flags(method.flags().bits(), true, out);
    if let Some(code) = method.code() {
        out.add(" / ");
        print_lines(&code, numbering, out);
    }
}

// Prints methods of a kind, with a separator before the first unless `are_first`.
fn print_methods(
    are_first: bool,
    kind: &str,
    methods: &Methods<'_, '_>,
    numbering: &Numbering<'_>,
    out: &mut Printed,
) {
    let mut mark = if are_first { "" } else { " / " };
    for i in 0..methods.len() {
        out.add(mark);
        out.add(kind);
        print_coded(&methods.get(i), numbering, out);
        mark = " / ";
    }
}

/// Prints the lines of members, or `-` if there are none.
pub fn print_members(members: &Members<'_>, names: &Numbering<'_>, out: &mut Printed) {
    let fields = members.static_fields();
    print_fields(true, "static-field ", &fields, names, out);
    let are_first = fields.is_empty();
    let fields = members.instance_fields();
    print_fields(are_first, "instance-field ", &fields, names, out);
    let are_first = are_first && fields.is_empty();
    let methods = members.direct_methods();
    print_methods(are_first, "direct-method ", &methods, names, out);
    let are_first = are_first && methods.is_empty();
    let methods = members.virtual_methods();
    print_methods(are_first, "virtual-method ", &methods, names, out);
    if are_first && methods.is_empty() {
        out.add("-");
    }
}
