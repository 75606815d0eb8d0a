//! Class data written.

ghost use Rattle.std.specs.Prelude.{◌≡◌, ◌+◌, ◌*◌, ◌≤◌, length, IsOk, vec_len, vec_capacity};
ghost use Rattle.dexspec.specs.internal.Writing.{Puts};
ghost use Rattle.dexmembers.specs.Numbered.{fields_of, methods_of};
ghost use Rattle.dexmembers.specs.Spelled.{numbered_fields_bytes, numbered_methods_bytes, numbered_class_data_bytes, PutsDenotedClassData, class_data_room};

use crate::{Fields, Members, Methods, members_bytes_law};
use dexhead::{Encode, Output, put_encoded};
use std::alloc::AllocError;

// Writes encoded_fields, each number as the difference to the one before.
fn encode_fields<O: Output>(fields: &Fields<'_>, out: &mut O)
    ensures { O.gives (numbered_fields_bytes 0 fields.now) out.old out.new }
{
    let mut last = 0;
    for i in 0..fields.len() {
        let field = fields.get(i);
        out.uleb(field.number().saturating_sub(last));
        out.uleb(field.flags().bits());
        last = field.number();
    }
}

// Writes encoded_methods, each number as the difference to the one before, and each with the offset of its code.
fn encode_methods<O: Output>(methods: &Methods<'_, '_>, code_offs: &[u32], out: &mut O)
    requires { length code_offs.now ≡ length methods.now }
    ensures { O.gives (numbered_methods_bytes 0 methods.now code_offs.now) out.old out.new }
{
    let mut last = 0;
    for i in 0..methods.len() {
        let method = methods.get(i);
        out.uleb(method.number().saturating_sub(last));
        out.uleb(method.flags().bits());
        out.uleb(code_offs[i]);
        last = method.number();
    }
}

// The members of a class, to be encoded as a class_data_item, with the offset of the code of each method.
#[derive(Drop)]
struct ClassDataItem<'i, 'a> {
    members: &'i Members<'a>,
    code_offs: &'i [u32],
}

impl Encode for ClassDataItem<'_, '_> {
    ghost formed = { λ i. length i.code_offs.now ≡ length (methods_of i.members.now) };

    ghost bytes = { λ i. numbered_class_data_bytes i.members.now i.code_offs.now };

    fn encode<O: Output>(&self, out: &mut O) {
        let members = self.members;
        members.are_few();
        let static_fields = members.static_fields();
        let instance_fields = members.instance_fields();
        let direct_methods = members.direct_methods();
        let virtual_methods = members.virtual_methods();
        out.uleb(static_fields.len() as u32);
        out.uleb(instance_fields.len() as u32);
        out.uleb(direct_methods.len() as u32);
        out.uleb(virtual_methods.len() as u32);
        encode_fields(&static_fields, out);
        encode_fields(&instance_fields, out);
        let (direct_offs, virtual_offs) = self.code_offs.split_at(direct_methods.len());
        encode_methods(&direct_methods, direct_offs, out);
        encode_methods(&virtual_methods, virtual_offs, out);
    }
}

/// Appends an item of at most `most` bytes. It is measured only if there is no room for `most` bytes.
pub(crate) fn append<T: Encode>(item: &T, most: usize, out: &mut Vec<u8>) -> Result<(), AllocError>
    requires formed { T.formed item.now }
    requires most { length (T.bytes item.now) ≤ most }
    ensures { Puts (T.bytes item.now) out.old out.new result }
{
    if most > out.capacity() - out.len() {
        return put_encoded(item, out);
    }
    item.encode(out);
    Ok(())
}

impl Members<'_> {
    /// Appends the class_data_item: the counts of the four lists, and then each field as the difference of its number
    /// to that of the one before it and its access flags, and each method so with the offset of its code, each number a
    /// uleb128 in the fewest bytes. `code_offs` has the offset of the code of each method, the direct ones first, and 0
    /// where there is none.
    ///
    /// A class without members has no item in the canonical file: the caller leaves it out.
    ///
    /// Error: the allocation failed; the vector is then as it was. It does not fail where the spare room is at least 20
    /// bytes, ten for each field and 15 for each method. Condition: there is an offset for each method. Nothing else is
    /// allocated.
    ///
    /// Source: "class_data_item", "encoded_field format" and "encoded_method format".
    pub fn put_class_data(&self, code_offs: &[u32], out: &mut Vec<u8>) -> Result<(), AllocError>
        requires offsets { length code_offs.now ≡ length (methods_of self.now) }
        ensures bytes { Puts
            (numbered_class_data_bytes self.now code_offs.now) out.old out.new result }
        ensures symbolic { PutsDenotedClassData self.now code_offs.now out.old out.new result }
        ensures room { vec_len out.old + class_data_room self.now ≤ vec_capacity out.old
            → IsOk result }
    {
        members_bytes_law();
        self.are_few();
        // No class data of as many members has more bytes.
        let most = 20 + 10 * self.field_count() + 15 * self.method_count();
        let item = ClassDataItem {
            members: self,
            code_offs,
        };
        append(&item, most, out)
    }
}
