//! Ranks: the number of symbols of a numbering that are less than one that need not be there.

ghost use Rattle.std.specs.Prelude.{◌≡◌, ◌<◌, ◌≤◌, ℕ, List, All, length, slice_index_or};
ghost use Rattle.std.specs.Cmp.Lexicographic.{slice_cmp};
ghost use Rattle.dexspec.specs.Texts.{text_cmp};
ghost use Rattle.dexspec.specs.Symbols.{Proto, Field, Method, proto_cmp, field_cmp, method_cmp};
ghost use Rattle.dexspec.specs.Lists.{rank};
ghost use Rattle.dexpool.specs.Pools.{count_of};
ghost use Rattle.dexpool.specs.Numberings.{IsNumbering};
ghost use Rattle.dexpool.specs.internal.Ranking.{CountsLess, types_or};

use crate::numbering::Numbering;
use crate::symbols::{FieldSymbol, MethodSymbol, ProtoSymbol, SymbolKind};
use dexrows::TypeNumbers;
use dexstr::{Name, Text};
use std::cmp::Ordering;

impl<'a> Numbering<'a> {
    // The number of numbers of a kind that compare as less, where these come first.
    fn count_less<F: Fn(usize) -> Ordering>(&self, kind: SymbolKind, compare: F) -> usize
        requires { (i : ℕ) → i < count_of kind self.now → F.pre compare i }
        ensures numbering { IsNumbering self.now }
        ensures within { result ≤ count_of kind self.now }
        ensures less { CountsLess (F.post compare) (count_of kind self.now) result }
    {
        self.is_numbering();
        let mut low = 0;
        let mut high = self.count(kind);
        while low < high {
            let middle = low + (high - low) / 2;
            if compare(middle).is_lt() {
                low = middle + 1;
            } else {
                high = middle;
            }
        }
        low
    }

    // Compares the text of a number with another text.
    fn compare_string(&self, i: usize, text: &Text<'_>) -> Ordering
        requires { i < length self.now.texts }
        ensures { (d : List ℕ) → result ≡ text_cmp (slice_index_or self.now.texts i d) text.now }
    {
        self.string(i).cmp(text)
    }

    // Compares the type of a number with another type.
    fn compare_type(&self, i: usize, descriptor: &Text<'_>) -> Ordering
        requires { i < length self.now.types }
        ensures { (d : List ℕ)
            → result ≡ text_cmp (slice_index_or self.now.types i d) descriptor.now }
    {
        self.typ(i).cmp(descriptor)
    }

    // Compares the types of numbers with other types: the first that differ decide, and else a prefix comes first.
    fn compare_types(&self, numbers: &TypeNumbers<'_>, descriptors: &[Name]) -> Ordering
        requires { All (λ n. n < length self.now.types) numbers.now }
        ensures { (d : List ℕ)
            → result ≡ slice_cmp text_cmp (types_or self.now numbers.now d) descriptors.now }
    {
        for i in 0..numbers.len().min(descriptors.len()) {
            match self.compare_type(numbers.at(i), &descriptors[i].text()) {
                Ordering::Equal => {}
                unequal => return unequal,
            }
        }
        numbers.len().cmp(&descriptors.len())
    }

    // Compares the proto of a number with another proto.
    fn compare_proto(&self, i: usize, proto: &ProtoSymbol) -> Ordering
        requires { i < length self.now.protos }
        ensures { (d : Proto) → result ≡ proto_cmp (slice_index_or self.now.protos i d) proto.now }
    {
        let row = self.proto(i);
        match self.compare_type(row.return_type(), &proto.return_type.text()) {
            Ordering::Equal => self.compare_types(&row.parameters(), &proto.parameters),
            unequal => unequal,
        }
    }

    // Compares the field of a number with another field.
    fn compare_field(&self, i: usize, field: &FieldSymbol) -> Ordering
        requires { i < length self.now.fields }
        ensures { (d : Field) → result ≡ field_cmp (slice_index_or self.now.fields i d) field.now }
    {
        let row = self.field(i);
        match self.compare_type(row.class as usize, &field.class.text()) {
            Ordering::Equal => match self.compare_string(row.name as usize, &field.name.text()) {
                Ordering::Equal => self.compare_type(row.typ as usize, &field.typ.text()),
                unequal => unequal,
            },
            unequal => unequal,
        }
    }

    // Compares the method of a number with another method.
    fn compare_method(&self, i: usize, method: &MethodSymbol) -> Ordering
        requires { i < length self.now.methods }
        ensures { (d : Method)
            → result ≡ method_cmp (slice_index_or self.now.methods i d) method.now }
    {
        let row = self.method(i);
        match self.compare_type(row.class as usize, &method.class.text()) {
            Ordering::Equal => match self.compare_string(row.name as usize, &method.name.text()) {
                Ordering::Equal => self.compare_proto(row.proto as usize, &method.proto),
                unequal => unequal,
            },
            unequal => unequal,
        }
    }

    /// The number of lesser texts, from 0 on.
    ///
    /// Source: the order of the rows, "string_id_item".
    pub fn rank_string(&self, text: &Text<'_>) -> usize
        ensures { result ≡ rank text_cmp text.now self.now.texts }
    {
        self.count_less(SymbolKind::Text, |i| self.compare_string(i, text))
    }

    /// The number of lesser types, for a type by its descriptor, from 0 on.
    ///
    /// Source: the order of the rows, "type_id_item".
    pub fn rank_typ(&self, descriptor: &Text<'_>) -> usize
        ensures { result ≡ rank text_cmp descriptor.now self.now.types }
    {
        self.count_less(SymbolKind::Typ, |i| self.compare_type(i, descriptor))
    }

    /// The same as `rank_typ`.
    pub fn rank_type(&self, descriptor: &Text<'_>) -> usize
        ensures { result ≡ rank text_cmp descriptor.now self.now.types }
    {
        self.rank_typ(descriptor)
    }

    /// The number of lesser protos, from 0 on.
    ///
    /// Source: the order of the rows, "proto_id_item".
    pub fn rank_proto(&self, proto: &ProtoSymbol) -> usize
        ensures { result ≡ rank proto_cmp proto.now self.now.protos }
    {
        self.count_less(SymbolKind::Proto, |i| self.compare_proto(i, proto))
    }

    /// The number of lesser fields, from 0 on.
    ///
    /// Source: the order of the rows, "field_id_item".
    pub fn rank_field(&self, field: &FieldSymbol) -> usize
        ensures { result ≡ rank field_cmp field.now self.now.fields }
    {
        self.count_less(SymbolKind::Field, |i| self.compare_field(i, field))
    }

    /// The number of lesser methods, from 0 on.
    ///
    /// Source: the order of the rows, "method_id_item".
    pub fn rank_method(&self, method: &MethodSymbol) -> usize
        ensures { result ≡ rank method_cmp method.now self.now.methods }
    {
        self.count_less(SymbolKind::Method, |i| self.compare_method(i, method))
    }
}
