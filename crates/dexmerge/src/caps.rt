//! Caps: the most that a merged file may hold, and their kinds.

ghost use Rattle.std.specs.Prelude.{◌≡◌, ◌⊎◌, ◌<◌, IfSome, IfNone, Option, Some, None};
ghost use Rattle.dexspec.specs.Merging.{cap_number, AreCaps, greatest_caps};
ghost use Rattle.dexmerge.specs.CapKinds.{cap_meant, cap_name};
ghost use Rattle.dexmerge.specs.Capping.{caps_of, AreReturnedIfCaps};

use std::fmt;
use std::marker::Model;

/// What a cap bounds.
///
/// Source: this project's rule.
#[derive(Clone, Copy, Debug, PartialEq, Eq)]
pub enum CapKind {
    /// The types that the classes mention.
    Types = 1,
    /// The protos.
    Protos = 2,
    /// The fields.
    Fields = 3,
    /// The methods.
    Methods = 4,
    /// The strings up to the last one that a `const-string` names.
    ShortStrings = 5,
    /// The weight.
    Weight = 6,
}

impl CapKind {
    /// The number of the kind, from 1 to 6.
    pub fn number(self) -> u8
        ensures { result ≡ cap_number (cap_meant self) }
    {
        self as u8
    }

    /// The kind with a number, or `None` if none has it.
    pub fn of(number: u8) -> Option<CapKind>
        ensures some { IfSome result (λ kind. cap_number (cap_meant kind) ≡ number) }
        ensures none { IfNone result ((number ≡ 0) ⊎ (6 < number)) }
    {
        match number {
            1 => Some(CapKind::Types),
            2 => Some(CapKind::Protos),
            3 => Some(CapKind::Fields),
            4 => Some(CapKind::Methods),
            5 => Some(CapKind::ShortStrings),
            6 => Some(CapKind::Weight),
            _ => None,
        }
    }

    /// The name of the kind, as faults print it.
    pub fn name(self) -> &'static str
        ensures { result.now ≡ cap_name (cap_meant self) }
    {
        match self {
            CapKind::Types => "types",
            CapKind::Protos => "protos",
            CapKind::Fields => "fields",
            CapKind::Methods => "methods",
            CapKind::ShortStrings => "short-strings",
            CapKind::Weight => "weight",
        }
    }
}

impl fmt::Display for CapKind {
    fn fmt<W: fmt::Write>(&self, f: &mut fmt::Formatter<W>) -> fmt::Result {
        f.write_str(self.name())
    }
}

const MOST_TYPES: u32 = 65_535;

const MOST_PROTOS: u32 = 65_535;

const MOST_FIELDS: u32 = 65_536;

const MOST_METHODS: u32 = 65_536;

const MOST_SHORT_STRINGS: u32 = 65_536;

const MOST_WEIGHT: u32 = 1 << 30;

/// The most types, protos, fields and methods that a merged file may mention, the most texts up to that of a
/// `const-string`, and the most that the file may weigh. None is above what a file can hold.
///
/// Source: "Instruction Formats", the 16 bits of an index; the weight is this project's rule.
#[derive(Clone, Copy, Debug, PartialEq, Eq)]
pub struct Caps {
    types: u32,
    protos: u32,
    fields: u32,
    methods: u32,
    short_strings: u32,
    weight: u32,
}

impl Model for Caps {
    ghost use Rattle.dexspec.specs.Merging.{Caps, AreCaps};

    ghost Value = { Caps };

    ghost view = { λ c. record { types = c.types; protos = c.protos; fields = c.fields; methods = c.methods; short_strings = c.short_strings; weight = c.weight } };

    ghost inverse = { λ c. record { types = c.types; protos = c.protos; fields = c.fields; methods = c.methods; short_strings = c.short_strings; weight = c.weight } };

    ghost invariant = { λ c. AreCaps (record { types = c.types; protos = c.protos; fields = c.fields; methods = c.methods; short_strings = c.short_strings; weight = c.weight }) };
}

impl Caps {
    /// The greatest caps: 65,535 types and protos, 65,536 fields, methods and texts, a weight of 2^30.
    pub fn greatest() -> Caps
        ensures { result ≡ greatest_caps }
    {
        Caps {
            types: MOST_TYPES,
            protos: MOST_PROTOS,
            fields: MOST_FIELDS,
            methods: MOST_METHODS,
            short_strings: MOST_SHORT_STRINGS,
            weight: MOST_WEIGHT,
        }
    }

    /// Caps of these numbers, or `None` where one is above the greatest.
    pub fn new(
        types: u32,
        protos: u32,
        fields: u32,
        methods: u32,
        short_strings: u32,
        weight: u32,
    ) -> Option<Caps>
        ensures { AreReturnedIfCaps
            (caps_of types protos fields methods short_strings weight) result }
    {
        if types > MOST_TYPES || protos > MOST_PROTOS {
            return None;
        }
        if fields > MOST_FIELDS || methods > MOST_METHODS {
            return None;
        }
        if short_strings > MOST_SHORT_STRINGS || weight > MOST_WEIGHT {
            return None;
        }
        Some(Caps {
            types,
            protos,
            fields,
            methods,
            short_strings,
            weight,
        })
    }

    /// The most types.
    pub fn types(&self) -> u32
        ensures { result ≡ self.now.types }
    {
        self.types
    }

    /// The most protos.
    pub fn protos(&self) -> u32
        ensures { result ≡ self.now.protos }
    {
        self.protos
    }

    /// The most fields.
    pub fn fields(&self) -> u32
        ensures { result ≡ self.now.fields }
    {
        self.fields
    }

    /// The most methods.
    pub fn methods(&self) -> u32
        ensures { result ≡ self.now.methods }
    {
        self.methods
    }

    /// The number that the number of each text of a `const-string` is below.
    pub fn short_strings(&self) -> u32
        ensures { result ≡ self.now.short_strings }
    {
        self.short_strings
    }

    /// The most weight.
    pub fn weight(&self) -> u32
        ensures { result ≡ self.now.weight }
    {
        self.weight
    }

    /// Does nothing: its clause says that no cap is above the greatest.
    pub fn are_caps(&self)
        ensures { AreCaps self.now }
    {
        let _types = self.types;
    }
}
