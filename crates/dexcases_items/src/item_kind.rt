//! The kinds of items.

/// The kind of an item.
#[derive(Clone, Copy, PartialEq, Eq, PartialOrd, Ord)]
pub enum ItemKind {
    /// A value.
    Value,
    /// The initial values of static fields.
    Statics,
    /// A set of annotations.
    Set,
    /// A directory of annotations.
    Directory,
    /// A debug program.
    Debug,
    /// A code item.
    Code,
    /// What a class row declares: its members, annotations and static values.
    Members,
}

impl ItemKind {
    /// Returns the kind that a word of a line names.
    pub fn of_word(word: &str) -> Option<ItemKind> {
        match word {
            "value" => Some(ItemKind::Value),
            "statics" => Some(ItemKind::Statics),
            "set" => Some(ItemKind::Set),
            "directory" => Some(ItemKind::Directory),
            "debug" => Some(ItemKind::Debug),
            "code" => Some(ItemKind::Code),
            "members" => Some(ItemKind::Members),
            _ => None,
        }
    }
}
