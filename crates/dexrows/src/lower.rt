//! Where the rows of lower tables went.

/// For each row of the three tables that rows name, by its number, the number that it has now.
#[derive(Clone, Copy)]
pub struct LowerPlaces<'p> {
    /// The new numbers of texts.
    pub strings: &'p [u32],
    /// The new numbers of types.
    pub types: &'p [u32],
    /// The new numbers of protos.
    pub protos: &'p [u32],
}
