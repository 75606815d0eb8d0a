//! What follows from the bytes that are put, for the crates above. A function here does nothing: its contract
//! is the law.

ghost use Rattle.std.specs.Prelude.{◌≡◌, ℕ, List, take, drop};
ghost use Rattle.dexspec.specs.Placing.{Ordered};
ghost use Rattle.dexspec.specs.Canonical.{magic, header_bytes, with_sums};
ghost use Rattle.dexhead.specs.declared.head.Head.{Head};
ghost use Rattle.dexhead.specs.Sums.{with_sums_set};
ghost use Rattle.dexhead.specs.Laws.{HeadsTakeSums, HeadsHaveSums, FilesTakeSums, FilesHaveSums};
ghost use Rattle.dexhead.specs.Written.{StatesTables, field_bytes};

/// A header with the offsets of the tables and the data of classes in their file has, after its signature, the fields
/// that the canonical file has.
pub fn fields_law()
    ensures { (h : Head) (K : Ordered) → StatesTables h K
        → field_bytes h ≡ header_bytes K h.map_off h.file_size }
{}

/// A file that begins with the magic is, with the two sums set, what follows them with magic and sums before
/// it; so is a header followed by the rest of the file, whatever sums the header told.
pub fn sums_law()
    ensures file { (file : List ℕ) → take 8 file ≡ magic
        → with_sums_set file ≡ with_sums (drop 32 file) }
    ensures head { HeadsTakeSums }

    // A header with the right sums has the bytes that setting them would give.
    ensures reported { HeadsHaveSums }
{}

/// A header that describes all that follows it, followed by the rows, the sections and the map of classes in order,
/// with the two sums set, is their canonical file; so it is where the header has the right sums.
pub fn file_law()
    ensures set { FilesTakeSums }
    ensures reported { FilesHaveSums }
{}
