//! The canonical bytes of an item encode the item, in a file in which each symbol is in the row of its index.
ghost use Rattle.std.specs.Prelude.{ℕ, ℤ, ◌^◌, ◌<◌, List, FitsSigned};
ghost use Rattle.std.specs.Int.{w32};
ghost use Rattle.dexspec.specs.Numbers.{Uleb128At, Sleb128At, uleb128, sleb128};
ghost use Rattle.dexspec.specs.Texts.{Text};
ghost use Rattle.dexspec.specs.Values.{Values, ValueAt, ValuesAt, ElementsAt};
ghost use Rattle.dexspec.specs.Annotations.{AnnotationAt};
ghost use Rattle.dexspec.specs.Debug.{OperationAt, DebugAt};
ghost use Rattle.dexspec.specs.Pieces.{Cut};
ghost use Rattle.dexspec.specs.Code.{Handler};
ghost use Rattle.dexspec.specs.Classes.{Body, Definition};
ghost use Rattle.dexspec.specs.Mentions.{Mentions, value_symbols, values_symbols, elements_symbols, annotation_symbols, operation_symbols, debug_symbols};
ghost use Rattle.dexspec.specs.Spellings.{value_bytes, values_bytes, elements_bytes, annotation_bytes, operation_bytes, debug_bytes};
ghost use Rattle.dexspec.specs.WellFormed.{IsValue, AreValues, AreElements, IsAnnotation, IsOperation, IsDebug};
ghost use Rattle.dexlaws.specs.Written.{Encodes, PlusOnesAreWritten, AreWritten, AreWrittenInData, ArrayIsWritten, SetsAreWritten, RefListsAreWritten, DirectoriesAreWritten, HandlersAreWritten, CodeIsWritten, ClassDataIsWritten, MemberIndicesRise, OwnDirectoryIsWritten, OwnDirectoryIsEmpty, HasFieldAnnotations, HasMethodAnnotations, HasParameterAnnotations, IndicesFit, HandlerOffsetsFit};

/// The shortest LEB128 of a number in range encodes the number.
pub fn numbers_written()
    ensures unsigned { (b : List ℕ) (o v : ℕ) → v < 2 ^ 32 → Encodes Uleb128At b o v (uleb128 v) }
    ensures signed { (b : List ℕ) (o : ℕ) (z : ℤ) → FitsSigned w32 z
        → Encodes Sleb128At b o z (sleb128 z) }
    ensures one_more { (b : List ℕ) (o : ℕ) → PlusOnesAreWritten b o }
{}

/// The bytes of values, of elements of an annotation and of an array encode them.
pub fn values_written()
    ensures value { AreWritten ValueAt IsValue value_symbols value_bytes }
    ensures values { AreWritten ValuesAt AreValues values_symbols values_bytes }
    ensures elements { AreWritten ElementsAt AreElements elements_symbols elements_bytes }
    ensures array { (b : List ℕ) (m : Mentions) (o : ℕ) (vs : Values) → AreValues vs
        → ArrayIsWritten b m o vs }
{}

/// The bytes of an annotation, in the data, encode it.
pub fn annotation_written()
    ensures { AreWrittenInData AnnotationAt IsAnnotation annotation_symbols annotation_bytes }
{}

/// The offsets of the annotations of a set, after their count and in the data, encode the set; those of sets,
/// or 0 for an empty one, encode a ref list.
pub fn sets_written()
    ensures set { (b : List ℕ) (o : ℕ) → SetsAreWritten b o }
    ensures ref_list { (b : List ℕ) (o : ℕ) → RefListsAreWritten b o }
{}

/// The counts of a directory and its pairs of an index and an offset, in the data, encode the directory whose sets and
/// ref lists are at the offsets.
pub fn directory_written()
    ensures { (b : List ℕ) (o own : ℕ) → DirectoriesAreWritten b o own }
{}

/// The bytes of an operation encode it, and the bytes of a debug program, in the data, encode the program.
pub fn debug_written()
    ensures operation { AreWritten OperationAt IsOperation operation_symbols operation_bytes }
    ensures program { AreWrittenInData DebugAt IsDebug debug_symbols debug_bytes }
{}

/// The bytes of a handler encode it, if its addresses fit 32 bits.
pub fn handler_written()
    ensures { (units : List ℕ) (cuts : List Cut) → HandlersAreWritten units cuts }
{}

/// The bytes of class data, in the data, encode the members of the class, with the offsets of their code.
pub fn class_data_written()
    ensures { (b : List ℕ) (m : Mentions) (o : ℕ) → ClassDataIsWritten b m o }
{}

/// The bytes of a code item, at a multiple of four in the data, encode it, if its debug program, if it has one, is at
/// the offset in them, and each index of 16 bits fits its field.
pub fn code_written()
    ensures { (b : List ℕ) (m : Mentions) (o debug_off : ℕ) → CodeIsWritten b m o debug_off }
{}

/// In the pools of definitions, the indices of the members of each of a class's four lists rise.
pub fn indices_rise()
    ensures { (D : List Definition) (name : Text) (c : Body) → MemberIndicesRise D name c }
{}

/// A class's directory, in the data, encodes the annotations of the class and its members, if its sets and ref lists
/// are at the offsets. If it has no bytes, the class and its members have no annotation. The directory has the list of
/// each member.
pub fn own_directory_written()
    ensures some { (D : List Definition) (b : List ℕ) (o : ℕ) → OwnDirectoryIsWritten D b o }
    ensures none { (D : List Definition) (b : List ℕ) → OwnDirectoryIsEmpty D b }
    ensures fields { (name : Text) (c : Body) → HasFieldAnnotations name c }
    ensures methods { (name : Text) (c : Body) → HasMethodAnnotations name c }
    ensures parameters { (name : Text) (c : Body) → HasParameterAnnotations name c }
{}

/// Values in fields of 16 bits fit: the indices of instructions, in definitions that fit the greatest caps, and the
/// offsets of handlers, if the types are few and the handlers light.
pub fn places_fit()
    ensures indices { (D : List Definition) (d : Definition) → IndicesFit D d }
    ensures handlers { (m : Mentions) (hs : List Handler) → HandlerOffsetsFit m hs }
{}
