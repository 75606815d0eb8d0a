//! What each refusal means, and what to do then, at the number of its condition. The help of `check` and the manual
//! have these texts too.

// What to do where nothing else is known.
const GENERAL: &str =
    "A tool wrote what the format does not allow: build the file again with a later tool, or \
    rewrite it with any other DEX tool, and report it to the maker of the first.";

/// What it means that a file does not meet a condition. No condition has the number 0.
pub const MEANINGS: [&str; 24] = [
    "",
    "It has fewer than 112 bytes, or more than 1073741824: no whole DEX file.",
    "It does not begin as a DEX file does.",
    "It is of another version, as 38 for 038.",
    "It is not as long as its header says: it was cut, or something was appended.",
    "Its numbers are not little-endian.",
    "It has link data.",
    "Its Adler-32 is not that of its bytes: it was changed after it was written.",
    "Its SHA-1 is not that of its bytes, as in files of d8 0.2 to 1.4.",
    "Its pools or its data are not in order, or it has too many types, protos, fields or \
     methods.",
    "Its map_list is out of order, or is not that of its header.",
    "A string is cut, is not MUTF-8, has a wrong length, or is out of order.",
    "A type is not a descriptor, or is out of order.",
    "The types or the shorty of a proto are wrong, or it is out of order.",
    "A field's class, type or name is wrong, or it is out of order.",
    "A method's class, proto or name is wrong, or it is out of order.",
    "A class is defined twice or before its superclass or an interface, or its row is wrong.",
    "The fields and methods of a class are out of order, of another class, listed twice, or cut.",
    "The code of a method has an unknown instruction, a wrong index or a wrong target, or is \
     cut.",
    "The tries or handlers of a method overlap, have a wrong target, or are cut.",
    "The debug program of a method has a wrong index or number, or is cut.",
    "The static values of a class are more than its static fields, of an unknown form, or cut.",
    "The annotations of a class are out of order, of a member that it does not declare, or cut.",
    "The classes are too large to be written as one file.",
];

/// What to do about a file that does not meet a condition. No condition has the number 0.
pub const REMEDIES: [&str; 24] = [
    "",
    "Fetch or build it again.",
    "Of an APK, AAR or JAR, unpack classes.dex and name that.",
    "Build with a min-api below 24, or use a tool of that version.",
    "Fetch or build it again.",
    "Rewrite it with a DEX tool.",
    "Take the file from before it was linked.",
    "Fetch it again, or, if the change is wanted, set its checksum right with `dexkit repair`.",
    "Set its signature right with `dexkit repair`.",
    GENERAL,
    GENERAL,
    GENERAL,
    GENERAL,
    GENERAL,
    GENERAL,
    GENERAL,
    GENERAL,
    GENERAL,
    GENERAL,
    GENERAL,
    GENERAL,
    GENERAL,
    GENERAL,
    "Build them as several.",
];
