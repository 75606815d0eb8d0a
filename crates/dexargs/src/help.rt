//! The texts of the program's help. Each line has at most 80 columns.

// The version, and the identity of the kit that the program is proved and built with.
pub(crate) const VERSION: &str = "1.0.0 (rattle-kit-13f logic dac8208d650f15bf)";

pub(crate) const ABOUT: &str =
    "Checks, merges, normalises, compares and lists DEX files of version 035";

pub(crate) const EXAMPLES_AND_STATUSES: &str = "\
Examples:
  dexkit check a.dex b.dex                Are these files accepted?
  dexkit merge -o app.dex a.dex b.dex     The same bytes in any order
  dexkit normalise a.dex normal.dex       The one form of a.dex's classes
  dexkit digest a.dex b.dex | sort        Which classes are equal?
  dexkit conflicts a.dex b.dex            Which copies of a class differ?
  dexkit diff old.dex new.dex             What has changed?
  dexkit count a.dex b.dex                How near is the 64K limit?
  dexkit dump a.dex                       Classes, members, instructions
  dexkit repair a.dex whole.dex           Sets checksum and signature right
  dexkit help check                       What each refusal means

In any command an argument @LIST is replaced by the lines of the file LIST, one
argument a line; ./@LIST is a file named @LIST, and so is @LIST after --. As
FILE, - is standard input, and as OUT, standard output; ./- is a file named -.
In FILE a control character is printed as \\u and four hexadecimal digits.

Exit statuses:
  0  done, or help or the version was printed
  1  a file or a merge was refused; or conflicts or changes were found
  2  usage error, or an argument or a list that is not UTF-8
  3  a file cannot be read, or the output cannot be written
  4  out of memory

Faults are lines on standard error. OUT is made or emptied at the first write:
what is refused leaves it alone, and it may be one of the files that are read.
A write that fails may leave OUT cut; with --atomic it is then as it was. A file
has at most 1073741824 bytes.";

pub(crate) const CHECK: &str = "Reports of each file whether it is accepted";

pub(crate) const CHECK_LONG: &str = "\
Reports of each file whether it is accepted, in a line on standard output:
`FILE: ok classes=N`, or `FILE: refused NUMBER NAME at PLACE`. It goes on after
a refused file, with status 1 at the end, and ends at one that cannot be read.";

pub(crate) const KEEP_GOING: &str = "Goes on after a file that cannot be read";

pub(crate) const NULL: &str = "\
Names end with a zero byte: in lists, and in lines
instead of `: ` or the line feed after them";

pub(crate) const NULL_LISTS: &str = "Names in lists end with a zero byte";

// The fault of an option for zero bytes that lists were not read by.
pub(crate) const NOT_ALONE: &str = "\
-z or --null is an argument of its own before --, and not of a list";

pub(crate) const VERBOSE: &str = "\
Says of a fault of a device its reason, and of a
refusal what it means and what to do";

pub(crate) const REFUSALS: &str = "\
Refusals. Of conditions 1 to 16 the first that fails is reported; if they hold,
any one of 17 to 23 that fails. PLACE is 0 for 1 to 10, but the version for 3;
the row of the pool for 11 to 15; the row of the class for 16 to 23. Rows count
from 0.

   1 Size         It has fewer than 112 bytes, or more than 1073741824: no whole
                  DEX file. Fetch or build it again.
   2 Magic        It does not begin as a DEX file does. Of an APK, AAR or JAR,
                  unpack classes.dex and name that.
   3 Version      It is of another version, as 38 for 038. Build with a min-api
                  below 24, or use a tool of that version.
   4 Lengths      It is not as long as its header says: it was cut, or something
                  was appended. Fetch or build it again.
   5 Endian       Its numbers are not little-endian. Rewrite it with a DEX tool.
   6 Link         It has link data. Take the file from before it was linked.
   7 Checksum     Its Adler-32 is not that of its bytes: it was changed after it
                  was written. Fetch it again, or, if the change is wanted, set
                  its checksum right with `dexkit repair`.
   8 Signature    Its SHA-1 is not that of its bytes, as in files of d8 0.2 to
                  1.4. Set its signature right with `dexkit repair`.
   9 Layout       Its pools or its data are not in order, or it has too many
                  types, protos, fields or methods.
  10 Map          Its map_list is out of order, or is not that of its header.
  11 Strings      A string is cut, is not MUTF-8, has a wrong length, or is out
                  of order.
  12 Types        A type is not a descriptor, or is out of order.
  13 Protos       The types or the shorty of a proto are wrong, or it is out of
                  order.
  14 Fields       A field's class, type or name is wrong, or it is out of order.
  15 Methods      A method's class, proto or name is wrong, or it is out of
                  order.
  16 Classes      A class is defined twice or before its superclass or an
                  interface, or its row is wrong.
  17 Members      The fields and methods of a class are out of order, of another
                  class, listed twice, or cut.
  18 Code         The code of a method has an unknown instruction, a wrong index
                  or a wrong target, or is cut.
  19 Tries        The tries or handlers of a method overlap, have a wrong
                  target, or are cut.
  20 Debug        The debug program of a method has a wrong index or number, or
                  is cut.
  21 Values       The static values of a class are more than its static fields,
                  of an unknown form, or cut.
  22 Annotations  The annotations of a class are out of order, of a member that
                  it does not declare, or cut.
  23 Weight       The classes are too large to be written as one file. Build
                  them as several.

If nothing else is said, a tool wrote what the format does not allow: build the
file again with a later tool, or rewrite it with any other DEX tool, and report
it to the maker of the first.";

pub(crate) const MERGE: &str = "Writes the canonical form of all classes of the files";

pub(crate) const MERGE_LONG: &str = "\
Writes the canonical form of all classes of the files: the same bytes in any
order and grouping of the files. Equal copies of a class are one. If two files
have different definitions of a class, a class is above itself, or a cap is
exceeded, that is reported, and nothing is written.";

pub(crate) const FAN: &str = "\
Merges N files or results at a time, 2 to 65535: the
same bytes [default: all files at once]";

pub(crate) const ATOMIC: &str = "\
Moves OUT into its place when it is whole: what fails
leaves it as it was";

// The fault of an output that cannot be moved.
pub(crate) const MOVED_STANDARD: &str = "--atomic cannot be used with standard output as OUT";

// The fault of a comparison without its two sides.
pub(crate) const NO_SIDES: &str = "\
diff takes OLD and NEW, or the files of each by --from and --to";

// The fault of a value of `--by` that means nothing, and of `--by` beside `--each`.
pub(crate) const BY_PACKAGE: &str = "--by takes `package`, and cannot be used with --each";

// The fault of arguments that clap lets pass and that ask for no job.
pub(crate) const NO_JOB: &str = "these arguments ask for nothing";

pub(crate) const STRIP: &str = "\
Leaves out debug programs and source texts (the files
are checked with them)";

pub(crate) const MAX_TYPES: &str = "At most N types, from 0 to 65535 [default: 65535]";

pub(crate) const MAX_PROTOS: &str = "At most N protos, from 0 to 65535 [default: 65535]";

pub(crate) const MAX_FIELDS: &str = "At most N fields, from 0 to 65536 [default: 65536]";

pub(crate) const MAX_METHODS: &str = "At most N methods, from 0 to 65536 [default: 65536]";

pub(crate) const MAX_WEIGHT: &str = "\
A weight of at most N, a bound on the bytes written,
from 0 to 1073741824 [default: 1073741824]";

pub(crate) const NORMALISE: &str = "Writes the canonical form of a file";

pub(crate) const NORMALISE_LONG: &str = "\
Writes the canonical form of a file: two files of the same classes have the same
one, byte for byte. It has each string, type and member that the classes
mention, and nothing else.";

pub(crate) const DIGEST: &str = "Prints a digest of each class of the files";

pub(crate) const DIGEST_LONG: &str = "\
Prints a line `DIGEST<tab>CLASS<tab>FILE` for each class of the files, each file
in order and its classes in canonical order. DIGEST is the signature (a SHA-1)
of the canonical file of that class alone: equal classes have equal digests in
whatever file they are. It goes on after a refused file, with status 1 at the
end.";

pub(crate) const CONFLICTS: &str = "Lists the classes of which not all copies are equal";

pub(crate) const CONFLICTS_LONG: &str = "\
Prints a line `CLASS<tab>DIGEST<tab>FILE` for each copy of the classes of which
not all copies in the files are equal: by class, then in the order of the files.
The status is 1 if there is one, and 0 if there is none. DIGEST is that of
`digest`.";

pub(crate) const DIFF: &str = "Lists the classes that changed from old files to new ones";

pub(crate) const DIFF_LONG: &str = "\
Prints a line `CHANGE<tab>CLASS` for each class that differs between OLD and
NEW, by class. CHANGE is `added` if no OLD has it, `removed` if no NEW has it,
and `changed` if both have it and not all copies are equal. The status is 1 if
there is one, and 0 if there is none. For several files on a side, name both
sides by options, as in `dexkit diff --from @old --to @new`.";

pub(crate) const STRIP_COMPARED: &str = "Compares without debug programs and source texts";

pub(crate) const FROM: &str = "The old files, instead of one OLD";

pub(crate) const TO: &str = "The new files, instead of one NEW";

pub(crate) const OLD: &str = "The old DEX file";

pub(crate) const NEW: &str = "The new DEX file";

pub(crate) const COUNT: &str = "Counts what a merge of the files would have";

pub(crate) const COUNT_LONG: &str = "\
Prints what a merge of the files would have, beside the most that a file may
have: a line each for types, protos, fields, methods, short-strings and weight,
as `methods 65603 of 65536`, then classes and strings. Nothing is refused for
being too much. A conflict or a cycle is reported as merge reports it.

With --each, prints a line for each file, in order: the eight numbers in the
order above, and FILE, with tabs between them. It goes on after a refused file,
with status 1 at the end.

With --by package, prints a line for each package, in order: the eight numbers
that a file with just its classes has, and the package, with tabs between them.
The package of Lcom/foo/Bar; is com/foo, and that of a class without one is `.`.
Conflicts and cycles between packages are reported, and then nothing is printed.";

pub(crate) const EACH: &str = "Counts what each of the files has, in a line each";

pub(crate) const BY: &str = "Counts what the classes of each package have, for `package`";

pub(crate) const DUMP: &str = "Lists the classes of a file, with members and instructions";

pub(crate) const DUMP_LONG: &str = "\
Lists the classes of a file, with members and instructions, in the order of the
canonical file. With --class it lists the classes of these names alone, in the
same order and with the same lines. If no class has one of the names, that is
reported with status 1, and nothing is written.

With --all it lists all that the classes have: the operands of instructions,
values, annotations, tries and debug programs. Two classes with the same lines
are the same.";

pub(crate) const ALL: &str = "Lists all that the classes have";

pub(crate) const CLASS: &str = "\
Lists the class of this name alone, as `dump` prints it,
for example 'Lcom/example/A;'; may be given several times";

pub(crate) const REPAIR: &str = "Writes a file with its checksum and signature set right";

pub(crate) const REPAIR_LONG: &str = "\
Writes FILE to OUT with its checksum and signature set right, and nothing else
changed, if what comes out is accepted. If it is not, its refusal is reported,
and nothing is written.";

pub(crate) const FILES: &str = "A DEX file, of which there is one or more";

pub(crate) const FILE: &str = "The DEX file that is read";

pub(crate) const OUT: &str = "The file that is written";
