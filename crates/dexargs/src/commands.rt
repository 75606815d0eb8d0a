//! The commands of the program and their arguments, as clap reads them.
//!
//! No argument has a rule on another one, and none is global: so the definitions of clap say of all arguments whether it
//! takes them, and what their matches are. Arguments that exclude one another are refused where a job is made of the
//! matches, by `specs/Asked`.

ghost use Rattle.std.specs.Prelude.{◌++◌, ◌∷◌, [], IfOk, codes};
ghost use Rattle.clap.specs.Simple.{App, Shape, new_app, with_subcommand};
ghost use Rattle.dexargs.specs.CommandLine.{IsMade, Adds, IsArgument, lone, flag_rule, number_rule, one_rule, side_rule, sides_rule, files_rule, null_rule, out_rule, class_rule, by_rule, verbose_rule, caps_rules, stripping_rules, copying_rules, check_command, merge_command, normalise_command, digest_command, conflicts_command, diff_command, count_command, dump_command, repair_command, program_alone, program_app};

use crate::help;
use clap::builder::ValueParser;
use clap::{Arg, ArgAction, Command, value_parser};
use dexmerge::Caps;
use std::alloc::{AllocError, Global};

// The option for names that end with a zero byte.
pub(crate) const NULL: &str = "null";

pub(crate) const LEAST_FAN: u32 = 2;

pub(crate) const GREATEST_FAN: u32 = 65_535;

// Returns a required value.
fn one<'a>(alloc: Global, id: &'a str, name: &'a str, help: &'a str) -> Arg<'a>
    ensures { IsArgument (one_rule id.entry.now) result }
{
    Arg::new(alloc, id)
        .value_name(name)
        .required(true)
        .help(help)
}

fn files<'a>(alloc: Global) -> Arg<'a>
    ensures { IsArgument files_rule result }
{
    one(alloc, "files", "FILE", help::FILES)
        .num_args(1..)
        .action(ArgAction::Append)
}

// Returns an option without a value.
fn flag<'a>(alloc: Global, id: &'a str, help: &'a str) -> Arg<'a>
    ensures { IsArgument (flag_rule id.entry.now) result }
{
    Arg::new(alloc, id)
        .long(id)
        .help(help)
        .action(ArgAction::SetTrue)
}

// Returns an option whose value is a number from `least` to `greatest`.
fn number<'a>(alloc: Global, id: &'a str, least: u32, greatest: u32, help: &'a str) -> Arg<'a>
    ensures { IsArgument (number_rule id.entry.now least greatest) result }
{
    Arg::new(alloc, id)
        .long(id)
        .value_name("N")
        .help(help)
        .value_parser(value_parser!(u32).range(i64::from(least)..=i64::from(greatest)))
}

// Returns the option for names that end with a zero byte.
fn null<'a>(alloc: Global, help: &'a str) -> Arg<'a>
    ensures { IsArgument null_rule result }
{
    flag(alloc, NULL, help).short('z')
}

// Returns the option for more on each fault, which help lists among the first.
fn verbose<'a>(alloc: Global) -> Arg<'a>
    ensures { IsArgument verbose_rule result }
{
    flag(alloc, "verbose", help::VERBOSE).display_order(0)
}

// Adds the option for how names end, the files that a command reads, and the option for more on each fault.
fn over_files<'a>(
    alloc: Global,
    command: Command<'a>,
    help: &'a str,
) -> Result<Command<'a>, AllocError>
    ensures { IfOk result (Adds (null_rule ∷ files_rule ∷ verbose_rule ∷ []) command.entry) }
{
    command
        .arg(null(alloc, help))?
        .arg(files(alloc))?
        .arg(verbose(alloc))
}

// Returns a command without arguments.
fn described<'a>(alloc: Global, name: &'a str, about: &'a str, long: &'a str) -> Command<'a>
    ensures { IsMade (new_app name.entry.now) result }
{
    Command::new(alloc, name).about(about).long_about(long)
}

fn check<'a>(alloc: Global) -> Result<Command<'a>, AllocError>
    ensures { IfOk result (IsMade (lone check_command)) }
{
    let command = described(alloc, "check", help::CHECK, help::CHECK_LONG)
        .after_long_help(help::REFUSALS)
        .arg(flag(alloc, "keep-going", help::KEEP_GOING))?;
    over_files(alloc, command, help::NULL)
}

// Returns the option that names the file that a merge writes.
fn out<'a>(alloc: Global) -> Arg<'a>
    ensures { IsArgument out_rule result }
{
    one(alloc, "out", "OUT", help::OUT).short('o').long("out")
}

// Adds the name of the file that a merge writes, and how it is written.
fn with_out<'a>(alloc: Global, command: Command<'a>) -> Result<Command<'a>, AllocError>
    ensures { IfOk result (Adds
        (out_rule ∷ flag_rule (codes "atomic") ∷ flag_rule (codes "strip") ∷ []) command.entry) }
{
    command
        .arg(out(alloc))?
        .arg(flag(alloc, "atomic", help::ATOMIC))?
        .arg(flag(alloc, "strip", help::STRIP))
}

// Adds the caps of pools of a merge.
fn with_caps<'a>(alloc: Global, command: Command<'a>) -> Result<Command<'a>, AllocError>
    ensures { IfOk result (Adds caps_rules command.entry) }
{
    let caps = Caps::greatest();
    command
        .arg(number(alloc, "max-types", 0, caps.types(), help::MAX_TYPES))?
        .arg(number(alloc, "max-protos", 0, caps.protos(), help::MAX_PROTOS))?
        .arg(number(alloc, "max-fields", 0, caps.fields(), help::MAX_FIELDS))?
        .arg(number(alloc, "max-methods", 0, caps.methods(), help::MAX_METHODS))?
        .arg(number(alloc, "max-weight", 0, caps.weight(), help::MAX_WEIGHT))
}

fn merge<'a>(alloc: Global) -> Result<Command<'a>, AllocError>
    ensures { IfOk result (IsMade (lone merge_command)) }
{
    let command = with_out(
        alloc,
        described(alloc, "merge", help::MERGE, help::MERGE_LONG),
    )?;
    let command = command.arg(number(alloc, "fan", LEAST_FAN, GREATEST_FAN, help::FAN))?;
    over_files(alloc, with_caps(alloc, command)?, help::NULL_LISTS)
}

// Returns a command over files that may leave out debug programs and source texts.
fn stripping<'a>(
    alloc: Global,
    command: Command<'a>,
    help: &'a str,
) -> Result<Command<'a>, AllocError>
    ensures { IfOk result (Adds (stripping_rules ++ verbose_rule ∷ []) command.entry) }
{
    over_files(alloc, command.arg(flag(alloc, "strip", help))?, help::NULL)
}

fn digest<'a>(alloc: Global) -> Result<Command<'a>, AllocError>
    ensures { IfOk result (IsMade (lone digest_command)) }
{
    let command = described(alloc, "digest", help::DIGEST, help::DIGEST_LONG);
    stripping(alloc, command, help::STRIP)
}

fn conflicts<'a>(alloc: Global) -> Result<Command<'a>, AllocError>
    ensures { IfOk result (IsMade (lone conflicts_command)) }
{
    let command = described(alloc, "conflicts", help::CONFLICTS, help::CONFLICTS_LONG);
    stripping(alloc, command, help::STRIP_COMPARED)
}

// Returns one of the two files of a comparison, in place of which an option names several.
fn side<'a>(alloc: Global, id: &'a str, name: &'a str, help: &'a str) -> Arg<'a>
    ensures { IsArgument (side_rule id.entry.now) result }
{
    Arg::new(alloc, id).value_name(name).help(help)
}

// Returns the option that names the files of a side of a comparison.
fn sides<'a>(alloc: Global, id: &'a str, name: &'a str, help: &'a str) -> Arg<'a>
    ensures { IsArgument (sides_rule id.entry.now) result }
{
    Arg::new(alloc, id)
        .long(id)
        .value_name(name)
        .num_args(1..)
        .action(ArgAction::Append)
        .help(help)
}

fn diff<'a>(alloc: Global) -> Result<Command<'a>, AllocError>
    ensures { IfOk result (IsMade (lone diff_command)) }
{
    described(alloc, "diff", help::DIFF, help::DIFF_LONG)
        .arg(flag(alloc, "strip", help::STRIP_COMPARED))?
        .arg(null(alloc, help::NULL_LISTS))?
        .arg(sides(alloc, "from", "OLD", help::FROM))?
        .arg(sides(alloc, "to", "NEW", help::TO))?
        .arg(side(alloc, "old", "OLD", help::OLD))?
        .arg(side(alloc, "new", "NEW", help::NEW))?
        .arg(verbose(alloc))
}

// Returns the option for what classes are counted by.
fn by<'a>(alloc: Global) -> Arg<'a>
    ensures { IsArgument by_rule result }
{
    Arg::new(alloc, "by")
        .long("by")
        .value_name("WHAT")
        .help(help::BY)
        .value_parser(ValueParser::NonEmptyString)
}

fn count<'a>(alloc: Global) -> Result<Command<'a>, AllocError>
    ensures { IfOk result (IsMade (lone count_command)) }
{
    let command = described(alloc, "count", help::COUNT, help::COUNT_LONG);
    let command = command
        .arg(flag(alloc, "each", help::EACH))?
        .arg(by(alloc))?;
    over_files(alloc, command, help::NULL)
}

// Adds the names of the file that a command reads and of the file that it writes, how it is written, and the option for
// more on each fault.
fn file_and_out<'a>(alloc: Global, command: Command<'a>) -> Result<Command<'a>, AllocError>
    ensures { IfOk result (Adds (copying_rules ++ verbose_rule ∷ []) command.entry) }
{
    command
        .arg(flag(alloc, "atomic", help::ATOMIC))?
        .arg(one(alloc, "file", "FILE", help::FILE))?
        .arg(one(alloc, "out", "OUT", help::OUT))?
        .arg(verbose(alloc))
}

fn normalise<'a>(alloc: Global) -> Result<Command<'a>, AllocError>
    ensures { IfOk result (IsMade (lone normalise_command)) }
{
    let command = described(alloc, "normalise", help::NORMALISE, help::NORMALISE_LONG);
    file_and_out(alloc, command.visible_alias("normalize")?)
}

fn repair<'a>(alloc: Global) -> Result<Command<'a>, AllocError>
    ensures { IfOk result (IsMade (lone repair_command)) }
{
    file_and_out(
        alloc,
        described(alloc, "repair", help::REPAIR, help::REPAIR_LONG),
    )
}

// Returns the option that names a class.
fn class<'a>(alloc: Global) -> Arg<'a>
    ensures { IsArgument class_rule result }
{
    Arg::new(alloc, "class")
        .long("class")
        .value_name("NAME")
        .help(help::CLASS)
        .action(ArgAction::Append)
        .value_parser(ValueParser::NonEmptyString)
}

fn dump<'a>(alloc: Global) -> Result<Command<'a>, AllocError>
    ensures { IfOk result (IsMade (lone dump_command)) }
{
    described(alloc, "dump", help::DUMP, help::DUMP_LONG)
        .arg(flag(alloc, "all", help::ALL))?
        .arg(class(alloc))?
        .arg(one(alloc, "file", "FILE", help::FILE))?
        .arg(verbose(alloc))
}

// Returns the program without its commands.
fn program<'a>(alloc: Global) -> Result<Command<'a>, AllocError>
    ensures { IfOk result (IsMade program_alone) }
{
    Command::new(alloc, "dexkit")
        .about(help::ABOUT)
        .version(help::VERSION)
        .after_help(help::EXAMPLES_AND_STATUSES)
        .no_binary_name(true)
        .subcommand_required(true)
        .bin_name("dexkit")?
        .arg(verbose(alloc))
}

// Adds a command to the program.
fn with<'a>(
    program: Result<Command<'a>, AllocError>,
    command: Result<Command<'a>, AllocError>,
) -> Result<Command<'a>, AllocError>
    ensures { (app : App) (shape : Shape) → IfOk program.entry (IsMade app)
        → IfOk command.entry (IsMade (lone shape))
        → IfOk result (IsMade (with_subcommand app shape)) }
{
    program?.subcommand(command?)
}

/// Returns the program with its commands, in the order of the help.
///
/// Error: allocation failed.
pub(crate) fn command<'a>(alloc: Global) -> Result<Command<'a>, AllocError>
    ensures { IfOk result (IsMade program_app) }
{
    let mut program = program(alloc);
    program = with(program, check(alloc));
    program = with(program, merge(alloc));
    program = with(program, normalise(alloc));
    program = with(program, digest(alloc));
    program = with(program, conflicts(alloc));
    program = with(program, diff(alloc));
    program = with(program, count(alloc));
    program = with(program, dump(alloc));
    with(program, repair(alloc))
}
