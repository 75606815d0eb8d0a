//! The run of `count` by packages.

ghost use Rattle.std.proofs.Common.{rules};
ghost use Rattle.std.specs.Cmp.{partial_order_from_own_ties};
ghost use Rattle.std.specs.Cmp.Rules.{comparing};
ghost use Rattle.std.specs.List.{AllZip, Contains, flat_map};
ghost use Rattle.std.specs.List.Sorted.{IsStrictlySortedBy};
ghost use Rattle.std.specs.Option.{unwrap_or};
ghost use Rattle.std.specs.Ordering.{as_partial_cmp};
ghost use Rattle.std.specs.Prelude.{◌≡◌, ◌↔◌, ◌++◌, ◌<◌, [], false, filter, length, map, not, IfOk, OnOk, IfErr, string_bytes};
ghost use Rattle.dexspec.specs.Depth.{in_class_order};
ghost use Rattle.dexspec.specs.Files.{AreSame, definitions};
ghost use Rattle.dexspec.specs.Texts.{Text as Units, text_cmp, same_text};
ghost use Rattle.dexout.specs.Printed.{shown};
ghost use Rattle.dexmerge.specs.Counting.{AreCounts};
ghost use Rattle.dexruns.specs.Counts.{IsCountFault, IsUncountedFault};
ghost use Rattle.dexruns.specs.Inputs.{IsReadNoFurther};
ghost use Rattle.dexruns.specs.Merges.{IsAppended, IsPrefixAppended, IsOfDevices};
ghost use Rattle.dexruns.specs.Packages.{before_last_slash, package_of, package_text, package_line, ArePackageLines, HavePackageLines, ArePackagesCounted, IsPackageFault};
ghost use Rattle.dexruns.specs.Runs.{AllWork, IsLeft};
ghost use Rattle.dexruns.specs.internal.Halves.{is_before, is_early, is_late, packages_of, class_packages, AreThose, AreOfPackages, AreRowsAdded};
ghost use Rattle.dexruns.specs.declared.faults.RunFault.TheVariants.{Memory};

use crate::counting::{counts_of, push_counts};
use crate::digesting::class_names;
use crate::faults::RunFault;
use crate::inputs::write_output;
use crate::lines::{push_sign, push_unit};
use crate::merging::{places, read_each};
use dexclass::{Part, Program};
use dexhead::{Sink, Source};
use dexmerge::Counts;
use dexstr::Text;
use std::alloc::{AllocError, Global};
use std::cmp::Ordering;
use std::marker::Model;

const SLASH: u16 = 0x2f;

// A package, in the order of its units.
#[derive(Drop)]
struct Package {
    units: Vec<u16>,
}

impl Model for Package {
    ghost use Rattle.std.specs.Prelude.{ℕ, List};

    ghost Value = { List ℕ };

    ghost view = { λ name. name.units.items };
}

impl Package {
    // The package of the class of a name.
    fn of(alloc: Global, name: &Text<'_>) -> Result<Package, AllocError>
        ensures { IfOk result (λ found. found ≡ package_of name.now) }
    {
        let mut rest = name.units();
        let _letter = rest.next();
        let units: Vec<u16> = rest.collect(alloc)?;
        Ok(Package {
            units: before_last_slash(units),
        })
    }

    fn units(&self) -> &[u16]
        ensures { result.now ≡ self.now }
    {
        &self.units
    }
}

impl PartialEq for Package {
    ghost eq = { same_text };

    ghost laws = { Prim.search (comparing, rules) };

    fn eq(&self, other: &Self) -> bool {
        self.units() == other.units()
    }
}

impl Eq for Package {
    ghost laws = { Prim.search (comparing, rules) };
}

impl Ord for Package {
    ghost cmp = { text_cmp };

    ghost total = { Prim.search (comparing, rules) };

    ghost matches_partial_cmp = { Prim.search (comparing, rules) };

    ghost matches_eq = { Prim.search (comparing, rules) };

    fn cmp(&self, other: &Self) -> Ordering {
        self.units().cmp(other.units())
    }
}

impl PartialOrd for Package {
    ghost partial_cmp = { as_partial_cmp text_cmp };

    ghost laws = { partial_order_from_own_ties (Prim.search (comparing, rules)) (Prim.search (comparing, rules)) };

    fn partial_cmp(&self, other: &Self) -> Option<Ordering> {
        Some(self.cmp(other))
    }
}

// What is before the last slash, or nothing where there is none.
fn before_last_slash(mut units: Vec<u16>) -> Vec<u16>
    ensures { result.items ≡ unwrap_or (before_last_slash units.items) [] }
{
    while let Some(unit) = units.pop() {
        if unit == SLASH {
            return units;
        }
    }
    units
}

// Appends units as they are printed.
fn push_units(units: &[u16], text: &mut String) -> Result<(), AllocError>
    ensures { OnOk result (string_bytes text.new ≡ string_bytes text.old ++ shown units.now) }
{
    for unit in units {
        push_unit(*unit, text)?;
    }
    Ok(())
}

// Appends a package as it is printed.
fn push_package(name: &Package, text: &mut String) -> Result<(), AllocError>
    ensures { OnOk result (string_bytes text.new
        ≡ string_bytes text.old ++ package_text name.now) }
{
    let units = name.units();
    if units.is_empty() {
        return push_sign(b'.', text);
    }
    push_units(units, text)
}

// Appends the line of a package.
#[tactic(auto, unfolding(crate::specs::Packages::package_line))]
fn push_package_line(name: &Package, counts: &Counts, text: &mut String) -> Result<(), AllocError>
    ensures { OnOk result (string_bytes text.new
        ≡ string_bytes text.old ++ package_line name.now counts.now) }
{
    push_counts(counts, text)?;
    push_package(name, text)?;
    push_sign(b'\n', text)
}

// The package of each class of a program.
fn class_packages(alloc: Global, program: &Program<'_>) -> Result<Vec<Package>, AllocError>
    ensures { IfOk result (λ packages.
        packages.items ≡ class_packages program.now) }
{
    let names = class_names(alloc, program)?;
    let mut packages = Vec::with_capacity(alloc, names.len())?;
    for i in 0..names.len() {
        packages.push(Package::of(alloc, &names[i])?)?;
    }
    Ok(packages)
}

// The package of each class of programs.
fn all_packages(alloc: Global, programs: &[Program<'_>]) -> Result<Vec<Package>, AllocError>
    ensures { IfOk result (λ packages.
        packages.items ≡ flat_map class_packages programs.now) }
{
    let mut packages = Vec::new(alloc);
    for program in programs {
        let mut own = class_packages(alloc, program)?;
        packages.append(&mut own)?;
    }
    Ok(packages)
}

// The packages of the classes of programs, each once and in order.
fn packages_of(alloc: Global, programs: &[Program<'_>]) -> Result<Vec<Package>, AllocError>
    ensures rise { IfOk result (λ packages. IsStrictlySortedBy text_cmp packages.items) }
    ensures are { IfOk result (λ packages. (name : Units) → Contains packages.items name
        ↔ Contains (packages_of (flat_map definitions programs.now)) name) }
{
    let mut packages = all_packages(alloc, programs)?;
    packages.sort_unstable();
    packages.dedup();
    Ok(packages)
}

// Returns of each package whether it comes before another.
fn are_before(alloc: Global, packages: &[Package], bound: &Package) -> Result<Vec<bool>, AllocError>
    ensures { IfOk result (λ flags. flags.items ≡ map (is_before bound.now) packages.now) }
{
    let mut flags = Vec::with_capacity(alloc, packages.len())?;
    for name in packages {
        flags.push(name < bound)?;
    }
    Ok(flags)
}

// Appends the program of the classes of a part, unless there are none.
fn push_program<'a>(
    alloc: Global,
    part: Part<'a>,
    programs: &mut Vec<Program<'a>>,
) -> Result<(), AllocError>
    ensures { OnOk result (AreSame (flat_map definitions programs.new.items)
        (flat_map definitions programs.old.items ++ part.entry)) }
{
    if part.len() == 0 {
        return Ok(());
    }
    programs.push(part.into_program(alloc)?)?;
    Ok(())
}

// Programs of the classes of packages before one, and of those of the other packages.
#[derive(Drop)]
struct Halves<'a> {
    before: Vec<Program<'a>>,
    others: Vec<Program<'a>>,
}

impl<'a> Halves<'a> {
    // Adds the classes of a program.
    fn add(
        &mut self,
        alloc: Global,
        program: Program<'a>,
        bound: &Package,
    ) -> Result<(), AllocError>
        ensures before { OnOk result (AreSame (flat_map definitions self.new.before.items)
            (flat_map definitions self.old.before.items
            ++ filter (is_early bound.now) (in_class_order (definitions program.entry)))) }
        ensures others { OnOk result (AreSame (flat_map definitions self.new.others.items)
            (flat_map definitions self.old.others.items
            ++ filter (is_late bound.now) (in_class_order (definitions program.entry)))) }
    {
        let packages = class_packages(alloc, &program)?;
        let flags = are_before(alloc, &packages, bound)?;
        let (before, others) = program.into_part().partition(alloc, &flags)?;
        push_program(alloc, before, &mut self.before)?;
        push_program(alloc, others, &mut self.others)
    }
}

// The classes of programs in two halves.
fn halve<'a>(
    alloc: Global,
    programs: Vec<Program<'a>>,
    bound: &Package,
) -> Result<Halves<'a>, AllocError>
    ensures before { IfOk result (λ halves. AreThose (is_early bound.now)
        (flat_map definitions programs.entry.items) (flat_map definitions halves.before.items)) }
    ensures others { IfOk result (λ halves. AreThose (is_late bound.now)
        (flat_map definitions programs.entry.items) (flat_map definitions halves.others.items)) }
{
    let mut halves = Halves {
        before: Vec::new(alloc),
        others: Vec::new(alloc),
    };
    for program in programs {
        halves.add(alloc, program, bound)?;
    }
    Ok(halves)
}

// Appends the line of the one package of programs, if there is one.
fn push_one(
    alloc: Global,
    programs: &[Program<'_>],
    packages: &[Package],
    text: &mut String,
) -> Result<(), RunFault>
    requires few { length packages.now < 2 }
    requires are { AreOfPackages (flat_map definitions programs.now) packages.now }
    ensures rows { OnOk result (AreRowsAdded (flat_map definitions programs.now) packages.now
        (string_bytes text.old) (string_bytes text.new)) }
    ensures fault { IfErr result (λ fault. fault ≡ Memory) }
{
    let Some(name) = packages.first() else {
        return Ok(());
    };
    let counts = counts_of(alloc, programs)?;
    push_package_line(name, &counts, text)?;
    Ok(())
}

// Appends the lines of the packages of programs. The programs are halved until each has the classes of one package, so
// that no package costs tables as long as those of all.
fn push_packages(
    alloc: Global,
    programs: Vec<Program<'_>>,
    packages: &[Package],
    text: &mut String,
) -> Result<(), RunFault>
    requires rise { IsStrictlySortedBy text_cmp packages.now }
    requires are { AreOfPackages (flat_map definitions programs.items) packages.now }
    ensures rows { OnOk result (AreRowsAdded (flat_map definitions programs.entry.items)
        packages.now (string_bytes text.old) (string_bytes text.new)) }
    ensures fault { IfErr result (λ fault. fault ≡ Memory) }
{
    if packages.len() < 2 {
        return push_one(alloc, &programs, packages, text);
    }
    let (first, last) = packages.split_at(packages.len() / 2);
    let Halves { before, others } = halve(alloc, programs, &last[0])?;
    push_packages(alloc, before, first, text)?;
    push_packages(alloc, others, last, text)
}

// The lines of the packages of programs.
fn package_lines(alloc: Global, programs: Vec<Program<'_>>) -> Result<String, RunFault>
    ensures lines { IfOk result (λ lines.
        ArePackageLines (flat_map definitions programs.entry.items) (string_bytes lines)) }
    ensures fault { IfErr result (IsUncountedFault (flat_map definitions programs.entry.items)) }
{
    counts_of(alloc, programs.as_slice())?;
    let packages = packages_of(alloc, programs.as_slice())?;
    let mut text = String::new(alloc);
    push_packages(alloc, programs, packages.as_slice(), &mut text)?;
    Ok(text)
}

// The lines of the packages of inputs, which are read one after the other.
fn read_lines<R: Source>(alloc: Global, inputs: &mut [R]) -> Result<String, RunFault>
    requires { AllWork R.has_failed inputs.old }
    ensures lines { IfOk result (λ lines.
        HavePackageLines R.reports R.to_come inputs.old (string_bytes lines)) }
    ensures fault { IfErr result (IsCountFault R.reports R.to_come inputs.old (λ lines. ⊥)) }
    ensures no_further { AllZip
        (IsReadNoFurther R.reports R.to_come R.has_failed) inputs.old inputs.new }
    ensures works { OnOk result (AllWork R.has_failed inputs.new) }
    ensures devices { IfErr result (IsOfDevices R.has_failed inputs.new false) }
{
    let mut files = places(alloc, inputs.len())?;
    let programs = read_each(alloc, inputs, files.as_mut_slice())?;
    package_lines(alloc, programs)
}

/// Writes what the classes of each package of the union of inputs hold, in a line for each package that has a class, in
/// the order of the packages: the numbers that [`count_run`](crate::count_run) writes of a file of just these classes,
/// in its order and without the caps, and the package, with a tab between them. The package of `Lcom/foo/Bar;` is
/// `com/foo`, as [`explain`](crate::explain) writes a name; that of a class without a slash is written as a dot, which
/// is the package of no other.
///
/// The union is counted first, as `count_run` does. Condition and errors: those of `count_run`, with these lines
/// instead of its own. The time grows with what the classes of each package mention, and not with the number of
/// packages times what all mention.
///
/// Source: the lines are this project's rule.
pub fn count_packages_run<R: Source, W: Sink>(
    alloc: Global,
    inputs: &mut [R],
    out: &mut W,
) -> Result<(), RunFault>
    requires inputs { AllWork R.has_failed inputs.old }
    requires out { W.has_failed out.old ≡ false }
    ensures counted { OnOk result (ArePackagesCounted R.reports R.to_come inputs.old
        (IsAppended (W.reports out.old) (W.taken out.old) (W.taken out.new))) }
    ensures fault { IfErr result (IsPackageFault R.reports R.to_come inputs.old
        (IsPrefixAppended (W.reports out.old) (W.taken out.old) (W.taken out.new))) }
    ensures left { IfErr result (IsLeft out.old out.new) }
    ensures reports { W.reports out.old → W.reports out.new }
    ensures no_further { AllZip
        (IsReadNoFurther R.reports R.to_come R.has_failed) inputs.old inputs.new }

    // The faults of the devices are reported exactly where they are.
    ensures readers { OnOk result (AllWork R.has_failed inputs.new) }
    ensures writer { OnOk result (W.has_failed out.new ≡ false) }
    ensures devices { IfErr result (IsOfDevices R.has_failed inputs.new (W.has_failed out.new)) }
{
    let lines = read_lines(alloc, inputs)?;
    write_output(out, lines.as_bytes())?;
    Ok(())
}
