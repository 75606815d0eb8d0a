//! The names of a job: those of its inputs, and that of its output.

ghost use Rattle.std.specs.Prelude.{◌≡◌, map, Some, None, MatchOption, string_bytes};
ghost use Rattle.dexcmd.specs.Names.{input_names, output_name, placing};

use dexargs::{Job, Placing};
use std::slice;

/// The names of the inputs of a job, in the order in which they are read.
pub fn input_names(job: &Job) -> &[String]
    ensures { map string_bytes result.now ≡ input_names job.now }
{
    match job {
        Job::Check(_, files)
        | Job::Merge(_, _, _, _, _, files)
        | Job::KeepChecking(_, files)
        | Job::Digest(_, _, files)
        | Job::Conflicts(_, _, files)
        | Job::Diff(_, _, files)
        | Job::Count(files)
        | Job::CountEach(_, files)
        | Job::CountPackages(files) => files.as_slice(),
        Job::Dump(_, file)
        | Job::DumpClasses(_, file, _)
        | Job::Normalise(file, _, _)
        | Job::Repair(file, _, _) => slice::from_ref(file),
    }
}

/// The name of the output of a job, or `None` for a job that writes to standard output.
pub fn output_name(job: &Job) -> Option<&str>
    ensures { MatchOption result (output_name job.now ≡ None)
        (λ name. output_name job.now ≡ Some name.now) }
{
    match job {
        Job::Normalise(_, out, _) | Job::Merge(out, _, _, _, _, _) | Job::Repair(_, out, _) => {
            Some(out.as_str())
        }
        Job::Check(_, _)
        | Job::Dump(_, _)
        | Job::DumpClasses(_, _, _)
        | Job::KeepChecking(_, _)
        | Job::Digest(_, _, _)
        | Job::Conflicts(_, _, _)
        | Job::Diff(_, _, _)
        | Job::Count(_)
        | Job::CountEach(_, _)
        | Job::CountPackages(_) => None,
    }
}

/// How the output of a job comes under its name: in place for a job that writes to standard output.
pub fn placing(job: &Job) -> Placing
    ensures { result ≡ placing job.now }
{
    match job {
        Job::Normalise(_, _, placing)
        | Job::Merge(_, placing, _, _, _, _)
        | Job::Repair(_, _, placing) => *placing,
        Job::Check(_, _)
        | Job::Dump(_, _)
        | Job::DumpClasses(_, _, _)
        | Job::KeepChecking(_, _)
        | Job::Digest(_, _, _)
        | Job::Conflicts(_, _, _)
        | Job::Diff(_, _, _)
        | Job::Count(_)
        | Job::CountEach(_, _)
        | Job::CountPackages(_) => Placing::InPlace,
    }
}
