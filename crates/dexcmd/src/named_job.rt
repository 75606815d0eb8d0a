//! A job over the devices of its names.

ghost use Rattle.std.specs.Prelude.{◌≡◌, map, All, IfOk, false, string_bytes};
ghost use Rattle.std.specs.List.{AllZip};
ghost use Rattle.dexargs.specs.Words.{IsSound};
ghost use Rattle.dexcmd.specs.Explaining.{AreReasonsOf};
ghost use Rattle.dexcmd.specs.NamedJobs.{IsRunByName};

use crate::devices::{Inputs, JobOutputs};
use crate::explaining::{Reasons, Remedies};
use crate::jobs::finish_job;
use crate::names::input_names;
use crate::outcome_report::Report;
use dexargs::Job;
use std::alloc::{AllocError, Global};

/// The inputs of names, in their order. Nothing is read.
///
/// Error: allocation failed.
pub(crate) fn inputs_of<'a, D: Inputs<'a>>(
    alloc: Global,
    devices: &D,
    names: &'a [String],
) -> Result<Vec<D::Input>, AllocError>
    ensures named { IfOk result (λ inputs. AllZip (D.is_input devices.now)
        (map string_bytes names.now) inputs.items) }
    ensures works { IfOk result (λ inputs.
        All (λ input. D.Input.has_failed input ≡ false) inputs.items) }
{
    let mut inputs = Vec::with_capacity(alloc, names.len())?;
    for name in names {
        inputs.push(devices.input(name.as_str()))?;
    }
    Ok(inputs)
}

// The reasons of the inputs of a job, in their order, and of its output.
fn reasons_of<'a, D: Inputs<'a> + JobOutputs<'a>>(
    alloc: Global,
    devices: &D,
    inputs: Vec<D::Input>,
    out: &D::Target,
) -> Result<Reasons, AllocError>
    ensures { IfOk result (AreReasonsOf (map D.error_of inputs.items) (D.output_error out.now)) }
{
    let mut reasons = Reasons::new(alloc);
    for input in inputs {
        reasons.add_input(alloc, devices.error(input))?;
    }
    reasons.set_output(alloc, devices.error_for(out))?;
    Ok(reasons)
}

/// Does a job over the devices of its names, and no others, as [`finish_job`] does, and returns its report: with
/// remedies, and if there is memory for that, as [`Report::explained`] does, with the reasons of these devices.
///
/// Conditions: the job is one that arguments ask for. Error: allocation failed, as in `finish_job`.
pub fn run_named<'a, D: Inputs<'a> + JobOutputs<'a>>(
    alloc: Global,
    devices: &D,
    job: &'a Job,
    remedies: Option<&Remedies<'_>>,
) -> Result<Report, AllocError>
    requires { IsSound job.now }
    ensures done { IfOk result (IsRunByName (D.is_input devices.now) (D.is_output devices.now)
        D.error_of D.output_error D.Target.Output.is_closed D.Target.is_placed D.Input.reports
        D.Input.to_come D.Input.expected_len D.Input.has_failed D.Target.Sink.reports
        D.Target.Sink.taken D.Target.Sink.has_failed remedies.entry job.now) }
{
    let mut inputs = inputs_of(alloc, devices, input_names(job))?;
    let mut out = devices.output_for(alloc, job)?;
    let report = finish_job(alloc, job, inputs.as_mut_slice(), &mut out)?;
    let Some(remedies) = remedies else {
        return Ok(report);
    };
    let reasons = reasons_of(alloc, devices, inputs, &out);
    Ok(report.explained_or_plain(alloc, reasons, remedies))
}
