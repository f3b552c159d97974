//! The parts of a job, one call after the other.
ghost use Rattle.std.specs.Prelude.{◌≡◌, ◌≤◌, IfOk, Ok, length, option_map};
ghost use Rattle.lambda_values.specs.Earlier.{table_in};
ghost use Rattle.lambda_expr.specs.CodeWords.{words_in};
ghost use Rattle.job_language.specs.Shapes.{StandsIn, StandIn, placed_in, all_placed};
ghost use Rattle.job_language.specs.Scopes.{scope_of};
ghost use Rattle.job_language.specs.Causes.{stage_cause};
ghost use Rattle.job_language.specs.Verdicts.{added, below_terminal, finished, job_named, table_of};
ghost use Rattle.job_language.specs.Verdicts.{IsCallRead, IsNextCall, AreRead};
ghost use Rattle.job_language.specs.Jobs.{job_of, terminal_of};
ghost use Rattle.job_language.specs.Parts.{part_in, begun_of, answer_in, Answers, Leads};

use crate::argument::read_argument;
use crate::fault::Cause;
use crate::job::{BegunJob, Job};
use crate::numbers::read_values;
use crate::operation::Role;
use crate::params::role_of;
use crate::piece::WrittenCall;
use crate::row::{CallPart, built};
use crate::scope::Scope;
use crate::terminal::{Gives, Terminal};
use std::alloc::{AllocError, Global};
use stream_tokens::{Bytes, CutText};
use tables::Columns;

/// How many stages a job may have.
const MAX_STAGES: usize = 32;

/// Reads a call, each of its parts once.
fn read_call<'c>(
    alloc: Global,
    scope: Scope<'_, 'c>,
    text: &CutText,
    call: &WrittenCall,
) -> Result<CallPart<'c>, Cause>
    requires { StandsIn (words_in text.now) call.now }
    ensures { Answers part_in (IsCallRead (scope_of scope.entry) text.now
        (placed_in (words_in text.now) call.now)) result }
{
    let numbers = read_values(alloc, text, call)?;
    let last = read_argument(alloc, scope, text, call)?;
    built(call.operation, numbers, last)
}

impl<'c> BegunJob<'c> {
    /// The job, after its last call.
    fn finished(self, scope: Scope<'_, 'c>) -> Result<Job<'c>, Cause>
        ensures { answer_in job_of result ≡ finished (scope_of scope.entry) (begun_of self.entry) }
    {
        let table = table_of(scope);
        let BegunJob {
            name,
            sources,
            stages,
            terminal,
            on_fault,
        } = self;
        match terminal {
            Some(terminal) => Ok(Job {
                name,
                sources,
                stages,
                terminal,
                on_fault,
                table,
            }),
            None => Err(Cause::Syntax),
        }
    }
}

/// Puts what a call builds after the others.
fn add<'c>(job: &mut BegunJob<'c>, part: CallPart<'c>) -> Result<(), AllocError>
    requires { length (added (begun_of job.old) (part_in part)).stages ≤ 32 }
    ensures { IfOk result (λ _. begun_of job.new ≡ added (begun_of job.old) (part_in part.entry)) }
{
    match part {
        CallPart::Source(source) => {
            job.sources.push(source)?;
        }
        CallPart::Stage(stage) => {
            job.stages.push(stage)?;
        }
        CallPart::Terminal(terminal) => {
            job.terminal = Some(terminal);
        }
        CallPart::Fallback(number) => {
            job.on_fault = Some(number);
        }
    }
    Ok(())
}

/// Why a call that stands after some stages is refused before it is read.
fn stage_cause(stages: usize, role: Role) -> Option<Cause>
    ensures { result ≡ stage_cause stages role }
{
    match role {
        Role::Stage if stages >= MAX_STAGES => Some(Cause::TooLong),
        _ => None,
    }
}

/// Adds a call after this terminal: the number of `onFault`, for a terminal that gives a number.
fn below_terminal<'c>(
    terminal: &Option<Terminal>,
    part: CallPart<'c>,
) -> Result<CallPart<'c>, Cause>
    ensures { answer_in part_in result
        ≡ below_terminal (option_map terminal_of terminal.now) (Ok (part_in part.entry)) }
{
    match part {
        CallPart::Fallback(number) => match terminal {
            Some(terminal) if terminal.gives() == Gives::Number => Ok(CallPart::Fallback(number)),
            _ => Err(Cause::NotScalar),
        },
        part => Ok(part),
    }
}

/// The columns whose rows the items are, if lambdas may have cells of them.
fn table_of<'c>(scope: Scope<'_, 'c>) -> Option<&'c Columns>
    ensures { table_in result ≡ table_of (scope_of scope.entry) }
{
    if scope.version >= 3 && scope.rows {
        Some(scope.columns)
    } else {
        None
    }
}

/// Reads the call after the calls of this job.
fn read_next_call<'c>(
    job: &BegunJob<'c>,
    alloc: Global,
    scope: Scope<'_, 'c>,
    text: &CutText,
    call: &WrittenCall,
) -> Result<CallPart<'c>, Cause>
    requires { StandsIn (words_in text.now) call.now }
    ensures { Answers part_in (IsNextCall (begun_of job.now) (scope_of scope.entry) text.now
        (placed_in (words_in text.now) call.now)) result }
{
    if let Some(cause) = stage_cause(job.stages.len(), role_of(call.operation)) {
        return Err(cause);
    }
    let part = read_call(alloc, scope, text, call)?;
    below_terminal(&job.terminal, part)
}

/// Reads these calls in order of writing, and puts what they build after the parts of this job.
fn add_parts<'c>(
    job: &mut BegunJob<'c>,
    alloc: Global,
    scope: Scope<'_, 'c>,
    text: &CutText,
    calls: &[WrittenCall],
) -> Result<(), Cause>
    requires { StandIn (words_in text.now) calls.now }
    ensures { Leads (AreRead (scope_of scope.entry) text.now (begun_of job.old)
        (all_placed (words_in text.now) calls.now)) (scope_of scope.entry) (begun_of job.new) result }
{
    for call in calls {
        let part = read_next_call(job, alloc, scope, text, call)?;
        add(job, part)?;
    }
    Ok(())
}

/// Reads the calls of the job with this name in order of writing.
pub fn read_parts<'c>(
    alloc: Global,
    scope: Scope<'_, 'c>,
    text: &CutText,
    name: &[u8],
    calls: &[WrittenCall],
) -> Result<Job<'c>, Cause>
    requires { StandIn (words_in text.now) calls.now }
    ensures { Answers job_of (AreRead (scope_of scope.entry) text.now (job_named name.now)
        (all_placed (words_in text.now) calls.now)) result }
{
    let bytes = name.to_vec(alloc)?;
    let mut job = BegunJob {
        name: Bytes::from(bytes),
        sources: Vec::new(alloc),
        stages: Vec::new(alloc),
        terminal: None,
        on_fault: None,
    };
    add_parts(&mut job, alloc, scope, text, calls)?;
    job.finished(scope)
}
