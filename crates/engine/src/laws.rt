//! Laws of the definitions. The functions do nothing; their contracts are the laws.

ghost use Rattle.std.specs.Prelude.{◌≡◌, ◌≢◌, ℕ, ◌++◌, List, Option, Some, codes, take};
ghost use Rattle.columns.specs.declared.fault.ColumnFault.{ColumnFault as meant_column_fault};
ghost use Rattle.columns.specs.declared.fault.ColumnFault.TheVariants as column;
ghost use Rattle.job_language.specs.declared.fault.Cause.TheVariants as cause;
ghost use Rattle.job_language.specs.declared.fault.JobFault.{JobFault as meant_job_fault};
ghost use Rattle.engine.specs.declared.fault.EngineFault.TheVariants as engine_fault;
ghost use Rattle.engine.specs.Outcomes.{HasOutcome, Outcome, columns_of, columns_refused, in_language, jobs_refused};
ghost use Rattle.engine.specs.Run.{Faulted, Input, IsReport, Reported, Says, columns_given};
ghost use Rattle.run_settings.specs.TableSettings.{integers};
ghost use Rattle.engine.specs.Worked.{in_version_one, in_version_two};

/// Each input gives one thing: a report, a refusal of the column file, or a refusal of the job file, and no two of
/// these.
pub fn each_input_has_one_outcome()
    ensures some { (input : Input) → (o : Outcome) × HasOutcome input o }
    ensures one { (input : Input) (o p : Outcome) → HasOutcome input o → HasOutcome input p → o ≡ p }
{}

/// A refusal that a run answers is what the input gives, unless a read failed or memory ran out.
pub fn refusals_are_outcomes()
    ensures columns { (input : Input) (f : meant_column_fault) → Says input (engine_fault.Columns f)
        → f ≢ column.Read → f ≢ column.NoMemory → HasOutcome input (columns_refused f) }
    ensures jobs { (input : Input) (f : meant_job_fault) → Says input (engine_fault.Jobs f)
        → f.cause ≢ cause.NoMemory → HasOutcome input (jobs_refused f) }
{}

/// Two runs over one input that each answered a report wrote equal bytes. By `run`, clause `report`, an input is the
/// bytes of the two files and what the settings ask for: so neither the other settings nor the schedule changes a byte.
/// After a failed write the bytes that went out are the first ones of that report.
pub fn settings_change_no_byte()
    ensures reports { (input : Input) (a b : List ℕ) → IsReport input a → IsReport input b → a ≡ b }
    ensures written { (input : Input) (before : List ℕ) (after other : Option (List ℕ))
        → Reported input (Some before) after → Reported input (Some before) other → after ≡ other }
    ensures cut { (input : Input) (before report : List ℕ) (after : Option (List ℕ)) (n : ℕ)
        → Faulted input (Some before) after (engine_fault.Write n) → IsReport input report
        → after ≡ Some (before ++ take n report) }
{}

/// What the definitions give for a small job file, from its bytes on: a number after a fault in a file of version 2,
/// and a refusal in one of version 1.
pub fn worked_files()
    ensures two { IsReport in_version_two (codes "s = -1\n") }
    ensures one { HasOutcome in_version_one (jobs_refused (record { line = 1; cause = cause.Syntax })) }
{}

/// Where a table of integers with commas is asked for, whose columns are all looked at, and version 2 of the language
/// is the newest, an input gives the columns of its file whatever its jobs.
pub fn by_default_tables_of_integers_are_read()
    ensures { (input : Input) → input.asked.table ≡ integers → input.asked.newest ≡ 2
        → columns_given input ≡ columns_of input.columns }
{}

/// A report where version 2 of the language is the newest is the report where version 3 is.
pub fn a_later_language_changes_no_report()
    ensures { (input : Input) (report : List ℕ) → input.asked.newest ≡ 2 → IsReport input report
        → IsReport (in_language 3 input) report }
{}
