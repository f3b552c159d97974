//! Laws of the definitions. The functions do nothing; their contracts are the laws.
ghost use Rattle.std.specs.Prelude.{◌≡◌, ◌⊎◌, ℕ, List, Result, Ok, Err};
ghost use Rattle.stream_tokens.specs.Forms.{IsName};
ghost use Rattle.stream_tokens.specs.CutTexts.{TokenizedText};
ghost use Rattle.tables.specs.Table.{NamedColumn};
ghost use Rattle.job_language.specs.declared.fault.Cause.{Cause as meant_cause};
ghost use Rattle.job_language.specs.declared.fault.JobFault.{JobFault as meant_fault};
ghost use Rattle.job_language.specs.Files.{IsRefusedWithin, SpellsJobs, SpellsJobsWithin};
ghost use Rattle.job_language.specs.Jobs.{AbstractJob};
ghost use Rattle.job_language.specs.Places.{ArePlaceless};
ghost use Rattle.job_language.specs.Causes.{Scope as meant_scope};
ghost use Rattle.job_language.specs.declared.fault.Cause.TheVariants.{Syntax};
ghost use Rattle.job_language.specs.Calls.{IsCall};
ghost use Rattle.job_language.specs.Arguments.{PlacedCall};
ghost use Rattle.job_language.specs.Verdicts.{IsCallRead, IsRead};

/// A text is read as one thing at most: one job, or one cause.
pub fn one_verdict()
    ensures { (s : meant_scope) (text : List ℕ) (r q : Result AbstractJob meant_cause)
        → IsRead s text r → IsRead s text q → r ≡ q }
{}

/// Each text is read as something: a job, or a cause for which it is refused.
pub fn each_text_has_a_verdict()
    ensures { (s : meant_scope) (text : List ℕ) → (r : Result AbstractJob meant_cause) × IsRead s text r }
{}

/// No call of the grammar is a syntax fault: whatever its parts are read as, its row takes them.
pub fn a_call_is_no_syntax_fault()
    ensures { (s : meant_scope) (t : TokenizedText) (c : PlacedCall) → IsCall c.call
        → IsCallRead s t c (Err Syntax) → ⊥ }
{}

/// The name of a job is a letter or `_`, then letters, digits and `_`.
pub fn a_job_has_a_name()
    ensures { (s : meant_scope) (text : List ℕ) (j : AbstractJob) → IsRead s text (Ok j) → IsName j.name }
{}

/// With equal columns and an equal newest version, bytes are a file of one list of jobs at most, are refused for one
/// fault at most, and not both.
pub fn one_file()
    ensures jobs { (newest : ℕ) (bytes : List ℕ) (columns : List NamedColumn) (j k : List AbstractJob)
        → SpellsJobsWithin newest bytes columns j → SpellsJobsWithin newest bytes columns k → j ≡ k }
    ensures fault { (newest : ℕ) (bytes : List ℕ) (columns : List NamedColumn) (f g : meant_fault)
        → IsRefusedWithin newest bytes columns f → IsRefusedWithin newest bytes columns g → f ≡ g }
    ensures apart { (newest : ℕ) (bytes : List ℕ) (columns : List NamedColumn)
        (j : List AbstractJob) (f : meant_fault)
        → SpellsJobsWithin newest bytes columns j → IsRefusedWithin newest bytes columns f → ⊥ }
{}

/// Where version 2 is the newest, no job has a table, and no lambda in it has a cell or a row: so what a job gives
/// doesn't depend on the places of items.
pub fn by_default_nothing_changes()
    ensures { (bytes : List ℕ) (columns : List NamedColumn) (jobs : List AbstractJob)
        → SpellsJobs bytes columns jobs → ArePlaceless jobs }
{}

/// A file of jobs is a file of those jobs too where version 3 is the newest.
pub fn a_later_language_reads_more()
    ensures { (bytes : List ℕ) (columns : List NamedColumn) (jobs : List AbstractJob)
        → SpellsJobs bytes columns jobs → SpellsJobsWithin 3 bytes columns jobs }
{}

/// With these columns, bytes are a file of jobs, or are refused with a fault, whichever version is the newest; by
/// `one_file` not both.
pub fn each_file_has_an_answer()
    ensures { (newest : ℕ) (bytes : List ℕ) (columns : List NamedColumn) →
        ((jobs : List AbstractJob) × SpellsJobsWithin newest bytes columns jobs)
        ⊎ ((fault : meant_fault) × IsRefusedWithin newest bytes columns fault) }
{}
