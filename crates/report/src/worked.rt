//! Reports of small files by the definitions: from the source of a job to the bytes.
ghost use Rattle.std.specs.Prelude.{◌≡◌, ◌++◌, [], ◌∷◌, Ok, codes};
ghost use Rattle.job_language.specs.Jobs.{names_of};
ghost use Rattle.job_meaning.specs.FileAnswers.{meaning_of};
ghost use Rattle.report.specs.Text.{report_text};
ghost use Rattle.stream_tokens.specs.JobTexts.{job_texts_of, version_of};
ghost use Rattle.report.specs.Worked.{adds_up, file_of_version_one, file_of_version_two, gives_a_number_for_a_fault};
ghost use Rattle.report.specs.Worked.{looks_at_rows};
ghost use Rattle.report.specs.Worked.{meets_a_zero, meets_no_zero, meets_two_zeros, names_two_bad_jobs};
ghost use Rattle.report.specs.Worked.{passes_the_greatest, sums_exactly, takes_a_part};

/// What the definitions give for small files: the first fault and the place of its item, an array, a
/// sum that wraps, and of two faults the one of the first item, although it is in a later stage.
pub fn worked_reports()
    ensures fault { report_text (names_of meets_a_zero) (meaning_of meets_a_zero)
        ≡ codes "q = fault divide-by-zero stage 1 item 7\n" }
    ensures array { report_text (names_of meets_no_zero) (meaning_of meets_no_zero)
        ≡ codes "q = [-1, -1]\n" }
    ensures wraps { report_text (names_of passes_the_greatest) (meaning_of passes_the_greatest)
        ≡ codes "w = -9223372036854775808\n" }
    ensures depth_first { report_text (names_of meets_two_zeros) (meaning_of meets_two_zeros)
        ≡ codes "f = fault divide-by-zero stage 2 item 0\n" }
    ensures two_lines { let jobs = passes_the_greatest ++ meets_no_zero in
        report_text (names_of jobs) (meaning_of jobs) ≡ codes "w = -9223372036854775808\nq = [-1, -1]\n" }
{}

/// What the definitions give for small files of the other kinds of jobs. A prefix of positions leaves the other items,
/// and positions past the last item are a fault of the stage. A job is unusable because of the first bad job that it
/// names. An exact sum has its fault at the item that takes it out of 64 bits, before a later fault of the walk. A
/// number for a fault is an answer like others, and an empty optional stays. A slice that has ended meets no later
/// fault; an item that is skipped still has one. A cell is of the row that the item came from, also after a filter.
pub fn worked_reports_of_each_kind()
    ensures prefixes { report_text (names_of adds_up) (meaning_of adds_up)
        ≡ codes "p = [10, 1, 3, 6, 4]\no = fault out-of-array stage 1 item -\na = [10, 11, 13, 16, 20]\n" }
    ensures unusable { report_text (names_of names_two_bad_jobs) (meaning_of names_two_bad_jobs)
        ≡ codes "a = 1\nb = OptionalLong.empty\nc = fault divide-by-zero stage 1 item 0\nu = unusable b\n" }
    ensures exact_sums { report_text (names_of sums_exactly) (meaning_of sums_exactly)
        ≡ codes "e = fault overflow stage 2 item 1\nz = fault divide-by-zero stage 1 item 1\n"
        ++ codes "k = 9223372036854775807\n" }
    ensures on_fault { report_text (names_of gives_a_number_for_a_fault) (meaning_of gives_a_number_for_a_fault)
        ≡ codes "s = -1\nm = OptionalLong[-1]\nn = OptionalLong.empty\nt = 0\nv = unusable n\n" }
    ensures slices { report_text (names_of takes_a_part) (meaning_of takes_a_part)
        ≡ codes "l = [-1, -1, -2, -2, -3, -5, -10]\nh = fault divide-by-zero stage 1 item 7\n"
        ++ codes "k = fault divide-by-zero stage 1 item 2\nt = [4, 5]\nw = [-5, -10]\n" }
    ensures rows { report_text (names_of looks_at_rows) (meaning_of looks_at_rows)
        ≡ codes "r = [-1, -5]\np = [1, 2]\nd = fault divide-by-zero stage 1 item 1\n" }
{}

/// What the definitions give for the version of a file and for the texts of its jobs: `version 2` says it in the first
/// line that isn't skipped, and is a job's text elsewhere.
pub fn worked_versions()
    ensures two { version_of file_of_version_two ≡ 2 }
    ensures two_texts { job_texts_of file_of_version_two
        ≡ Ok (record { line = 4; text = codes "s = range(0, 10)   .sum().onFault(-1)" } ∷ []) }
    ensures one { version_of file_of_version_one ≡ 1 }
    ensures one_texts { job_texts_of file_of_version_one
        ≡ Ok (record { line = 1; text = codes "s = range(0, 10).sum()" }
        ∷ record { line = 2; text = codes "version 2" } ∷ []) }
{}
