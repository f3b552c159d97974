//! The settings of a run, and their limits.

ghost use Rattle.run_settings.specs.Settings.{AreWithin};
ghost use Rattle.run_settings.specs.TableSettings.{integers};
ghost use Rattle.std.specs.Prelude.{◌≡◌, ◌≤◌, IfSome, IsSome, None, false, true};

use crate::table::TableSetting;

/// The form of a report.
#[derive(Clone, Copy, Debug, PartialEq, Eq)]
pub enum Form {
    /// One line per job, `name = ANSWER`.
    Text,
    /// One JSON array (RFC 8259) on one line, with an object per job.
    Json,
}

/// The newest version of job files that a run reads.
#[derive(Clone, Copy, Debug, PartialEq, Eq)]
pub enum Language {
    /// Files of versions 1 and 2.
    Two,
    /// Files of version 3 too, which have cells and rows, `sumExact`, `sorted` and `distinct`.
    Three,
}

impl Language {
    ghost use Rattle.run_settings.specs.SettingsParts.{newest_in};

    /// The newest version.
    pub fn newest(self) -> u8
        ensures { result ≡ newest_in self }
    {
        match self {
            Language::Two => 2,
            Language::Three => 3,
        }
    }
}

/// The settings of a run, each within its limits.
#[derive(Clone, Copy, Debug)]
pub struct Settings {
    workers: u64,
    threshold: u64,
    is_adaptive: bool,
    nodes: u64,
    form: Form,
    language: Language,
    table: TableSetting,
    ghost within: { AreWithin workers threshold nodes },
}

impl Settings {
    ghost use Rattle.run_settings.specs.SettingsParts.{form_of, is_adaptive, language_of, nodes_of, table_of};
    ghost use Rattle.run_settings.specs.SettingsParts.{threshold_of, workers_of};

    /// These settings, or none if a number is outside its limits.
    pub fn of(workers: u64, threshold: u64, nodes: u64, form: Form) -> Option<Settings>
        ensures taken { AreWithin workers threshold nodes → IsSome result }
        ensures none { (AreWithin workers threshold nodes → ⊥) → result ≡ None }
        ensures workers { IfSome result (λ settings. workers_of settings ≡ workers) }
        ensures threshold { IfSome result (λ settings. threshold_of settings ≡ threshold) }
        ensures fixed { IfSome result (λ settings. is_adaptive settings ≡ false) }
        ensures nodes { IfSome result (λ settings. nodes_of settings ≡ nodes) }
        ensures form { IfSome result (λ settings. form_of settings ≡ form) }
        ensures language { IfSome result (λ settings. language_of settings ≡ Language.Two) }
        ensures table { IfSome result (λ settings. table_of settings ≡ integers) }
    {
        let within = 1 <= workers
            && workers <= 64
            && 1 <= threshold
            && threshold <= 1_048_576
            && nodes <= 1_048_576;
        if within {
            Some(Settings {
                workers,
                threshold,
                is_adaptive: false,
                nodes,
                form,
                language: Language::Two,
                table: TableSetting::of_integers(),
            })
        } else {
            None
        }
    }

    /// These settings, but that a run may also cut pieces of no more items than the threshold, if each may become many.
    pub fn adaptive(self) -> Settings
        ensures workers { workers_of result ≡ workers_of self }
        ensures threshold { threshold_of result ≡ threshold_of self }
        ensures adaptive { is_adaptive result ≡ true }
        ensures nodes { nodes_of result ≡ nodes_of self }
        ensures form { form_of result ≡ form_of self }
        ensures language { language_of result ≡ language_of self }
        ensures table { table_of result ≡ table_of self }
    {
        Settings {
            workers: self.workers,
            threshold: self.threshold,
            is_adaptive: true,
            nodes: self.nodes,
            form: self.form,
            language: self.language,
            table: self.table,
        }
    }

    /// These settings, but that files of this language are read.
    pub fn reading(self, language: Language) -> Settings
        ensures workers { workers_of result ≡ workers_of self }
        ensures threshold { threshold_of result ≡ threshold_of self }
        ensures adaptive { is_adaptive result ≡ is_adaptive self }
        ensures nodes { nodes_of result ≡ nodes_of self }
        ensures form { form_of result ≡ form_of self }
        ensures language { language_of result ≡ language }
        ensures table { table_of result ≡ table_of self }
    {
        Settings {
            workers: self.workers,
            threshold: self.threshold,
            is_adaptive: self.is_adaptive,
            nodes: self.nodes,
            form: self.form,
            language,
            table: self.table,
        }
    }

    /// These settings, but that the column file is read like this.
    pub fn over(self, table: TableSetting) -> Settings
        ensures workers { workers_of result ≡ workers_of self }
        ensures threshold { threshold_of result ≡ threshold_of self }
        ensures adaptive { is_adaptive result ≡ is_adaptive self }
        ensures nodes { nodes_of result ≡ nodes_of self }
        ensures form { form_of result ≡ form_of self }
        ensures language { language_of result ≡ language_of self }
        ensures table { table_of result ≡ table }
    {
        Settings {
            workers: self.workers,
            threshold: self.threshold,
            is_adaptive: self.is_adaptive,
            nodes: self.nodes,
            form: self.form,
            language: self.language,
            table,
        }
    }

    /// How the column file is read.
    pub fn table(&self) -> TableSetting
        ensures { result ≡ table_of self.now }
    {
        self.table
    }

    /// The newest version of job files that is read.
    pub fn language(&self) -> Language
        ensures { result ≡ language_of self.now }
    {
        self.language
    }

    /// How many threads work: 1 to 64.
    pub fn workers(&self) -> u64
        ensures value { result ≡ workers_of self.now }
        ensures limits { (1 ≤ result) × (result ≤ 64) }
    {
        self.workers
    }

    /// The most items of a piece that is not split, unless the run is adaptive: 1 to 1,048,576.
    pub fn threshold(&self) -> u64
        ensures value { result ≡ threshold_of self.now }
        ensures limits { (1 ≤ result) × (result ≤ 1048576) }
    {
        self.threshold
    }

    /// Whether a run may also cut pieces of no more items than the threshold.
    pub fn is_adaptive(&self) -> bool
        ensures { result ≡ is_adaptive self.now }
    {
        self.is_adaptive
    }

    /// How many nodes there are for splits: 0 to 1,048,576.
    pub fn nodes(&self) -> u64
        ensures value { result ≡ nodes_of self.now }
        ensures limit { result ≤ 1048576 }
    {
        self.nodes
    }

    /// The form of the report.
    pub fn form(&self) -> Form
        ensures { result ≡ form_of self.now }
    {
        self.form
    }
}
