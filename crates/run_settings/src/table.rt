//! How the column file of a run is read.
ghost use Rattle.std.specs.Prelude.{◌≡◌};

/// What stands between the cells of a row of a column file.
#[derive(Clone, Copy, Debug, PartialEq, Eq)]
pub enum Separator {
    Comma,
    Semicolon,
    Bar,
    Tab,
}

impl Separator {
    ghost use Rattle.run_settings.specs.TableSettings.{byte_of};

    /// The byte that it is.
    pub fn byte(self) -> u8
        ensures { result ≡ byte_of self }
    {
        match self {
            Separator::Comma => b',',
            Separator::Semicolon => b';',
            Separator::Bar => b'|',
            Separator::Tab => b'\t',
        }
    }
}

/// How the column file of a run is read.
#[derive(Clone, Copy, Debug, PartialEq, Eq)]
pub struct TableSetting {
    /// What stands between cells.
    pub separator: Separator,
    /// Whether only the columns that jobs name are looked at. The cells of others may hold anything then.
    pub only_named: bool,
    /// The number of a blank cell: of one without bytes, or of spaces and tabs alone. If none is given, it is refused.
    pub blank: Option<i64>,
}

impl TableSetting {
    ghost use Rattle.run_settings.specs.TableSettings.{integers};

    /// A table of integers: a comma between cells, all columns are looked at, and a blank cell is refused.
    pub fn of_integers() -> TableSetting
        ensures { result ≡ integers }
    {
        TableSetting {
            separator: Separator::Comma,
            only_named: false,
            blank: None,
        }
    }
}
