ghost use Rattle.std.specs.Prelude.{◌≡◌};
ghost use Rattle.sipd_arguments.specs.CommandLine as Definitions;

/// Why a command line is no call, though each of its words is taken.
#[derive(Clone, Copy)]
pub(crate) enum Misuse {
    /// No command is named.
    NoCommand,
    /// `--record` stands beside `--records`.
    TwoRecords,
    /// `--resume` stands without `--record`.
    NoNewRecord,
    /// `--record-fault` stands where no record is made.
    NoRecord,
    /// `--record-fault` has a word that it doesn't know.
    NoSuchWord,
    /// `--keep` stands without `--records`.
    NoFolder,
    /// `--sync` stands where no record is made.
    NothingSynced,
    /// `--sync` has a word that it doesn't know.
    NoSuchSync,
    /// Neither `--realm` nor `--config` says the realm.
    NoRealm,
    /// `--sha256` stands beside `--config`, which says it.
    Sha256Said,
    /// `--expect` of `decide` has a word that it doesn't know.
    NoSuchVerdict,
    /// `decide` is asked nothing.
    NoQuestion,
    /// `--log` stands beside what asks a question of its own.
    LogAlone,
    /// Two of `--against`, whose lines have a form of their own, `--csv` and `--html` stand beside each other.
    TwoForms,
    /// `--csv` of `calls` stands beside `--json`.
    CsvAndJson,
}

impl Misuse {
    /// What is complained about, in a line.
    pub(crate) fn line(self) -> &'static str
        ensures { result.now ≡ Definitions.line_of self }
    {
        match self {
            Misuse::NoCommand => "error: no command",
            Misuse::TwoRecords => {
                "error: '--record <FILE>' and '--records <FOLDER>' don't stand together"
            }
            Misuse::NoNewRecord => "error: '--resume <OLD>' is for a new record: '--record <FILE>'",
            Misuse::NoRecord => {
                "error: '--record-fault <WORD>' is for a record: '--record <FILE>' or '--records <FOLDER>'"
            }
            Misuse::NoSuchWord => "error: '--record-fault <WORD>' is 'go-on' or 'end'",
            Misuse::NoFolder => {
                "error: '--keep <DAYS>' is for a folder of records: '--records <FOLDER>'"
            }
            Misuse::NothingSynced => {
                "error: '--sync <WORD>' is for a record: '--record <FILE>' or '--records <FOLDER>'"
            }
            Misuse::NoSuchSync => "error: '--sync <WORD>' is 'each', 'second' or 'never'",
            Misuse::NoRealm => {
                "error: no realm: '--realm <R>', or '--config <FILE>' that states it"
            }
            Misuse::TwoForms => {
                "error: '--against <OLD>', '--csv' and '--html' don't stand together"
            }
            Misuse::Sha256Said => {
                "error: '--sha256' isn't for '--config <FILE>', whose users say whether"
            }
            Misuse::CsvAndJson => "error: '--csv' and '--json' don't stand together",
            Misuse::NoSuchVerdict => "error: '--expect <WORD>' is 'allow', 'deny' or 'challenge'",
            Misuse::NoQuestion => "error: no question: METHOD and TARGET, or '--log'",
            Misuse::LogAlone => {
                "error: '--log' asks what each line says: '--config <FILE>' alone stands beside it"
            }
        }
    }
}
