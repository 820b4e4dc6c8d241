//! What the words of the command line ask for: a record for each command, with the files and the numbers that it was given. What each
//! word means is in the help of its command.
use sipd_exit::{RecordFault, RecordPlace, RecordSync};

/// What is to be done.
pub enum ProgramCall {
    Check(CheckCall),
    Replay(ReplayCall),
    Compact(CompactCall),
    Serve(ServeCall),
    Decide(DecideCall),
    Matrix(MatrixCall),
    Report(ReportCall),
    User(UserCall),
    Calls(CallsCall),
    Phones(TimeCall),
    Now(TimeCall),
    Trace(TraceCall),
    Ladder(LadderCall),
    Sources(SourcesCall),
    Page(PageCall),
}

/// Written out, so that it is proved once and not wherever one is dropped.
impl Drop for ProgramCall {
    fn drop(self) {
        match self {
            ProgramCall::Check(_) => {}
            ProgramCall::Replay(_) => {}
            ProgramCall::Compact(_) => {}
            ProgramCall::Serve(_) => {}
            ProgramCall::Decide(_) => {}
            ProgramCall::Matrix(_) => {}
            ProgramCall::Report(_) => {}
            ProgramCall::User(_) => {}
            ProgramCall::Calls(_) => {}
            ProgramCall::Phones(_) => {}
            ProgramCall::Now(_) => {}
            ProgramCall::Trace(_) => {}
            ProgramCall::Ladder(_) => {}
            ProgramCall::Sources(_) => {}
            ProgramCall::Page(_) => {}
        }
    }
}

/// `check`: a configuration is checked.
#[derive(Drop)]
pub struct CheckCall {
    /// The file of the configuration.
    pub config: String,
    /// Whether what was understood is printed, or what is wrong.
    pub show: bool,
    /// The file of the configuration from which a change to it is told; nothing is told of a change, where none is named.
    pub against: Option<String>,
    /// The file of what is expected of its policy; nothing is, where none is named.
    pub expect: Option<String>,
}

/// `replay`: what is replayed.
#[derive(Drop)]
pub enum ReplayCall {
    /// The script on standard input, with the configuration of a file; with the sample where none is named.
    Script {
        config: Option<String>,
    },
    /// The record in a file, or those in a folder, with the configurations that they hold; one of before, which holds none, with that of a file.
    Record {
        config: Option<String>,
        path: String,
    },
}

/// `compact`: a shorter record is made that leads where another one does.
#[derive(Drop)]
pub struct CompactCall {
    /// The file of the configuration, which is that of the same server to others as those of the record.
    pub config: String,
    /// The record.
    pub old: String,
    /// The file of the new one.
    pub new: String,
}

/// `serve`: phones are served.
#[derive(Drop)]
pub struct ServeCall {
    /// The file of the configuration.
    pub config: String,
    /// How many turns; until it is ended, where none is named.
    pub turns: Option<u32>,
    /// Where what is heard is recorded; nowhere, where no place is named.
    pub record: Option<RecordPlace>,
    pub record_fault: RecordFault,
    /// For how many days a record stays in its folder; 0, where all stay.
    pub keep: u32,
    pub sync: RecordSync,
    /// How many datagrams a second are heard from one address.
    pub per_source: Option<u32>,
    /// The file in which it says how it is; none, where none is named.
    pub status: Option<String>,
    /// Whether the configuration is taken anew when its file changes.
    pub reload: bool,
}

/// What a decision may be expected to be.
#[derive(Clone, Copy, PartialEq, Eq)]
pub enum ExpectedDecision {
    /// A rule lets it through, wherever it goes then.
    Allow,
    /// It is denied, by a rule or since none matches.
    Deny,
    /// A password is asked for.
    Challenge,
}

/// `decide`: which rule would decide.
#[derive(Drop)]
pub enum DecideCall {
    Question(QuestionCall),
    /// About each request of the log on standard input, under the configuration of this file.
    Log { config: String },
}

/// What is asked of `decide` in words.
#[derive(Drop)]
pub struct QuestionCall {
    /// The file of the configuration.
    pub config: String,
    /// The user who is proven; nobody where none is named.
    pub user: Option<String>,
    /// The minute of the office's day, from 0; the present one where none is named.
    pub minute: Option<u16>,
    /// What is expected to be decided; anything, where nothing is said.
    pub expect: Option<ExpectedDecision>,
    /// A method, or `register` or `list`.
    pub method: String,
    /// `USER@HOST`, or a SIP URI.
    pub target: String,
}

/// `matrix`: the whole policy as a table.
#[derive(Drop)]
pub struct MatrixCall {
    /// The file of the configuration.
    pub config: String,
    /// A method, or `register` or `list`; INVITE where none is named.
    pub method: Option<String>,
    /// The file of the configuration against which the cells are told that change; the whole table is, where none is named.
    pub against: Option<String>,
    /// Whether comma-separated values are printed.
    pub csv: bool,
    /// Whether a page of HTML is printed.
    pub html: bool,
}

/// `report`: audit lines on standard input are made a table.
#[derive(Drop)]
pub struct ReportCall {
    /// The file of the configuration whose time of day it is where no record says one; UTC where none is named.
    pub config: Option<String>,
    /// The files of the records that say how the office's clock was set, in their order.
    pub records: Vec<String>,
    /// Which lines are shown.
    pub chosen: ChosenLines,
    /// Whether comma-separated values are printed.
    pub csv: bool,
}

/// Which lines of a log are shown.
pub struct ChosenLines {
    /// The time from which on lines are shown, as it is said; all are where none is said.
    pub since: Option<String>,
    /// The time before which they are.
    pub until: Option<String>,
    /// The user whose lines are shown; everybody's where none is named.
    pub user: Option<String>,
    /// For whom they are.
    pub target: Option<String>,
    /// The rule whose lines are shown; all where none is named.
    pub rule: Option<u32>,
    /// Whether denials alone are shown.
    pub denied: bool,
    /// The word of what became of a request whose lines are shown; those of any but a challenge where none is said.
    pub outcome: Option<String>,
}

/// Written out, so that it is proved once and not wherever one is dropped.
impl Drop for ChosenLines {
    fn drop(self) {
        let ChosenLines {
            since,
            until,
            user,
            target,
            rule: _,
            denied: _,
            outcome,
        } = self;
        let_go(since);
        let_go(until);
        let_go(user);
        let_go(target);
        let_go(outcome);
    }
}

/// `user`: the table of a user, whose password is on standard input.
#[derive(Drop)]
pub struct UserCall {
    pub name: String,
    /// The file of the configuration that the user is to be added to.
    pub config: Option<String>,
    /// The realm; that of the configuration where none is said.
    pub realm: Option<String>,
    /// Whether the digest by SHA-256 is wanted, too; beside a configuration it is never said, since that says it.
    pub sha256: bool,
}

/// `calls`: the calls of recorded days.
#[derive(Drop)]
pub struct CallsCall {
    /// The files of the records, or their folders, in the order in which they are shown.
    pub records: Vec<String>,
    /// The file of the configuration of records that hold none.
    pub config: Option<String>,
    /// Which calls are shown.
    pub chosen: ChosenCalls,
    /// Whether comma-separated values are printed.
    pub csv: bool,
    /// Whether objects of JSON are; not both.
    pub json: bool,
}

/// Lets a text go. It stands apart, so that several are let go one by one, and not each case of them beside each of the others.
fn let_go(_text: Option<String>) {}

/// Which calls of recorded days are shown.
pub struct ChosenCalls {
    /// The time from which on calls are shown, as it is said; all are where none is said.
    pub since: Option<String>,
    /// The time before which they are.
    pub until: Option<String>,
    /// The caller who was proven; anybody where none is named.
    pub user: Option<String>,
    /// Who was called.
    pub target: Option<String>,
    /// Where they came from.
    pub from: Option<String>,
    /// Whether those that were asked for a credential are shown, too.
    pub challenged: bool,
}

/// Written out, so that it is proved once and not wherever one is dropped.
impl Drop for ChosenCalls {
    fn drop(self) {
        let ChosenCalls {
            since,
            until,
            user,
            target,
            from,
            challenged: _,
        } = self;
        let_go(since);
        let_go(until);
        let_go(user);
        let_go(target);
        let_go(from);
    }
}

/// `phones` and `now`: how a recorded day stood at a time.
#[derive(Drop)]
pub struct TimeCall {
    /// The file of the record, or its folder.
    pub file: String,
    /// The file of the configuration of a record that holds none.
    pub config: Option<String>,
    /// The time, as it is said; the record's end where none is said.
    pub at: Option<String>,
    /// Whether comma-separated values are printed.
    pub csv: bool,
    /// Whether objects of JSON are; not both.
    pub json: bool,
}

/// `trace`: what came and went on recorded days, as a capture.
#[derive(Drop)]
pub struct TraceCall {
    /// The files of the records, or their folders, in their order.
    pub records: Vec<String>,
    /// The file of the configuration of records that hold none.
    pub config: Option<String>,
    /// The number of a datagram, or a Call-ID; all calls where none is named.
    pub call: Option<String>,
    /// The file of the capture; `-` is the output.
    pub pcap: String,
    /// Whether credentials and bodies are hidden.
    pub hide: bool,
}

/// `ladder`: a call of recorded days as a diagram, or as a drawing.
#[derive(Drop)]
pub struct LadderCall {
    /// The files of the records, or their folders, in their order.
    pub records: Vec<String>,
    /// The file of the configuration of records that hold none.
    pub config: Option<String>,
    /// The number of a datagram, or a Call-ID.
    pub call: String,
    /// Whether a drawing is printed in place of text.
    pub svg: bool,
}

/// `sources`: what each address did from which datagrams came on recorded days.
#[derive(Drop)]
pub struct SourcesCall {
    /// The files of the records, or their folders, in the order in which they are shown.
    pub records: Vec<String>,
    /// The file of the configuration of records that hold none.
    pub config: Option<String>,
    /// Which datagrams are counted.
    pub chosen: ChosenSources,
    /// Whether comma-separated values are printed.
    pub csv: bool,
    /// Whether objects of JSON are; not both.
    pub json: bool,
}

/// Which datagrams of recorded days are counted.
pub struct ChosenSources {
    /// The time from which on they are, as it is said; all are where none is said.
    pub since: Option<String>,
    /// The time before which they are.
    pub until: Option<String>,
    /// The address from which they came.
    pub from: Option<String>,
}

/// Written out, so that it is proved once and not wherever one is dropped.
impl Drop for ChosenSources {
    fn drop(self) {
        let ChosenSources { since, until, from } = self;
        let_go(since);
        let_go(until);
        let_go(from);
    }
}

/// `page`: recorded days as one page of HTML.
#[derive(Drop)]
pub struct PageCall {
    /// The files of the records, or their folders, in the order in which they are shown.
    pub records: Vec<String>,
    /// The file of the configuration of records that hold none.
    pub config: Option<String>,
    /// The file of a log that is held against them.
    pub log: Option<String>,
}
