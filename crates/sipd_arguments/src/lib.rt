//! What the words of the command line ask for, what is printed of a configuration that they name, and what is complained about. Nothing here
//! knows the server.
//!
//! - Used: `sipd_tools`, `sipd_command`.
//! - Not here: the carrying out of what is asked; how the program ends, and the files that it reads (`sipd_exit`).
//! - Tried: worked examples in `src/examples.rt`, as contracts that compute; `test_server`.
#![tactic(auto)]

mod call;
mod commands;
mod endings;
pub mod examples;
mod matches;
mod misuse;
mod summary;

pub use call::{
    CallsCall, CheckCall, ChosenCalls, ChosenLines, ChosenSources, CompactCall, DecideCall,
    ExpectedDecision, LadderCall, MatrixCall, PageCall, ProgramCall, QuestionCall, ReplayCall,
    ReportCall, ServeCall, SourcesCall, TimeCall, TraceCall, UserCall,
};
pub use commands::{Parsed, parse};
pub use summary::summary_of;
