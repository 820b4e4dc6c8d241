use sip_policy::Decision;
use sip_text::Bytes;

/// What is answered to a question about a configuration.
#[derive(Drop)]
pub struct Answer {
    /// Lines: what is decided, and where the request goes; the rule that decides, if one does, as `show` has it; the minute that was
    /// taken.
    pub text: Bytes,
    /// What the rules decide; none, where a check of the server refuses what is asked before any rule is.
    pub decision: Option<Decision>,
}
