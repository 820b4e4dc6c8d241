use crate::state::Branch;
use sip_message_form::View;

/// What happens to an open request.
#[derive(Drop)]
pub enum Input<'a> {
    /// A response of a status came to a branch.
    Response {
        branch: &'a Branch,
        status: u16,
        response: &'a View<'a>,
    },
    /// The deadline of a branch passes.
    BranchDeadline {
        branch: &'a Branch,
    },
    /// The deadline of the answering side passes.
    SideDeadline,
    /// The request of a branch of which nothing was heard could not be sent.
    SendFault {
        branch: &'a Branch,
    },
    /// The caller cancels.
    Cancel,
    /// The caller acknowledges the final answer.
    Ack,
    /// What a branch sends goes again.
    BranchAgain {
        branch: &'a Branch,
    },
    /// The last answer goes again.
    AnswerAgain,
}
