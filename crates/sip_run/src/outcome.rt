use sip_engine::StepError;
use sip_event::StepOut;
use sip_text::Items;

/// What became of a list of events: the steps that were taken, in their order, and why no more were, if not all events were
/// taken.
#[derive(Drop)]
pub struct Run {
    pub steps: Items<StepOut>,
    pub stopped: Option<StepError>,
}
