//! What a proxy is: the runs of its steps, and what holds of every run: who was sent what, which bindings stand, in which order open
//! requests stand and when they end. What a step is, is said in `model_steps`; nothing runs here.
//!
//! Of `timer_order`: in which order what is due happens: a function of the history. The timers that stand are a queue, by the moment at
//! which they are due, and at one moment in the order in which they came to stand; what a step lets happen of what is due is of the first
//! of them.
//!
//! Of `ties`: two runs of the model over the same events, or over the same periods: that they take the same steps, where of several things
//! that are due at one moment the first happens first, in the order of `timer_order`.
//!
//! Of `bounds`, `sent_cancels`, `endings`, `final_answers`, `sent_requests`: what a history sends and keeps is bounded (RFC 3261 16.7,
//! 16.8, 17): how many final answers go to a caller, how often a request and a CANCEL go out to a target, and how long a request stays
//! open.
//!
//! Of `sameness_laws`, `left_out`: when two states are the same for whatever comes: what is sent and recorded from then on is the same,
//! step by step. So a server that a shorter list of events led to goes on as the one that a longer list led to.
//!
//! - Used: `sip_engine` and the laws above; `sip_run` and the crates above it, of the steps that they take; `sip_replay`, of what is served
//!   and what is replayed; `sip_loop`, of a fault, which comes once nothing is due; `sip_replay` and `sip_resume`, to say that time passes
//!   only where the first of what is due happens (`AreOrderly`); `run`, `replay` and `serve` call the law of all of it; the contract of
//!   `Engine::is_same` (`sip_engine`). It is for a record that a shorter one stands for.
//! - Not here: a body.
//! - Tried: other laws, by other means, in `model_laws`; worked examples in `src/timer_order_examples.rt`, `src/tie_examples.rt` and
//!   `src/sameness_examples.rt`.
#![tactic(auto)]

pub mod bounds;
pub mod endings;
pub mod final_answers;
pub mod histories;
pub mod laws;
pub mod left_out;
pub mod order;
pub mod parts;
pub mod periods;
pub mod runs;
pub mod sameness_examples;
pub mod sameness_laws;
pub mod sent_cancels;
pub mod sent_requests;
pub mod tie_examples;
pub mod ties;
pub mod timer_order;
pub mod timer_order_examples;
