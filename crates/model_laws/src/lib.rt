//! What the definitions of the model mean, said by other means than they themselves do, since a definition that stands
//! both in a body's contract and in the law about it pins nothing: what each kind of datagram does; where what a state
//! knows comes from, its open requests and its dialogs, said from the history alone; histories that a sceptic would write,
//! none of which has `Access`; the headline of that law for its reader, without the bytes of what is made; and what becomes of
//! what stands when another configuration comes into force. Nothing runs here.
//!
//! - Used: nobody: it is read.
//! - Not here: a body.
//! - Tried: its own proofs.
#![tactic(auto)]

pub mod configurations;
pub mod datagrams;
pub mod early_copies;
pub mod every_step;
pub mod extra_answers;
pub mod extra_records;
pub mod extra_requests;
pub mod headline;
pub mod keys;
pub mod listing;
pub mod nonces;
pub mod origins;
pub mod owed_packets;
pub mod responses;
pub mod sending;
pub mod successes;
pub mod tables;
pub mod two_configurations;
pub mod validity;
pub mod warnings;
pub mod wrong_headlines;
pub mod wrong_times;
