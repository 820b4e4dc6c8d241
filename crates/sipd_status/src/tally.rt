//! What the records of decisions come to, counted as they are printed.
ghost use Rattle.std.specs.Prelude.{◌≡◌};
ghost use Rattle.sipd_status.specs.Tally as Definitions;

use sip_audit::{AuditOutcome, Record};

/// How many requests were decided, by what became of them. Counts end at 2^64 - 1.
#[derive(Clone, Copy)]
pub struct Decisions {
    pub challenged: u64,
    pub denied: u64,
    pub sent: u64,
    pub answered: u64,
}

impl Decisions {
    /// One more of what became of a request.
    fn count(&mut self, outcome: AuditOutcome)
        ensures { self.new ≡ Definitions.with_outcome outcome self.old }
    {
        match outcome {
            AuditOutcome::Challenge { .. } => self.challenged = self.challenged.saturating_add(1),
            AuditOutcome::Deny { .. } => self.denied = self.denied.saturating_add(1),
            AuditOutcome::Sent { .. } => self.sent = self.sent.saturating_add(1),
            AuditOutcome::Answer { .. } => self.answered = self.answered.saturating_add(1),
        }
    }
}

/// What a decision says of who asked.
#[derive(Clone, Copy)]
pub enum Proof {
    /// A user was proven.
    Given,
    /// None was, and one was asked for.
    Wanted,
    /// None was, and none was asked for.
    Unasked,
}

/// A request that was decided: the number of its datagram, and what that says of who asked.
#[derive(Clone, Copy)]
pub struct Judged {
    pub number: u64,
    pub proof: Proof,
}

/// What became of a request says of who asked, where nobody was proven.
fn proof_by(outcome: AuditOutcome) -> Proof
    ensures { result ≡ Definitions.proof_by outcome }
{
    match outcome {
        AuditOutcome::Challenge { .. } => Proof::Wanted,
        AuditOutcome::Deny { .. } => Proof::Unasked,
        AuditOutcome::Sent { .. } => Proof::Unasked,
        AuditOutcome::Answer { .. } => Proof::Unasked,
    }
}

/// What a record says of who asked.
fn proof_of(record: &Record) -> Proof
    ensures { result ≡ Definitions.proof_of «record».now }
{
    match &record.who {
        Some(_) => Proof::Given,
        None => proof_by(record.outcome),
    }
}

/// What the records of a server come to since it began: how many there are of each kind, and the last one.
#[derive(Clone, Copy)]
pub struct Tally {
    pub decisions: Decisions,
    pub judged: Option<Judged>,
}

impl Tally {
    /// Of no record.
    pub fn new() -> Tally
        ensures { result ≡ Definitions.no_tally }
    {
        Tally {
            decisions: Decisions {
                challenged: 0,
                denied: 0,
                sent: 0,
                answered: 0,
            },
            judged: None,
        }
    }

    /// One record more.
    fn note(&mut self, record: &Record)
        ensures { self.new ≡ Definitions.with_record «record».now self.old }
    {
        self.decisions.count(record.outcome);
        self.judged = Some(Judged {
            number: record.number,
            proof: proof_of(record),
        });
    }

    /// More records, in their order.
    #[tactic(auto, using(std::proofs::lemmas::List::at_drop_more, std::proofs::lemmas::List::drop_all))]
    pub fn add(&mut self, records: &[Record])
        ensures { self.new ≡ Definitions.tally_behind records.now self.old }
    {
        for record in records {
            self.note(record);
        }
    }
}
