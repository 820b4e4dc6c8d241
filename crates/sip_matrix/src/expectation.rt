//! What is expected of a policy, and whether a question is decided otherwise.
ghost use Rattle.std.specs.Prelude.{◌≡◌};
ghost use Rattle.std.specs.Option.{option_copied};
ghost use Rattle.sip_matrix.specs.Expected as Definitions;

use crate::pieces::DAY;
use sip_policy::{
    Decision, Operation, OperationPattern, Rule, TargetPattern, Users, Who, Window, deciding_rule,
    is_users_address, ruling_by,
};
use sip_text::Bytes;
use sip_uri::Aor;

/// Who is meant to ask.
#[derive(Clone, Copy)]
pub enum Askers {
    /// One who proved nothing.
    Nobody,
    /// Proven users.
    Users,
    /// Both.
    Everybody,
}

/// When a request is to be let through.
#[derive(Clone, Copy)]
pub enum Times {
    Always,
    Never,
    /// At these minutes of the day, and at no others.
    Within(Window),
}

/// Where it is to go then.
#[derive(Clone, Copy)]
pub enum ExpectedDestination {
    /// Wherever it may.
    Anywhere,
    /// To the registrar or to the bindings of a configured user.
    Bindings,
    /// By the hop at this place of the configured list, counted from 0.
    Hop(usize),
}

/// What is expected.
pub struct Expectation {
    pub askers: Askers,
    /// Which users, where users are meant.
    pub who: Who,
    pub operation: OperationPattern,
    pub target: TargetPattern,
    pub times: Times,
    pub place: ExpectedDestination,
}

/// Written out, so that it is proved once and not wherever one is dropped.
impl Drop for Expectation {
    fn drop(self) {
        let Expectation {
            askers: _,
            who: _,
            operation: _,
            target: _,
            times: _,
            place: _,
        } = self;
    }
}

/// A question that isn't decided as expected.
pub struct Fault {
    /// The user who is proven; nobody where none is named.
    pub proven: Option<Bytes>,
    pub operation: Operation,
    pub aor: Aor,
    /// The minute of the day.
    pub minute: u16,
}

/// Written out, so that it is proved once and not wherever one is dropped.
impl Drop for Fault {
    fn drop(self) {
        let Fault {
            proven: _,
            operation: _,
            aor: _,
            minute: _,
        } = self;
    }
}

fn asks(askers: Askers, proven: Option<&[u8]>) -> bool
    ensures { result ≡ Definitions.asks askers (option_copied proven.entry) }
{
    match (askers, proven) {
        (Askers::Nobody, None) => true,
        (Askers::Nobody, Some(_)) => false,
        (Askers::Users, None) => false,
        (Askers::Users, Some(_)) => true,
        (Askers::Everybody, _) => true,
    }
}

/// The window that bounds the times.
pub(crate) fn window_of(times: Times) -> Option<Window>
    ensures { result ≡ Definitions.window_of times }
{
    match times {
        Times::Always | Times::Never => None,
        Times::Within(window) => Some(window),
    }
}

/// Whether it is about this.
fn is_meant(
    users: &Users,
    domains: &[Bytes],
    expectation: &Expectation,
    proven: Option<&[u8]>,
    operation: &Operation,
    aor: &Aor,
) -> bool
    ensures { result ≡ Definitions.is_meant users.now domains.now expectation.now (option_copied proven.entry) operation.now aor.now }
{
    asks(expectation.askers, proven)
        && (expectation.operation.matches(operation)
            && (expectation.target.matches(users, domains, proven, aor)
                && expectation.who.matches(users, proven)))
}

fn is_due(minute: u16, times: Times) -> bool
    ensures { result ≡ Definitions.is_due minute times }
{
    match times {
        Times::Always => true,
        Times::Never => false,
        Times::Within(window) => window.contains(minute),
    }
}

fn lets_through(decision: Decision) -> bool
    ensures { result ≡ Definitions.lets_through decision }
{
    match decision {
        Decision::Allow(_) | Decision::Via(_, _) => true,
        Decision::Deny(_) | Decision::Challenge => false,
    }
}

fn goes_there(place: ExpectedDestination, known: bool, decision: Decision) -> bool
    ensures { result ≡ Definitions.goes_there place known decision }
{
    match (place, decision) {
        (ExpectedDestination::Anywhere, _) => lets_through(decision),
        (ExpectedDestination::Bindings, Decision::Allow(_)) => known,
        (ExpectedDestination::Hop(place), Decision::Via(_, hop)) => hop == place,
        _ => false,
    }
}

fn is_so(place: ExpectedDestination, due: bool, known: bool, decision: Decision) -> bool
    ensures { result ≡ Definitions.is_so place due known decision }
{
    if due {
        goes_there(place, known, decision)
    } else {
        !lets_through(decision)
    }
}

fn is_asker(users: &Users, proven: Option<&[u8]>) -> bool
    ensures { result ≡ Definitions.is_asker users.now (option_copied proven.entry) }
{
    match proven {
        Some(name) => users.has_name(name),
        None => true,
    }
}

/// Whether what the rules decide about a question is as expected.
fn is_decided_so(
    rules: &[Rule],
    users: &Users,
    domains: &[Bytes],
    expectation: &Expectation,
    proven: Option<&[u8]>,
    operation: &Operation,
    aor: &Aor,
    minute: u16,
) -> bool
    ensures { result ≡ Definitions.is_decided_so rules.now users.now domains.now expectation.now (option_copied proven.entry) operation.now
        aor.now minute }
{
    let rule = deciding_rule(rules, users, domains, proven, operation, aor, minute);
    let decision = ruling_by(rule, proven, minute).decision;
    let known = is_users_address(users, domains, aor);
    is_so(
        expectation.place,
        is_due(minute, expectation.times),
        known,
        decision,
    )
}

/// Whether a question is meant that can be asked, and isn't decided as expected. Takes no memory.
pub(crate) fn is_fault(
    rules: &[Rule],
    users: &Users,
    domains: &[Bytes],
    expectation: &Expectation,
    proven: Option<&[u8]>,
    operation: &Operation,
    aor: &Aor,
    minute: u16,
) -> bool
    ensures { result ≡ Definitions.is_fault rules.now users.now domains.now expectation.now (option_copied proven.entry) operation.now aor.now
        minute }
{
    is_meant(users, domains, expectation, proven, operation, aor)
        && (is_asker(users, proven)
            && (minute < DAY
                && !is_decided_so(
                    rules,
                    users,
                    domains,
                    expectation,
                    proven,
                    operation,
                    aor,
                    minute,
                )))
}
