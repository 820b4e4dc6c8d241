//! What a listener is told of a record that follows another one: what that one didn't tell. Such a record begins with what still mattered of the one
//! before, whose datagrams have the numbers there that they had.
ghost use Rattle.std.specs.Prelude.{◌≡◌, Some, None, if◌then◌else◌};
ghost use Rattle.sipd_telling.specs.Onward as Definitions;

use sip_config_types::Config;
use sip_event::{Event, StepOut};
use sip_listener::Listener;
use sip_replay_script::PrintStop;

/// A point of a server's history: the number of the next datagram there, and the moment of the last step.
#[derive(Clone, Copy)]
pub struct DayPoint {
    pub next: u64,
    pub at: u64,
}

/// The point that is reached; where none is, in front of all.
fn point_of(reached: Option<DayPoint>) -> DayPoint
    ensures { result ≡ Definitions.point_of reached }
{
    match reached {
        Some(point) => point,
        None => DayPoint { next: 0, at: 0 },
    }
}

/// The number of the next datagram behind an event.
fn next_behind(next: u64, event: &Option<Event>) -> u64
    ensures { result ≡ Definitions.next_behind next event.now }
{
    match event {
        Some(Event::Datagram { .. }) => next.saturating_add(1),
        Some(Event::Time { .. }) => next,
        Some(Event::Fault { .. }) => next,
        None => next,
    }
}

/// Whether a step that reaches a point is known, where one is known up to another point.
fn is_known(known: Option<DayPoint>, reached: DayPoint) -> bool
    ensures { result ≡ Definitions.is_known known reached }
{
    match known {
        Some(known) => reached.next <= known.next && reached.at <= known.at,
        None => false,
    }
}

/// The point that a step reaches, behind another one.
fn point_behind(reached: Option<DayPoint>, event: &Option<Event>, at: u64) -> DayPoint
    ensures { result ≡ Definitions.point_behind (Definitions.point_of reached) event.now at }
{
    DayPoint {
        next: next_behind(point_of(reached).next, event),
        at,
    }
}

/// What is known at the start of a record: where it follows the one before, what that told.
fn known_by(follows: bool, reached: Option<DayPoint>) -> Option<DayPoint>
    ensures { result ≡ (if follows then reached else None) }
{
    if follows { reached } else { None }
}

/// A listener that is told records, one behind the other: of one that follows the one before only the steps that this one didn't tell.
pub struct Onward<L: Listener + Drop> {
    pub listener: L,
    /// The point that the last step reached, of a record that is told.
    pub(crate) reached: Option<DayPoint>,
    /// The point up to which all steps are known; none, where none is.
    pub(crate) known: Option<DayPoint>,
}

/// Written out, so that it is proved once and not wherever one is dropped.
impl<L: Listener + Drop> Drop for Onward<L> {
    fn drop(self) {
        let Onward {
            listener: _,
            reached: _,
            known: _,
        } = self;
    }
}

impl<L: Listener + Drop> Onward<L> {
    /// A listener that was told no record yet.
    pub fn new(listener: L) -> Self
        ensures { result.listener ≡ listener }
    {
        Onward {
            listener,
            reached: None,
            known: None,
        }
    }

    /// In front of all.
    pub(crate) fn begin(&mut self)
        ensures same { self.new.listener ≡ self.old.listener }
        ensures reached { self.new.reached ≡ None }
    {
        self.reached = None;
    }

    /// At the start of a record whose first datagram has this number: where it follows the one before, what that told is known.
    pub(crate) fn turn(&mut self, follows: bool, first: u64)
        ensures same { self.new.listener ≡ self.old.listener }
        ensures reached { self.new.reached ≡ Some (Definitions.start_of first) }
        ensures known { self.new.known ≡ (if follows then self.old.reached else None) }
    {
        self.known = known_by(follows, self.reached);
        self.reached = Some(DayPoint { next: first, at: 0 });
    }
}

impl<L: Listener + Drop> Listener for Onward<L> {
    ghost use Rattle.sipd_telling.specs.Onward.{HearsOnward, RefusesOnward};

    ghost hears = { λ old step new. HearsOnward L.hears old.known new.known old.reached new.reached old.listener step new.listener };

    ghost refuses = { λ old step new. RefusesOnward L.refuses old.known new.known old.reached new.reached old.listener step new.listener };

    ghost gave_up = { λ o. L.gave_up o.listener };

    fn hear(
        &mut self,
        config: &Config,
        event: Option<Event>,
        out: StepOut,
    ) -> Result<(), PrintStop> {
        let reached = point_behind(self.reached, &event, out.at);
        self.reached = Some(reached);
        if is_known(self.known, reached) {
            return Ok(());
        }
        self.listener.hear(config, event, out)
    }
}
