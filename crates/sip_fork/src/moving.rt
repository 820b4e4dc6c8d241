//! Rows of the table opened, changed and closed with their timers: those that a row names stand afterwards, and no others.
ghost use Rattle.std.specs.Prelude.{◌≡◌, ◌<◌, ◌≤◌, ◌+◌, ◌^◌, ◌++◌, ◌∷◌, [], length, map, position, remove, slice_get, slice_set, Some, None};
ghost use Rattle.std.specs.List.{All};
ghost use Rattle.sip_transaction_table.specs.Key.{same_key};
ghost use Rattle.sip_request.specs.Named.{HasKeys, IsReady, named_by};
ghost use Rattle.sip_request.specs.Near.{IsNear, most_timers};
ghost use Rattle.sip_timers.specs.Moves.{IsHeld, Moves};
ghost use Rattle.sip_timers.specs.Setting.{SetsInOrder};
ghost use Rattle.sip_request.specs.transactions_model.Matching.{AreBranched, AreMatched};
ghost use Rattle.sip_request.specs.transactions_model.Kept.{AreKept};
ghost use Rattle.sip_request.specs.Order.{keyed, named_in_order};
ghost use Rattle.sip_fork.specs.Firing.{KeepsOrder};
ghost use Rattle.sip_timers.specs.Timers.{KeysDiffer};
ghost use Rattle.sip_request.specs.declared.request.Request.{Request};
ghost use Rattle.sip_request.specs.transactions_model.Fits.{Fits};
ghost use Rattle.sip_request.specs.transactions_model.Near.{IsWithin};
ghost use Rattle.sip_fork.specs.Contexts.{AreTied, IsFitting, IsSame};
ghost use Rattle.sip_fork.specs.Ending.{ended};

use crate::change::{ChangedRow, NewRow};
use crate::ending::stop;
use crate::queue::Queue;
use crate::row::OpenRow;
use sip_request::Request;
use sip_request::transactions_model::branches::timers_are_apart;
use sip_timers::Timers;
use sip_transaction_table::{Boxed, Transaction, TransactionTable};

/// Closes the request at a place: its timers are stopped.
pub(crate) fn close_row<T: Timers>(
    table: &mut TransactionTable<OpenRow>,
    timers: &mut Queue<T>,
    place: usize,
)
    requires place { place < length table.old.rows }
    requires tied { AreTied timers.old.pending timers.old.reached table.old.rows }
    ensures rows { table.new.rows ≡ remove table.old.rows place }
    ensures tied { AreTied timers.new.pending timers.new.reached table.new.rows }
    ensures queue { KeepsOrder timers.old.pending timers.new.pending (map (λ (r : Request). r.open_request) table.new.rows) }
    ensures places { table.old.room ≤ table.new.room }
    ensures room { timers.old.room ≤ timers.new.room }
    ensures still { timers.new.reached ≡ timers.old.reached }
    ensures secret { table.new.secret ≡ table.old.secret }
{
    timers_are_apart();
    timers.stand_in_order();
    let row = table.remove(place);
    let standing = row.get();
    standing.request.close(timers);
}

/// Sets the timers of a request where it is to stand, and no others of those of the one in whose place it is to stand.
fn follow<T: Timers>(row: &mut Boxed<OpenRow>, timers: &mut Queue<T>, was: &Request)
    requires held { IsHeld timers.old.pending (named_by was.now) }
    requires timed { IsNear (2 ^ 64) was.now.open_request }
    requires ready { IsReady timers.old.reached timers.old.room (record { request = row.old.open_request; keys = row.old.branches }) }
    ensures moves { Moves timers.old.pending (named_by was.now) timers.new.pending (named_by row.new) }
    ensures sets { AreMatched (keyed was.now.open_request.branches was.now.branches) row.old.open_request.branches
        → SetsInOrder timers.old.pending (named_by was.now) timers.new.pending (named_in_order row.new) }
    ensures request { row.new.open_request ≡ row.old.open_request }
    ensures keys { HasKeys row.new.open_request row.new.branches }
    ensures left { timers.old.room ≤ timers.new.room + most_timers row.old.open_request }
    ensures still { timers.new.reached ≡ timers.old.reached }
{
    let standing = row.get_mut();
    standing.request.follow(timers, was);
}

/// Changes the request at a place: its timers follow.
pub(crate) fn change_row<T: Timers>(
    table: &mut TransactionTable<OpenRow>,
    timers: &mut Queue<T>,
    place: usize,
    change: ChangedRow,
)
    requires place { place < length table.old.rows }
    requires tied { AreTied timers.old.pending timers.old.reached table.old.rows }
    requires same { (r : Request) → slice_get table.old.rows place ≡ Some r → IsSame r.open_request change }
    requires branches { (r : Request) → slice_get table.old.rows place ≡ Some r → AreBranched r.open_request.branches
        → AreKept r.open_request.branches change.branches }
    requires fitting { IsFitting timers.old.reached timers.old.room change }
    ensures rows { map (λ (r : Request). r.open_request) table.new.rows
        ≡ slice_set (map (λ (r : Request). r.open_request) table.old.rows) place change }
    ensures tied { AreTied timers.new.pending timers.new.reached table.new.rows }
    ensures queue { KeepsOrder timers.old.pending timers.new.pending (map (λ (r : Request). r.open_request) table.new.rows) }
    ensures places { table.new.room ≡ table.old.room }
    ensures room { timers.old.room ≤ timers.new.room + most_timers change }
    ensures still { timers.new.reached ≡ timers.old.reached }
    ensures secret { table.new.secret ≡ table.old.secret }
{
    timers_are_apart();
    timers.stand_in_order();
    let ChangedRow { mut row } = change;
    let stood = table.get(place);
    follow(&mut row, timers, &stood.request);
    table.replace(place, row);
}

/// A transaction of the request at a place ends where it stands: its timers are stopped.
pub(crate) fn end_row<T: Timers>(
    table: &mut TransactionTable<OpenRow>,
    timers: &mut Queue<T>,
    place: usize,
    transaction: Transaction,
)
    requires place { place < length table.old.rows }
    requires tied { AreTied timers.old.pending timers.old.reached table.old.rows }
    requires fits { (r : Request) → slice_get table.old.rows place ≡ Some r → Fits (ended transaction r.open_request) }
    requires within { (r : Request) → slice_get table.old.rows place ≡ Some r → IsWithin (timers.old.reached + 1) (ended transaction r.open_request) }
    requires branches { (r : Request) → slice_get table.old.rows place ≡ Some r → AreBranched r.open_request.branches
        → AreKept r.open_request.branches (ended transaction r.open_request).branches }
    ensures rows { (r : Request) → slice_get table.old.rows place ≡ Some r → map (λ (r : Request). r.open_request) table.new.rows
        ≡ slice_set (map (λ (r : Request). r.open_request) table.old.rows) place (ended transaction r.open_request) }
    ensures tied { AreTied timers.new.pending timers.new.reached table.new.rows }
    ensures queue { KeepsOrder timers.old.pending timers.new.pending (map (λ (r : Request). r.open_request) table.new.rows) }
    ensures places { table.new.room ≡ table.old.room }
    ensures room { timers.old.room ≤ timers.new.room }
    ensures still { timers.new.reached ≡ timers.old.reached }
    ensures secret { table.new.secret ≡ table.old.secret }
{
    timers_are_apart();
    timers.stand_in_order();
    let row = table.get(place);
    stop(timers, &row.request, transaction);
    table.end(place, transaction);
}

/// Sets the timers of a request where it stands.
fn begin<T: Timers>(place: &mut Boxed<OpenRow>, timers: &mut Queue<T>)
    requires apart { KeysDiffer timers.old.pending }
    requires ready { IsReady timers.old.reached timers.old.room (record { request = place.old.open_request; keys = place.old.branches }) }
    ensures moves { Moves timers.old.pending [] timers.new.pending (named_by place.new) }
    ensures sets { SetsInOrder timers.old.pending [] timers.new.pending (named_in_order place.new) }
    ensures request { place.new.open_request ≡ place.old.open_request }
    ensures keys { HasKeys place.new.open_request place.new.branches }
    ensures left { timers.old.room ≤ timers.new.room + most_timers place.old.open_request }
    ensures still { timers.new.reached ≡ timers.old.reached }
{
    let standing = place.get_mut();
    standing.request.begin(timers);
}

/// Opens a request behind all others: its timers are set.
pub(crate) fn open_row<T: Timers>(
    table: &mut TransactionTable<OpenRow>,
    timers: &mut Queue<T>,
    opening: NewRow,
)
    requires few { length table.old.rows < 1024 }
    requires places { 1 ≤ table.old.room }
    requires last { All (λ (r : Request). r.open_request.number < opening.number) table.old.rows }
    requires alone { position (λ (r : Request). same_key r.open_request.key opening.key) table.old.rows ≡ None }
    requires tied { AreTied timers.old.pending timers.old.reached table.old.rows }
    requires branched { AreBranched opening.branches }
    requires fitting { IsFitting timers.old.reached timers.old.room opening }
    ensures rows { map (λ (r : Request). r.open_request) table.new.rows ≡ map (λ (r : Request). r.open_request) table.old.rows ++ opening ∷ [] }
    ensures tied { AreTied timers.new.pending timers.new.reached table.new.rows }
    ensures queue { KeepsOrder timers.old.pending timers.new.pending (map (λ (r : Request). r.open_request) table.new.rows) }
    ensures places { table.old.room ≤ table.new.room + 1 }
    ensures room { timers.old.room ≤ timers.new.room + most_timers opening }
    ensures still { timers.new.reached ≡ timers.old.reached }
    ensures secret { table.new.secret ≡ table.old.secret }
{
    timers_are_apart();
    timers.stand_in_order();
    let NewRow { mut place } = opening;
    begin(&mut place, timers);
    table.push(place);
}
