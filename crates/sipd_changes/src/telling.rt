//! The changes as lines for a reader, with what each means for a server that runs; for `check --against`.
ghost use Rattle.std.specs.Prelude.{◌≡◌, ◌++◌, codes, decimal, IfOk, OnOk};
ghost use Rattle.std.specs.List.{flat_map};
ghost use Rattle.sip_uri.specs.Addresses;
ghost use Rattle.sipd_changes.specs.declared.difference.Difference.TheVariants as Changed;
ghost use Rattle.sipd_ask.specs.Decide.{numbered};
ghost use Rattle.sipd_changes.specs.Telling as Definitions;

use crate::difference::{Difference, DigestKey, Move, Revision};
use crate::differing::can_be_taken;
use sip_config_change::FrameKey;
use sip_text::{Bytes, Items};
use sip_uri::Addr;
use sipd_ask::{put_address, put_number, put_signed};
use std::alloc::{AllocError, Global};

/// Adds three texts.
fn put_three(text: &mut Bytes, first: &[u8], second: &[u8], third: &[u8]) -> Result<(), AllocError>
    ensures { OnOk result (text.new ≡ text.old ++ (first.now ++ second.now ++ third.now)) }
{
    text.extend(first)?;
    text.extend(second)?;
    text.extend(third)
}

/// Adds that a key of the frame differs.
fn put_key(text: &mut Bytes, key: FrameKey) -> Result<(), AllocError>
    ensures { OnOk result (text.new ≡ text.old ++ Definitions.change_text (Changed.Frame key)) }
{
    text.extend(key.name().as_bytes())?;
    text.extend(b" differs: a server that runs can't take it, and a restart with it begins anew\n")
}

/// Adds that the port that is bound differs.
fn put_port(text: &mut Bytes, before: u16, now: u16) -> Result<(), AllocError>
    ensures { OnOk result (text.new ≡ text.old ++ Definitions.change_text (Changed.BoundPort before now)) }
{
    put_number(text, b"port of address ", u64::from(before), b" before, ")?;
    text.push_decimal(u64::from(now))?;
    text.extend(b" now: a server that runs can't take it\n")
}

fn put_offset(text: &mut Bytes, before: i16, now: i16) -> Result<(), AllocError>
    ensures { OnOk result (text.new ≡ text.old ++ Definitions.change_text (Changed.Offset before now)) }
{
    text.extend(b"offset ")?;
    put_signed(text, before)?;
    text.extend(b" before, ")?;
    put_signed(text, now)?;
    text.extend(b" now\n")
}

// ---- users

/// Adds a user, and what is said of the user.
fn put_user(text: &mut Bytes, user: &[u8], words: &[u8]) -> Result<(), AllocError>
    ensures { OnOk result (text.new ≡ text.old ++ Definitions.user_line user.now words.now) }
{
    put_three(text, b"user ", user, words)
}

/// Adds a user, and what is said of the user and a thing.
fn put_user_and(text: &mut Bytes, user: &[u8], words: &[u8], thing: &[u8]) -> Result<(), AllocError>
    ensures { OnOk result (text.new ≡ text.old ++ Definitions.user_and user.now words.now thing.now) }
{
    put_three(text, b"user ", user, words)?;
    text.extend(thing)?;
    text.push(b'\n')
}

fn digest_name(key: DigestKey) -> &'static [u8]
    ensures { result.now ≡ Definitions.digest_name key }
{
    match key {
        DigestKey::A1 => b"a1",
        DigestKey::A1Sha256 => b"a1_sha256",
    }
}

// ---- addresses

fn put_moved(alloc: Global, text: &mut Bytes, from: Addr, to: Addr) -> Result<(), AllocError>
    ensures { OnOk result (text.new ≡ text.old ++ (codes " moves from " ++ Addresses.addr_text from ++ codes " to " ++ Addresses.addr_text to)) }
{
    text.extend(b" moves from ")?;
    put_address(alloc, text, from)?;
    text.extend(b" to ")?;
    put_address(alloc, text, to)
}

fn put_move(alloc: Global, text: &mut Bytes, change: Move) -> Result<(), AllocError>
    ensures { OnOk result (text.new ≡ text.old ++ Definitions.move_text change) }
{
    match change {
        Move::Comes(address) => {
            text.extend(b" comes at ")?;
            put_address(alloc, text, address)
        }
        Move::Goes(address) => {
            text.extend(b" goes from ")?;
            put_address(alloc, text, address)
        }
        Move::Moves { from, to } => put_moved(alloc, text, from, to),
    }
}

/// What a change of a host's address means for calls that stand.
fn move_meaning(change: Move) -> &'static [u8]
    ensures { result.now ≡ Definitions.move_meaning change }
{
    match change {
        Move::Comes(_) => b"\n",
        Move::Goes(_) => b": in calls that stand, requests to it get 481\n",
        Move::Moves { .. } => b": in calls that stand, requests to it get 481\n",
    }
}

fn put_hop(alloc: Global, text: &mut Bytes, name: &[u8], change: Move) -> Result<(), AllocError>
    ensures { OnOk result (text.new ≡ text.old ++ Definitions.hop_text name.now change) }
{
    text.extend(b"hop ")?;
    text.extend(name)?;
    put_move(alloc, text, change)?;
    text.push(b'\n')
}

fn put_host(
    alloc: Global,
    text: &mut Bytes,
    host: &[u8],
    port: u16,
    change: Move,
) -> Result<(), AllocError>
    ensures { OnOk result (text.new ≡ text.old ++ Definitions.host_text host.now port change) }
{
    put_three(text, b"host_address ", host, b":")?;
    text.push_decimal(u64::from(port))?;
    put_move(alloc, text, change)?;
    text.extend(move_meaning(change))
}

// ---- rules

/// Adds a rule by its number, and what is said of it.
fn put_rule(text: &mut Bytes, id: u32, words: &[u8], said: &[u8]) -> Result<(), AllocError>
    ensures { OnOk result (text.new ≡ text.old ++ Definitions.of_rule id words.now said.now) }
{
    put_number(text, b"rule ", u64::from(id), words)?;
    text.extend(said)?;
    text.push(b'\n')
}

/// Adds the number of a rule, and what stands before and behind it.
fn put_id_between(text: &mut Bytes, before: &[u8], id: u32, behind: &[u8]) -> Result<(), AllocError>
    ensures { OnOk result (text.new ≡ text.old ++ numbered before.now id behind.now) }
{
    put_number(text, before, u64::from(id), behind)
}

/// Adds where a rule comes.
fn put_place(text: &mut Bytes, behind: Option<u32>) -> Result<(), AllocError>
    ensures { OnOk result (text.new ≡ text.old ++ Definitions.place_text behind) }
{
    match behind {
        None => text.extend(b" comes first: "),
        Some(other) => put_id_between(text, b" comes behind rule ", other, b": "),
    }
}

/// Adds a rule by its number, where it comes, and what it says.
fn put_coming(text: &mut Bytes, id: u32, behind: Option<u32>, said: &[u8]) -> Result<(), AllocError>
    ensures { OnOk result (text.new ≡ text.old ++ Definitions.of_rule id (Definitions.place_text behind) said.now) }
{
    text.extend(b"rule ")?;
    text.push_decimal(u64::from(id))?;
    put_place(text, behind)?;
    text.extend(said)?;
    text.push(b'\n')
}

fn put_revision(text: &mut Bytes, id: u32, revision: &Revision) -> Result<(), AllocError>
    ensures { OnOk result (text.new ≡ text.old ++ Definitions.revision_text id revision.now) }
{
    match revision {
        Revision::Comes { behind, text: said } => put_coming(text, id, *behind, said.as_slice()),
        Revision::Goes(said) => put_rule(text, id, b" goes: ", said.as_slice()),
        Revision::Says { before, now } => {
            put_rule(text, id, b" before: ", before.as_slice())?;
            put_rule(text, id, b" now: ", now.as_slice())
        }
    }
}

fn put_id(text: &mut Bytes, id: u32) -> Result<(), AllocError>
    ensures { OnOk result (text.new ≡ text.old ++ (codes " " ++ decimal id)) }
{
    text.push(b' ')?;
    text.push_decimal(u64::from(id))
}

fn put_ids(text: &mut Bytes, ids: &[u32]) -> Result<(), AllocError>
    ensures { OnOk result (text.new ≡ text.old ++ flat_map (λ id. codes " " ++ decimal id) ids.now) }
{
    for id in ids {
        put_id(text, *id)?;
    }
    Ok(())
}

fn put_order(text: &mut Bytes, ids: &[u32]) -> Result<(), AllocError>
    ensures { OnOk result (text.new ≡ text.old ++ Definitions.order_text ids.now) }
{
    text.extend(b"rules in another order:")?;
    put_ids(text, ids)?;
    text.push(b'\n')
}

fn put_number_again(text: &mut Bytes, id: u32) -> Result<(), AllocError>
    ensures { OnOk result (text.new ≡ text.old ++ Definitions.change_text (Changed.NumberAgain id)) }
{
    let words = b" is for other requests now, and older lines of the log mean the one before\n";
    put_number(text, b"warning: rule ", u64::from(id), words)
}

// ---- all

fn put_change(alloc: Global, text: &mut Bytes, change: &Difference) -> Result<(), AllocError>
    ensures { OnOk result (text.new ≡ text.old ++ Definitions.change_text change.now) }
{
    match change {
        Difference::Frame(key) => put_key(text, *key),
        Difference::BoundPort { before, now } => put_port(text, *before, *now),
        Difference::Offset { before, now } => put_offset(text, *before, *now),
        Difference::UserComes(user) => put_user(text, user.as_slice(), b" comes\n"),
        Difference::UserGoes(user) => put_user(
            text,
            user.as_slice(),
            b" goes: calls to it get 404, and its phones stay registered until their intervals are over\n",
        ),
        Difference::Digest { user, key } => {
            put_user_and(text, user.as_slice(), b" has another ", digest_name(*key))
        }
        Difference::Joins { user, group } => {
            put_user_and(text, user.as_slice(), b" joins group ", group.as_slice())
        }
        Difference::Leaves { user, group } => {
            put_user_and(text, user.as_slice(), b" leaves group ", group.as_slice())
        }
        Difference::Hop { name, change } => put_hop(alloc, text, name.as_slice(), *change),
        Difference::Host { host, port, change } => {
            put_host(alloc, text, host.as_slice(), *port, *change)
        }
        Difference::Rule { id, revision } => put_revision(text, *id, revision),
        Difference::NumberAgain(id) => put_number_again(text, *id),
        Difference::Order(ids) => put_order(text, ids.as_slice()),
    }
}

fn put_changes(alloc: Global, text: &mut Bytes, changes: &[Difference]) -> Result<(), AllocError>
    ensures { OnOk result (text.new ≡ text.old ++ flat_map Definitions.change_text changes.now) }
{
    for change in changes {
        put_change(alloc, text, change)?;
    }
    Ok(())
}

/// Whether a server that runs can take some changes, in a sentence.
fn ending_of(changes: &[Difference]) -> &'static [u8]
    ensures { result.now ≡ Definitions.ending_of changes.now }
{
    if changes.is_empty() {
        b"nothing differs\n"
    } else if can_be_taken(changes) {
        b"a server that runs can take it\n"
    } else {
        b"a server that runs can't take it\n"
    }
}

/// Changes as lines, one or two for each, and a sentence at the end: that nothing differs, that a server that runs can take it, or that
/// it can't. `AllocError` is the only refusal.
pub fn told(alloc: Global, changes: &Items<Difference>) -> Result<Bytes, AllocError>
    ensures { IfOk result (λ text. text ≡ Definitions.told changes.now) }
{
    let mut text = Bytes::new(alloc);
    put_changes(alloc, &mut text, changes.as_slice())?;
    text.extend(ending_of(changes.as_slice()))?;
    Ok(text)
}
