//! The nonces of the challenges that went out, and what a credential is worth against them (RFC 2617 3.2.2, 3.3).
//! Which user a credential names, and of which realm it is, is asked before (`sip_auth`).
ghost use Rattle.std.specs.Prelude.{◌≡◌, ◌≤◌, ◌↔◌, true, false, [], ◌∷◌, ◌++◌, length, drop, IfOk, find, position, slice_get};
ghost use Rattle.std.specs.VecDeque.{deque_capacity};
ghost use Rattle.std.specs.Option.{option_map_or};
ghost use Rattle.sip_digest.specs.Credential.{shown};
ghost use Rattle.sip_digest.specs.declared.nonces.Worth.TheVariants.{Right};
ghost use Rattle.sip_digest.specs.NonceText as Texts;
ghost use Rattle.sip_digest.specs.Nonces.{keep_last, issued, counted, worth_of, standing, is_this, lasting};
ghost use Rattle.sip_digest.specs.Rows.{bucket_of, nonces_in, buckets_of, gaps_in, IsNewest, AreLinked};

use crate::Credential;
use crate::nonce_texts::word_of;
use std::alloc::{AllocError, Global};
use std::collections::VecDeque;
use std::marker::Model;

/// How long a nonce lives, in milliseconds.
const LIFE: u64 = 300_000;

/// How many nonces are kept.
const KEPT: usize = 4096;

/// How many buckets their words fall into.
const BUCKETS: usize = 4096;

/// A nonce that was issued: the word that its text writes, when it was issued, in milliseconds, and
/// the greatest count that was accepted for it.
#[derive(Clone, Copy)]
pub struct Nonce {
    pub word: u128,
    pub since: u64,
    pub count: u64,
}

/// What a credential is worth: `Right` proves its user, `Stale` is the user's answer to a nonce that
/// no longer counts, `Wrong` is no answer of the user's.
#[derive(Clone, Copy)]
pub enum Worth {
    Right,
    Stale,
    Wrong,
}

/// What a credential is worth, and the word that its nonce's text names, where the credential is right: by it the nonce is
/// found again.
#[derive(Clone, Copy)]
pub struct NonceCheck {
    pub worth: Worth,
    pub word: Option<u128>,
}

/// A nonce that is kept, and how many rows stand between it and the next older one of its bucket. Where none is left,
/// that leads to a row of another bucket, or past the oldest.
#[derive(Clone, Copy)]
struct NonceRow {
    nonce: Nonce,
    gap: u16,
}

/// The nonces that were issued last, from the oldest to the newest. Only `new` takes memory. A look-up passes the
/// rows of one bucket alone, from the newest to the oldest: one or two, since words are random.
#[derive(Drop)]
pub struct Nonces {
    rows: VecDeque<NonceRow>,
    /// How many nonces were issued, round 2^16.
    turn: u16,
    /// What `turn` was when the newest row of each bucket had come.
    marks: Vec<u16>,
}

impl Model for Nonces {
    ghost use Rattle.std.specs.Prelude.{◌≤◌, List};
    ghost use Rattle.std.specs.VecDeque.{deque_capacity};
    ghost use Rattle.sip_digest.specs.declared.nonces.Nonce.{Nonce};

    ghost Value = { List Nonce };

    ghost use Rattle.sip_digest.specs.Rows.{nonces_in, buckets_of, gaps_in, AreKept};

    ghost view = { λ n. nonces_in n.rows.items };

    ghost invariant = { λ n. (4096 ≤ deque_capacity n.rows)
        × AreKept (buckets_of (nonces_in n.rows.items)) (gaps_in n.rows.items) n.turn n.marks.items };
}

impl Nonces {
    /// No nonce was issued yet. Refused where memory runs out.
    pub fn new(alloc: Global) -> Result<Self, AllocError>
        ensures { IfOk result (λ nonces. nonces ≡ []) }
    {
        let rows = VecDeque::with_capacity(alloc, KEPT)?;
        let marks = zeros(alloc, BUCKETS)?;
        Ok(Nonces {
            rows,
            turn: 0,
            marks,
        })
    }

    /// Issues the nonce of a word, unless it lives. The oldest of 4,096 gives way.
    #[tactic(auto, using(crate::proofs::Lookups::any_from_position))]
    pub fn issue(&mut self, word: u128, now: u64)
        ensures { self.new ≡ issued self.old word now }
    {
        if self.place_of(word, now).is_none() {
            self.push(Nonce {
                word,
                since: now,
                count: 0,
            });
        }
    }

    /// What a credential is worth at a moment, where the user whose `a1` is given is the one it
    /// names, and its form, realm and URI are right (RFC 2617 3.2.2, 3.3); and the word of its nonce, if the credential
    /// is right.
    pub fn check(&self, a1: &[u8], credential: &Credential<'_>, now: u64) -> NonceCheck
        ensures worth { result.worth ≡ worth_of self.now a1.now (shown credential.now) now }
        ensures word { result.worth ≡ Right → result.word ≡ Texts.word_of credential.now.nonce.now }
    {
        if !credential.is_answer(a1) {
            return NonceCheck {
                worth: Worth::Wrong,
                word: None,
            };
        }
        let word = word_of(credential.nonce);
        let worth = match word {
            None => Worth::Stale,
            Some(word) => standing(self.found(word, now), credential.count),
        };
        NonceCheck { worth, word }
    }

    /// Whether another's say the same from a moment on: from the first that lives they are the same, in their order, with their
    /// counts (RFC 2617 3.2.1, 3.2.2). Takes no memory, and costs by the rows that stand.
    pub fn is_same(&self, other: &Nonces, now: u64) -> bool
        ensures { (result ≡ true) ↔ (lasting now self.now ≡ lasting now other.now) }
    {
        let mine = first_live(&self.rows, now);
        let others = first_live(&other.rows, now);
        are_alike(&self.rows, mine, &other.rows, others)
    }

    /// Takes a count as the greatest that was accepted for the live nonce of a word: so a credential is spent, by its
    /// count and the word of its nonce.
    pub fn accept(&mut self, word: u128, count: u64, now: u64)
        ensures { self.new ≡ counted word count self.old now }
    {
        if let Some(place) = self.place_of(word, now) {
            if let Some(row) = self.rows.get_mut(place) {
                row.nonce.count = count;
            }
        }
    }

    /// Puts a nonce behind the others. The oldest of 4,096 gives way.
    fn push(&mut self, nonce: Nonce)
        ensures { self.new ≡ keep_last 4096 (self.old ++ nonce ∷ []) }
    {
        let bucket = bucket_of(nonce.word);
        let gap = self.turn.wrapping_sub(self.marks[bucket]);
        put_behind(&mut self.rows, NonceRow { nonce, gap });
        self.turn = self.turn.wrapping_add(1);
        self.marks[bucket] = self.turn;
    }

    /// The live nonce of a word.
    #[tactic(auto, using(crate::proofs::Lookups::found_none, crate::proofs::Lookups::found_nonce))]
    fn found(&self, word: u128, now: u64) -> Option<Nonce>
        ensures { result ≡ find (is_this word now) self.now }
    {
        let place = self.place_of(word, now)?;
        let row = self.rows.get(place)?;
        Some(row.nonce)
    }

    /// Where the live nonce of a word stands.
    fn place_of(&self, word: u128, now: u64) -> Option<usize>
        ensures { result ≡ position (is_this word now) self.now }
    {
        let passed = self.turn.wrapping_sub(self.marks[bucket_of(word)]);
        let front = self.rows.len().saturating_sub(usize::from(passed));
        place_among(&self.rows, front, word, now)
    }
}

/// Where the live nonce of a word stands, where the newest row of its bucket, if there is one, is the last of the
/// first `front`.
fn place_among(rows: &VecDeque<NonceRow>, mut front: usize, word: u128, now: u64) -> Option<usize>
    requires linked { AreLinked (buckets_of (nonces_in rows.now.items)) (gaps_in rows.now.items) }
    requires newest { IsNewest (bucket_of word) (buckets_of (nonces_in rows.now.items)) (length (nonces_in rows.now.items)) front }
    ensures { result ≡ position (is_this word now) (nonces_in rows.now.items) }
{
    let bucket = bucket_of(word);
    let mut place = None;
    while front > 0 {
        let at = front - 1;
        let Some(row) = rows.get(at) else {
            return place;
        };
        if bucket_of(row.nonce.word) != bucket {
            return place;
        }
        if is_this(&row.nonce, word, now) {
            place = Some(at);
        }
        front = at.saturating_sub(usize::from(row.gap));
    }
    place
}

/// Puts a row behind the others, where there is room for 4,096. The oldest of so many gives way.
fn put_behind(rows: &mut VecDeque<NonceRow>, row: NonceRow)
    requires few { length rows.old.items ≤ 4096 }
    requires room { 4096 ≤ deque_capacity rows.old }
    ensures items { rows.new.items ≡ keep_last 4096 (rows.old.items ++ row ∷ []) }
    ensures room { deque_capacity rows.new ≡ deque_capacity rows.old }
{
    if rows.len() >= KEPT {
        rows.pop_front();
    }
    rows.push_back_reserved(row);
}

/// The bucket of a word: its low bits.
fn bucket_of(word: u128) -> usize
    ensures { result ≡ bucket_of word }
{
    (word % BUCKETS as u128) as usize
}

/// So many zeros.
fn zeros(alloc: Global, count: usize) -> Result<Vec<u16>, AllocError>
    ensures { IfOk result (λ v. length v.items ≡ count) }
{
    vec![in alloc; 0; count]
}

/// What the user's own answer is worth, with a count, to a live nonce, if there is one.
fn standing(nonce: Option<Nonce>, count: Option<u64>) -> Worth
    ensures { result ≡ standing nonce count }
{
    match (nonce, count) {
        (Some(nonce), Some(count)) if nonce.count < count => Worth::Right,
        _ => Worth::Stale,
    }
}

fn is_this(nonce: &Nonce, word: u128, now: u64) -> bool
    ensures { result ≡ is_this word now nonce.now }
{
    nonce.word == word && is_live(nonce, now)
}

/// The nonce at a place, if there is one.
fn nonce_at(rows: &VecDeque<NonceRow>, place: usize) -> Option<Nonce>
    ensures { result ≡ slice_get (nonces_in rows.now.items) place }
{
    match rows.get(place) {
        Some(row) => Some(row.nonce),
        None => None,
    }
}

/// Whether there is a nonce at a place, and it lives at a moment.
fn lives_at(rows: &VecDeque<NonceRow>, place: usize, now: u64) -> bool
    ensures { result
        ≡ option_map_or (Rattle.sip_digest.specs.Nonces.is_live now) (slice_get (nonces_in rows.now.items) place) false }
{
    match nonce_at(rows, place) {
        Some(nonce) => is_live(&nonce, now),
        None => false,
    }
}

/// Where the first nonce stands that lives at a moment; past the last one where none does.
fn first_live(rows: &VecDeque<NonceRow>, now: u64) -> usize
    ensures { drop result (nonces_in rows.now.items) ≡ lasting now (nonces_in rows.now.items) }
{
    for place in 0..rows.len() {
        if lives_at(rows, place, now) {
            return place;
        }
    }
    rows.len()
}

/// Whether two nonces are equal.
fn is_equal(left: &Nonce, right: &Nonce) -> bool
    ensures { (result ≡ true) ↔ (left.now ≡ right.now) }
{
    if left.word != right.word {
        return false;
    }
    if left.since != right.since {
        return false;
    }
    left.count == right.count
}

/// Whether two nonces are equal, or there is neither.
fn same_nonce(left: Option<Nonce>, right: Option<Nonce>) -> bool
    ensures { (result ≡ true) ↔ (left ≡ right) }
{
    match (left, right) {
        (Some(one), Some(other)) => is_equal(&one, &other),
        (Some(_), None) => false,
        (None, Some(_)) => false,
        (None, None) => true,
    }
}

/// Whether one list of rows has at a place the nonce that another has at a place of its own.
fn same_at(
    left: &VecDeque<NonceRow>,
    place: usize,
    right: &VecDeque<NonceRow>,
    other: usize,
) -> bool
    ensures { (result ≡ true) ↔ (slice_get (nonces_in left.now.items) place ≡ slice_get (nonces_in right.now.items) other) }
{
    same_nonce(nonce_at(left, place), nonce_at(right, other))
}

/// Whether two lists of rows have the same nonces, each from a place on.
fn are_alike(
    left: &VecDeque<NonceRow>,
    mine: usize,
    right: &VecDeque<NonceRow>,
    others: usize,
) -> bool
    ensures { (result ≡ true) ↔ (drop mine (nonces_in left.now.items) ≡ drop others (nonces_in right.now.items)) }
{
    let count = left.len().saturating_sub(mine);
    let other_count = right.len().saturating_sub(others);
    if count != other_count {
        return false;
    }
    for at in 0..count {
        if !same_at(left, mine + at, right, others + at) {
            return false;
        }
    }
    true
}

/// Whether a nonce lives at a moment.
fn is_live(nonce: &Nonce, now: u64) -> bool
    ensures { result ≡ Rattle.sip_digest.specs.Nonces.is_live now nonce.now }
{
    now.saturating_sub(nonce.since) < LIFE
}
