//! Who gave wrong passwords, and who right ones, since these counts began.
ghost use Rattle.std.specs.Prelude.{◌≡◌, ◌≤◌, ◌++◌, [], length, position, vec_capacity, IfOk, OnOk};
ghost use Rattle.std.specs.List.{flat_map};
ghost use Rattle.sipd_status.specs.Tries as Definitions;
ghost use Rattle.sipd_status.specs.Tries.{behind_right, behind_wrong, is_of, most_sources, one_right, one_wrong};

use sip_text::{Bytes, is_token};
use sip_uri::ip_text;
use std::alloc::{AllocError, Global};
use std::marker::Model;

/// How many sources are kept.
const MOST_SOURCES: usize = 1024;

/// From how many wrong ones on a source is told.
const FEWEST: u64 = 3;

/// The longest name that is told.
const LONGEST_NAME: usize = 64;

/// What one IP address gave: how many wrong passwords, for which user the last one, and whether a right one, too.
pub struct TriedSource {
    pub ip: [u8; 4],
    pub name: Bytes,
    pub wrong: u64,
    pub is_right: bool,
}

/// Written out, so that it is proved once and not wherever one is dropped.
impl Drop for TriedSource {
    fn drop(self) {
        let TriedSource {
            ip: _,
            name: _,
            wrong: _,
            is_right: _,
        } = self;
    }
}

/// The first 1,024 sources that gave a password, right or wrong.
#[derive(Drop)]
pub struct Tries {
    sources: Vec<TriedSource>,
}

impl Model for Tries {
    ghost use Rattle.std.specs.Prelude.{◌≤◌, List, length, vec_capacity};
    ghost use Rattle.sipd_status.specs.Tries.{most_sources};
    ghost use Rattle.sipd_status.specs.declared.tries.TriedSource.{TriedSource};

    ghost Value = { List TriedSource };

    ghost view = { λ t. t.sources.items };

    ghost invariant = { λ t. (most_sources ≤ vec_capacity t.sources) × (length t.sources.items ≤ most_sources) };
}

/// Where a source is.
fn place_of(sources: &[TriedSource], ip: [u8; 4]) -> Option<usize>
    ensures { result ≡ position (is_of ip) sources.now }
{
    sources.iter().position(|source| source.ip == ip)
}

/// One more wrong password of a source.
fn count_wrong(source: &mut TriedSource, name: Bytes)
    ensures { source.new ≡ one_wrong name source.old }
{
    source.wrong = source.wrong.saturating_add(1);
    source.name = name;
}

/// A right password of a source.
fn note_right(source: &mut TriedSource)
    ensures { source.new ≡ one_right source.old }
{
    source.is_right = true;
}

/// Notes a wrong password, if there is room for its source.
fn add_wrong(sources: &mut Vec<TriedSource>, ip: [u8; 4], name: Bytes)
    requires room { most_sources ≤ vec_capacity sources.old }
    requires few { length sources.old.items ≤ most_sources }
    ensures noted { sources.new.items ≡ behind_wrong ip name sources.old.items }
    ensures room { vec_capacity sources.new ≡ vec_capacity sources.old }
    ensures few { length sources.new.items ≤ most_sources }
{
    match place_of(sources.as_slice(), ip) {
        Some(place) => count_wrong(&mut sources[place], name),
        None if sources.len() < MOST_SOURCES => {
            sources.push_reserved(TriedSource {
                ip,
                name,
                wrong: 1,
                is_right: false,
            });
        }
        None => {}
    }
}

/// Notes a right password, if there is room for its source.
fn add_right(sources: &mut Vec<TriedSource>, ip: [u8; 4], name: Bytes)
    requires room { most_sources ≤ vec_capacity sources.old }
    requires few { length sources.old.items ≤ most_sources }
    ensures noted { sources.new.items ≡ behind_right ip name sources.old.items }
    ensures room { vec_capacity sources.new ≡ vec_capacity sources.old }
    ensures few { length sources.new.items ≤ most_sources }
{
    match place_of(sources.as_slice(), ip) {
        Some(place) => note_right(&mut sources[place]),
        None if sources.len() < MOST_SOURCES => {
            sources.push_reserved(TriedSource {
                ip,
                name,
                wrong: 0,
                is_right: true,
            });
        }
        None => {}
    }
}

fn is_short_token(name: &[u8]) -> bool
    ensures { result ≡ Definitions.is_short_token name.now }
{
    is_token(name) && name.len() <= LONGEST_NAME
}

/// A name as it is told: only a short token can be one of a user, and nothing else is handed on.
fn told_name(name: &[u8]) -> &[u8]
    ensures { result.now ≡ Definitions.told_name name.now }
{
    if is_short_token(name) {
        name
    } else {
        b"a name that is none"
    }
}

/// The line of a source.
fn line_of(alloc: Global, source: &TriedSource) -> Result<Bytes, AllocError>
    ensures { IfOk result (λ line. line ≡ Definitions.line_of source.now) }
{
    let mut line = Bytes::new(alloc);
    line.extend(b"sipd: ")?;
    line.extend(ip_text(alloc, source.ip)?.as_slice())?;
    line.extend(b" gave ")?;
    line.push_decimal(source.wrong)?;
    line.extend(b" wrong passwords for ")?;
    line.extend(told_name(source.name.as_slice()))?;
    line.extend(b", none right\n")?;
    Ok(line)
}

/// Whether a source is told: it gave three wrong passwords at least, and none that is right.
fn is_told(source: &TriedSource) -> bool
    ensures { result ≡ Definitions.is_told source.now }
{
    source.wrong >= FEWEST && !source.is_right
}

/// Adds the line of a source that is told.
fn push_told(alloc: Global, out: &mut Bytes, source: &TriedSource) -> Result<(), AllocError>
    ensures { OnOk result (out.new ≡ out.old ++ Definitions.told_line source.now) }
{
    if !is_told(source) {
        return Ok(());
    }
    let line = line_of(alloc, source)?;
    out.extend(line.as_slice())
}

/// Adds the lines of those that are told.
fn push_all(alloc: Global, out: &mut Bytes, sources: &[TriedSource]) -> Result<(), AllocError>
    ensures { OnOk result (out.new ≡ out.old ++ flat_map Definitions.told_line sources.now) }
{
    for source in sources {
        push_told(alloc, out, source)?;
    }
    Ok(())
}

impl Tries {
    /// None. Makes room for all sources. `AllocError` is the only refusal.
    pub fn new(alloc: Global) -> Result<Tries, AllocError>
        ensures { IfOk result (λ tries. tries ≡ []) }
    {
        Ok(Tries {
            sources: Vec::with_capacity(alloc, MOST_SOURCES)?,
        })
    }

    /// A wrong password of a source, for a user.
    pub fn wrong(&mut self, ip: [u8; 4], name: Bytes)
        ensures { self.new ≡ behind_wrong ip name self.old }
    {
        add_wrong(&mut self.sources, ip, name);
    }

    /// A right password of a source.
    pub fn right(&mut self, alloc: Global, ip: [u8; 4])
        ensures { self.new ≡ behind_right ip [] self.old }
    {
        add_right(&mut self.sources, ip, Bytes::new(alloc));
    }

    /// The lines of those that are told, in their order. `AllocError` is the only refusal.
    pub fn lines(&self, alloc: Global) -> Result<Bytes, AllocError>
        ensures { IfOk result (λ lines. lines ≡ Definitions.lines_of self.now) }
    {
        let mut out = Bytes::new(alloc);
        push_all(alloc, &mut out, self.sources.as_slice())?;
        Ok(out)
    }

    /// Begins anew.
    pub fn clear(&mut self)
        ensures { self.new ≡ [] }
    {
        self.sources.clear();
    }
}
