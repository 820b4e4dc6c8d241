ghost use Rattle.std.specs.Prelude.{◌≡◌, ◌≤◌, ◌<◌, [], take, length, IfOk, OnOk, OnErr, IfErr};
ghost use Rattle.std.specs.Io.KnownBytes.{Appends, Keeps};
ghost use Rattle.sip_replay_script.specs.Devices.{later, GaveUp, WritesFront};
ghost use Rattle.sip_replay_script.specs.declared.print_stop.PrintStop.TheVariants.{Write};

use crate::device::TellingWriter;
use crate::print_stop::PrintStop;
use std::io::ErrorKind;

/// One write: how many bytes it took, 0 where it was interrupted.
#[inline(always)]
#[tactic(auto, using(crate::proofs::Fronts::appends_none, crate::proofs::Written::appends_nothing))]
fn put_some<W: TellingWriter>(writer: &mut W, rest: &[u8]) -> Result<usize, PrintStop>
    requires { 0 < length rest.now }
    ensures within { IfOk result (λ n. n ≤ length rest.now) }
    ensures bytes { IfOk result (λ n. Appends (W.contents writer.old) (W.contents writer.new) (take n rest.now)) }
    ensures nothing { OnErr result (Appends (W.contents writer.old) (W.contents writer.new) []) }
    ensures called { W.called writer.new ≡ later 1 (W.called writer.old) }
    ensures failed { IfErr result (λ stop. (stop ≡ Write) × W.has_failed writer.new) }
{
    match writer.give(rest) {
        Ok(0) => Err(PrintStop::Write),
        Ok(count) => Ok(count),
        Err(e) => match e.kind() {
            ErrorKind::Interrupted => Ok(0),
            _ => Err(PrintStop::Write),
        },
    }
}

/// Writes a text whole, whatever parts the writer takes at a time. Mostly it takes the whole.
#[inline(always)]
#[tactic(auto, using(crate::proofs::Fronts::appends_all, crate::proofs::Fronts::nothing_of, crate::proofs::Fronts::appends_rest, crate::proofs::Fronts::front_rest, crate::proofs::Fronts::front_nothing))]
pub fn put<W: TellingWriter>(writer: &mut W, text: &[u8]) -> Result<(), PrintStop>
    ensures ok { OnOk result (Appends (W.contents writer.old) (W.contents writer.new) text.now) }
    ensures front { OnErr result (WritesFront (W.contents writer.old) (W.contents writer.new) text.now) }
    ensures failed { IfErr result (λ stop. (stop ≡ Write) × GaveUp (W.has_failed writer.new) (W.called writer.new)) }
{
    if text.is_empty() {
        return Ok(());
    }
    let done = put_some(writer, text)?;
    if done == text.len() {
        return Ok(());
    }
    put_parts(writer, &text[done..])
}

/// The same, part by part.
#[inline(never)]
#[tactic(auto, using(crate::proofs::Fronts::appends_all, crate::proofs::Written::appends_nothing, crate::proofs::Fronts::front_of, crate::proofs::Fronts::front_kept, crate::proofs::Calls::later_more))]
fn put_parts<W: TellingWriter>(writer: &mut W, text: &[u8]) -> Result<(), PrintStop>
    ensures ok { OnOk result (Appends (W.contents writer.old) (W.contents writer.new) text.now) }
    ensures front { OnErr result (WritesFront (W.contents writer.old) (W.contents writer.new) text.now) }
    ensures failed { IfErr result (λ stop. (stop ≡ Write) × GaveUp (W.has_failed writer.new) (W.called writer.new)) }
{
    let mut done = 0;
    for tries in 0..u64::MAX {
        if done >= text.len() {
            return Ok(());
        }
        done += put_some(writer, &text[done..])?;
    }
    Err(PrintStop::Write)
}

/// Has the writer hand on what it holds back.
#[tactic(auto, using(crate::proofs::Written::keeps_both, crate::proofs::Written::keeps_itself, crate::proofs::Calls::later_more))]
pub fn hand_on<W: TellingWriter>(writer: &mut W) -> Result<(), PrintStop>
    ensures kept { Keeps (W.contents writer.old) (W.contents writer.new) }
    ensures flushed { OnOk result (W.is_flushed writer.new) }
    ensures failed { IfErr result (λ stop. (stop ≡ Write) × GaveUp (W.has_failed writer.new) (W.called writer.new)) }
    ensures still { GaveUp (W.has_failed writer.old) (W.called writer.old) → GaveUp (W.has_failed writer.new) (W.called writer.new) }
{
    for tries in 0..u64::MAX {
        match writer.hand_on() {
            Ok(()) => return Ok(()),
            Err(e) => match e.kind() {
                ErrorKind::Interrupted => {}
                _ => return Err(PrintStop::Write),
            },
        }
    }
    Err(PrintStop::Write)
}
