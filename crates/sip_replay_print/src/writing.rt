//! Texts written whole, as printing writes them: what they stop for, printing stops for.
ghost use Rattle.std.specs.Prelude.{◌++◌, OnOk, OnErr, IfErr};
ghost use Rattle.std.specs.Io.KnownBytes.{Appends};
ghost use Rattle.sip_replay_script.specs.Devices.{GaveUp, WritesFront};
ghost use Rattle.sip_replay_print.specs.Stops.{PrintStops};

use sip_replay_script::{PrintStop, TellingWriter, put};

/// Writes a text whole, as `put` does: what it stops for, printing stops for.
#[inline(always)]
pub fn put_one<W: TellingWriter>(writer: &mut W, text: &[u8]) -> Result<(), PrintStop>
    ensures ok { OnOk result (Appends (W.contents writer.old) (W.contents writer.new) text.now) }
    ensures front { OnErr result (WritesFront (W.contents writer.old) (W.contents writer.new) text.now) }
    ensures stopped { IfErr result (PrintStops (GaveUp (W.has_failed writer.new) (W.called writer.new))) }
{
    match put(writer, text) {
        Ok(()) => Ok(()),
        Err(stop) => Err(stop),
    }
}

/// Writes three texts, one after the other.
#[inline(always)]
#[tactic(auto, using(sip_replay_script::proofs::Written::appends_both, sip_replay_script::proofs::Fronts::front_first, sip_replay_script::proofs::Fronts::front_second))]
pub fn put_three<W: TellingWriter>(
    writer: &mut W,
    first: &[u8],
    second: &[u8],
    third: &[u8],
) -> Result<(), PrintStop>
    ensures ok { OnOk result (Appends (W.contents writer.old) (W.contents writer.new) (first.now ++ second.now ++ third.now)) }
    ensures front { OnErr result (WritesFront (W.contents writer.old) (W.contents writer.new) (first.now ++ second.now ++ third.now)) }
    ensures stopped { IfErr result (PrintStops (GaveUp (W.has_failed writer.new) (W.called writer.new))) }
{
    match put(writer, first) {
        Ok(()) => {}
        Err(stop) => return Err(stop),
    }
    match put(writer, second) {
        Ok(()) => {}
        Err(stop) => return Err(stop),
    }
    match put(writer, third) {
        Ok(()) => Ok(()),
        Err(stop) => Err(stop),
    }
}
