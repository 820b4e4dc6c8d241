ghost use Rattle.std.specs.Prelude.{◌≡◌, ◌≢◌, ◌≤◌, length, true, IfErr, IfNone, IfOk, IfSome, OnOk};
ghost use Rattle.std.specs.Io.KnownBytes.{Keeps};
ghost use Rattle.sha2.specs.Sha256.{sha256};
ghost use Rattle.sip_replay_script.specs.Devices.{later};
ghost use Rattle.sip_replay_script.specs.Lines.{pending, IsOver, IsSpent};
ghost use Rattle.sip_journal.specs.Configurations.{begins_event, BeginsBy};
ghost use Rattle.sip_segment_config.specs.declared.stop.SegmentStop.TheVariants.{Damaged};
ghost use Rattle.sipd_old_record.specs.Own.{HoldsNone, HoldsOwn, IsNoEvent, OwnStops};
ghost use Rattle.sipd_reload.specs.File.{most_bytes};

use sha2::{Digest, Sha256};
use sip_journal::{RecordHead, Upcoming, look_ahead, look_for_event};
use sip_replay_script::{ScriptLines, TellingReader};
use sip_segment_config::{RecordedConfig, SegmentStop, read_configuration};
use sipd_reload::MOST_BYTES;
use std::alloc::Global;

/// That bytes have the digest of a record's first line, which is damaged else.
fn check_digest(head: &RecordHead, bytes: &[u8]) -> Result<(), SegmentStop>
    ensures same { OnOk result (sha256 bytes.now ≡ head.now.digest) }
    ensures other { IfErr result (λ stop. (stop ≡ Damaged 0) × (sha256 bytes.now ≢ head.now.digest)) }
{
    let digest: [u8; 32] = Sha256::digest(bytes);
    if digest == head.digest {
        Ok(())
    } else {
        Err(SegmentStop::Damaged(0))
    }
}

/// The configuration that comes next, with the digest of the first line.
fn read_own<I: TellingReader>(
    alloc: Global,
    head: &RecordHead,
    lines: &mut ScriptLines,
    reader: &mut I,
) -> Result<Option<RecordedConfig>, SegmentStop>
    ensures own { IfOk result (λ found. IfSome found (λ held. HoldsOwn head.now.digest lines.old lines.new (I.remaining reader.old)
        (I.remaining reader.new) held.text held.config)) }
    ensures short { IfOk result (λ found. IfSome found (λ held. length held.text ≤ most_bytes)) }
    ensures over { IfOk result (λ found. IfNone found (IsOver lines.old lines.new (I.remaining reader.old) (I.remaining reader.new))) }
    ensures refused { IfErr result (OwnStops head.now.digest (IsSpent (I.has_failed reader.new) lines.new.asks)
        (pending lines.old (I.remaining reader.old)) lines.old.number) }
    ensures asked { later lines.new.asks (I.asked reader.new) ≡ later lines.old.asks (I.asked reader.old) }
    ensures less { lines.new.asks ≤ lines.old.asks }
{
    let Some(held) = read_configuration(alloc, lines, reader, MOST_BYTES)? else {
        return Ok(None);
    };
    check_digest(head, held.text.as_slice())?;
    Ok(Some(held))
}

/// That what comes next begins as an event does. `Damaged` else, with the line with which it begins; `Read`, where the reader failed or was
/// asked as often as it may be.
fn check_event<I: TellingReader>(lines: &mut ScriptLines, reader: &mut I) -> Result<(), SegmentStop>
    ensures kept { OnOk result (Keeps (pending lines.old (I.remaining reader.old)) (pending lines.new (I.remaining reader.new))) }
    ensures event { OnOk result (IfSome (pending lines.old (I.remaining reader.old)) (BeginsBy begins_event true)) }
    ensures refused { IfErr result (IsNoEvent (IsSpent (I.has_failed reader.new) lines.new.asks) (pending lines.old (I.remaining reader.old)) lines.old.number) }
    ensures asked { later lines.new.asks (I.asked reader.new) ≡ later lines.old.asks (I.asked reader.old) }
    ensures less { lines.new.asks ≤ lines.old.asks }
{
    let first = lines.number() + 1;
    match look_for_event(lines, reader) {
        Ok(true) => Ok(()),
        Ok(false) => Err(SegmentStop::Damaged(first)),
        Err(_) => Err(SegmentStop::Read),
    }
}

/// The configuration of its own with which a record begins whose first line says this head; none, where the record ends behind that, or goes
/// on with an event, as an older one does. Refused as `read_configuration` is, and with `Damaged`, where what comes next begins neither; the
/// line is 0, the record's first one, where that has the digest of other bytes.
pub fn own_configuration<I: TellingReader>(
    alloc: Global,
    head: &RecordHead,
    lines: &mut ScriptLines,
    reader: &mut I,
) -> Result<Option<RecordedConfig>, SegmentStop>
    ensures own { IfOk result (λ found. IfSome found (λ held. HoldsOwn head.now.digest lines.old lines.new (I.remaining reader.old)
        (I.remaining reader.new) held.text held.config)) }
    ensures short { IfOk result (λ found. IfSome found (λ held. length held.text ≤ most_bytes)) }
    ensures none { IfOk result (λ found. IfNone found (HoldsNone lines.old lines.new (I.remaining reader.old) (I.remaining reader.new))) }
    ensures refused { IfErr result (OwnStops head.now.digest (IsSpent (I.has_failed reader.new) lines.new.asks)
        (pending lines.old (I.remaining reader.old)) lines.old.number) }
    ensures asked { later lines.new.asks (I.asked reader.new) ≡ later lines.old.asks (I.asked reader.old) }
    ensures less { lines.new.asks ≤ lines.old.asks }
{
    match look_ahead(lines, reader) {
        Ok(Upcoming::Over) => Ok(None),
        Ok(Upcoming::Configuration) => read_own(alloc, head, lines, reader),
        Ok(Upcoming::Event) => {
            check_event(lines, reader)?;
            Ok(None)
        }
        Err(_) => Err(SegmentStop::Read),
    }
}
