//! The command `trace`: recorded days as a capture.
ghost use Rattle.std.specs.Prelude.{◌≡◌, true, false, length, map, string_bytes, IfOk, OnOk};
ghost use Rattle.std.specs.Io.KnownBytes.{Appends, Keeps};
ghost use Rattle.sipd_capture.specs.Headers.{file_head};
ghost use Rattle.sipd_record_files.specs.Named.{AreNamed};
ghost use Rattle.sipd_telling.specs.Records.{TellsFiles};
ghost use Rattle.sipd_traces.specs.Traces as Definitions;
ghost use Rattle.sipd_traces.specs.Traces.{Chooses, WritesCapture, WritesChosen, WritesOut, adds_frames};

use crate::naming::call_id_of;
use crate::tracer::{Tracer, put_head};
use sip_policy::Rules;
use sip_replay_script::{PrintStop, TellingWriter, hand_on};
use sip_timers::Timers;
use sipd_arguments::TraceCall;
use sipd_capture::CaptureChoice;
use sipd_exit::{DeviceFault, Exit};
use sipd_old_record::new_file;
use sipd_record_files::record_files;
use sipd_telling::{DayReading, Onward, reading_of, tell_files};
use std::alloc::Global;
use std::io::{BufWriter, ErrorKind, Write};
use std::rt::{Clock, Files};

/// How the program ends where a capture isn't written.
fn exit_of_capture(stop: PrintStop) -> Exit {
    match stop {
        PrintStop::NoMemory => Exit::Memory,
        PrintStop::Write => Exit::Device(DeviceFault::Other),
    }
}

fn begin_capture<W: TellingWriter>(alloc: Global, writer: &mut W) -> Result<(), Exit>
    ensures { OnOk result (Appends (W.contents writer.old) (W.contents writer.new) file_head) }
{
    match put_head(alloc, writer) {
        Ok(()) => Ok(()),
        Err(stop) => Err(exit_of_capture(stop)),
    }
}

/// Hands on what was written.
fn end_capture<W: TellingWriter>(writer: &mut W) -> Result<(), Exit>
    ensures { Keeps (W.contents writer.old) (W.contents writer.new) }
{
    match hand_on(writer) {
        Ok(()) => Ok(()),
        Err(stop) => Err(exit_of_capture(stop)),
    }
}

/// Writes what came and went by records.
fn tell_frames<
    T: Timers,
    P: Rules,
    R: Files + Clock + Eprint + AllocGlobal,
    W: TellingWriter,
    C: Write,
>(
    rt: &R,
    records: &[String],
    reading: &DayReading,
    choice: CaptureChoice,
    writer: &mut W,
    complaints: &mut C,
) -> Result<(), Exit>
    ensures { OnOk result (TellsFiles (adds_frames choice) (length records.now) (W.contents writer.old) (W.contents writer.new)) }
{
    let mut onward = Onward::new(Tracer {
        alloc: rt.alloc(),
        choice,
        writer: Some(writer),
    });
    let told = tell_files::<T, P, R, Tracer<'_, W>, C>(
        rt,
        records,
        reading,
        &mut onward,
        complaints,
    );
    let lent = onward.listener.writer.take();
    drop(onward);
    match lent {
        Some(writer) => {
            // Nothing happens here: by this use of it the proof knows what the writer has.
            let _ = &*writer;
            told
        }
        None => told,
    }
}

/// Writes a capture of records. Where one is damaged, what is in front of the damage is in it.
fn write_capture<
    T: Timers,
    P: Rules,
    R: Files + Clock + Eprint + AllocGlobal,
    W: TellingWriter,
    C: Write,
>(
    rt: &R,
    records: &[String],
    reading: &DayReading,
    choice: CaptureChoice,
    writer: &mut W,
    complaints: &mut C,
) -> Result<(), Exit>
    ensures { OnOk result (WritesCapture choice (length records.now) (W.contents writer.old) (W.contents writer.new)) }
{
    begin_capture(rt.alloc(), writer)?;
    let told = tell_frames::<T, P, R, W, C>(rt, records, reading, choice, writer, complaints);
    end_capture(writer)?;
    told
}

/// Which datagrams stand in it.
fn choice_of<T: Timers, P: Rules, R: Files + Clock + Eprint + AllocGlobal, C: Write>(
    rt: &R,
    call: &TraceCall,
    records: &[String],
    reading: &DayReading,
    complaints: &mut C,
) -> Result<CaptureChoice, Exit>
    ensures { IfOk result (λ choice. Chooses call.now choice) }
{
    let hide = call.hide;
    match &call.call {
        Some(word) => {
            let call_id = call_id_of::<T, P, R, C>(
                rt,
                word.as_str(),
                records,
                reading,
                complaints,
            )?;
            Ok(CaptureChoice {
                call_id: Some(call_id),
                hide,
            })
        }
        None => Ok(CaptureChoice {
            call_id: None,
            hide,
        }),
    }
}

/// A new file for a capture; one that is there is never written over, which is complained about.
fn capture_file<R: Files, C: Write>(
    rt: &R,
    path: &str,
    complaints: &mut C,
) -> Result<R::File, Exit> {
    match new_file(rt, path) {
        Ok(file) => Ok(file),
        Err(e) => {
            if let ErrorKind::AlreadyExists = e.kind() {
                let _ = writeln!(complaints, "sipd: {path} is there, and isn't written over");
            }
            Err(Exit::from(e))
        }
    }
}

/// Writes a capture of what is asked for where the output goes.
fn write_out<T: Timers, P: Rules, R: Files + Clock + Eprint + AllocGlobal, W: Write, C: Write>(
    rt: &R,
    call: &TraceCall,
    records: &[String],
    reading: &DayReading,
    output: &mut W,
    complaints: &mut C,
) -> Result<(), Exit>
    ensures { OnOk result (WritesChosen call.now (length records.now) (W.contents output.old) (W.contents output.new)) }
{
    let choice = choice_of::<T, P, R, C>(rt, call, records, reading, complaints)?;
    write_capture::<T, P, R, W, C>(rt, records, reading, choice, output, complaints)
}

/// Writes one of a choice that is what is asked for, of the records that are named, into a file, which is given back once it has all of it.
fn write_into<
    T: Timers,
    P: Rules,
    R: Files + Clock + Eprint + AllocGlobal,
    F: Write + Drop,
    C: Write,
>(
    rt: &R,
    call: &TraceCall,
    records: &[String],
    reading: &DayReading,
    choice: CaptureChoice,
    file: F,
    complaints: &mut C,
) -> Result<F, Exit>
    requires named { AreNamed (map string_bytes call.now.records.items) (map string_bytes records.now) }
    requires chosen { Chooses call.now choice }
    ensures { IfOk result (λ written. WritesOut call.now (F.contents file) (F.contents written)) }
{
    let mut writer = BufWriter::new(rt.alloc(), file)?;
    write_capture::<T, P, R, BufWriter<F>, C>(
        rt,
        records,
        reading,
        choice,
        &mut writer,
        complaints,
    )?;
    match writer.into_inner() {
        Ok(written) => Ok(written),
        Err(e) => Err(Exit::from(e.into_error())),
    }
}

/// Writes a capture of what is asked for into the file that is named, which is new.
fn write_file<T: Timers, P: Rules, R: Files + Clock + Eprint + AllocGlobal, C: Write>(
    rt: &R,
    call: &TraceCall,
    records: &[String],
    reading: &DayReading,
    complaints: &mut C,
) -> Result<(), Exit>
    requires { AreNamed (map string_bytes call.now.records.items) (map string_bytes records.now) }
{
    let choice = choice_of::<T, P, R, C>(rt, call, records, reading, complaints)?;
    let file = capture_file(rt, call.pcap.as_str(), complaints)?;
    write_into::<T, P, R, R::File, C>(rt, call, records, reading, choice, file, complaints)?;
    Ok(())
}

/// Whether a capture goes where the output goes.
fn goes_out(call: &TraceCall) -> bool
    ensures { result ≡ Definitions.goes_out call.now }
{
    call.pcap.as_str() == "-"
}

/// Writes what came and went on recorded days as a capture, into a new file, or where the output goes, if that is named `-`. A record that is being
/// written may be among them. Where one is damaged, what came before is in it, and the program ends as that says.
///
/// `seen`: whether somebody looks at standard error, where it is said then how far it is.
pub fn write_trace<
    T: Timers,
    P: Rules,
    R: Files + Clock + Eprint + AllocGlobal,
    W: Write,
    C: Write,
>(rt: &R, call: &TraceCall, seen: bool, output: &mut W, complaints: &mut C) -> Result<(), Exit>
    ensures written { OnOk result (Definitions.goes_out call.now ≡ true → WritesOut call.now (W.contents output.old) (W.contents output.new)) }
    ensures kept { Definitions.goes_out call.now ≡ false → output.new ≡ output.old }
{
    let files = record_files(rt, call.records.as_slice())?;
    let records = files.as_slice();
    let reading = reading_of(rt, &call.config, seen)?;
    if goes_out(call) {
        return write_out::<T, P, R, W, C>(rt, call, records, &reading, output, complaints);
    }
    write_file::<T, P, R, C>(rt, call, records, &reading, complaints)
}
