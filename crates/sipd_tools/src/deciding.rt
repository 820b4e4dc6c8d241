//! The command `decide` carried out: which rule decides about a request, and whether that is as expected; which requests of a log would be
//! decided otherwise.
ghost use Rattle.std.specs.Prelude.{◌≡◌, ◌⊎◌, IfErr, IfOk, OnOk};
ghost use Rattle.sip_replay_script.specs.Devices.{later, GaveUp};
ghost use Rattle.sipd_expect.specs.LogSteps.{AsksAgain};
ghost use Rattle.sipd_exit.specs.declared.exit.Exit.TheVariants.{OtherDecision};
ghost use Rattle.sipd_ask.specs.Question.{shown};
ghost use Rattle.sipd_tools.specs.Deciding as Definitions;
ghost use Rattle.sipd_tools.specs.Deciding.{Answered, AnswersAsExpected, Decides, DecidesLog, DecidesOne, DecidesOtherwise, EndsAnswering};
ghost use Rattle.sipd_tools.specs.Deciding.{EndsDeciding, EndsLog, IsExpected, IsMinute};
ghost use Rattle.sipd_tools.specs.Ends.{IsUntold};

use crate::tools::{exit_of_decision, exit_of_report, name_of};
use sip_config_types::Config;
use sip_policy::{Decision, minute_of};
use sip_replay_script::{TellingReader, TellingWriter};
use sipd_arguments::{DecideCall, ExpectedDecision, QuestionCall};
use sipd_ask::{DecideQuestion, answer_to};
use sipd_exit::{DeviceFault, Exit, config_of, print};
use sipd_expect::{Counts, ask_again};
use std::alloc::Global;
use std::io::{Read, Write};
use std::rt::{Clock, Files};
use std::time::{SystemTime, UNIX_EPOCH};

/// The milliseconds of UTC since 1970.
fn present<R: Clock>(rt: &R) -> Result<u64, Exit> {
    let Ok(since) = SystemTime::now(rt)?.duration_since(UNIX_EPOCH) else {
        return Err(Exit::Device(DeviceFault::Other));
    };
    Ok(u64::try_from(since.as_millis()).unwrap_or(u64::MAX))
}

/// The minute of the office's day that is asked for: the present one, where none is named.
fn minute_asked<R: Clock>(rt: &R, named: Option<u16>, offset: i16) -> Result<u16, Exit>
    ensures { IfOk result (IsMinute named offset) }
{
    match named {
        Some(minute) => Ok(minute),
        None => Ok(minute_of(present(rt)?, offset)),
    }
}

/// What a decision is to who expects one.
fn verdict_of(decision: Decision) -> ExpectedDecision
    ensures { result ≡ Definitions.verdict_of decision }
{
    match decision {
        Decision::Allow(_) | Decision::Via(_, _) => ExpectedDecision::Allow,
        Decision::Deny(_) => ExpectedDecision::Deny,
        Decision::Challenge => ExpectedDecision::Challenge,
    }
}

/// Holds what the rules decide against what is expected. `OtherDecision` where it is another, or no rule decides.
fn hold_decision(expected: Option<ExpectedDecision>, decision: Option<Decision>) -> Result<(), Exit>
    ensures held { OnOk result (IsExpected expected decision) }
    ensures refused { IfErr result (λ exit. (exit ≡ OtherDecision) × (IsExpected expected decision → ⊥)) }
{
    let Some(expected) = expected else {
        return Ok(());
    };
    let Some(decision) = decision else {
        return Err(Exit::OtherDecision);
    };
    if verdict_of(decision) == expected {
        Ok(())
    } else {
        Err(Exit::OtherDecision)
    }
}

/// What a call asks at a minute.
fn question_of(call: &QuestionCall, minute: u16) -> DecideQuestion<'_>
    ensures { shown result ≡ Definitions.question_at call.now minute }
{
    DecideQuestion {
        user: name_of(&call.user),
        minute,
        operation: call.method.as_bytes(),
        target: call.target.as_bytes(),
    }
}

/// Prints the answer to what a call asks at a minute, and says what the rules decide.
fn answer_call<W: Write>(
    alloc: Global,
    config: &Config,
    call: &QuestionCall,
    minute: u16,
    output: &mut W,
) -> Result<Option<Decision>, Exit>
    ensures answered { IfOk result (Answered config.now call.now minute (W.contents output.old) (W.contents output.new)) }
    ensures refused { IfErr result IsUntold }
{
    match answer_to(alloc, config, &question_of(call, minute)) {
        Ok(answer) => {
            print(answer.text.as_slice(), output)?;
            Ok(answer.decision)
        }
        Err(e) => Err(exit_of_decision(alloc, e, call.method.as_str())?),
    }
}

/// The same, and holds what the rules decide against what is expected: `OtherDecision`, where that is another.
fn hold_answer<W: Write>(
    alloc: Global,
    config: &Config,
    call: &QuestionCall,
    minute: u16,
    output: &mut W,
) -> Result<(), Exit>
    ensures answered { OnOk result (AnswersAsExpected config.now call.now minute (W.contents output.old) (W.contents output.new)) }
    ensures other { IfErr result (EndsAnswering config.now call.now minute (W.contents output.old) (W.contents output.new)) }
{
    let decision = answer_call(alloc, config, call, minute, output)?;
    hold_decision(call.expect, decision)?;
    Ok(())
}

/// Prints which rule would decide, what it says, where a call would go, and the minute; `OtherDecision` behind that, where another decision
/// is expected.
fn decide_one<R: Files + Clock + AllocGlobal, W: Write>(
    rt: &R,
    call: &QuestionCall,
    output: &mut W,
) -> Result<(), Exit>
    ensures decided { OnOk result (DecidesOne call.now (W.contents output.old) (W.contents output.new)) }
    ensures other { IfErr result (DecidesOtherwise call.now (W.contents output.old) (W.contents output.new)) }
{
    let config = config_of(rt, Some(call.config.as_str()))?;
    let minute = minute_asked(rt, call.minute, config.offset)?;
    hold_answer(rt.alloc(), &config, call, minute, output)?;
    Ok(())
}

/// Complains of how many lines were asked, and of how many couldn't be.
fn complain_of_counts<C: Write>(counts: Counts, complaints: &mut C) {
    let Counts { asked, told, none } = counts;
    let _ = writeln!(
        complaints,
        "sipd: {told} of {asked} requests would be decided otherwise"
    );
    if none > 0 {
        let _ = writeln!(complaints, "sipd: {none} lines are no audit lines");
    }
}

/// Prints the lines of a log that a configuration would decide otherwise about, and says how many there were.
fn tell_log<I: TellingReader, W: TellingWriter>(
    alloc: Global,
    config: &Config,
    input: &mut I,
    output: &mut W,
) -> Result<Counts, Exit>
    ensures told { IfOk result (AsksAgain config.now (I.remaining input.old) (W.contents output.old) (W.contents output.new)) }
    ensures refused { IfErr result (EndsLog config.now (I.remaining input.old) (W.contents output.old) (W.contents output.new)
        (I.has_failed input.new ⊎ (I.asked input.new ≡ later 4294967295 (I.asked input.old))) (GaveUp (W.has_failed output.new) (W.called output.new))) }
{
    match ask_again(alloc, config, input, output) {
        Ok(counts) => Ok(counts),
        Err(e) => Err(exit_of_report(e)),
    }
}

/// The same of the log on standard input, under the configuration of a file.
fn decide_log<R: Files + AllocGlobal, I: Read, W: Write, C: Write>(
    rt: &R,
    path: &str,
    input: &mut I,
    output: &mut W,
    complaints: &mut C,
) -> Result<(), Exit>
    ensures { OnOk result (DecidesLog (I.remaining input.old) (W.contents output.old) (W.contents output.new)) }
{
    let config = config_of(rt, Some(path))?;
    let counts = tell_log(rt.alloc(), &config, input, output)?;
    complain_of_counts(counts, complaints);
    Ok(())
}

/// Prints which rule would decide about a request, or which requests of a log would be decided otherwise.
pub fn decide<R: Files + Clock + AllocGlobal, I: Read, W: Write, C: Write>(
    rt: &R,
    call: &DecideCall,
    input: &mut I,
    output: &mut W,
    complaints: &mut C,
) -> Result<(), Exit>
    ensures decided { OnOk result (Decides call.now (I.remaining input.old) (W.contents output.old) (W.contents output.new)) }
    ensures other { IfErr result (EndsDeciding call.now (W.contents output.old) (W.contents output.new)) }
{
    match call {
        DecideCall::Question(call) => decide_one(rt, call, output),
        DecideCall::Log { config } => {
            decide_log(rt, config.as_str(), input, output, complaints)?;
            Ok(())
        }
    }
}
