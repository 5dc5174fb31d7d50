// The text of reports and of refused scripts, appended to one `String` piece by piece; want of memory is the only
// error. What stands where is defined in `specs/Report.antt`.
ghost use Rattle.std.specs.Prelude.{◌≡◌, ◌++◌, ◌^◌, ◌<◌, ◌≤◌, IfOk, OnOk, string_bytes};
ghost use Rattle.script_reader.specs.Canonical.{hex};
ghost use Rattle.report_text.specs.Report.{compaction_text, fault_text_of, meet_text, mutators_text, replies_text, reply_line, reply_text, report_of, soak_line_of, start_text, sweep_text};

use plain_table::{Compaction, MeetReport, Outcome, Reply, SweepReport};
use script_reader::{OutOfMemory, ScriptErr, push_hex};
use sqlite_items::Items;
use std::alloc::{AllocError, Global};

/// The report of a run, as it is printed (`report_of` in `specs/Report.antt`): for each phase a line for each reply,
/// as `m0 word 00010000`, those of mutator 0 first, and then the line of its meet.
pub fn text(alloc: Global, outcome: &Outcome) -> Result<String, OutOfMemory>
    ensures { IfOk result (λ text. string_bytes text ≡ report_of outcome.now) }
{
    let mut text = String::new(alloc);
    push_phases(&mut text, outcome)?;
    Ok(text)
}

/// The one line that sums an outcome up (`soak_line_of` in `specs/Report.antt`), as
/// `soak live=1200 sum=00000057d5f0 gone=8400`: the external cells at the end, the sum of their values modulo 2^48 in
/// twelve hexadecimal digits, and how many of the cells that were put are not left.
pub fn soak_text(alloc: Global, outcome: &Outcome) -> Result<String, OutOfMemory>
    requires live { outcome.now.live ≤ outcome.now.puts }
    requires sum { outcome.now.sum < 2 ^ 48 }
    ensures { IfOk result (λ text. string_bytes text ≡ soak_line_of outcome.now) }
{
    let mut text = String::new(alloc);
    push_soak(&mut text, outcome)?;
    Ok(text)
}

/// The text of a refused script, as `line 2: bad line` (`fault_text_of` in `specs/Report.antt`); that of want of
/// memory is empty.
pub fn fault_text(alloc: Global, refusal: &ScriptErr) -> Result<String, OutOfMemory>
    ensures { IfOk result (λ text. string_bytes text ≡ fault_text_of refusal.now) }
{
    match *refusal {
        ScriptErr::BadHeader => Ok(String::from_str(alloc, "refused: bad header\n")?),
        ScriptErr::BadLine { line } => Ok(format!(in alloc; "line {line}: bad line\n")?),
        ScriptErr::BadTag { line } => Ok(format!(in alloc; "line {line}: bad tag\n")?),
        ScriptErr::BadNumber { line } => Ok(format!(in alloc; "line {line}: bad number\n")?),
        ScriptErr::OutOfRange { line } => Ok(format!(in alloc; "line {line}: out of range\n")?),
        ScriptErr::BadMeet { line } => Ok(format!(in alloc; "line {line}: bad meet\n")?),
        ScriptErr::TooMany { line } => Ok(format!(in alloc; "line {line}: too many\n")?),
        ScriptErr::OutOfMemory => Ok(String::new(alloc)),
    }
}

// The summary of an outcome.
fn push_soak(text: &mut String, outcome: &Outcome) -> Result<(), AllocError>
    requires { outcome.now.live ≤ outcome.now.puts }
    ensures { OnOk result (string_bytes text.new ≡ string_bytes text.old ++ soak_line_of outcome.now) }
{
    let gone = outcome.puts - outcome.live;
    write!(text, "soak live={}", outcome.live)?;
    push_named(text, " sum=", 12, outcome.sum)?;
    write!(text, " gone={gone}\n")
}

// The phases, each with its replies and then its meet.
fn push_phases(text: &mut String, outcome: &Outcome) -> Result<(), AllocError>
    ensures { OnOk result (string_bytes text.new ≡ string_bytes text.old ++ report_of outcome.now) }
{
    for phase in outcome.phases.as_slice() {
        push_mutators(text, phase.replies.as_slice())?;
        push_meet(text, outcome, &phase.meet)?;
    }
    Ok(())
}

// The replies of each mutator of a phase, those of mutator 0 first.
fn push_mutators(text: &mut String, mutators: &[Items<Reply>]) -> Result<(), AllocError>
    ensures { OnOk result (string_bytes text.new ≡ string_bytes text.old ++ mutators_text 0 mutators.now) }
{
    for (mutator, replies) in mutators.iter().enumerate() {
        push_replies(text, mutator, replies.as_slice())?;
    }
    Ok(())
}

fn push_replies(text: &mut String, mutator: usize, replies: &[Reply]) -> Result<(), AllocError>
    ensures { OnOk result (string_bytes text.new ≡ string_bytes text.old ++ replies_text mutator replies.now) }
{
    for reply in replies {
        push_line(text, mutator, *reply)?;
    }
    Ok(())
}

fn push_line(text: &mut String, mutator: usize, reply: Reply) -> Result<(), AllocError>
    ensures { OnOk result (string_bytes text.new ≡ string_bytes text.old ++ reply_line mutator reply) }
{
    write!(text, "m{mutator} ")?;
    push_reply(text, reply)?;
    text.push_str("\n")
}

fn push_reply(text: &mut String, reply: Reply) -> Result<(), AllocError>
    ensures { OnOk result (string_bytes text.new ≡ string_bytes text.old ++ reply_text reply) }
{
    match reply {
        Reply::Ok => text.push_str("ok"),
        Reply::Obj(number) => write!(text, "obj {number}"),
        Reply::HeapFull => text.push_str("heapfull"),
        Reply::Nothing => text.push_str("nothing"),
        Reply::Empty => text.push_str("empty"),
        Reply::Value(value) => push_named(text, "value ", 12, value),
        Reply::Null => text.push_str("null"),
        Reply::Fault => text.push_str("fault"),
        Reply::Word(word) => push_named(text, "word ", 8, u64::from(word)),
        Reply::Taken(word) => push_named(text, "taken ", 8, u64::from(word)),
        Reply::Full => text.push_str("full"),
        Reply::Pending => text.push_str("pending"),
        Reply::NotYours => text.push_str("notyours"),
        Reply::Index(_) | Reply::NoRoom => Ok(()),
    }
}

// A name, and after it the last digits of a number.
fn push_named(text: &mut String, name: &str, digits: u8, number: u64) -> Result<(), AllocError>
    ensures { OnOk result (string_bytes text.new ≡ string_bytes text.old ++ (name.now ++ hex digits number)) }
{
    text.push_str(name)?;
    push_hex(text, digits, number)
}

fn push_meet(text: &mut String, outcome: &Outcome, meet: &MeetReport) -> Result<(), AllocError>
    ensures { OnOk result (string_bytes text.new ≡ string_bytes text.old ++ meet_text outcome.now meet.now) }
{
    match *meet {
        MeetReport::Plain => text.push_str("meet\n"),
        MeetReport::Started { area } => push_start(text, area),
        MeetReport::Swept { report } => push_sweep(text, report),
        MeetReport::Ended => write!(
            text,
            "end live={} trusted={} objects={}\n",
            outcome.live, outcome.trusted, outcome.objects
        ),
    }
}

fn push_start(text: &mut String, area: Option<u32>) -> Result<(), AllocError>
    ensures { OnOk result (string_bytes text.new ≡ string_bytes text.old ++ start_text area) }
{
    match area {
        None => text.push_str("start area=none\n"),
        Some(first) => write!(text, "start area={first}\n"),
    }
}

fn push_sweep(text: &mut String, report: SweepReport) -> Result<(), AllocError>
    ensures { OnOk result (string_bytes text.new ≡ string_bytes text.old ++ sweep_text report) }
{
    let SweepReport {
        kept,
        freed,
        moved,
        segs,
        trusted,
        tfreed,
        compaction,
    } = report;
    let compaction = compaction_name(compaction);
    write!(
        text,
        "finish kept={kept} freed={freed} moved={moved} segs={segs} trusted={trusted} tfreed={tfreed} \
         compaction={compaction}\n"
    )
}

fn compaction_name(compaction: Compaction) -> &'static str
    ensures { result.now ≡ compaction_text compaction }
{
    match compaction {
        Compaction::NoArea => "none",
        Compaction::Done => "done",
        Compaction::Aborted => "aborted",
    }
}
