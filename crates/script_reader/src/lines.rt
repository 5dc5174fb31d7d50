// The lines after the header. Each function computes the definition of `specs/Lines.antt` that its contract names.
ghost use Rattle.std.specs.Prelude.{◌≡◌, ◌<◌, [], ◌∷◌, IfOk, Some, true};
ghost use Rattle.std.specs.Option.{option_map_or};
ghost use Rattle.script_reader.specs.Grammar.{cycle_after};
ghost use Rattle.script_reader.specs.Reading.{IsLine};
ghost use Rattle.script_reader.specs.Valid.{meet_after};
ghost use Rattle.script_reader.specs.Spelling.{words};
ghost use Rattle.script_reader.specs.Lines.{alone, end_line, form_line, is_skipped, line_of, meet_line, mutator_line, operation_line, policy_of, start_line};

use crate::forms::{Form, form_named, operation, read_said};
use crate::refusals::Fault;
use crate::words::next_word;
use plain_table::{Meet, Op, Policy};

/// The most operations of a script.
const MOST_OPERATIONS: u32 = 200_000;

/// The most meets of a script, its end not counted.
const MOST_MEETS: u32 = 1_000;

/// An operation of a mutator.
#[derive(Clone, Copy, Debug, PartialEq, Eq)]
pub struct Call {
    pub mutator: u32,
    pub op: Op,
}

/// What a line says.
#[derive(Clone, Copy, Debug, PartialEq, Eq)]
pub enum Line {
    Operation(Call),
    /// A meet that does not end the script.
    Meeting(Meet),
    Ending,
}

/// What stands before a line: the version and the number of mutators that the header names, whether a cycle is under
/// way, and how many operations and meets there were.
#[derive(Clone, Copy, Debug, PartialEq, Eq)]
pub struct Counts {
    pub version: u32,
    pub mutators: u32,
    pub in_cycle: bool,
    pub operations: u32,
    pub meets: u32,
}

/// Whether a line is skipped (`is_skipped`): an empty one, or a comment.
pub fn is_blank(line: &[u8]) -> bool
    ensures { result ≡ is_skipped line.now }
{
    match line {
        [] => true,
        [first, ..] => *first == b'#',
    }
}

/// Reads `m`, a mutator's number, and after it an operation (`operation_line`).
fn read_call(counts: Counts, mutator: &[u8], rest: Option<&[u8]>) -> Result<Line, Fault>
    ensures value { result ≡ operation_line counts mutator.now (option_map_or (λ r. words r.now) rest.entry []) }
    ensures valid { IfOk result (IsLine counts) }
{
    let Some(text) = rest else {
        return Err(Fault::BadLine);
    };
    let (name, places) = next_word(text);
    match form_named(name) {
        None => Err(Fault::BadLine),
        Some(form) => read_form(counts, mutator, places, form),
    }
}

/// Reads the mutator's number and the places of a form (`form_line`).
fn read_form(
    counts: Counts,
    mutator: &[u8],
    places: Option<&[u8]>,
    form: Form,
) -> Result<Line, Fault>
    ensures value { result ≡ form_line counts mutator.now (option_map_or (λ r. words r.now) places.entry []) form }
    ensures valid { IfOk result (IsLine counts) }
{
    let said = read_said(counts.version, counts.mutators, mutator, form, places)?;
    if counts.operations < MOST_OPERATIONS {
        Ok(Line::Operation(Call {
            mutator: said.mutator,
            op: operation(counts.version, form, said),
        }))
    } else {
        Err(Fault::TooMany)
    }
}

/// A line of one word, which says this (`alone`).
fn alone(counts: Counts, rest: Option<&[u8]>, said: Result<Line, Fault>) -> Result<Line, Fault>
    requires { IfOk said (IsLine counts) }
    ensures value { result ≡ alone (option_map_or (λ r. words r.now) rest.entry []) said }
    ensures valid { IfOk result (IsLine counts) }
{
    match rest {
        None => said,
        Some(_) => Err(Fault::BadLine),
    }
}

/// A meet more, where it may stand (`meet_line`).
fn meeting(counts: Counts, proper: bool, meet: Meet) -> Result<Line, Fault>
    requires { proper ≡ true → meet_after counts.in_cycle meet ≡ Some (cycle_after counts.in_cycle meet) }
    ensures value { result ≡ meet_line counts proper meet }
    ensures valid { IfOk result (IsLine counts) }
{
    if !proper {
        return Err(Fault::BadMeet);
    }
    if counts.meets < MOST_MEETS {
        Ok(Line::Meeting(meet))
    } else {
        Err(Fault::TooMany)
    }
}

/// A policy, by its name (`policy_of`).
fn policy_named(word: &[u8]) -> Option<Policy>
    ensures { result ≡ policy_of word.now }
{
    if word == b"auto".as_slice() {
        Some(Policy::Auto)
    } else if word == b"always".as_slice() {
        Some(Policy::Always)
    } else if word == b"never".as_slice() {
        Some(Policy::Never)
    } else {
        None
    }
}

/// A start by this policy.
fn start_by(counts: Counts, policy: &[u8]) -> Result<Line, Fault>
    ensures value { result ≡ start_line counts (policy.now ∷ []) }
    ensures valid { IfOk result (IsLine counts) }
{
    match policy_named(policy) {
        None => Err(Fault::BadLine),
        Some(policy) => meeting(counts, !counts.in_cycle, Meet::Start { policy }),
    }
}

/// Reads what stands after `start` (`start_line`).
fn read_start(counts: Counts, rest: Option<&[u8]>) -> Result<Line, Fault>
    ensures value { result ≡ start_line counts (option_map_or (λ r. words r.now) rest.entry []) }
    ensures valid { IfOk result (IsLine counts) }
{
    let Some(text) = rest else {
        return Err(Fault::BadLine);
    };
    let (word, more) = next_word(text);
    match more {
        Some(_) => Err(Fault::BadLine),
        None => start_by(counts, word),
    }
}

/// The end, outside a cycle (`end_line`).
fn ending(counts: Counts) -> Result<Line, Fault>
    ensures value { result ≡ end_line counts }
    ensures valid { IfOk result (IsLine counts) }
{
    if counts.in_cycle {
        Err(Fault::BadMeet)
    } else {
        Ok(Line::Ending)
    }
}

/// Reads an operation by its first word (`mutator_line`).
fn read_mutator_line(counts: Counts, first: &[u8], rest: Option<&[u8]>) -> Result<Line, Fault>
    ensures value { result ≡ mutator_line counts first.now (option_map_or (λ r. words r.now) rest.entry []) }
    ensures valid { IfOk result (IsLine counts) }
{
    match first {
        [b'm', mutator @ ..] => {
            if mutator.is_empty() {
                Err(Fault::BadLine)
            } else {
                read_call(counts, mutator, rest)
            }
        }
        _ => Err(Fault::BadLine),
    }
}

/// Reads a line that is not skipped (`line_of`), given what stands before it.
pub fn read_line(counts: Counts, line: &[u8]) -> Result<Line, Fault>
    ensures value { result ≡ line_of counts line.now }
    ensures valid { IfOk result (IsLine counts) }
{
    let (first, rest) = next_word(line);
    if first == b"meet".as_slice() {
        alone(counts, rest, meeting(counts, true, Meet::Plain))
    } else if first == b"start".as_slice() {
        read_start(counts, rest)
    } else if first == b"finish".as_slice() {
        alone(counts, rest, meeting(counts, counts.in_cycle, Meet::Finish))
    } else if first == b"end".as_slice() {
        alone(counts, rest, ending(counts))
    } else {
        read_mutator_line(counts, first, rest)
    }
}
