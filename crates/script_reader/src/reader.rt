// The reader of scripts. Each function computes the definition of `specs/Grammar.antt` that its contract names.
ghost use Rattle.std.specs.Prelude.{◌≡◌, ◌⊎◌, ◌+◌, ◌<◌, ◌^◌, length, Err, IfOk};
ghost use Rattle.script_reader.specs.Spelling.{pieces};
ghost use Rattle.script_reader.specs.Grammar.{bad_after, end_at, ended, lines_from, opening, script_of};
ghost use Rattle.script_reader.specs.Reading.{IsDraft, IsLine, IsValidHeader};
ghost use Rattle.script_reader.specs.Valid.{IsValidLimits, IsValidScript};

use crate::draft::Draft;
use crate::header::{Header, read_header};
use crate::lines::{Line, is_blank, read_line};
use crate::refusals::ScriptErr;
use crate::words::split_line;
use plain_table::{Limits, Script};
use std::alloc::Global;

/// A text of fewer bytes has a number of 32 bits for each line.
const MOST_BYTES: usize = 0xffff_ffff;

/// The first line after `end`, with which `first` begins to count, that may not stand there (`bad_after`).
fn bad_line(after: &[u8], first: u32) -> Option<u32>
    requires { first + length after.now < 2 ^ 32 }
    ensures { result ≡ bad_after first (pieces after.now) }
{
    let mut line = first;
    let mut rest = after;
    while let Some((piece, more)) = split_line(rest) {
        if !is_blank(piece) {
            return Some(line);
        }
        line += 1;
        rest = more;
    }
    if rest.is_empty() { None } else { Some(line) }
}

/// Ends a script after its line `end` (`end_at`): `line` is the number of the line after it, and `after` the text
/// there.
fn finish(
    alloc: Global,
    limits: Limits,
    draft: Draft,
    line: u32,
    after: &[u8],
) -> Result<Script, ScriptErr>
    requires short { line + length after.now < 2 ^ 32 }
    requires limits { IsValidLimits limits }
    requires draft { IsDraft limits draft }
    requires line { IsLine draft.counts Line.Ending }
    ensures read { (result ≡ Err ScriptErr.OutOfMemory)
        ⊎ (result ≡ end_at (ended limits draft) line (pieces after.now)) }
    ensures valid { IfOk result IsValidScript }
{
    match bad_line(after, line) {
        Some(line) => Err(ScriptErr::BadLine { line }),
        None => Ok(draft.end(alloc, limits)?),
    }
}

/// Reads the lines after the header (`lines_from`), of which the first has this number.
fn read_lines(alloc: Global, header: Header, lines: &[u8], first: u32) -> Result<Script, ScriptErr>
    requires short { first + length lines.now < 2 ^ 32 }
    requires header { IsValidHeader header }
    ensures read { (result ≡ Err ScriptErr.OutOfMemory)
        ⊎ (result ≡ lines_from header.limits (opening header) first (pieces lines.now)) }
    ensures valid { IfOk result IsValidScript }
{
    let mut draft = Draft::new(alloc, header);
    let mut line = first;
    let mut rest = lines;
    while let Some((piece, after)) = split_line(rest) {
        if is_blank(piece) {
            line += 1;
            rest = after;
            continue;
        }
        match read_line(draft.counts, piece) {
            Err(fault) => return Err(fault.at(line)),
            Ok(Line::Ending) => return finish(alloc, header.limits, draft, line + 1, after),
            Ok(said) => draft = draft.with_line(alloc, header.limits, said)?,
        }
        line += 1;
        rest = after;
    }
    Err(ScriptErr::BadLine { line })
}

/// Reads a script (`script_of` in `specs/Grammar.antt`). A text that is none is refused with its first line that no
/// script has there, numbered from 1, and the first of that line's faults; the only other error is want of memory, which
/// is also the answer to a text of 2^32 - 1 bytes or more, whose lines have no numbers of 32 bits.
pub fn parse(alloc: Global, bytes: &[u8]) -> Result<Script, ScriptErr>
    ensures read { (result ≡ Err ScriptErr.OutOfMemory) ⊎ (result ≡ script_of bytes.now) }
    ensures named { (script_of bytes.now ≡ Err ScriptErr.OutOfMemory) → ⊥ }
    ensures valid { IfOk result IsValidScript }
{
    if bytes.len() >= MOST_BYTES {
        return Err(ScriptErr::OutOfMemory);
    }
    let mut line = 1;
    let mut rest = bytes;
    while let Some((piece, after)) = split_line(rest) {
        if !is_blank(piece) {
            return match read_header(piece) {
                Some(header) => read_lines(alloc, header, after, line + 1),
                None => Err(ScriptErr::BadHeader),
            };
        }
        line += 1;
        rest = after;
    }
    Err(ScriptErr::BadHeader)
}
