// The canonical text of a script, appended to one `String` piece by piece. What stands where is defined in
// `specs/Canonical.antt`; each word of an operation stands after a space.
ghost use Rattle.std.specs.Prelude.{◌≡◌, ℕ, ◌++◌, ◌<◌, [], ◌∷◌, codes, IfOk, OnOk, string_bytes};
ghost use Rattle.std.specs.List.{All, flat_map};
ghost use Rattle.std.specs.Fmt.{decimal};
ghost use Rattle.script_reader.specs.Canonical.{canonical_of, header_text, hex, index_word, letter, lists_text, meet_text, op_line, op_words, ops_text, phase_text, policy_word, range_word, spaced, tag_word, target_word, value_word};
ghost use Rattle.script_reader.specs.Valid.{IsTarget, IsValidOp, IsValidPhase, IsValidScript, IsVariable};

use crate::digits::push_hex;
use crate::refusals::OutOfMemory;
use plain_table::{Limits, Meet, Op, Phase, Policy, Script};
use sqlite_items::Items;
use std::alloc::{AllocError, Global};

/// The canonical text of a valid script (`canonical_of` in `specs/Canonical.antt`): the header, the operations of each
/// phase, those of mutator 0 first, and the meet that ends it. The only error is want of memory.
pub fn print(alloc: Global, script: &Script) -> Result<String, OutOfMemory>
    requires { IsValidScript script.now }
    ensures { IfOk result (λ text. string_bytes text ≡ canonical_of script.now) }
{
    let mut text = String::new(alloc);
    push_header(&mut text, script.version, script.limits)?;
    push_phases(&mut text, script.phases.as_slice())?;
    Ok(text)
}

// The header.
fn push_header(text: &mut String, version: u32, limits: Limits) -> Result<(), AllocError>
    ensures { OnOk result (string_bytes text.new ≡ string_bytes text.old ++ header_text version limits) }
{
    let Limits {
        seg,
        ext,
        tru,
        objects,
        mutators,
        markers,
    } = limits;
    write!(
        text,
        "ept {version} seg={seg} ext={ext} tru={tru} objects={objects} mutators={mutators} markers={markers}\n"
    )
}

// The phases, each with its operations and then its meet.
fn push_phases(text: &mut String, phases: &[Phase]) -> Result<(), AllocError>
    requires { (version mutators : ℕ) × All (IsValidPhase version mutators) phases.now }
    ensures { OnOk result (string_bytes text.new ≡ string_bytes text.old ++ flat_map phase_text phases.now) }
{
    for phase in phases {
        push_lists(text, phase.calls.as_slice())?;
        push_meet(text, phase.meet)?;
    }
    Ok(())
}

// The operations of each mutator, those of mutator 0 first.
fn push_lists(text: &mut String, lists: &[Items<Op>]) -> Result<(), AllocError>
    requires { (version : ℕ) × All (All (IsValidOp version)) lists.now }
    ensures { OnOk result (string_bytes text.new ≡ string_bytes text.old ++ lists_text 0 lists.now) }
{
    for (mutator, ops) in lists.iter().enumerate() {
        push_ops(text, mutator, ops.as_slice())?;
    }
    Ok(())
}

fn push_ops(text: &mut String, mutator: usize, ops: &[Op]) -> Result<(), AllocError>
    requires { (version : ℕ) × All (IsValidOp version) ops.now }
    ensures { OnOk result (string_bytes text.new ≡ string_bytes text.old ++ ops_text mutator ops.now) }
{
    for op in ops {
        push_line(text, mutator, *op)?;
    }
    Ok(())
}

fn push_line(text: &mut String, mutator: usize, op: Op) -> Result<(), AllocError>
    requires { (version : ℕ) × IsValidOp version op }
    ensures { OnOk result (string_bytes text.new ≡ string_bytes text.old ++ op_line mutator op) }
{
    write!(text, "m{mutator}")?;
    push_op(text, op)?;
    text.push_str("\n")
}

fn push_op(text: &mut String, op: Op) -> Result<(), AllocError>
    requires { (version : ℕ) × IsValidOp version op }
    ensures { OnOk result (string_bytes text.new ≡ string_bytes text.old ++ spaced (op_words op)) }
{
    match op {
        Op::New { var } => push_variable(text, "new", var),
        Op::Drop { var } => push_variable(text, "drop", var),
        Op::Link { var, k, target } => push_link(text, var, k, target),
        Op::Fetch { into, var, k } => push_fetch(text, into, var, k),
        Op::SetG { g, target } => push_set_global(text, g, target),
        Op::GetG { into, g } => push_field(text, "getg", into, g),
        Op::Init { var, f, tag, value } => push_init(text, var, f, tag, value),
        Op::Load {
            var,
            f,
            first,
            last,
        } => push_load(text, var, f, first, last),
        Op::Store {
            var,
            f,
            first,
            last,
            value,
        } => push_access(text, "store", var, f, first, last, value),
        Op::Swap {
            var,
            f,
            first,
            last,
            value,
        } => push_access(text, "swap", var, f, first, last, value),
        Op::Name { var, f } => push_field(text, "name", var, f),
        Op::Forge { var, f, word } => push_forge(text, var, f, word),
        Op::Raw { word, first, last } => push_raw(text, "raw", word, first, last),
        Op::RawSet {
            word,
            first,
            last,
            value,
        } => push_raw_set(text, word, first, last, value),
        Op::TNew { var, tag, value } => push_trusted(text, var, tag, value),
        Op::TPub { var } => push_variable(text, "tpub", var),
        Op::TLoad { var, first, last } => push_trusted_load(text, var, first, last),
        Op::TRaw { word, first, last } => push_raw(text, "traw", word, first, last),
        Op::Share { from, to } => push_share(text, from, to),
    }
}

fn push_variable(text: &mut String, name: &str, var: u32) -> Result<(), AllocError>
    requires { IsVariable var }
    ensures { OnOk result (string_bytes text.new ≡ string_bytes text.old ++ spaced (name.now ∷ letter var ∷ [])) }
{
    push_name(text, name)?;
    push_letter(text, var)
}

fn push_link(text: &mut String, var: u32, k: u32, target: Option<u32>) -> Result<(), AllocError>
    requires variable { IsVariable var }
    requires target { IsTarget target }
    ensures { OnOk result (string_bytes text.new ≡ string_bytes text.old
        ++ spaced (codes "link" ∷ letter var ∷ decimal k ∷ target_word target ∷ [])) }
{
    push_field(text, "link", var, k)?;
    push_target(text, target)
}

fn push_fetch(text: &mut String, into: u32, var: u32, k: u32) -> Result<(), AllocError>
    requires into { IsVariable into }
    requires variable { IsVariable var }
    ensures { OnOk result (string_bytes text.new ≡ string_bytes text.old
        ++ spaced (codes "fetch" ∷ letter into ∷ letter var ∷ decimal k ∷ [])) }
{
    push_variable(text, "fetch", into)?;
    push_letter(text, var)?;
    push_small(text, k)
}

fn push_set_global(text: &mut String, g: u32, target: Option<u32>) -> Result<(), AllocError>
    requires { IsTarget target }
    ensures { OnOk result (string_bytes text.new ≡ string_bytes text.old
        ++ spaced (codes "setg" ∷ decimal g ∷ target_word target ∷ [])) }
{
    push_name(text, "setg")?;
    push_small(text, g)?;
    push_target(text, target)
}

fn push_field(text: &mut String, name: &str, var: u32, number: u32) -> Result<(), AllocError>
    requires { IsVariable var }
    ensures { OnOk result (string_bytes text.new ≡ string_bytes text.old
        ++ spaced (name.now ∷ letter var ∷ decimal number ∷ [])) }
{
    push_variable(text, name, var)?;
    push_small(text, number)
}

fn push_init(text: &mut String, var: u32, f: u32, tag: u8, value: u64) -> Result<(), AllocError>
    requires { IsVariable var }
    ensures { OnOk result (string_bytes text.new ≡ string_bytes text.old
        ++ spaced (codes "init" ∷ letter var ∷ decimal f ∷ tag_word tag ∷ value_word value ∷ [])) }
{
    push_field(text, "init", var, f)?;
    push_digits(text, 2, u64::from(tag))?;
    push_digits(text, 12, value)
}

fn push_access(
    text: &mut String,
    name: &str,
    var: u32,
    f: u32,
    first: u8,
    last: u8,
    value: u64,
) -> Result<(), AllocError>
    requires { IsVariable var }
    ensures { OnOk result (string_bytes text.new ≡ string_bytes text.old
        ++ spaced (name.now ∷ letter var ∷ decimal f ∷ range_word first last ∷ value_word value ∷ [])) }
{
    push_field(text, name, var, f)?;
    push_range(text, first, last)?;
    push_digits(text, 12, value)
}

fn push_load(text: &mut String, var: u32, f: u32, first: u8, last: u8) -> Result<(), AllocError>
    requires { IsVariable var }
    ensures { OnOk result (string_bytes text.new ≡ string_bytes text.old
        ++ spaced (codes "load" ∷ letter var ∷ decimal f ∷ range_word first last ∷ [])) }
{
    push_field(text, "load", var, f)?;
    push_range(text, first, last)
}

fn push_forge(text: &mut String, var: u32, f: u32, word: u32) -> Result<(), AllocError>
    requires { IsVariable var }
    ensures { OnOk result (string_bytes text.new ≡ string_bytes text.old
        ++ spaced (codes "forge" ∷ letter var ∷ decimal f ∷ index_word word ∷ [])) }
{
    push_field(text, "forge", var, f)?;
    push_digits(text, 8, u64::from(word))
}

fn push_raw(text: &mut String, name: &str, word: u32, first: u8, last: u8) -> Result<(), AllocError>
    ensures { OnOk result (string_bytes text.new ≡ string_bytes text.old
        ++ spaced (name.now ∷ index_word word ∷ range_word first last ∷ [])) }
{
    push_name(text, name)?;
    push_digits(text, 8, u64::from(word))?;
    push_range(text, first, last)
}

fn push_raw_set(
    text: &mut String,
    word: u32,
    first: u8,
    last: u8,
    value: u64,
) -> Result<(), AllocError>
    ensures { OnOk result (string_bytes text.new ≡ string_bytes text.old
        ++ spaced (codes "rawset" ∷ index_word word ∷ range_word first last ∷ value_word value ∷ [])) }
{
    push_raw(text, "rawset", word, first, last)?;
    push_digits(text, 12, value)
}

fn push_trusted(text: &mut String, var: u32, tag: u8, value: u64) -> Result<(), AllocError>
    requires { IsVariable var }
    ensures { OnOk result (string_bytes text.new ≡ string_bytes text.old
        ++ spaced (codes "tnew" ∷ letter var ∷ tag_word tag ∷ value_word value ∷ [])) }
{
    push_variable(text, "tnew", var)?;
    push_digits(text, 2, u64::from(tag))?;
    push_digits(text, 12, value)
}

fn push_trusted_load(text: &mut String, var: u32, first: u8, last: u8) -> Result<(), AllocError>
    requires { IsVariable var }
    ensures { OnOk result (string_bytes text.new ≡ string_bytes text.old
        ++ spaced (codes "tload" ∷ letter var ∷ range_word first last ∷ [])) }
{
    push_variable(text, "tload", var)?;
    push_range(text, first, last)
}

fn push_share(text: &mut String, from: u32, to: u32) -> Result<(), AllocError>
    requires from { IsVariable from }
    requires to { IsVariable to }
    ensures { OnOk result (string_bytes text.new ≡ string_bytes text.old
        ++ spaced (codes "share" ∷ letter from ∷ letter to ∷ [])) }
{
    push_variable(text, "share", from)?;
    push_letter(text, to)
}

fn push_name(text: &mut String, name: &str) -> Result<(), AllocError>
    ensures { OnOk result (string_bytes text.new ≡ string_bytes text.old ++ 32 ∷ name.now) }
{
    text.push_str(" ")?;
    text.push_str(name)
}

fn push_letter(text: &mut String, var: u32) -> Result<(), AllocError>
    requires { IsVariable var }
    ensures { OnOk result (string_bytes text.new ≡ string_bytes text.old ++ 32 ∷ letter var) }
{
    text.push_str(" ")?;
    text.push(variable_letter(var))
}

fn variable_letter(var: u32) -> char
    requires { IsVariable var }
    ensures value { result ∷ [] ≡ letter var }
    ensures ascii { result < 128 }
{
    char::from(b'a' + var as u8)
}

fn push_target(text: &mut String, target: Option<u32>) -> Result<(), AllocError>
    requires { IsTarget target }
    ensures { OnOk result (string_bytes text.new ≡ string_bytes text.old ++ 32 ∷ target_word target) }
{
    match target {
        None => text.push_str(" -"),
        Some(var) => push_letter(text, var),
    }
}

fn push_small(text: &mut String, number: u32) -> Result<(), AllocError>
    ensures { OnOk result (string_bytes text.new ≡ string_bytes text.old ++ 32 ∷ decimal number) }
{
    write!(text, " {number}")
}

// A range of tags: its first, and where it has more than one, `-` and its last.
fn push_range(text: &mut String, first: u8, last: u8) -> Result<(), AllocError>
    ensures { OnOk result (string_bytes text.new ≡ string_bytes text.old ++ 32 ∷ range_word first last) }
{
    push_digits(text, 2, u64::from(first))?;
    if first == last {
        return Ok(());
    }
    text.push_str("-")?;
    push_hex(text, 2, u64::from(last))
}

fn push_digits(text: &mut String, digits: u8, number: u64) -> Result<(), AllocError>
    ensures { OnOk result (string_bytes text.new ≡ string_bytes text.old ++ 32 ∷ hex digits number) }
{
    text.push_str(" ")?;
    push_hex(text, digits, number)
}

fn push_meet(text: &mut String, meet: Meet) -> Result<(), AllocError>
    ensures { OnOk result (string_bytes text.new ≡ string_bytes text.old ++ meet_text meet) }
{
    match meet {
        Meet::Plain => text.push_str("meet\n"),
        Meet::Start { policy } => push_start(text, policy),
        Meet::Finish => text.push_str("finish\n"),
        Meet::End => text.push_str("end\n"),
    }
}

fn push_start(text: &mut String, policy: Policy) -> Result<(), AllocError>
    ensures { OnOk result (string_bytes text.new ≡ string_bytes text.old
        ++ (codes "start " ++ policy_word policy ++ codes "\n")) }
{
    text.push_str("start ")?;
    text.push_str(policy_name(policy))?;
    text.push_str("\n")
}

fn policy_name(policy: Policy) -> &'static str
    ensures { result.now ≡ policy_word policy }
{
    match policy {
        Policy::Auto => "auto",
        Policy::Always => "always",
        Policy::Never => "never",
    }
}
