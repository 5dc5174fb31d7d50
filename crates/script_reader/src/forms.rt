// The forms of operations, and the reading of their places. Each function computes the definition of
// `specs/Forms.antt` that its contract names.
ghost use Rattle.std.specs.Prelude.{◌≡◌, ◌<◌, ℕ, [], IfOk, IfSome, OnErr, OnOk};
ghost use Rattle.std.specs.Option.{option_map_or};
ghost use Rattle.script_reader.specs.Spelling.{small_of, words};
ghost use Rattle.script_reader.specs.Valid.{IsTarget, IsValidOp};
ghost use Rattle.script_reader.specs.Reading.{IsSaid};
ghost use Rattle.script_reader.specs.Forms.{first_of, form_of, mapped, nothing_said, number_below, op_of, places_of, read_at, read_mutator, read_on, read_places, target_of};

use crate::refusals::Fault;
use crate::words::{index_word, next_word, range, small, tag, value, variable};
use plain_table::Op;

/// The form of an operation, by its name.
#[derive(Clone, Copy, Debug, PartialEq, Eq)]
pub enum Form {
    New,
    Drop,
    Link,
    Fetch,
    SetG,
    GetG,
    Init,
    Load,
    Store,
    Swap,
    Name,
    Forge,
    Raw,
    RawSet,
    TNew,
    TPub,
    TLoad,
    TRaw,
    Share,
}

/// What stands at a place of a form.
#[derive(Clone, Copy, Debug, PartialEq, Eq)]
pub enum Place {
    Variable,
    /// A form's second variable.
    Other,
    /// A variable, or `-` for none.
    Target,
    /// A small number below 4.
    Reference,
    /// A small number below 2.
    Field,
    /// A small number below 16.
    Global,
    Tag,
    /// A range of tags.
    Range,
    Word,
    Value,
}

/// What the places of a line say. A place that the form lacks is left as it was.
#[derive(Clone, Copy, Debug, PartialEq, Eq)]
pub struct Said {
    pub mutator: u32,
    pub variable: u32,
    pub other: u32,
    pub target: Option<u32>,
    pub reference: u32,
    pub field: u32,
    pub global: u32,
    pub tag: u8,
    pub first: u8,
    pub last: u8,
    pub word: u32,
    pub value: u64,
}

/// The form with this name (`form_of`).
pub fn form_named(name: &[u8]) -> Option<Form>
    ensures { result ≡ form_of name.now }
{
    if name == b"new".as_slice() {
        Some(Form::New)
    } else if name == b"drop".as_slice() {
        Some(Form::Drop)
    } else if name == b"link".as_slice() {
        Some(Form::Link)
    } else if name == b"fetch".as_slice() {
        Some(Form::Fetch)
    } else if name == b"setg".as_slice() {
        Some(Form::SetG)
    } else if name == b"getg".as_slice() {
        Some(Form::GetG)
    } else if name == b"init".as_slice() {
        Some(Form::Init)
    } else if name == b"load".as_slice() {
        Some(Form::Load)
    } else if name == b"store".as_slice() {
        Some(Form::Store)
    } else if name == b"swap".as_slice() {
        Some(Form::Swap)
    } else if name == b"name".as_slice() {
        Some(Form::Name)
    } else if name == b"forge".as_slice() {
        Some(Form::Forge)
    } else if name == b"raw".as_slice() {
        Some(Form::Raw)
    } else if name == b"rawset".as_slice() {
        Some(Form::RawSet)
    } else if name == b"tnew".as_slice() {
        Some(Form::TNew)
    } else if name == b"tpub".as_slice() {
        Some(Form::TPub)
    } else if name == b"tload".as_slice() {
        Some(Form::TLoad)
    } else if name == b"traw".as_slice() {
        Some(Form::TRaw)
    } else if name == b"share".as_slice() {
        Some(Form::Share)
    } else {
        None
    }
}

/// The places of a form, in order (`places_of`).
fn places(form: Form) -> &'static [Place]
    ensures { result.now ≡ places_of form }
{
    match form {
        Form::New | Form::Drop | Form::TPub => &[Place::Variable],
        Form::Link => &[Place::Variable, Place::Reference, Place::Target],
        Form::Fetch => &[Place::Variable, Place::Other, Place::Reference],
        Form::SetG => &[Place::Global, Place::Target],
        Form::GetG => &[Place::Variable, Place::Global],
        Form::Init => &[Place::Variable, Place::Field, Place::Tag, Place::Value],
        Form::Load => &[Place::Variable, Place::Field, Place::Range],
        Form::Store | Form::Swap => &[Place::Variable, Place::Field, Place::Range, Place::Value],
        Form::Name => &[Place::Variable, Place::Field],
        Form::Forge => &[Place::Variable, Place::Field, Place::Word],
        Form::Raw | Form::TRaw => &[Place::Word, Place::Range],
        Form::RawSet => &[Place::Word, Place::Range, Place::Value],
        Form::TNew => &[Place::Variable, Place::Tag, Place::Value],
        Form::TLoad => &[Place::Variable, Place::Range],
        Form::Share => &[Place::Variable, Place::Other],
    }
}

/// The operation of a form whose places say this (`op_of`).
pub fn operation(version: u32, form: Form, said: Said) -> Op
    requires { IsSaid version said }
    ensures value { result ≡ op_of form said }
    ensures valid { IsValidOp version result }
{
    let var = said.variable;
    let Said {
        other,
        target,
        field: f,
        global: g,
        reference: k,
        tag,
        first,
        last,
        word,
        value,
        ..
    } = said;
    match form {
        Form::New => Op::New { var },
        Form::Drop => Op::Drop { var },
        Form::Link => Op::Link { var, k, target },
        Form::Fetch => Op::Fetch {
            into: var,
            var: other,
            k,
        },
        Form::SetG => Op::SetG { g, target },
        Form::GetG => Op::GetG { into: var, g },
        Form::Init => Op::Init { var, f, tag, value },
        Form::Load => Op::Load {
            var,
            f,
            first,
            last,
        },
        Form::Store => Op::Store {
            var,
            f,
            first,
            last,
            value,
        },
        Form::Swap => Op::Swap {
            var,
            f,
            first,
            last,
            value,
        },
        Form::Name => Op::Name { var, f },
        Form::Forge => Op::Forge { var, f, word },
        Form::Raw => Op::Raw { word, first, last },
        Form::RawSet => Op::RawSet {
            word,
            first,
            last,
            value,
        },
        Form::TNew => Op::TNew { var, tag, value },
        Form::TPub => Op::TPub { var },
        Form::TLoad => Op::TLoad { var, first, last },
        Form::TRaw => Op::TRaw { word, first, last },
        Form::Share => Op::Share {
            from: var,
            to: other,
        },
    }
}

/// Before any place is read (`nothing_said`).
fn nothing() -> Said
    ensures value { result ≡ nothing_said }
    ensures valid { (version : ℕ) → IsSaid version result }
{
    Said {
        mutator: 0,
        variable: 0,
        other: 0,
        target: None,
        reference: 0,
        field: 0,
        global: 0,
        tag: 15,
        first: 15,
        last: 15,
        word: 0,
        value: 0,
    }
}

/// A target (`target_of`): a variable, or `-` for none.
fn target(word: &[u8]) -> Option<Option<u32>>
    ensures value { result ≡ target_of word.now }
    ensures valid { IfSome result IsTarget }
{
    match word {
        b"-" => Some(None),
        _ => Some(Some(variable(word)?)),
    }
}

/// A small number below a bound.
fn ranged_number(bound: u32, word: &[u8]) -> Result<u32, Fault>
    ensures value { result ≡ number_below bound (small_of word.now) }
    ensures below { IfOk result (λ n. n < bound) }
{
    let number = small(word).ok_or(Fault::BadNumber)?;
    if number < u64::from(bound) {
        Ok(number as u32)
    } else {
        Err(Fault::OutOfRange)
    }
}

/// Reads a word at a place, besides what the other places say (`read_at`). On a fault nothing changes.
fn read_at(version: u32, place: Place, word: &[u8], said: &mut Said) -> Result<(), Fault>
    requires { IsSaid version said.old }
    ensures value { mapped (λ _. said.new) result ≡ read_at version place word.now said.old }
    ensures kept { OnErr result (said.new ≡ said.old) }
    ensures valid { IsSaid version said.new }
    ensures same { said.new.mutator ≡ said.old.mutator }
{
    match place {
        Place::Variable => said.variable = variable(word).ok_or(Fault::BadLine)?,
        Place::Other => said.other = variable(word).ok_or(Fault::BadLine)?,
        Place::Target => said.target = target(word).ok_or(Fault::BadLine)?,
        Place::Reference => said.reference = ranged_number(4, word)?,
        Place::Field => said.field = ranged_number(2, word)?,
        Place::Global => said.global = ranged_number(16, word)?,
        Place::Tag => said.tag = tag(version, word).ok_or(Fault::BadTag)?.byte(),
        Place::Range => read_range(version, word, said)?,
        Place::Word => said.word = index_word(word).ok_or(Fault::BadNumber)?,
        Place::Value => said.value = value(word).ok_or(Fault::BadNumber)?,
    }
    Ok(())
}

/// Reads a word at the place of a range (`read_at`). On a fault nothing changes.
fn read_range(version: u32, word: &[u8], said: &mut Said) -> Result<(), Fault>
    requires { IsSaid version said.old }
    ensures value { mapped (λ _. said.new) result ≡ read_at version Place.Range word.now said.old }
    ensures kept { OnErr result (said.new ≡ said.old) }
    ensures valid { IsSaid version said.new }
    ensures same { said.new.mutator ≡ said.old.mutator }
{
    let range = range(version, word).ok_or(Fault::BadTag)?;
    said.first = range.first().byte();
    said.last = range.last().byte();
    Ok(())
}

/// Of a place's fault and the one of the places after it, where they have one, the one that is tested first
/// (`first_of`).
fn first_fault(fault: Fault, onward: Result<(), Fault>) -> Fault
    ensures { (said : Said) → result ≡ first_of fault (mapped (λ _. said) onward) }
{
    match onward {
        Ok(()) => fault,
        Err(other) => {
            if fault.order() <= other.order() {
                fault
            } else {
                other
            }
        }
    }
}

/// Reads the words of a line at these places (`read_places`). On a fault some may have been read.
fn read_all(
    version: u32,
    places: &[Place],
    rest: Option<&[u8]>,
    said: &mut Said,
) -> Result<(), Fault>
    requires { IsSaid version said.old }
    ensures value { mapped (λ _. said.new) result
        ≡ read_places version places.now (option_map_or (λ r. words r.now) rest.entry []) said.old }
    ensures valid { IsSaid version said.new }
    ensures same { said.new.mutator ≡ said.old.mutator }
{
    match places {
        [] => match rest {
            None => Ok(()),
            Some(_) => Err(Fault::BadLine),
        },
        [place, more @ ..] => {
            let Some(text) = rest else {
                return Err(Fault::BadLine);
            };
            let (word, onward) = next_word(text);
            match read_at(version, *place, word, said) {
                Ok(()) => read_all(version, more, onward, said),
                Err(fault) => Err(first_fault(fault, read_all(version, more, onward, said))),
            }
        }
    }
}

/// Reads the number of a mutator below `mutators` (`read_mutator`). On a fault nothing changes.
fn read_number(version: u32, mutators: u32, word: &[u8], said: &mut Said) -> Result<(), Fault>
    requires { IsSaid version said.old }
    ensures value { mapped (λ _. said.new) result ≡ read_mutator mutators word.now said.old }
    ensures kept { OnErr result (said.new ≡ said.old) }
    ensures valid { IsSaid version said.new }
    ensures below { OnOk result (said.new.mutator < mutators) }
{
    said.mutator = ranged_number(mutators, word)?;
    Ok(())
}

/// Reads the mutator's number and the places of a form in one.
pub fn read_said(
    version: u32,
    mutators: u32,
    mutator: &[u8],
    form: Form,
    rest: Option<&[u8]>,
) -> Result<Said, Fault>
    ensures value { result ≡ read_on (read_mutator mutators mutator.now nothing_said) nothing_said
        (read_places version (places_of form) (option_map_or (λ r. words r.now) rest.entry [])) }
    ensures valid { IfOk result (λ s. IsSaid version s × (s.mutator < mutators)) }
{
    let mut said = nothing();
    match read_number(version, mutators, mutator, &mut said) {
        Ok(()) => {
            read_all(version, places(form), rest, &mut said)?;
            Ok(said)
        }
        Err(fault) => Err(first_fault(fault, read_all(version, places(form), rest, &mut said))),
    }
}
