// Where the words of a table stand, by the layout of `specs/Words.antt` of `plain_table`.
ghost use Rattle.std.specs.Prelude.{◌≡◌, ◌*◌, ◌<◌, ◌≤◌};
ghost use Rattle.plain_table.specs.declared.events.Field.TheVariants as field;
ghost use Rattle.plain_table.specs.Table.{limit_in};
ghost use Rattle.plain_table.specs.Words.{entry_place, field_place, freelist_place, global_place, header_place, reference_place};
ghost use Rattle.plain_table.specs.Shapes.{external_field};
ghost use Rattle.entry_word.specs.Image.{IsValidShape, sizes_of};

use entry_word::Shape;
use plain_table::Space;

/// The place of the object count.
pub(crate) const COUNT: usize = 3;
/// The place of the phase: 1 in a cycle, and else 0.
pub(crate) const PHASE: usize = 4;
/// The place of the area word.
pub(crate) const AREA: usize = 1;

/// The place of the freelist word of a space.
pub(crate) fn freelist_place(space: Space) -> usize
    ensures { result ≡ freelist_place space }
{
    match space {
        Space::External => 0,
        Space::Trusted => 2,
    }
}

/// How many indexes a space has.
pub(crate) fn limit(shape: Shape, space: Space) -> u32
    requires { IsValidShape shape }
    ensures count { result ≡ limit_in (sizes_of shape) space }
    ensures few { result ≤ 65536 }
{
    match space {
        Space::External => shape.seg * shape.ext,
        Space::Trusted => shape.seg * shape.tru,
    }
}

/// The place of entry 0 of a space.
pub(crate) fn first_entry(shape: Shape, space: Space) -> usize
    requires { IsValidShape shape }
    ensures { result ≡ entry_place (sizes_of shape) space 0 }
{
    let external = 32 + 8 * shape.objects as usize;
    match space {
        Space::External => external,
        Space::Trusted => external + (shape.seg * shape.ext) as usize,
    }
}

/// The place of a global.
pub(crate) fn global_place(g: u32) -> usize
    requires { g < 16 }
    ensures { result ≡ global_place g }
{
    16 + g as usize
}

/// The place of an object's header.
pub(crate) fn header_place(object: u32) -> usize
    requires { object < 16384 }
    ensures { result ≡ header_place object }
{
    32 + 8 * object as usize
}

/// The place of reference `k` of an object.
pub(crate) fn reference_place(object: u32, k: u32) -> usize
    requires { (object < 16384) × (k < 4) }
    ensures { result ≡ reference_place object k }
{
    33 + 8 * object as usize + k as usize
}

/// The place of external field `f` of an object.
pub(crate) fn external_place(object: u32, f: u32) -> usize
    requires { (object < 16384) × (f < 2) }
    ensures { result ≡ field_place (external_field object f) }
{
    37 + 8 * object as usize + f as usize
}

/// The place of the trusted field of an object.
pub(crate) fn trusted_place(object: u32) -> usize
    requires { object < 16384 }
    ensures { result ≡ field_place (field.Trusted object) }
{
    39 + 8 * object as usize
}
