// The variables and tickets of a session, in arrays of its own, so that a split and a join take no memory.
ghost use Rattle.std.specs.Prelude.{◌≡◌, ◌/◌, false, length};
ghost use Rattle.std.specs.Prelude.{slice_index_or};
ghost use Rattle.entry_base.specs.Views.{pick_from};

use entry_word::Pending;

// An array of the 128 variables of an image.
pub(crate) fn array_of_vars(vars: &[u32]) -> [u32; 128]
    requires { length vars.now ≡ 128 }
    ensures { result ≡ vars.now }
{
    let mut array = [0; 128];
    for i in 0..128usize {
        array[i] = vars[i];
    }
    array
}

pub(crate) fn array_of_pending(pending: &[Option<Pending>]) -> [Option<Pending>; 8]
    requires { length pending.now ≡ 8 }
    ensures { result ≡ pending.now }
{
    let mut array = [None; 8];
    for i in 0..8usize {
        array[i] = pending[i];
    }
    array
}

// Takes over the variables of the numbers of another session.
pub(crate) fn pick_vars(mine: &mut [u32; 128], theirs: &[u32; 128], numbers: &[bool; 13])
    ensures { mine.new ≡ pick_from (λ j. slice_index_or numbers.now (j / 16) false) 0 mine.old theirs.now }
{
    for i in 0..128usize {
        if numbers[i / 16] {
            mine[i] = theirs[i];
        }
    }
}

pub(crate) fn pick_pending(
    mine: &mut [Option<Pending>; 8],
    theirs: &[Option<Pending>; 8],
    numbers: &[bool; 13],
)
    ensures { mine.new ≡ pick_from (λ j. slice_index_or numbers.now j false) 0 mine.old theirs.now }
{
    for i in 0..8usize {
        if numbers[i] {
            mine[i] = theirs[i];
        }
    }
}

pub(crate) fn pick_numbers(mine: &mut [bool; 13], theirs: &[bool; 13])
    ensures { mine.new ≡ pick_from (λ j. slice_index_or theirs.now j false) 0 mine.old theirs.now }
{
    for i in 0..13usize {
        if theirs[i] {
            mine[i] = true;
        }
    }
}

pub(crate) fn copy_vars(from: &[u32; 128], to: &mut [u32])
    requires { length to.old ≡ 128 }
    ensures { to.new ≡ from.now }
{
    for i in 0..128usize {
        to[i] = from[i];
    }
}

pub(crate) fn copy_pending(from: &[Option<Pending>; 8], to: &mut [Option<Pending>])
    requires { length to.old ≡ 8 }
    ensures { to.new ≡ from.now }
{
    for i in 0..8usize {
        to[i] = from[i];
    }
}
