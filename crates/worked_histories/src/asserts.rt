// The assertion of these tests, as a function: one proof of what `assert_eq!` prints in place of one at each place.
ghost use Rattle.std.specs.Prelude.{◌≡◌, true};

use std::fmt::Debug;
use std::process::Abort;

/// Ends the process with both values where `found` is not equal to `wanted`. A caller knows afterwards that it is.
pub(crate) fn assert_is<T: PartialEq + Debug + Drop>(rt: &impl Abort, found: T, wanted: T)
    ensures { T.eq found wanted ≡ true }
{
    assert_eq!(rt; found, wanted);
}
