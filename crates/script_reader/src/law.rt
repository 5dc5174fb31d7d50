// What printing and reading have to do with each other, and the script of version 2 that says what another says.
ghost use Rattle.std.specs.Prelude.{◌≡◌};
ghost use Rattle.script_reader.specs.Law.{PrintedIsReadBack, UpgradedIsValid, upgraded};

use plain_table::Script;

/// A law with no code: the canonical text of a valid script spells that script (`PrintedIsReadBack` of
/// `specs/Law.antt`). So `parse` gives back what `print` was given.
pub fn printed_is_read_back()
    ensures { PrintedIsReadBack }
{}

/// A law with no code: the script of version 2 with the limits and phases of a valid script is valid
/// (`UpgradedIsValid` of `specs/Law.antt`). So `print` may be called on it.
pub fn upgraded_is_valid()
    ensures { UpgradedIsValid }
{}

/// The script of version 2 with the same limits and phases (`upgraded` of `specs/Law.antt`).
pub fn upgrade(script: Script) -> Script
    ensures { result ≡ upgraded script }
{
    Script {
        version: 2,
        ..script
    }
}
