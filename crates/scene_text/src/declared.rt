//! The parts of a declaration from the numbers of their lines.
ghost use Rattle.std.specs.Prelude.{◌≡◌, ◌∷◌, [], pos, map};
ghost use Rattle.command_table.specs.Ranges.{AreIn};

use command_table::making::{byte_at, half_at};
use rc_base::command::NumberRange;

/// Version, width and height of a window.
pub(crate) fn window_of(numbers: &[i32]) -> (u8, u16, u16)
    requires { AreIn (NumberRange.Byte ∷ NumberRange.Half ∷ NumberRange.Half ∷ []) numbers.now }
    ensures { pos result.0 ∷ pos result.1 ∷ pos result.2 ∷ [] ≡ numbers.now }
{
    (
        byte_at(numbers, 0),
        half_at(numbers, 1),
        half_at(numbers, 2),
    )
}

/// Width and height of a shared texture.
pub(crate) fn size_of(numbers: &[i32]) -> [u16; 2]
    requires { AreIn (NumberRange.Half ∷ NumberRange.Half ∷ []) numbers.now }
    ensures { map pos result ≡ numbers.now }
{
    [half_at(numbers, 0), half_at(numbers, 1)]
}

/// How many meet at a barrier.
pub(crate) fn count_of(numbers: &[i32]) -> u8
    requires { AreIn (NumberRange.Byte ∷ []) numbers.now }
    ensures { pos result ∷ [] ≡ numbers.now }
{
    byte_at(numbers, 0)
}

/// The units of a semaphore.
pub(crate) fn units_of(numbers: &[i32]) -> u16
    requires { AreIn (NumberRange.Half ∷ []) numbers.now }
    ensures { pos result ∷ [] ≡ numbers.now }
{
    half_at(numbers, 0)
}
