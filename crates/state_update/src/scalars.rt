//! The scalar elements of a state, by their numbers.
ghost use Rattle.std.specs.Prelude.{◌≡◌, ◌<◌, ◌++◌, OnOk, IsOk, []};
ghost use Rattle.rc_base.specs.Contexts.Elements.{scalar_count};
ghost use Rattle.state_update.specs.Knowledge.{scalar_set};

use element_table::{is_same, value_of};
use rc_base::out_of_memory::OutOfMemory;
use rc_base::state::{ElementSet, Sets, State};

/// Adds a scalar element where the states differ in it, with its value now.
pub fn add_scalar(
    sets: &mut Sets,
    told: &State,
    now: &State,
    element: u8,
) -> Result<(), OutOfMemory>
    requires { element < scalar_count }
    ensures added { OnOk result (sets.new ≡ sets.old ++ scalar_set told.now now.now element) }
    ensures quiet { scalar_set told.now now.now element ≡ [] → IsOk result }
{
    if is_same(told, now, element) {
        return Ok(());
    }
    let value = value_of(now, element);
    sets.push(ElementSet { element, value })?;
    Ok(())
}
