//! The nine groups of elements: five of scalar elements, and four of sixteen images each.
ghost use Rattle.std.specs.Prelude.{◌≡◌, ◌<◌, ◌≤◌, length};
ghost use Rattle.rc_base.specs.Contexts.Elements.{element_count, group_sizes, scalar_count};
ghost use Rattle.element_table.specs.Groups.{IsGroupOf, group_start};

use crate::kind::{ELEMENT_COUNT, SCALAR_COUNT};

fn scalar_group(element: u8) -> u8
    requires { element < scalar_count }
    ensures { IsGroupOf element result }
{
    match element {
        0..4 => 0,
        4..9 => 1,
        9..14 => 2,
        14..19 => 3,
        _ => 4,
    }
}

fn image_group(element: u8) -> u8
    requires low { scalar_count ≤ element }
    requires high { element < element_count }
    ensures { IsGroupOf element result }
{
    match element - SCALAR_COUNT {
        0..16 => 5,
        16..32 => 6,
        32..48 => 7,
        _ => 8,
    }
}

/// The group, from 0, in which an element stands.
pub fn group_of(element: u8) -> u8
    requires { element < element_count }
    ensures { IsGroupOf element result }
{
    if element < SCALAR_COUNT {
        scalar_group(element)
    } else {
        image_group(element)
    }
}

/// The first element of a group. Behind the last group stands the count of all elements, so a group ends where the next one starts.
pub fn group_start(group: u8) -> u8
    requires { group ≤ length group_sizes }
    ensures start { result ≡ group_start group }
    ensures within { result ≤ element_count }
{
    match group {
        0 => 0,
        1 => 4,
        2 => 9,
        3 => 14,
        4 => 19,
        5 => SCALAR_COUNT,
        6 => SCALAR_COUNT + 16,
        7 => SCALAR_COUNT + 32,
        8 => SCALAR_COUNT + 48,
        _ => ELEMENT_COUNT,
    }
}
