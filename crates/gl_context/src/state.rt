//! What commands set of the scalar elements.
ghost use Rattle.std.specs.Prelude.{◌≡◌, map};
ghost use Rattle.rc_base.specs.Contexts.Issue.{held, is_on};

/// A number held to 0 to one.
pub fn held(z: i32) -> i32
    ensures { result ≡ held z }
{
    z.min(65_536).max(0)
}

/// A flag is on where it isn't 0.
pub fn flags_of(flags: &[u8; 4]) -> [bool; 4]
    ensures { result ≡ map is_on flags.now }
{
    let [r, g, b, a] = *flags;
    [r != 0, g != 0, b != 0, a != 0]
}
