//! Arguments that have codes or names.
ghost use Rattle.std.specs.Prelude.{◌≡◌, ◌&&◌, nat_lt, true};
ghost use Rattle.rc_base.specs.Contexts.Faults.{is_name};

/// Whether an argument has one of so many codes.
pub fn is_code(argument: u8, count: u8) -> bool
    ensures { result ≡ (nat_lt argument count && true) }
{
    argument < count
}

/// Whether two arguments have each one of so many codes.
pub fn are_codes(first: u8, second: u8, count: u8) -> bool
    ensures { result ≡ (nat_lt first count && (nat_lt second count && true)) }
{
    first < count && second < count
}

/// Whether a name, or a number of texels, is one from 1 to `count`.
pub fn is_name(name: u64, count: u64) -> bool
    ensures { result ≡ is_name name count }
{
    0 < name && name <= count
}
