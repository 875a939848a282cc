//! A row of flags: which of its fragments pass the alpha test; and colours by such flags.
ghost use Rattle.std.specs.Prelude.{◌≡◌, ◌≤◌, length, if◌then◌else◌};
ghost use Rattle.draw_device.specs.Loops.{AreColumnsOfBoth, IsColorRun, IsFlagRun, alpha_passes};
ghost use Rattle.draw_device.specs.Pixels.{color_at, flag_at};

use fragment_ops::AlphaTest;
use rc_base::command::Rgba;

/// Flags the colours whose alpha passes.
#[inline(never)]
pub(crate) fn flag_passing(flags: &mut [bool], colors: &[Rgba], test: AlphaTest, from: u16, to: u16)
    requires { AreColumnsOfBoth (length flags.old) (length colors.now) from to }
    ensures { IsFlagRun (alpha_passes test colors.now) from to flags.old flags.new }
{
    for x in from..to {
        flags[x as usize] = test.passes(colors[x as usize].a);
    }
}

#[inline(always)]
fn chosen(flag: bool, one: Rgba, other: Rgba) -> Rgba
    ensures { result ≡ if flag then one else other }
{
    if flag { one } else { other }
}

/// The colours of another row where the flags are on.
#[inline(never)]
pub(crate) fn choose_colors(
    colors: &mut [Rgba],
    others: &[Rgba],
    flags: &[bool],
    from: u16,
    to: u16,
)
    requires columns { AreColumnsOfBoth (length colors.old) (length others.now) from to }
    requires flags { to ≤ length flags.now }
    ensures { IsColorRun (λ k old. if flag_at flags.now k then color_at others.now k else old)
        from to colors.old colors.new }
{
    for x in from..to {
        let place = x as usize;
        colors[place] = chosen(flags[place], others[place], colors[place]);
    }
}
