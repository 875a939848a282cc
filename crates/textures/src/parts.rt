//! Writing a part of a picture.
ghost use Rattle.std.specs.Prelude.{◌≡◌, ◌≤◌, ◌+◌, ◌*◌, ◌++◌, length, take, drop};
ghost use Rattle.rc_base.specs.Pictures.{with_part};
ghost use Rattle.textures.specs.Images.{Fits, picture_with, part};

// Writes bytes over those from place `at` on.
fn write_at(bytes: &mut [u8], at: usize, new: &[u8])
    requires { at + length new.now ≤ length bytes.old }
    ensures { bytes.new ≡ take at bytes.old ++ new.now ++ drop (at + length new.now) bytes.old }
{
    bytes[at..at + new.len()].copy_from_slice(new);
}

// Row `row` of the texels of a picture that is `wide` texels wide.
fn row_of_texels(texels: &[u8], wide: usize, row: usize) -> &[u8]
    requires { 4 * (row * wide) + 4 * wide ≤ length texels.now }
    ensures { result.now ≡ take (4 * wide) (drop (4 * (row * wide)) texels.now) }
{
    let from = 4 * (row * wide);
    &texels[from..from + 4 * wide]
}

// Writes a part of the texels of a picture of these sides, row by row.
pub fn write_part(bytes: &mut [u8], sides: [u16; 2], x: u16, y: u16, w: u16, h: u16, texels: &[u8])
    requires fits { Fits (picture_with sides bytes.old) (part 0 x y w h texels.now) }
    ensures { let whole = with_part (picture_with sides bytes.old) (part 0 x y w h texels.now) in
        bytes.new ≡ whole.texels }
{
    let wide = usize::from(sides[0]);
    for row in 0..usize::from(h) {
        let at = 4 * ((usize::from(y) + row) * wide + usize::from(x));
        write_at(bytes, at, row_of_texels(texels, usize::from(w), row));
    }
}
