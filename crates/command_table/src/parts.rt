//! The numbers and the texels of a command.
ghost use Rattle.std.specs.Prelude.{◌≡◌, ◌≤◌, ◌∷◌, [], pos, map, length, take, replicate, true};
ghost use Rattle.rc_base.specs.Formats.Commands.{is_in_range};
ghost use Rattle.command_table.specs.Ranges.{AreIn, AreNumbersOf, FrontHasPartsOf, color_numbers, color_ranges, image_ranges, part_numbers, part_ranges};
ghost use Rattle.command_table.specs.ByOpcode.{when_known};

use rc_base::command::{Command, NumberRange, Part, Rgba};

/// Room for the numbers of a command.
pub type Numbers = [i32; 16];

fn byte(number: u8) -> i32
    ensures value { result ≡ pos number }
    ensures in_range { is_in_range NumberRange.Byte (pos number) ≡ true }
{
    i32::from(number)
}

fn half(number: u16) -> i32
    ensures value { result ≡ pos number }
    ensures in_range { is_in_range NumberRange.Half (pos number) ≡ true }
{
    i32::from(number)
}

// Puts bytes to the front, as numbers, and tells how many they are.
fn put_bytes(room: &mut Numbers, bytes: &[u8]) -> usize
    requires { length bytes.now ≤ 16 }
    ensures count { result ≡ length bytes.now }
    ensures front { take result room.new ≡ map pos bytes.now }
    ensures in_range { AreIn (replicate (length bytes.now) NumberRange.Byte) (map pos bytes.now) }
{
    for i in 0..bytes.len() {
        room[i] = byte(bytes[i]);
    }
    bytes.len()
}

// Puts words to the front, and tells how many they are.
fn put_words(room: &mut Numbers, words: &[i32]) -> usize
    requires { length words.now ≤ 16 }
    ensures count { result ≡ length words.now }
    ensures front { take result room.new ≡ words.now }
    ensures in_range { AreIn (replicate (length words.now) NumberRange.Word) words.now }
{
    for i in 0..words.len() {
        room[i] = words[i];
    }
    words.len()
}

fn put_color(room: &mut Numbers, color: Rgba) -> usize
    ensures count { result ≡ 4 }
    ensures front { take 4 room.new ≡ color_numbers color }
    ensures in_range { AreIn color_ranges (color_numbers color) }
{
    put_bytes(room, &[color.r, color.g, color.b, color.a])
}

fn put_image(room: &mut Numbers, name: u8, w: u16, h: u16) -> usize
    ensures count { result ≡ 3 }
    ensures front { take 3 room.new ≡ pos name ∷ pos w ∷ pos h ∷ [] }
    ensures in_range { AreIn image_ranges (pos name ∷ pos w ∷ pos h ∷ []) }
{
    put_words(room, &[byte(name), half(w), half(h)])
}

fn put_part(room: &mut Numbers, part: &Part) -> usize
    ensures count { result ≡ 5 }
    ensures front { take 5 room.new ≡ part_numbers part.now }
    ensures in_range { AreIn part_ranges (part_numbers part.now) }
{
    let Part {
        name,
        x,
        y,
        w,
        h,
        ..
    } = part;
    put_words(room, &[byte(*name), half(*x), half(*y), half(*w), half(*h)])
}

// Puts the numbers of a command to the front of the room. Gives how many they are, and the texels.
#[tactic(auto, unfolding(crate::specs::ByOpcode::when_known))]
fn put_parts<'a>(command: &'a Command, room: &mut Numbers) -> (usize, &'a [u8])
    ensures { when_known (λ c. FrontHasPartsOf c room.new result.0 result.1.now) command.now }
{
    match command {
        Command::Begin { mode } => (put_bytes(room, &[*mode]), &[]),
        Command::End => (0, &[]),
        Command::Vertex { pos } => (put_words(room, pos), &[]),
        Command::Color(color) => (put_color(room, *color), &[]),
        Command::TexCoord { s, t } => (put_words(room, &[*s, *t]), &[]),
        Command::Enable { capability } => (put_bytes(room, &[*capability]), &[]),
        Command::Disable { capability } => (put_bytes(room, &[*capability]), &[]),
        Command::MatrixMode { mode } => (put_bytes(room, &[*mode]), &[]),
        Command::LoadIdentity => (0, &[]),
        Command::LoadMatrix(matrix) => (put_words(room, &matrix.m), &[]),
        Command::MultMatrix(matrix) => (put_words(room, &matrix.m), &[]),
        Command::PushMatrix => (0, &[]),
        Command::PopMatrix => (0, &[]),
        Command::Viewport { area } => (put_words(room, area), &[]),
        Command::DepthRange { near, far } => (put_words(room, &[*near, *far]), &[]),
        Command::Scissor { area } => (put_words(room, area), &[]),
        Command::AlphaFunc {
            function,
            reference,
        } => (put_bytes(room, &[*function, *reference]), &[]),
        Command::DepthFunc { function } => (put_bytes(room, &[*function]), &[]),
        Command::DepthMask { flag } => (put_bytes(room, &[*flag]), &[]),
        Command::BlendFunc {
            source,
            destination,
        } => (put_bytes(room, &[*source, *destination]), &[]),
        Command::ColorMask { flags } => (put_bytes(room, flags), &[]),
        Command::ClearColor(color) => (put_color(room, *color), &[]),
        Command::ClearDepth { depth } => (put_words(room, &[*depth]), &[]),
        Command::Clear { mask } => (put_bytes(room, &[*mask]), &[]),
        Command::CullFace { face } => (put_bytes(room, &[*face]), &[]),
        Command::FrontFace { direction } => (put_bytes(room, &[*direction]), &[]),
        Command::BindTexture { kind, name } => (put_bytes(room, &[*kind, *name]), &[]),
        Command::TexEnv { environment } => (put_bytes(room, &[*environment]), &[]),
        Command::TexWrap { s, t } => (put_bytes(room, &[*s, *t]), &[]),
        Command::TexImage { name, w, h, texels } => (
            put_image(room, *name, *w, *h),
            texels.as_slice(),
        ),
        Command::TexPart(part) => (put_part(room, part), part.texels.as_slice()),
        Command::SharedImage(part) => (put_part(room, part), part.texels.as_slice()),
        Command::Barrier { name } => (put_bytes(room, &[*name]), &[]),
        Command::SemP { name } => (put_bytes(room, &[*name]), &[]),
        Command::SemV { name } => (put_bytes(room, &[*name]), &[]),
        Command::Swap => (0, &[]),
    }
}

/// The numbers of a command, for which the room is used, and its texels, which a command without a picture has none of.
pub fn parts_of<'a, 'r>(command: &'a Command, room: &'r mut Numbers) -> (&'r [i32], &'a [u8])
    ensures { AreNumbersOf command.now result.0.now result.1.now }
{
    let (count, texels) = put_parts(command, room);
    (&room[..count], texels)
}
