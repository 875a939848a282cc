//! Commands made of their parts, and the parts of commands.
ghost use Rattle.std.specs.Prelude.{◌≡◌, [], false};
ghost use Rattle.rc_base.specs.Formats.Commands.{ranges_of, has_picture};
ghost use Rattle.command_table.specs.Ranges.{AreIn};

use command_table::{
    command_of, has_picture, name_of, opcode_byte, opcode_from, opcode_named, opcode_of, parts_of,
    picture_area, ranges_of,
};
use rc_base::command::{Command, NumberRange, Opcode, Texels};
use rc_base::out_of_memory::OutOfMemory;
use std::alloc::Global;

// Whether the command of these parts has this opcode and these parts again.
fn comes_back(
    alloc: Global,
    opcode: Opcode,
    numbers: &[i32],
    texels: &[u8],
) -> Result<bool, OutOfMemory>
    requires numbers { AreIn (ranges_of opcode) numbers.now }
    requires texels { has_picture opcode ≡ false → texels.now ≡ [] }
{
    let command = command_of(opcode, numbers, Texels::from_slice(alloc, texels)?);
    let mut room = [0; 16];
    let (found, found_texels) = parts_of(&command, &mut room);
    Ok(opcode_of(&command) == opcode && found == numbers && found_texels == texels)
}

#[test]
fn commands_have_the_parts_that_they_are_made_of(rt: HostRuntime) {
    let alloc = rt.alloc();
    assert!(rt; comes_back(alloc, Opcode::Swap, &[], &[]).expect(&rt, "memory"));
    assert!(rt; comes_back(alloc, Opcode::Viewport, &[-1, 2, 640, 480], &[]).expect(&rt, "memory"));
    assert!(rt; comes_back(alloc, Opcode::ColorMask, &[0, 1, 2, 255], &[]).expect(&rt, "memory"));
    assert!(rt; comes_back(alloc, Opcode::ClearDepth, &[-2147483648], &[]).expect(&rt, "memory"));
    assert!(rt;
        comes_back(
            alloc,
            Opcode::TexImage,
            &[255, 1, 2],
            &[1, 2, 3, 4, 5, 6, 7, 8]
        )
        .expect(&rt, "memory")
    );
    assert!(rt;
        comes_back(alloc, Opcode::TexPart, &[1, 65535, 3, 1, 1], &[1, 2, 3, 4]).expect(
            &rt, "memory"
        )
    );
    assert!(rt;
        comes_back(
            alloc,
            Opcode::MultMatrix,
            &[1, -2, 3, 4, 5, 6, 7, 8, 9, 10, 11, 12, 13, 14, 15, 16],
            &[],
        )
        .expect(&rt, "memory")
    );
}

#[test]
fn a_viewport_is_x_y_width_and_height(rt: HostRuntime) {
    let made = command_of(Opcode::Viewport, &[1, 2, 3, 4], Texels::new(rt.alloc()));
    assert!(rt; made == Command::Viewport { area: [1, 2, 3, 4] });
}

#[test]
fn rows_have_their_ranges(rt: HostRuntime) {
    assert!(rt; ranges_of(Opcode::End).is_empty());
    assert!(rt;
        ranges_of(Opcode::TexImage)
            == [NumberRange::Byte, NumberRange::Half, NumberRange::Half].as_slice()
    );
    assert!(rt; ranges_of(Opcode::LoadMatrix).len() == 16);
    assert!(rt; picture_area(&[1, 7, 3]) == 21 && picture_area(&[0, 9]) == 0);
    assert!(rt; has_picture(Opcode::SharedImage) && !has_picture(Opcode::BindTexture));
}

#[test]
fn opcodes_have_their_bytes_and_names(rt: HostRuntime) {
    assert!(rt; opcode_of(&Command::Swap) == Opcode::Swap && opcode_byte(Opcode::Swap) == 0x24);
    assert!(rt;
        opcode_from(0x01) == Some(Opcode::Begin) && opcode_from(0x24) == Some(Opcode::Swap)
    );
    assert!(rt; opcode_from(0) == None && opcode_from(0x25) == None && opcode_from(255) == None);
    assert!(rt; name_of(Opcode::SemP) == b"SemP".as_slice());
    assert!(rt; opcode_named(b"ClearColor") == Some(Opcode::ClearColor));
    assert!(rt; opcode_named(b"clearcolor") == None && opcode_named(b"") == None);
}
