//! Numbers and bytes as they are printed.
ghost use Rattle.std.specs.Prelude.{◌≡◌, ◌+◌, ◌<◌, List, [], ◌∷◌, ◌++◌, map, OnOk};
ghost use Rattle.std.specs.List.{flat_map};
ghost use Rattle.std.specs.Fmt.{signed_decimal};
ghost use Rattle.scene_text.specs.Text.Printed.{hex_digit, hex_byte, after_space, texel_words};

use itoa::Buffer;
use rc_base::command::Bytes;
use rc_base::out_of_memory::OutOfMemory;

/// A space and a number.
pub(crate) fn print_number(text: &mut Bytes, number: i32) -> Result<(), OutOfMemory>
    ensures { OnOk result (text.new ≡ text.old ++ after_space (signed_decimal number)) }
{
    let mut buffer = Buffer::new();
    let digits = buffer.format(number).as_bytes();
    text.push(b' ')?;
    text.extend_from_slice(digits)?;
    Ok(())
}

/// The numbers, with a space before each.
pub(crate) fn print_numbers(text: &mut Bytes, numbers: &[i32]) -> Result<(), OutOfMemory>
    ensures { OnOk result (text.new ≡ text.old ++ flat_map after_space (map signed_decimal numbers.now)) }
{
    for number in numbers {
        print_number(text, *number)?;
    }
    Ok(())
}

fn hex_digit(value: u8) -> u8
    requires { value < 16 }
    ensures { result ≡ hex_digit value }
{
    if value < 10 {
        b'0' + value
    } else {
        b'a' - 10 + value
    }
}

fn print_byte(text: &mut Bytes, byte: u8) -> Result<(), OutOfMemory>
    ensures { OnOk result (text.new ≡ text.old ++ hex_byte byte) }
{
    text.push(hex_digit(byte / 16))?;
    text.push(hex_digit(byte % 16))?;
    Ok(())
}

fn print_bytes(text: &mut Bytes, bytes: &[u8]) -> Result<(), OutOfMemory>
    ensures { OnOk result (text.new ≡ text.old ++ flat_map hex_byte bytes.now) }
{
    for byte in bytes {
        print_byte(text, *byte)?;
    }
    Ok(())
}

/// A space and the digits of the texels, or nothing where there are none.
pub(crate) fn print_texels(text: &mut Bytes, texels: &[u8]) -> Result<(), OutOfMemory>
    ensures { OnOk result (text.new ≡ text.old ++ flat_map after_space (texel_words texels.now)) }
{
    match texels {
        [] => Ok(()),
        [_, ..] => {
            text.push(b' ')?;
            print_bytes(text, texels)
        }
    }
}
