//! Writers of single fields: each adds the bytes of its argument behind those that stand, or, where memory is wanting, leaves what stood. Numbers have
//! their low byte first.
ghost use Rattle.std.specs.Prelude.{◌≡◌, ◌++◌, ◌∷◌, [], FitsSigned, OnOk, OnErr};
ghost use Rattle.std.specs.Int.{w32};
ghost use Rattle.rc_base.specs.Formats.Commands.{AreBytes};
ghost use Rattle.rc_base.specs.Formats.Spelling.{half, long, word};

use rc_base::command::Bytes;
use rc_base::out_of_memory::OutOfMemory;

/// So many bytes, as they stand.
pub fn write_bytes(out: &mut Bytes, bytes: &[u8]) -> Result<(), OutOfMemory>
    ensures added { OnOk result (out.new ≡ out.old ++ bytes.now) }
    ensures typed { OnOk result (AreBytes bytes.now) }
    ensures err { OnErr result (out.new ≡ out.old) }
{
    Ok(out.extend_from_slice(bytes)?)
}

/// A number of 8 bits.
pub fn write_byte(out: &mut Bytes, byte: u8) -> Result<(), OutOfMemory>
    ensures added { OnOk result (out.new ≡ out.old ++ byte ∷ []) }
    ensures err { OnErr result (out.new ≡ out.old) }
{
    write_bytes(out, &[byte])
}

/// A number of 16 bits.
pub fn write_half(out: &mut Bytes, number: u16) -> Result<(), OutOfMemory>
    ensures added { OnOk result (out.new ≡ out.old ++ half number) }
    ensures err { OnErr result (out.new ≡ out.old) }
{
    write_bytes(out, &number.to_le_bytes())
}

/// A number of 32 bits.
pub fn write_long(out: &mut Bytes, number: u32) -> Result<(), OutOfMemory>
    ensures added { OnOk result (out.new ≡ out.old ++ long number) }
    ensures err { OnErr result (out.new ≡ out.old) }
{
    write_bytes(out, &number.to_le_bytes())
}

/// A signed number of 32 bits, in two's complement.
pub fn write_word(out: &mut Bytes, number: i32) -> Result<(), OutOfMemory>
    ensures added { OnOk result (out.new ≡ out.old ++ word number) }
    ensures typed { OnOk result (FitsSigned w32 number) }
    ensures err { OnErr result (out.new ≡ out.old) }
{
    write_bytes(out, &number.to_le_bytes())
}
