//! The header of an image, read byte by byte.
ghost use Rattle.std.specs.Prelude.{◌≡◌, ◌==◌, IfOk, IfErr, if◌then◌else◌};
ghost use Rattle.rc_base.specs.Formats.Netpbm.{is_whitespace, IsNoImage};
ghost use Rattle.ppm_out.specs.Rest.{IsSide, HasReadSides, Follows, IsFirstDigit, IsNextDigit};
ghost use Rattle.ppm_out.specs.Headers.{IsHeader};
ghost use Rattle.ppm_out.specs.declared.header.Due.TheVariants as due;
ghost use Rattle.ppm_out.specs.declared.header.Next.TheVariants as next;

/// The longest side of an image that is read.
const LONGEST_SIDE: u16 = 2048;

/// What is due next in a header of which a front was read.
#[derive(Clone, Copy)]
pub(crate) enum Due {
    /// The `P`.
    Letter,
    /// The `6` behind it.
    Six,
    /// The whitespace behind that.
    Blank,
    /// More whitespace, or the width.
    Width,
    /// Whitespace, or a further digit of the width.
    WidthDigit { width: u16 },
    /// More whitespace, or the height.
    Height { width: u16 },
    /// Whitespace, or a further digit of the height.
    HeightDigit { width: u16, height: u16 },
    /// More whitespace, or the first digit of 255.
    Maximum { width: u16, height: u16 },
    /// The second digit of 255.
    FirstFive { width: u16, height: u16 },
    /// The third digit of 255.
    SecondFive { width: u16, height: u16 },
    /// The one whitespace before the pixels.
    LastBlank { width: u16, height: u16 },
}

/// What a byte leads to.
pub(crate) enum Next {
    /// No image has this byte here.
    Nothing,
    /// The header goes on.
    Header(Due),
    /// The header is whole: the pixels are next.
    Pixels { width: u16, height: u16 },
}

/// The header of an image.
pub(crate) struct Header {
    pub(crate) width: u16,
    pub(crate) height: u16,
    /// How many bytes it has.
    pub(crate) len: usize,
}

// Space, tab, LF, VT, FF, CR.
fn is_blank(byte: u8) -> bool
    ensures { result ≡ is_whitespace byte }
{
    byte == 32 || (9 <= byte && byte <= 13)
}

// The side that begins with this digit, which is not 0.
fn first_digit(byte: u8) -> Option<u16>
    ensures { IsFirstDigit byte result }
{
    if 49 <= byte && byte <= 57 {
        Some((byte - 48) as u16)
    } else {
        None
    }
}

// The side with this digit behind it, where it is not too long.
fn next_digit(side: u16, byte: u8) -> Option<u16>
    requires { IsSide side }
    ensures { IsNextDigit side byte result }
{
    if byte < 48 || 57 < byte {
        return None;
    }
    let longer = side * 10 + (byte - 48) as u16;
    if longer <= LONGEST_SIDE {
        Some(longer)
    } else {
        None
    }
}

// This byte alone goes on.
fn expect(byte: u8, wanted: u8, due: Due) -> Next
    ensures { result ≡ (if byte == wanted then next.Header due else next.Nothing) }
{
    if byte == wanted {
        Next::Header(due)
    } else {
        Next::Nothing
    }
}

impl Due {
    // What the byte leads to.
    fn after(self, byte: u8) -> Next
        requires { HasReadSides self }
        ensures { Follows self byte result }
    {
        match self {
            Due::Letter => expect(byte, b'P', Due::Six),
            Due::Six => expect(byte, b'6', Due::Blank),
            Due::Blank => {
                if is_blank(byte) {
                    return Next::Header(Due::Width);
                }
                Next::Nothing
            }
            Due::Width => after_width(byte),
            Due::WidthDigit { width } => after_width_digit(width, byte),
            Due::Height { width } => after_height(width, byte),
            Due::HeightDigit { width, height } => after_height_digit(width, height, byte),
            Due::Maximum { width, height } => after_maximum(width, height, byte),
            Due::FirstFive { width, height } => {
                expect(byte, b'5', Due::SecondFive { width, height })
            }
            Due::SecondFive { width, height } => {
                expect(byte, b'5', Due::LastBlank { width, height })
            }
            Due::LastBlank { width, height } => {
                if is_blank(byte) {
                    return Next::Pixels { width, height };
                }
                Next::Nothing
            }
        }
    }
}

// After a gap before the width, or within it.
fn after_width(byte: u8) -> Next
    ensures { Follows due.Width byte result }
{
    if is_blank(byte) {
        return Next::Header(Due::Width);
    }
    match first_digit(byte) {
        Some(width) => Next::Header(Due::WidthDigit { width }),
        None => Next::Nothing,
    }
}

fn after_width_digit(width: u16, byte: u8) -> Next
    requires { IsSide width }
    ensures { Follows (due.WidthDigit width) byte result }
{
    if is_blank(byte) {
        return Next::Header(Due::Height { width });
    }
    match next_digit(width, byte) {
        Some(width) => Next::Header(Due::WidthDigit { width }),
        None => Next::Nothing,
    }
}

fn after_height(width: u16, byte: u8) -> Next
    requires { IsSide width }
    ensures { Follows (due.Height width) byte result }
{
    if is_blank(byte) {
        return Next::Header(Due::Height { width });
    }
    match first_digit(byte) {
        Some(height) => Next::Header(Due::HeightDigit { width, height }),
        None => Next::Nothing,
    }
}

fn after_height_digit(width: u16, height: u16, byte: u8) -> Next
    requires width { IsSide width }
    requires height { IsSide height }
    ensures { Follows (due.HeightDigit width height) byte result }
{
    if is_blank(byte) {
        return Next::Header(Due::Maximum { width, height });
    }
    match next_digit(height, byte) {
        Some(height) => Next::Header(Due::HeightDigit { width, height }),
        None => Next::Nothing,
    }
}

fn after_maximum(width: u16, height: u16, byte: u8) -> Next
    requires width { IsSide width }
    requires height { IsSide height }
    ensures { Follows (due.Maximum width height) byte result }
{
    if is_blank(byte) {
        return Next::Header(Due::Maximum { width, height });
    }
    expect(byte, b'2', Due::FirstFive { width, height })
}

/// The header at the front of the bytes. Where no image begins so, the answer is the length of the longest front that begins one.
pub(crate) fn read_header(bytes: &[u8]) -> Result<Header, usize>
    ensures header { IfOk result (IsHeader bytes.now) }
    ensures none { IfErr result (IsNoImage bytes.now) }
{
    let mut due = Due::Letter;
    for (at, byte) in bytes.iter().enumerate() {
        match due.after(*byte) {
            Next::Nothing => return Err(at),
            Next::Header(next) => due = next,
            Next::Pixels { width, height } => {
                return Ok(Header {
                    width,
                    height,
                    len: at + 1,
                });
            }
        }
    }
    Err(bytes.len())
}
