//! Scenes and frames that the tests of more than one crate or file use, as texts and as bytes.
//!
//! What one file of tests alone runs stands there. There is no code here.
#![tactic(auto)]

/// A window of 2 by 2 that is cleared to red, as bytes: `ClearColor 255 0 0 255; Clear 1; Swap`.
pub const RED_CLEAR: [u8; 26] = [
    0x52, 0x43, 0x53, 0x31, 2, 0, 2, 0, 1, 0, 0, 0, 10, 0, 0, 0, 3, 0, 0x16, 0x18, 0x24, 255, 0, 0,
    255, 1,
];

/// The same scene as a text.
pub const RED_CLEAR_TEXT: &[u8] = b"scene 1 2 2\nclient\nClearColor 255 0 0 255\nClear 1\nSwap\n";

/// The frame of the red clear.
pub const RED_FRAME: &[u8] = b"P6\n2 2\n255\n\xff\0\0\xff\0\0\xff\0\0\xff\0\0";

/// Two clients blend over both pixels, and nothing orders them.
pub const BLENDED_AT_ONCE: &[u8] = b"scene 1 2 1
client
Enable 3
BlendFunc 6 7
Color 255 0 0 128
Begin 0
Vertex -65536 -65536 0 65536
Vertex 196608 -65536 0 65536
Vertex -65536 196608 0 65536
End
Swap
client
Enable 3
BlendFunc 6 7
Color 0 0 255 128
Begin 0
Vertex -65536 -65536 0 65536
Vertex 196608 -65536 0 65536
Vertex -65536 196608 0 65536
End
Swap
";

/// Two clients blend over both pixels, one after the other: what the first one gives the semaphore back, the second one takes.
pub const BLENDED_IN_TURN: &[u8] = b"scene 1 2 1
semaphore 1
client
Enable 3
BlendFunc 6 7
Color 255 0 0 128
SemP 1
Begin 0
Vertex -65536 -65536 0 65536
Vertex 196608 -65536 0 65536
Vertex -65536 196608 0 65536
End
SemV 1
Swap
client
Enable 3
BlendFunc 6 7
Color 0 0 255 128
SemP 1
Begin 0
Vertex -65536 -65536 0 65536
Vertex 196608 -65536 0 65536
Vertex -65536 196608 0 65536
End
SemV 1
Swap
";
