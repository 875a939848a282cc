//! Scenes with call lists, and the scenes of version 2 that they stand for.
use super::spelled::{FULL, Step};
use Step::{Call, End, New, Plain};

// A scene with call lists, what it means as a text, the lines of its refused list commands, and the statuses of the six jobs.
pub(super) struct Case {
    pub(super) declared: &'static str,
    pub(super) streams: &'static [&'static [Step]],
    pub(super) meaning: &'static [u8],
    pub(super) refused: &'static str,
    pub(super) statuses: [u8; 6],
}

// A block that one list begins and another one ends, with a corner at the eye; a list that is made anew between its calls, and calls within it; a list that
// another client has; a recording that the stream's end leaves open.
pub(super) const DRAWN: Case = Case {
    declared: "2 1\nbarrier 2",
    streams: &[
        &[
            New(1),
            Plain("Begin 0"),
            End,
            New(2),
            Plain(
                "Vertex -65536 -65536 0 65536\nVertex 196608 -65536 0 65536\nVertex -65536 196608 0 0\nEnd",
            ),
            End,
            New(3),
            Plain("Color 255 0 0 255"),
            New(5),
            Call(1),
            Call(2),
            Call(9),
            End,
            Call(3),
            New(3),
            Plain("Color 0 255 0 255\nEnable 0\nScissor 1 0 1 1"),
            Call(1),
            Call(2),
            End,
            Call(3),
            Plain("Barrier 1\nSwap"),
            New(4),
            Plain("Swap"),
        ],
        &[
            End,
            Call(3),
            New(3),
            Plain("Barrier 1\nColor 0 0 255 255"),
            End,
            Call(3),
            New(1),
            FULL,
            End,
            Plain("Enable 0\nScissor 0 0 1 1"),
            Call(1),
            Plain("Swap"),
        ],
    ],
    meaning: b"scene 2 2 1
barrier 2
client
Color 255 0 0 255
Begin 0
Vertex -65536 -65536 0 65536
Vertex 196608 -65536 0 65536
Vertex -65536 196608 0 0
End
Color 0 255 0 255
Enable 0
Scissor 1 0 1 1
Begin 0
Vertex -65536 -65536 0 65536
Vertex 196608 -65536 0 65536
Vertex -65536 196608 0 0
End
Barrier 1
Swap
client
Barrier 1
Color 0 0 255 255
Enable 0
Scissor 0 0 1 1
Begin 0
Vertex -65536 -65536 0 65536
Vertex 196608 -65536 0 65536
Vertex -65536 196608 0 65536
End
Swap
",
    refused: "client 0 list fault INVALID_OPERATION at 11\nclient 1 list fault INVALID_OPERATION at 0\n",
    statuses: [0, 0, 0, 0, 0, 12],
};

// Two clients cover a pixel at two depths, and nothing orders them.
pub(super) const RACING: Case = Case {
    declared: "1 1",
    streams: &[
        &[
            New(1),
            FULL,
            End,
            Plain("Enable 2\nColor 255 0 0 255"),
            Call(1),
            Plain("Swap"),
        ],
        &[
            New(64),
            Plain(
                "Begin 0\nVertex -65536 -65536 -32768 65536\nVertex 196608 -65536 -32768 65536\nVertex -65536 196608 -32768 65536\nEnd",
            ),
            End,
            Plain("Enable 2\nColor 0 0 255 255"),
            Call(64),
            Call(0),
            Plain("Swap"),
        ],
    ],
    meaning: b"scene 2 1 1
client
Enable 2
Color 255 0 0 255
Begin 0
Vertex -65536 -65536 0 65536
Vertex 196608 -65536 0 65536
Vertex -65536 196608 0 65536
End
Swap
client
Enable 2
Color 0 0 255 255
Begin 0
Vertex -65536 -65536 -32768 65536
Vertex 196608 -65536 -32768 65536
Vertex -65536 196608 -32768 65536
End
Swap
",
    refused: "client 1 list fault INVALID_VALUE at 10\n",
    statuses: [0, 0, 0, 0, 11, 0],
};

// A client waits in a list for a `Swap` that never comes.
pub(super) const WAITING: Case = Case {
    declared: "1 1",
    streams: &[
        &[
            Plain("Enable 2"),
            New(1),
            Plain("Swap\nEnd"),
            End,
            Call(1),
            Call(1),
        ],
        &[Plain("Begin 3\nSwap"), End],
    ],
    meaning: b"scene 2 1 1\nclient\nEnable 2\nSwap\nEnd\nSwap\nEnd\nclient\nBegin 3\nSwap\n",
    refused: "client 1 list fault INVALID_OPERATION at 2\n",
    statuses: [5, 5, 5, 5, 5, 5],
};

// A list clears what the blocks of another list have covered.
pub(super) const CLEARED: Case = Case {
    declared: "1 1",
    streams: &[&[
        New(1),
        Plain("Clear 1"),
        End,
        New(2),
        FULL,
        End,
        Call(65),
        Plain("Enable 2"),
        Call(2),
        Call(1),
        Plain("Swap"),
    ]],
    meaning: b"scene 2 1 1
client
Enable 2
Begin 0
Vertex -65536 -65536 0 65536
Vertex 196608 -65536 0 65536
Vertex -65536 196608 0 65536
End
Clear 1
Swap
",
    refused: "client 0 list fault INVALID_VALUE at 10\n",
    statuses: [0, 0, 0, 0, 0, 12],
};
