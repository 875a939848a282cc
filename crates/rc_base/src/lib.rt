//! The words of the product: its plain types, its lists, the traits of the outside, and in `specs/` the definitions that all contracts cite.
//!
//! A scene is a declaration and one list of commands for each client. `specs/` says how bytes spell it, what each command does to its
//! client's context and to a pixel, and what the frames of an order of commands are. This crate stands on none of the others.
#![tactic(auto)]

pub mod cluster;
pub mod command;
pub mod gate;
pub mod image;
pub mod in_memory;
pub mod interval;
pub mod items;
pub mod lane;
pub mod list_command;
pub mod out_of_memory;
pub mod outside;
pub mod plain_lane;
pub mod rotation;
pub mod scene;
pub mod standard;
pub mod state;
pub mod sync;
pub mod text;
pub mod transfer;
pub mod triangle;
pub mod window;

pub use cluster::{
    ClientMoved, FaultList, FaultLists, ManagerMoved, Parts, Tallies, Tally, TileMoved, TilePart,
};
pub use command::{Bytes, Command, Commands, Mat4, Part, Rgba, Texels};
pub use gate::{Actor, Gate, OpenGate};
pub use image::{Frames, Image};
pub use in_memory::{MemSink, MemSource, QuietSink, QuietSource};
pub use interval::Interval;
pub use items::Items;
pub use lane::{Inlet, Outlet};
pub use list_command::{ListCommand, ListCommands, ListOpcode, ListStreams};
pub use out_of_memory::OutOfMemory;
pub use outside::{Failed, Sink, Source};
pub use plain_lane::PlainLane;
pub use scene::{Counts, Decl, Limit, Scene, SceneKind, Sizes, Streams, TextKind, Units};
pub use standard::{StdSink, StdSource};
pub use state::{
    Act, Block, Effect, ElementSet, ElementValue, Fault, Parcel, Sets, State, Vertex, Vertices,
};
pub use sync::{
    Entry, Grant, Journal, Name, Order, Request, SyncLists, SyncOp, SyncOps, SyncRow, SyncRows,
    WaitAt, Waiting,
};
pub use transfer::{ReadAllFault, WriteFault, read_all, write_all};
pub use triangle::WindowTriangle;
pub use window::{Fragment, Layout, Pixel, Pixels, Rect, Span, WindowVertex};
