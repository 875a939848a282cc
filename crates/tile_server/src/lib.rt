//! A tile's core: it takes its clients' parcels and the manager's grants, draws its pixels, and shows them at each Swap.
//!
//! What a tile does, and when what it keeps is right for a scene, are the definitions of `tile_model`. A step is one deed of `specs/Deeds`. This
//! crate stands on `draw_device` for its pixels, on `textures`, and on `bounds_bucket` for its rectangle.
#![tactic(auto)]

mod blank;
mod canvas;
mod deed;
mod givable;
mod hardware;
mod kept;
pub mod laws;
mod lazy;
mod ledger;
mod sets;
mod tile_core;
mod waiting;
mod work;

pub use deed::{Taking, TileDeed};
pub use tile_core::TileCore;
