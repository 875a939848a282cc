//! Scenes as bytes.
//!
//! `read_scene` gives the scene that bytes spell, `write_scene` the bytes of a scene, and `check_limits` the first quantity of a scene
//! that is outside its range. `read_list_scene` gives the scene with call lists that bytes spell, where `begins_with_lists` says that they begin as such, and
//! `check_streams` judges the streams of the scene that it stands for.
#![tactic(auto)]

mod beside;
mod fault;
mod generator;
mod header;
mod kept;
pub mod laws;
mod limits;
mod list_scene;
mod lists;
mod reading;
mod writing;

pub use beside::{read_scene_beside, read_stored_scene_beside};
pub use fault::SceneFault;
pub use generator::{generate, next_state};
pub use header::begins_with_lists;
pub use limits::{
    check_held, check_held_stored, check_limits, check_streams, clients_beyond, commands_beyond,
};
pub use list_scene::ListScene;
pub use lists::read_list_scene;
pub use reading::{read_scene, read_stored_scene};
pub use writing::write_scene;
