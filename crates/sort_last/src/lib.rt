//! Composition by depth (sort-last rendering): each client draws each frame alone into a layer, and the layers are put together by depth.
//!
//! It is for scenes whose clients only swap, and whose blocks keep the nearest fragment. Which commands keep a scene from it is `specs::Offends`,
//! what layers are is `specs::Layers`, and that their frames are those of one renderer in the default order is the law `layers_compose_to_frames`.
//! Commands are those of a `StoredScene` of command_store, contexts those of gl_context and stream_replay, pixels those of a `Device` of draw_device, and
//! the journal is that of serial_render. Clients are threads of `rayon`, and beside them one thread puts together what they drew before.
#![tactic(auto)]

mod apart;
mod compose;
mod last;
mod laws;
mod layer;
mod offence;
mod play;
mod player;
mod sheet;
mod survey;

pub use last::{LastFault, LastRun, render_judged, render_last, render_surveyed};
pub use laws::{composite_is_associative, layers_compose_to_frames, layers_have_a_unit};
pub use layer::{Layer, composite};
pub use survey::{LastSurvey, survey_last};
