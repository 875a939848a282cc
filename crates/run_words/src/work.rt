//! What a task works on.
use rc_base::command::Bytes;
use rc_base::scene::Scene;

/// The scene that its input means, behind the filters, and the lines that its report has besides the scene's own.
#[derive(Drop)]
pub struct Work {
    /// What the filters make of the scene.
    pub scene: Scene,
    /// The lines of what is refused before the run, with which the report begins.
    pub refused: Bytes,
    /// The lines of the filters that count.
    pub counted: Bytes,
}
