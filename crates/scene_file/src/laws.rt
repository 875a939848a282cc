//! Laws on the spelling of scenes and on generated scenes, each the contract of a function that does nothing.
ghost use Rattle.scene_file.specs.Generated.{GeneratedScenesAreWithin};
ghost use Rattle.scene_file.specs.Laws.{ScenesAreOne, FaultsSpellNoScene, SceneFaultsAreOne, ScenesOrFaults, WrittenIsRead};
ghost use Rattle.scene_file.specs.Laws.{ListScenesAreOne, FaultsSpellNoListScene, ListSceneFaultsAreOne, ListScenesOrFaults, FormsAreApart};

/// No bytes spell two scenes.
pub fn bytes_spell_one_scene()
    ensures { ScenesAreOne }
{}

/// Bytes that have a fault spell no scene.
pub fn faults_spell_no_scene()
    ensures { FaultsSpellNoScene }
{}

/// No bytes have two faults, nor one at two places.
pub fn bytes_have_one_fault()
    ensures { SceneFaultsAreOne }
{}

/// Bytes spell a scene, or they have a fault.
pub fn bytes_spell_or_fail()
    ensures { ScenesOrFaults }
{}

/// What is written of a scene is read again as that scene.
pub fn written_is_read()
    ensures { WrittenIsRead }
{}

/// A generated scene of at most 4,096 rounds is within the limits.
pub fn generated_scenes_are_within_limits()
    ensures { GeneratedScenesAreWithin }
{}

/// No bytes spell two scenes with call lists.
pub fn bytes_spell_one_list_scene()
    ensures { ListScenesAreOne }
{}

/// Bytes that have a fault, read as a scene with call lists, spell none.
pub fn faults_spell_no_list_scene()
    ensures { FaultsSpellNoListScene }
{}

/// No bytes, read as a scene with call lists, have two faults, nor one at two places.
pub fn list_bytes_have_one_fault()
    ensures { ListSceneFaultsAreOne }
{}

/// Bytes spell a scene with call lists, or they have a fault.
pub fn list_bytes_spell_or_fail()
    ensures { ListScenesOrFaults }
{}

/// No bytes spell both a scene and a scene with call lists.
pub fn forms_are_apart()
    ensures { FormsAreApart }
{}
