//! A scene whose streams are kept in less room.
ghost use Rattle.std.specs.Prelude.{◌≡◌, ◌<◌, ◌^◌, IfOk};
ghost use Rattle.std.specs.List.{AllByRecursion};
ghost use Rattle.command_store.specs.Scenes.{IsShort};

use crate::store::CommandStore;
use rc_base::items::Items;
use rc_base::out_of_memory::OutOfMemory;
use rc_base::scene::{Decl, Scene, copy_of_decl};
use std::alloc::Global;
use std::marker::Model;

/// A scene, which contracts see as the scene itself.
#[derive(Debug, Drop)]
pub struct StoredScene {
    declared: Decl,
    stored: Items<CommandStore>,
}

impl Model for StoredScene {
    ghost use Rattle.rc_base.specs.declared.scene.Scene.{Scene};

    ghost Value = { Scene };

    ghost view = { λ s. record { decl = s.declared; streams = s.stored } };
}

impl StoredScene {
    /// The scene of a declaration and the streams of its clients.
    pub fn new(decl: Decl, streams: Items<CommandStore>) -> StoredScene
        ensures { result ≡ record { decl = decl; streams = streams } }
    {
        StoredScene {
            declared: decl,
            stored: streams,
        }
    }

    /// A copy of a scene.
    pub fn of(alloc: Global, scene: &Scene) -> Result<StoredScene, OutOfMemory>
        requires { AllByRecursion IsShort scene.now.streams }
        ensures { IfOk result (λ s. s ≡ scene.now) }
    {
        let declared = copy_of_decl(alloc, &scene.decl)?;
        let mut stored = Items::new(alloc);
        for stream in scene.streams.as_slice() {
            stored.push(CommandStore::of(alloc, stream.as_slice())?)?;
        }
        Ok(StoredScene { declared, stored })
    }

    /// What it declares.
    #[inline(always)]
    pub fn decl(&self) -> &Decl
        ensures { result.now ≡ self.now.decl }
    {
        &self.declared
    }

    /// The stream of each client.
    #[inline(always)]
    pub fn streams(&self) -> &[CommandStore]
        ensures { result.now ≡ self.now.streams }
    {
        self.stored.as_slice()
    }

    /// What it declares, and the stream of each client.
    pub fn into_parts(self) -> (Decl, Items<CommandStore>)
        ensures decl { result.0 ≡ self.decl }
        ensures streams { result.1 ≡ self.streams }
    {
        let StoredScene { declared, stored } = self;
        (declared, stored)
    }
}
