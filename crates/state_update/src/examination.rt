//! What a parcel examines: the elements that are dirty for its tile.
ghost use Rattle.std.specs.Prelude.{◌≡◌, ◌<◌, ◌≤◌, ◌+◌, ◌^◌, ◌++◌, [], IfOk, IsOk, OnOk, length};
ghost use Rattle.rc_base.specs.Contexts.Elements.{element_count, group_sizes};
ghost use Rattle.state_update.specs.Knowledge.{IsSoundExamination, all_sets, element_looks, group_sets, looks_from, sets_of};

use crate::told::Told;
use dirty_bits::{Dirty, Looks};
use element_table::group_start;
use gl_context::Context;
use rc_base::out_of_memory::OutOfMemory;
use rc_base::state::Sets;
use std::alloc::Global;

/// What is read before a parcel: its context, the private texture whose image it examines, what its tile was told, and the dirty bits.
#[derive(Drop)]
pub struct Examination<'a> {
    pub alloc: Global,
    pub context: &'a Context,
    pub image: Option<u8>,
    pub told: &'a Told,
    pub dirty: &'a Dirty,
    pub tile: u8,
}

impl<'a> Examination<'a> {
    // Looks at an element, and adds it where it is dirty and differs.
    fn add_element(
        &self,
        sets: &mut Sets,
        element: u8,
        looks: &mut Looks,
    ) -> Result<(), OutOfMemory>
        requires element { element < element_count }
        requires sound { IsSoundExamination self.now }
        requires room { looks.old < 2 ^ 63 }
        ensures added { OnOk result (sets.new ≡ sets.old ++ sets_of self.now element) }
        ensures quiet { sets_of self.now element ≡ [] → IsOk result }
        ensures looked { looks.new ≡ looks.old + 1 }
    {
        if !self.dirty.is_dirty(element, self.tile, looks) {
            return Ok(());
        }
        self.told
            .add_element(sets, self.alloc, self.context, self.image, element)
    }

    // Looks at a group, and at its elements where one of them is dirty.
    fn add_group(&self, sets: &mut Sets, group: u8, looks: &mut Looks) -> Result<(), OutOfMemory>
        requires group { group < length group_sizes }
        requires sound { IsSoundExamination self.now }
        requires room { looks.old + 256 ≤ 2 ^ 63 }
        ensures added { OnOk result (sets.new ≡ sets.old ++ group_sets self.now group) }
        ensures quiet { group_sets self.now group ≡ [] → IsOk result }
        ensures looked { OnOk result (looks.new
            ≡ looks.old + 1 + element_looks self.now.dirty.now self.now.tile group) }
        ensures risen { looks.old ≤ looks.new }
    {
        if !self.dirty.group_dirty(group, self.tile, looks) {
            return Ok(());
        }
        for element in group_start(group)..group_start(group + 1) {
            self.add_element(sets, element, looks)?;
        }
        Ok(())
    }

    /// The elements that are dirty and differ, in the order of their numbers.
    pub fn sets(&self, looks: &mut Looks) -> Result<Sets, OutOfMemory>
        requires sound { IsSoundExamination self.now }
        requires room { looks.old < 2 ^ 62 + 1 }
        ensures sets { IfOk result (λ sets. sets ≡ all_sets self.now) }
        ensures quiet { all_sets self.now ≡ [] → IsOk result }
        ensures looked { OnOk result (looks.new
            ≡ looks.old + length group_sizes + looks_from self.now.dirty.now self.now.tile 0) }
        ensures risen { looks.old ≤ looks.new }
    {
        let mut sets = Sets::new(self.alloc);
        for group in 0..9 {
            self.add_group(&mut sets, group, looks)?;
        }
        Ok(sets)
    }
}
