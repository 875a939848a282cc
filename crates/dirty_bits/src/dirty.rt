//! The bits, and what asks them.
ghost use Rattle.std.specs.Prelude.{◌≡◌, ℕ, ◌<◌, ◌+◌, ◌^◌, ◌==◌, ◌&&◌, ◌||◌, not, false, length};
ghost use Rattle.rc_base.specs.Contexts.Elements.{element_count, group_sizes};
ghost use Rattle.dirty_bits.specs.Bits.{IsMarked, is_dirty, is_group_dirty, is_any_dirty};

use crate::bits::{any_has, lowered, without};
use crate::looks::Looks;
use element_table::{group_of, group_start};
use rc_base::sync::has;
use std::marker::Model;

/// For each of the 86 elements, each of their nine groups, and all of them, the servers for which it is dirty, of up to 32.
#[derive(Drop)]
pub struct Dirty {
    elements: [u32; 86],
    groups: [u32; 9],
    top: u32,
}

impl Model for Dirty {
    ghost use Rattle.std.specs.Prelude.{List, ℕ};
    ghost use Rattle.dirty_bits.specs.Bits.{IsHierarchy};

    ghost Value = { List ℕ };

    ghost view = { λ a. a.elements };

    ghost invariant = { λ a. IsHierarchy a.elements a.groups a.top };
}

impl Dirty {
    /// Nothing is dirty.
    pub fn new() -> Dirty
        ensures count { length result ≡ element_count }
        ensures clean { (e server : ℕ) → is_dirty result e server ≡ false }
    {
        Dirty {
            elements: [0; 86],
            groups: [0; 9],
            top: 0,
        }
    }

    /// Makes an element dirty for each of the 32 servers.
    pub fn mark(&mut self, element: u8)
        requires { element < element_count }
        ensures count { length self.new ≡ length self.old }
        ensures marked { IsMarked element self.old self.new }
    {
        self.elements[usize::from(element)] = u32::MAX;
        self.groups[usize::from(group_of(element))] = u32::MAX;
        self.top = u32::MAX;
    }

    /// Makes an element clean for one server. Its group stays dirty for the server exactly where another of its elements is, and the top alike.
    pub fn clear(&mut self, element: u8, server: u8)
        requires element { element < element_count }
        requires server { server < 32 }
        ensures count { length self.new ≡ length self.old }
        ensures cleared { (e s : ℕ) → s < 32
            → is_dirty self.new e s ≡ (is_dirty self.old e s && not (e == element && s == server)) }
    {
        let place = usize::from(element);
        if !has(self.elements[place], server) {
            return;
        }
        self.elements[place] = without(self.elements[place], server);
        let group = group_of(element);
        let stays = any_has(
            &self.elements,
            group_start(group),
            group_start(group + 1),
            server,
        );
        let place = usize::from(group);
        self.groups[place] = lowered(self.groups[place], server, stays);
        let stays = any_has(&self.groups, 0, 9, server);
        self.top = lowered(self.top, server, stays);
    }

    /// Whether any element is dirty for the server.
    pub fn any_dirty(&self, server: u8, looks: &mut Looks) -> bool
        requires server { server < 32 }
        requires room { looks.old < 2 ^ 63 }
        ensures answer { result ≡ is_any_dirty self.now server }
        ensures looked { looks.new ≡ looks.old + 1 }
    {
        looks.look();
        has(self.top, server)
    }

    /// Whether an element of the group, from 0 to 8, is dirty for the server.
    pub fn group_dirty(&self, group: u8, server: u8, looks: &mut Looks) -> bool
        requires group { group < length group_sizes }
        requires server { server < 32 }
        requires room { looks.old < 2 ^ 63 }
        ensures answer { result ≡ is_group_dirty self.now group server }
        ensures looked { looks.new ≡ looks.old + 1 }
    {
        looks.look();
        has(self.groups[usize::from(group)], server)
    }

    /// Whether the element is dirty for the server.
    pub fn is_dirty(&self, element: u8, server: u8, looks: &mut Looks) -> bool
        requires element { element < element_count }
        requires server { server < 32 }
        requires room { looks.old < 2 ^ 63 }
        ensures answer { result ≡ is_dirty self.now element server }
        ensures looked { looks.new ≡ looks.old + 1 }
    {
        looks.look();
        has(self.elements[usize::from(element)], server)
    }
}
