//! Two tiles that are told in turn, by hand, and what that costs in looks.
ghost use Rattle.std.specs.Prelude.{◌≡◌, ℕ, ◌+◌, ◌<◌, ◌≤◌, ◌^◌, IsTrue, IsFalse};
ghost use Rattle.gl_context.specs.Arguments.{HasName, HasTexels};
ghost use Rattle.rc_base.specs.Contexts.Context.{edit_of, private_count};
ghost use Rattle.rc_base.specs.Contexts.Elements.{marks};
ghost use Rattle.rc_base.specs.Contexts.Issue.{issued};
ghost use Rattle.format_tests.specs.Told.{AreTold};

use dirty_bits::Looks;
use gl_context::laws::{commands_set_one_element, streams_go_on_by_issue};
use gl_context::{Context, marks};
use rc_base::command::{Command, Part, Rgba, Texels};
use rc_base::scene::{Counts, Decl, Sizes, Units};
use rc_base::state::{ElementValue, Sets};
use state_update::Tracker;
use state_update::laws::known_values_are_alike;
use std::alloc::Global;
use std::process::Abort;

fn has_texels(command: &Command) -> bool
    ensures { IsTrue result → HasTexels command.now }
{
    match command {
        Command::TexImage { w, h, texels, .. } => {
            texels.len() == 4 * (usize::from(*w) * usize::from(*h))
        }
        Command::TexPart(part) => {
            let Part { w, h, texels, .. } = part;
            texels.len() == 4 * (usize::from(*w) * usize::from(*h))
        }
        _ => true,
    }
}

// Whether the element that the command sets is the same in each matrix mode.
fn has_plain_mark(command: &Command) -> bool
    ensures name { IsTrue result → HasName command.now }
    ensures mode { IsTrue result → (mode : ℕ) → marks command.now mode ≡ marks command.now 0 }
{
    match command {
        Command::LoadIdentity
        | Command::LoadMatrix(_)
        | Command::MultMatrix(_)
        | Command::PopMatrix => false,
        Command::TexImage { name, .. } => *name <= 64,
        Command::TexPart(part) => part.name <= 64,
        _ => true,
    }
}

// Whether each private texture may be written once more.
fn has_room(context: &Context) -> bool
    ensures { IsTrue result → (name : ℕ) → 0 < name → name ≤ private_count → edit_of context.now name + 1 < 2 ^ 32 }
{
    for name in 1..65_u8 {
        if context.edit(name) == u32::MAX {
            return false;
        }
    }
    true
}

fn decl(alloc: Global) -> Decl {
    Decl {
        version: 1,
        width: 2,
        height: 1,
        shared: Sizes::new(alloc),
        barriers: Counts::new(alloc),
        semaphores: Units::new(alloc),
    }
}

// Whether there was memory for the command.
fn was_issued(context: &mut Context, command: &Command) -> bool
    requires texels { HasTexels command.now }
    requires room { (name : ℕ) → 0 < name → name ≤ private_count → edit_of context.old name + 1 < 2 ^ 32 }
    ensures issued { IsTrue result → context.new ≡ issued context.old 0 command.now }
    ensures same { IsFalse result → context.new ≡ context.old }
{
    match context.issue(0, command) {
        Ok(_) => true,
        Err(_) => false,
    }
}

// A client's context, what its two tiles were told, and the looks so far.
#[derive(Drop)]
struct Client {
    context: Context,
    tracker: Tracker,
    looks: Looks,
}

impl Client {
    fn new(rt: &impl Abort, alloc: Global) -> Client
        ensures { AreTold result.tracker result.context }
    {
        commands_set_one_element();
        streams_go_on_by_issue();
        let decl = decl(alloc);
        let context = Context::new(alloc, &decl).expect(rt, "memory");
        let tracker = Tracker::new(alloc, &decl, 2).expect(rt, "memory");
        Client {
            context,
            tracker,
            looks: Looks::new(),
        }
    }

    // Whether a command that sets an element was issued, and noted: there was memory for it.
    fn is_issued(&mut self, command: &Command) -> bool
        requires { AreTold self.old.tracker self.old.context }
        ensures { AreTold self.new.tracker self.new.context }
    {
        commands_set_one_element();
        if !has_texels(command) || !has_plain_mark(command) || !has_room(&self.context) {
            return false;
        }
        let Some(element) = marks(command, 0) else {
            return false;
        };
        if element > 85 {
            return false;
        }
        if !was_issued(&mut self.context, command) {
            return false;
        }
        self.tracker.note(element);
        true
    }

    // The sets of a tile, where the bound texture exists.
    fn told(&mut self, tile: u8, draws: bool) -> Option<Sets>
        requires told { AreTold self.old.tracker self.old.context }
        requires tile { tile < 2 }
        ensures { AreTold self.new.tracker self.new.context }
    {
        known_values_are_alike();
        let [_, name] = self.context.state().binding;
        if name == 0 || name > 64 || self.looks.count() > 1_000_000 {
            return None;
        }
        match self
            .tracker
            .update(&self.context, tile, draws, &mut self.looks)
        {
            Ok(sets) => Some(sets),
            Err(_) => None,
        }
    }
}

const NONE: u8 = 99;

// The elements of the first three sets, where there are no more.
fn elements(sets: &Sets) -> Option<[u8; 3]> {
    let at = |k: usize| -> u8 {
        match sets.as_slice().get(k) {
            Some(set) => set.element,
            None => NONE,
        }
    };
    if sets.len() > 3 {
        return None;
    }
    Some([at(0), at(1), at(2)])
}

// The edit number and the second byte of the image that is the last set.
fn image_told(sets: &Sets) -> Option<(u32, u8)> {
    match sets.as_slice().last() {
        Some(set) => match &set.value {
            ElementValue::Image { edit, texels, .. } => match texels.as_slice().get(1) {
                Some(byte) => Some((*edit, *byte)),
                None => None,
            },
            _ => None,
        },
        None => None,
    }
}

impl Client {
    // Whether a tile gets the sets of these elements, for so many looks.
    fn tells(&mut self, tile: u8, draws: bool, wanted: [u8; 3], looks: u64) -> bool
        requires told { AreTold self.old.tracker self.old.context }
        requires tile { tile < 2 }
        ensures { AreTold self.new.tracker self.new.context }
    {
        let before = self.looks.count();
        match self.told(tile, draws) {
            Some(sets) => {
                elements(&sets) == Some(wanted) && self.looks.count().wrapping_sub(before) == looks
            }
            None => false,
        }
    }

    // Whether a tile gets an image last, with this edit number and second byte, for so many looks.
    fn tells_image(&mut self, tile: u8, edit: u32, byte: u8, looks: u64) -> bool
        requires told { AreTold self.old.tracker self.old.context }
        requires tile { tile < 2 }
        ensures { AreTold self.new.tracker self.new.context }
    {
        let before = self.looks.count();
        match self.told(tile, true) {
            Some(sets) => {
                image_told(&sets) == Some((edit, byte))
                    && self.looks.count().wrapping_sub(before) == looks
            }
            None => false,
        }
    }

    // Whether a capability was turned on, or off.
    fn is_switched(&mut self, capability: u8, on: bool) -> bool
        requires { AreTold self.old.tracker self.old.context }
        ensures { AreTold self.new.tracker self.new.context }
    {
        if on {
            return self.is_issued(&Command::Enable { capability });
        }
        self.is_issued(&Command::Disable { capability })
    }

    // Whether a texture of one texel was given, of these first two bytes.
    fn is_painted(&mut self, rt: &impl Abort, alloc: Global, name: u8, bytes: [u8; 4]) -> bool
        requires { AreTold self.old.tracker self.old.context }
        ensures { AreTold self.new.tracker self.new.context }
    {
        let texels = Texels::from_slice(alloc, &bytes).expect(rt, "memory");
        self.is_issued(&Command::TexImage {
            name,
            w: 1,
            h: 1,
            texels,
        })
    }

    // Whether its texel was written anew.
    fn is_retouched(&mut self, rt: &impl Abort, alloc: Global, name: u8, bytes: [u8; 4]) -> bool
        requires { AreTold self.old.tracker self.old.context }
        ensures { AreTold self.new.tracker self.new.context }
    {
        let texels = Texels::from_slice(alloc, &bytes).expect(rt, "memory");
        self.is_issued(&Command::TexPart(Part {
            name,
            x: 0,
            y: 0,
            w: 1,
            h: 1,
            texels,
        }))
    }
}

const NOTHING: [u8; 3] = [NONE, NONE, NONE];

const GREY: Rgba = Rgba {
    r: 9,
    g: 9,
    b: 9,
    a: 9,
};

// What is done with a client, and what its tiles are told.
#[derive(Clone, Copy)]
enum Deed {
    Switch(u8, bool),
    ScissorOnePixel,
    ClearGrey,
    Bind(u8),
    Paint(u8, [u8; 4]),
    Retouch(u8, [u8; 4]),
    Tell(u8, bool, [u8; 3], u64),
    TellImage(u8, u32, u8, u64),
}

impl Client {
    // The deed goes as it says.
    fn does(&mut self, rt: &impl Abort, alloc: Global, deed: Deed) -> bool
        requires { AreTold self.old.tracker self.old.context }
        ensures { AreTold self.new.tracker self.new.context }
    {
        match deed {
            Deed::Switch(capability, on) => self.is_switched(capability, on),
            Deed::ScissorOnePixel => self.is_issued(&Command::Scissor { area: [0, 0, 1, 1] }),
            Deed::ClearGrey => self.is_issued(&Command::ClearColor(GREY)),
            Deed::Bind(name) => self.is_issued(&Command::BindTexture { kind: 0, name }),
            Deed::Paint(name, bytes) => self.is_painted(rt, alloc, name, bytes),
            Deed::Retouch(name, bytes) => self.is_retouched(rt, alloc, name, bytes),
            Deed::Tell(tile, draws, wanted, looks) => {
                tile < 2 && self.tells(tile, draws, wanted, looks)
            }
            Deed::TellImage(tile, edit, byte, looks) => {
                tile < 2 && self.tells_image(tile, edit, byte, looks)
            }
        }
    }
}

// How many deeds go as they say.
fn done(rt: &impl Abort, alloc: Global, deeds: &[Deed]) -> usize {
    let mut client = Client::new(rt, alloc);
    let mut count: usize = 0;
    for deed in deeds {
        if !client.does(rt, alloc, *deed) {
            break;
        }
        count = count.saturating_add(1);
    }
    count
}

const BLEND_SET_BACK: [Deed; 13] = [
    Deed::Tell(0, true, NOTHING, 1),
    Deed::Tell(1, true, NOTHING, 1),
    Deed::Switch(3, true),
    Deed::Switch(3, false),
    Deed::Tell(0, true, NOTHING, 15),
    Deed::Tell(1, true, NOTHING, 15),
    Deed::Switch(0, true),
    Deed::ScissorOnePixel,
    Deed::Tell(0, true, [4, 5, NONE], 15),
    Deed::Switch(0, false),
    Deed::Tell(0, true, [4, NONE, NONE], 15),
    Deed::Tell(1, true, [5, NONE, NONE], 15),
    Deed::Tell(1, false, NOTHING, 1),
];

#[test]
fn a_blend_set_back_is_not_told_and_each_tile_is_told_in_its_time(rt: HostRuntime) {
    assert!(rt; done(&rt, rt.alloc(), &BLEND_SET_BACK) == 13);
}

const IMAGE_AND_PARTS: [Deed; 14] = [
    Deed::Paint(2, [1, 2, 3, 4]),
    Deed::Bind(2),
    Deed::Switch(5, true),
    Deed::Tell(0, false, [19, 20, NONE], 29),
    Deed::TellImage(0, 1, 2, 26),
    Deed::Tell(0, true, NOTHING, 1),
    Deed::Retouch(2, [5, 6, 7, 8]),
    Deed::Tell(0, false, NOTHING, 26),
    Deed::TellImage(0, 2, 6, 26),
    Deed::Tell(1, true, [19, 20, 23], 29),
    Deed::Retouch(2, [9, 9, 9, 9]),
    Deed::Switch(5, false),
    Deed::Tell(0, true, [19, NONE, NONE], 29),
    Deed::Tell(0, true, NOTHING, 26),
];

#[test]
fn an_image_is_told_once_and_again_after_a_part(rt: HostRuntime) {
    assert!(rt; done(&rt, rt.alloc(), &IMAGE_AND_PARTS) == 14);
}

const PENDING_GROUPS: [Deed; 8] = [
    Deed::ClearGrey,
    Deed::Tell(0, false, [17, NONE, NONE], 15),
    Deed::Paint(1, [0, 255, 0, 255]),
    Deed::Tell(0, false, NOTHING, 26),
    Deed::Tell(1, false, [17, NONE, NONE], 31),
    Deed::Switch(5, true),
    Deed::Tell(0, true, [19, 22, NONE], 29),
    Deed::Tell(0, true, NOTHING, 1),
];

#[test]
fn looks_are_those_of_groups_with_something_pending(rt: HostRuntime) {
    assert!(rt; done(&rt, rt.alloc(), &PENDING_GROUPS) == 8);
}
