//! The context of one client.
ghost use Rattle.std.specs.Prelude.{◌≡◌, ◌≢◌, ◌+◌, ◌<◌, ◌≤◌, ◌^◌, ◌*◌, true, length, IfOk, OnOk, OnErr, None, []};
ghost use Rattle.std.specs.Option.{option_map};
ghost use Rattle.rc_base.specs.declared.state.Block.{Block as BlockOf};
ghost use Rattle.rc_base.specs.Lists.{with_name};
ghost use Rattle.rc_base.specs.Contexts.Context.{default_context, top, below, private_image, edit_of, shared_sides, private_count};
ghost use Rattle.rc_base.specs.Contexts.Faults.{is_in_place, has_values, has_image, part_fits, has_room, has_below, fault_of};
ghost use Rattle.rc_base.specs.Contexts.Issue.{carried_out, done_by, refused, issued, effect_of, with_top, with_image, block_mode};
ghost use Rattle.rc_base.specs.Formats.Commands.{has_codes};
ghost use Rattle.rc_base.specs.declared.command.Command.TheVariants as cmd;
ghost use Rattle.textures.specs.Images.{LiesInside, picture};
ghost use Rattle.gl_context.specs.Arguments.{HasTexels, product_asked};
ghost use Rattle.gl_context.specs.Changes.{BecomesOrStays, CanCarryOut};
ghost use Rattle.gl_context.specs.Edits.{CanWrite, HasRoomForEdits};

use crate::open_block::OpenBlock;
use crate::rules;
use crate::stacks::pop_last;
use crate::state::{flags_of, held};
use element_table::{IDENTITY, default_state, is_name, lies_inside, set_capability};
use fixed_math::multiply;
use rc_base::cluster::FaultList;
use rc_base::command::{Command, Mat4, Part, Rgba, Texels, copy_of_part};
use rc_base::out_of_memory::OutOfMemory;
use rc_base::scene::{Decl, Sizes};
use rc_base::state::{Block, CUT_MODES, Effect, Fault, State, Vertex, Vertices};
use rc_base::sync::SyncOp;
use std::alloc::Global;
use std::marker::Model;
use std::mem::replace;
use textures::PrivateSet;

/// What the commands of one client have set so far.
#[derive(Drop)]
pub struct Context {
    alloc: Global,
    state: State,
    matrix_mode: u8,
    modelviews: Vec<Mat4>,
    projections: Vec<Mat4>,
    color: Rgba,
    s: i32,
    t: i32,
    pub(crate) block: Option<OpenBlock>,
    pub(crate) room: Vec<Vertex>,
    images: PrivateSet,
    edits: [u32; 64],
    pub(crate) version: u8,
    shared: Sizes,
    barriers: usize,
    semaphores: usize,
    faults: FaultList,
}

impl Model for Context {
    ghost use Rattle.rc_base.specs.Contexts.Context.{ClientContext};

    ghost Value = { ClientContext };

    ghost view = { λ a. record {
      state = a.state;
      matrix_mode = a.matrix_mode;
      modelviews = a.modelviews.items;
      projections = a.projections.items;
      color = a.color;
      s = a.s;
      t = a.t;
      block = a.block;
      images = a.images;
      edits = a.edits;
      version = a.version;
      shared = a.shared;
      barriers = a.barriers;
      semaphores = a.semaphores;
      faults = a.faults;
    } };
}

impl Context {
    /// The context of a client before its first command.
    #[tactic(auto, unfolding(rc_base::specs::Contexts::Context::default_context))]
    pub fn new(alloc: Global, decl: &Decl) -> Result<Context, OutOfMemory>
        ensures { IfOk result (λ x. x ≡ default_context decl.now) }
    {
        Ok(Context {
            alloc,
            state: default_state(decl),
            matrix_mode: 0,
            modelviews: Vec::new(alloc),
            projections: Vec::new(alloc),
            color: Rgba {
                r: 255,
                g: 255,
                b: 255,
                a: 255,
            },
            s: 0,
            t: 0,
            block: None,
            room: Vec::new(alloc),
            images: PrivateSet::new(alloc)?,
            edits: [0; 64],
            version: decl.version,
            shared: Sizes::from_slice(alloc, decl.shared.as_slice())?,
            barriers: decl.barriers.len(),
            semaphores: decl.semaphores.len(),
            faults: FaultList::new(alloc),
        })
    }

    // ---- the rules

    fn is_in_place(&self, command: &Command) -> bool
        ensures { result ≡ is_in_place self.now command.now }
    {
        rules::may_stand_in(command, self.block.is_some())
    }

    fn top(&self) -> Mat4
        ensures { result ≡ top self.now }
    {
        if self.matrix_mode == 0 {
            self.state.modelview
        } else {
            self.state.projection
        }
    }

    fn depth_below(&self) -> usize
        ensures { result ≡ length (below self.now) }
    {
        if self.matrix_mode == 0 {
            self.modelviews.len()
        } else {
            self.projections.len()
        }
    }

    // The product that the command asks for, where its entries have 32 bits.
    fn product(&self, command: &Command) -> Option<Mat4>
        ensures { result ≡ product_asked self.now command.now }
    {
        match command {
            Command::MultMatrix(m) => multiply(&self.top(), m),
            _ => None,
        }
    }

    fn has_values(&self, command: &Command, product: Option<Mat4>) -> bool
        requires { product ≡ product_asked self.now command.now }
        ensures { result ≡ has_values self.now command.now }
    {
        match command {
            Command::Vertex { .. } => match &self.block {
                Some(block) => rules::has_vertex_room(block.vertices.len()),
                None => true,
            },
            Command::MultMatrix(_) => product.is_some(),
            Command::Viewport { area } => rules::is_viewport(area),
            Command::Scissor { area } => 0 <= area[2] && 0 <= area[3],
            Command::Clear { mask } => *mask < 4,
            Command::BindTexture { kind, name } => {
                let count = if *kind == 0 { 64 } else { self.shared.len() };
                is_name((*name).into(), count as u64)
            }
            Command::TexImage { name, w, h, .. } => {
                is_name((*name).into(), 64)
                    && (is_name((*w).into(), 256) && is_name((*h).into(), 256))
            }
            Command::TexPart(part) => is_name(part.name.into(), 64),
            Command::SharedImage(part) => is_name(part.name.into(), self.shared.len() as u64),
            Command::Barrier { name } => is_name((*name).into(), self.barriers as u64),
            Command::SemP { name } | Command::SemV { name } => is_name(
                (*name).into(),
                self.semaphores as u64,
            ),
            _ => true,
        }
    }

    fn has_image(&self, command: &Command) -> bool
        requires { has_values self.now command.now ≡ true }
        ensures { result ≡ has_image self.now command.now }
    {
        match command {
            Command::TexPart(part) => self.images.get(part.name).sides().is_some(),
            _ => true,
        }
    }

    #[tactic(auto, using(textures::proofs::Names::at_name_below))]
    fn shared_sides(&self, name: u8) -> [u16; 2]
        requires low { 0 < name }
        requires high { name ≤ length self.now.shared }
        ensures { result ≡ shared_sides self.now.shared name }
    {
        self.shared.as_slice()[usize::from(name) - 1]
    }

    fn part_fits(&self, command: &Command) -> bool
        requires { has_values self.now command.now ≡ true }
        ensures { result ≡ part_fits self.now command.now }
    {
        match command {
            Command::TexPart(part) => match self.images.get(part.name).sides() {
                Some(sides) => lies_inside(part, sides),
                None => true,
            },
            Command::SharedImage(part) => lies_inside(part, self.shared_sides(part.name)),
            _ => true,
        }
    }

    fn has_room(&self, command: &Command) -> bool
        ensures { result ≡ has_room self.now command.now }
    {
        match command {
            Command::PushMatrix => self.depth_below() < 31,
            _ => true,
        }
    }

    fn has_below(&self, command: &Command) -> bool
        ensures { result ≡ has_below self.now command.now }
    {
        match command {
            Command::PopMatrix => 0 < self.depth_below(),
            _ => true,
        }
    }

    // The fault of the first rule that the command breaks.
    fn first_fault(&self, command: &Command, product: Option<Mat4>) -> Option<Fault>
        requires { product ≡ product_asked self.now command.now }
        ensures { result ≡ fault_of self.now command.now }
    {
        if !self.is_in_place(command) {
            Some(Fault::InvalidOperation)
        } else if !rules::has_codes(command) {
            Some(Fault::InvalidEnum)
        } else if !self.has_values(command, product) {
            Some(Fault::InvalidValue)
        } else if !self.has_image(command) {
            Some(Fault::InvalidOperation)
        } else if !self.part_fits(command) {
            Some(Fault::InvalidValue)
        } else if !self.has_room(command) {
            Some(Fault::StackOverflow)
        } else if !self.has_below(command) {
            Some(Fault::StackUnderflow)
        } else {
            None
        }
    }

    // ---- what commands set

    fn set_top(&mut self, m: Mat4)
        ensures { self.new ≡ with_top self.old m }
    {
        if self.matrix_mode == 0 {
            self.state.modelview = m;
        } else {
            self.state.projection = m;
        }
    }

    fn push_matrix(&mut self) -> Result<(), OutOfMemory>
        ensures { BecomesOrStays result self.old self.new (carried_out self.old cmd.PushMatrix) }
    {
        let top = self.top();
        if self.matrix_mode == 0 {
            self.modelviews.push(top)?;
        } else {
            self.projections.push(top)?;
        }
        Ok(())
    }

    fn pop_matrix(&mut self)
        requires { 0 < length (below self.old) }
        ensures { self.new ≡ carried_out self.old cmd.PopMatrix }
    {
        if self.matrix_mode == 0 {
            self.state.modelview = pop_last(&mut self.modelviews);
        } else {
            self.state.projection = pop_last(&mut self.projections);
        }
    }

    #[inline(always)]
    pub(crate) fn add_vertex(&mut self, pos: [i32; 4]) -> Result<(), OutOfMemory>
        ensures { BecomesOrStays result self.old self.new (carried_out self.old (cmd.Vertex pos)) }
    {
        let vertex = Vertex {
            pos,
            color: self.color,
            s: self.s,
            t: self.t,
        };
        if let Some(block) = &mut self.block {
            block.push(vertex)?;
        }
        Ok(())
    }

    #[inline(always)]
    pub(crate) fn set_color(&mut self, color: Rgba)
        ensures { self.new ≡ record self.old { color = color } }
    {
        self.color = color;
    }

    #[inline(always)]
    pub(crate) fn set_coordinate(&mut self, s: &i32, t: &i32)
        ensures { self.new ≡ record self.old { s = s.now; t = t.now } }
    {
        self.s = *s;
        self.t = *t;
    }

    #[tactic(auto, using(textures::proofs::Names::at_name_below, textures::proofs::Names::with_name_below))]
    fn count_edit(&mut self, name: u8)
        requires { CanWrite self.old name }
        ensures { self.new ≡ record self.old {
          edits = with_name self.old.edits name (edit_of self.old name + 1);
        } }
    {
        self.edits[usize::from(name) - 1] += 1;
    }

    fn set_image(&mut self, name: u8, w: u16, h: u16, texels: &Texels) -> Result<(), OutOfMemory>
        requires name { CanWrite self.old name }
        requires whole { length texels.now ≡ 4 * (w * h) }
        ensures { BecomesOrStays result self.old self.new
            (with_image self.old name (picture w h texels.now)) }
    {
        self.images.set(name, w, h, texels)?;
        self.count_edit(name);
        Ok(())
    }

    fn set_part(&mut self, part: &Part)
        requires name { CanWrite self.old part.now.name }
        requires whole { length part.now.texels ≡ 4 * (part.now.w * part.now.h) }
        requires image { LiesInside part.now (private_image self.old part.now.name) }
        ensures { self.new ≡ carried_out self.old (cmd.TexPart part.now) }
    {
        let Part {
            name,
            x,
            y,
            w,
            h,
            texels,
        } = part;
        self.images.set_part(*name, *x, *y, *w, *h, texels);
        self.count_edit(*name);
    }

    // A block without vertices, in the room of one that was given back.
    pub(crate) fn empty_block(&mut self, mode: u8) -> OpenBlock
        ensures block { result ≡ record { mode = mode; vertices = [] } }
        ensures same { self.new ≡ self.old }
    {
        let mut room = replace(&mut self.room, Vec::new(self.alloc));
        room.clear();
        OpenBlock {
            mode,
            vertices: room,
        }
    }

    // Sets what the command sets.
    fn set(&mut self, command: &Command, product: Option<Mat4>) -> Result<(), OutOfMemory>
        requires can { CanCarryOut self.old command.now product }
        requires other { command.now ≢ cmd.End }
        ensures { BecomesOrStays result self.old self.new (carried_out self.old command.now) }
    {
        match command {
            Command::Begin { mode } => {
                let block = self.empty_block(block_mode(self.version, *mode));
                self.block = Some(block);
            }
            Command::Vertex { pos } => self.add_vertex(*pos)?,
            Command::Color(color) => self.set_color(*color),
            Command::TexCoord { s, t } => self.set_coordinate(s, t),
            Command::Enable { capability } => set_capability(&mut self.state, *capability, true),
            Command::Disable { capability } => set_capability(&mut self.state, *capability, false),
            Command::MatrixMode { mode } => self.matrix_mode = *mode,
            Command::LoadIdentity => self.set_top(IDENTITY),
            Command::LoadMatrix(m) => self.set_top(*m),
            Command::MultMatrix(_) => self.set_top(product.unwrap_or(IDENTITY)),
            Command::PushMatrix => self.push_matrix()?,
            Command::PopMatrix => self.pop_matrix(),
            Command::Viewport { area } => self.state.viewport = *area,
            Command::DepthRange { near, far } => self.state.depth_range = [held(*near), held(*far)],
            Command::Scissor { area } => self.state.scissor = *area,
            Command::AlphaFunc {
                function,
                reference,
            } => self.state.alpha = [*function, *reference],
            Command::DepthFunc { function } => self.state.depth_func = *function,
            Command::DepthMask { flag } => self.state.depth_mask = *flag != 0,
            Command::BlendFunc {
                source,
                destination,
            } => self.state.blend = [*source, *destination],
            Command::ColorMask { flags } => self.state.color_mask = flags_of(flags),
            Command::ClearColor(color) => self.state.clear_color = *color,
            Command::ClearDepth { depth } => self.state.clear_depth = held(*depth),
            Command::CullFace { face } => self.state.cull_face = *face,
            Command::FrontFace { direction } => self.state.front_face = *direction,
            Command::BindTexture { kind, name } => self.state.binding = [*kind, *name],
            Command::TexEnv { environment } => self.state.tex_mode[0] = *environment,
            Command::TexWrap { s, t } => self.state.tex_mode = [self.state.tex_mode[0], *s, *t],
            Command::TexImage { name, w, h, texels } => self.set_image(*name, *w, *h, texels)?,
            Command::TexPart(part) => self.set_part(part),
            _ => {}
        }
        Ok(())
    }

    // Carries out a command that breaks no rule.
    fn carry_out(&mut self, command: &Command, product: Option<Mat4>) -> Result<Effect, OutOfMemory>
        requires { CanCarryOut self.old command.now product }
        ensures effect { IfOk result (λ e. e ≡ done_by self.old command.now) }
        ensures context { BecomesOrStays result self.old self.new
            (carried_out self.old command.now) }
    {
        match command {
            Command::End => Ok(match self.block.take() {
                Some(block) => Effect::Block(block.into_block()),
                None => Effect::Quiet,
            }),
            Command::Clear { mask } => Ok(Effect::Clear(*mask)),
            Command::SharedImage(part) => Ok(Effect::Shared(copy_of_part(self.alloc, part)?)),
            Command::Barrier { name } => Ok(Effect::Sync(SyncOp::Barrier(*name))),
            Command::SemP { name } => Ok(Effect::Sync(SyncOp::SemP(*name))),
            Command::SemV { name } => Ok(Effect::Sync(SyncOp::SemV(*name))),
            Command::Swap => Ok(Effect::Sync(SyncOp::Swap)),
            _ => {
                self.set(command, product)?;
                Ok(Effect::Quiet)
            }
        }
    }

    // ---- one command

    // Notes the fault of a refused command.
    #[inline(never)]
    pub(crate) fn refuse(&mut self, place: u32, fault: Fault) -> Result<(), OutOfMemory>
        ensures { BecomesOrStays result self.old self.new (refused self.old place fault) }
    {
        self.faults.push((place, fault))?;
        Ok(())
    }

    // The fault of a vertex: it stands in an open block that has room for it.
    #[inline(always)]
    pub(crate) fn vertex_fault(&self, pos: [i32; 4]) -> Option<Fault>
        ensures { result ≡ fault_of self.now (cmd.Vertex pos) }
    {
        let _pos = pos;
        match &self.block {
            Some(block) => rules::vertex_fault(block.vertices.len()),
            None => Some(Fault::InvalidOperation),
        }
    }

    #[inline(always)]
    #[tactic(auto, unfolding(rc_base::specs::Contexts::Issue::issued, rc_base::specs::Contexts::Issue::effect_of))]
    fn issue_vertex(&mut self, place: u32, pos: [i32; 4]) -> Result<Effect, OutOfMemory>
        ensures effect { IfOk result (λ e. e ≡ effect_of self.old (cmd.Vertex pos)) }
        ensures context { BecomesOrStays result self.old self.new
            (issued self.old place (cmd.Vertex pos)) }
    {
        match self.vertex_fault(pos) {
            Some(fault) => {
                self.refuse(place, fault)?;
                Ok(Effect::Refused(fault))
            }
            None => {
                self.add_vertex(pos)?;
                Ok(Effect::Quiet)
            }
        }
    }

    // Tries each rule in turn.
    #[inline(never)]
    #[tactic(auto, unfolding(rc_base::specs::Contexts::Issue::issued, rc_base::specs::Contexts::Issue::effect_of))]
    fn issue_by_rules(&mut self, place: u32, command: &Command) -> Result<Effect, OutOfMemory>
        requires texels { HasTexels command.now }
        requires room { HasRoomForEdits self.old }
        ensures effect { IfOk result (λ e. e ≡ effect_of self.old command.now) }
        ensures context { BecomesOrStays result self.old self.new
            (issued self.old place command.now) }
    {
        let product = self.product(command);
        match self.first_fault(command, product) {
            Some(fault) => {
                self.refuse(place, fault)?;
                Ok(Effect::Refused(fault))
            }
            None => self.carry_out(command, product),
        }
    }

    /// Carries out the command at its place, or refuses it and notes its fault. Where memory is wanting, nothing is changed.
    #[inline(always)]
    #[tactic(auto, unfolding(rc_base::specs::Contexts::Issue::issued, rc_base::specs::Contexts::Issue::effect_of))]
    pub fn issue(&mut self, place: u32, command: &Command) -> Result<Effect, OutOfMemory>
        requires texels { HasTexels command.now }
        requires room { HasRoomForEdits self.old }
        ensures effect { IfOk result (λ e. e ≡ effect_of self.old command.now) }
        ensures ok { OnOk result (self.new ≡ issued self.old place command.now) }
        ensures err { OnErr result (self.new ≡ self.old) }
    {
        match command {
            Command::Vertex { pos } => self.issue_vertex(place, *pos),
            Command::Color(color) => {
                self.set_color(*color);
                Ok(Effect::Quiet)
            }
            Command::TexCoord { s, t } => {
                self.set_coordinate(s, t);
                Ok(Effect::Quiet)
            }
            Command::Begin { mode } => {
                if self.begin(*mode) {
                    return Ok(Effect::Quiet);
                }
                self.issue_by_rules(place, command)
            }
            Command::End => {
                if let Some(block) = self.end() {
                    return Ok(Effect::Block(block));
                }
                self.issue_by_rules(place, command)
            }
            _ => self.issue_by_rules(place, command),
        }
    }

    /// Takes back what a command did and is done with, so that the next block has the room of this one.
    #[inline(always)]
    pub fn take_back(&mut self, effect: Effect)
        ensures { self.new ≡ self.old }
    {
        if let Effect::Block(block) = effect {
            self.room = block.vertices.into_vec();
        }
    }

    // Closes the open block without drawing it, and tells how many vertices it had.
    pub(crate) fn take_block(&mut self) -> Option<usize>
        ensures count { result ≡ option_map (λ (b : BlockOf). length b.vertices) self.old.block }
        ensures context { self.new ≡ record self.old { block = None } }
    {
        match self.block.take() {
            Some(block) => {
                let count = block.vertices.len();
                self.room = block.vertices;
                Some(count)
            }
            None => None,
        }
    }

    // ---- what the context holds

    /// The scalar elements.
    pub fn state(&self) -> &State
        ensures { result.now ≡ self.now.state }
    {
        &self.state
    }

    /// The stack of matrices that the matrix commands mean: modelview (0) or projection (1).
    pub fn matrix_mode(&self) -> u8
        ensures { result ≡ self.now.matrix_mode }
    {
        self.matrix_mode
    }

    /// The private textures.
    pub fn private(&self) -> &PrivateSet
        ensures { result.now ≡ self.now.images }
    {
        &self.images
    }

    /// How often a private texture was written.
    #[tactic(auto, using(textures::proofs::Names::at_name_below))]
    pub fn edit(&self, name: u8) -> u32
        requires low { 0 < name }
        requires high { name ≤ private_count }
        ensures { result ≡ edit_of self.now name }
    {
        self.edits[usize::from(name) - 1]
    }

    /// The refused commands, each one's place and fault.
    pub fn faults(&self) -> &FaultList
        ensures { result.now ≡ self.now.faults }
    {
        &self.faults
    }

    /// The same, when the client's commands are at an end.
    pub fn into_faults(self) -> FaultList
        ensures { result ≡ self.faults }
    {
        self.faults
    }
}

// The mode of the block that Begin opens.
pub(crate) fn block_mode(version: u8, kind: u8) -> u8
    requires { has_codes (cmd.Begin kind) ≡ true }
    ensures { result ≡ block_mode version kind }
{
    if version == 2 { kind + CUT_MODES } else { kind }
}
