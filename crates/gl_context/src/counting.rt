//! A context whose open block is only counted.
ghost use Rattle.std.specs.Prelude.{◌≡◌, ℕ, IsTrue, IsFalse, IfOk, OnOk, OnErr, Some, None};
ghost use Rattle.gl_context.specs.Quiet.{is_quiet_inside, is_quiet_outside};
ghost use Rattle.rc_base.specs.Contexts.Context.{default_context};
ghost use Rattle.gl_context.specs.Arguments.{HasTexels};
ghost use Rattle.gl_context.specs.Changes.{BecomesOrStays};
ghost use Rattle.rc_base.specs.Contexts.Issue.{refused};
ghost use Rattle.gl_context.specs.Edits.{HasRoomForEdits};
ghost use Rattle.gl_context.specs.Counted.{counted, kind_of, HasKind, CountsIssued};
ghost use Rattle.gl_context.specs.declared.counting.EffectKind.TheVariants as kind;

use crate::context::Context;
use crate::rules;
use rc_base::cluster::FaultList;
use rc_base::command::Command;
use rc_base::out_of_memory::OutOfMemory;
use rc_base::scene::Decl;
use rc_base::state::{Effect, Fault};
use rc_base::sync::SyncOp;
use std::alloc::Global;

/// The kind of an effect, which is all that is told of the effect of a command where vertices are only counted, and the operation of an accepted
/// command of synchronisation.
#[derive(Clone, Copy, Debug, PartialEq, Eq)]
pub enum EffectKind {
    Quiet,
    Refused,
    Block,
    Clear,
    Shared,
    Sync(SyncOp),
}

/// What tells which commands of a client are refused, and what kind of effect each has: its context, but of an open block only how many vertices it
/// has.
#[derive(Drop)]
pub struct CountingContext {
    /// The context as if no block were open.
    pub outside: Context,
    /// How many vertices the open block has, where one is open.
    pub vertices: Option<usize>,
}

fn kind_of(effect: &Effect) -> EffectKind
    ensures { result ≡ kind_of effect.now }
{
    match effect {
        Effect::Quiet => EffectKind::Quiet,
        Effect::Refused(_) => EffectKind::Refused,
        Effect::Block(_) => EffectKind::Block,
        Effect::Clear(_) => EffectKind::Clear,
        Effect::Shared(_) => EffectKind::Shared,
        Effect::Sync(op) => EffectKind::Sync(*op),
    }
}

impl CountingContext {
    /// That of a client before its first command.
    #[tactic(auto, unfolding(rc_base::specs::Contexts::Context::default_context))]
    pub fn new(alloc: Global, decl: &Decl) -> Result<CountingContext, OutOfMemory>
        ensures { IfOk result (λ c. c ≡ counted (default_context decl.now)) }
    {
        Ok(CountingContext {
            outside: Context::new(alloc, decl)?,
            vertices: None,
        })
    }

    fn refuse(&mut self, place: u32, fault: Fault) -> Result<EffectKind, OutOfMemory>
        ensures kind { IfOk result (λ k. k ≡ kind.Refused) }
        ensures context { BecomesOrStays result self.old self.new
            (record self.old { outside = refused self.old.outside place fault }) }
    {
        self.outside.refuse(place, fault)?;
        Ok(EffectKind::Refused)
    }

    // Issues a command where a block of so many vertices is open.
    #[inline(always)]
    fn issue_inside(
        &mut self,
        place: u32,
        command: &Command,
        count: usize,
    ) -> Result<EffectKind, OutOfMemory>
        requires { self.old.vertices ≡ Some count }
        ensures kind { IfOk result (λ k. HasKind self.old command.now k) }
        ensures ok { OnOk result (CountsIssued self.old place command.now self.new) }
        ensures err { OnErr result (self.new ≡ self.old) }
    {
        match command {
            Command::Vertex { .. } => match rules::vertex_fault(count) {
                Some(fault) => self.refuse(place, fault),
                None => {
                    self.vertices = Some(count + 1);
                    Ok(EffectKind::Quiet)
                }
            },
            Command::Color(color) => {
                self.outside.set_color(*color);
                Ok(EffectKind::Quiet)
            }
            Command::TexCoord { s, t } => {
                self.outside.set_coordinate(s, t);
                Ok(EffectKind::Quiet)
            }
            Command::End => {
                self.vertices = None;
                Ok(EffectKind::Block)
            }
            _ => self.refuse(place, Fault::InvalidOperation),
        }
    }

    /// Issues a command, as `issue` does at any place, where a block is open and it is a Vertex that the block has room for, a Color or a TexCoord;
    /// otherwise nothing is done. Whether it was issued.
    #[inline(always)]
    pub fn count_quiet(&mut self, command: &Command) -> bool
        ensures exact { result ≡ is_quiet_inside self.old command.now }
        ensures kind { IsTrue result → HasKind self.old command.now kind.Quiet }
        ensures issued { IsTrue result → (place : ℕ)
            → CountsIssued self.old place command.now self.new }
        ensures left { IsFalse result → self.new ≡ self.old }
    {
        let Some(count) = self.vertices else {
            return false;
        };
        match command {
            Command::Vertex { .. } => {
                if rules::has_vertex_room(count) {
                    self.vertices = Some(count + 1);
                    true
                } else {
                    false
                }
            }
            Command::Color(color) => {
                self.outside.set_color(*color);
                true
            }
            Command::TexCoord { s, t } => {
                self.outside.set_coordinate(s, t);
                true
            }
            _ => false,
        }
    }

    /// Issues a command, as `issue` does at any place, where no block is open and it is a Begin of a kind that there is; otherwise nothing is done. Whether
    /// it was issued.
    #[inline(always)]
    pub fn count_begin(&mut self, command: &Command) -> bool
        ensures exact { result ≡ is_quiet_outside self.old command.now }
        ensures kind { IsTrue result → HasKind self.old command.now kind.Quiet }
        ensures issued { IsTrue result → (place : ℕ)
            → CountsIssued self.old place command.now self.new }
        ensures left { IsFalse result → self.new ≡ self.old }
    {
        match (self.vertices, command) {
            (None, Command::Begin { .. }) => {
                if rules::has_codes(command) {
                    self.vertices = Some(0);
                    true
                } else {
                    false
                }
            }
            _ => false,
        }
    }

    // Issues a command where none is open.
    #[inline(never)]
    fn issue_outside(&mut self, place: u32, command: &Command) -> Result<EffectKind, OutOfMemory>
        requires closed { self.old.vertices ≡ None }
        requires texels { HasTexels command.now }
        requires room { HasRoomForEdits self.old.outside }
        ensures kind { IfOk result (λ k. HasKind self.old command.now k) }
        ensures ok { OnOk result (CountsIssued self.old place command.now self.new) }
        ensures err { OnErr result (self.new ≡ self.old) }
    {
        let effect = self.outside.issue(place, command)?;
        self.vertices = self.outside.take_block();
        Ok(kind_of(&effect))
    }

    /// Carries out the command at its place, or refuses it and notes its fault, and gives the kind of its effect. Where memory is wanting, nothing is
    /// changed.
    #[inline(always)]
    pub fn issue(&mut self, place: u32, command: &Command) -> Result<EffectKind, OutOfMemory>
        requires texels { HasTexels command.now }
        requires room { HasRoomForEdits self.old.outside }
        ensures kind { IfOk result (λ k. HasKind self.old command.now k) }
        ensures ok { OnOk result (CountsIssued self.old place command.now self.new) }
        ensures err { OnErr result (self.new ≡ self.old) }
    {
        match self.vertices {
            Some(count) => self.issue_inside(place, command, count),
            None => self.issue_outside(place, command),
        }
    }

    /// The refused commands, each one's place and fault, when the client's commands are at an end.
    pub fn into_faults(self) -> FaultList
        ensures { result ≡ self.outside.faults }
    {
        self.outside.into_faults()
    }
}
