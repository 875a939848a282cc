//! Issuing the next command.
ghost use Rattle.std.specs.Prelude.{◌≡◌, ℕ, ◌+◌, ◌<◌, ◌&&◌, ◌||◌, ◌++◌, false, is_none, slice_index_or};
ghost use Rattle.std.specs.Option.{option_to_list};
ghost use Rattle.std.specs.Vec.{vec_capacity, vec_len};
ghost use Rattle.rc_base.specs.declared.command.Command.TheVariants as cmd;
ghost use Rattle.client_issue.specs.Sequence.{IssuesNext, MayIssue};
ghost use Rattle.client_issue.specs.Issued.{is_refused, sets_element, wait_in};
ghost use Rattle.gl_context.specs.Arguments.{HasName};
ghost use Rattle.state_update.specs.Knowledge.{pending};

use crate::pending::{first_of, pending_of};
use crate::sender::Sender;
use command_store::CommandForm;
use gl_context::laws::{commands_have_texels, streams_go_on_by_issue};
use gl_context::marks;
use rc_base::command::Command;
use rc_base::out_of_memory::OutOfMemory;
use rc_base::state::{Act, Effect};
use rc_base::sync::WaitAt;
use state_update::Tracker;

// The operation of synchronisation that the effect is, if it is one.
fn wait_of(place: u32, effect: &Effect) -> Option<WaitAt>
    ensures { result ≡ wait_in place effect.now }
{
    match effect {
        Effect::Sync(op) => Some(WaitAt { place, op: *op }),
        _ => None,
    }
}

fn add(ops: &mut Vec<WaitAt>, wait: Option<WaitAt>)
    requires { vec_len ops.old < vec_capacity ops.old }
    ensures { ops.new.items ≡ ops.old.items ++ option_to_list wait }
{
    if let Some(wait) = wait {
        ops.push_reserved(wait);
    }
}

// Notes the element that the command set, where it was accepted.
fn note(tracker: &mut Tracker, command: &Command, mode: u8, effect: &Effect)
    requires { is_refused effect.now ≡ false → HasName command.now }
    ensures told { tracker.new.told ≡ tracker.old.told }
    ensures marked { (tile e : ℕ) → tile < 32 → pending tracker.new tile e ≡ (sets_element command.now mode effect.now e || pending tracker.old tile e) }
{
    if matches!(effect, Effect::Refused(_)) {
        return;
    }
    if let Some(element) = marks(command, mode) {
        tracker.note(element);
    }
}

impl Sender {
    /// Nothing of the command that was issued last is left.
    #[inline(always)]
    pub(crate) fn is_resting(&self) -> bool
        ensures { result ≡ (is_none self.now.pending && is_none self.now.request) }
    {
        self.pending.is_none() && self.request.is_none()
    }

    /// Takes back an act that no other tile is given, so that the next block has the room of this one.
    pub(crate) fn take_back(&mut self, act: Act)
        ensures { self.new ≡ self.old }
    {
        if let Act::Draw(block) = act {
            self.context.take_vertices(block.vertices);
        }
    }

    // Issues the next command, which is a Begin.
    fn issue_begin(&mut self, mode: u8) -> Result<(), OutOfMemory>
        requires next { MayIssue self.old }
        requires command { slice_index_or self.old.stream self.old.issued cmd.End ≡ cmd.Begin mode }
        ensures { IssuesNext self.old result self.new }
    {
        streams_go_on_by_issue();
        if !self.context.begin(mode) {
            return self.issue_any();
        }
        self.issued += 1;
        Ok(())
    }

    // Issues the next command, which is an End.
    fn issue_end(&mut self) -> Result<(), OutOfMemory>
        requires next { MayIssue self.old }
        requires command { slice_index_or self.old.stream self.old.issued cmd.End ≡ cmd.End }
        ensures { IssuesNext self.old result self.new }
    {
        streams_go_on_by_issue();
        let Some(block) = self.context.end() else {
            return self.issue_any();
        };
        match first_of(
            &self.layout,
            self.count,
            self.context.state(),
            self.issued,
            Act::Draw(block),
        ) {
            Ok(pending) => self.pending = Some(pending),
            Err(act) => self.take_back(act),
        }
        self.issued += 1;
        Ok(())
    }

    /// Issues the next command. Those of blocks are most of a stream, and are issued as they are kept.
    #[inline(always)]
    pub(crate) fn issue_next(&mut self) -> Result<(), OutOfMemory>
        requires { MayIssue self.old }
        ensures { IssuesNext self.old result self.new }
    {
        streams_go_on_by_issue();
        let place = self.issued;
        match self.stream.borrowed(place as usize) {
            CommandForm::Vertex(pos) => self.context.vertex(place, *pos)?,
            CommandForm::Color(color) => self.context.color(*color),
            CommandForm::TexCoord { s, t } => self.context.tex_coord(*s, *t),
            CommandForm::Begin(mode) => {
                let mode = *mode;
                return self.issue_begin(mode);
            }
            CommandForm::End => return self.issue_end(),
            CommandForm::Other(_) => return self.issue_any(),
        }
        self.issued += 1;
        Ok(())
    }

    // Issues the next command, whichever it is.
    #[inline(never)]
    fn issue_any(&mut self) -> Result<(), OutOfMemory>
        requires { MayIssue self.old }
        ensures { IssuesNext self.old result self.new }
    {
        commands_have_texels();
        streams_go_on_by_issue();
        // room for its operation first: what was issued can then be noted
        self.ops.reserve(1)?;
        let place = self.issued;
        let stored = self.stream.at(place as usize);
        let command: &Command = &stored;
        let mode = self.context.matrix_mode();
        let effect = self.context.issue(place, command)?;
        note(&mut self.tracker, command, mode, &effect);
        let wait = wait_of(place, &effect);
        add(&mut self.ops, wait);
        self.request = wait;
        self.pending = pending_of(
            &self.layout,
            self.count,
            self.context.state(),
            place,
            effect,
        );
        self.issued += 1;
        Ok(())
    }
}
