//! The lists of a stream.
ghost use Rattle.std.specs.Prelude.{◌≡◌, true, [], length, IfOk, MatchOption};
ghost use Rattle.rc_base.specs.Lists.{with_name};
ghost use Rattle.call_lists.specs.Expansion.{no_lists, list_at, is_list_name};

use crate::body::Body;
use std::alloc::{AllocError, Global};
use std::marker::Model;
use std::mem;

/// The 64 lists, each with its commands.
#[derive(Debug, Drop)]
pub struct Lists<'a> {
    bodies: Vec<Body<'a>>,
}

impl<'a> Model for Lists<'a> {
    ghost use Rattle.std.specs.Prelude.{◌≡◌, List, length};
    ghost use Rattle.rc_base.specs.declared.list_command.ListCommand.{ListCommand};

    ghost Value = { List (List ListCommand) };

    ghost view = { λ s. s.bodies.items };

    ghost invariant = { λ s. length s.bodies.items ≡ 64 };
}

fn no_bodies<'a>(alloc: Global) -> Result<Vec<Body<'a>>, AllocError>
    ensures { IfOk result (λ v. v.items ≡ no_lists) }
{
    let mut bodies = Vec::new(alloc);
    for i in 0usize..64 {
        bodies.push(Body::new(alloc))?;
    }
    Ok(bodies)
}

impl<'a> Lists<'a> {
    /// None of the lists exists.
    pub fn new(alloc: Global) -> Result<Lists<'a>, AllocError>
        ensures { IfOk result (λ v. v ≡ no_lists) }
    {
        let bodies = no_bodies(alloc)?;
        Ok(Lists { bodies })
    }

    /// A list by its name, where it is one of the 64.
    pub fn at(&self, name: u8) -> Option<&Body<'a>>
        ensures { MatchOption result (list_at self.now name ≡ []) (λ b. b.now ≡ list_at self.now name) }
    {
        if name == 0 {
            return None;
        }
        self.bodies.get(name as usize - 1)
    }

    /// Makes a list.
    pub fn set(&mut self, name: u8, body: Body<'a>)
        requires { is_list_name name ≡ true }
        ensures { self.new ≡ with_name self.old name body.entry }
    {
        let _old = mem::replace(&mut self.bodies[name as usize - 1], body);
    }
}
