//! A scene's text, line by line.
ghost use Rattle.std.specs.Prelude.{◌≡◌, ◌+◌, ◌<◌, List, [], ◌∷◌, ◌++◌, map, pos, OnOk, IfOk};
ghost use Rattle.std.specs.List.{flat_map, AllByRecursion};
ghost use Rattle.rc_base.specs.Formats.Commands.{IsCommand};
ghost use Rattle.rc_base.specs.Formats.Spelling.{IsDecl};
ghost use Rattle.scene_text.specs.Text.Read.{SpellsText};
ghost use Rattle.scene_text.specs.Text.Statements.{statement, command_statement, client_statements, shared_statement, barrier_statement, semaphore_statement, decl_statements};
ghost use Rattle.scene_text.specs.Text.Printed.{printed_line, printed};

use crate::digits::{print_numbers, print_texels};
use crate::names::word_of;
use command_table::{opcode_of, parts_of};
use rc_base::command::{Bytes, Command, Commands};
use rc_base::out_of_memory::OutOfMemory;
use rc_base::scene::{Decl, Scene};
use rc_base::text::LineName;
use std::alloc::Global;

#[tactic(auto, unfolding(crate::specs::Text::Printed::printed_line))]
fn print_line(
    text: &mut Bytes,
    name: LineName,
    numbers: &[i32],
    texels: &[u8],
) -> Result<(), OutOfMemory>
    ensures { OnOk result (text.new ≡ text.old ++ printed_line (statement name numbers.now texels.now)) }
{
    text.extend_from_slice(word_of(name))?;
    print_numbers(text, numbers)?;
    print_texels(text, texels)?;
    text.push(b'\n')?;
    Ok(())
}

fn print_command(text: &mut Bytes, command: &Command) -> Result<(), OutOfMemory>
    ensures { OnOk result (text.new ≡ text.old ++ printed_line (command_statement command.now)) }
{
    let mut room = [0; 16];
    let (numbers, texels) = parts_of(command, &mut room);
    let name = LineName::Command(opcode_of(command));
    print_line(text, name, numbers, texels)
}

fn print_client(text: &mut Bytes, commands: &Commands) -> Result<(), OutOfMemory>
    ensures { OnOk result (text.new ≡ text.old ++ flat_map printed_line (client_statements commands.now)) }
{
    print_line(text, LineName::Client, &[], &[])?;
    print_commands(text, commands.as_slice())
}

fn print_commands(text: &mut Bytes, commands: &[Command]) -> Result<(), OutOfMemory>
    ensures { OnOk result (text.new ≡ text.old ++ flat_map printed_line (map command_statement commands.now)) }
{
    for command in commands {
        print_command(text, command)?;
    }
    Ok(())
}

fn print_shared(text: &mut Bytes, sizes: &[[u16; 2]]) -> Result<(), OutOfMemory>
    ensures { OnOk result (text.new ≡ text.old ++ flat_map printed_line (map shared_statement sizes.now)) }
{
    for size in sizes {
        let [w, h] = *size;
        print_line(text, LineName::Shared, &[i32::from(w), i32::from(h)], &[])?;
    }
    Ok(())
}

fn print_barriers(text: &mut Bytes, counts: &[u8]) -> Result<(), OutOfMemory>
    ensures { OnOk result (text.new ≡ text.old ++ flat_map printed_line (map barrier_statement counts.now)) }
{
    for count in counts {
        print_line(text, LineName::Barrier, &[i32::from(*count)], &[])?;
    }
    Ok(())
}

fn print_semaphores(text: &mut Bytes, units: &[u16]) -> Result<(), OutOfMemory>
    ensures { OnOk result (text.new ≡ text.old ++ flat_map printed_line (map semaphore_statement units.now)) }
{
    for unit in units {
        print_line(text, LineName::Semaphore, &[i32::from(*unit)], &[])?;
    }
    Ok(())
}

fn print_decl(text: &mut Bytes, decl: &Decl) -> Result<(), OutOfMemory>
    ensures { OnOk result (text.new ≡ text.old ++ flat_map printed_line (decl_statements decl.now)) }
{
    let Decl {
        version,
        width,
        height,
        shared,
        barriers,
        semaphores,
    } = decl;
    print_line(
        text,
        LineName::Scene,
        &[i32::from(*version), i32::from(*width), i32::from(*height)],
        &[],
    )?;
    print_shared(text, shared.as_slice())?;
    print_barriers(text, barriers.as_slice())?;
    print_semaphores(text, semaphores.as_slice())
}

fn print_streams(text: &mut Bytes, streams: &[Commands]) -> Result<(), OutOfMemory>
    ensures { OnOk result (text.new ≡ text.old ++ flat_map printed_line (flat_map client_statements streams.now)) }
{
    for commands in streams {
        print_client(text, commands)?;
    }
    Ok(())
}

#[tactic(auto, unfolding(crate::specs::Text::Printed::printed))]
fn print_whole(alloc: Global, scene: &Scene) -> Result<Bytes, OutOfMemory>
    ensures { IfOk result (λ text. text ≡ printed scene.now) }
{
    let mut text = Bytes::new(alloc);
    print_decl(&mut text, &scene.decl)?;
    print_streams(&mut text, scene.streams.as_slice())?;
    Ok(text)
}

/// The text of a scene: a line for each thing that it declares, for each client and for each command, with one space between words, numbers
/// without leading zeros, and lower case digits. Where the scene's fields are in their ranges, `parse_scene` reads the text again.
pub fn print_scene(alloc: Global, scene: &Scene) -> Result<Bytes, OutOfMemory>
    ensures text { IfOk result (λ text. text ≡ printed scene.now) }
    ensures spells { IsDecl scene.now.decl → AllByRecursion (AllByRecursion IsCommand) scene.now.streams
        → IfOk result (λ text. SpellsText text scene.now) }
{
    print_whole(alloc, scene)
}
