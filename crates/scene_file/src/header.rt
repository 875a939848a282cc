//! The header of a scene.
ghost use Rattle.std.specs.Prelude.{◌≡◌, ◌↔◌, ◌++◌, IsTrue, IfOk, IfErr};
ghost use Rattle.byte_codec.specs.Reading.{Gives, Reads};
ghost use Rattle.rc_base.specs.Formats.Spelling.{IsVersion, magic, list_magic};
ghost use Rattle.scene_file.specs.Reading.{read_half, read_size, read_times, read_head};
ghost use Rattle.scene_file.specs.Letters.{BeginWithLists, Letters, plain_letters, list_letters};
ghost use Rattle.scene_file.specs.Faults.{LettersFailBy, MagicFailsBy};

use crate::fault::Broken;
use byte_codec::fault::{Form, ReadError};
use byte_codec::fields::{read_byte, read_half, take_bytes};
use command_store::StoreWriter;
use rc_base::command::Command;
use rc_base::list_command::ListCommand;
use rc_base::scene::{Counts, Decl, SceneKind, Sizes, Units};
use std::alloc::Global;

/// What the header says.
#[derive(Debug, Drop)]
pub struct Head {
    pub decl: Decl,
    pub clients: u8,
}

const R: u8 = 0x52;

const C: u8 = 0x43;

const S: u8 = 0x53;

/// The letters RCS, with which a scene begins. The digit of its version follows.
pub const LETTERS: [u8; 3] = [R, C, S];

// The digit of scenes with call lists.
const LIST_DIGIT: u8 = 0x33;

/// The letters RCS3, with which a scene with call lists begins.
const LIST_LETTERS: [u8; 4] = [R, C, S, LIST_DIGIT];

/// The bytes begin as those of a scene with call lists do, with the letters RCS3.
pub fn begins_with_lists(bytes: &[u8]) -> bool
    ensures { IsTrue result ↔ BeginWithLists bytes.now }
{
    matches!(bytes, [R, C, S, LIST_DIGIT, ..])
}

/// The letters and the digit with which a scene of this version begins; a number that is no version has no digit, and is written as 1.
pub fn magic_of(version: u8) -> [u8; 4]
    ensures { IsVersion version → result ≡ magic version }
{
    let digit = if version == 2 { 0x32 } else { 0x31 };
    [R, C, S, digit]
}

/// What stands behind these letters.
pub fn read_letters<'a>(letters: &[u8], bytes: &'a [u8]) -> Result<&'a [u8], Broken>
    ensures found { IfOk result (λ rest. bytes.now ≡ letters.now ++ rest.now) }
    ensures fails { IfErr result (LettersFailBy letters.now bytes.now) }
{
    let mut rest = bytes;
    for letter in letters {
        match rest {
            [] => {
                return Err(Broken::Form {
                    kind: SceneKind::Truncated,
                    left: 0,
                });
            }
            [first, after @ ..] => {
                if *first != *letter {
                    return Err(Broken::Form {
                        kind: SceneKind::BadMagic,
                        left: rest.len(),
                    });
                }
                rest = after;
            }
        }
    }
    Ok(rest)
}

/// The version of a scene by its digit, and what stands behind it.
fn read_magic(bytes: &[u8]) -> Result<(u8, &[u8]), Broken>
    ensures found { IfOk result (λ x. IsVersion x.0 × (bytes.now ≡ magic x.0 ++ x.1.now)) }
    ensures fails { IfErr result (MagicFailsBy plain_letters bytes.now) }
{
    let rest = read_letters(&LETTERS, bytes)?;
    match rest {
        [] => Err(Broken::Form {
            kind: SceneKind::Truncated,
            left: 0,
        }),
        [digit, after @ ..] => {
            if *digit == 0x31 {
                return Ok((1, after));
            }
            if *digit == 0x32 {
                return Ok((2, after));
            }
            Err(Broken::Form {
                kind: SceneKind::BadMagic,
                left: rest.len(),
            })
        }
    }
}

/// Version 2, by which a scene with call lists draws, and what stands behind its letters.
fn read_list_magic(bytes: &[u8]) -> Result<(u8, &[u8]), Broken>
    ensures found { IfOk result (λ x. (x.0 ≡ 2) × (bytes.now ≡ list_magic ++ x.1.now)) }
    ensures fails { IfErr result (MagicFailsBy list_letters bytes.now) }
{
    let rest = read_letters(&LIST_LETTERS, bytes)?;
    Ok((2, rest))
}

/// A list for the streams of scenes that begin with letters of their own.
pub(crate) trait BeginsScene: Sized {
    /// The letters, and the versions by which these scenes draw.
    ghost letters: { Letters };

    /// The version of a scene by its letters, and what stands behind them.
    fn read_magic(bytes: &[u8]) -> Result<(u8, &[u8]), Broken>
        ensures found { IfOk result (λ x. letters.IsDrawn x.0
            × (bytes.now ≡ letters.begins x.0 ++ x.1.now)) }
        ensures fails { IfErr result (MagicFailsBy letters bytes.now) };
}

impl BeginsScene for Vec<Command> {
    ghost letters = { plain_letters };

    fn read_magic(bytes: &[u8]) -> Result<(u8, &[u8]), Broken> {
        read_magic(bytes)
    }
}

impl BeginsScene for StoreWriter {
    ghost letters = { plain_letters };

    fn read_magic(bytes: &[u8]) -> Result<(u8, &[u8]), Broken> {
        read_magic(bytes)
    }
}

impl BeginsScene for Vec<ListCommand> {
    ghost letters = { list_letters };

    fn read_magic(bytes: &[u8]) -> Result<(u8, &[u8]), Broken> {
        read_list_magic(bytes)
    }
}

#[tactic(auto, unfolding(crate::specs::Reading::read_size))]
fn read_size(bytes: &[u8]) -> Result<([u16; 2], &[u8]), Form>
    ensures { Reads (λ x. (x.0, x.1.now)) result (read_size bytes.now) }
{
    let (width, rest) = read_half(bytes)?;
    let (height, rest) = read_half(rest)?;
    Ok(([width, height], rest))
}

fn read_sizes(alloc: Global, count: u8, bytes: &[u8]) -> Result<(Sizes, &[u8]), ReadError>
    ensures { Gives (λ x. (x.0, x.1.now)) result (read_times read_size count bytes.now) }
{
    let mut sizes = Sizes::new(alloc);
    let mut rest = bytes;
    for _ in 0..count {
        let (size, after) = read_size(rest)?;
        sizes.push(size)?;
        rest = after;
    }
    Ok((sizes, rest))
}

fn read_units(alloc: Global, count: u8, bytes: &[u8]) -> Result<(Units, &[u8]), ReadError>
    ensures { Gives (λ x. (x.0, x.1.now)) result (read_times read_half count bytes.now) }
{
    let mut units = Units::new(alloc);
    let mut rest = bytes;
    for _ in 0..count {
        let (unit, after) = read_half(rest)?;
        units.push(unit)?;
        rest = after;
    }
    Ok((units, rest))
}

/// What the header says behind its letters, and the bytes behind the header.
#[tactic(auto, unfolding(crate::specs::Reading::read_head))]
pub fn read_head(alloc: Global, version: u8, bytes: &[u8]) -> Result<(Head, &[u8]), ReadError>
    ensures { Gives (λ x. (x.0, x.1.now)) result (read_head version bytes.now) }
{
    let (width, rest) = read_half(bytes)?;
    let (height, rest) = read_half(rest)?;
    let (clients, rest) = read_byte(rest)?;
    let (shared, rest) = read_byte(rest)?;
    let (barriers, rest) = read_byte(rest)?;
    let (semaphores, rest) = read_byte(rest)?;
    let (shared, rest) = read_sizes(alloc, shared, rest)?;
    let (barriers, rest) = take_bytes(barriers as usize, rest)?;
    let barriers = Counts::from_slice(alloc, barriers)?;
    let (semaphores, rest) = read_units(alloc, semaphores, rest)?;
    let decl = Decl {
        version,
        width,
        height,
        shared,
        barriers,
        semaphores,
    };
    Ok((Head { decl, clients }, rest))
}
