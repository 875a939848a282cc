//! A chain applied to a scene.
ghost use Rattle.std.specs.Prelude.{◌≡◌, map, IfOk, OnOk, OnErr, IsOk, length};
ghost use Rattle.std.specs.List.{flat_map};
ghost use Rattle.rc_base.specs.Formats.Limits.{commands_in};
ghost use Rattle.spu_chain.specs.Filter.{HaveRoom, AreReached};
ghost use Rattle.spu_chain.specs.Scenes.{streams_by, rules_after_all, scene_by};

use crate::chain::run_chain;
use crate::rule::{Rules, SpuRule};
use crate::spu::Spu;
use rc_base::out_of_memory::OutOfMemory;
use rc_base::scene::{Scene, Streams};
use std::alloc::Global;

// The rule that a member has now.
pub(crate) fn rule_of(member: &Box<dyn Spu>) -> SpuRule
    ensures { result ≡ meaning member.now }
{
    member.rule()
}

/// The rules that the members have now.
pub fn rules_of(alloc: Global, chain: &Vec<Box<dyn Spu>>) -> Result<Rules, OutOfMemory>
    ensures { IfOk result (λ rules. rules ≡ map (λ b. meaning b) chain.now.items) }
{
    let mut rules = Rules::new(alloc);
    for member in chain {
        rules.push(rule_of(member))?;
    }
    Ok(rules)
}

// Gives the streams to the chain, one after the other.
fn pass_streams(
    alloc: Global,
    chain: &mut Vec<Box<dyn Spu>>,
    streams: Streams,
) -> Result<Streams, OutOfMemory>
    requires { HaveRoom (commands_in streams) (map (λ b. meaning b) chain.old.items) }
    ensures given { IfOk result (λ given. given ≡ streams_by (map (λ b. meaning b) chain.old.items) streams) }
    ensures rules { OnOk result (map (λ b. meaning b) chain.new.items ≡ rules_after_all (map (λ b. meaning b) chain.old.items) streams) }
    ensures short { OnErr result (AreReached (map (λ b. meaning b) chain.old.items) (flat_map (λ s. s) streams) (map (λ b. meaning b) chain.new.items)) }
{
    let mut given = Streams::new(alloc);
    for stream in streams.into_vec() {
        given.push(run_chain(alloc, chain, stream)?)?;
    }
    Ok(given)
}

/// The scene that the chain makes of a scene: each client's stream goes through it, clients rising, so that a member counts the commands of all of
/// them. Where there was no memory, the members have the rules that a front of the streams, one behind the other, leaves. A chain without members
/// gives the scene back, and takes no memory.
pub fn filter_scene(
    alloc: Global,
    chain: &mut Vec<Box<dyn Spu>>,
    scene: Scene,
) -> Result<Scene, OutOfMemory>
    requires { HaveRoom (commands_in scene.streams) (map (λ b. meaning b) chain.old.items) }
    ensures given { IfOk result (λ given. given ≡ scene_by (map (λ b. meaning b) chain.old.items) scene) }
    ensures rules { OnOk result (map (λ b. meaning b) chain.new.items ≡ rules_after_all (map (λ b. meaning b) chain.old.items) scene.streams) }
    ensures short { OnErr result (AreReached (map (λ b. meaning b) chain.old.items) (flat_map (λ s. s) scene.streams) (map (λ b. meaning b) chain.new.items)) }
    ensures alone { length chain.old.items ≡ 0 → IsOk result }
{
    if chain.is_empty() {
        return Ok(scene);
    }
    let Scene { decl, streams } = scene;
    let streams = pass_streams(alloc, chain, streams)?;
    Ok(Scene { decl, streams })
}
