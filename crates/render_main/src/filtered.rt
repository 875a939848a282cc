//! The run of words, with a member of its chain for each filter that they begin with.
ghost use Rattle.std.specs.Prelude.{◌≡◌, IfOk, IfSome, OnErr, map, string_bytes};
ghost use Rattle.rc_base.specs.Outside.Ends.{use_of};
ghost use Rattle.command_line.specs.Filters.{AreNamed};
ghost use Rattle.run_words.specs.Jobs.{AskFiltered};
ghost use Rattle.render_core.specs.Outcomes.{Ran};
ghost use Rattle.render_main.specs.Members.{AreLeft};

use rc_base::gate::OpenGate;
use rc_base::out_of_memory::OutOfMemory;
use rc_base::outside::{Sink, Source};
use render_core::{Finish, filters, run_filtered};
use spu_chain::{CountSpu, CullSpu, DropSpu, RecolourSpu, Rules, Spu, SpuRule, rules_of};
use std::alloc::Global;
use std::sync::Wait;
use std::thread::Threads;

/// How a run behind filters ended.
#[derive(Drop)]
pub struct Filtered {
    /// Its status, and the record that it keeps.
    pub finish: Finish,
    /// The rules that the members are left with, in their order; none where there was no memory to tell them.
    pub rules: Option<Rules>,
}

// The rules of the filters that the words begin with, and none where they name no chain.
fn named_rules(alloc: Global, words: &[String]) -> Result<Rules, OutOfMemory>
    ensures { IfOk result (AreNamed (map string_bytes words.now)) }
{
    match filters(alloc, words)? {
        Some((rules, _)) => Ok(rules),
        None => Ok(Rules::new(alloc)),
    }
}

// The rules of a chain's members, where there is memory to tell them.
fn told_rules(alloc: Global, chain: &Vec<Box<dyn Spu>>) -> Option<Rules>
    ensures { IfSome result (λ rules. rules ≡ map (λ b. meaning b) chain.now.items) }
{
    rules_of(alloc, chain).ok()
}

/// Carries out the job of the words on these ends as `run_filtered` does, with a member for each filter that they begin with. Each attempt of a step
/// passes an open gate. Where there is no memory for the chain that the words name, no end is called.
pub fn run_with_filters<S: Source, K: Sink, N: Sink, R>(
    rt: R,
    alloc: Global,
    words: &[String],
    source: &mut S,
    image: &mut K,
    notes: &mut N,
) -> Result<Filtered, OutOfMemory>
where
    R: Threads + Wait + Copy + Send + Sync + Drop,
    // What the status says of the words behind the filters, the source's bytes, what image and notes were given, and the record that is kept.
    ensures ran { IfOk result
        (λ it. Ran (AskFiltered words.now) (use_of S.left S.faults source.old source.new)
        (use_of K.held K.faults image.old image.new)
        (use_of N.held N.faults notes.old notes.new) it.finish.status it.finish.kept) }
    // What the members are left with, of which each has begun with the rule of its filter.
    ensures members { IfOk result
        (λ it. IfSome it.rules (AreLeft words.now (use_of S.left S.faults source.old source.new)
        it.finish.status)) }
    ensures unused { OnErr result ((source.new ≡ source.old) × (image.new ≡ image.old) × (notes.new ≡ notes.old)) }
{
    let rules = named_rules(alloc, words)?;
    let mut chain: Vec<Box<dyn Spu>> = Vec::new(alloc);
    for rule in rules.as_slice() {
        match *rule {
            SpuRule::Recolour(tint) => chain.push(Box::new(alloc, RecolourSpu::new(tint))?)?,
            SpuRule::Cull => chain.push(Box::new(alloc, CullSpu)?)?,
            SpuRule::Drop(opcode) => chain.push(Box::new(alloc, DropSpu::new(opcode))?)?,
            SpuRule::Count(count) => chain.push(Box::new(alloc, CountSpu::new(count))?)?,
        }
    }
    let finish = run_filtered(
        rt, alloc, &mut chain, words, source, image, notes, &OpenGate,
    );
    let left = told_rules(alloc, &chain);
    Ok(Filtered {
        finish,
        rules: left,
    })
}
