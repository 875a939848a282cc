//! Chains of boxed members, and the words that name them.
ghost use Rattle.std.specs.Prelude.{◌≡◌, ◌+◌, length, map, IfOk, IsTrue};
ghost use Rattle.rc_base.specs.Formats.Limits.{commands_in};
ghost use Rattle.spu_chain.specs.Filter.{HaveRoom};

use command_line::filters;
use rc_base::command::{Command, Commands, Rgba};
use rc_base::items::Items;
use rc_base::out_of_memory::OutOfMemory;
use rc_base::scene::{Decl, Scene, Streams};
use spu_chain::{
    CountSpu, CullSpu, DropSpu, RecolourSpu, Spu, SpuRule, filter_scene, has_room, rules_of,
    run_chain,
};
use std::alloc::Global;
use std::process::Abort;

const TINT: Rgba = Rgba {
    r: 128,
    g: 255,
    b: 255,
    a: 255,
};

const SAND: Rgba = Rgba {
    r: 200,
    g: 100,
    b: 50,
    a: 255,
};

// What comes out of a chain, where it has room to count the commands.
fn given(
    rt: &impl Abort,
    alloc: Global,
    chain: &mut Vec<Box<dyn Spu>>,
    commands: Commands,
) -> Commands {
    assert!(rt; has_room(chain, commands.len()));
    run_chain(alloc, chain, commands).expect(rt, "memory")
}

fn listed(rt: &impl Abort, alloc: Global, commands: &[Command]) -> Commands {
    let mut list = Commands::new(alloc);
    for command in commands {
        list.push(command.clone().expect(rt, "memory"))
            .expect(rt, "memory");
    }
    list
}

// Adds the member of a rule.
fn add_member(rt: &impl Abort, alloc: Global, chain: &mut Vec<Box<dyn Spu>>, rule: SpuRule) {
    match rule {
        SpuRule::Recolour(tint) => chain
            .push(Box::new(alloc, RecolourSpu::new(tint)).expect(rt, "memory"))
            .expect(rt, "memory"),
        SpuRule::Cull => chain
            .push(Box::new(alloc, CullSpu).expect(rt, "memory"))
            .expect(rt, "memory"),
        SpuRule::Drop(opcode) => chain
            .push(Box::new(alloc, DropSpu::new(opcode)).expect(rt, "memory"))
            .expect(rt, "memory"),
        SpuRule::Count(count) => chain
            .push(Box::new(alloc, CountSpu::new(count)).expect(rt, "memory"))
            .expect(rt, "memory"),
    }
}

// Adds the members of rules.
fn add_members(rt: &impl Abort, alloc: Global, chain: &mut Vec<Box<dyn Spu>>, rules: &[SpuRule]) {
    for rule in rules {
        add_member(rt, alloc, chain, *rule);
    }
}

// Whether the members have these rules.
fn have(rt: &impl Abort, alloc: Global, chain: &Vec<Box<dyn Spu>>, rules: &[SpuRule]) -> bool {
    rules_of(alloc, chain).expect(rt, "memory").as_slice() == rules
}

// Whether a chain of these rules makes this of the commands, and is left so.
fn makes(
    rt: &impl Abort,
    alloc: Global,
    rules: &[SpuRule],
    commands: &[Command],
    made: &[Command],
    left: &[SpuRule],
) -> bool {
    let mut chain: Vec<Box<dyn Spu>> = Vec::new(alloc);
    add_members(rt, alloc, &mut chain, rules);
    let list = listed(rt, alloc, commands);
    let given = given(rt, alloc, &mut chain, list);
    given.as_slice() == made && have(rt, alloc, &chain, left)
}

const FOUR_RULES: [SpuRule; 4] = [
    SpuRule::Recolour(TINT),
    SpuRule::Drop(0x24),
    SpuRule::Cull,
    SpuRule::Count(0),
];

const LEFT_OF_FOUR: [SpuRule; 4] = [
    SpuRule::Recolour(TINT),
    SpuRule::Drop(0x24),
    SpuRule::Cull,
    SpuRule::Count(3),
];

const COMMANDS: [Command; 4] = [
    Command::Color(SAND),
    Command::Disable { capability: 4 },
    Command::Disable { capability: 3 },
    Command::Swap,
];

const MADE: [Command; 3] = [
    Command::Color(Rgba {
        r: 100,
        g: 100,
        b: 50,
        a: 255,
    }),
    Command::Enable { capability: 4 },
    Command::Disable { capability: 3 },
];

#[test]
fn members_pass_commands_on_in_their_order(rt: HostRuntime) {
    assert!(rt;
        makes(
            &rt,
            rt.alloc(),
            &FOUR_RULES,
            &COMMANDS,
            &MADE,
            &LEFT_OF_FOUR
        )
    );
}

const COUNTS_ROUND_A_DROP: [SpuRule; 3] = [
    SpuRule::Count(5),
    SpuRule::Drop(0x24),
    SpuRule::Count(0),
];

const LEFT_ROUND_A_DROP: [SpuRule; 3] = [SpuRule::Count(9), SpuRule::Drop(0x24), SpuRule::Count(1)];

const THREE_SWAPS: [Command; 4] = [Command::Swap, Command::End, Command::Swap, Command::Swap];

const END_ALONE: [Command; 1] = [Command::End];

#[test]
fn a_count_before_a_drop_counts_what_is_dropped(rt: HostRuntime) {
    let rules = &COUNTS_ROUND_A_DROP;
    let left = &LEFT_ROUND_A_DROP;
    assert!(rt; makes(&rt, rt.alloc(), rules, &THREE_SWAPS, &END_ALONE, left));
}

// The streams of two clients.
fn both(alloc: Global, first: Commands, second: Commands) -> Result<Streams, OutOfMemory>
    ensures { IfOk result (λ s. commands_in s ≡ length first + length second) }
{
    let mut streams = Streams::new(alloc);
    streams.push(first)?;
    streams.push(second)?;
    Ok(streams)
}

// The chain has room to count the commands of these streams, which are so many.
fn has_room_for(chain: &Vec<Box<dyn Spu>>, streams: &Streams, count: usize) -> bool
    requires { commands_in streams.now ≡ count }
    ensures { IsTrue result → HaveRoom (commands_in streams.now) (map (λ b. meaning b) chain.now.items) }
{
    let _streams = streams;
    has_room(chain, count)
}

// The streams that a chain makes of those of two clients with few commands, where it has room to count them.
fn made(
    alloc: Global,
    chain: &mut Vec<Box<dyn Spu>>,
    first: Commands,
    second: Commands,
) -> Result<Option<Streams>, OutOfMemory> {
    let (one, two) = (first.len(), second.len());
    if one > 9 || two > 9 {
        return Ok(None);
    }
    let streams = both(alloc, first, second)?;
    if !has_room_for(chain, &streams, one + two) {
        return Ok(None);
    }
    let decl = Decl {
        version: 1,
        width: 3,
        height: 2,
        shared: Items::new(alloc),
        barriers: Items::new(alloc),
        semaphores: Items::new(alloc),
    };
    let Scene { streams, .. } = filter_scene(alloc, chain, Scene { decl, streams })?;
    Ok(Some(streams))
}

// Whether a chain that counts before it drops Swaps, and again behind, makes of two streams what it should, and its members are left so.
fn counts_on(rt: &impl Abort, alloc: Global) -> bool {
    let mut chain: Vec<Box<dyn Spu>> = Vec::new(alloc);
    add_members(rt, alloc, &mut chain, &COUNTS_ROUND_A_DROP);
    let first = listed(rt, alloc, &[Command::Swap, Command::End]);
    let second = listed(rt, alloc, &[Command::Swap, Command::Swap]);
    match made(alloc, &mut chain, first, second).expect(rt, "memory") {
        Some(made) => {
            have(rt, alloc, &chain, &LEFT_ROUND_A_DROP) && are_end_and_nothing(made.as_slice())
        }
        None => false,
    }
}

// The streams of two clients, an End alone and nothing.
fn are_end_and_nothing(streams: &[Commands]) -> bool {
    match streams {
        [first, second] => first.as_slice() == [Command::End].as_slice() && second.is_empty(),
        _ => false,
    }
}

#[test]
fn a_count_goes_on_from_client_to_client(rt: HostRuntime) {
    assert!(rt; counts_on(&rt, rt.alloc()));
}

// Whether a chain of these rules has room for so many commands.
fn has_room_behind(rt: &impl Abort, alloc: Global, rules: &[SpuRule], count: usize) -> bool {
    let mut chain: Vec<Box<dyn Spu>> = Vec::new(alloc);
    add_members(rt, alloc, &mut chain, rules);
    has_room(&chain, count)
}

const NEARLY_FULL: [SpuRule; 1] = [SpuRule::Count(9_223_372_036_854_775_807)];

#[test]
fn a_count_has_room_up_to_its_last_number(rt: HostRuntime) {
    assert!(rt; has_room_behind(&rt, rt.alloc(), &[], 1));
    assert!(rt; has_room_behind(&rt, rt.alloc(), &NEARLY_FULL, 1));
    assert!(rt; !has_room_behind(&rt, rt.alloc(), &NEARLY_FULL, 2));
}

// Words as the program is given them.
fn texts(rt: &impl Abort, alloc: Global, words: &[&str]) -> Vec<String> {
    let mut all = Vec::new(alloc);
    for word in words {
        let word = String::from_str(alloc, *word).expect(rt, "memory");
        all.push(word).expect(rt, "memory");
    }
    all
}

// The words name a chain of these rules, which takes so many of them.
fn names(rt: &impl Abort, alloc: Global, words: &[&str], rules: &[SpuRule], count: usize) -> bool {
    let words = texts(rt, alloc, words);
    match filters(alloc, words.as_slice()).expect(rt, "memory") {
        Some((named, taken)) => named.as_slice() == rules && taken == count,
        None => false,
    }
}

// The words name no chain.
fn names_none(rt: &impl Abort, alloc: Global, words: &[&str]) -> bool {
    let words = texts(rt, alloc, words);
    filters(alloc, words.as_slice())
        .expect(rt, "memory")
        .is_none()
}

const NAMED: [(&[&str], &[SpuRule], usize); 8] = [
    (&[], &[], 0),
    (&["render"], &[], 0),
    (&["Count", "render"], &[], 0),
    (&["count"], &[SpuRule::Count(0)], 1),
    (
        &["cull", "cull", "serial"],
        &[SpuRule::Cull, SpuRule::Cull],
        2,
    ),
    (
        &["drop", "Swap", "render", "cull"],
        &[SpuRule::Drop(0x24)],
        2,
    ),
    (
        &["drop", "Begin", "drop", "End"],
        &[SpuRule::Drop(1), SpuRule::Drop(2)],
        4,
    ),
    (
        &["recolour", "128", "255", "255", "255", "count", "render"],
        &[SpuRule::Recolour(TINT), SpuRule::Count(0)],
        6,
    ),
];

#[test]
fn leading_words_name_rules(rt: HostRuntime) {
    for (words, rules, count) in &NAMED {
        assert!(rt; names(&rt, rt.alloc(), *words, *rules, *count));
    }
}

const WITHOUT_WORDS: [&[&str]; 11] = [
    &["drop"],
    &["drop", "swap", "render"],
    &["drop", "NewList", "render"],
    &["drop", "36", "render"],
    &["recolour"],
    &["recolour", "1", "2", "render"],
    &["recolour", "1", "2", "3"],
    &["recolour", "1", "2", "3", "256", "render"],
    &["recolour", "01", "2", "3", "4", "render"],
    &["recolour", "1", "2", "3", "-4", "render"],
    &["count", "cull", "recolour", "1", "2", "3"],
];

#[test]
fn a_filter_without_its_words_names_none(rt: HostRuntime) {
    for words in &WITHOUT_WORDS {
        assert!(rt; names_none(&rt, rt.alloc(), *words));
    }
}

#[test]
fn sixteen_filters_are_named_and_seventeen_are_not(rt: HostRuntime) {
    let mut words = ["cull"; 17];
    assert!(rt; names(&rt, rt.alloc(), &words[..16], &[SpuRule::Cull; 16], 16));
    assert!(rt; names_none(&rt, rt.alloc(), &words));
    words[16] = "drop";
    assert!(rt; names_none(&rt, rt.alloc(), &words));
    words[16] = "serial";
    assert!(rt; names(&rt, rt.alloc(), &words, &[SpuRule::Cull; 16], 16));
}
