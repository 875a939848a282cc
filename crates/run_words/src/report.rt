//! The lines of reports: refused commands, what was sent to tiles, the numbers of entries and frames, what filters counted, recorded orders, and who is
//! left waiting.
ghost use Rattle.std.specs.Prelude.{◌≡◌, ◌≤◌, ◌++◌, ◌∷◌, [], length, IfOk, OnOk, string_bytes, if◌then◌else◌};
ghost use Rattle.std.specs.List.{flat_map};
ghost use Rattle.rc_base.specs.Orders.Sync.{client_count};
ghost use Rattle.order_model.specs.Report.{fault_name as name_of_fault, refused_line as line_of_refused, frame_count as count_of_frames, count_lines as lines_of_counts, op_text as text_of_op, order_line as line_of_order, stuck_line as line_of_stuck};
ghost use Rattle.spu_chain.specs.Scenes.{counts_from};
ghost use Rattle.race_check.specs.declared.verdict.Verdict.TheVariants.{Race as IsRace};
ghost use Rattle.run_words.specs.Lines.{filter_line as line_of_filter, filter_lines as lines_of_filters, list_fault_lines as lines_of_list_faults, race_line as line_of_race, spot_text as text_of_spot};
ghost use Rattle.run_words.specs.Reports.{Yields, line_of_tile, line_of_waiting, lines_of_order, lines_of_faults, lines_of_orders, lines_of_run, lines_of_run_with, lines_of_refused, lines_of_stuck, lines_of_tiles, lines_of_turns_with, lines_of_waiting};

use crate::work::Work;
use order_model::record::Record;
use order_model::tile_order;
use race_check::{Spot, Verdict};
use rc_base::cluster::{FaultList, Tally};
use rc_base::command::Bytes;
use rc_base::out_of_memory::OutOfMemory;
use rc_base::state::Fault;
use rc_base::sync::{Entry, Name, SyncOp, WaitAt, Waiting};
use spu_chain::SpuRule;
use std::alloc::{AllocError, Global};

fn fault_name(fault: Fault) -> &'static str
    ensures { result.now ≡ name_of_fault fault }
{
    match fault {
        Fault::InvalidEnum => "INVALID_ENUM",
        Fault::InvalidValue => "INVALID_VALUE",
        Fault::InvalidOperation => "INVALID_OPERATION",
        Fault::StackOverflow => "STACK_OVERFLOW",
        Fault::StackUnderflow => "STACK_UNDERFLOW",
    }
}

// The line of a refused command of a client, with a word for what refused it.
fn refused_line(
    alloc: Global,
    word: &str,
    client: u8,
    refused: &(u32, Fault),
) -> Result<String, AllocError>
    ensures { IfOk result (λ l. string_bytes l ≡ line_of_refused word.now client refused.now) }
{
    let place = refused.0;
    let name = fault_name(refused.1);
    format!(in alloc; "client {client}{word}{name} at {place}\n")
}

// Bytes of a line with the longest name of a fault and a place of seven digits.
const LINE_ROOM: usize = 49;

// The lines of a client's refused commands, in the order in which they are given.
fn client_lines(
    alloc: Global,
    word: &str,
    client: u8,
    faults: &[(u32, Fault)],
) -> Result<Bytes, AllocError>
    ensures { IfOk result (λ lines. lines ≡ flat_map (line_of_refused word.now client) faults.now) }
{
    let mut lines = Bytes::with_capacity(alloc, faults.len().saturating_mul(LINE_ROOM))?;
    for refused in faults {
        let line = refused_line(alloc, word, client, refused)?;
        lines.extend_from_slice(line.as_bytes())?;
    }
    Ok(lines)
}

// The lines of all clients' refused commands.
fn refused_lines(alloc: Global, word: &str, faults: &[FaultList]) -> Result<Bytes, AllocError>
    requires { length faults.now ≤ 8 }
    ensures { IfOk result (λ lines. lines ≡ lines_of_refused word.now faults.now) }
{
    let mut lines = Bytes::new(alloc);
    for client in 0..faults.len() {
        lines.append(client_lines(alloc, word, client as u8, faults[client].as_slice())?)?;
    }
    Ok(lines)
}

/// The lines of the commands that are refused among call lists, by client.
pub fn list_fault_lines(alloc: Global, faults: &[FaultList]) -> Result<Bytes, AllocError>
    requires { length faults.now ≤ 8 }
    ensures { IfOk result (λ lines. lines ≡ lines_of_list_faults faults.now) }
{
    refused_lines(alloc, " list fault ", faults)
}

// The lines of the commands that are refused where they are issued.
fn fault_lines(alloc: Global, faults: &[FaultList]) -> Result<Bytes, AllocError>
    requires { length faults.now ≤ 8 }
    ensures { IfOk result (λ lines. lines ≡ lines_of_faults faults.now) }
{
    refused_lines(alloc, " fault ", faults)
}

// The line of a filter that counts.
fn filter_line(alloc: Global, filter: usize, count: u64) -> Result<String, AllocError>
    ensures { IfOk result (λ line. string_bytes line ≡ line_of_filter (filter, count)) }
{
    format!(in alloc; "filter {filter} count {count}\n")
}

// The line of a filter if it counts, and else nothing.
fn counted_lines(alloc: Global, filter: usize, rule: SpuRule) -> Result<Bytes, AllocError>
    ensures { IfOk result (λ lines. lines ≡ lines_of_filters (counts_from filter (rule ∷ []))) }
{
    match rule {
        SpuRule::Count(count) => {
            let line = filter_line(alloc, filter, count)?;
            Bytes::from_slice(alloc, line.as_bytes())
        }
        SpuRule::Recolour(_) | SpuRule::Cull | SpuRule::Drop(_) => Ok(Bytes::new(alloc)),
    }
}

/// The lines of the filters that count, in their order.
pub fn filter_lines(alloc: Global, rules: &[SpuRule]) -> Result<Bytes, AllocError>
    ensures { IfOk result (λ lines. lines ≡ lines_of_filters (counts_from 0 rules.now)) }
{
    let mut lines = Bytes::new(alloc);
    for filter in 0..rules.len() {
        let rule = &rules[filter];
        lines.append(counted_lines(alloc, filter, *rule)?)?;
    }
    Ok(lines)
}

// The frames of a journal: its Swaps.
fn frame_count(journal: &[Entry]) -> usize
    ensures { result ≡ count_of_frames journal.now }
{
    journal
        .iter()
        .filter(|entry| matches!(entry, Entry::Swap))
        .count()
}

// How many entries a journal has, and how many frames.
fn count_lines(alloc: Global, journal: &[Entry]) -> Result<String, AllocError>
    ensures { IfOk result (λ lines. string_bytes lines ≡ lines_of_counts journal.now) }
{
    let entries = journal.len();
    let frames = frame_count(journal);
    format!(in alloc; "journal {entries}\nframes {frames}\n")
}

// An operation of synchronisation, in words.
fn op_text(alloc: Global, op: SyncOp) -> Result<String, AllocError>
    ensures { IfOk result (λ text. string_bytes text ≡ text_of_op op) }
{
    match op {
        SyncOp::Swap => String::from_str(alloc, "Swap"),
        SyncOp::Barrier(n) => format!(in alloc; "Barrier {n}"),
        SyncOp::SemP(n) => format!(in alloc; "SemP {n}"),
        SyncOp::SemV(n) => format!(in alloc; "SemV {n}"),
    }
}

// The line of a client that is left waiting.
fn stuck_line(alloc: Global, client: u8, wait: WaitAt) -> Result<String, AllocError>
    ensures { IfOk result (λ line. string_bytes line ≡ line_of_stuck client wait) }
{
    let place = wait.place;
    let op = op_text(alloc, wait.op)?;
    let op = op.as_str();
    format!(in alloc; "stuck client {client} at {place} {op}\n")
}

// The line of a client, if it is left waiting.
fn waiting_line(
    alloc: Global,
    lines: &mut Bytes,
    client: u8,
    wait: &Option<WaitAt>,
) -> Result<(), AllocError>
    ensures { OnOk result (lines.new ≡ lines.old ++ line_of_waiting client wait.now) }
{
    if let Some(wait) = wait {
        let line = stuck_line(alloc, client, *wait)?;
        lines.extend_from_slice(line.as_bytes())?;
    }
    Ok(())
}

// The lines of the first clients that are left waiting.
fn waiting_lines(alloc: Global, at: &[Option<WaitAt>], clients: usize) -> Result<Bytes, AllocError>
    requires some { clients ≤ length at.now }
    requires few { length at.now ≤ 8 }
    ensures { IfOk result (λ lines. lines ≡ lines_of_waiting at.now clients) }
{
    let mut lines = Bytes::new(alloc);
    for client in 0..clients {
        waiting_line(alloc, &mut lines, client as u8, &at[client])?;
    }
    Ok(lines)
}

// Who is left waiting, and the refusal behind it.
fn stuck_lines(
    alloc: Global,
    waiting: &Option<Waiting>,
    clients: usize,
) -> Result<Bytes, AllocError>
    requires { clients ≤ 8 }
    ensures { IfOk result (λ lines. lines ≡ lines_of_stuck waiting.now clients) }
{
    match waiting {
        Some(waiting) => {
            let mut lines = waiting_lines(alloc, &waiting.at, clients)?;
            lines.extend_from_slice(b"rc: stuck\n")?;
            Ok(lines)
        }
        None => Ok(Bytes::new(alloc)),
    }
}

/// The short report, by a journal: these lines of what was refused before the run, each client's refused commands, the numbers of entries and frames,
/// these lines of what filters counted, what else is told, and who is left waiting.
pub fn short_report(
    alloc: Global,
    refused: &[u8],
    counted: &[u8],
    faults: &[FaultList],
    journal: &[Entry],
    told: &[u8],
    waiting: &Option<Waiting>,
) -> Result<Bytes, AllocError>
    requires { length faults.now ≤ 8 }
    ensures { Yields
        (lines_of_turns_with refused.now counted.now faults.now journal.now told.now waiting.now)
        result }
{
    let mut report = Bytes::from_slice(alloc, refused)?;
    let faulty = fault_lines(alloc, faults)?;
    let counts = count_lines(alloc, journal)?;
    let stuck = stuck_lines(alloc, waiting, faults.len())?;
    report.append(faulty)?;
    report.extend_from_slice(counts.as_bytes())?;
    report.extend_from_slice(counted)?;
    report.extend_from_slice(told)?;
    report.append(stuck)?;
    Ok(report)
}

// Where two commands touch the same.
fn spot_text(alloc: Global, spot: Spot) -> Result<String, AllocError>
    ensures { IfOk result (λ text. string_bytes text ≡ text_of_spot spot) }
{
    match spot {
        Spot::Pixel { x, y } => format!(in alloc; "pixel {x} {y}"),
        Spot::Shared(texture) => format!(in alloc; "shared {texture}"),
    }
}

// The line of two commands that race.
fn pair_line(alloc: Global, first: Name, second: Name, spot: Spot) -> Result<String, AllocError>
    ensures { IfOk result (λ line. string_bytes line ≡ line_of_race (IsRace first second spot)) }
{
    let Name { client, place } = first;
    let other = second.client;
    let behind = second.place;
    let spot = spot_text(alloc, spot)?;
    let spot = spot.as_str();
    format!(in alloc; "race {client} {place} {other} {behind} {spot}\n")
}

/// The line of a verdict.
pub fn race_line(alloc: Global, verdict: &Verdict) -> Result<String, AllocError>
    ensures { IfOk result (λ line. string_bytes line ≡ line_of_race verdict.now) }
{
    match *verdict {
        Verdict::Ordered => String::from_str(alloc, "race none\n"),
        Verdict::Race {
            first,
            second,
            spot,
        } => pair_line(alloc, first, second, spot),
    }
}

// ---- clusters

// The line of a tile: how many parcels were sent to it, how many sets, and how many looks they cost.
fn tile_line(alloc: Global, tile: usize, tally: &Tally) -> Result<String, AllocError>
    ensures { IfOk result (λ line. string_bytes line ≡ line_of_tile tile tally.now) }
{
    let parcels = tally.parcels;
    let sets = tally.sets;
    let looks = tally.looks;
    format!(in alloc; "tile {tile} parcels {parcels} sets {sets} looks {looks}\n")
}

// The lines of all tiles.
fn tile_lines(alloc: Global, tallies: &[Tally]) -> Result<Bytes, AllocError>
    ensures { IfOk result (λ lines. lines ≡ lines_of_tiles tallies.now) }
{
    let mut lines = Bytes::new(alloc);
    for tile in 0..tallies.len() {
        let line = tile_line(alloc, tile, &tallies[tile])?;
        lines.extend_from_slice(line.as_bytes())?;
    }
    Ok(lines)
}

// The line of a command in the order of a tile.
fn order_line(alloc: Global, tile: u8, name: &Name) -> Result<String, AllocError>
    ensures { IfOk result (λ line. string_bytes line ≡ line_of_order tile name.now) }
{
    let client = name.client;
    let place = name.place;
    format!(in alloc; "order {tile} {client} {place}\n")
}

// The lines of an order of a tile.
fn lines_of(alloc: Global, tile: u8, order: &[Name]) -> Result<Bytes, AllocError>
    ensures { IfOk result (λ lines. lines ≡ flat_map (line_of_order tile) order.now) }
{
    let mut lines = Bytes::new(alloc);
    for name in order {
        let line = order_line(alloc, tile, name)?;
        lines.extend_from_slice(line.as_bytes())?;
    }
    Ok(lines)
}

// The lines of the order that a tile's log records.
fn recorded_lines(alloc: Global, kept: &Record, tile: u8) -> Result<Bytes, OutOfMemory>
    requires { client_count kept.now.syncs ≤ 8 }
    ensures { IfOk result (λ lines. lines ≡ lines_of_order kept.now tile) }
{
    let order = tile_order(alloc, kept, tile)?;
    Ok(lines_of(alloc, tile, order.as_slice())?)
}

// The lines of all recorded orders.
fn order_lines(alloc: Global, kept: &Record) -> Result<Bytes, OutOfMemory>
    requires clients { client_count kept.now.syncs ≤ 8 }
    requires tiles { length kept.now.logs ≤ 32 }
    ensures { IfOk result (λ lines. lines ≡ lines_of_orders kept.now) }
{
    let mut lines = Bytes::new(alloc);
    for tile in 0..kept.logs.len() {
        lines.append(recorded_lines(alloc, kept, tile as u8)?)?;
    }
    Ok(lines)
}

// The lines of all recorded orders, where they are asked for.
fn asked_lines(alloc: Global, kept: &Record, orders: bool) -> Result<Bytes, OutOfMemory>
    requires clients { client_count kept.now.syncs ≤ 8 }
    requires tiles { length kept.now.logs ≤ 32 }
    ensures { IfOk result (λ lines. lines ≡ (if orders then lines_of_orders kept.now else [])) }
{
    if orders {
        order_lines(alloc, kept)
    } else {
        Ok(Bytes::new(alloc))
    }
}

/// The report of a cluster's run, with these lines of what was refused before the run and of what filters counted.
pub fn cluster_report_with(
    alloc: Global,
    refused: &[u8],
    counted: &[u8],
    faults: &[FaultList],
    tallies: &[Tally],
    kept: &Record,
    waiting: &Option<Waiting>,
    orders: bool,
) -> Result<Bytes, OutOfMemory>
    requires faults { length faults.now ≤ 8 }
    requires clients { client_count kept.now.syncs ≤ 8 }
    requires tiles { length kept.now.logs ≤ 32 }
    ensures { Yields
        (lines_of_run_with refused.now counted.now faults.now tallies.now kept.now waiting.now orders)
        result }
{
    let mut report = Bytes::from_slice(alloc, refused)?;
    let faulty = fault_lines(alloc, faults)?;
    let tiles = tile_lines(alloc, tallies)?;
    let counts = count_lines(alloc, kept.journal.as_slice())?;
    let recorded = asked_lines(alloc, kept, orders)?;
    let stuck = stuck_lines(alloc, waiting, faults.len())?;
    report.append(faulty)?;
    report.append(tiles)?;
    report.extend_from_slice(counts.as_bytes())?;
    report.extend_from_slice(counted)?;
    report.append(recorded)?;
    report.append(stuck)?;
    Ok(report)
}

/// The report of a cluster's run: what was refused before it, each client's refused commands, how much was sent to each tile, the numbers of entries and
/// frames, what filters counted, where they are asked for the recorded orders, and who is left waiting.
pub fn cluster_report(
    alloc: Global,
    work: &Work,
    faults: &[FaultList],
    tallies: &[Tally],
    kept: &Record,
    waiting: &Option<Waiting>,
    orders: bool,
) -> Result<Bytes, OutOfMemory>
    requires faults { length faults.now ≤ 8 }
    requires clients { client_count kept.now.syncs ≤ 8 }
    requires tiles { length kept.now.logs ≤ 32 }
    ensures { Yields (lines_of_run work.now faults.now tallies.now kept.now waiting.now orders) result }
{
    cluster_report_with(
        alloc,
        work.refused.as_slice(),
        work.counted.as_slice(),
        faults,
        tallies,
        kept,
        waiting,
        orders,
    )
}
