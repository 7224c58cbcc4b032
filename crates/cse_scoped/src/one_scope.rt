// One scope of the scoped form on words, `cse_scope` of the source (01, "Scoped fusion"): rounds, reciprocals, switches
// outside arms fused by group into matches, each arm a scope of its own, and the statements in the order of their
// needs. An arm's scope works in the part of the work area after its caller's words. Arms are done first, which finds
// every refusal before anything is written, and their rows are kept; those that there is no room to keep are made again
// where they are written, if the table has room for them.
ghost use Rattle.std.specs.Prelude.{◌≡◌, ◌+◌, ◌-◌, ◌*◌, ◌≤◌, ◌<◌, length, get_or, take, drop, T};
ghost use Rattle.std.proofs.Math.Option.{some};
ghost use Rattle.spec_tree.specs.Tokens.{trees_in};
ghost use Rattle.words.specs.words.Words.{some_trees};
ghost use Rattle.fmt.specs.checked.Check.{rows_in};
ghost use Rattle.laws.specs.positions.Names.{is_number, symbols_pass};
ghost use Rattle.rounds.specs.kept.Sound.{extractable};
ghost use Rattle.reciprocals.specs.reciprocal.Bindings.{all_there};
ghost use Rattle.laws.specs.switches.Switches.{arm_count, switch_places};
ghost use Rattle.laws.specs.switches.Columns.{column_words};
ghost use Rattle.fusion.specs.Words.{numbers_from};
ghost use Rattle.fusion.specs.place.Overlay.{overlay};
ghost use Rattle.fusion.specs.place.Parts.{place_groups, group_start, match_run, reciprocals_first, words_held, held_words};
ghost use Rattle.fusion.specs.place.Whole.{arms_told, group_told, stmts_count, stmt_run, stmts_runs, scope_told};
ghost use Rattle.cse_scoped.specs.one_scope.Answers.{scope_answer, Laid, ScopeLaid, told_rows, inner, arm_told, arms_answer, ArmsWrote, walk_answer, WalkWrote, words_of, HoldingSo, scope_named, arms_named, walk_named, CopiedSo, SwitchesSo};
ghost use Rattle.cse_scoped.specs.one_scope.Frame.{most_rows, Lent, Holds, IsGroup, ArmFits, ArmsFit, Members, groups_told, Ready, grouped_scope, Sized, Numbered, group_again, GroupSized, scope_arms, Positions, Left, left_scope, GroupingSo, FoundSo, SwitchRoom, Room};
ghost use Rattle.cse_scoped.specs.one_scope.Parts.{after_lets, IsPrepared, IsGrouped, IsSized, AreNumbered, statement_count, rows_of_statement, rows_of_statements, rows_of_match, outcome_of};
ghost use Rattle.statements.specs.Prepared.{Prepared, Grouped, begin_of};

use cse_flat::extract_and_list;
use fusion::groups::{copy_column, group_switches};
use fusion::switches::{SwitchError, list_switches};
use fusion::tables::{put, put_word};
use refusal::Refusal;
use statements::holding::{HoldError, hold};
use statements::{order_stmts, write_let, write_match_head, write_values};
use topo_sort::treelist::list_trees;
use words::fault::Fault;
use words::layout::{ARM, KINDS, VALUE};
use words::tokens::{count_trees, operand_count};

// The most words of a scope's input, and of what its rounds leave.
const MOST: usize = 1927;

// The words of the whole work area.
const AREA: usize = 65536;

// The most switches outside arms.
const MOST_SWITCHES: usize = 3640;

// The most statements of a scope.
const MOST_STMTS: usize = 2048;

// The rows of arms that a scope keeps.
const KEPT: usize = 2048;

// Most scopes are given and hold no more words than this: with short arrays for what is as many at most, and for the
// rows of their arms, nothing long is cleared.
const FEW: usize = 128;

const FEW_KEPT: usize = 512;

// The largest number that a scope may start with.
const MOST_NUMBER: u64 = 2147483648;

// A scope's rows: the place after them, its statements, the next number and the extraction count.
#[derive(Clone, Copy, Debug, PartialEq, Eq)]
pub struct ScopeRows {
    pub end: usize,
    pub statements: usize,
    pub next: u64,
    pub extracted: usize,
}

// The rows of arms: the place after them, the next number and the extraction count.
#[derive(Clone, Copy, Debug, PartialEq, Eq)]
struct ArmRows {
    end: usize,
    next: u64,
    extracted: usize,
}

// The groups of a scope with their arms: the next number and the extraction count.
#[derive(Clone, Copy, Debug, PartialEq, Eq)]
struct GroupsWalked {
    next: u64,
    extracted: usize,
}

// The groups of a scope's switches: how many members all have, and how many groups there are.
#[derive(Clone, Copy, Debug, PartialEq, Eq)]
struct Found {
    members: usize,
    groups: usize,
}

// What a scope's rows are made of once its arms are done, besides what it holds: that stands in front of the work area,
// whose rest its arms work in.
#[derive(Clone, Copy)]
struct Parts<'a> {
    // The words that its rounds leave: so many results, and then the lets by number from `first` on.
    tokens: &'a [u64],
    results: usize,
    first: u64,
    // Where the divisors to bind stand in them.
    places: &'a [u64],
    // Where its results and lets begin in what it holds, and so the members of its groups, one group after another.
    starts: &'a [u64],
    members: &'a [u64],
    // Where each group ends among the members, and their numbers.
    ends: &'a [u64],
    numbers: &'a [u64],
    // The rows of the groups' arms that are kept, and where each group's end among those of all.
    kept: &'a [u64],
    stops: &'a [u64],
}

// The words of one arm of each member, after what is held in the work area: how many they are, if there is room for
// them and they can be worked on.
fn copy_arm(work: &mut [u64], h: usize, group: &[u64], a: usize) -> Option<usize>
    requires { (h ≤ length work.old) × IsGroup (take h work.old) group.now × (a < arm_count (take h work.old) (get_or group.now 0 0)) × T (some_trees (trees_in (take h work.old))) }
    ensures { CopiedSo (column_words (take h work.old) group.now a) result (drop h work.new) × (take h work.new ≡ take h work.old) }
{
    let room = MOST.min(work.len() - h);
    let (held, rest) = work.split_at_mut(h);
    match copy_column(held, group, a, &mut rest[..room]) {
        Ok(n) => Some(n),
        Err(Fault::NoRoom) => None,
        Err(Fault::Broken) => unreachable!(),
    }
}

// How many trees some words are.
fn tree_count(tokens: &[u64]) -> usize
    requires { T (some_trees (trees_in tokens.now)) }
    ensures { trees_in tokens.now ≡ some result }
{
    let Some(count) = count_trees(tokens) else {
        unreachable!()
    };
    count
}

// What the scope holds, at the front of `held`.
fn hold_all(tokens: &[u64], places: &[u64], number: u64, held: &mut [u64]) -> Option<usize>
    requires t { T (some_trees (trees_in tokens.now)) × T (all_there tokens.now places.now) }
    requires tokens_len_bound { (length tokens.now ≤ 1927) × (length places.now ≤ 1927) × (number ≤ 4294967296) × (length tokens.now ≤ length held.old) }
    ensures { HoldingSo (words_held tokens.now number places.now) result held.new }
{
    match hold(tokens, places, number, held) {
        Ok(n) => Some(n),
        Err(HoldError::TooMany) => None,
        Err(HoldError::Broken) => unreachable!(),
        Err(HoldError::NoRoom) => unreachable!(),
    }
}

// The switches of words, at the front of `places`. The marks are for the work; where they are too few, more are lent.
// Since this function calls itself, the compiler keeps its frame apart from its caller's, so that these marks are on
// the stack only while switches are listed.
fn list_all(held: &[u64], marks: &mut [u64], places: &mut [u64]) -> Option<usize>
    requires { T (some_trees (trees_in held.now)) × (length held.now ≤ 65536) }
    ensures { SwitchesSo held.now result places.new }
{
    if marks.len() < held.len() {
        let mut more = [0u64; AREA];
        return list_all(held, &mut more, places);
    }
    match list_switches(held, marks, places) {
        Ok(n) => Some(n),
        Err(SwitchError::TooMany) => None,
        Err(SwitchError::Broken) => unreachable!(),
        Err(SwitchError::NoRoom) => unreachable!(),
    }
}

// The groups of these switches, which can be made.
fn group_listed(held: &[u64], places: &[u64], members: &mut [u64], ends: &mut [u64]) -> usize
    requires t { T (some_trees (trees_in held.now)) × (places.now ≡ switch_places held.now) }
    requires places_in_bounds { (length places.now ≤ length members.old) × (length places.now ≤ length ends.old) }
    ensures { GroupingSo held.now (length places.now) result members.new ends.new }
{
    match group_switches(held, places, members, ends) {
        Ok(n) => n,
        Err(Fault::Broken) => unreachable!(),
        Err(Fault::NoRoom) => unreachable!(),
    }
}

// The groups of the switches of words: all members at the front of `members`, and where each group ends among them at
// the front of `ends`. Before the groups are made, `members` is for the work, and the switches stand in `switches`.
fn group_all(
    held: &[u64],
    switches: &mut [u64],
    members: &mut [u64],
    ends: &mut [u64],
) -> Option<Found>
    requires t { T (some_trees (trees_in held.now)) × (length held.now ≤ 65536) }
    requires switch_room { SwitchRoom held.now switches.old × (length members.old ≡ length switches.old) × (length ends.old ≡ length switches.old) }
    ensures { FoundSo held.now result members.new ends.new }
{
    let count = list_all(held, members, switches)?;
    let groups = group_listed(held, &switches[..count], members, ends);
    Some(Found {
        members: count,
        groups,
    })
}

// Where group g begins among the members.
fn group_begin(ends: &[u64], g: usize) -> usize
    requires { g < length ends.now }
    ensures { result ≡ begin_of ends.now g }
{
    if g == 0 { 0 } else { ends[g - 1] as usize }
}

// How many arms each switch of a group has.
fn count_arms(held: &[u64], group: &[u64]) -> usize
    requires { IsGroup held.now group.now × (length held.now ≤ 65536) × T (some_trees (trees_in held.now)) }
    ensures { result ≡ arm_count held.now (get_or group.now 0 0) }
{
    let opener = group[0] as usize;
    operand_count(held[opener]) as usize - 1
}

// One arm of a group: its words are a scope of their own, in the work area, and its row stands before theirs.
#[cycle(scope)]
fn arm(
    rows: &[u64],
    work: &mut [u64],
    h: usize,
    group: &[u64],
    a: usize,
    fuel: usize,
    next: u64,
    text: &mut [u8],
    at: usize,
    table: &mut [u64],
) -> Result<ArmRows, Refusal>
    requires lent { Lent h work.old text.old × Holds (rows_in rows.now) next (take h work.old) }
    requires is_group { IsGroup (take h work.old) group.now × (a < arm_count (take h work.old) (get_or group.now 0 0)) }
    requires arm_fits { ArmFits (rows_in rows.now) fuel (length work.old - h) (take h work.old) group.now next a at }
    ensures value { (arms_named result ≡ arms_answer (arm_told (inner (rows_in rows.now) fuel (length work.old - h)) (take h work.old) group.now next a) at)
        × ArmsWrote (arm_told (inner (rows_in rows.now) fuel (length work.old - h)) (take h work.old) group.now next a) at table.old table.new }
    ensures work_unchanged { take h work.new ≡ take h work.old }
{
    if fuel == 0 {
        return Err(Refusal::LargeScopes);
    }
    let Some(n) = copy_arm(work, h, group, a) else {
        return Err(Refusal::LargeScopes);
    };
    let scope = scope(
        rows,
        &mut work[h..],
        n,
        fuel,
        VALUE,
        next,
        text,
        at + 1,
        table,
    )?;
    let size = scope.statements as u64 + group.len() as u64;
    put_word(ARM + KINDS * size, at, table);
    Ok(ArmRows {
        end: scope.end,
        next: scope.next,
        extracted: scope.extracted,
    })
}

// All arms of a group, one after another.
#[cycle(scope)]
fn arms(
    rows: &[u64],
    work: &mut [u64],
    h: usize,
    group: &[u64],
    fuel: usize,
    next: u64,
    text: &mut [u8],
    at: usize,
    table: &mut [u64],
) -> Result<ArmRows, Refusal>
    requires lent { Lent h work.old text.old × Holds (rows_in rows.now) next (take h work.old) }
    requires is_group { IsGroup (take h work.old) group.now }
    requires arms_fit { ArmsFit (rows_in rows.now) fuel (length work.old - h) (take h work.old) group.now next at × (at ≤ most_rows) }
    ensures value { (arms_named result ≡ arms_answer (arms_told (inner (rows_in rows.now) fuel (length work.old - h)) (take h work.old) group.now next (arm_count (take h work.old) (get_or group.now 0 0))) at)
        × ArmsWrote (arms_told (inner (rows_in rows.now) fuel (length work.old - h)) (take h work.old) group.now next (arm_count (take h work.old) (get_or group.now 0 0))) at table.old table.new }
    ensures work_unchanged { take h work.new ≡ take h work.old }
{
    let count = count_arms(&work[..h], group);
    let mut end = at;
    let mut number = next;
    let mut extracted = 0;
    for a in 0..count {
        let more = arm(rows, work, h, group, a, fuel, number, text, end, table)?;
        end = more.end;
        number = more.next;
        extracted += more.extracted;
    }
    Ok(ArmRows {
        end,
        next: number,
        extracted,
    })
}

// The arms of a group, their rows laid over what is kept from a place on.
#[cycle(scope)]
fn measure(
    rows: &[u64],
    work: &mut [u64],
    h: usize,
    group: &[u64],
    fuel: usize,
    next: u64,
    text: &mut [u8],
    at: usize,
    kept: &mut [u64],
) -> Result<ArmRows, Refusal>
    requires lent { Lent h work.old text.old × Holds (rows_in rows.now) next (take h work.old) }
    requires is_group { IsGroup (take h work.old) group.now × (next ≤ 4294967296) × (at ≤ 288230376151711744) }
    ensures value { (arms_named result ≡ arms_answer (group_told (inner (rows_in rows.now) fuel (length work.old - h)) (take h work.old) group.now next) at)
        × ArmsWrote (group_told (inner (rows_in rows.now) fuel (length work.old - h)) (take h work.old) group.now next) at kept.old kept.new }
    ensures work_unchanged { take h work.new ≡ take h work.old }
{
    let first = next + group.len() as u64;
    arms(rows, work, h, group, fuel, first, text, at, kept)
}

// The numbers of a group's members.
fn number_members(first: u64, count: usize, at: usize, numbers: &mut [u64])
    requires { (at + count ≤ length numbers.old) × (first + count ≤ 9223372036854775808) }
    ensures { numbers.new ≡ overlay at (numbers_from first count) numbers.old }
{
    for i in 0..count {
        numbers[at + i] = first + i as u64;
    }
}

// The groups in order: their members take numbers, and their arms are done. The arms' rows stand one after another in
// what is kept, and `stops` says where each group's end there.
#[cycle(scope)]
fn walk(
    rows: &[u64],
    work: &mut [u64],
    h: usize,
    members: &[u64],
    ends: &[u64],
    fuel: usize,
    next: u64,
    text: &mut [u8],
    numbers: &mut [u64],
    stops: &mut [u64],
    kept: &mut [u64],
) -> Result<GroupsWalked, Refusal>
    requires lent { Lent h work.old text.old × Holds (rows_in rows.now) next (take h work.old) }
    requires members { Members (take h work.old) members.now ends.now × (next ≤ 4294967296) }
    requires members_in_bounds { (length members.now ≤ length numbers.old) × (length ends.now ≤ length stops.old) }
    ensures value { (walk_named result ≡ walk_answer (groups_told (rows_in rows.now) fuel (length work.old - h) next (take h work.old)))
        × WalkWrote (groups_told (rows_in rows.now) fuel (length work.old - h) next (take h work.old)) numbers.new stops.new kept.new }
    ensures work_unchanged { take h work.new ≡ take h work.old }
{
    let mut number = next;
    let mut extracted = 0;
    let mut start = 0;
    let mut to = 0;
    for g in 0..ends.len() {
        let end = ends[g] as usize;
        number_members(number, end - start, start, numbers);
        let more = measure(
            rows,
            work,
            h,
            &members[start..end],
            fuel,
            number,
            text,
            to,
            kept,
        )?;
        stops[g] = more.end as u64;
        number = more.next;
        extracted += more.extracted;
        start = end;
        to = more.end;
    }
    Ok(GroupsWalked {
        next: number,
        extracted,
    })
}

// The rows of the match of group g: those before its arms, and its arms', which stand in what is kept or else are made
// again, unless they have no room in the table. They were not refused before, and so they aren't now.
#[cycle(scope)]
fn write_match(
    rows: &[u64],
    work: &mut [u64],
    h: usize,
    parts: &Parts,
    g: usize,
    from: usize,
    size: usize,
    fuel: usize,
    text: &mut [u8],
    at: usize,
    table: &mut [u64],
) -> usize
    requires lent { Lent h work.old text.old × Holds (rows_in rows.now) (get_or parts.now.numbers.now (group_start (place_groups (take h work.old)) g) 0) (take h work.old) }
    requires grouped { IsGrouped parts.now (take h work.old) × GroupSized (rows_in rows.now) fuel (length work.old - h) (take h work.old) parts.now.numbers.now g from size parts.now.kept.now }
    requires g_in_bounds { (g < length parts.now.ends.now) × (at + length (rows_of_match (rows_in rows.now) fuel (length work.old - h) (take h work.old) parts.now g) ≤ most_rows) }
    ensures value { (result ≡ at + length (rows_of_match (rows_in rows.now) fuel (length work.old - h) (take h work.old) parts.now g))
        × Laid at (rows_of_match (rows_in rows.now) fuel (length work.old - h) (take h work.old) parts.now g) table.old table.new }
    ensures work_unchanged { take h work.new ≡ take h work.old }
{
    let body = write_match_head(
        &work[..h],
        parts.members,
        parts.ends,
        parts.numbers,
        g,
        at,
        table,
    );
    if body + size > table.len() {
        return body + size;
    }
    if from + size <= parts.kept.len() {
        put(&parts.kept[from..from + size], body, table);
        return body + size;
    }
    let start = group_begin(parts.ends, g);
    let end = parts.ends[g] as usize;
    let first = parts.numbers[start] + (end - start) as u64;
    match arms(
        rows,
        work,
        h,
        &parts.members[start..end],
        fuel,
        first,
        text,
        body,
        table,
    ) {
        Ok(again) => again.end,
        Err(_) => unreachable!(),
    }
}

// The rows of statement p: a let, or a match.
#[cycle(scope)]
fn write_stmt(
    rows: &[u64],
    work: &mut [u64],
    h: usize,
    parts: &Parts,
    p: usize,
    fuel: usize,
    text: &mut [u8],
    at: usize,
    table: &mut [u64],
) -> usize
    requires lent { Lent h work.old text.old × Holds (rows_in rows.now) (after_lets parts.now) (take h work.old) }
    requires prepared { IsPrepared parts.now (take h work.old) × IsSized (rows_in rows.now) fuel (length work.old - h) (take h work.old) parts.now }
    requires p_bound { (p < statement_count parts.now) × (at + length (rows_of_statement (rows_in rows.now) fuel (length work.old - h) parts.now p) ≤ most_rows) }
    ensures value { (result ≡ at + length (rows_of_statement (rows_in rows.now) fuel (length work.old - h) parts.now p))
        × Laid at (rows_of_statement (rows_in rows.now) fuel (length work.old - h) parts.now p) table.old table.new }
    ensures work_unchanged { take h work.new ≡ take h work.old }
{
    let lets = parts.starts.len() - parts.results + parts.places.len();
    if p < lets {
        return write_let(
            parts.tokens,
            parts.results,
            parts.first,
            parts.places,
            &work[..h],
            parts.starts,
            parts.members,
            parts.numbers,
            p,
            at,
            table,
        );
    }
    let g = p - lets;
    let from = group_begin(parts.stops, g);
    let size = parts.stops[g] as usize - from;
    write_match(rows, work, h, parts, g, from, size, fuel, text, at, table)
}

// The rows of the statements in their order; the place after them.
#[cycle(scope)]
fn write_stmts(
    rows: &[u64],
    work: &mut [u64],
    h: usize,
    parts: &Parts,
    taken: &[u64],
    fuel: usize,
    text: &mut [u8],
    at: usize,
    table: &mut [u64],
) -> usize
    requires lent { Lent h work.old text.old × Holds (rows_in rows.now) (after_lets parts.now) (take h work.old) }
    requires prepared { IsPrepared parts.now (take h work.old) × IsSized (rows_in rows.now) fuel (length work.old - h) (take h work.old) parts.now }
    requires positions { Positions taken.now (statement_count parts.now) × (at + length (rows_of_statements (rows_in rows.now) fuel (length work.old - h) parts.now taken.now) ≤ most_rows) }
    ensures value { (result ≡ at + length (rows_of_statements (rows_in rows.now) fuel (length work.old - h) parts.now taken.now))
        × Laid at (rows_of_statements (rows_in rows.now) fuel (length work.old - h) parts.now taken.now) table.old table.new }
    ensures work_unchanged { take h work.new ≡ take h work.old }
{
    let mut to = at;
    for q in 0..taken.len() {
        let p = taken[q] as usize;
        to = write_stmt(rows, work, h, parts, p, fuel, text, to, table);
    }
    to
}

// The scope's rows, once its statements are in order.
#[cycle(scope)]
fn write_scope(
    rows: &[u64],
    work: &mut [u64],
    h: usize,
    parts: &Parts,
    fuel: usize,
    row: u64,
    after: u64,
    extracted: usize,
    text: &mut [u8],
    at: usize,
    table: &mut [u64],
) -> Result<ScopeRows, Refusal>
    requires lent { Lent h work.old text.old × Holds (rows_in rows.now) (after_lets parts.now) (take h work.old) }
    requires prepared { IsPrepared parts.now (take h work.old) × AreNumbered (rows_in rows.now) fuel (length work.old - h) (take h work.old) parts.now after extracted }
    requires places_bound { at + told_rows (outcome_of (rows_in rows.now) fuel (length work.old - h) row parts.now) ≤ most_rows }
    ensures { (scope_named result ≡ scope_answer (outcome_of (rows_in rows.now) fuel (length work.old - h) row parts.now) at)
        × ScopeLaid (outcome_of (rows_in rows.now) fuel (length work.old - h) row parts.now) at table.old table.new }
{
    let mut taken = [0u64; MOST_STMTS];
    let made = parts.starts.len() - parts.results;
    let count = made + parts.places.len() + parts.ends.len();
    let ordered = order_stmts(
        parts.tokens,
        parts.results,
        parts.first,
        parts.places,
        &work[..h],
        parts.starts,
        parts.members,
        parts.ends,
        parts.numbers,
        &mut taken,
    );
    match ordered {
        Ok(()) => {
            let end = write_stmts(rows, work, h, parts, &taken[..count], fuel, text, at, table);
            let place = write_values(
                parts.tokens,
                parts.results,
                parts.first,
                parts.places,
                &work[..h],
                parts.starts,
                parts.members,
                parts.numbers,
                row,
                end,
                table,
            );
            Ok(ScopeRows {
                end: place,
                statements: count,
                next: after,
                extracted: made + extracted,
            })
        }
        // There is room for all statements, so it is a ring that keeps them from an order.
        Err(_) => Err(Refusal::Ring),
    }
}

// The scope from its groups on: they are walked, and then its rows are written.
#[cycle(scope)]
fn scope_grouped(
    rows: &[u64],
    work: &mut [u64],
    tokens: &[u64],
    results: usize,
    first: u64,
    places: &[u64],
    h: usize,
    starts: &[u64],
    members: &[u64],
    ends: &[u64],
    numbers: &mut [u64],
    stops: &mut [u64],
    kept: &mut [u64],
    fuel: usize,
    row: u64,
    text: &mut [u8],
    at: usize,
    table: &mut [u64],
) -> Result<ScopeRows, Refusal>
    requires lent { Lent h work.old text.old × Holds (rows_in rows.now) (reciprocals_first tokens.now results first places.now + length places.now) (take h work.old) }
    requires ready { Ready tokens.now results first places.now (take h work.old) starts.now members.now ends.now × (length members.now ≤ length numbers.old) × (length ends.now ≤ length stops.old) }
    requires places_bound { at + told_rows (grouped_scope (rows_in rows.now) fuel (length work.old - h) row tokens.now results first places.now) ≤ most_rows }
    ensures { (scope_named result ≡ scope_answer (grouped_scope (rows_in rows.now) fuel (length work.old - h) row tokens.now results first places.now) at)
        × ScopeLaid (grouped_scope (rows_in rows.now) fuel (length work.old - h) row tokens.now results first places.now) at table.old table.new }
{
    let next = first + (starts.len() - results + places.len()) as u64;
    let walked = walk(
        rows, work, h, members, ends, fuel, next, text, numbers, stops, kept,
    )?;
    let parts = Parts {
        tokens,
        results,
        first,
        places,
        starts,
        members,
        ends,
        numbers: &numbers[..members.len()],
        stops: &stops[..ends.len()],
        kept,
    };
    write_scope(
        rows,
        work,
        h,
        &parts,
        fuel,
        row,
        walked.next,
        walked.extracted,
        text,
        at,
        table,
    )
}

// The scope from what it holds on, which stands in front of the work area, with arrays for what it keeps while its arms
// are done: where its trees begin there, its groups, and whether its switches or its statements are too many.
#[cycle(scope)]
fn scope_in(
    rows: &[u64],
    work: &mut [u64],
    h: usize,
    tokens: &[u64],
    results: usize,
    trees: usize,
    first: u64,
    places: &[u64],
    starts: &mut [u64],
    members: &mut [u64],
    ends: &mut [u64],
    numbers: &mut [u64],
    stops: &mut [u64],
    kept: &mut [u64],
    fuel: usize,
    row: u64,
    text: &mut [u8],
    at: usize,
    table: &mut [u64],
) -> Result<ScopeRows, Refusal>
    requires lent { Lent h work.old text.old × Left (rows_in rows.now) tokens.now results first places.now }
    requires tokens_value { (trees_in tokens.now ≡ some trees) × (take h work.old ≡ held_words tokens.now results first places.now) }
    requires places_bound { at + told_rows (left_scope (rows_in rows.now) fuel (length work.old) row tokens.now results first places.now) ≤ most_rows }
    requires room { Room (take h work.old) starts.old members.old ends.old numbers.old stops.old }
    ensures { (scope_named result ≡ scope_answer (left_scope (rows_in rows.now) fuel (length work.old) row tokens.now results first places.now) at)
        × ScopeLaid (left_scope (rows_in rows.now) fuel (length work.old) row tokens.now results first places.now) at table.old table.new }
{
    let _ = list_trees(&work[..h], starts);
    let Some(found) = group_all(&work[..h], numbers, members, ends) else {
        return Err(Refusal::LargeScopes);
    };
    if trees - results + places.len() + found.groups > MOST_STMTS {
        return Err(Refusal::LargeScopes);
    }
    scope_grouped(
        rows,
        work,
        tokens,
        results,
        first,
        places,
        h,
        &starts[..trees],
        &members[..found.members],
        &ends[..found.groups],
        numbers,
        stops,
        kept,
        fuel,
        row,
        text,
        at,
        table,
    )
}

// The same with arrays of its own: short ones where it holds few words.
#[cycle(scope)]
fn scope_held(
    rows: &[u64],
    work: &mut [u64],
    h: usize,
    tokens: &[u64],
    results: usize,
    trees: usize,
    first: u64,
    places: &[u64],
    fuel: usize,
    row: u64,
    text: &mut [u8],
    at: usize,
    table: &mut [u64],
) -> Result<ScopeRows, Refusal>
    requires lent { Lent h work.old text.old × Left (rows_in rows.now) tokens.now results first places.now }
    requires tokens_value { (trees_in tokens.now ≡ some trees) × (take h work.old ≡ held_words tokens.now results first places.now) }
    requires places_bound { at + told_rows (left_scope (rows_in rows.now) fuel (length work.old) row tokens.now results first places.now) ≤ most_rows }
    ensures { (scope_named result ≡ scope_answer (left_scope (rows_in rows.now) fuel (length work.old) row tokens.now results first places.now) at)
        × ScopeLaid (left_scope (rows_in rows.now) fuel (length work.old) row tokens.now results first places.now) at table.old table.new }
{
    if h <= FEW {
        scope_in(
            rows,
            work,
            h,
            tokens,
            results,
            trees,
            first,
            places,
            &mut [0; FEW],
            &mut [0; FEW],
            &mut [0; FEW],
            &mut [0; FEW],
            &mut [0; FEW],
            &mut [0; FEW_KEPT],
            fuel,
            row,
            text,
            at,
            table,
        )
    } else {
        scope_in(
            rows,
            work,
            h,
            tokens,
            results,
            trees,
            first,
            places,
            &mut [0; MOST],
            &mut [0; MOST_SWITCHES],
            &mut [0; MOST_SWITCHES],
            &mut [0; MOST_SWITCHES],
            &mut [0; MOST_STMTS],
            &mut [0; KEPT],
            fuel,
            row,
            text,
            at,
            table,
        )
    }
}

// The scope after its rounds. The words that they leave are copied out of the work area, and what the scope holds takes
// their place there: the rest is for its arms.
#[cycle(scope)]
fn scope_listed(
    rows: &[u64],
    work: &mut [u64],
    used: usize,
    results: usize,
    first: u64,
    places: &[u64],
    tokens: &mut [u64],
    fuel: usize,
    row: u64,
    text: &mut [u8],
    at: usize,
    table: &mut [u64],
) -> Result<ScopeRows, Refusal>
    requires lent { Lent used work.old text.old × Left (rows_in rows.now) (take used work.old) results first places.now }
    requires places_bound { at + told_rows (left_scope (rows_in rows.now) fuel (length work.old) row (take used work.old) results first places.now) ≤ most_rows }
    requires used_in_bounds { used ≤ length tokens.old }
    ensures { (scope_named result ≡ scope_answer (left_scope (rows_in rows.now) fuel (length work.old) row (take used work.old) results first places.now) at)
        × ScopeLaid (left_scope (rows_in rows.now) fuel (length work.old) row (take used work.old) results first places.now) at table.old table.new }
{
    put(&work[..used], 0, tokens);
    let trees = tree_count(&tokens[..used]);
    let number = first + (trees - results) as u64;
    let Some(h) = hold_all(&tokens[..used], places, number, work) else {
        return Err(Refusal::LargeScopes);
    };
    scope_held(
        rows,
        work,
        h,
        &tokens[..used],
        results,
        trees,
        first,
        places,
        fuel,
        row,
        text,
        at,
        table,
    )
}

// The scope of the first `len` words of the work area once it is known that it may be opened, with arrays for what its
// rounds leave and for the divisors to bind.
#[cycle(scope)]
fn scope_rounds(
    rows: &[u64],
    work: &mut [u64],
    len: usize,
    fuel: usize,
    row: u64,
    next: u64,
    text: &mut [u8],
    at: usize,
    table: &mut [u64],
    places: &mut [u64],
    tokens: &mut [u64],
) -> Result<ScopeRows, Refusal>
    requires t { T (extractable (rows_in rows.now) next (take len work.old)) × T (symbols_pass (is_number (rows_in rows.now)) (take len work.old)) }
    requires lent { Lent len work.old text.old }
    requires work_bound { at + told_rows (scope_told (rows_in rows.now) fuel (length work.old) row next (take len work.old)) ≤ most_rows }
    requires le_fuel { (1 ≤ fuel) × (len ≤ 1927) × (next ≤ 2147483648) }
    requires len_in_bounds { (len ≤ length places.old) × (len ≤ length tokens.old) }
    ensures { (scope_named result ≡ scope_answer (scope_told (rows_in rows.now) fuel (length work.old) row next (take len work.old)) at)
        × ScopeLaid (scope_told (rows_in rows.now) fuel (length work.old) row next (take len work.old)) at table.old table.new }
{
    let results = tree_count(&work[..len]);
    let listed = extract_and_list(rows, work, len, true, next, text, places)?;
    scope_listed(
        rows,
        work,
        listed.words,
        results,
        next,
        &places[..listed.divisors],
        tokens,
        fuel - 1,
        row,
        text,
        at,
        table,
    )
}

// `cse_scope` of the source: the scope of the first `len` words of the work area, with numbers from `next` on and
// values in rows of the kind `row`: its rows are laid over the table from `at` on; where they have no room, what is
// left there is free. A refusal writes nothing. `fuel` is how many scopes may be open at once from here on, and the
// work area is what is left for them.
#[cycle(scope)]
pub fn scope(
    rows: &[u64],
    work: &mut [u64],
    len: usize,
    fuel: usize,
    row: u64,
    next: u64,
    text: &mut [u8],
    at: usize,
    table: &mut [u64],
) -> Result<ScopeRows, Refusal>
    requires t { T (extractable (rows_in rows.now) next (take len work.old)) × T (symbols_pass (is_number (rows_in rows.now)) (take len work.old)) }
    requires lent { Lent len work.old text.old }
    requires work_bound { at + told_rows (scope_told (rows_in rows.now) fuel (length work.old) row next (take len work.old)) ≤ most_rows }
    ensures { (scope_named result ≡ scope_answer (scope_told (rows_in rows.now) fuel (length work.old) row next (take len work.old)) at)
        × ScopeLaid (scope_told (rows_in rows.now) fuel (length work.old) row next (take len work.old)) at table.old table.new }
{
    if fuel == 0 || len > MOST || next > MOST_NUMBER {
        return Err(Refusal::LargeScopes);
    }
    if len <= FEW {
        scope_rounds(
            rows,
            work,
            len,
            fuel,
            row,
            next,
            text,
            at,
            table,
            &mut [0; FEW],
            &mut [0; FEW],
        )
    } else {
        scope_rounds(
            rows,
            work,
            len,
            fuel,
            row,
            next,
            text,
            at,
            table,
            &mut [0; MOST],
            &mut [0; MOST],
        )
    }
}
