// Cores of small instances: numbers from 100 on are nulls. What is lent for the core holds 7 everywhere.
ghost use Rattle.std.specs.Prelude.{◌≤◌, length};

use redundancy::core_of;
use relational::Refusal;

const C: u64 = 100;

// Room for an instance, and some numbers behind it.
type Row = [u64; 1930];

type Fact = [u64; 6];

// A fact: its relation and its values, and another number where room is not used.
fn fact(relation: u64, values: &[u64], unused: u64) -> Fact
    requires { length values.now ≤ 4 }
{
    let mut fact = [unused; 6];
    fact[0] = relation;
    fact[1] = values.len() as u64;
    fact[2..2 + values.len()].copy_from_slice(values);
    fact
}

// Facts behind their count, with this number behind them.
fn instance(facts: &[Fact], behind: u64) -> Row {
    let mut row = [behind; 1930];
    row[0] = facts.len() as u64;
    for (room, fact) in row[1..].chunks_exact_mut(6).zip(facts) {
        room.copy_from_slice(fact);
    }
    row
}

// Facts of two values and of one relation, with these numbers in room that is not used and behind the facts.
fn pairs(facts: &[(u64, u64)], unused: u64, behind: u64) -> Row {
    let mut row = [behind; 1930];
    row[0] = facts.len() as u64;
    for (room, (x, y)) in row[1..].chunks_exact_mut(6).zip(facts) {
        room.copy_from_slice(&fact(0, &[*x, *y], unused));
    }
    row
}

// Facts as they may come in.
fn given(facts: &[(u64, u64)]) -> Row {
    pairs(facts, 9, 0)
}

// The same as they are written, in what held 7 everywhere.
fn written(facts: &[(u64, u64)]) -> Row {
    pairs(facts, 0, 7)
}

// Whether the core of the first facts are the second.
fn has_core(facts: &[(u64, u64)], core: &[(u64, u64)], c: u64) -> bool {
    let mut out = [7; 1930];
    let result = core_of(&given(facts), &mut out, c);
    result == Ok(core.len() as u64) && out == written(core)
}

// Two facts have to go at a time, and the last two do.
#[test]
fn two_at_a_time(rt: HostRuntime) {
    assert!(rt;
        has_core(
            &[(100, 101), (101, 100), (102, 103), (103, 102)],
            &[(100, 101), (101, 100)],
            C,
        )
    );
}

// The first of facts that are the same stays, in their order.
#[test]
fn each_once(rt: HostRuntime) {
    assert!(rt;
        has_core(
            &[(1, 2), (3, 4), (1, 2), (2, 1), (3, 4)],
            &[(1, 2), (3, 4), (2, 1)],
            C,
        )
    );
}

// A null becomes a constant, and the facts behind it move up; a null that stands twice does not become two constants.
#[test]
fn onto_constants(rt: HostRuntime) {
    assert!(rt; has_core(&[(100, 5), (4, 5)], &[(4, 5)], C));
    assert!(rt; has_core(&[(100, 100), (4, 5)], &[(100, 100), (4, 5)], C));
}

// Constants stay, but where c is 0 there are none.
#[test]
fn constants_stay(rt: HostRuntime) {
    assert!(rt; has_core(&[(4, 4), (5, 6)], &[(4, 4), (5, 6)], C));
    assert!(rt; has_core(&[(4, 4), (5, 6)], &[(4, 4)], 0));
}

// Facts that share a null go together: two in a row do not go to one, but to two in a row.
#[test]
fn blocks(rt: HostRuntime) {
    assert!(rt;
        has_core(
            &[(100, 101), (101, 102), (7, 8)],
            &[(100, 101), (101, 102), (7, 8)],
            C,
        )
    );
    assert!(rt;
        has_core(
            &[(100, 101), (101, 102), (7, 8), (8, 9)],
            &[(7, 8), (8, 9)],
            C,
        )
    );
}

// Facts of all widths.
fn widths(unused: u64) -> [Fact; 5] {
    [
        fact(1, &[], unused),
        fact(2, &[100], unused),
        fact(2, &[100, 101], unused),
        fact(3, &[101, 100, 5], unused),
        fact(3, &[101, 5, 102, 103], unused),
    ]
}

// An instance that is its own core, with other numbers in room that is not used.
#[test]
fn own_core(rt: HostRuntime) {
    let row = instance(&widths(9), 0);
    let expected = instance(&widths(0), 7);
    let mut out = [7; 1930];
    assert_eq!(rt; core_of(&row, &mut out, C), Ok(5));
    assert!(rt; out == expected);
    assert!(rt; has_core(&[], &[], C));
}

// 320 facts of nulls, of which no two share one.
fn unconnected() -> Row {
    let mut row = [0; 1930];
    row[0] = 320;
    for (i, room) in row[1..1921].chunks_exact_mut(6).enumerate() {
        let null = 100 + 2 * i as u64;
        room.copy_from_slice(&fact(0, &[null, null + 1], 9));
    }
    row
}

#[test]
fn largest(rt: HostRuntime) {
    let mut out = [7; 1930];
    assert_eq!(rt; core_of(&unconnected(), &mut out, C), Ok(1));
    assert!(rt; out == written(&[(100, 101)]));
}

// Whether the core is refused so with this much room, and nothing is written.
fn refuses(instance: &[u64], room: usize, c: u64, refusal: Refusal) -> bool
    requires { room ≤ 1930 }
{
    let mut out = [7; 1930];
    let result = core_of(instance, &mut out[0..room], c);
    result == Err(refusal) && out == [7; 1930]
}

// The first refusal that applies is told.
#[test]
fn refused(rt: HostRuntime) {
    let above = 4294967297;
    assert!(rt; refuses(&[], 1921, C, Refusal::Facts { at: 320 }));
    assert!(rt; refuses(&[321, 0, 0], 1920, above, Refusal::Facts { at: 320 }));
    let cut = [2, 0, 1, 1, 0, 0, 0, 0, 1, 1, 0, 0];
    assert!(rt; refuses(&cut, 1920, above, Refusal::Facts { at: 1 }));
    let wide = [1, 0, 5, 1, 2, 3, 4];
    assert!(rt; refuses(&wide, 1920, above, Refusal::Facts { at: 0 }));
    let null = [1, 0, 1, 100, 0, 0, 0];
    assert!(rt; refuses(&null, 1920, above, Refusal::Constants { at: 80 }));
    assert!(rt; refuses(&null, 1920, C, Refusal::Room { len: 1920 }));
}

// The least room, and the highest first null.
#[test]
fn least_room(rt: HostRuntime) {
    let row = given(&[(1, 2), (100, 3)]);
    let mut out = [7; 1930];
    assert_eq!(rt; core_of(&row[0..13], &mut out[0..1921], 4294967296), Ok(2));
    assert!(rt; out == written(&[(1, 2), (100, 3)]));
}
