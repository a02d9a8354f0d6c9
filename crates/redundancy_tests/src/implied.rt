// Whether small tgds follow from others, and which of them stay.
ghost use Rattle.std.specs.Prelude.{◌≤◌, length};

use redundancy::{implied, reduce};
use relational::Refusal;

const C: u64 = 100;

type Rule = [u64; 53];

// Three dependencies behind their count.
type Rules = [u64; 160];

// Puts an atom at a place of a dependency: the relation, and its variables.
fn put_atom(rule: &mut Rule, at: usize, atom: &[u64])
    requires place { at ≤ 43 }
    requires atom { (1 ≤ length atom.now) × (length atom.now ≤ 5) }
{
    rule[at] = atom[0];
    rule[at + 1] = atom.len() as u64 - 1;
    for (term, variable) in rule[at + 2..].chunks_exact_mut(2).zip(&atom[1..]) {
        term.copy_from_slice(&[1, *variable]);
    }
}

// A tgd with one body atom and one head atom.
fn tgd(body: &[u64], head: &[u64]) -> Rule
    requires body { (1 ≤ length body.now) × (length body.now ≤ 5) }
    requires head { (1 ≤ length head.now) × (length head.now ≤ 5) }
{
    let mut rule = [0; 53];
    rule[1] = 1;
    put_atom(&mut rule, 2, body);
    rule[32] = 1;
    put_atom(&mut rule, 33, head);
    rule
}

// A tgd with an empty body.
fn fact(head: &[u64]) -> Rule
    requires { (1 ≤ length head.now) × (length head.now ≤ 5) }
{
    let mut rule = tgd(&[0], head);
    rule[1] = 0;
    rule
}

// An egd that makes x0 and x1 equal.
fn egd(body: &[u64]) -> Rule
    requires { (1 ≤ length body.now) × (length body.now ≤ 5) }
{
    let mut rule = tgd(body, &[0]);
    rule[0] = 1;
    rule[32] = 0;
    rule[33] = 1;
    rule
}

// The tgd with a constant in the first place of its body and of its head.
fn at_constant(rule: Rule, n: u64) -> Rule {
    let mut rule = rule;
    rule[4] = 0;
    rule[5] = n;
    rule[35] = 0;
    rule[36] = n;
    rule
}

// The first so many of three dependencies.
fn list(count: u64, a: Rule, b: Rule, c: Rule) -> Rules {
    let mut rules = [0; 160];
    rules[0] = count;
    for (room, rule) in rules[1..].chunks_exact_mut(53).zip(&[a, b, c]) {
        room.copy_from_slice(rule);
    }
    rules
}

// Whether the tgd is implied; none where that is refused.
fn follows(rules: &[u64], rule: &[u64]) -> Option<bool> {
    implied(rules, rule, C).ok()
}

fn refusal(rules: &[u64], rule: &[u64], c: u64) -> Option<Refusal> {
    implied(rules, rule, c).err()
}

// Which of three stay.
fn staying(rules: &[u64]) -> Option<[bool; 3]> {
    let [a, b, c] = *reduce(rules, C).ok()?.as_slice() else {
        return None;
    };
    Some([a, b, c])
}

fn reduce_refusal(rules: &[u64], c: u64) -> Option<Refusal> {
    reduce(rules, c).err()
}

#[test]
fn through_two_others(rt: HostRuntime) {
    let a = tgd(&[0, 0], &[1, 0]);
    let b = tgd(&[1, 0], &[2, 0]);
    let c = tgd(&[0, 0], &[2, 0]);
    assert_eq!(rt; follows(&list(2, a, b, c), &c), Some(true));
    assert_eq!(rt; follows(&list(1, a, b, c), &c), Some(false));
    assert_eq!(rt;
        follows(&list(2, a, b, c), &tgd(&[2, 0], &[0, 0])),
        Some(false)
    );
}

#[test]
fn from_an_empty_body(rt: HostRuntime) {
    let a = fact(&[5, 7]);
    let rules = list(1, a, a, a);
    assert_eq!(rt; follows(&rules, &tgd(&[0, 0], &[5, 1])), Some(true));
    assert_eq!(rt; follows(&rules, &tgd(&[0, 0], &[5, 0])), Some(false));
    assert_eq!(rt; follows(&rules, &a), Some(true));
    assert_eq!(rt; follows(&[0], &a), Some(false));
}

#[test]
fn existential_variables(rt: HostRuntime) {
    let a = tgd(&[0, 0], &[1, 0, 1]);
    let rules = list(1, a, a, a);
    assert_eq!(rt; follows(&rules, &tgd(&[0, 0], &[1, 0, 2])), Some(true));
    assert_eq!(rt; follows(&rules, &tgd(&[0, 0], &[1, 0, 0])), Some(false));
    assert_eq!(rt; follows(&rules, &tgd(&[0, 15], &[1, 15, 14])), Some(true));
}

#[test]
fn constants(rt: HostRuntime) {
    let a = tgd(&[0, 0], &[1, 0]);
    let b = at_constant(a, 99);
    assert_eq!(rt; follows(&list(1, a, a, a), &b), Some(true));
    assert_eq!(rt; follows(&list(1, b, a, a), &a), Some(false));
}

#[test]
fn given_up(rt: HostRuntime) {
    let endless = tgd(&[10, 0, 1], &[10, 1, 2]);
    let asked = tgd(&[10, 0, 1], &[11, 0]);
    let rules = list(2, endless, asked, asked);
    let end = Some(Refusal::GivenUp { steps: 128 });
    assert_eq!(rt; refusal(&list(1, endless, asked, asked), &asked, C), end);
    assert_eq!(rt; follows(&rules, &tgd(&[0, 0], &[11, 0])), Some(false));
    assert_eq!(rt; reduce_refusal(&rules, C), end);
}

#[test]
fn refused_dependencies(rt: HostRuntime) {
    let a = tgd(&[0, 0], &[1, 0]);
    let e = egd(&[0, 0, 1]);
    let mut malformed = a;
    malformed[0] = 2;
    let second = Some(Refusal::Dependencies { at: 1 });
    let none = Some(Refusal::Dependencies { at: 16 });
    let asked = Some(Refusal::Dependencies { at: 17 });
    assert_eq!(rt; refusal(&list(3, a, e, e), &a, C), second);
    assert_eq!(rt; refusal(&list(2, e, malformed, a), &e, C + 1), second);
    assert_eq!(rt; refusal(&[], &a, C), none);
    assert_eq!(rt; refusal(&[17], &a, C), none);
    assert_eq!(rt; refusal(&[0], &e, u64::MAX), asked);
    assert_eq!(rt; refusal(&[0], &malformed, C), asked);
    assert_eq!(rt; refusal(&[0], &a[0..52], C), asked);
    assert_eq!(rt; reduce_refusal(&list(3, a, e, e), C), second);
    assert_eq!(rt; reduce_refusal(&[17], C), none);
}

#[test]
fn refused_constants(rt: HostRuntime) {
    let a = tgd(&[0, 0], &[1, 0]);
    let b = at_constant(a, C);
    let first_null = Some(Refusal::Constants { at: 80 });
    let asked = Some(Refusal::Constants { at: 81 });
    let second = Some(Refusal::Constants { at: 65 });
    let rules = list(3, a, b, b);
    assert_eq!(rt; refusal(&rules, &b, 0x1_0000_0001), first_null);
    assert_eq!(rt; refusal(&rules, &b, 0x1_0000_0000), None);
    assert_eq!(rt; refusal(&rules, &b, C), second);
    assert_eq!(rt; refusal(&list(1, a, b, b), &b, C), asked);
    assert_eq!(rt; refusal(&list(1, a, b, b), &b, C + 1), None);
    assert_eq!(rt; reduce_refusal(&rules, 0x1_0000_0001), first_null);
    assert_eq!(rt; reduce_refusal(&rules, C), second);
    assert_eq!(rt; reduce_refusal(&rules, C + 1), None);
}

#[test]
fn which_stay(rt: HostRuntime) {
    let a = tgd(&[0, 0], &[1, 0]);
    let b = tgd(&[1, 0], &[2, 0]);
    let c = tgd(&[0, 0], &[2, 0]);
    assert_eq!(rt; staying(&list(3, a, b, c)), Some([true, true, false]));
    assert_eq!(rt; staying(&list(3, c, a, b)), Some([false, true, true]));
    assert_eq!(rt; staying(&list(3, a, a, b)), Some([false, true, true]));
    assert_eq!(rt; staying(&list(3, a, a, a)), Some([false, false, true]));
}
