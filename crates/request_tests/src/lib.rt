// Requests at the boundaries of what is accepted, and the refusal and the place of each that is not.
#![tactic(auto)]

ghost use Rattle.std.specs.Prelude.{◌<◌};

#[cfg(test)]
mod tests {
    use relational::{INSTANCE_LEN, Refusal, read_request};

    const C: u64 = 100;

    // Sixty-five facts and seventeen dependencies of zeros: each is well formed.
    const FACTS: [u64; 391] = [0; 391];

    const RULES: [u64; 902] = [0; 902];

    fn refusal(facts: &[u64], rules: &[u64], c: u64) -> Option<Refusal> {
        refusal_with(facts, rules, INSTANCE_LEN, c)
    }

    fn refusal_with(facts: &[u64], rules: &[u64], room: usize, c: u64) -> Option<Refusal> {
        read_request(facts, rules, room, c).err()
    }

    // What is refused of one fact with these six numbers.
    fn fact_refusal(fact: [u64; 6], c: u64) -> Option<Refusal> {
        let mut facts = [1; 7];
        facts[1..].copy_from_slice(&fact);
        refusal(&facts, &[0], c)
    }

    // What is refused where number `at` of an only dependency, else all zeros, is `n`.
    fn rule_refusal(at: usize, n: u64) -> Option<Refusal>
        requires { at < 53 }
    {
        let mut row = [0; 54];
        row[0] = 1;
        row[at + 1] = n;
        refusal(&[0], &row, C)
    }

    #[test]
    fn counts(rt: HostRuntime) {
        let mut facts = FACTS;
        let mut rules = RULES;
        assert_eq!(rt; refusal(&facts, &rules, C), None);
        facts[0] = 64;
        rules[0] = 16;
        assert_eq!(rt; refusal(&facts, &rules, C), None);
        rules[0] = 17;
        assert_eq!(rt;
            refusal(&facts, &rules, C),
            Some(Refusal::Dependencies { at: 16 })
        );
        facts[0] = 65;
        assert_eq!(rt; refusal(&facts, &rules, C), Some(Refusal::Facts { at: 64 }));
        facts[0] = u64::MAX;
        assert_eq!(rt; refusal(&facts, &rules, C), Some(Refusal::Facts { at: 64 }));
        facts[0] = 0;
        rules[0] = u64::MAX;
        assert_eq!(rt;
            refusal(&facts, &rules, C),
            Some(Refusal::Dependencies { at: 16 })
        );
    }

    #[test]
    fn cut_short(rt: HostRuntime) {
        assert_eq!(rt; refusal(&[], &[], C), Some(Refusal::Facts { at: 64 }));
        assert_eq!(rt;
            refusal(&[0], &[], C),
            Some(Refusal::Dependencies { at: 16 })
        );
        assert_eq!(rt; refusal(&[1], &[0], C), Some(Refusal::Facts { at: 0 }));
        assert_eq!(rt;
            refusal(&[1, 7, 0, 0, 0, 0], &[0], C),
            Some(Refusal::Facts { at: 0 })
        );
        assert_eq!(rt;
            refusal(&[2, 7, 0, 0, 0, 0, 0], &[0], C),
            Some(Refusal::Facts { at: 1 })
        );
        assert_eq!(rt;
            refusal(&[64, 7, 0, 0, 0, 0, 0, 7], &[0], C),
            Some(Refusal::Facts { at: 1 })
        );
        assert_eq!(rt;
            refusal(&[0], &[1], C),
            Some(Refusal::Dependencies { at: 0 })
        );
        let mut rules = RULES;
        rules[0] = 2;
        assert_eq!(rt;
            refusal(&[0], &rules[0..106], C),
            Some(Refusal::Dependencies { at: 1 })
        );
        assert_eq!(rt; refusal(&[0], &rules[0..107], C), None);
    }

    #[test]
    fn facts(rt: HostRuntime) {
        assert_eq!(rt; fact_refusal([0xffff_ffff, 4, 0, 1, 2, 99], C), None);
        assert_eq!(rt;
            fact_refusal([0x1_0000_0000, 4, 0, 1, 2, 99], C),
            Some(Refusal::Facts { at: 0 })
        );
        assert_eq!(rt;
            fact_refusal([7, 5, 0, 1, 2, 3], C),
            Some(Refusal::Facts { at: 0 })
        );
        assert_eq!(rt;
            fact_refusal([7, u64::MAX, 0, 1, 2, 3], C),
            Some(Refusal::Facts { at: 0 })
        );
        assert_eq!(rt; fact_refusal([7, 1, 99, 100, 100, 100], C), None);
        assert_eq!(rt;
            fact_refusal([7, 2, 99, 100, 0, 0], C),
            Some(Refusal::Constants { at: 0 })
        );
        assert_eq!(rt;
            fact_refusal([7, 4, 1, 2, 3, u64::MAX], C),
            Some(Refusal::Constants { at: 0 })
        );
    }

    #[test]
    fn constants(rt: HostRuntime) {
        assert_eq!(rt; fact_refusal([7, 0, 5, 5, 5, 5], 0), None);
        assert_eq!(rt;
            fact_refusal([7, 1, 0, 0, 0, 0], 0),
            Some(Refusal::Constants { at: 0 })
        );
        assert_eq!(rt;
            fact_refusal([7, 1, 0xffff_ffff, 0, 0, 0], 0x1_0000_0000),
            None
        );
        assert_eq!(rt;
            fact_refusal([7, 1, 0, 0, 0, 0], 0x1_0000_0001),
            Some(Refusal::Constants { at: 80 })
        );
        let facts = [2, 7, 1, 100, 0, 0, 0, 7, 1, 3, 0, 0, 0];
        assert_eq!(rt;
            refusal(&facts, &[0], C),
            Some(Refusal::Constants { at: 0 })
        );
        assert_eq!(rt;
            refusal(&facts, &[0], u64::MAX),
            Some(Refusal::Constants { at: 80 })
        );
        let mut rules = RULES;
        rules[0] = 2;
        rules[55] = 1;
        rules[57] = 1;
        rules[59] = 100;
        assert_eq!(rt;
            refusal(&[0], &rules, C),
            Some(Refusal::Constants { at: 65 })
        );
        assert_eq!(rt;
            refusal(&facts, &rules, C),
            Some(Refusal::Constants { at: 0 })
        );
    }

    // A tgd has at 1 the count of body atoms, at 2 the first atom's relation, at 3 its count, at 4 and 5 its first term; at 32 the head's count.
    #[test]
    fn dependencies(rt: HostRuntime) {
        assert_eq!(rt; rule_refusal(0, 2), Some(Refusal::Dependencies { at: 0 }));
        assert_eq!(rt; rule_refusal(1, 3), None);
        assert_eq!(rt; rule_refusal(1, 4), Some(Refusal::Dependencies { at: 0 }));
        assert_eq!(rt; rule_refusal(32, 2), None);
        assert_eq!(rt; rule_refusal(32, 3), Some(Refusal::Dependencies { at: 0 }));
        assert_eq!(rt; rule_refusal(2, u64::MAX), None);
        assert_eq!(rt; rule_refusal(4, 9), None);
        assert_eq!(rt; rule_refusal(0, 1), Some(Refusal::Dependencies { at: 0 }));
    }

    // One body atom of one term of the given kind and number.
    fn term_refusal(rule: u64, kind: u64, number: u64, left: u64, right: u64) -> Option<Refusal> {
        let mut row = [0; 54];
        row[..7].copy_from_slice(&[1, rule, 1, 0, 1, kind, number]);
        row[33] = left;
        row[34] = right;
        refusal(&[0], &row, C)
    }

    #[test]
    fn terms(rt: HostRuntime) {
        assert_eq!(rt; term_refusal(0, 0, 99, 0, 0), None);
        assert_eq!(rt;
            term_refusal(0, 0, 100, 0, 0),
            Some(Refusal::Constants { at: 64 })
        );
        assert_eq!(rt; term_refusal(0, 1, 15, 0, 0), None);
        assert_eq!(rt;
            term_refusal(0, 1, 16, 0, 0),
            Some(Refusal::Dependencies { at: 0 })
        );
        assert_eq!(rt;
            term_refusal(0, 2, 0, 0, 0),
            Some(Refusal::Dependencies { at: 0 })
        );
        assert_eq!(rt; term_refusal(1, 1, 15, 15, 15), None);
        assert_eq!(rt;
            term_refusal(1, 1, 15, 15, 14),
            Some(Refusal::Dependencies { at: 0 })
        );
        assert_eq!(rt;
            term_refusal(1, 1, 15, 14, 15),
            Some(Refusal::Dependencies { at: 0 })
        );
        assert_eq!(rt;
            term_refusal(1, 0, 15, 15, 15),
            Some(Refusal::Dependencies { at: 0 })
        );
    }

    #[test]
    fn room(rt: HostRuntime) {
        assert_eq!(rt;
            refusal_with(&[0], &[0], 1920, C),
            Some(Refusal::Room { len: 1920 })
        );
        assert_eq!(rt;
            refusal_with(&[0], &[0], 0, C),
            Some(Refusal::Room { len: 0 })
        );
        assert_eq!(rt; refusal_with(&[0], &[0], 1921, C), None);
        assert_eq!(rt;
            refusal_with(&[0], &[0], 0, u64::MAX),
            Some(Refusal::Constants { at: 80 })
        );
        assert_eq!(rt;
            refusal_with(&[1], &[1], 0, u64::MAX),
            Some(Refusal::Facts { at: 0 })
        );
        assert_eq!(rt;
            refusal_with(&[0], &[1], 0, u64::MAX),
            Some(Refusal::Dependencies { at: 0 })
        );
    }
}
