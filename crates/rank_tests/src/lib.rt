// Ranks of the positions of small lists of dependencies, run.
#![tactic(auto)]

ghost use Rattle.std.specs.Prelude.{◌+◌, ◌*◌, ◌≤◌, length};

#[cfg(test)]
mod tests {
    use chase::{RANKS_LEN, position_ranks};
    use relational::Refusal;

    // Ranks and room for one number more.
    type Row = [u64; 962];

    // A dependency.
    type Rule = [u64; 53];

    // Puts an atom of variables at a place of a dependency.
    fn put_atom(rule: &mut [u64], at: usize, relation: u64, variables: &[u64])
        requires { at + 2 + 2 * length variables.now ≤ length rule.old }
    {
        rule[at] = relation;
        rule[at + 1] = variables.len() as u64;
        for (term, variable) in rule[at + 2..].chunks_exact_mut(2).zip(variables) {
            term.copy_from_slice(&[1, *variable]);
        }
    }

    // from(x0 x1) → 10(x0 x2), to(x2 x1).
    fn person(from: u64, to: u64) -> Rule {
        let mut rule = [0; 53];
        rule[1] = 1;
        put_atom(&mut rule, 2, from, &[0, 1]);
        rule[32] = 2;
        put_atom(&mut rule, 33, 10, &[0, 2]);
        put_atom(&mut rule, 43, to, &[2, 1]);
        rule
    }

    // relation(x0 x1), relation(x0 x2) → x1 = x2.
    fn key(relation: u64) -> Rule {
        let mut rule = [0; 53];
        rule[0] = 1;
        rule[1] = 2;
        put_atom(&mut rule, 2, relation, &[0, 1]);
        put_atom(&mut rule, 12, relation, &[0, 2]);
        rule[32] = 1;
        rule[33] = 2;
        rule
    }

    // from(x0 x1) → to(x1 x2).
    fn step(from: u64, to: u64) -> Rule {
        let mut rule = [0; 53];
        rule[1] = 1;
        put_atom(&mut rule, 2, from, &[0, 1]);
        rule[32] = 1;
        put_atom(&mut rule, 33, to, &[1, 2]);
        rule
    }

    // Up to four dependencies behind their count.
    fn list(dependencies: &[Rule]) -> [u64; 213]
        requires { length dependencies.now ≤ 4 }
    {
        let mut rules = [0; 213];
        rules[0] = dependencies.len() as u64;
        for (room, rule) in rules[1..].chunks_exact_mut(53).zip(dependencies) {
            room.copy_from_slice(rule);
        }
        rules
    }

    // Whether the row begins with these numbers and holds 7 behind them.
    fn holds(row: &Row, expected: &[u64]) -> bool {
        match row.strip_prefix(expected) {
            Some(rest) => rest.iter().all(|number| *number == 7),
            None => false,
        }
    }

    // Objects with their makers' names and places are moved to persons: the persons have rank 1.
    #[test]
    fn persons(rt: HostRuntime) {
        let rules = list(&[person(0, 11), person(1, 12), key(10), key(11)]);
        let mut row = [7; 962];
        assert_eq!(rt; position_ranks(&rules, &mut row), Ok(10));
        let expected = [
            10, 0, 0, 0, 0, 1, 0, 10, 0, 0, 10, 1, 1, 11, 0, 1, 11, 1, 0, 1, 0, 0, 1, 1, 0, 12, 0,
            1, 12, 1, 0,
        ];
        assert!(rt; holds(&row, &expected));
    }

    #[test]
    fn no_ranks(rt: HostRuntime) {
        let rules = list(&[step(10, 10)]);
        let mut row = [7; 962];
        assert_eq!(rt;
            position_ranks(&rules, &mut row),
            Err(Refusal::Unranked { at: 0 })
        );
        let rules = list(&[person(0, 11), step(10, 10)]);
        assert_eq!(rt;
            position_ranks(&rules, &mut row),
            Err(Refusal::Unranked { at: 1 })
        );
        assert!(rt; holds(&row, &[]));
    }

    #[test]
    fn nothing(rt: HostRuntime) {
        let mut row = [7; 962];
        assert_eq!(rt; position_ranks(&[0], &mut row), Ok(0));
        assert!(rt; holds(&row, &[0]));
    }

    #[test]
    fn refused(rt: HostRuntime) {
        let mut row = [7; 962];
        assert_eq!(rt;
            position_ranks(&[], &mut row[0..960]),
            Err(Refusal::Dependencies { at: 16 })
        );
        assert_eq!(rt;
            position_ranks(&[0], &mut row[0..960]),
            Err(Refusal::Room { len: 960 })
        );
        assert_eq!(rt; position_ranks(&[0], &mut row[0..RANKS_LEN]), Ok(0));
        assert!(rt; holds(&row, &[0]));
    }

    // Makes all dependencies, the one behind i reading what i raises: 15-i(x0 x1) → 16-i(x1 x2).
    fn put_chain(rules: &mut [u64; 849]) {
        rules[0] = 16;
        for (i, rule) in rules[1..].chunks_exact_mut(53).enumerate() {
            rule.copy_from_slice(&step(15 - i as u64, 16 - i as u64));
        }
    }

    // The rank of each of their positions.
    fn chain_rank(relation: u64, place: u64) -> u64 {
        if place == 1 {
            relation
        } else {
            relation.saturating_sub(1)
        }
    }

    #[test]
    fn chain(rt: HostRuntime) {
        let mut rules = [0; 849];
        put_chain(&mut rules);
        let mut row = [7; 962];
        assert_eq!(rt; position_ranks(&rules, &mut row), Ok(34));
        for position in row[1..103].chunks_exact(3) {
            let rank = chain_rank(position[0], position[1]);
            assert_eq!(rt; position[2], rank);
        }
        assert_eq!(rt; row[103], 7);
    }

    // Makes all dependencies, each of five atoms of four variables, no position twice.
    fn put_full(rules: &mut [u64; 849]) {
        rules[0] = 16;
        for (i, rule) in rules[1..].chunks_exact_mut(53).enumerate() {
            rule[1] = 3;
            rule[32] = 2;
            for (a, place) in [2, 12, 22, 33, 43].into_iter().enumerate() {
                let relation = 5 * i as u64 + a as u64;
                let x = 4 * (a as u64 % 4);
                put_atom(rule, place, relation, &[x, x + 1, x + 2, x + 3]);
            }
        }
    }

    #[test]
    fn full(rt: HostRuntime) {
        let mut rules = [0; 849];
        put_full(&mut rules);
        let mut row = [7; 962];
        assert_eq!(rt; position_ranks(&rules, &mut row), Ok(320));
        assert_eq!(rt; row[958], 79);
        assert_eq!(rt; row[959], 3);
        assert_eq!(rt; row[960], 0);
        assert_eq!(rt; row[961], 7);
    }
}
