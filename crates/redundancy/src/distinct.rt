// Facts by value, each once.
ghost use Rattle.std.specs.Prelude.{◌≡◌, ◌+◌, ◌*◌, ◌≤◌, map, length, Ok};
ghost use Rattle.redundancy.specs.Cores.{distinct as distinct_facts};
ghost use Rattle.relational.specs.Elements.{elements};
ghost use Rattle.relational.specs.Layout.{facts_in};
ghost use Rattle.relational.specs.Readings.{facts_reading};
ghost use Rattle.relational.specs.Represented.{fact_of};

use relational::{Bounded, Fact, INSTANCE_FACTS_MAX};

// How many facts an instance has at most.
pub const FACTS_ROOM: usize = INSTANCE_FACTS_MAX as usize;

// The facts of a checked row, each once, at its first coming.
pub fn read_distinct(row: &[u64], count: usize) -> Bounded<Fact, FACTS_ROOM>
    requires read { facts_reading 320 row.now ≡ Ok (facts_in row.now count) }
    requires there { 6 * count + 1 ≤ length row.now }
    requires room { count ≤ 320 }
    ensures { map fact_of (elements result) ≡ distinct_facts (facts_in row.now count) }
{
    let mut facts = Bounded::new(Fact {
        relation: 0,
        values: Bounded::new(0),
    });
    // By number: the place of a fact in the row follows from it.
    for i in 0..count {
        let Some(fact) = Fact::read(&row[6 * i + 1..]) else {
            unreachable()
        };
        if !facts.as_slice().contains(&fact) {
            facts.push(fact);
        }
    }
    facts
}
