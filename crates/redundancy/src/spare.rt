// Taking out the facts that can be spared.
ghost use Rattle.std.specs.Prelude.{◌≡◌, ◌<◌, ◌≤◌, map, length, Decides};
ghost use Rattle.redundancy.specs.Cores.{thinned};
ghost use Rattle.relational.specs.Elements.{elements};
ghost use Rattle.relational.specs.Represented.{fact_of};
ghost use Rattle.relational.specs.Solutions.{Homomorphism};
ghost use Rattle.std.specs.List.{remove};

use crate::block::order_block;
use crate::distinct::FACTS_ROOM;
use crate::homomorphism::search;
use relational::{Bounded, Fact};

// Whether the facts go into the others without the one at `place`: its block has to, the others stay where they are.
fn can_spare(facts: &[Fact], place: usize, c: u64) -> bool
    requires few { length facts.now ≤ 320 }
    requires within { place < length facts.now }
    ensures { Decides result (Homomorphism c (map fact_of facts.now) (remove (map fact_of facts.now) place)) }
{
    let mut order = [0; FACTS_ROOM];
    let order = &mut order[..facts.len()];
    let count = order_block(facts, place, order, c);
    let mut pairs = Bounded::new((0, 0));
    search(&order[..count], facts, place, &mut pairs, c)
}

// Takes out each fact that can be spared, from the last to the first.
pub fn thin(facts: &mut Bounded<Fact, FACTS_ROOM>, c: u64)
    ensures { map fact_of (elements facts.new) ≡ thinned c (map fact_of (elements facts.old)) (length (map fact_of (elements facts.old))) (map fact_of (elements facts.old)) }
{
    // By place: the facts close up behind the one that is taken out.
    for place in (0..facts.count).rev() {
        if can_spare(facts.as_slice(), place, c) {
            facts.remove(place);
        }
    }
}
