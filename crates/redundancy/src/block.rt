// The block of a fact: the facts that are connected with it through nulls.
ghost use Rattle.std.specs.Prelude.{◌≡◌, ℕ, ◌+◌, ◌<◌, ◌≤◌, map, length, Decides, slice_index};
ghost use Rattle.redundancy.specs.Blocks.{NoSharedNull, Arranged, Block};
ghost use Rattle.relational.specs.Represented.{fact_of};

use relational::Fact;

// Whether no null stands among both values.
fn are_apart(left: &Fact, right: &Fact, c: u64) -> bool
    ensures { Decides result (NoSharedNull c (fact_of left.now) (fact_of right.now)) }
{
    let others = right.values.as_slice();
    left.values
        .as_slice()
        .iter()
        .all(|value| *value < c || !others.contains(value))
}

// Writes each place at its own position.
fn number_places(order: &mut [usize])
    ensures { (p : ℕ) → p < length order.new → slice_index order.new p ≡ p }
{
    for (i, place) in order.iter_mut().enumerate() {
        *place = i;
    }
}

// Of the places behind the first `count`, puts those whose facts share a null with the k-th right behind them; how many stand there then.
fn gather(facts: &[Fact], order: &mut [usize], k: usize, count: usize, c: u64) -> usize
    requires arranged { Arranged c (map fact_of facts.now) (slice_index order.old 0) order.old k count }
    requires within { k < count }
    ensures arranged { Arranged c (map fact_of facts.now) (slice_index order.old 0) order.new (k + 1) result }
    ensures more { count ≤ result }
{
    let mut end = count;
    // By index: the places are exchanged while they are gone over.
    for i in count..order.len() {
        if !are_apart(&facts[order[i]], &facts[order[k]], c) {
            order.swap(i, end);
            end += 1;
        }
    }
    end
}

// Puts the places of the facts in an order in which the block of the fact at `place` comes first; how many facts it has.
pub fn order_block(facts: &[Fact], place: usize, order: &mut [usize], c: u64) -> usize
    requires { (length order.old ≡ length facts.now) × (place < length facts.now) }
    ensures { Block c (map fact_of facts.now) place order.new result }
{
    number_places(order);
    order.swap(0, place);
    let mut count = 1;
    let mut k = 0;
    // A `while`: the block grows while it is gone over.
    while k < count {
        count = gather(facts, order, k, count, c);
        k += 1;
    }
    count
}
