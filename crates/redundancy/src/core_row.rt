// The core of an instance, from row to row.
ghost use Rattle.std.specs.Prelude.{◌≡◌, ◌+◌, ◌*◌, ◌≤◌, map, length};
ghost use Rattle.redundancy.specs.CoreRows.{CoreMeans, CoreSays, core_reading};
ghost use Rattle.relational.specs.Represented.{fact_of};
ghost use Rattle.relational.specs.Rows.{replaced};

use crate::distinct::read_distinct;
use crate::spare::thin;
use relational::{FIRST_NULL_MAX, Fact, INSTANCE_FACTS_MAX, INSTANCE_LEN, Refusal, check_facts};

// Writes the facts as an instance, with 0 in room that is not used; how many there are.
fn publish(facts: &[Fact], out: &mut [u64]) -> u64
    requires { 6 * length facts.now + 1 ≤ length out.old }
    ensures count { result ≡ length (map fact_of facts.now) }
    ensures after { out.new ≡ replaced out.old (map fact_of facts.now) }
{
    out[0] = 0;
    for (i, fact) in facts.iter().enumerate() {
        fact.write(&mut out[6 * i + 1..]);
    }
    let count = facts.len() as u64;
    out[0] = count;
    count
}

// Writes the core of the instance: facts that stand twice go, the first stays; then, from the last to the first, each fact without which the instance
// still goes into the rest by a homomorphism that fixes the constants, the numbers below c. How many facts it has.
pub fn core_of(instance: &[u64], out: &mut [u64], c: u64) -> Result<u64, Refusal>
    ensures says { CoreSays c (core_reading instance.now (length out.old) c) result out.old out.new }
    ensures means { CoreMeans c (core_reading instance.now (length out.old) c) result out.new }
{
    let facts = check_facts(instance, INSTANCE_FACTS_MAX, c)?;
    let ..=FIRST_NULL_MAX = c else {
        return Err(Refusal::Constants { at: 80 });
    };
    let INSTANCE_LEN.. = out.len() else {
        return Err(Refusal::Room {
            len: out.len() as u64,
        });
    };
    let mut left = read_distinct(instance, facts.count);
    thin(&mut left, c);
    Ok(publish(left.as_slice(), out))
}
