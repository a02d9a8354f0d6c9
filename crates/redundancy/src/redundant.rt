// Leaving out the tgds that the others imply.
ghost use Rattle.std.specs.Prelude.{◌≡◌, ◌+◌, ◌^◌, ◌<◌, ◌≤◌, [], map};
ghost use Rattle.redundancy.specs.Reductions.{ReductionMeans, reduction_answered, reduction_from};
ghost use Rattle.redundancy.specs.Tgds.{OnlyTgds};
ghost use Rattle.relational.specs.Elements.{elements};
ghost use Rattle.relational.specs.Readings.{judged};
ghost use Rattle.relational.specs.Represented.{dependency_of};
ghost use Rattle.relational.specs.Requests.{dependencies_of};

use crate::judge::judge;
use crate::rules::{read_tgds, tgds_fault};
use relational::{Bounded, Dependencies, Refusal};

// Judges the tgds one after the other, each beside those that stay and those still to be judged.
fn judge_each(tgds: &Dependencies, c: u64) -> Result<Bounded<bool, 16>, Refusal>
    requires tgds { OnlyTgds (dependencies_of tgds.now) }
    requires first { c ≤ 2 ^ 32 }
    ensures { judged elements result ≡ reduction_from c [] (dependencies_of tgds.now) }
{
    let all = tgds.as_slice();
    let mut stays = Bounded::new(true);
    let mut left = *tgds;
    let mut at = 0;
    for asked in all {
        let mut others = left;
        others.remove(at);
        let implied = judge(others.as_slice(), asked, c)?;
        if implied {
            left = others;
        } else {
            at += 1;
        }
        stays.push(!implied);
    }
    Ok(stays)
}

// For each of the tgds whether it stays when those go that the others imply, in order; the numbers below c are constants.
pub fn reduce(rules: &[u64], c: u64) -> Result<Bounded<bool, 16>, Refusal>
    ensures says { judged elements result ≡ reduction_answered rules.now c }
    ensures means { ReductionMeans rules.now result }
{
    let tgds = read_tgds(rules)?;
    if let Some(at) = tgds_fault(&tgds, c) {
        return Err(Refusal::Constants { at });
    }
    judge_each(&tgds, c)
}
