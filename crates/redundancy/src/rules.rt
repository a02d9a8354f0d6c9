// Reading dependencies that all have to be tgds.
ghost use Rattle.redundancy.specs.Implications.{tgd_read, tgds_fault, tgds_reading};
ghost use Rattle.redundancy.specs.Tgds.{is_tgd};
ghost use Rattle.relational.specs.Readings.{judged};
ghost use Rattle.relational.specs.Represented.{dependency_of};
ghost use Rattle.relational.specs.Requests.{dependencies_of};
ghost use Rattle.relational.specs.Tests.{first_failing};
ghost use Rattle.std.specs.Option.{option_map};
ghost use Rattle.std.specs.Prelude.{◌≡◌, map};

use relational::{Dependencies, Dependency, Facts, Refusal, constants_fault, read_dependencies};

// Whether a dependency is a tgd.
fn is_tgd(dependency: &Dependency) -> bool
    ensures { result ≡ is_tgd (dependency_of dependency.now) }
{
    matches!(dependency, Dependency::Tgd { .. })
}

// The place of the first egd.
fn first_egd(dependencies: &[Dependency]) -> Option<u64>
    ensures { result ≡ first_failing is_tgd (map dependency_of dependencies.now) 0 }
{
    dependencies
        .iter()
        .position(|dependency| !is_tgd(dependency))
        .map(|at| at as u64)
}

// The tgds of a row, decoded; the first egd is refused at its place.
pub fn read_tgds(rules: &[u64]) -> Result<Dependencies, Refusal>
    ensures { judged dependencies_of result ≡ tgds_reading rules.now }
{
    let dependencies = read_dependencies(rules)?;
    match first_egd(dependencies.as_slice()) {
        Some(at) => Err(Refusal::Dependencies { at }),
        None => Ok(dependencies),
    }
}

// The tgd that the numbers begin with.
pub fn read_tgd(numbers: &[u64]) -> Option<Dependency>
    ensures { option_map dependency_of result ≡ tgd_read numbers.now }
{
    Dependency::read(numbers).filter(is_tgd)
}

// The place of the first tgd with a constant that is not below c, counted behind 64; c itself is looked at first.
pub fn tgds_fault(tgds: &Dependencies, c: u64) -> Option<u64>
    ensures { result ≡ tgds_fault c (dependencies_of tgds.now) }
{
    let no_facts = Facts {
        count: 0,
        not_constant: None,
    };
    constants_fault(no_facts, tgds, c)
}
