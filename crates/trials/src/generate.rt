// Random cases: few relations, mostly of one or two places, and few constants, so that atoms meet facts and egds meet values that differ.
ghost use Rattle.std.specs.Prelude.{◌≤◌};

use crate::model::{Case, Query, variables};
use crate::random::Random;
use move_rows::{Atom, Dependency, Fact, few_of};
use relational::Term;
use std::alloc::{AllocError, Global};

// The relations that most facts and bodies have, and those that most heads, egds and queries have; the more often a number stands here, the more often it is drawn.
const SOURCES: [u64; 8] = [0, 1, 1, 2, 2, 2, 2, 0xffff_ffff];

const TARGETS: [u64; 8] = [3, 3, 3, 4, 4, 4, 5, 6];

// What a case is like: the constants are below c.
#[derive(Clone, Copy)]
struct Size {
    c: u64,
    facts: u64,
    dependencies: u64,
    // Whether there are so many facts that all pairs of them can take more than 128 steps.
    large: bool,
}

// What atoms are drawn from: a share of sources, so many variables from the first on, and the constants below c.
#[derive(Clone, Copy)]
struct Draw {
    source_percent: u64,
    first: u64,
    variables: u64,
    c: u64,
}

// The width that most facts and atoms of a relation have.
fn usual_width(relation: u64) -> usize
    ensures { result ≤ 3 }
{
    match relation {
        0 | 6 => 0,
        1 | 5 => 1,
        2..=4 => 2,
        _ => 3,
    }
}

// Facts, dependencies and cases out of random numbers.
#[derive(Drop)]
pub struct Generator<'a> {
    heap: Global,
    random: &'a mut Random,
}

impl<'a> Generator<'a> {
    pub fn new(heap: Global, random: &'a mut Random) -> Generator<'a> {
        Generator { heap, random }
    }
}

impl Generator<'_> {
    // A relation: so many times in a hundred a source.
    fn relation(&mut self, source_percent: u64) -> u64 {
        if self.random.chance(source_percent) {
            self.random.one_of(&SOURCES)
        } else {
            self.random.one_of(&TARGETS)
        }
    }

    // Mostly the width of the relation; sometimes one more.
    fn width(&mut self, relation: u64) -> usize
        ensures { result ≤ 4 }
    {
        let usual = usual_width(relation);
        if self.random.chance(6) {
            usual + 1
        } else {
            usual
        }
    }

    // A fact of numbers below `end`; without numbers, one without values.
    fn fact(&mut self, end: u64) -> Fact {
        let relation = self.relation(60);
        if end == 0 {
            return Fact::new(relation, &[]);
        }
        let width = self.width(relation);
        let places = [(); 4];
        Fact {
            relation,
            values: few_of(&places[..width], 0, |_| self.random.below(end)),
        }
    }

    // So many facts of numbers below `end`.
    pub fn put_facts(
        &mut self,
        facts: &mut Vec<Fact>,
        count: u64,
        end: u64,
    ) -> Result<(), AllocError> {
        for _ in 0..count {
            facts.push(self.fact(end))?;
        }
        Ok(())
    }

    fn term(&mut self, draw: Draw) -> Term {
        if draw.c > 0 && self.random.chance(8) {
            return Term::Constant(self.random.below(draw.c));
        }
        Term::Variable(draw.first.saturating_add(self.random.below(draw.variables)))
    }

    fn atom(&mut self, draw: Draw) -> Atom {
        let relation = self.relation(draw.source_percent);
        let width = self.width(relation);
        let places = [(); 4];
        Atom {
            relation,
            terms: few_of(&places[..width], Term::Constant(0), |_| self.term(draw)),
        }
    }

    fn atoms(&mut self, count: u64, draw: Draw) -> Result<Vec<Atom>, AllocError> {
        let mut atoms = Vec::new(self.heap);
        for _ in 0..count {
            atoms.push(self.atom(draw))?;
        }
        Ok(atoms)
    }

    // Where two facts of a relation of two places agree in the one, they agree in the other.
    fn key(&mut self) -> Result<Dependency, AllocError> {
        let relation = 3 + self.random.below(2);
        let x = Term::Variable(0);
        let y = Term::Variable(1);
        let z = Term::Variable(2);
        let body = if self.random.chance(60) {
            [Atom::new(relation, &[x, y]), Atom::new(relation, &[x, z])]
        } else {
            [Atom::new(relation, &[y, x]), Atom::new(relation, &[z, x])]
        };
        Ok(Dependency::Egd {
            body: Vec::from_slice(self.heap, &body)?,
            left: 1,
            right: 2,
        })
    }

    // An egd; without a variable in its body, a tgd that gives nothing.
    fn egd(&mut self, draw: Draw) -> Result<Dependency, AllocError> {
        if self.random.chance(75) {
            return self.key();
        }
        let count = self.random.one_of(&[1, 2, 2, 2]);
        let body = self.atoms(count, draw)?;
        let names = variables(self.heap, body.as_slice())?;
        if names.is_empty() {
            let head = Vec::new(self.heap);
            return Ok(Dependency::Tgd { body, head });
        }
        let left = self.random.one_of(names.as_slice());
        let right = self.random.one_of(names.as_slice());
        Ok(Dependency::Egd { body, left, right })
    }

    fn tgd_of(&self, body: &[Atom], head: &[Atom]) -> Result<Dependency, AllocError> {
        Ok(Dependency::Tgd {
            body: Vec::from_slice(self.heap, body)?,
            head: Vec::from_slice(self.heap, head)?,
        })
    }

    // Something new between the two values of a fact, or beside its one value: where there is a key, it meets others of its kind.
    fn link(&mut self) -> Result<Dependency, AllocError> {
        let x = Term::Variable(4);
        let y = Term::Variable(3);
        let z = Term::Variable(2);
        let body = if self.random.chance(70) {
            Atom::new(2, &[x, y])
        } else {
            Atom::new(1, &[x])
        };
        let head = if self.random.chance(50) {
            [Atom::new(3, &[x, z]), Atom::new(4, &[z, y])]
        } else {
            [Atom::new(4, &[z, x]), Atom::new(5, &[z])]
        };
        self.tgd_of(&[body], &head)
    }

    // A fact for each pair of a fact of one place and one of two.
    fn product(&self) -> Result<Dependency, AllocError> {
        let x = Term::Variable(0);
        let y = Term::Variable(1);
        let z = Term::Variable(15);
        let body = [Atom::new(1, &[x]), Atom::new(2, &[y, z])];
        self.tgd_of(&body, &[Atom::new(0xffff_ffff, &[x, y, z])])
    }

    // Bodies of more atoms are mostly sources, since going through relations that grow costs most.
    fn tgd(&mut self, draw: Draw) -> Result<Dependency, AllocError> {
        if self.random.chance(50) {
            return self.link();
        }
        let count = self.random.one_of(&[
            0, 1, 1, 1, 1, 1, 1, 1, 1, 1, 1, 2, 2, 2, 2, 2, 2, 2, 2, 3,
        ]);
        let source_percent = match count {
            0 | 1 => 75,
            2 => 92,
            _ => 99,
        };
        let body = self.atoms(
            count,
            Draw {
                source_percent,
                ..draw
            },
        )?;
        let count = self
            .random
            .one_of(&[0, 1, 1, 1, 1, 1, 1, 1, 1, 2, 2, 2, 2, 2, 2, 2, 2, 2]);
        let draw = Draw {
            source_percent: 6,
            variables: 4,
            ..draw
        };
        let head = self.atoms(count, draw)?;
        Ok(Dependency::Tgd { body, head })
    }

    // A tgd to be asked about.
    pub fn question(&mut self, c: u64) -> Result<Dependency, AllocError> {
        self.tgd(Draw {
            source_percent: 10,
            first: 0,
            variables: 3,
            c,
        })
    }

    fn dependency(&mut self, size: Size) -> Result<Dependency, AllocError> {
        if size.large {
            return self.product();
        }
        let draw = Draw {
            source_percent: 10,
            first: self.random.one_of(&[0, 0, 12]),
            variables: 3,
            c: size.c,
        };
        if self.random.chance(40) {
            self.egd(draw)
        } else {
            self.tgd(draw)
        }
    }

    // A query of one to three atoms; its row has variables of theirs, and a constant now and then.
    fn query(&mut self, c: u64) -> Result<Query, AllocError> {
        let count = self.random.one_of(&[1, 1, 1, 2, 2, 3]);
        let draw = Draw {
            source_percent: 20,
            first: 5,
            variables: 3,
            c,
        };
        let atoms = self.atoms(count, draw)?;
        let names = variables(self.heap, atoms.as_slice())?;
        let mut row = Vec::new(self.heap);
        for _ in 0..self.random.below(4) {
            if c > 0 && self.random.chance(5) {
                row.push(Term::Constant(self.random.below(c)))?;
            } else if !names.is_empty() {
                row.push(Term::Variable(self.random.one_of(names.as_slice())))?;
            }
        }
        Ok(Query {
            row: Atom::new(0, row.as_slice()),
            atoms,
        })
    }

    fn size(&mut self) -> Size {
        if self.random.below(250) == 0 {
            return Size {
                c: 60,
                facts: 50 + self.random.below(15),
                dependencies: 2,
                large: true,
            };
        }
        Size {
            c: self.random.one_of(&[0, 1, 2, 3, 4, 4, 5, 5, 6, 6, 8, 8]),
            facts: self.random.one_of(&[0, 1, 2, 3, 4, 5, 6, 7, 8, 10]),
            dependencies: self.random.one_of(&[0, 1, 2, 3, 3, 4, 4, 5, 6]),
            large: false,
        }
    }

    pub fn case(&mut self) -> Result<Case, AllocError> {
        let size = self.size();
        let mut facts = Vec::new(self.heap);
        self.put_facts(&mut facts, size.facts, size.c)?;
        let mut dependencies = Vec::new(self.heap);
        for _ in 0..size.dependencies {
            dependencies.push(self.dependency(size)?)?;
        }
        Ok(Case {
            c: size.c,
            facts,
            dependencies,
            query: self.query(size.c)?,
        })
    }
}
