// Mistakes that a chase could make, each with a small case on which it would answer otherwise, and what it would answer then.
#[derive(Clone, Copy)]
pub struct Lesson {
    pub mistake: &'static str,
    pub facts: &'static str,
    pub rules: &'static [Rule],
    // The row of the query, whose one atom is 10(x y), as an atom of relation 0.
    pub row: &'static str,
    pub asked: Asked,
    // What is told, in text; nothing where it is impossible.
    pub right: Option<&'static str>,
    pub mistaken: Option<&'static str>,
}

// Atoms, and the atoms that they give or the variables that they make equal.
#[derive(Clone, Copy)]
pub struct Rule {
    pub body: &'static str,
    pub gives: &'static str,
}

// What the engine is asked for: the facts of the result, or the rows of the certain answers (as facts of relation 0).
#[derive(Clone, Copy)]
pub enum Asked {
    Facts,
    Answers,
}

// Numbers below this are constants.
pub const C: u64 = 100;

// Relation 0: object, maker's name; 1: object, place of the maker; 10: object, person; 11: person, name; 12: person, place; 13: person.
const NAMED: Rule = Rule {
    body: "0(x y)",
    gives: "10(x z) 11(z y)",
};

const PLACED: Rule = Rule {
    body: "1(x y)",
    gives: "10(x z) 12(z y)",
};

const ONE_MAKER: Rule = Rule {
    body: "10(x y) 10(x z)",
    gives: "y=z",
};

// A dependency that asks for nothing.
const NONE: Rule = Rule {
    body: "",
    gives: "",
};

pub static LESSONS: [Lesson; 14] = [
    Lesson {
        mistake: "a new person for every card",
        facts: "0(1 50) 0(1 51)",
        rules: &[
            Rule {
                body: "0(x y)",
                gives: "10(x z)",
            },
            NONE,
            NONE,
        ],
        row: "0(x y)",
        asked: Asked::Facts,
        right: Some("0(1 50) 0(1 51) 10(1 100)"),
        mistaken: Some("0(1 50) 0(1 51) 10(1 100) 10(1 101)"),
    },
    Lesson {
        mistake: "a new person beside one who will do",
        facts: "11(7 50) 0(1 50) 10(1 7)",
        rules: &[NAMED, NONE, NONE],
        row: "0(x y)",
        asked: Asked::Facts,
        right: Some("11(7 50) 0(1 50) 10(1 7)"),
        mistaken: Some("11(7 50) 0(1 50) 10(1 7) 10(1 100) 11(100 50)"),
    },
    // The maker of 1 is 7, and 8 has the name 50: that does not make anyone both.
    Lesson {
        mistake: "each atom of a head looked for by itself",
        facts: "0(1 50) 10(1 7) 11(8 50)",
        rules: &[NAMED, NONE, NONE],
        row: "0(x y)",
        asked: Asked::Facts,
        right: Some("0(1 50) 10(1 7) 11(8 50) 10(1 100) 11(100 50)"),
        mistaken: Some("0(1 50) 10(1 7) 11(8 50)"),
    },
    Lesson {
        mistake: "a person who is there taken for some person",
        facts: "0(1 50) 13(7)",
        rules: &[
            Rule {
                body: "0(x y)",
                gives: "10(x z) 13(z)",
            },
            NONE,
            NONE,
        ],
        row: "0(x y)",
        asked: Asked::Facts,
        right: Some("0(1 50) 13(7) 10(1 100) 13(100)"),
        mistaken: Some("0(1 50) 13(7) 10(1 7) 13(7)"),
    },
    Lesson {
        mistake: "and answered as the maker",
        facts: "0(1 50) 13(7)",
        rules: &[
            Rule {
                body: "0(x y)",
                gives: "10(x z) 13(z)",
            },
            NONE,
            NONE,
        ],
        row: "0(x y)",
        asked: Asked::Answers,
        right: Some(""),
        mistaken: Some("0(1 7)"),
    },
    Lesson {
        mistake: "made equal only in the fact where it was found",
        facts: "0(1 50) 1(1 70)",
        rules: &[NAMED, PLACED, ONE_MAKER],
        row: "0(x y)",
        asked: Asked::Facts,
        right: Some("0(1 50) 1(1 70) 10(1 100) 11(100 50) 10(1 100) 12(100 70)"),
        mistaken: Some("0(1 50) 1(1 70) 10(1 100) 11(100 50) 10(1 100) 12(101 70)"),
    },
    Lesson {
        mistake: "the smaller number replaced by the larger",
        facts: "0(1 50) 1(1 70)",
        rules: &[NAMED, PLACED, ONE_MAKER],
        row: "0(x y)",
        asked: Asked::Facts,
        right: Some("0(1 50) 1(1 70) 10(1 100) 11(100 50) 10(1 100) 12(100 70)"),
        mistaken: Some("0(1 50) 1(1 70) 10(1 101) 11(101 50) 10(1 101) 12(101 70)"),
    },
    Lesson {
        mistake: "impossible where two nulls differ",
        facts: "0(1 50) 1(1 70)",
        rules: &[NAMED, PLACED, ONE_MAKER],
        row: "0(x y)",
        asked: Asked::Facts,
        right: Some("0(1 50) 1(1 70) 10(1 100) 11(100 50) 10(1 100) 12(100 70)"),
        mistaken: None,
    },
    Lesson {
        mistake: "a row with a null answered",
        facts: "0(1 50) 1(1 70)",
        rules: &[NAMED, PLACED, ONE_MAKER],
        row: "0(x y)",
        asked: Asked::Answers,
        right: Some(""),
        mistaken: Some("0(1 100)"),
    },
    // That 1 has a maker is certain, though it is not certain who.
    Lesson {
        mistake: "no answer where a match has a null outside the row",
        facts: "0(1 50) 1(1 70)",
        rules: &[NAMED, PLACED, ONE_MAKER],
        row: "0(x)",
        asked: Asked::Answers,
        right: Some("0(1)"),
        mistaken: Some(""),
    },
    Lesson {
        mistake: "the constant replaced by the null",
        facts: "10(1 5) 0(1 50)",
        rules: &[NAMED, ONE_MAKER, NONE],
        row: "0(x y)",
        asked: Asked::Facts,
        right: Some("10(1 5) 0(1 50) 10(1 5) 11(5 50)"),
        mistaken: Some("10(1 100) 0(1 50) 10(1 100) 11(100 50)"),
    },
    Lesson {
        mistake: "impossible where a constant and a null differ",
        facts: "10(1 5) 0(1 50)",
        rules: &[NAMED, ONE_MAKER, NONE],
        row: "0(x y)",
        asked: Asked::Facts,
        right: Some("10(1 5) 0(1 50) 10(1 5) 11(5 50)"),
        mistaken: None,
    },
    Lesson {
        mistake: "bodies matched among the new facts only",
        facts: "0(1 50) 1(1 70)",
        rules: &[
            Rule {
                body: "0(x y)",
                gives: "10(x y)",
            },
            Rule {
                body: "10(x y) 1(x z)",
                gives: "12(y z)",
            },
            NONE,
        ],
        row: "0(x y)",
        asked: Asked::Facts,
        right: Some("0(1 50) 1(1 70) 10(1 50) 12(50 70)"),
        mistaken: Some("0(1 50) 1(1 70) 10(1 50)"),
    },
    Lesson {
        mistake: "an egd judged by the facts that came in only",
        facts: "10(1 5) 0(1 6)",
        rules: &[
            ONE_MAKER,
            Rule {
                body: "0(x y)",
                gives: "10(x y)",
            },
            NONE,
        ],
        row: "0(x y)",
        asked: Asked::Facts,
        right: None,
        mistaken: Some("10(1 5) 0(1 6) 10(1 6)"),
    },
];
