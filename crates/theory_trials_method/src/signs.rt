use theory_formula::Signs;
use theory_meaning::Sign;

const ALL: [Signs; 6] = [
    Signs::Neg,
    Signs::Zero,
    Signs::Pos,
    Signs::NotPos,
    Signs::NonZero,
    Signs::NotNeg,
];

/// The members of the sets, in their order: minus, zero, plus.
const MEMBERS: [[bool; 3]; 6] = [
    [true, false, false],
    [false, true, false],
    [false, false, true],
    [true, true, false],
    [true, false, true],
    [false, true, true],
];

fn members(signs: Signs) -> [bool; 3] {
    [
        signs.has(Sign::Minus),
        signs.has(Sign::Zero),
        signs.has(Sign::Plus),
    ]
}

/// The members of a set, and none where there is no set.
fn members_of(signs: Option<Signs>, none: bool) -> [bool; 3] {
    match signs {
        Some(signs) => members(signs),
        None => [none; 3],
    }
}

#[test]
fn one_set(rt: HostRuntime) {
    for i in 0..6 {
        let signs = ALL[i];
        let [minus, zero, plus] = MEMBERS[i];
        assert_eq!(rt; members(signs), [minus, zero, plus], "{signs:?}");
        assert_eq!(rt;
            members(signs.mirror()),
            [plus, zero, minus],
            "mirror of {signs:?}"
        );
        assert_eq!(rt;
            members(signs.complement()),
            [!minus, !zero, !plus],
            "complement of {signs:?}"
        );
        assert_eq!(rt;
            members_of(signs.without_zero(), false),
            [minus, false, plus],
            "{signs:?} without zero"
        );
    }
}

#[test]
fn two_sets(rt: HostRuntime) {
    for i in 0..6 {
        for j in 0..6 {
            let [a, b, c] = MEMBERS[i];
            let [x, y, z] = MEMBERS[j];
            assert_eq!(rt;
                members_of(ALL[i].meet(ALL[j]), false),
                [a && x, b && y, c && z],
                "{i} meets {j}"
            );
            assert_eq!(rt;
                members_of(ALL[i].join(ALL[j]), true),
                [a || x, b || y, c || z],
                "{i} joins {j}"
            );
        }
    }
}
