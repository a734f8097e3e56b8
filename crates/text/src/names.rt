// The table of names as the code has it: a name and a space, and the kind of its request.
ghost use Rattle.std.specs.Prelude.{◌≡◌, option_copied};
ghost use Rattle.text.specs.Names.{names};
ghost use Rattle.text.specs.Rows.{Rows, head_for};

// A line of that kind begins with `head`.
#[derive(Clone, Copy)]
pub(crate) struct Row {
    pub(crate) head: &'static [u8],
    pub(crate) kind: u8,
}

static ROWS: [Row; 7] = [
    Row {
        head: b"tgamma ",
        kind: 1,
    },
    Row {
        head: b"lgamma_r ",
        kind: 2,
    },
    Row {
        head: b"erf ",
        kind: 3,
    },
    Row {
        head: b"erfc ",
        kind: 4,
    },
    Row {
        head: b"lgammaf_r ",
        kind: 17,
    },
    Row {
        head: b"erff ",
        kind: 19,
    },
    Row {
        head: b"erfcf ",
        kind: 20,
    },
];

// The table, row by row.
#[tactic(auto, unfolding(crate::specs::Names::names))]
pub(crate) fn rows() -> &'static [Row]
    ensures { Rows result.now names }
{
    &ROWS
}

// What a line of a kind begins with, where the kind has a name.
pub(crate) fn name_of(kind: u8) -> Option<&'static [u8]>
    ensures { option_copied result ≡ head_for names kind }
{
    for row in rows() {
        if row.kind == kind {
            return Some(row.head);
        }
    }
    None
}
