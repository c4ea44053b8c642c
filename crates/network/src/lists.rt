// The lists that a net's condition table stands in, and the table.
ghost use Rattle.std.specs.Prelude.{◌≡◌, ◌≤◌, length};

use crate::conditions::Rows;
use condition::Kind;

// Lists that hold the table of any net. Nothing compares or prints them, or the table.
#[derive(Drop)]
pub struct Lists {
    pub(crate) directions: [i64; 64],
    pub(crate) q: [i64; 64],
    pub(crate) rows: Rows,
}

impl Lists {
    ghost use Rattle.network.specs.Gathered.{no_net};

    // All zeros, and the kind of an angle condition. Nothing reads them before `table` has written over them.
    #[tactic(auto, unfolding(crate::specs::Gathered::no_net))]
    pub fn new() -> Lists
        ensures { result ≡ no_net }
    {
        Lists {
            directions: [0; 64],
            q: [0; 64],
            rows: Rows {
                a: [0; 1536],
                w: [0; 24],
                kinds: [Kind::Angle; 24],
            },
        }
    }
}

// The condition table of an accepted net: directions and q, rows of a coefficient for each direction, misclosures, and beside these the conditions' kinds.
#[derive(Clone, Copy)]
pub struct NetTable<'a> {
    pub directions: &'a [i64],
    pub q: &'a [i64],
    pub a: &'a [i64],
    pub w: &'a [i64],
    pub kinds: &'a [Kind],
    ghost few: { (length directions.now ≤ 64) × (length w.now ≤ 24) },
    ghost paired: { (length q.now ≡ length directions.now) × (length kinds.now ≡ length w.now) },
}
