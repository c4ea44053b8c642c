// Each condition's terms through `condition`: its row of coefficients and its misclosure, or refusal 4 or 5 with the condition's number; and its kind.
ghost use Rattle.std.specs.Prelude.{◌≡◌, ◌≤◌, length, drop, MatchResult, Err};
ghost use Rattle.text.specs.Lines.{lines_of};
ghost use Rattle.reply.specs.Checks.{figure_of};
ghost use Rattle.condition.specs.Rules.{coefficients_list};
ghost use Rattle.network.specs.Net.{lent_of, condition_reply, misclosure_of, net_from};
ghost use Rattle.network.specs.Turns.{turn_at};
ghost use Rattle.network.specs.Gathered.{condition_of, condition_at, heading_in, Body, Opened, Fit, Closes, Forms};

use crate::record::{Record, Run, Turn};
use crate::terms;
use crate::terms::Terms;
use condition::Kind;
use reply::Refusal;

// A C line: the kind of its condition, the target, which is 0 for a side condition, and where its terms start.
// A number and no Option: `condition` is lent a target with each kind, as C lends it, and reads that of an angle condition alone.
#[derive(Clone, Copy, Debug, PartialEq, Eq)]
pub struct Heading {
    pub kind: Kind,
    pub target: i64,
    pub next: usize,
}

// The heading that a line is, if it is one.
#[tactic(auto, unfolding(crate::specs::Gathered::begins, crate::specs::Gathered::heading_in))]
fn heading_of(turn: Option<Turn>) -> Option<Heading>
    ensures { result ≡ heading_in turn }
{
    let Turn { said, next } = turn?;
    match said {
        Record::Angles { target } => Some(Heading {
            kind: Kind::Angle,
            target,
            next,
        }),
        Record::Sides => Some(Heading {
            kind: Kind::Side,
            target: 0,
            next,
        }),
        Record::Direction { .. } | Record::Term { .. } => None,
    }
}

// A condition as `condition` takes it: list by list, as C lends them.
// Nothing compares or prints lists that are lent, here and in lists.rt and terms.rt, so these structs derive neither.
#[derive(Clone, Copy)]
pub struct Asked<'a> {
    pub kind: Kind,
    pub target: i64,
    pub kinds: &'a [i64],
    pub values: &'a [i64],
    pub d: &'a [i64],
    pub i: &'a [i64],
    pub k: &'a [i64],
}

// Condition j: its coefficients, into its row, and its misclosure; or 4, or 5. Directions and q come one by one, here and below, as `condition` takes them.
fn form(directions: &[i64], q: &[i64], c: Asked, row: &mut [i64], j: u64) -> Result<i64, Refusal>
    requires { length row.old ≡ length directions.now }
    ensures figure { result ≡ figure_of
        (condition_reply directions.now q.now j (condition_of c.entry))
        (misclosure_of directions.now q.now (condition_of c.entry)) }
    ensures list { row.new ≡ coefficients_list (lent_of directions.now q.now (condition_of c.entry)) row.old }
{
    let formed = condition::coefficients(
        directions, q, c.kind, c.target, c.kinds, c.values, c.d, c.i, c.k, row,
    );
    formed.or(Err(Refusal::Coefficient(j)))?;
    let closed = condition::misclosure(
        directions, q, c.kind, c.target, c.kinds, c.values, c.d, c.i, c.k,
    );
    closed.or(Err(Refusal::Misclosure(j)))
}

// The misclosure of one condition; and the first line after its terms: where it starts, and what is read there, since reading it has shown their end.
#[derive(Clone, Copy, Debug, PartialEq, Eq)]
pub struct Closed {
    pub w: i64,
    pub at: usize,
    pub turn: Option<Turn>,
}

// Condition j, by its heading and the terms behind it.
#[tactic(auto, using(crate::proofs::Forming::row_asked))]
fn form_at(
    file: &[u8],
    heading: Heading,
    directions: &[i64],
    q: &[i64],
    row: &mut [i64],
    j: u64,
) -> Result<Closed, Refusal>
    requires at_in_bounds { (heading.next ≤ length file.now) × (length (net_from file.now heading.next).pending.kinds ≤ 12)
        × Body (lines_of (drop heading.next file.now)) }
    requires row_len { length row.old ≡ length directions.now }
    ensures list { row.new ≡ coefficients_list (lent_of directions.now q.now (condition_at file.now heading)) row.old }
    ensures closed { MatchResult result
        (λ closed. Closes file.now heading.next directions.now q.now j (condition_at file.now heading) closed.w closed.at × (closed.turn ≡ turn_at file.now closed.at))
        (λ why. condition_reply directions.now q.now j (condition_at file.now heading) ≡ Err why) }
{
    let mut terms = Terms {
        kinds: [0; 12],
        values: [0; 12],
        d: [0; 12],
        i: [0; 12],
        k: [0; 12],
    };
    let read = terms::gather(file, heading.next, &mut terms);
    let n = read.count;
    let c = Asked {
        kind: heading.kind,
        target: heading.target,
        kinds: &terms.kinds[..n],
        values: &terms.values[..n],
        d: &terms.d[..n],
        i: &terms.i[..n],
        k: &terms.k[..n],
    };
    let w = form(directions, q, c, row, j)?;
    Ok(Closed {
        w,
        at: read.at,
        turn: read.turn,
    })
}

// Lists for what is formed of conditions: rows of coefficients, misclosures, and beside these their kinds, since `adjustment` is lent misclosures as a list.
// Arrays, of which the first places are used, as in terms.rt.
#[derive(Drop)]
pub struct Rows {
    pub a: [i64; 1536],
    pub w: [i64; 24],
    pub kinds: [Kind; 24],
}

// All conditions that stand behind the directions that have been read, in their order: rows of a coefficient for each direction, misclosures, and
// kinds; how many conditions they are.
pub fn form_all(
    file: &[u8],
    read: Run,
    directions: &[i64],
    q: &[i64],
    rows: &mut Rows,
) -> Result<usize, Refusal>
    requires first_in_bounds { (read.at ≤ length file.now) × (length directions.now ≤ 64) }
    requires opening { read.turn ≡ turn_at file.now read.at }
    requires first_len_bound { (length (net_from file.now read.at).conditions ≤ 24) × Fit (net_from file.now read.at).conditions
        × Opened (lines_of (drop read.at file.now)) }
    ensures { Forms directions.now q.now (net_from file.now read.at).conditions result rows.new.a rows.new.w rows.new.kinds }
{
    let m = directions.len();
    // For the proof alone: where the line that has been read starts. What is still to come is told from there. (The language has no ghost local.)
    let mut start = read.at;
    let mut turn = read.turn;
    let mut at = 0;
    let mut n = 0;
    // A loop that a line ends: the scan has counted the lines, but answers only whether they are refused.
    loop {
        let Some(heading) = heading_of(turn) else {
            return Ok(n);
        };
        let closed = form_at(
            file,
            heading,
            directions,
            q,
            &mut rows.a[at..at + m],
            n as u64 + 1,
        )?;
        rows.w[n] = closed.w;
        rows.kinds[n] = heading.kind;
        at += m;
        n += 1;
        start = closed.at;
        turn = closed.turn;
    }
}
