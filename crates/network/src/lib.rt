// The network file: refusals 1 to 5, and the condition table of a file that gets none of them.
#![tactic(auto)]

mod conditions;
mod directions;
mod lists;
mod record;
pub mod scan;
mod terms;

ghost use Rattle.std.specs.Prelude.{◌≡◌};
ghost use Rattle.network.specs.Net.{net_of, table_reply, Tables};
ghost use Rattle.text.specs.Lines.{lines_of};

pub use lists::{Lists, NetTable};
use reply::Refusal;

// How many directions and how many conditions a net has.
#[derive(Clone, Copy, Debug, PartialEq, Eq)]
pub struct Size {
    pub m: usize,
    pub n: usize,
}

// The condition table of a file, in lent lists.
pub fn table<'a>(file: &[u8], lists: &'a mut Lists) -> Result<NetTable<'a>, Refusal>
    ensures { Tables (table_reply file.now) (net_of (lines_of file.now)) result }
{
    scan::scan(file)?;
    let read = directions::read(file, &mut lists.directions, &mut lists.q);
    let m = read.count;
    let n = conditions::form_all(
        file,
        read,
        &lists.directions[..m],
        &lists.q[..m],
        &mut lists.rows,
    )?;
    // Once more as a whole, as it was lent: the borrow checker does not cover its parts one by one.
    let rows = &lists.rows;
    Ok(NetTable {
        directions: &lists.directions[..m],
        q: &lists.q[..m],
        a: &rows.a[..n * m],
        w: &rows.w[..n],
        kinds: &rows.kinds[..n],
    })
}
