// One net's share in the totals: as the adjusting program replies to it, and of an accepted net what its table says of its conditions.
ghost use Rattle.std.specs.Prelude.{◌≡◌, ◌++◌, ◌*◌, ◌≤◌, ◌<◌, length};
ghost use Rattle.doolittle.specs.Inner.{Small};
ghost use Rattle.adjustment.specs.Promise.{adjust_reply};
ghost use Rattle.text.specs.Lines.{lines_of};
ghost use Rattle.network.specs.Net.{net_of, Tables};
ghost use Rattle.listing.specs.File.{room, file_reply};
ghost use Rattle.season.specs.Share.{counted_under, sum_to, most_to, size_at, figures, no_figures, share_of, left_share, long_share};

use adjustment::AnswerLists;
use condition::Kind;
use network::{Lists, NetTable};
use reply::Refusal;
use totals::TOTALS;

// One net under this number, 0 where it is accepted, with no figures.
// A number and no Result: the totals have a place for each number of the rules, and one for 0.
fn under(number: u64) -> [u64; TOTALS]
    requires { number ≤ 9 }
    ensures { result ≡ counted_under number ++ no_figures }
{
    let mut one = [0u64; TOTALS];
    one[0] = 1;
    one[number as usize + 1] = 1;
    one
}

// The share of bytes left after the last full stop line.
#[tactic(auto, unfolding(crate::specs::Share::left_share))]
pub fn left() -> [u64; TOTALS]
    ensures { result ≡ left_share }
{
    under(1)
}

// The share of a net that is too long.
// `left` and `long` stand apart as the rules name their shares.
#[tactic(auto, unfolding(crate::specs::Share::long_share))]
pub fn long() -> [u64; TOTALS]
    ensures { result ≡ long_share }
{
    under(2)
}

// The sizes of the misclosures of one kind: their sum, and the largest.
#[derive(Clone, Copy, Debug, PartialEq, Eq)]
struct Sizes {
    sum: u64,
    most: u64,
}

// The size of condition j's misclosure, where it is of this kind; else 0.
#[tactic(auto, unfolding(crate::specs::Share::size_at, crate::specs::Share::alike))]
fn size_at(kind: Kind, net: NetTable, j: usize) -> u64
    requires { j < length net.w.now }
    ensures { result ≡ size_at kind net.entry.kinds.now net.entry.w.now j }
{
    if net.kinds[j] == kind {
        net.w[j].unsigned_abs()
    } else {
        0
    }
}

// The sizes of this kind.
fn sizes_of(kind: Kind, net: NetTable) -> Sizes
    requires { Small 1000000 net.w.now (length net.w.now) }
    ensures sum { result.sum ≡ sum_to (length net.entry.w.now) (size_at kind net.entry.kinds.now net.entry.w.now) }
    ensures most { result.most ≡ most_to (length net.entry.w.now) (size_at kind net.entry.kinds.now net.entry.w.now) }
{
    let mut sum = 0;
    let mut most: u64 = 0;
    for j in 0..net.w.len() {
        let size = size_at(kind, net, j);
        sum += size;
        most = most.max(size);
    }
    Sizes { sum, most }
}

// The share of an accepted net. Its last five numbers stand where C's list of sixteen has them (specs/Totals).
fn accepted(net: NetTable) -> [u64; TOTALS]
    requires w { Small 1000000 net.w.now (length net.w.now) }
    requires a { length net.w.now * length net.directions.now ≤ length net.a.now }
    ensures { result ≡ counted_under 0 ++ figures net.entry.kinds.now net.entry.w.now net.entry.a.now (length net.entry.directions.now) }
{
    let angles = sizes_of(Kind::Angle, net);
    let sides = sizes_of(Kind::Side, net);
    let mut one = under(0);
    one[11] = angles.sum;
    one[12] = angles.most;
    one[13] = sides.sum;
    one[14] = sides.most;
    one[15] = u64::from(touched::shares_three(net.a, net.directions.len(), net.w.len()));
    one
}

// The reply to a net's condition table, through answer lists of its own.
fn reply_to(net: NetTable) -> Result<(), Refusal>
    ensures { result ≡ adjust_reply net.entry.directions.now net.entry.q.now net.entry.a.now net.entry.w.now
        (room (length net.entry.directions.now) (length net.entry.w.now)) }
{
    let mut lists = AnswerLists::new();
    lists.adjust(net.directions, net.q, net.a, net.w)?;
    Ok(())
}

// The condition table of a net's bytes, where the net is accepted.
fn accepted_table<'a>(net: &[u8], lists: &'a mut Lists) -> Result<NetTable<'a>, Refusal>
    ensures { Tables (file_reply net.now) (net_of (lines_of net.now)) result }
{
    let table = network::table(net, lists)?;
    reply_to(table)?;
    Ok(table)
}

// The share of a net that is closed, from its bytes.
pub fn share(net: &[u8]) -> [u64; TOTALS]
    ensures { result ≡ share_of net.now }
{
    let mut lists = Lists::new();
    match accepted_table(net, &mut lists) {
        Ok(table) => accepted(table),
        Err(why) => under(why.number()),
    }
}
