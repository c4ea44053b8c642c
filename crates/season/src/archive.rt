// The nets of an archive that lies in memory: each is found where it stands, from full stop line to full stop line, and counted.
ghost use Rattle.std.specs.Prelude.{◌≡◌, ◌-◌, ◌≤◌, [], length, take, drop};
ghost use Rattle.totals.specs.Totals.{report_of};
ghost use Rattle.season.specs.Archive.{stops};
ghost use Rattle.season.specs.Season.{shares_of, season_reply, season_report};
ghost use Rattle.season.specs.Stream.{count_reply, counted_in};
ghost use Rattle.season.specs.Inner.{IsShare, Roomy, NextStop};

use crate::net;
use reply::Refusal;
use text::{LF, find};
use totals::{MOST_NETS, TOO_MANY_NETS, TOTALS};

// Whether the line from `at` to `end`, where its LF stands, is a single full stop.
fn is_stop(archive: &[u8], at: usize, end: usize) -> bool
    requires { (at ≤ end) × (end ≤ length archive.now) }
    ensures { result ≡ stops (take (end - at) (drop at archive.now)) }
{
    end - at == 1 && archive[at] == b'.'
}

// Where the first full stop line at or after `start` stands; the end of the archive, where there is none. A line starts at `start`.
// No Option: a net reaches up to that place, the end among them, and a full stop line stands there just where it is before the end.
// A while loop: the line ends that it finds move it on, which no range says.
fn next_stop(archive: &[u8], start: usize) -> usize
    requires { start ≤ length archive.now }
    ensures { NextStop archive.now start result }
{
    let mut at = start;
    let mut end = find::place_from(archive, LF, at);
    while end < archive.len() {
        if is_stop(archive, at, end) {
            return at;
        }
        at = end + 1;
        end = find::place_from(archive, LF, at);
    }
    archive.len()
}

// Counts a net: its share is added, or it is refused where 100,000 have been (30).
#[tactic(auto, unfolding(crate::specs::Stream::count_reply, crate::specs::Stream::counted_in))]
pub fn count(share: [u64; TOTALS], totals: &mut [u64; TOTALS]) -> Result<(), Refusal>
    requires { IsShare share × Roomy totals.old }
    ensures reply { result ≡ count_reply totals.old }
    ensures list { totals.new ≡ counted_in share totals.old }
{
    if totals[0] >= MOST_NETS {
        return Err(TOO_MANY_NETS);
    }
    totals::add(totals, &share);
    Ok(())
}

// Counts the nets of an archive, in totals that have none yet.
// A while loop: the full stop lines that it finds move it on, which no range says.
pub fn count_all(archive: &[u8], totals: &mut [u64; TOTALS]) -> Result<(), Refusal>
    requires { totals.old ≡ report_of [] }
    ensures reply { result ≡ season_reply (shares_of archive.now) }
    ensures list { totals.new ≡ season_report (shares_of archive.now) }
{
    let mut start = 0;
    let mut stop = next_stop(archive, start);
    while stop < archive.len() {
        count(net::share(&archive[start..stop]), totals)?;
        start = stop + 2;
        stop = next_stop(archive, start);
    }
    if start < archive.len() {
        count(net::left(), totals)?;
    }
    Ok(())
}
