// Season reports: of an archive in memory (`report`), and of one that comes in parts (`stream`).
#![tactic(auto)]

mod archive;
mod net;
pub mod stream;

ghost use Rattle.season.specs.Promise.{Reports};

use reply::Refusal;

// The report of an archive, into a lent list of sixteen totals; of its first 100,000 nets, where there are more (30).
pub fn report(archive: &[u8], totals: &mut [u64]) -> Result<(), Refusal>
    ensures { Reports archive.now totals.old result totals.new }
{
    let totals = totals.as_mut_array().ok_or(Refusal::Count(0))?;
    totals::clear(totals);
    archive::count_all(archive, totals)
}
