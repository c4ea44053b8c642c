// The listing of a network file: its ADJ, V and K lines, an E line where the sheet has errors, and the operations on a whole file: `adjust`, which
// answers the reply and lists an accepted net, and above it `list`, for programs.
#![tactic(auto)]

mod lines;
mod solve;

ghost use Rattle.std.specs.Prelude.{◌≡◌, ◌≤◌, length};
ghost use Rattle.text.specs.Written.{Wrote};
ghost use Rattle.listing.specs.Listing.{room_of};
ghost use Rattle.listing.specs.File.{AdjustsFile, listing_in};

use network::Lists;
use reply::Refusal;

// What a listing holds: the adjustment alone, or at its end also the mean and the probable error of a direction, on an E line.
// It is matched where the two differ, since `on_sheet` and `room_of` say by these cases what is done.
#[derive(Clone, Copy, Debug, PartialEq, Eq)]
pub enum Sheet {
    Plain,
    WithErrors,
}

// The longest listing: that of 64 directions and 24 conditions, with the longest numbers.
pub const LISTING: usize = 6560;

// The longest with an E line.
pub const LISTING_WITH_ERRORS: usize = LISTING + 46;

// The bytes that hold the longest listing of a sheet.
fn room(sheet: Sheet) -> usize
    ensures { result ≡ room_of sheet }
{
    match sheet {
        Sheet::Plain => LISTING,
        Sheet::WithErrors => LISTING_WITH_ERRORS,
    }
}

// Adjusts a network file. The listing of an accepted one goes into the lent buffer, which must have room for the longest; a refusal leaves it as it was.
pub fn adjust(sheet: Sheet, file: &[u8], out: &mut [u8]) -> Result<usize, Refusal>
    ensures { AdjustsFile sheet file.now out.old result out.new }
{
    if out.len() < room(sheet) {
        return Err(Refusal::Count(0));
    }
    let mut lists = Lists::new();
    let net = network::table(file, &mut lists)?;
    solve::solve(sheet, net, out)
}

// The listing of any file, an accepted one's or the line of its refusal; how many bytes it has. A buffer without room for the longest stays as it was,
// and the answer is 0 (and no Option, since C is told so).
pub fn list(sheet: Sheet, file: &[u8], out: &mut [u8]) -> usize
    ensures listing { Wrote out.old 0 (listing_in sheet file.now (length out.old)) out.new result }
    ensures within { result ≤ length out.old }
{
    if out.len() < room(sheet) {
        return 0;
    }
    page::print(adjust(sheet, file, out), out)
}
