// The last pass: a net's condition table through `adjustment`, its listing, and its errors where the sheet has them.
ghost use Rattle.std.specs.Prelude.{◌≡◌, [], ◌≤◌, length};
ghost use Rattle.adjustment.specs.Promise.{adjust_reply};
ghost use Rattle.precision.specs.Errors.{errors_of};
ghost use Rattle.precision.specs.Promise.{errors_reply};
ghost use Rattle.text.specs.Written.{Puts};
ghost use Rattle.page.specs.Page.{ListedBy};
ghost use Rattle.listing.specs.Listing.{on_sheet, room_of};
ghost use Rattle.listing.specs.File.{room, table_listing};

use crate::{Sheet, lines};
use adjustment::{Adjusted, AnswerLists};
use network::NetTable;
use precision::Errors;
use reply::Refusal;
use text::writer::Writer;

// The E line of a table that is accepted, where the sheet has one, behind its listing.
fn put_errors(sheet: Sheet, answers: Adjusted, q: &[i64], writer: &mut Writer)
    requires accepted { errors_reply answers.printed.now q.now (length answers.correlates.now) ≡ Ok tt }
    requires behind_lines { writer.old.at ≤ 6560 }
    requires roomy { room_of sheet ≤ length writer.old.out.now }
    ensures { Puts writer.old (on_sheet sheet [] (errors_of answers.entry.printed.now q.now (length answers.entry.correlates.now))) 46 writer.new }
{
    match sheet {
        Sheet::Plain => {}
        Sheet::WithErrors => {
            let Errors { mean, probable } = precision::estimate(
                answers.printed,
                q,
                answers.correlates.len(),
            );
            lines::put_e(writer, mean, probable);
        }
    }
}

// The listing of a net's condition table that is accepted, from the start of the buffer.
pub fn solve(sheet: Sheet, net: NetTable, out: &mut [u8]) -> Result<usize, Refusal>
    requires roomy { room_of sheet ≤ length out.old }
    ensures { ListedBy
        (adjust_reply net.entry.directions.now net.entry.q.now net.entry.a.now net.entry.w.now
        (room (length net.entry.directions.now) (length net.entry.w.now)))
        (table_listing sheet net.entry.directions.now net.entry.q.now net.entry.a.now net.entry.w.now) out.old result out.new }
{
    let mut lists = AnswerLists::new();
    let answers = lists.adjust(net.directions, net.q, net.a, net.w)?;
    let mut writer = Writer { out, at: 0 };
    lines::put_accepted(&mut writer, answers);
    put_errors(sheet, answers, net.q, &mut writer);
    Ok(writer.at)
}
