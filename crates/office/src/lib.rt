// The public operations for programs in C, C++ and Rust. Each calls the library's own operation and tells its reply in numbers; nothing is worked
// out here. The crate office_c exports these functions, and include/molsadriu.h declares them.
// Lists side by side, counts beside them, numbers to be filled and numbers for what is told are as C lends and reads them.
#![tactic(auto)]

ghost use Rattle.std.specs.Prelude.{◌≡◌, ◌≤◌, length, take, drop};
ghost use Rattle.reply.specs.Checks.{figure_reply, figure_leaves};
ghost use Rattle.reply.specs.Verdicts.{verdict_of};
ghost use Rattle.station.specs.Sightings.{book};
ghost use Rattle.station.specs.Rescue.{lent};
ghost use Rattle.adjustment.specs.Promise.{lists};
ghost use Rattle.precision.specs.Errors.{errors};
ghost use Rattle.text.specs.Lines.{line_at, status_at};
ghost use Rattle.text.specs.Written.{Wrote};
ghost use Rattle.page.specs.Page.{refused_line_in};
ghost use Rattle.listing.specs.declared.Sheet.TheVariants.{Plain, WithErrors};
ghost use Rattle.listing.specs.File.{listing_in};
ghost use Rattle.book.specs.declared.parts.Part.TheVariants.{Kept, Dropped};
ghost use Rattle.office.specs.Promises.{Means, SightingBook, SightingsRescued, BookParted, Coefficients, Misclosed, Table, DirectionErrors, File};
ghost use Rattle.office.specs.Promises.{SeasonReport, SeasonBegun, SeasonNext, SeasonEnded, ReportSum, SheetChecked};
ghost use Rattle.office.specs.Terms.{heading_of, terms_of};
ghost use Rattle.office.specs.Statuses.{status_number, line_told};

use book::parts::Part;
use condition::Kind;
use listing::Sheet;
use precision::Errors;
use reply::{Refusal, Verdict};
use sheet::Opinion;
use station::Rescued;
use text::line::LineStatus;

// The kind of condition that a letter names: A is an angle condition, S a side condition. A function and no TryFrom: `Kind` is another crate's type, and
// `condition` knows no letters of kinds.
fn kind_named(letter: u8) -> Option<Kind>
    ensures { result ≡ heading_of letter }
{
    match letter {
        b'A' => Some(Kind::Angle),
        b'S' => Some(Kind::Side),
        _ => None,
    }
}

// What C is told of an answer that gives something, as the length of a listing: that goes into the lent place, and a refusal leaves what stood there.
fn tell_given<T: Copy>(given: Result<T, Refusal>, place: &mut T) -> Verdict
    ensures verdict { result ≡ verdict_of (figure_reply given) }
    ensures left { place.new ≡ figure_leaves given place.old }
{
    match given {
        Ok(value) => {
            *place = value;
            Verdict::from(Ok(()))
        }
        Err(why) => Verdict::from(why),
    }
}

// What C is told of an opinion on a sheet: 0 where it agrees, else the line of the first test that fails.
fn line_told(opinion: Opinion) -> u64
    ensures { result ≡ line_told opinion }
{
    match opinion {
        Opinion::Yes => 0,
        Opinion::No(line) => line,
    }
}

// Station means: the direction and the number of pairs of each object, into two lent lists of 16.
pub fn molsadriu_station_means(
    position: &[i64],
    object: &[i64],
    face: &[i64],
    reading: &[i64],
    direction: &mut [i64],
    pairs: &mut [i64],
) -> Verdict
    ensures { Means (book position.now object.now face.now reading.now)
        direction.old pairs.old result direction.new pairs.new }
{
    Verdict::from(station::means(position, object, face, reading, direction, pairs))
}

// Station means of a sighting book: the listing of an accepted one, into a lent buffer of at least 1,136 bytes, and its length, into one lent number.
pub fn molsadriu_station_book(file: &[u8], out: &mut [u8], length: &mut usize) -> Verdict
    ensures { SightingBook file.now out.old length.old result out.new length.new }
{
    tell_given(book::means(file, out), length)
}

// The rescue of a spoiled list of sightings: the kept ones, into the first places of four lent lists, and for each dropped one its ordinal and its reason,
// into those of two more, each of as many places as there are sightings; and how many are kept and dropped, into two lent numbers.
pub fn molsadriu_rescue_sightings(
    position: &[i64],
    object: &[i64],
    face: &[i64],
    reading: &[i64],
    kept_position: &mut [i64],
    kept_object: &mut [i64],
    kept_face: &mut [i64],
    kept_reading: &mut [i64],
    ordinals: &mut [u64],
    reasons: &mut [u64],
    kept: &mut usize,
    dropped: &mut usize,
) -> Verdict
    ensures { SightingsRescued (book position.now object.now face.now reading.now)
        (lent kept_position.old kept_object.old kept_face.old kept_reading.old ordinals.old reasons.old)
        kept.old dropped.old result
        (lent kept_position.new kept_object.new kept_face.new kept_reading.new ordinals.new reasons.new)
        kept.new dropped.new }
{
    let rescued = station::rescue(
        position,
        object,
        face,
        reading,
        kept_position,
        kept_object,
        kept_face,
        kept_reading,
        ordinals,
        reasons,
    );
    let mut counts = Rescued {
        kept: *kept,
        dropped: *dropped,
    };
    let told = tell_given(rescued, &mut counts);
    *kept = counts.kept;
    *dropped = counts.dropped;
    told
}

// The kept lines of a spoiled sighting book, which are a book again, into a lent buffer of at least 10,752 bytes, and their length, into one lent number.
pub fn molsadriu_rescue_book(file: &[u8], out: &mut [u8], length: &mut usize) -> Verdict
    ensures { BookParted Kept file.now out.old length.old result out.new length.new }
{
    tell_given(book::rescue(Part::Kept, file, out), length)
}

// A line for each sighting of a spoiled book that is dropped, its ordinal and its reason, into a lent buffer of at least 4,096 bytes, and their length, into
// one lent number.
pub fn molsadriu_dropped_book(file: &[u8], out: &mut [u8], length: &mut usize) -> Verdict
    ensures { BookParted Dropped file.now out.old length.old result out.new length.new }
{
    tell_given(book::rescue(Part::Dropped, file, out), length)
}

// The coefficients of one condition, into a lent list of as many numbers as there are directions.
pub fn molsadriu_coefficients(
    directions: &[i64],
    q: &[i64],
    letter: u8,
    target: i64,
    kinds: &[i64],
    values: &[i64],
    d: &[i64],
    i: &[i64],
    k: &[i64],
    a: &mut [i64],
) -> Verdict
    ensures { Coefficients (heading_of letter)
        (terms_of directions.now q.now target
        kinds.now values.now d.now i.now k.now)
        a.old result a.new }
{
    // No `ok_or(..)?`: the answer is a Verdict.
    let Some(kind) = kind_named(letter) else {
        return Verdict::from(Refusal::Malformed(0));
    };
    Verdict::from(condition::coefficients(directions, q, kind, target, kinds, values, d, i, k, a))
}

// The misclosure of the same condition, into one lent number.
pub fn molsadriu_misclosure(
    directions: &[i64],
    q: &[i64],
    letter: u8,
    target: i64,
    kinds: &[i64],
    values: &[i64],
    d: &[i64],
    i: &[i64],
    k: &[i64],
    w: &mut i64,
) -> Verdict
    ensures { Misclosed (heading_of letter)
        (terms_of directions.now q.now target
        kinds.now values.now d.now i.now k.now)
        w.old result w.new }
{
    // No `ok_or(..)?`: the answer is a Verdict.
    let Some(kind) = kind_named(letter) else {
        return Verdict::from(Refusal::Malformed(0));
    };
    tell_given(
        condition::misclosure(directions, q, kind, target, kinds, values, d, i, k),
        w,
    )
}

// Adjusts a lent condition table: V, u, adjusted directions, K, R and Q into six lent lists.
pub fn molsadriu_adjust_table(
    directions: &[i64],
    q: &[i64],
    a: &[i64],
    w: &[i64],
    corrections: &mut [i64],
    printed: &mut [i64],
    adjusted: &mut [i64],
    correlates: &mut [i64],
    remainders: &mut [i64],
    misses: &mut [i64],
) -> Verdict
    ensures { Table directions.now q.now a.now w.now
        (lists corrections.old printed.old adjusted.old correlates.old remainders.old misses.old)
        result
        (lists corrections.new printed.new adjusted.new correlates.new remainders.new misses.new) }
{
    Verdict::from(adjustment::adjust(
        directions,
        q,
        a,
        w,
        corrections,
        printed,
        adjusted,
        correlates,
        remainders,
        misses,
    ))
}

// The mean and the probable error of a direction, of lent printed corrections, their q and the number of conditions, into two lent numbers.
pub fn molsadriu_probable_error(
    u: &[i64],
    q: &[i64],
    n: usize,
    mean: &mut i64,
    probable: &mut i64,
) -> Verdict
    ensures { DirectionErrors u.now q.now n
        (errors mean.old probable.old) result (errors mean.new probable.new) }
{
    let mut errors = Errors {
        mean: *mean,
        probable: *probable,
    };
    let told = tell_given(precision::probable_error(u, q, n), &mut errors);
    *mean = errors.mean;
    *probable = errors.probable;
    told
}

// Adjusts a network file: the listing of an accepted one, into a lent buffer of at least 6,560 bytes, and its length, into one lent number.
pub fn molsadriu_adjust_file(file: &[u8], out: &mut [u8], length: &mut usize) -> Verdict
    ensures { File Plain file.now out.old length.old result out.new length.new }
{
    tell_given(listing::adjust(Sheet::Plain, file, out), length)
}

// The same with an E line at the end of the listing, the mean and the probable error of a direction, into a lent buffer of at least 6,606 bytes.
pub fn molsadriu_probable_file(file: &[u8], out: &mut [u8], length: &mut usize) -> Verdict
    ensures { File WithErrors file.now out.old length.old result out.new length.new }
{
    tell_given(listing::adjust(Sheet::WithErrors, file, out), length)
}

// The REFUSED line of a refusal's number and place, into a lent buffer of at least 52 bytes, and how many bytes it has.
pub fn molsadriu_refused_line(number: u64, place: u64, out: &mut [u8]) -> usize
    ensures line { Wrote out.old 0 (refused_line_in (record { number = number; place = place }) (length out.old)) out.new result }
    ensures within { result ≤ length out.old }
{
    page::refused_line(Verdict { number, place }, out)
}

// The listing of any network file, accepted or refused, into a lent buffer of at least 6,560 bytes, and how many bytes it has.
pub fn molsadriu_list_file(file: &[u8], out: &mut [u8]) -> usize
    ensures listing { Wrote out.old 0 (listing_in Plain file.now (length out.old)) out.new result }
    ensures within { result ≤ length out.old }
{
    listing::list(Sheet::Plain, file, out)
}

// The length of the line that starts at `start`, without its LF. Its bytes are the file's own, from there on.
pub fn molsadriu_line(file: &[u8], start: usize) -> usize
    ensures length { result ≡ length (line_at file.now start) }
    ensures bytes { take result (drop start file.now) ≡ line_at file.now start }
{
    let line = text::line::line(file, start);
    line.len()
}

// What stands at `start`: 0 a line, 1 none left, 2 bytes whose LF is missing.
// A `match` and no `From`, since these numbers are C's alone.
pub fn molsadriu_line_status(file: &[u8], start: usize) -> u64
    ensures { result ≡ status_number (status_at file.now start) }
{
    let status = text::line::line_status(file, start);
    match status {
        LineStatus::Whole => 0,
        LineStatus::NoneLeft => 1,
        LineStatus::LfMissing => 2,
    }
}

// The report of a season's archive, network files each closed by a full stop line, into a lent list of sixteen totals. A net past 100,000 is the one
// refusal (30) that comes with an answer, the totals of those before it.
pub fn molsadriu_report(archive: &[u8], totals: &mut [u64]) -> Verdict
    ensures { SeasonReport archive.now totals.old result totals.new }
{
    Verdict::from(season::report(archive, totals))
}

// Begins a report whose archive comes in parts. Its state stands in three lent lists: the open net's bytes, the totals so far and the place.
pub fn molsadriu_season_begin(held: &[u8], totals: &mut [u64], place: &mut [u64]) -> Verdict
    ensures { SeasonBegun held.now totals.old place.old result totals.new place.new }
{
    Verdict::from(season::stream::begin(held, totals, place))
}

// The next bytes of the archive, however many.
pub fn molsadriu_season_next(
    bytes: &[u8],
    held: &mut [u8],
    totals: &mut [u64],
    place: &mut [u64],
) -> Verdict
    ensures { SeasonNext bytes.now held.old totals.old place.old result
        held.new totals.new place.new }
{
    Verdict::from(season::stream::next(bytes, held, totals, place))
}

// Ends it: the totals are then the report, also under 30.
pub fn molsadriu_season_end(held: &[u8], totals: &mut [u64], place: &mut [u64]) -> Verdict
    ensures { SeasonEnded held.now totals.old place.old result totals.new place.new }
{
    Verdict::from(season::stream::end(held, totals, place))
}

// The sum of two reports, into a third lent list, which every refusal leaves as it was.
pub fn molsadriu_add_reports(first: &[u64], second: &[u64], sum: &mut [u64]) -> Verdict
    ensures { ReportSum first.now second.now sum.old result sum.new }
{
    Verdict::from(totals::add_reports(first, second, sum))
}

// Whether another office's listing agrees with a network file, into one lent number: 0 where it does, else the line of the first test that fails.
pub fn molsadriu_check_sheet(net: &[u8], listing: &[u8], line: &mut u64) -> Verdict
    ensures { SheetChecked net.now listing.now line.old result line.new }
{
    tell_given(sheet::check(net, listing).map(line_told), line)
}
