// The archive for programs in C, C++ and Rust: each function of the crate office under its name as C's own, with its clauses. A lent list comes as a
// pointer and a length. include/molsadriu.h declares these functions. Nothing is worked out here.
// The clauses stand here again, since each function that C calls has its own.
#![tactic(auto)]

ghost use Rattle.std.specs.Prelude.{◌≡◌, ◌≤◌, length, take, drop};
ghost use Rattle.station.specs.Sightings.{book};
ghost use Rattle.station.specs.Rescue.{lent};
ghost use Rattle.adjustment.specs.Promise.{lists};
ghost use Rattle.precision.specs.Errors.{errors};
ghost use Rattle.text.specs.Lines.{line_at, status_at};
ghost use Rattle.text.specs.Written.{Wrote};
ghost use Rattle.page.specs.Page.{refused_line_in};
ghost use Rattle.listing.specs.declared.Sheet.TheVariants.{Plain, WithErrors};
ghost use Rattle.listing.specs.File.{listing_in};
ghost use Rattle.book.specs.declared.parts.Part.TheVariants.{Kept, Dropped};
ghost use Rattle.office.specs.Promises.{Means, SightingBook, SightingsRescued, BookParted, Coefficients, Misclosed, Table, DirectionErrors, File};
ghost use Rattle.office.specs.Promises.{SeasonReport, SeasonBegun, SeasonNext, SeasonEnded, ReportSum, SheetChecked};
ghost use Rattle.office.specs.Terms.{heading_of, terms_of};
ghost use Rattle.office.specs.Statuses.{status_number};

use reply::Verdict;

// Station means: the direction and the number of pairs of each object, into two lent lists of 16.
#[unsafe(no_mangle)]
pub extern "C" fn molsadriu_station_means(
    position: &[i64],
    object: &[i64],
    face: &[i64],
    reading: &[i64],
    direction: &mut [i64],
    pairs: &mut [i64],
) -> Verdict
    ensures { Means (book position.now object.now face.now reading.now)
        direction.old pairs.old result direction.new pairs.new }
{
    office::molsadriu_station_means(position, object, face, reading, direction, pairs)
}

// Station means of a sighting book: the listing of an accepted one, into a lent buffer of at least 1,136 bytes, and its length, into one lent number.
#[unsafe(no_mangle)]
pub extern "C" fn molsadriu_station_book(file: &[u8], out: &mut [u8], length: &mut usize) -> Verdict
    ensures { SightingBook file.now out.old length.old result out.new length.new }
{
    office::molsadriu_station_book(file, out, length)
}

// The rescue of a spoiled list of sightings: the kept ones, into the first places of four lent lists, and for each dropped one its ordinal and its reason,
// into those of two more, each of as many places as there are sightings; and how many are kept and dropped, into two lent numbers.
#[unsafe(no_mangle)]
pub extern "C" fn molsadriu_rescue_sightings(
    position: &[i64],
    object: &[i64],
    face: &[i64],
    reading: &[i64],
    kept_position: &mut [i64],
    kept_object: &mut [i64],
    kept_face: &mut [i64],
    kept_reading: &mut [i64],
    ordinals: &mut [u64],
    reasons: &mut [u64],
    kept: &mut usize,
    dropped: &mut usize,
) -> Verdict
    ensures { SightingsRescued (book position.now object.now face.now reading.now)
        (lent kept_position.old kept_object.old kept_face.old kept_reading.old ordinals.old reasons.old)
        kept.old dropped.old result
        (lent kept_position.new kept_object.new kept_face.new kept_reading.new ordinals.new reasons.new)
        kept.new dropped.new }
{
    office::molsadriu_rescue_sightings(
        position,
        object,
        face,
        reading,
        kept_position,
        kept_object,
        kept_face,
        kept_reading,
        ordinals,
        reasons,
        kept,
        dropped,
    )
}

// The kept lines of a spoiled sighting book, which are a book again, into a lent buffer of at least 10,752 bytes, and their length, into one lent number.
#[unsafe(no_mangle)]
pub extern "C" fn molsadriu_rescue_book(file: &[u8], out: &mut [u8], length: &mut usize) -> Verdict
    ensures { BookParted Kept file.now out.old length.old result out.new length.new }
{
    office::molsadriu_rescue_book(file, out, length)
}

// A line for each sighting of a spoiled book that is dropped, its ordinal and its reason, into a lent buffer of at least 4,096 bytes, and their length, into
// one lent number.
#[unsafe(no_mangle)]
pub extern "C" fn molsadriu_dropped_book(file: &[u8], out: &mut [u8], length: &mut usize) -> Verdict
    ensures { BookParted Dropped file.now out.old length.old result out.new length.new }
{
    office::molsadriu_dropped_book(file, out, length)
}

// The coefficients of one condition, into a lent list of as many numbers as there are directions.
#[unsafe(no_mangle)]
pub extern "C" fn molsadriu_coefficients(
    directions: &[i64],
    q: &[i64],
    letter: u8,
    target: i64,
    kinds: &[i64],
    values: &[i64],
    d: &[i64],
    i: &[i64],
    k: &[i64],
    a: &mut [i64],
) -> Verdict
    ensures { Coefficients (heading_of letter)
        (terms_of directions.now q.now target
        kinds.now values.now d.now i.now k.now)
        a.old result a.new }
{
    office::molsadriu_coefficients(directions, q, letter, target, kinds, values, d, i, k, a)
}

// The misclosure of the same condition, into one lent number.
#[unsafe(no_mangle)]
pub extern "C" fn molsadriu_misclosure(
    directions: &[i64],
    q: &[i64],
    letter: u8,
    target: i64,
    kinds: &[i64],
    values: &[i64],
    d: &[i64],
    i: &[i64],
    k: &[i64],
    w: &mut i64,
) -> Verdict
    ensures { Misclosed (heading_of letter)
        (terms_of directions.now q.now target
        kinds.now values.now d.now i.now k.now)
        w.old result w.new }
{
    office::molsadriu_misclosure(directions, q, letter, target, kinds, values, d, i, k, w)
}

// Adjusts a lent condition table: V, u, adjusted directions, K, R and Q into six lent lists.
#[unsafe(no_mangle)]
pub extern "C" fn molsadriu_adjust_table(
    directions: &[i64],
    q: &[i64],
    a: &[i64],
    w: &[i64],
    corrections: &mut [i64],
    printed: &mut [i64],
    adjusted: &mut [i64],
    correlates: &mut [i64],
    remainders: &mut [i64],
    misses: &mut [i64],
) -> Verdict
    ensures { Table directions.now q.now a.now w.now
        (lists corrections.old printed.old adjusted.old correlates.old remainders.old misses.old)
        result
        (lists corrections.new printed.new adjusted.new correlates.new remainders.new misses.new) }
{
    office::molsadriu_adjust_table(
        directions,
        q,
        a,
        w,
        corrections,
        printed,
        adjusted,
        correlates,
        remainders,
        misses,
    )
}

// The mean and the probable error of a direction, of lent printed corrections, their q and the number of conditions, into two lent numbers.
#[unsafe(no_mangle)]
pub extern "C" fn molsadriu_probable_error(
    u: &[i64],
    q: &[i64],
    n: usize,
    mean: &mut i64,
    probable: &mut i64,
) -> Verdict
    ensures { DirectionErrors u.now q.now n
        (errors mean.old probable.old) result (errors mean.new probable.new) }
{
    office::molsadriu_probable_error(u, q, n, mean, probable)
}

// Adjusts a network file: the listing of an accepted one, into a lent buffer of at least 6,560 bytes, and its length, into one lent number.
#[unsafe(no_mangle)]
pub extern "C" fn molsadriu_adjust_file(file: &[u8], out: &mut [u8], length: &mut usize) -> Verdict
    ensures { File Plain file.now out.old length.old result out.new length.new }
{
    office::molsadriu_adjust_file(file, out, length)
}

// The same with an E line at the end of the listing, the mean and the probable error of a direction, into a lent buffer of at least 6,606 bytes.
#[unsafe(no_mangle)]
pub extern "C" fn molsadriu_probable_file(
    file: &[u8],
    out: &mut [u8],
    length: &mut usize,
) -> Verdict
    ensures { File WithErrors file.now out.old length.old result out.new length.new }
{
    office::molsadriu_probable_file(file, out, length)
}

// The REFUSED line of a refusal's number and place, into a lent buffer of at least 52 bytes, and how many bytes it has.
#[unsafe(no_mangle)]
pub extern "C" fn molsadriu_refused_line(number: u64, place: u64, out: &mut [u8]) -> usize
    ensures line { Wrote out.old 0 (refused_line_in (record { number = number; place = place }) (length out.old)) out.new result }
    ensures within { result ≤ length out.old }
{
    office::molsadriu_refused_line(number, place, out)
}

// The listing of any network file, accepted or refused, into a lent buffer of at least 6,560 bytes, and how many bytes it has.
#[unsafe(no_mangle)]
pub extern "C" fn molsadriu_list_file(file: &[u8], out: &mut [u8]) -> usize
    ensures listing { Wrote out.old 0 (listing_in Plain file.now (length out.old)) out.new result }
    ensures within { result ≤ length out.old }
{
    office::molsadriu_list_file(file, out)
}

// The length of the line that starts at `start`, without its LF. Its bytes are the file's own, from there on.
#[unsafe(no_mangle)]
pub extern "C" fn molsadriu_line(file: &[u8], start: usize) -> usize
    ensures length { result ≡ length (line_at file.now start) }
    ensures bytes { take result (drop start file.now) ≡ line_at file.now start }
{
    office::molsadriu_line(file, start)
}

// What stands at `start`: 0 a line, 1 none left, 2 bytes whose LF is missing.
#[unsafe(no_mangle)]
pub extern "C" fn molsadriu_line_status(file: &[u8], start: usize) -> u64
    ensures { result ≡ status_number (status_at file.now start) }
{
    office::molsadriu_line_status(file, start)
}

// The report of a season's archive, network files each closed by a full stop line, into a lent list of sixteen totals. A net past 100,000 is the one
// refusal (30) that comes with an answer, the totals of those before it.
#[unsafe(no_mangle)]
pub extern "C" fn molsadriu_report(archive: &[u8], totals: &mut [u64]) -> Verdict
    ensures { SeasonReport archive.now totals.old result totals.new }
{
    office::molsadriu_report(archive, totals)
}

// Begins a report whose archive comes in parts. Its state stands in three lent lists: the open net's bytes, the totals so far and the place.
#[unsafe(no_mangle)]
pub extern "C" fn molsadriu_season_begin(
    held: &[u8],
    totals: &mut [u64],
    place: &mut [u64],
) -> Verdict
    ensures { SeasonBegun held.now totals.old place.old result totals.new place.new }
{
    office::molsadriu_season_begin(held, totals, place)
}

// The next bytes of the archive, however many.
#[unsafe(no_mangle)]
pub extern "C" fn molsadriu_season_next(
    bytes: &[u8],
    held: &mut [u8],
    totals: &mut [u64],
    place: &mut [u64],
) -> Verdict
    ensures { SeasonNext bytes.now held.old totals.old place.old result
        held.new totals.new place.new }
{
    office::molsadriu_season_next(bytes, held, totals, place)
}

// Ends it: the totals are then the report, also under 30.
#[unsafe(no_mangle)]
pub extern "C" fn molsadriu_season_end(
    held: &[u8],
    totals: &mut [u64],
    place: &mut [u64],
) -> Verdict
    ensures { SeasonEnded held.now totals.old place.old result totals.new place.new }
{
    office::molsadriu_season_end(held, totals, place)
}

// The sum of two reports, into a third lent list, which every refusal leaves as it was.
#[unsafe(no_mangle)]
pub extern "C" fn molsadriu_add_reports(first: &[u64], second: &[u64], sum: &mut [u64]) -> Verdict
    ensures { ReportSum first.now second.now sum.old result sum.new }
{
    office::molsadriu_add_reports(first, second, sum)
}

// Whether another office's listing agrees with a network file, into one lent number: 0 where it does, else the line of the first test that fails.
#[unsafe(no_mangle)]
pub extern "C" fn molsadriu_check_sheet(net: &[u8], listing: &[u8], line: &mut u64) -> Verdict
    ensures { SheetChecked net.now listing.now line.old result line.new }
{
    office::molsadriu_check_sheet(net, listing, line)
}
