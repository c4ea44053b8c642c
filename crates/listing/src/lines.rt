// The lines of an accepted net's listing: ADJ, V, K and E lines.
ghost use Rattle.std.specs.Prelude.{◌≡◌, ◌+◌, ◌*◌, ◌≤◌, length};
ghost use Rattle.adjustment.specs.Inner.{answers_in};
ghost use Rattle.text.specs.Written.{Puts};
ghost use Rattle.listing.specs.Listing.{k_line, e_line, v_lines, k_lines};
ghost use Rattle.listing.specs.File.{answers_listing};

use adjustment::Adjusted;
use text::LF;
use text::writer::Writer;

// K, condition, K, R, Q.
fn put_k(w: &mut Writer, condition: u64, k: i64, r: i64, q: i64)
    requires { w.old.at + 90 ≤ length w.old.out.now }
    ensures { Puts w.old (k_line condition k r q) 90 w.new }
{
    page::lines::put_head(w, b'K', condition, k, r);
    w.signed(q);
    w.byte(LF);
}

// E, mean error, probable error.
pub fn put_e(w: &mut Writer, mean: i64, probable: i64)
    requires { w.old.at + 46 ≤ length w.old.out.now }
    ensures { Puts w.old (e_line mean probable) 46 w.new }
{
    w.byte(b'E');
    w.signed(mean);
    w.signed(probable);
    w.byte(LF);
}

// The V lines of all directions.
fn put_vs(w: &mut Writer, answers: Adjusted)
    requires { w.old.at + length answers.printed.now * 68 ≤ length w.old.out.now }
    ensures { Puts w.old (v_lines (length answers.entry.printed.now) answers.entry.printed.now answers.entry.adjusted.now)
        (length answers.entry.printed.now * 68) w.new }
{
    for (i, x) in answers.printed.iter().enumerate() {
        page::lines::put_numbered(w, b'V', i as u64 + 1, *x, answers.adjusted[i]);
    }
}

// The K lines of all conditions.
fn put_ks(w: &mut Writer, answers: Adjusted)
    requires { w.old.at + length answers.correlates.now * 90 ≤ length w.old.out.now }
    ensures { Puts w.old
        (k_lines (length answers.entry.correlates.now) answers.entry.correlates.now answers.entry.remainders.now answers.entry.misses.now)
        (length answers.entry.correlates.now * 90) w.new }
{
    for j in 0..answers.correlates.len() {
        put_k(
            w,
            j as u64 + 1,
            answers.correlates[j],
            answers.remainders[j],
            answers.misses[j],
        );
    }
}

// The ADJ, V and K lines of an accepted net: at most 6,560 bytes for 64 directions and 24 conditions.
pub fn put_accepted(w: &mut Writer, answers: Adjusted)
    requires { w.old.at + (48 + length answers.printed.now * 68 + length answers.correlates.now * 90) ≤ length w.old.out.now }
    ensures { Puts w.old (answers_listing (answers_in answers.entry))
        (48 + length answers.entry.printed.now * 68 + length answers.entry.correlates.now * 90) w.new }
{
    page::lines::put_heading(
        w,
        b"ADJ",
        answers.printed.len() as u64,
        answers.correlates.len() as u64,
    );
    put_vs(w, answers);
    put_ks(w, answers);
}
