// One line of the network file as a record: what it says, before any count, heading or range is looked at. It is read once, from its letter to its LF.
ghost use Rattle.std.specs.Prelude.{◌≡◌, ◌+◌, ◌≤◌, length, get_or};
ghost use Rattle.text.specs.Fields.{TAB};
ghost use Rattle.network.specs.Records.{letter_C};
ghost use Rattle.network.specs.Turns.{numbers_of, record_with, numbered_at, turn_at};

use text::{LF, MOST_DIGITS, TAB, row};

// What a line says. It is matched where the rules differ, since specs/ says them case by case.
#[derive(Clone, Copy, Debug, PartialEq, Eq)]
pub enum Record {
    // D: number, direction, q.
    Direction {
        number: i64,
        direction: i64,
        q: i64,
    },
    // C A: target.
    Angles {
        target: i64,
    },
    // C S.
    Sides,
    // P, F, L or R, by its letter, as `condition` is lent it. A field that the letter does not have is 0.
    // No enum of four: its five fields go into five lists, where every letter has each of them.
    Term {
        letter: u8,
        value: i64,
        d: i64,
        i: i64,
        k: i64,
    },
}

// A line that says something: what, and where the next one starts.
#[derive(Clone, Copy, Debug, PartialEq, Eq)]
pub struct Turn {
    pub said: Record,
    pub next: usize,
}

// A run of lines of one kind: how many they are, and the first line behind them: where it starts, and what is read there, since reading it has shown
// the run's end.
#[derive(Clone, Copy, Debug, PartialEq, Eq)]
pub struct Run {
    pub count: usize,
    pub at: usize,
    pub turn: Option<Turn>,
}

// How many numbers the line of a letter has, if there is such a line. C stands for a line C A.
// A byte and no enum, here and below: any byte may stand there, and the letter of a term goes on as it is.
#[tactic(auto, unfolding(crate::specs::Turns::numbers_of))]
fn numbers_of(letter: u8) -> Option<usize>
    ensures { result ≡ numbers_of letter }
{
    match letter {
        b'D' => Some(3),
        b'C' => Some(1),
        b'P' => Some(2),
        b'F' => Some(1),
        b'L' | b'R' => Some(4),
        _ => None,
    }
}

// The record of a letter and the numbers x.
#[tactic(auto, unfolding(crate::specs::Turns::record_with))]
fn record_with(letter: u8, x: &[i64; 4]) -> Record
    ensures { result ≡ record_with letter x.now }
{
    match letter {
        b'D' => Record::Direction {
            number: x[0],
            direction: x[1],
            q: x[2],
        },
        b'C' => Record::Angles { target: x[0] },
        b'P' => Record::Term {
            letter,
            value: 0,
            d: 0,
            i: x[0],
            k: x[1],
        },
        b'F' => Record::Term {
            letter,
            value: x[0],
            d: 0,
            i: 0,
            k: 0,
        },
        _ => Record::Term {
            letter,
            value: x[0],
            d: x[1],
            i: x[2],
            k: x[3],
        },
    }
}

// A line of numbers, from the first of them on.
#[tactic(auto, using(crate::proofs::Recording::numbers_few, crate::proofs::Recording::numbered_zero))]
fn numbered(file: &[u8], at: usize, letter: u8) -> Option<Turn>
    requires { at ≤ length file.now }
    ensures { result ≡ numbered_at file.now at letter }
{
    let count = numbers_of(letter)?;
    let mut x = [0i64; 4];
    let next = row::read(MOST_DIGITS, file, at, count, &mut x)?;
    let said = record_with(letter, &x);
    Some(Turn { said, next })
}

// The C line at a start: S and the LF, or A, a tab and a number.
#[tactic(auto, using(crate::proofs::Recording::c_lines))]
fn heading(file: &[u8], start: usize) -> Option<Turn>
    requires { (start + 2 ≤ length file.now) × (get_or file.now (start + 1) 0 ≡ TAB) × (get_or file.now start 0 ≡ letter_C) }
    ensures { result ≡ turn_at file.now start }
{
    let at = start + 2;
    if file.len() - at < 2 {
        return None;
    }
    match (file[at], file[at + 1]) {
        (b'S', LF) => Some(Turn {
            said: Record::Sides,
            next: at + 2,
        }),
        (b'A', TAB) => numbered(file, at + 2, b'C'),
        _ => None,
    }
}

// The line at a start, by its letter. The start is asked to be in the file, as in text's number.rt.
#[tactic(auto, using(crate::proofs::Recording::short_said, crate::proofs::Recording::no_tab_said, crate::proofs::Recording::numbers_said))]
pub fn read(file: &[u8], start: usize) -> Option<Turn>
    requires { start ≤ length file.now }
    ensures { result ≡ turn_at file.now start }
{
    if file.len() - start < 2 || file[start + 1] != TAB {
        return None;
    }
    match file[start] {
        b'C' => heading(file, start),
        letter => numbered(file, start + 2, letter),
    }
}
