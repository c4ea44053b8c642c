// The sum of the reports that an open file has one after another, which is read in parts and may have any length.
ghost use Rattle.std.specs.Prelude.{◌≤◌};

use crate::Trouble;
use std::io::Read;
use totals::adding::Adding;
use totals::{adding, report};

// Reports that are being added up: what is known of them so far, and the line that is being read.
#[derive(Drop)]
struct Reports {
    held: [u8; adding::HELD],
    adding: Adding,
    ghost within: { adding.length ≤ 64 },
}

impl Reports {
    // Before the first byte.
    fn begin() -> Reports {
        Reports {
            held: [0; adding::HELD],
            adding: adding::begin(),
        }
    }

    // The next bytes, however many.
    fn next(&mut self, bytes: &[u8]) {
        self.adding = adding::next(bytes, &mut self.held, self.adding);
    }

    // Writes the answer to what has come: the sum, or the one line of a refusal.
    fn write_sum(&self, rt: &impl Print) -> Result<(), Trouble> {
        let mut out = [0u8; report::REPORT];
        let n = adding::end(self.adding, &mut out);
        crate::write(rt, &out[..n])
    }
}

// The sum of the reports in a file that is open.
pub fn add_open(rt: &impl Print, input: &mut impl Read) -> Result<(), Trouble> {
    let mut reports = Reports::begin();
    crate::read_parts(input, |bytes| reports.next(bytes))?;
    reports.write_sum(rt)
}
