// Answer lists for a caller whose lists are its own, and the answers in them. Neither type has Debug or PartialEq: nothing prints or compares them.
ghost use Rattle.std.specs.Prelude.{◌≡◌, ◌≤◌, length};

use crate::adjust_own;
use reply::Refusal;

// The answers of an accepted table: by direction V, u and the adjusted directions, by condition K, R and Q.
#[derive(Clone, Copy)]
pub struct Adjusted<'a> {
    pub corrections: &'a [i64],
    pub printed: &'a [i64],
    pub adjusted: &'a [i64],
    pub correlates: &'a [i64],
    pub remainders: &'a [i64],
    pub misses: &'a [i64],
    ghost few: { (length printed.now ≤ 64) × (length correlates.now ≤ 24) },
    ghost by_direction: { (length corrections.now ≡ length printed.now) × (length adjusted.now ≡ length printed.now) },
    ghost by_condition: { (length remainders.now ≡ length correlates.now) × (length misses.now ≡ length correlates.now) },
}

// Lists that hold the answers of any table.
#[derive(Drop)]
pub struct AnswerLists {
    corrections: [i64; 64],
    printed: [i64; 64],
    adjusted: [i64; 64],
    correlates: [i64; 24],
    remainders: [i64; 24],
    misses: [i64; 24],
}

impl AnswerLists {
    ghost use Rattle.adjustment.specs.Inner.{GivesAnswers, no_answers};

    // All zeros. Nothing reads them before `adjust` has written over them.
    #[tactic(auto, unfolding(crate::specs::Inner::no_answers))]
    pub fn new() -> AnswerLists
        ensures { result ≡ no_answers }
    {
        AnswerLists {
            corrections: [0; 64],
            printed: [0; 64],
            adjusted: [0; 64],
            correlates: [0; 24],
            remainders: [0; 24],
            misses: [0; 24],
        }
    }

    // Adjusts a lent condition table by `adjust_own`, in the first places of these lists.
    pub fn adjust<'a>(
        &'a mut self,
        directions: &[i64],
        q: &[i64],
        a: &[i64],
        w: &[i64],
    ) -> Result<Adjusted<'a>, Refusal>
        requires few { (length directions.now ≤ 64) × (length w.now ≤ 24) }
        ensures { GivesAnswers directions.now q.now a.now w.now result }
    {
        let m = directions.len();
        let n = w.len();
        let AnswerLists {
            corrections,
            printed,
            adjusted,
            correlates,
            remainders,
            misses,
        } = self;
        adjust_own(
            directions,
            q,
            a,
            w,
            &mut corrections[..m],
            &mut printed[..m],
            &mut adjusted[..m],
            &mut correlates[..n],
            &mut remainders[..n],
            &mut misses[..n],
        )?;
        Ok(Adjusted {
            corrections: &corrections[..m],
            printed: &printed[..m],
            adjusted: &adjusted[..m],
            correlates: &correlates[..n],
            remainders: &remainders[..n],
            misses: &misses[..n],
        })
    }
}
