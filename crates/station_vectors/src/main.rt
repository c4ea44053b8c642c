// Lends `station::means` what no sighting book can say: lists of unequal length, answer lists of another length than 16, and fields past a file's
// eleven digits. It prints the reply and the answer lists as they are left, which held 7 everywhere: a refusal changes neither, and an answer fills
// the 16 places of both, with 0 and 0 for an object never seen. What it must print was worked out apart from it. What a book can say is run by `books`.
#![tactic(auto)]

ghost use Rattle.std.specs.Prelude.{◌≤◌};

// Two sightings, the left face of the first object in position 1 at 0 and one that is given, in lists of these lengths. The lists are apart, as the
// operation takes them, and a case is one line of numbers, which a struct for the fields and one for the lengths would make many.
fn lend(
    rt: &impl Print,
    first: i64,
    position: i64,
    object: i64,
    face: i64,
    reading: i64,
    positions: usize,
    objects: usize,
    faces: usize,
    readings: usize,
    directions: usize,
    counts: usize,
)
    requires { (positions ≤ 2) × ((objects ≤ 2) × ((faces ≤ 2) × ((readings ≤ 2) × ((directions ≤ 17) × (counts ≤ 17))))) }
{
    let position_list = [1, position];
    let object_list = [first, object];
    let face_list = [0, face];
    let reading_list = [0, reading];
    let mut direction = [7i64; 17];
    let mut pairs = [7i64; 17];
    let reply = station::means(
        &position_list[..positions],
        &object_list[..objects],
        &face_list[..faces],
        &reading_list[..readings],
        &mut direction[..directions],
        &mut pairs[..counts],
    );
    vectors::told(rt, reply);
    // the answer lists, with the places behind what was lent of them
    vectors::next_list(rt, &direction);
    vectors::next_list(rt, &pairs);
    let _ = println!(rt;);
}

fn main(rt: HostRuntime) {
    // Accepted, in lists of one length; then 21, lists of unequal length.
    lend(&rt, 1, 1, 1, 1, 648000000, 2, 2, 2, 2, 16, 16);
    lend(&rt, 1, 1, 1, 1, 648000000, 1, 2, 2, 2, 16, 16);
    lend(&rt, 1, 1, 1, 1, 648000000, 2, 1, 2, 2, 16, 16);
    lend(&rt, 1, 1, 1, 1, 648000000, 2, 2, 1, 2, 16, 16);
    lend(&rt, 1, 1, 1, 1, 648000000, 2, 2, 2, 1, 16, 16);
    lend(&rt, 1, 1, 1, 1, 648000000, 2, 1, 1, 1, 16, 16);
    lend(&rt, 1, 1, 1, 1, 648000000, 1, 1, 1, 2, 16, 16);
    lend(&rt, 1, 1, 1, 1, 648000000, 0, 2, 2, 2, 16, 16);
    // 21: answer lists of other lengths than 16.
    lend(&rt, 1, 1, 1, 1, 648000000, 2, 2, 2, 2, 15, 16);
    lend(&rt, 1, 1, 1, 1, 648000000, 2, 2, 2, 2, 17, 16);
    lend(&rt, 1, 1, 1, 1, 648000000, 2, 2, 2, 2, 16, 15);
    lend(&rt, 1, 1, 1, 1, 648000000, 2, 2, 2, 2, 16, 17);
    lend(&rt, 1, 1, 1, 1, 648000000, 2, 2, 2, 2, 17, 17);
    lend(&rt, 1, 1, 1, 1, 648000000, 2, 2, 2, 2, 0, 0);
    // 22: the least and the greatest number, in each field.
    lend(&rt, 1, i64::MIN, 1, 1, 648000000, 2, 2, 2, 2, 16, 16);
    lend(&rt, 1, i64::MAX, 1, 1, 648000000, 2, 2, 2, 2, 16, 16);
    lend(&rt, i64::MIN, 1, 1, 1, 648000000, 2, 2, 2, 2, 16, 16);
    lend(&rt, 1, 1, i64::MAX, 1, 648000000, 2, 2, 2, 2, 16, 16);
    lend(&rt, 1, 1, 1, i64::MIN, 648000000, 2, 2, 2, 2, 16, 16);
    lend(&rt, 1, 1, 1, i64::MAX, 648000000, 2, 2, 2, 2, 16, 16);
    lend(&rt, 1, 1, 1, 1, i64::MIN, 2, 2, 2, 2, 16, 16);
    lend(&rt, 1, 1, 1, 1, i64::MAX, 2, 2, 2, 2, 16, 16);
    // 23, 24 and 25 leave the answer lists alone too.
    lend(&rt, 1, 1, 1, 0, 648000000, 2, 2, 2, 2, 16, 16);
    lend(&rt, 2, 1, 2, 1, 648000000, 2, 2, 2, 2, 16, 16);
    lend(&rt, 1, 1, 1, 1, 648060001, 2, 2, 2, 2, 16, 16);
}
