//! Lists longer than those of the records that are tried, which the breaks' room holds.
use access::{
    BREAK_ENTRIES, Breaks, Call, PAIR_ENTRIES, entry, front, pair_with_ones, pair_with_strict,
};
use naive::{Answer, Defined, Faster, Way};
use samples::{paired_list, small_paired_list};
use trials::Case;

// More than the letters of a record that is tried, and more than its pairs have room for when paired.
const MANY: usize = 5000;

// The numbers from 1 on, so many.
fn rising(many: usize) -> Breaks {
    let mut list = Breaks::new();
    for i in 0..many {
        list.push(i.saturating_add(1));
    }
    list
}

// Whether there are so many pairs, and the last of them is this.
fn end_with(pairs: &[u16], many: usize, end: usize, count: usize) -> bool {
    let last = many.saturating_mul(2).saturating_sub(2);
    pairs.len() == many.saturating_mul(2)
        && entry(pairs, last) == end
        && entry(pairs, last.saturating_add(1)) == count
}

#[test]
fn a_list_is_filled(rt: HostRuntime) {
    let mut list = rising(BREAK_ENTRIES - 1);
    assert_eq!(rt; front(list.as_slice(), MANY).len(), MANY);
    list.extend(&[1, 2]);
    assert_eq!(rt; list.as_slice().len(), BREAK_ENTRIES);
    assert_eq!(rt; entry(list.as_slice(), BREAK_ENTRIES - 1), 1);
    list.pop();
    list.set(MANY, 7);
    list.reverse();
    assert_eq!(rt; entry(list.as_slice(), BREAK_ENTRIES - 2 - MANY), 7);
    assert_eq!(rt; entry(list.as_slice(), BREAK_ENTRIES - 2), 1);
}

#[test]
fn ends_are_paired(rt: HostRuntime) {
    let ends = rising(MANY);
    let ones = pair_with_ones::<BREAK_ENTRIES>(ends.as_slice());
    assert!(rt; end_with(ones.as_slice(), MANY, MANY, 1));
    let counted = pair_with_strict::<BREAK_ENTRIES>(&[2, 5000], ends.as_slice());
    assert_eq!(rt; counted.as_slice(), [2, 2, 5000, 4998].as_slice());
    let each = pair_with_strict::<BREAK_ENTRIES>(ends.as_slice(), ends.as_slice());
    assert!(rt; end_with(each.as_slice(), MANY, MANY, 1));
    let faultless = paired_list(MANY, 5 * 585);
    assert!(rt; end_with(faultless.as_slice(), MANY, MANY, 1));
    let cut_off = small_paired_list(MANY, 5 * 585);
    assert_eq!(rt; cut_off.as_slice().len(), PAIR_ENTRIES);
}

#[test]
fn marks_are_answered(rt: HostRuntime) {
    let marks = [255; MANY];
    let defined = naive::answer::<Defined>(Call::Pieces, &marks);
    assert!(rt; end_with(defined.list.as_slice(), MANY, MANY, 1));
    let faster = naive::answer::<Faster>(Call::Starts, &marks);
    assert_eq!(rt; faster.list.as_slice().len(), MANY);
    let small = naive::small_answer::<Faster>(Call::Pieces, &[255; 2000]);
    assert!(rt; end_with(small.list.as_slice(), 2000, 2000, 1));
    let case = Case::lent(Call::Pieces, &marks, &defined);
    assert!(rt; end_with(case.list, MANY, MANY, 1));
    let unbroken = Answer::unbroken(rising(2 * MANY));
    assert_eq!(rt; unbroken.list.as_slice().len(), 2 * MANY);
    assert!(rt; unbroken.breaks.as_slice().is_empty());
}

#[test]
fn letters_are_cut(rt: HostRuntime) {
    let levels = [7; MANY];
    let strict = <Faster as Way<BREAK_ENTRIES>>::strict(&levels);
    assert_eq!(rt; strict.as_slice().len(), MANY);
    let starts = <Faster as Way<BREAK_ENTRIES>>::starts(&levels);
    assert_eq!(rt; starts.as_slice(), [1; MANY].as_slice());
    assert_eq!(rt;
        <Defined as Way<BREAK_ENTRIES>>::starts(&[7; 30]).as_slice(),
        [1; 30].as_slice()
    );
    assert_eq!(rt;
        <Defined as Way<BREAK_ENTRIES>>::strict(&[7; 2]).as_slice(),
        [1, 2].as_slice()
    );
    assert!(rt; <Faster as Way<BREAK_ENTRIES>>::failing(&levels).is_none());
    // Rising from 0 to 254 again and again: each level up to 253 is a piece, and then all the rest.
    let mut saw = [0; MANY];
    for (i, letter) in saw.iter_mut().enumerate() {
        *letter = (i % 255) as u8;
    }
    let pieces = <Defined as Way<BREAK_ENTRIES>>::pieces(&saw);
    assert_eq!(rt; pieces.as_slice().len(), 255);
    assert_eq!(rt; entry(pieces.as_slice(), 254), MANY);
    // Many equal levels, and a last one above them, each of these a strict piece: two pieces.
    let mut edge = [0; MANY];
    edge[MANY - 1] = 1;
    let pieces = <Faster as Way<BREAK_ENTRIES>>::pieces(&edge);
    assert_eq!(rt; pieces.as_slice(), [4999, 5000].as_slice());
    let broken = naive::answer::<Faster>(Call::Breaks, &edge);
    assert_eq!(rt; broken.breaks.as_slice(), [4999, 0, 0, 0, 1].as_slice());
}
