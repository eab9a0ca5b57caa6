//! Words with each field broken, and words that are read back.

ghost use Rattle.std.specs.Prelude.{◌≤◌};

use crate::calls::{KEYS, insert_at, lonely_aux, record_of, try_at};
use pw_chip::{Chip, WORDS_BYTES, Words, WordsFault};

// The words of a chip with a leaf inserted and once wrongly tried, in its second boot.
fn used_words() -> Words
    ensures { 1 ≤ result.boot }
{
    let mut words = Words::new(KEYS);
    words.boot(900);
    let leaf = record_of(&Chip::step(&mut words, &insert_at(9, [0; 32], lonely_aux()), 950));
    let _wrong = try_at(&mut words, 9, &leaf, [4; 32], 1_000);
    words.boot(2_000);
    words
}

// A byte of those words, a value that breaks its field, and the field's place: the version, the boot, its
// start, operation, label, verdict and moment of the newest entry, which is a try, and of the older one,
// which is an insert, and the zeros behind them.
const BROKEN: [(u8, u8, usize); 16] = [
    (0, 0, 0),
    (0, 2, 0),
    (72, 0, 65),
    (75, 1, 73),
    (81, 6, 81),
    (82, 64, 82),
    (148, 0, 148),
    (148, 3, 148),
    (159, 1, 157),
    (165, 6, 165),
    (166, 64, 166),
    (232, 1, 232),
    (232, 3, 232),
    (243, 1, 241),
    (249, 1, 249),
    (255, 255, 249),
];

#[test]
fn of_two_broken_fields_the_first_is_named(rt: HostRuntime) {
    let whole = used_words().write();
    for (place, value, field) in BROKEN {
        let mut alone = whole;
        alone[usize::from(place)] = value;
        assert_eq!(rt;
            Words::read(&alone),
            Err(WordsFault::BadWords(field)),
            "byte {place}"
        );
        for (other_place, other_value, other_field) in BROKEN {
            let mut both = alone;
            both[usize::from(other_place)] = other_value;
            assert_eq!(rt;
                Words::read(&both),
                Err(WordsFault::BadWords(field.min(other_field))),
                "bytes {place} and {other_place}"
            );
        }
    }
}

#[test]
fn a_verdict_is_for_a_try_alone(rt: HostRuntime) {
    let whole = used_words().write();
    let mut judged_insert = whole;
    judged_insert[232] = 2;
    let mut judged_try = whole;
    judged_try[165] = 4;
    judged_try[232] = 2;
    let mut open_try = whole;
    open_try[165] = 4;
    let rows = [
        (judged_insert, false),
        (judged_try, true),
        (open_try, false),
    ];
    for (bytes, fits) in rows {
        assert_eq!(rt; Words::read(&bytes).is_ok(), fits);
    }
}

#[test]
fn words_are_read_as_they_were_and_a_blank_chip_has_none(rt: HostRuntime) {
    let words = used_words();
    assert_eq!(rt; Words::read(&words.write()), Ok(Some(words)));
    assert_eq!(rt; Words::read(&[0; WORDS_BYTES]), Ok(None));
    let mut nearly_blank = [0; WORDS_BYTES];
    nearly_blank[255] = 1;
    assert_eq!(rt; Words::read(&nearly_blank), Err(WordsFault::BadWords(0)));
}
