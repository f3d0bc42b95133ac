//! The numbers of the three decks, and sets by their indexes.

use vp_sets::{choose, common, hand_of, index_laws, index_of, next_set, scale, set_at};

/// A deck, its sets of five cards, its common denominator, and the scales for draws of no card to five.
const DECKS: [(u8, u64, u64, [u64; 6]); 3] = [
    (52, 2598960, 7669695, [7669695, 163185, 7095, 473, 43, 5]),
    (53, 2869685, 8561520, [8561520, 178365, 7590, 495, 44, 5]),
    (54, 3162510, 3813768, [3813768, 77832, 3243, 207, 18, 2]),
];

#[test]
fn numbers_of_the_decks(rt: HostRuntime) {
    for (deck, hands, denominator, scales) in DECKS {
        assert!(rt; vp_card::is_deck(deck));
        assert_eq!(rt; choose(deck, 5), hands);
        assert_eq!(rt; common(deck), denominator);
        for (drawn, factor) in scales.iter().enumerate() {
            assert_eq!(rt; scale(deck, drawn as u8), *factor, "{drawn} from {deck}");
        }
    }
}

#[test]
fn last_sets(rt: HostRuntime) {
    for (deck, index, wanted) in [
        (52u8, 2598959u32, [47u8, 48, 49, 50, 51]),
        (53, 2869684, [48, 49, 50, 51, 52]),
        (54, 3162509, [49, 50, 51, 52, 53]),
    ] {
        assert!(rt; vp_card::is_deck(deck) && u64::from(index) < choose(deck, 5));
        let mut set = [0; 5];
        set_at(deck, 5, index, &mut set);
        assert_eq!(rt; set, wanted);
        assert!(rt; !next_set(deck, &mut set));
        assert_eq!(rt; set, wanted);
    }
}

#[test]
fn sets_and_their_indexes(rt: HostRuntime) {
    assert_eq!(rt;
        [index_of(&[0, 1, 2, 4, 5]), index_of(&[49, 50, 51, 52, 53])],
        [2, 3162509]
    );
    let mut set = [0, 1, 2, 3, 53];
    assert_eq!(rt; hand_of(&set).numbers(), set);
    assert!(rt; next_set(54, &mut set) && set == [0, 1, 2, 4, 53]);
    index_laws();
}
