// Value tapes of depth 0 to 3 below coordinate tapes with empty fibers: with exactly enough keys, and with one too few.
#![tactic(auto)]

#[cfg(test)]
mod tests {
    use results::ResultKey;
    use semiring::Count;
    use tapes::part::Part;
    use writing::{LeafCursor, Nest, write};

    const S0: u32 = 0x8000_0000;

    const S1: u32 = 0x8000_0001;

    const S2: u32 = 0x8000_0002;

    const D: u32 = 0x8000_00FF;

    const NO_KEY: ResultKey = ResultKey { parts: [0; 3] };

    const NOTHING: Part = Part { from: 0, to: 0 };

    // No tape around the leaves.
    const BARE: Nest = Nest {
        tapes: [NOTHING; 4],
        depth: 0,
    };

    fn leaves(tape: Part, nest: Nest, depths: [u8; 3]) -> LeafCursor {
        LeafCursor { tape, nest, depths }
    }

    fn stands(key: ResultKey, first: u32, second: u32, third: u32) -> bool {
        key.parts == [first, second, third]
    }

    // One leaf, at the key of no coordinates: it takes one key, and is added to it the next time.
    #[test]
    fn one_leaf(rt: HostRuntime) {
        let words = [1, D];
        let values = [5, 7];
        let tape = Part { from: 0, to: 2 };
        let mut keys = [NO_KEY; 1];
        let mut sums = [9];
        let none = write::<Count>(
            &words,
            &values,
            leaves(tape, BARE, [0, 0, 0]),
            &mut keys[0..0],
            &mut sums,
            0,
        );
        assert_eq!(rt; none, None);
        let n = write::<Count>(
            &words,
            &values,
            leaves(tape, BARE, [0, 0, 0]),
            &mut keys,
            &mut sums,
            0,
        );
        assert_eq!(rt; n, Some(1));
        assert_eq!(rt; sums, [7]);
        let n = write::<Count>(
            &words,
            &values,
            leaves(tape, BARE, [0, 0, 0]),
            &mut keys,
            &mut sums,
            1,
        );
        assert_eq!(rt; n, Some(1));
        assert_eq!(rt; sums, [14]);
    }

    // Coordinates [6, 2] with values, then an empty fiber, which adds nothing to a full table.
    #[test]
    fn one_list(rt: HostRuntime) {
        let words = [6, 2, S0, D, 0, 1, S0, D, S0, D];
        let values = [5, 7];
        let mut nest = BARE;
        nest.tapes[0] = Part { from: 0, to: 4 };
        nest.depth = 1;
        let mut keys = [NO_KEY; 2];
        let mut sums = [9; 2];
        let tape = Part { from: 4, to: 8 };
        let n = write::<Count>(
            &words,
            &values,
            leaves(tape, nest, [1, 0, 0]),
            &mut keys,
            &mut sums,
            0,
        );
        assert_eq!(rt; n, Some(2));
        assert!(rt; stands(keys[0], 2, 0, 0) && stands(keys[1], 6, 0, 0));
        assert_eq!(rt; sums, [7, 5]);
        nest.tapes[0] = Part { from: 8, to: 10 };
        let n = write::<Count>(
            &words,
            &values,
            leaves(nest.tapes[0], nest, [1, 0, 0]),
            &mut keys,
            &mut sums,
            2,
        );
        assert_eq!(rt; n, Some(2));
        assert_eq!(rt; sums, [7, 5]);
    }

    // Writes leaves below the lists [3, 7], [] and [3] below 1, 4 and 6.
    fn write_lists(places: [u8; 3], keys: &mut [ResultKey], sums: &mut [u32]) -> Option<usize> {
        let words = [
            1, 4, 6, S0, D, 3, 7, S0, S0, 3, S0, S1, D, 0, 1, S0, S0, 2, S0, S1, D,
        ];
        let values = [5, 7, 11];
        let mut nest = BARE;
        nest.tapes[0] = Part { from: 0, to: 5 };
        nest.tapes[1] = Part { from: 5, to: 13 };
        nest.depth = 2;
        let tape = Part { from: 13, to: 21 };
        write::<Count>(&words, &values, leaves(tape, nest, places), keys, sums, 0)
    }

    // By the second depth the key 3 is hit twice.
    #[test]
    fn hits_a_key_twice(rt: HostRuntime) {
        let mut few = [NO_KEY; 1];
        let mut keys = [NO_KEY; 2];
        let mut sums = [9; 3];
        assert_eq!(rt; write_lists([2, 0, 0], &mut few, &mut sums), None);
        assert_eq!(rt; sums, [9; 3]);
        assert_eq!(rt; write_lists([2, 0, 0], &mut keys, &mut sums), Some(2));
        assert!(rt; stands(keys[0], 3, 0, 0) && stands(keys[1], 7, 0, 0));
        assert_eq!(rt; sums, [16, 7, 9]);
    }

    // By both depths there are three keys, and no room for the third sum.
    #[test]
    fn takes_two_depths(rt: HostRuntime) {
        let mut keys = [NO_KEY; 3];
        let mut few = [9; 2];
        let mut sums = [9; 3];
        assert_eq!(rt; write_lists([2, 1, 0], &mut keys, &mut few), None);
        assert_eq!(rt; few, [9; 2]);
        assert_eq!(rt; write_lists([2, 1, 0], &mut keys, &mut sums), Some(3));
        assert!(rt;
            stands(keys[0], 3, 1, 0) && stands(keys[1], 3, 6, 0) && stands(keys[2], 7, 1, 0)
        );
        assert_eq!(rt; sums, [5, 11, 7]);
    }

    // [[[8, 9], []], [[3]]] below [[4, 5], [6]] below [1, 2].
    #[test]
    fn three_lists_deep(rt: HostRuntime) {
        let words = [
            1, 2, S0, D, 4, 5, S0, 6, S0, S1, D, 8, 9, S0, S0, S1, 3, S0, S1, S2, D, 0, 1, S0, S0,
            S1, 2, S0, S1, S2, D,
        ];
        let values = [5, 7, 11];
        let mut nest = BARE;
        nest.tapes[0] = Part { from: 0, to: 4 };
        nest.tapes[1] = Part { from: 4, to: 11 };
        nest.tapes[2] = Part { from: 11, to: 21 };
        nest.depth = 3;
        let tape = Part { from: 21, to: 31 };
        let mut keys = [NO_KEY; 3];
        let mut sums = [9; 3];
        let n = write::<Count>(
            &words,
            &values,
            leaves(tape, nest, [3, 1, 2]),
            &mut keys,
            &mut sums,
            0,
        );
        assert_eq!(rt; n, Some(3));
        assert!(rt;
            stands(keys[0], 3, 2, 6) && stands(keys[1], 8, 1, 4) && stands(keys[2], 9, 1, 4)
        );
        assert_eq!(rt; sums, [11, 5, 7]);
    }
}
