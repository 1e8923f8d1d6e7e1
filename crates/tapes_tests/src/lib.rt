// Tapes of depth 0 to 3, with empty fibers, through the blocks: with exactly enough words, and with one too few.
#![tactic(auto)]

#[cfg(test)]
mod tests {
    use aligning::align::align;
    use aligning::repeat::repeat;
    use merging::join::join;
    use merging::meet::meet;
    use tapes::part::Part;
    use tapes::root::root;

    const S0: u32 = 0x8000_0000;

    const S1: u32 = 0x8000_0001;

    const S2: u32 = 0x8000_0002;

    const N: u32 = 0x8000_00FE;

    const D: u32 = 0x8000_00FF;

    #[test]
    fn root_takes_two_words(rt: HostRuntime) {
        let mut words = [7; 4];
        assert_eq!(rt; root(&mut words, 3), None);
        assert_eq!(rt; root(&mut words, 5), None);
        assert_eq!(rt; words, [7; 4]);
        assert_eq!(rt; root(&mut words, 2), Some(2));
        assert_eq!(rt; words, [7, 7, 0, D]);
    }

    // MEET and JOIN of [[0, 3], [5]] and [[1, 3], []]
    #[test]
    fn merges(rt: HostRuntime) {
        let a = Part { from: 0, to: 7 };
        let b = Part { from: 7, to: 13 };
        let before = [
            0, 3, S0, 5, S0, S1, D, 1, 3, S0, S0, S1, D, 7, 7, 7, 7, 7, 7, 7, 7,
        ];
        let mut words = before;
        assert_eq!(rt; meet(&mut words[0..17], 13, a, b), None);
        assert_eq!(rt; join(&mut words[0..20], 13, a, b), None);
        assert_eq!(rt; words, before);
        assert_eq!(rt; meet(&mut words[0..18], 13, a, b), Some(5));
        let met = [
            0, 3, S0, 5, S0, S1, D, 1, 3, S0, S0, S1, D, 3, S0, S0, S1, D, 7, 7, 7,
        ];
        assert_eq!(rt; words, met);
        assert_eq!(rt; join(&mut words, 13, a, b), Some(8));
        let joined = [
            0, 3, S0, 5, S0, S1, D, 1, 3, S0, S0, S1, D, 0, 1, 3, S0, 5, S0, S1, D,
        ];
        assert_eq!(rt; words, joined);
    }

    // The references 8 and none of [[8, none], []] for the fibers of [[[1, 2], []], []]; and one reference for an empty fiber.
    #[test]
    fn repeats(rt: HostRuntime) {
        let refs = Part { from: 0, to: 6 };
        let z = Part { from: 6, to: 14 };
        let before = [
            8, N, S0, S0, S1, D, 1, 2, S0, S0, S1, S1, S2, D, 7, 7, 7, 7, 7, 7, 7, 7,
        ];
        let mut words = before;
        assert_eq!(rt; repeat(&mut words[0..21], 14, refs, z), None);
        assert_eq!(rt; words, before);
        assert_eq!(rt; repeat(&mut words, 14, refs, z), Some(8));
        let repeated = [
            8, N, S0, S0, S1, D, 1, 2, S0, S0, S1, S1, S2, D, 8, 8, S0, S0, S1, S1, S2, D,
        ];
        assert_eq!(rt; words, repeated);
        let mut few = [4, D, S0, D, 7, 7];
        let root = Part { from: 0, to: 2 };
        assert_eq!(rt; repeat(&mut few, 4, root, Part { from: 2, to: 4 }), Some(2));
        assert_eq!(rt; few, [4, D, S0, D, S0, D]);
    }

    // [[0, 3], [], [5]] with the references [[10, 11], [], [none]] at [[1, 3], [2], [5]]
    #[test]
    fn aligns(rt: HostRuntime) {
        let crd = Part { from: 0, to: 8 };
        let refs = Part { from: 8, to: 16 };
        let z = Part { from: 16, to: 25 };
        let mut words = [7; 34];
        let tapes = [
            0, 3, S0, S0, 5, S0, S1, D, 10, 11, S0, S0, N, S0, S1, D, 1, 3, S0, 2, S0, 5, S0, S1, D,
        ];
        words[0..25].copy_from_slice(&tapes);
        assert_eq!(rt; align(&mut words[0..33], 25, crd, refs, z), None);
        assert_eq!(rt; words[25], 7);
        assert_eq!(rt; align(&mut words, 25, crd, refs, z), Some(9));
        assert!(rt; words[25..34] == [N, 11, S0, N, S0, N, S0, S1, D]);
    }
}
