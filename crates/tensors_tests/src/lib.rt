// Tests of STORE on small tensors of counts.
#![tactic(auto)]

#[cfg(test)]
mod tests {
    use formats::{Compressed, Dense};
    use levels::Two;
    use plans::StoreFault;
    use semiring::Count;
    use slots::{SlotAreas, SlotSizes};
    use std::alloc::Global;
    use std::test::Fail;
    use tensors::{StoreRequest, lookup, store};

    // Areas full of sevens: eight slots of 6 positions and 8 level words.
    fn sevens(heap: Global) -> Result<SlotAreas<u32>, Fail> {
        let room = SlotSizes::new(6, 8).ok_or_else(|| Fail::new("sizes"))?;
        let words = vec![in heap; 7u32; 64]?;
        let values = vec![in heap; 7u32; 48]?;
        SlotAreas::new(room, words, values).map_err(|_| Fail::new("areas"))
    }

    // Whether all words but those from `from` up to `to` are sevens.
    fn kept_but(xs: &[u32], from: usize, to: usize) -> bool {
        xs.iter()
            .enumerate()
            .all(|(i, x)| from <= i && i < to || *x == 7)
    }

    fn put(
        areas: &mut SlotAreas<u32>,
        slot: usize,
        extents: &[u32],
        formats: &[u8],
        coordinates: &[u32],
        entries: &[u32],
    ) -> Result<usize, StoreFault> {
        let request = StoreRequest {
            slot,
            rank: extents.len(),
            extents,
            formats,
            coordinates,
            entries,
        };
        store::<Count, Two<Dense, Compressed>>(areas, &request)
    }

    fn at(areas: &SlotAreas<u32>, slot: usize, coordinates: &[u32]) -> Result<u32, Fail> {
        let count = lookup::<Count, Two<Dense, Compressed>>(areas, slot, coordinates);
        Ok(count.ok_or_else(|| Fail::new("no value"))?.value)
    }

    #[test]
    fn mixed_matrix(rt: HostRuntime) -> Result<(), Fail> {
        let mut areas = sevens(rt.alloc())?;
        let used = put(
            &mut areas,
            1,
            &[2, 3],
            &[0, 1],
            &[0, 1, 1, 0, 1, 2],
            &[5, 6, 8],
        );
        assert_eq!(rt; used, Ok(3));
        assert_eq!(rt; at(&areas, 1, &[0, 1])?, 5);
        assert_eq!(rt; at(&areas, 1, &[0, 2])?, 0);
        assert_eq!(rt; at(&areas, 1, &[1, 2])?, 8);
        assert!(rt; kept_but(&areas.words, 8, 14));
        assert!(rt; kept_but(&areas.values, 6, 9));
        Ok(())
    }

    #[test]
    fn full_and_empty(rt: HostRuntime) -> Result<(), Fail> {
        let mut areas = sevens(rt.alloc())?;
        assert_eq!(rt; put(&mut areas, 0, &[6], &[0], &[2, 5], &[3, 4]), Ok(6));
        assert_eq!(rt; at(&areas, 0, &[5])?, 4);
        assert_eq!(rt; at(&areas, 0, &[3])?, 0);
        assert_eq!(rt; put(&mut areas, 7, &[6], &[1], &[], &[]), Ok(0));
        assert_eq!(rt; at(&areas, 7, &[3])?, 0);
        assert!(rt; kept_but(&areas.values, 0, 6));
        Ok(())
    }

    #[test]
    fn ranks_zero_and_three(rt: HostRuntime) -> Result<(), Fail> {
        let mut areas = sevens(rt.alloc())?;
        assert_eq!(rt; put(&mut areas, 2, &[], &[], &[], &[9]), Ok(1));
        assert_eq!(rt; at(&areas, 2, &[])?, 9);
        let cube = put(
            &mut areas,
            3,
            &[2, 2, 2],
            &[1, 0, 1],
            &[1, 0, 1, 1, 1, 0],
            &[4, 5],
        );
        assert_eq!(rt; cube, Ok(2));
        assert_eq!(rt; at(&areas, 3, &[1, 1, 0])?, 5);
        assert_eq!(rt; at(&areas, 3, &[0, 0, 1])?, 0);
        Ok(())
    }

    #[test]
    fn refusals_change_nothing(rt: HostRuntime) -> Result<(), Fail> {
        let mut areas = sevens(rt.alloc())?;
        assert_eq!(rt;
            put(&mut areas, 8, &[6], &[0], &[], &[]),
            Err(StoreFault::Slot(8))
        );
        assert_eq!(rt;
            put(&mut areas, 0, &[0], &[0], &[], &[]),
            Err(StoreFault::Shape)
        );
        assert_eq!(rt;
            put(&mut areas, 0, &[6], &[1], &[2, 6], &[1, 1]),
            Err(StoreFault::Entry(1))
        );
        assert_eq!(rt;
            put(&mut areas, 0, &[6], &[1], &[2, 2], &[1, 1]),
            Err(StoreFault::Entry(1))
        );
        assert_eq!(rt;
            put(&mut areas, 0, &[7], &[0], &[1], &[1]),
            Err(StoreFault::Room)
        );
        assert!(rt; kept_but(&areas.words, 0, 0) && kept_but(&areas.values, 0, 0));
        assert!(rt; areas.slots.get(0).is_none());
        Ok(())
    }
}
