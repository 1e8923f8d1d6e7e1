// Tests of the lowering: lines and the bytes of their graphs.
#![tactic(auto)]

#[cfg(test)]
mod tests {
    use graphs::{Graph, lower};
    use reader::parse;
    use std::process::Abort;
    use std::test::Fail;

    // The line is lowered to these commands and bytes, and nothing behind them changes.
    fn check_graph(
        rt: &impl Abort,
        text: &[u8],
        commands: usize,
        bytes: &[u8],
    ) -> Result<(), Fail> {
        let Ok(parsed) = parse(text) else {
            return Err(Fail::new("not a line"));
        };
        let mut graph = Graph::new();
        assert_eq!(rt; lower(text, &parsed, &mut graph), commands);
        assert!(rt; graph.len == bytes.len() && graph.len <= 1024);
        assert_eq!(rt; &graph.bytes[0..graph.len], bytes);
        assert_eq!(rt;
            &graph.bytes[graph.len..1024],
            &[0u8; 1024][graph.len..1024]
        );
        Ok(())
    }

    #[test]
    fn worked_graph(rt: HostRuntime) -> Result<(), Fail> {
        check_graph(
            &rt,
            b"R()=A(i)*B(i);i",
            12,
            b"\x01\x00\x01\x01\x02\x00\x00\x00\x02\x03\x02\x01\x00\x01\x04\x05\x03\x02\x04\x06\x05\x02\x03\x06\x07\x05\x04\x05\x06\x08\x07\x00\x07\x09\x07\x01\x08\x0A\x08\x09\x0A\x0B\x0A\x0B\x0C\x0B\x00\x0C\xFF\xFF\xFF\xFF\x00\x00\x00\x00",
        )
    }

    #[test]
    fn no_variables(rt: HostRuntime) -> Result<(), Fail> {
        check_graph(
            &rt,
            b"R()=A();",
            3,
            b"\x01\x00\x07\x00\x00\x01\x0B\x00\x01\xFF\xFF\xFF\xFF\x00\x00\x00\x00",
        )
    }

    // The keys are depths: i is looped first. With i reduced outside of j, no SUM takes it away.
    #[test]
    fn keys_are_depths(rt: HostRuntime) -> Result<(), Fail> {
        check_graph(
            &rt,
            b"R(j,i)=A(i,j);i,j",
            7,
            b"\x01\x00\x02\x00\x00\x00\x01\x02\x05\x01\x02\x01\x03\x02\x00\x01\x03\x04\x05\x05\x04\x05\x04\x06\x07\x00\x06\x07\x0B\x02\x07\x01\x04\xFF\xFF\x02\x01\x00\x00",
        )?;
        check_graph(
            &rt,
            b"R(j)=A(i,j);i,j",
            7,
            b"\x01\x00\x02\x00\x00\x00\x01\x02\x05\x01\x02\x01\x03\x02\x00\x01\x03\x04\x05\x05\x04\x05\x04\x06\x07\x00\x06\x07\x0B\x02\x07\x01\x04\xFF\xFF\x02\x00\x00\x00",
        )
    }

    // JOIN of B and C first, then MEET from the left; ADD and MUL in the same order.
    #[test]
    fn inner_parts_first(rt: HostRuntime) -> Result<(), Fail> {
        check_graph(
            &rt,
            b"R(i)=A(i)*(B(i)+C(i))*D(i);i",
            23,
            b"\x01\x00\x01\x01\x01\x02\x01\x03\x02\x00\x00\x00\x04\x05\x02\x01\x00\x01\x06\x07\x02\x02\x00\x02\x08\x09\x02\x03\x00\x03\x0A\x0B\x04\x06\x08\x0C\x03\x04\x0C\x0D\x03\x0D\x0A\x0E\x05\x04\x05\x0E\x0F\x05\x06\x07\x0E\x10\x05\x08\x09\x0E\x11\x05\x0A\x0B\x0E\x12\x07\x00\x0F\x13\x07\x01\x10\x14\x07\x02\x11\x15\x07\x03\x12\x16\x09\x14\x15\x17\x08\x13\x17\x18\x08\x18\x16\x19\x0B\x01\x19\x0E\xFF\xFF\xFF\x01\x00\x00\x00",
        )
    }

    // B is repeated over i; the stream numbers of the second term go on.
    #[test]
    fn two_terms(rt: HostRuntime) -> Result<(), Fail> {
        check_graph(
            &rt,
            b"R(i)=A(i)*B()+((C(i)));i",
            14,
            b"\x01\x00\x01\x01\x02\x00\x00\x00\x02\x03\x05\x02\x03\x02\x04\x06\x01\x02\x05\x07\x00\x04\x06\x07\x01\x05\x07\x08\x06\x07\x08\x0B\x01\x08\x02\xFF\xFF\xFF\x01\x00\x00\x01\x09\x02\x02\x00\x09\x0A\x0B\x05\x0A\x0B\x0A\x0C\x07\x02\x0C\x0D\x0B\x01\x0D\x0A\xFF\xFF\xFF\x01\x00\x00\x00",
        )
    }
}

#[cfg(test)]
mod alone;
#[cfg(test)]
mod brackets;
#[cfg(test)]
mod nodes;
#[cfg(test)]
mod products;
#[cfg(test)]
mod scalars;
#[cfg(test)]
mod terms;
#[cfg(test)]
mod topics;
#[cfg(test)]
mod wide;
#[cfg(test)]
mod worked;
