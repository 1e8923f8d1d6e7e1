// A line with its graph, and how the lowering is held to it.
use graphs::{Graph, lower};
use reader::parse;
use std::process::Abort;
use std::test::Fail;

// A line, how many commands and streams its graph has, and the bytes of the graph as hexadecimal digits, a word for each command.
#[derive(Clone, Copy)]
pub struct Worked {
    pub line: &'static str,
    pub commands: usize,
    pub streams: u8,
    pub graph: &'static str,
}

fn digit(byte: u8) -> Result<u8, Fail> {
    match byte {
        b'0'..=b'9' => Ok(byte - b'0'),
        b'A'..=b'F' => Ok(byte - b'A' + 10),
        _ => Err(Fail::new("not a digit")),
    }
}

// Writes the bytes of a graph to the front of an area, and answers how many they are.
fn decode(rt: &impl Abort, graph: &str, area: &mut [u8; 1024]) -> Result<usize, Fail> {
    let mut len = 0;
    let mut high = None;
    for byte in graph.bytes() {
        if byte == b' ' {
            continue;
        }
        let low = digit(byte)?;
        match high {
            None => high = Some(low),
            Some(first) => {
                assert!(rt; len < area.len());
                area[len] = first << 4 | low;
                len += 1;
                high = None;
            }
        }
    }
    assert_eq!(rt; high, None);
    Ok(len)
}

// The line is lowered to its bytes, and the rest of the area stays: `area` holds what the graph's area has to hold.
fn lowers(
    rt: &impl Abort,
    worked: &Worked,
    graph: &mut Graph,
    area: &mut [u8; 1024],
) -> Result<(), Fail> {
    let line = worked.line;
    let text = line.as_bytes();
    let Ok(parsed) = parse(text) else {
        return Err(Fail::new("not a line"));
    };
    let len = decode(rt, worked.graph, area)?;
    assert_eq!(rt; lower(text, &parsed, graph), worked.commands, "{line}");
    assert_eq!(rt; graph.commands, worked.commands, "{line}");
    assert_eq!(rt; graph.streams, worked.streams, "{line}");
    assert_eq!(rt; graph.len, len, "{line}");
    assert!(rt; graph.bytes == *area, "{line}");
    Ok(())
}

// Each graph is written over the one before, the first over bytes that are none.
pub fn all_lower(rt: &impl Abort, lines: &[Worked]) -> Result<(), Fail> {
    let mut area = [0xA5; 1024];
    let mut graph = Graph {
        bytes: area,
        len: 1024,
        commands: 9,
        streams: 9,
    };
    for worked in lines {
        lowers(rt, worked, &mut graph, &mut area)?;
    }
    Ok(())
}
